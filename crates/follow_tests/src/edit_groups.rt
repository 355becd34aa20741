//! Worked groups of edits: in which file they are done, where they stop, and what is then written or
//! dropped.

ghost use Rattle.std.specs.Prelude.{◌<◌, ◌^◌, IfOk, length};

use crate::kept::{KeptFile, KeptFiles, KeptNode, State};
use crate::scripted::{Counts, Scripted};
use adf_follow::edit_group;
use adf_model::{AdfError, Edit, EditError, NodeId, Serials, Text};
use std::alloc::Global;
use std::test::Fail;

// ---- files

pub(crate) fn text(alloc: Global, bytes: &[u8]) -> Result<Text, Fail> {
    Ok(Text::new(bytes.to_vec(alloc)?))
}

fn file(alloc: Global, name: &[u8], state: State, link: &[u8]) -> Result<KeptFile, Fail> {
    let mut nodes = Vec::new(alloc);
    nodes.push(KeptNode {
        name: text(alloc, b"r")?,
        text: None,
        children: [1].to_vec(alloc)?,
    })?;
    nodes.push(KeptNode {
        name: text(alloc, b"K")?,
        text: Some(text(alloc, link)?),
        children: Vec::new(alloc),
    })?;
    Ok(KeptFile {
        name: text(alloc, name)?,
        state,
        nodes,
    })
}

// In `a` and in `b` a link K to the root of the other.
pub(crate) fn files(alloc: Global, second: State, refused: u64) -> Result<Scripted, Fail>
    ensures { IfOk result (λ files. length files.kept.files.items < 2 ^ 32) }
{
    let one = file(alloc, b"a", State::Open, b"b>/")?;
    let other = file(alloc, b"b", second, b"a>/")?;
    let mut files = Vec::new(alloc);
    files.push(one)?;
    files.push(other)?;
    Ok(Scripted {
        kept: KeptFiles { alloc, files },
        refused,
        counts: Counts {
            steps: 0,
            commits: 0,
            undone: 0,
        },
    })
}

// ---- groups

pub(crate) fn at(file: u32, serial: u64) -> NodeId {
    NodeId { file, serial }
}

fn created_under(alloc: Global, parents: &[NodeId]) -> Result<Vec<Edit>, Fail> {
    let mut edits = Vec::new(alloc);
    for parent in parents {
        edits.push(Edit::Create {
            parent: *parent,
            name: text(alloc, b"N")?,
            label: text(alloc, b"")?,
        })?;
    }
    Ok(edits)
}

// From files in which nothing waits.
#[tactic(auto, using(crate::proofs::ScriptLaws::none_wait, crate::proofs::ScriptLaws::none_laid))]
fn answer(alloc: Global, files: &mut Scripted, edits: &[Edit]) -> Result<Serials, EditError>
    requires { length files.old.kept.files.items < 2 ^ 32 }
{
    edit_group(alloc, files, edits)
}

// Whether a node is made under each of these, or the group stops where it is wanted; and how often
// its edits were done, written and dropped.
fn makes(
    alloc: Global,
    second: State,
    refused: u64,
    parents: &[NodeId],
    wanted: Result<&[NodeId], (usize, AdfError)>,
    counts: [u64; 3],
) -> Result<bool, Fail> {
    let mut files = files(alloc, second, refused)?;
    let edits = created_under(alloc, parents)?;
    let answered = match (answer(alloc, &mut files, &edits), wanted) {
        (Ok(created), Ok(wanted)) => created.items() == wanted,
        (Err(refusal), Err((at, error))) => refusal == EditError { at, error },
        _ => false,
    };
    let [steps, commits, undone] = counts;
    Ok(
        answered
            && files.counts
                == Counts {
                    steps,
                    commits,
                    undone,
                },
    )
}

#[test]
fn groups_are_written_once_or_dropped(rt: HostRuntime) -> Result<(), Fail> {
    let here = at(0, 0);
    let three: [NodeId; 3] = [here, here, here];
    let made: [NodeId; 3] = [at(0, 1), at(0, 2), at(0, 3)];
    let alloc = rt.alloc();
    assert!(rt; makes(alloc, State::Open, 0, &three, Ok(&made), [3, 1, 0])?);
    assert!(rt; makes(alloc, State::Open, 0, &[], Ok(&[]), [0, 0, 0])?);
    assert!(rt;
        makes(
            alloc,
            State::Open,
            1,
            &three,
            Err((0, AdfError::NoSuchNode)),
            [1, 0, 0]
        )?
    );
    assert!(rt;
        makes(
            alloc,
            State::Open,
            3,
            &three,
            Err((2, AdfError::NoSuchNode)),
            [3, 0, 1]
        )?
    );
    Ok(())
}

#[test]
fn groups_stay_in_the_file_that_the_first_edit_reaches(rt: HostRuntime) -> Result<(), Fail> {
    let alloc = rt.alloc();
    let through: [NodeId; 2] = [at(0, 1), at(1, 0)];
    let made: [NodeId; 2] = [at(1, 1), at(1, 2)];
    let apart: [NodeId; 2] = [at(0, 0), at(0, 1)];
    let dead: [NodeId; 2] = [at(0, 0), at(0, 2)];
    let far: [NodeId; 2] = [at(0, 0), at(2, 0)];
    assert!(rt; makes(alloc, State::Open, 0, &through, Ok(&made), [2, 1, 0])?);
    assert!(rt;
        makes(
            alloc,
            State::Open,
            0,
            &apart,
            Err((1, AdfError::OtherFile)),
            [1, 0, 1]
        )?
    );
    assert!(rt;
        makes(
            alloc,
            State::Open,
            0,
            &dead,
            Err((1, AdfError::NoSuchNode)),
            [1, 0, 1]
        )?
    );
    assert!(rt;
        makes(
            alloc,
            State::Open,
            0,
            &far,
            Err((1, AdfError::NoSuchFile)),
            [1, 0, 1]
        )?
    );
    assert!(rt;
        makes(
            alloc,
            State::Closed,
            0,
            &through,
            Err((0, AdfError::LinkMissing)),
            [0; 3]
        )?
    );
    assert!(rt;
        makes(
            alloc,
            State::Broken,
            0,
            &through,
            Err((0, AdfError::Broken)),
            [0; 3]
        )?
    );
    Ok(())
}
