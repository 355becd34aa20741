//! Worked walks. Each helper asks one thing, and says no more of the files than a walk requires.

ghost use Rattle.std.specs.Prelude.{◌<◌, ◌^◌, IfOk, length};

use crate::kept::{KeptFile, KeptFiles, KeptNode, State};
use adf_follow::{reach, search};
use adf_model::{AdfError, NodeId, Text};
use std::alloc::Global;
use std::test::Fail;

// ---- files

fn text(alloc: Global, bytes: &[u8]) -> Result<Text, Fail> {
    Ok(Text::new(bytes.to_vec(alloc)?))
}

fn node(alloc: Global, name: &[u8], children: &[u64]) -> Result<KeptNode, Fail> {
    Ok(KeptNode {
        name: text(alloc, name)?,
        text: None,
        children: children.to_vec(alloc)?,
    })
}

fn link(alloc: Global, name: &[u8], to: &[u8]) -> Result<KeptNode, Fail> {
    Ok(KeptNode {
        name: text(alloc, name)?,
        text: Some(text(alloc, to)?),
        children: Vec::new(alloc),
    })
}

fn file(alloc: Global, name: &[u8], state: State, nodes: Vec<KeptNode>) -> Result<KeptFile, Fail> {
    Ok(KeptFile {
        name: text(alloc, name)?,
        state,
        nodes,
    })
}

// In `a` the links K to X of `b`, L through K to Y, S to itself, M to a file that is not there, O to X
// of `a` by its own name, which is a node, and N to O without that name.
fn first_nodes(alloc: Global) -> Result<Vec<KeptNode>, Fail> {
    let mut nodes = Vec::new(alloc);
    nodes.push(node(alloc, b"r", &[1, 2, 3, 4, 5, 6, 7])?)?;
    nodes.push(link(alloc, b"K", b"b>/X")?)?;
    nodes.push(link(alloc, b"L", b">/K/Y")?)?;
    nodes.push(link(alloc, b"S", b">/S")?)?;
    nodes.push(link(alloc, b"M", b"c>/X")?)?;
    nodes.push(link(alloc, b"O", b"a>/X")?)?;
    nodes.push(link(alloc, b"N", b">/O")?)?;
    nodes.push(node(alloc, b"X", &[])?)?;
    Ok(nodes)
}

// In `b` X with its child Y.
fn second_nodes(alloc: Global) -> Result<Vec<KeptNode>, Fail> {
    let mut nodes = Vec::new(alloc);
    nodes.push(node(alloc, b"r", &[1])?)?;
    nodes.push(node(alloc, b"X", &[2])?)?;
    nodes.push(node(alloc, b"Y", &[])?)?;
    Ok(nodes)
}

fn two_files(alloc: Global, second: State) -> Result<KeptFiles, Fail>
    ensures { IfOk result (λ kept. length kept.files.items < 2 ^ 32) }
{
    let one = file(alloc, b"a", State::Open, first_nodes(alloc)?)?;
    let other = file(alloc, b"b", second, second_nodes(alloc)?)?;
    let mut files = Vec::new(alloc);
    files.push(one)?;
    files.push(other)?;
    Ok(KeptFiles { alloc, files })
}

// The name of a link in a row, as two letters.
fn letters(place: u8) -> [u8; 2] {
    [b'A' + place / 26, b'a' + place % 26]
}

// So many links in a row, each to the next, and a node at their end.
fn row_nodes(alloc: Global, links: u8) -> Result<Vec<KeptNode>, Fail> {
    let mut nodes = Vec::new(alloc);
    let mut children = Vec::new(alloc);
    for place in 0..links {
        children.push(u64::from(place) + 1)?;
    }
    children.push(u64::from(links) + 1)?;
    nodes.push(node(alloc, b"r", &children)?)?;
    for place in 0..links {
        let [first, last] = letters(place + 1);
        nodes.push(link(alloc, &letters(place), &[b'>', b'/', first, last])?)?;
    }
    nodes.push(node(alloc, &letters(links), &[])?)?;
    Ok(nodes)
}

fn row(alloc: Global, links: u8) -> Result<KeptFiles, Fail>
    ensures { IfOk result (λ kept. length kept.files.items < 2 ^ 32) }
{
    let one = file(alloc, b"a", State::Open, row_nodes(alloc, links)?)?;
    let mut files = Vec::new(alloc);
    files.push(one)?;
    Ok(KeptFiles { alloc, files })
}

// ---- walks

fn at(file: u32, serial: u64) -> NodeId {
    NodeId { file, serial }
}

fn reaches(
    alloc: Global,
    second: State,
    node: NodeId,
    wanted: Result<NodeId, AdfError>,
) -> Result<bool, Fail> {
    let mut files = two_files(alloc, second)?;
    Ok(reach(alloc, &mut files, node) == wanted)
}

fn finds(
    alloc: Global,
    second: State,
    node: NodeId,
    path: &[u8],
    wanted: Result<NodeId, AdfError>,
) -> Result<bool, Fail> {
    let mut files = two_files(alloc, second)?;
    Ok(search(alloc, &mut files, node, path) == wanted)
}

fn row_ends(alloc: Global, links: u8, wanted: Result<NodeId, AdfError>) -> Result<bool, Fail> {
    let mut files = row(alloc, links)?;
    Ok(reach(alloc, &mut files, at(0, 1)) == wanted)
}

#[test]
fn a_hundred_links_are_followed_and_no_more(rt: HostRuntime) -> Result<(), Fail> {
    assert!(rt; row_ends(rt.alloc(), 1, Ok(at(0, 2)))?);
    assert!(rt; row_ends(rt.alloc(), 100, Ok(at(0, 101)))?);
    assert!(rt; row_ends(rt.alloc(), 101, Err(AdfError::LinkChain))?);
    Ok(())
}

#[test]
fn links_lead_through_files_and_links(rt: HostRuntime) -> Result<(), Fail> {
    let rows = [
        (State::Open, at(0, 0), Ok(at(0, 0))),
        (State::Open, at(0, 1), Ok(at(1, 1))),
        (State::Open, at(0, 2), Ok(at(1, 2))),
        (State::Open, at(0, 3), Err(AdfError::LinkChain)),
        (State::Open, at(0, 4), Err(AdfError::LinkMissing)),
        (State::Open, at(0, 5), Ok(at(0, 7))),
        (State::Open, at(0, 6), Ok(at(0, 7))),
        (State::Closed, at(0, 1), Err(AdfError::LinkMissing)),
        (State::Closed, at(0, 2), Err(AdfError::LinkMissing)),
        (State::Broken, at(0, 1), Err(AdfError::Broken)),
        (State::Broken, at(0, 2), Err(AdfError::Broken)),
        (State::Broken, at(0, 6), Ok(at(0, 7))),
    ];
    for (second, node, wanted) in rows {
        assert!(rt; reaches(rt.alloc(), second, node, wanted)?, "of {node:?}");
    }
    Ok(())
}

#[test]
fn paths_are_searched_through_links(rt: HostRuntime) -> Result<(), Fail> {
    let rows: [(State, NodeId, &[u8], Result<NodeId, AdfError>); 9] = [
        (State::Open, at(0, 1), b"/K", Ok(at(0, 1))),
        (State::Open, at(0, 1), b"Y", Ok(at(1, 2))),
        (State::Open, at(0, 0), b"/K/Y", Ok(at(1, 2))),
        (State::Open, at(1, 2), b"/", Ok(at(1, 0))),
        (State::Open, at(0, 0), b"/K/Q", Err(AdfError::NotFound)),
        (State::Open, at(0, 0), b"", Err(AdfError::NotFound)),
        (State::Open, at(0, 0), b"/M/X", Err(AdfError::LinkMissing)),
        (State::Closed, at(0, 0), b"/K/Y", Err(AdfError::LinkMissing)),
        (State::Broken, at(0, 0), b"/K/Y", Err(AdfError::Broken)),
    ];
    for (second, node, path, wanted) in rows {
        assert!(rt;
            finds(rt.alloc(), second, node, path, wanted)?,
            "of {path:?}"
        );
    }
    Ok(())
}
