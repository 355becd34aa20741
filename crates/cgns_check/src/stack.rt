//! The children that wait, by levels: those of the first node below, those of the next one last.

ghost use Rattle.std.specs.Prelude.{◌≡◌, ◌≤◌, ◌<◌, ◌+◌, ◌++◌, ◌∷◌, [], map, reverse, IfOk, IfErr, OnOk, OnErr, vec_len, vec_capacity};
ghost use Rattle.adf_model.specs.Spelling.{spelled};
ghost use Rattle.sids_rules.specs.Findings.{printed_path};
ghost use Rattle.cgns_check.specs.Levels.{without_done, after_giving};
ghost use Rattle.cgns_check.specs.Nexts.{IsNextOf};

use crate::frame::{Frame, Stop};
use adf_model::{AdfError, Text, spell};
use std::alloc::Global;

/// How many levels there may be: a path has at most 255 names to a link that is entered, and 255
/// behind it.
const LEVELS: usize = 510;

/// Levels of which no child waits are given up.
pub fn drop_done(frames: &mut Vec<Frame>)
    ensures { reverse frames.new.items ≡ without_done (reverse frames.old.items) }
{
    while let Some(frame) = frames.last() {
        if frame.first().is_some() {
            return;
        }
        frames.pop();
    }
}

/// The next node: where it stands, and its path as it is printed.
#[derive(Drop)]
pub struct Next {
    pub stop: Stop,
    pub path: Text,
}

/// The next of the children that wait, where the last level has one.
pub fn next_of(alloc: Global, frames: &[Frame]) -> Result<Option<Next>, AdfError>
    ensures next { IfOk result (IsNextOf (reverse frames.now)) }
    ensures want { IfErr result (λ e. e ≡ AdfError.Memory) }
{
    let Some((frame, above)) = frames.split_last() else {
        return Ok(None);
    };
    let Some(child) = frame.first() else {
        return Ok(None);
    };
    match path_below(alloc, above, child.name.items()) {
        Ok(path) => Ok(Some(Next {
            stop: frame.stop_at(child.node),
            path,
        })),
        Err(error) => Err(error),
    }
}

/// The path, as it is printed, of a node below the nodes that these levels gave last.
fn path_below(alloc: Global, above: &[Frame], name: &[u8]) -> Result<Text, AdfError>
    ensures path { IfOk result (λ path.
        path ≡ printed_path (map (λ level. level.given) above.now ++ name.now ∷ [])) }
    ensures want { IfErr result (λ e. e ≡ AdfError.Memory) }
{
    let mut path = Vec::new(alloc);
    for frame in above {
        match add_name(alloc, &mut path, frame.given()) {
            Ok(()) => {}
            Err(error) => return Err(error),
        }
    }
    match add_name(alloc, &mut path, name) {
        Ok(()) => Ok(Text::new(path)),
        Err(error) => Err(error),
    }
}

/// Puts a slash and a name as it is printed behind a path.
fn add_name(alloc: Global, path: &mut Vec<u8>, name: &[u8]) -> Result<(), AdfError>
    ensures added { OnOk result (path.new.items ≡ path.old.items ++ 47 ∷ spelled name.now) }
    ensures want { IfErr result (λ e. e ≡ AdfError.Memory) }
{
    let spelling = match spell(alloc, name) {
        Ok(spelling) => spelling,
        Err(_) => return Err(AdfError::Memory),
    };
    match path.push(b'/') {
        Ok(()) => {}
        Err(_) => return Err(AdfError::Memory),
    }
    match path.extend_from_slice(spelling.items()) {
        Ok(()) => Ok(()),
        Err(_) => Err(AdfError::Memory),
    }
}

/// The next child is given, and the children below it wait. A refusal leaves all.
pub fn give(frames: &mut Vec<Frame>, below: Option<Frame>) -> Result<(), AdfError>
    ensures given { OnOk result (reverse frames.new.items
        ≡ after_giving below (reverse frames.old.items)) }
    ensures refused { OnErr result (frames.new.items ≡ frames.old.items) }
    ensures want { IfErr result (λ e. e ≡ AdfError.Memory) }
{
    if frames.reserve(1).is_err() {
        return Err(AdfError::Memory);
    }
    if let Some(mut frame) = frames.pop() {
        frame.advance();
        put(frames, frame);
    }
    if let Some(frame) = below
        && frames.len() < LEVELS
    {
        put(frames, frame);
    }
    Ok(())
}

/// Puts a level where there is room for it.
fn put(frames: &mut Vec<Frame>, frame: Frame)
    requires { vec_len frames.old < vec_capacity frames.old }
    ensures items { frames.new.items ≡ frames.old.items ++ frame ∷ [] }
    ensures len { vec_len frames.new ≡ vec_len frames.old + 1 }
    ensures room { vec_capacity frames.old ≤ vec_capacity frames.new }
{
    if frames.push(frame).is_err() {
        unreachable!()
    }
}
