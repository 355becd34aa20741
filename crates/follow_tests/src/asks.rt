//! Worked queries: of which node they are answered, and where they are refused.

use crate::edit_groups::{at, files, text};
use crate::kept::State;
use adf_follow::ask;
use adf_model::{AdfError, NodeId, Query, Reply};
use std::alloc::Global;
use std::test::Fail;

fn answers(
    alloc: Global,
    second: State,
    query: &Query,
    wanted: Result<NodeId, AdfError>,
) -> Result<bool, Fail> {
    let mut files = files(alloc, second, 0)?;
    Ok(match (ask(alloc, &mut files, query), wanted) {
        (Ok(Reply::Node(node)), Ok(wanted)) => node == wanted,
        (Err(error), Err(wanted)) => error == wanted,
        _ => false,
    })
}

#[test]
fn queries_are_answered_of_the_node_that_is_reached(rt: HostRuntime) -> Result<(), Fail> {
    let rows = [
        (State::Open, at(0, 0), Ok(at(0, 0))),
        (State::Open, at(0, 1), Ok(at(1, 0))),
        (State::Open, at(1, 1), Ok(at(0, 0))),
        (State::Open, at(0, 2), Err(AdfError::NoSuchNode)),
        (State::Open, at(2, 0), Err(AdfError::NoSuchFile)),
        (State::Closed, at(1, 0), Err(AdfError::NotOpen)),
        (State::Broken, at(1, 0), Err(AdfError::Broken)),
        (State::Closed, at(0, 1), Err(AdfError::LinkMissing)),
        (State::Broken, at(0, 1), Err(AdfError::Broken)),
    ];
    for (second, node, wanted) in rows {
        let query = Query::Target { node };
        assert!(rt; answers(rt.alloc(), second, &query, wanted)?, "of {node:?}");
    }
    let found = Query::Find {
        node: at(0, 0),
        path: text(rt.alloc(), b"/K/K")?,
    };
    assert!(rt; answers(rt.alloc(), State::Open, &found, Ok(at(1, 1)))?);
    Ok(())
}
