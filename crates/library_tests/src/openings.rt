//! Openings, closings and discardings.

use crate::calls::{closes, discards, leads, library_of_two, opens};
use crate::files::{SECOND, device_with, empty_device, text_of};
use adf_model::{AdfError, Mode, NodeId, Query};
use cg_io::MemoryDevice;
use std::test::Fail;

#[test]
fn a_file_is_opened_in_each_mode(rt: HostRuntime) -> Result<(), Fail> {
    let alloc = rt.alloc();
    let second = device_with(alloc, &SECOND)?;
    let mut library = library_of_two(alloc, empty_device(alloc), second)?;
    assert!(rt; opens(&mut library, 2, Mode::New, Err(AdfError::NoSuchFile)));
    assert!(rt; closes(&mut library, 0, Err(AdfError::NotOpen)));
    assert!(rt; opens(&mut library, 0, Mode::NewWide, Ok(())));
    assert!(rt; opens(&mut library, 0, Mode::ReadOnly, Err(AdfError::AlreadyOpen)));
    assert!(rt; discards(&mut library, 0, Err(AdfError::AlreadyOpen)));
    assert!(rt; closes(&mut library, 0, Ok(())));
    assert!(rt; opens(&mut library, 0, Mode::New, Err(AdfError::NotEmpty)));
    assert!(rt; opens(&mut library, 0, Mode::ReadOnly, Ok(())));
    assert!(rt; opens(&mut library, 1, Mode::ReadWrite, Ok(())));
    let next = Query::Next {
        node: NodeId { file: 1, serial: 0 },
    };
    assert!(rt; leads(&mut library, &next, Ok(NodeId { file: 1, serial: 4 })));
    assert!(rt; closes(&mut library, 0, Ok(())));
    assert!(rt; discards(&mut library, 0, Ok(())));
    assert!(rt; opens(&mut library, 0, Mode::New, Err(AdfError::NoSuchFile)));
    assert!(rt; leads(&mut library, &next, Ok(NodeId { file: 1, serial: 4 })));
    Ok(())
}

#[test]
fn bytes_that_are_no_layout_are_refused_by_rule_and_place(rt: HostRuntime) -> Result<(), Fail> {
    let alloc = rt.alloc();
    let junk = text_of(alloc, b"no file")?;
    assert!(rt; junk.items().len() == 7);
    let junk = MemoryDevice::new(alloc, junk);
    let mut library = library_of_two(alloc, junk, empty_device(alloc))?;
    let short = Err(AdfError::Layout { rule: 1, place: 0 });
    assert!(rt; opens(&mut library, 0, Mode::ReadWrite, short));
    assert!(rt; opens(&mut library, 0, Mode::New, Err(AdfError::NotEmpty)));
    assert!(rt; opens(&mut library, 1, Mode::ReadOnly, short));
    assert!(rt; opens(&mut library, 1, Mode::New, Ok(())));
    assert!(rt;
        leads(
            &mut library,
            &Query::Parent {
                node: NodeId { file: 1, serial: 0 }
            },
            Err(AdfError::NotAChild)
        )
    );
    Ok(())
}
