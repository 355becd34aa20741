//! All extents of a file by place.
use crate::changes::Change;
use crate::looks::Look;
use crate::sessions::{Session, run_new};
use crate::steps::Step;
use adf_format::{DataType, ExtentKind};
use adf_model::Mode;
use std::test::Fail;

/// Headers have 246 bytes, a table of eight entries 372, and the least chunk 32.
const MADE: [Change; 4] = [
    Change::Create(0, b"A", b"A_t"),
    Change::Create(1, b"B", b"B_t"),
    Change::SetDims(2, (DataType::C1, &[4])),
    Change::PutAll(2, b"abcd"),
];

const STEPS: [Step; 5] = [
    Step::Looks(Look::Map(&[
        (0, 186, ExtentKind::Header),
        (186, 80, ExtentKind::FreeTable),
        (266, 246, ExtentKind::Node),
    ])),
    Step::Group(&MADE, &[1, 2]),
    Step::Looks(Look::Map(&[
        (0, 186, ExtentKind::Header),
        (186, 80, ExtentKind::FreeTable),
        (266, 246, ExtentKind::Node),
        (512, 246, ExtentKind::Node),
        (758, 372, ExtentKind::SubNodes),
        (1130, 246, ExtentKind::Node),
        (1376, 372, ExtentKind::SubNodes),
        (1748, 32, ExtentKind::DataChunk),
    ])),
    Step::Group(&[Change::Delete(2)], &[]),
    Step::Looks(Look::Map(&[
        (0, 186, ExtentKind::Header),
        (186, 80, ExtentKind::FreeTable),
        (266, 246, ExtentKind::Node),
        (512, 246, ExtentKind::Node),
        (758, 372, ExtentKind::SubNodes),
        (1130, 246, ExtentKind::FreeChunk),
        (1376, 372, ExtentKind::SubNodes),
        (1748, 32, ExtentKind::FreeChunk),
    ])),
];

const SESSIONS: [Session; 1] = [Session {
    mode: Mode::New,
    steps: &STEPS,
    left: (2, 2),
    same: false,
}];

#[test]
fn all_extents_are_listed_by_place(rt: HostRuntime) -> Result<(), Fail> {
    run_new(&rt, rt.alloc(), false, &SESSIONS)?;
    Ok(())
}
