//! Labels, as tables of steps.
use crate::files::{A, B, C, LINK};
use crate::steps::{Step, run_both, run_on};
use adf_model::AdfError;
use std::test::Fail;

const LONG_LABEL: &[u8; 32] = b"A_label_of_32_letters_is_a_label";

const LABELS: [Step; 9] = [
    Step::Label {
        node: 1,
        label: b"CGNSBase_t",
    },
    Step::Bytes {
        at: A,
        are: b"NoDeA                               CGNSBase_t                      00000001",
    },
    Step::Label {
        node: 4,
        label: LONG_LABEL,
    },
    Step::Bytes {
        at: C + 36,
        are: LONG_LABEL,
    },
    Step::Label {
        node: 2,
        label: b"",
    },
    Step::Bytes {
        at: B + 36,
        are: b"                                00000000",
    },
    Step::Label {
        node: 0,
        label: b"Root",
    },
    Step::Label {
        node: 4,
        label: b"z",
    },
    Step::Within {
        ranges: &[
            (302, 334),
            (A + 36, A + 68),
            (B + 36, B + 68),
            (C + 36, C + 68),
        ],
    },
];

#[test]
fn a_label_is_written_over_the_old_one(rt: HostRuntime) -> Result<(), Fail> {
    run_both(&rt, rt.alloc(), &LABELS)
}

const BAD_LABELS: [Step; 6] = [
    Step::NoLabel {
        node: 1,
        label: b"A_label_of_33_letters_is_no_label",
        error: AdfError::BadLabel,
    },
    Step::NoLabel {
        node: 1,
        label: b"a tab\t",
        error: AdfError::BadLabel,
    },
    Step::NoLabel {
        node: 3,
        label: b"\t",
        error: AdfError::LinkMissing,
    },
    Step::NoLabel {
        node: 5,
        label: b"Zone_t",
        error: AdfError::NoSuchNode,
    },
    Step::NoLabel {
        node: 6,
        label: b"\t",
        error: AdfError::NoSuchNode,
    },
    Step::Within { ranges: &[] },
];

#[test]
fn a_refused_label_changes_no_byte(rt: HostRuntime) -> Result<(), Fail> {
    run_both(&rt, rt.alloc(), &BAD_LABELS)
}

const READ_ONLY_LABELS: [Step; 5] = [
    Step::NoLabel {
        node: 5,
        label: b"Zone_t",
        error: AdfError::NoSuchNode,
    },
    Step::NoLabel {
        node: 3,
        label: b"Zone_t",
        error: AdfError::LinkMissing,
    },
    Step::NoLabel {
        node: 1,
        label: b"Zone_t",
        error: AdfError::ReadOnly,
    },
    Step::NoLabel {
        node: 1,
        label: b"\t",
        error: AdfError::ReadOnly,
    },
    Step::Within { ranges: &[] },
];

#[test]
fn a_file_that_is_read_only_keeps_its_labels(rt: HostRuntime) -> Result<(), Fail> {
    run_on(&rt, rt.alloc(), false, false, &READ_ONLY_LABELS)?;
    run_on(&rt, rt.alloc(), true, false, &READ_ONLY_LABELS)
}

const BROKEN_HEADERS: [Step; 4] = [
    Step::Put {
        at: A,
        bytes: b"NoDE",
    },
    Step::NoLabel {
        node: 1,
        label: b"\t",
        error: AdfError::Layout { rule: 15, place: A },
    },
    Step::Put {
        at: LINK + 96,
        bytes: b"L7",
    },
    Step::NoLabel {
        node: 3,
        label: b"Zone_t",
        error: AdfError::Layout {
            rule: 20,
            place: LINK + 96,
        },
    },
];

#[test]
fn a_header_that_changed_meanwhile_is_told(rt: HostRuntime) -> Result<(), Fail> {
    run_both(&rt, rt.alloc(), &BROKEN_HEADERS)
}
