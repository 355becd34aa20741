//! What random lines are made of.

use crate::calls::{Form, Named, Path, Target};

pub const ROOT_NAME: &str = "ADF%20MotherNode";

pub const ROOT_LABEL: &str = "Root%20Node%20of%20ADF%20File";

/// The last two are no names.
pub static NODE_NAMES: [&str; 8] = ["A", "B", "C", "D", "a%20b", "%3B", "%", "x/y"];

/// The last one is no label.
pub static LABELS: [&str; 5] = [
    "%",
    "Zone_t",
    "a%20label",
    "%25",
    "abcdefghijklmnopqrstuvwxyzabcdefg",
];

pub static NO_DATA: Form = Form {
    kind: "MT",
    dims: "-",
    rank: 0,
    size: 0,
    refusal: None,
};

/// That of a link, which is never asked: links are followed first.
pub static LINK: Form = Form {
    kind: "LK",
    dims: "1",
    rank: 1,
    size: 1,
    refusal: None,
};

/// The last four are refused.
pub static FORMS: [Form; 14] = [
    Form {
        kind: "MT",
        dims: "-",
        rank: 0,
        size: 0,
        refusal: None,
    },
    Form {
        kind: "C1",
        dims: "6",
        rank: 1,
        size: 6,
        refusal: None,
    },
    Form {
        kind: "C1",
        dims: "2",
        rank: 1,
        size: 2,
        refusal: None,
    },
    Form {
        kind: "C1",
        dims: "3,2",
        rank: 2,
        size: 6,
        refusal: None,
    },
    Form {
        kind: "C1",
        dims: "2,4",
        rank: 2,
        size: 8,
        refusal: None,
    },
    Form {
        kind: "I4",
        dims: "1",
        rank: 1,
        size: 4,
        refusal: None,
    },
    Form {
        kind: "I4",
        dims: "2",
        rank: 1,
        size: 8,
        refusal: None,
    },
    Form {
        kind: "R8",
        dims: "1",
        rank: 1,
        size: 8,
        refusal: None,
    },
    Form {
        kind: "X4",
        dims: "1",
        rank: 1,
        size: 8,
        refusal: None,
    },
    Form {
        kind: "B1",
        dims: "8",
        rank: 1,
        size: 8,
        refusal: None,
    },
    Form {
        kind: "I4",
        dims: "0",
        rank: 1,
        size: 0,
        refusal: Some("E14 BadShape"),
    },
    Form {
        kind: "LK",
        dims: "3",
        rank: 1,
        size: 0,
        refusal: Some("E14 BadShape"),
    },
    Form {
        kind: "MT",
        dims: "1",
        rank: 1,
        size: 0,
        refusal: Some("E14 BadShape"),
    },
    Form {
        kind: "C1",
        dims: "1073741825",
        rank: 1,
        size: 0,
        refusal: Some("E26 TooLarge"),
    },
];

pub static PATHS: [Path; 11] = [
    Path {
        spelled: "/",
        is_absolute: true,
        names: &[],
    },
    Path {
        spelled: "%",
        is_absolute: false,
        names: &[""],
    },
    Path {
        spelled: "/A",
        is_absolute: true,
        names: &["A"],
    },
    Path {
        spelled: "/B",
        is_absolute: true,
        names: &["B"],
    },
    Path {
        spelled: "/A/B",
        is_absolute: true,
        names: &["A", "B"],
    },
    Path {
        spelled: "/C/D",
        is_absolute: true,
        names: &["C", "D"],
    },
    Path {
        spelled: "A",
        is_absolute: false,
        names: &["A"],
    },
    Path {
        spelled: "B/C",
        is_absolute: false,
        names: &["B", "C"],
    },
    Path {
        spelled: "D",
        is_absolute: false,
        names: &["D"],
    },
    Path {
        spelled: "/A/",
        is_absolute: true,
        names: &["A", ""],
    },
    Path {
        spelled: "/B/A/C",
        is_absolute: true,
        names: &["B", "A", "C"],
    },
];

/// The last two are no link texts.
pub static TARGETS: [Target; 11] = [
    Target {
        spelled: "% /A",
        is_text: true,
        file: Named::Own,
        names: &["A"],
    },
    Target {
        spelled: "% /B",
        is_text: true,
        file: Named::Own,
        names: &["B"],
    },
    Target {
        spelled: "% /A/B",
        is_text: true,
        file: Named::Own,
        names: &["A", "B"],
    },
    Target {
        spelled: "a.adf /A",
        is_text: true,
        file: Named::Number(0),
        names: &["A"],
    },
    Target {
        spelled: "a.adf /B/C",
        is_text: true,
        file: Named::Number(0),
        names: &["B", "C"],
    },
    Target {
        spelled: "b.adf /",
        is_text: true,
        file: Named::Number(1),
        names: &[],
    },
    Target {
        spelled: "b.adf /A",
        is_text: true,
        file: Named::Number(1),
        names: &["A"],
    },
    Target {
        spelled: "b.adf /C",
        is_text: true,
        file: Named::Number(1),
        names: &["C"],
    },
    Target {
        spelled: "c.adf /A",
        is_text: true,
        file: Named::Nowhere,
        names: &["A"],
    },
    Target {
        spelled: "x>y /A",
        is_text: false,
        file: Named::Own,
        names: &[],
    },
    Target {
        spelled: "% A",
        is_text: false,
        file: Named::Own,
        names: &[],
    },
];

/// Where it is the child `C` of the root, a link of this text leads to itself.
pub static TO_ITSELF: Target = Target {
    spelled: "% /C",
    is_text: true,
    file: Named::Own,
    names: &["C"],
};
