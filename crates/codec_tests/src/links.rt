//! Worked texts of links, and paths.

use adf_links::{LONGEST_LINK, components, join_link, parts_of_joined, split_link};
use adf_model::{AdfError, PathRange};
use std::alloc::Global;

// ---- texts. Each helper asks one thing and has no clause.

fn splits_at(text: &[u8], wanted: Option<(usize, usize)>) -> bool {
    split_link(text) == wanted
}

#[test]
fn texts_are_cut_at_their_first_mark(rt: HostRuntime) {
    let rows: [(&[u8], Option<(usize, usize)>); 13] = [
        (b"b.adf>/X", Some((5, 6))),
        (b">/", Some((0, 1))),
        (b">/A/B C", Some((0, 1))),
        (b"b>/A>B/>", Some((1, 2))),
        (b"", None),
        (b"/X", None),
        (b"b>", None),
        (b"b>X", None),
        (b"b>//", None),
        (b"b>/X/", None),
        (b"b>/A//B", None),
        (b"b>/A/..", None),
        (b"b>/ A", None),
    ];
    for (text, wanted) in rows {
        assert!(rt; splits_at(text, wanted), "of {text:?}");
    }
}

#[test]
fn texts_above_the_limit_are_still_cut(rt: HostRuntime) {
    let mut text = [b'f'; 4097];
    text[4095] = b'>';
    text[4096] = b'/';
    assert!(rt; splits_at(&text, Some((4095, 4096))));
}

fn joins_to(alloc: Global, file: &[u8], path: &[u8], wanted: &[u8]) -> Result<bool, AdfError> {
    let text = join_link(alloc, file, path)?;
    Ok(text.items() == wanted)
}

// Whether the text has this length, and is cut so.
fn joins_and_splits(
    alloc: Global,
    file: &[u8],
    path: &[u8],
    length: usize,
    wanted: (usize, usize),
) -> Result<bool, AdfError> {
    let text = join_link(alloc, file, path)?;
    Ok(text.items().len() == length && splits_at(text.items(), Some(wanted)))
}

fn join_refusal(alloc: Global, file: &[u8], path: &[u8]) -> Option<AdfError> {
    match join_link(alloc, file, path) {
        Ok(_) => None,
        Err(error) => Some(error),
    }
}

#[test]
fn texts_are_joined_up_to_their_limit(rt: HostRuntime) -> Result<(), AdfError> {
    assert!(rt; joins_to(rt.alloc(), b"b.adf", b"/A/B", b"b.adf>/A/B")?);
    assert!(rt; joins_to(rt.alloc(), b"", b"/", b">/")?);
    let file = [b'f'; 4096];
    assert!(rt; joins_and_splits(rt.alloc(), &file[..4093], b"/X", LONGEST_LINK, (4093, 4094))?);
    let rows: [(&[u8], &[u8], AdfError); 7] = [
        (&file[..4094], b"/X", AdfError::TooLarge),
        (&file, b"/", AdfError::TooLarge),
        (&file, b"X", AdfError::BadLink),
        (b"b>c", b"/X", AdfError::BadLink),
        (b"b", b"", AdfError::BadLink),
        (b"b", b"/A//B", AdfError::BadLink),
        (b"b", b"/A/", AdfError::BadLink),
    ];
    for (name, path, wanted) in rows {
        assert!(rt;
            join_refusal(rt.alloc(), name, path) == Some(wanted),
            "of {path:?}"
        );
    }
    Ok(())
}

// ---- components

fn has_components(alloc: Global, path: &[u8], wanted: &[PathRange]) -> Result<bool, AdfError> {
    let found = components(alloc, path)?;
    Ok(found.items() == wanted)
}

fn at(start: usize, end: usize) -> PathRange {
    PathRange { start, end }
}

#[test]
fn components_stand_between_slashes(rt: HostRuntime) -> Result<(), AdfError> {
    let rows: [(&[u8], &[PathRange]); 7] = [
        (b"/", &[]),
        (b"", &[at(0, 0)]),
        (b"//", &[at(1, 1), at(2, 2)]),
        (b"A", &[at(0, 1)]),
        (b"/A", &[at(1, 2)]),
        (b"A/B C", &[at(0, 1), at(2, 5)]),
        (b"/A//B/", &[at(1, 2), at(3, 3), at(4, 5), at(6, 6)]),
    ];
    for (path, wanted) in rows {
        assert!(rt; has_components(rt.alloc(), path, wanted)?, "of {path:?}");
    }
    Ok(())
}

#[test]
fn laws_are_calls() {
    parts_of_joined();
}
