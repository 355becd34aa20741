//! The text of a link.

ghost use Rattle.std.specs.Prelude.{◌≡◌, ◌↔◌, ℕ, List, ◌<◌, ◌&&◌, ◌==◌, Err, IsTrue, IsFalse, IsSome, IfSome, IfOk, IfErr, length};
ghost use Rattle.std.specs.List.{position};
ghost use Rattle.adf_format.specs.Links.{is_link_file, is_link_path, is_link_text, link_text, file_part, path_part};
ghost use Rattle.adf_links.specs.LinkParts.{CutsLink, IsJoinRefusal};
ghost use Rattle.adf_model.specs.declared.error.AdfError.{AdfError};

use crate::paths::is_link_path;
use adf_model::{AdfError, Listing, Text};
use std::alloc::Global;

/// The bytes that a link's text has at most.
pub const LONGEST_LINK: usize = 4096;

/// The end of the file part and the start of the path of a link's text: none exactly where the
/// bytes are no link's text. It takes no memory, and texts of any length.
pub fn split_link(text: &[u8]) -> Option<(usize, usize)>
    ensures grammar { IsSome result ↔ IsTrue (is_link_text text.now) }
    ensures parts { IfSome result (λ parts. CutsLink text.now parts.0 parts.1) }
{
    let file_end = mark_in(text)?;
    let path_start = file_end + 1;
    if is_link_path(&text[path_start..]) {
        Some((file_end, path_start))
    } else {
        None
    }
}

// The place of the first `>`.
fn mark_in(text: &[u8]) -> Option<usize>
    ensures { result ≡ position (λ b. b == 62) text.now }
{
    text.iter().position(|b| *b == b'>')
}

/// The text of a link to a path in a file; an empty file is the link's own. It is refused with
/// BadLink exactly where the file or the path is not in the grammar, and then with TooLarge exactly
/// where the text has more than 4,096 bytes; else with Memory alone.
pub fn join_link(alloc: Global, file: &[u8], path: &[u8]) -> Result<Text, AdfError>
    ensures grammar { (result ≡ Err AdfError.BadLink)
        ↔ IsFalse (is_link_file file.now && is_link_path path.now) }
    ensures limit { (result ≡ Err AdfError.TooLarge)
        ↔ (IsTrue (is_link_file file.now && is_link_path path.now)
        × (4096 < length (link_text file.now path.now))) }
    ensures text { IfOk result (λ text. text ≡ link_text file.now path.now) }
    ensures refused { IfErr result IsJoinRefusal }
{
    if !is_link_file(file) || !is_link_path(path) {
        return Err(AdfError::BadLink);
    }
    if file.len() >= LONGEST_LINK || path.len() >= LONGEST_LINK - file.len() {
        return Err(AdfError::TooLarge);
    }
    joined(alloc, file, path)
}

fn joined(alloc: Global, file: &[u8], path: &[u8]) -> Result<Text, AdfError>
    ensures text { IfOk result (λ text. text ≡ link_text file.now path.now) }
    ensures memory { IfErr result (λ error. error ≡ AdfError.Memory) }
{
    let mut text = Vec::new(alloc);
    text.extend_from_slice(file).map_err(|_| AdfError::Memory)?;
    text.push(b'>').map_err(|_| AdfError::Memory)?;
    text.extend_from_slice(path).map_err(|_| AdfError::Memory)?;
    Ok(Listing::new(text))
}

// Whether no byte is a `>`.
fn is_link_file(file: &[u8]) -> bool
    ensures { result ≡ is_link_file file.now }
{
    file.iter().all(|b| *b != b'>')
}

/// A file and a path in the grammar, joined, are a link's text, and are its parts; and the parts of
/// a link's text, joined, are that text.
pub fn parts_of_joined()
    ensures linked { (file path : List ℕ) → IsTrue (is_link_file file && is_link_path path)
        → IsTrue (is_link_text (link_text file path)) }
    ensures file { (file path : List ℕ) → IsTrue (is_link_file file)
        → file_part (link_text file path) ≡ file }
    ensures path { (file path : List ℕ) → IsTrue (is_link_file file)
        → path_part (link_text file path) ≡ path }
    ensures again { (text : List ℕ) → IsTrue (is_link_text text)
        → link_text (file_part text) (path_part text) ≡ text }
    ensures grammar { (text : List ℕ) → IsTrue (is_link_text text)
        → IsTrue (is_link_file (file_part text) && is_link_path (path_part text)) }
{}
