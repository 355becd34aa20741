//! The components of a path.

ghost use Rattle.std.specs.Prelude.{◌≡◌, ◌≤◌, ℕ, IfOk, IfErr, length, map};
ghost use Rattle.std.specs.List.{All, list_all};
ghost use Rattle.adf_format.specs.Links.{components, is_link_path, between_slashes};
ghost use Rattle.adf_format.specs.Names.{is_name};
ghost use Rattle.adf_links.specs.Components.{component_ranges, ranges_between, text_at, IsWithin};
ghost use Rattle.adf_model.specs.declared.error.AdfError.{AdfError};

use adf_model::{AdfError, Listing, PathRange, Ranges, is_name};
use std::alloc::Global;

/// The ranges of the components of a path: what stands between its slashes, in order. A slash at
/// the start of the path ends no component, so `/` has none; the empty path has one, which is
/// empty, and `//` has two. Memory is the one refusal.
pub fn components(alloc: Global, path: &[u8]) -> Result<Ranges, AdfError>
    ensures texts { IfOk result (λ found. map (text_at path.now) found ≡ components path.now) }
    ensures ranges { IfOk result (λ found. found ≡ component_ranges path.now) }
    ensures within { IfOk result (λ found. All (IsWithin (length path.now)) found) }
    ensures memory { IfErr result (λ error. error ≡ AdfError.Memory) }
{
    component_ranges(alloc, path)
}

fn component_ranges(alloc: Global, path: &[u8]) -> Result<Ranges, AdfError>
    ensures ranges { IfOk result (λ found. found ≡ component_ranges path.now) }
    ensures memory { IfErr result (λ error. error ≡ AdfError.Memory) }
{
    match path {
        [b'/'] => Ok(Listing::new(Vec::new(alloc))),
        [b'/', ..] => ranges_between(alloc, path, 1),
        _ => ranges_between(alloc, path, 0),
    }
}

// What stands between the slashes from a place on.
fn ranges_between(alloc: Global, path: &[u8], from: usize) -> Result<Ranges, AdfError>
    requires { from ≤ length path.now }
    ensures ranges { IfOk result (λ found. found ≡ ranges_between path.now from) }
    ensures memory { IfErr result (λ error. error ≡ AdfError.Memory) }
{
    let mut ranges = Vec::new(alloc);
    let mut start = from;
    for end in from..path.len() {
        if path[end] == b'/' {
            ranges
                .push(PathRange { start, end })
                .map_err(|_| AdfError::Memory)?;
            start = end + 1;
        }
    }
    let end = path.len();
    ranges
        .push(PathRange { start, end })
        .map_err(|_| AdfError::Memory)?;
    Ok(Listing::new(ranges))
}

// Whether a path is `/` alone, or `/` and names joined by `/`.
pub(crate) fn is_link_path(path: &[u8]) -> bool
    ensures { result ≡ is_link_path path.now }
{
    match path {
        [b'/'] => true,
        [b'/', names @ ..] => are_names(names),
        _ => false,
    }
}

// Whether there are names alone between the slashes.
fn are_names(path: &[u8]) -> bool
    ensures { result ≡ list_all is_name (between_slashes path.now) }
{
    path.split(|b| *b == b'/').all(|name| is_name(name))
}
