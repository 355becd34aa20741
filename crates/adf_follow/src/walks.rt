//! Links that are followed.

ghost use Rattle.std.specs.Prelude.{◌≡◌, ◌⊎◌, ◌≤◌, IfOk, IsSome};
ghost use Rattle.adf_format.specs.Links.{components};
ghost use Rattle.adf_model.specs.Slots.{IsTold, open_at};
ghost use Rattle.adf_model.specs.Follow as model;
ghost use Rattle.adf_model.specs.Follow.{child_in, search_path, start_of};
ghost use Rattle.adf_model.specs.Causes.{OnlyAsks};
ghost use Rattle.adf_model.specs.declared.error.AdfError.{AdfError};
ghost use Rattle.adf_follow.specs.Looking.{IsToldFrom, IsWalked, as_is, spot_of};

use crate::lookups::OpenFiles;
use crate::parts::{file_in, path_in};
use adf_links::components;
use adf_model::{AdfError, NodeId};
use std::alloc::Global;

/// The links that are followed in one walk.
pub const MOST_LINKS: u32 = 100;

/// The node that a walk reached, and how many links it may still follow.
#[derive(Clone, Copy, Debug, PartialEq, Eq, Drop)]
pub struct Reached {
    pub node: NodeId,
    pub left: u32,
}

/// From a node to the one that is reached from there through links, of which so many may be followed.
/// A link that names no open file, or a node that is not there, is refused with LinkMissing, one to a
/// broken file with Broken, and a link too many with LinkChain, before its file is looked up.
#[cycle(following)]
pub fn follow<F: OpenFiles>(
    alloc: Global,
    files: &mut F,
    node: NodeId,
    left: u32,
) -> Result<Reached, AdfError>
    requires ready { F.is_ready files.old }
    requires few { left ≤ 100 }
    ensures ready { F.is_ready files.new }
    ensures pending { F.pending files.new ≡ F.pending files.old }
    ensures leaves { OnlyAsks (F.files files.old) (F.devices files.old) (F.devices files.new)
        (F.files files.new) }
    ensures spends { IfOk result (λ reached. reached.left ≤ left) }
    ensures opens { IsSome (open_at (F.files files.old) node.file) → IfOk result
        (λ reached. IsSome (open_at (F.files files.old) reached.node.file)) }
    ensures found { IsWalked (IsToldFrom (F.files files.old) (F.devices files.old) node)
        AdfError.LinkMissing (F.files files.old) (F.devices files.old) (F.devices files.new) spot_of
        (model.follow (F.files files.old) node left) result }
{
    let text = match files.link_text(node) {
        Ok(Some(text)) => text,
        Ok(None) => return Ok(Reached { node, left }),
        Err(error) => return Err(error),
    };
    if left == 0 {
        return Err(AdfError::LinkChain);
    }
    let file = match files.linked_file(node.file, file_in(text.items())) {
        Ok(file) => file,
        Err(error) => return Err(error),
    };
    let root = Reached {
        node: NodeId { file, serial: 0 },
        left: left - 1,
    };
    let last = match walk(
        alloc,
        files,
        root,
        path_in(text.items()),
        AdfError::LinkMissing,
    ) {
        Ok(last) => last,
        Err(error) => return Err(error),
    };
    follow(alloc, files, last.node, last.left)
}

/// Along a path: each node is followed before its children are searched, and the last one is not.
/// The error `missing`, LinkMissing or NotFound, is for a name that no child has.
#[cycle(following)]
pub fn walk<F: OpenFiles>(
    alloc: Global,
    files: &mut F,
    start: Reached,
    path: &[u8],
    missing: AdfError,
) -> Result<Reached, AdfError>
    requires ready { F.is_ready files.old }
    requires few { start.left ≤ 100 }
    requires missing { (missing ≡ AdfError.LinkMissing) ⊎ (missing ≡ AdfError.NotFound) }
    ensures ready { F.is_ready files.new }
    ensures pending { F.pending files.new ≡ F.pending files.old }
    ensures leaves { OnlyAsks (F.files files.old) (F.devices files.old) (F.devices files.new)
        (F.files files.new) }
    ensures spends { IfOk result (λ reached. reached.left ≤ start.left) }
    ensures opens { IsSome (open_at (F.files files.old) start.node.file) → IfOk result
        (λ reached. IsSome (open_at (F.files files.old) reached.node.file)) }
    ensures found { IsWalked (IsTold (F.files files.old) (F.devices files.old)) missing
        (F.files files.old) (F.devices files.old) (F.devices files.new) spot_of (model.walk
        (model.follow (F.files files.old)) (child_in (F.files files.old)) missing
        (components path.now) (spot_of start)) result }
{
    let names = match components(alloc, path) {
        Ok(names) => names,
        Err(error) => return Err(error),
    };
    let mut reached = start;
    'names: for range in names.items() {
        let here = match follow(alloc, files, reached.node, reached.left) {
            Ok(here) => here,
            Err(error) => return Err(error),
        };
        let serial = match files.child(here.node, &path[range.start..range.end]) {
            Ok(Some(serial)) => serial,
            Ok(None) => return Err(missing),
            Err(error) => return Err(error),
        };
        reached = Reached {
            node: NodeId {
                file: here.node.file,
                serial,
            },
            left: here.left,
        };
    }
    Ok(reached)
}

/// The node that is reached from a node through links, at the beginning of a walk. It is refused as
/// `follow` is.
pub fn reach<F: OpenFiles>(alloc: Global, files: &mut F, node: NodeId) -> Result<NodeId, AdfError>
    requires { F.is_ready files.old }
    ensures ready { F.is_ready files.new }
    ensures pending { F.pending files.new ≡ F.pending files.old }
    ensures leaves { OnlyAsks (F.files files.old) (F.devices files.old) (F.devices files.new)
        (F.files files.new) }
    ensures opens { IsSome (open_at (F.files files.old) node.file) → IfOk result
        (λ reached. IsSome (open_at (F.files files.old) reached.file)) }
    ensures found { IsWalked (IsToldFrom (F.files files.old) (F.devices files.old) node)
        AdfError.LinkMissing (F.files files.old) (F.devices files.old) (F.devices files.new) as_is
        (model.reach (F.files files.old) node) result }
{
    match follow(alloc, files, node, MOST_LINKS) {
        Ok(reached) => Ok(reached.node),
        Err(error) => Err(error),
    }
}

/// The node that a path names, from the root of the node's file where it begins with `/`, else from the
/// node. The last node is not followed. A name that no child has is refused with NotFound, a link on
/// the way as `follow` refuses it.
pub fn search<F: OpenFiles>(
    alloc: Global,
    files: &mut F,
    node: NodeId,
    path: &[u8],
) -> Result<NodeId, AdfError>
    requires { F.is_ready files.old }
    ensures ready { F.is_ready files.new }
    ensures pending { F.pending files.new ≡ F.pending files.old }
    ensures leaves { OnlyAsks (F.files files.old) (F.devices files.old) (F.devices files.new)
        (F.files files.new) }
    ensures found { IsWalked (IsTold (F.files files.old) (F.devices files.old)) AdfError.NotFound
        (F.files files.old) (F.devices files.old) (F.devices files.new) as_is (search_path
        (model.follow (F.files files.old)) (child_in (F.files files.old)) AdfError.NotFound node
        path.now) result }
{
    let start = Reached {
        node: start_of(node, path),
        left: MOST_LINKS,
    };
    match walk(alloc, files, start, path, AdfError::NotFound) {
        Ok(reached) => Ok(reached.node),
        Err(error) => Err(error),
    }
}

// Where a search begins: at the root of the node's file for an absolute path, else at the node.
fn start_of(node: NodeId, path: &[u8]) -> NodeId
    ensures { result ≡ start_of node path.now }
{
    match path {
        [b'/', ..] => NodeId {
            file: node.file,
            serial: 0,
        },
        _ => node,
    }
}
