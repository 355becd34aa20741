//! Each edit, over any space and what is kept of a file in memory.

ghost use Rattle.std.specs.Prelude.{◌≡◌, IfSome, option_copied};
ghost use Rattle.kept_asks.specs.Named.{HasNames};
ghost use Rattle.adf_tree.specs.KeptLists.{siblings_at};
ghost use Rattle.adf_format.specs.Tree.{Tree};
ghost use Rattle.adf_format.specs.Placement.{Placement};
ghost use Rattle.adf_tree.specs.Reached.{or_reached, with_reached};
ghost use Rattle.adf_model.specs.declared.tree.Edit.{Edit};
ghost use Rattle.tree_edits.specs.Edits.{memory_of};
ghost use Rattle.tree_edits.specs.Rows.{AreNear, Means};
ghost use Rattle.adf_tree.specs.Steps.{EditAnswers};

use crate::contents::{new_data, new_part, new_shape};
use crate::hints::hints_of;
use adf_model::{AdfError, Edit, NodeId};
use cg_io::Space;
use kept_names::{Listed, Names};
use std::alloc::Global;
use tree_asks::Hints;
use tree_deletes::delete;
use tree_edits::{Core, Rows, create, link, rename, set_label};
use tree_moves::move_to;

/// The node that was reached, where one was.
pub(crate) fn or_reached(node: NodeId, there: Option<NodeId>) -> NodeId
    ensures { result ≡ or_reached node there }
{
    match there {
        Some(there) => there,
        None => node,
    }
}

fn new_label<S: Space>(
    space: &mut S,
    core: &mut Core,
    node: NodeId,
    label: &[u8],
) -> Result<Option<u64>, AdfError>
    requires sound { S.is_sound space.old }
    requires near { AreNear core.old.wide core.old.rows.items }
    ensures { EditAnswers S.is_sound S.image S.state S.waiting (Edit.SetLabel node label.now)
        core.old core.new space.old space.new result }
{
    let _row = match core.rows.get(node.serial) {
        Some(row) => row,
        None => return Err(AdfError::NoSuchNode),
    };
    match set_label(space, core, node, label) {
        Ok(()) => Ok(None),
        Err(error) => Err(error),
    }
}

// The children that are kept of the parent of a node.
fn siblings<'a>(rows: &Rows, names: &'a Names, node: NodeId) -> Option<&'a Listed>
    ensures { option_copied result ≡ siblings_at rows.now.items names.now node.serial }
{
    let row = match rows.get(node.serial) {
        Some(row) => row,
        None => return None,
    };
    match row.parent {
        Some(parent) => names.list(parent),
        None => None,
    }
}

fn new_name<S: Space>(
    space: &mut S,
    core: &mut Core,
    names: &Names,
    node: NodeId,
    name: &[u8],
) -> Result<Option<u64>, AdfError>
    requires sound { S.is_sound space.old }
    requires near { AreNear core.old.wide core.old.rows.items }
    requires means { IfSome (S.image space.old)
        (λ bytes. (tree : Tree) × (p : Placement) × Means bytes tree p (memory_of core.old)) }
    requires names { HasNames core.old (S.image space.old) names.now }
    ensures { EditAnswers S.is_sound S.image S.state S.waiting (Edit.Rename node name.now)
        core.old core.new space.old space.new result }
{
    let known = siblings(&core.rows, names, node);
    match rename(space, core, node, name, known) {
        Ok(()) => Ok(None),
        Err(error) => Err(error),
    }
}

fn new_node<S: Space>(
    space: &mut S,
    core: &mut Core,
    names: &Names,
    at: NodeId,
    name: &[u8],
    label: &[u8],
) -> Result<Option<u64>, AdfError>
    requires sound { S.is_sound space.old }
    requires near { AreNear core.old.wide core.old.rows.items }
    requires means { IfSome (S.image space.old)
        (λ bytes. (tree : Tree) × (p : Placement) × Means bytes tree p (memory_of core.old)) }
    requires names { HasNames core.old (S.image space.old) names.now }
    ensures { EditAnswers S.is_sound S.image S.state S.waiting (Edit.Create at name.now label.now)
        core.old core.new space.old space.new result }
{
    match create(space, core, at, name, label, names.list(at.serial)) {
        Ok(serial) => Ok(Some(serial)),
        Err(error) => Err(error),
    }
}

fn new_link<S: Space>(
    alloc: Global,
    space: &mut S,
    core: &mut Core,
    names: &Names,
    at: NodeId,
    name: &[u8],
    file: &[u8],
    path: &[u8],
) -> Result<Option<u64>, AdfError>
    requires sound { S.is_sound space.old }
    requires near { AreNear core.old.wide core.old.rows.items }
    requires means { IfSome (S.image space.old)
        (λ bytes. (tree : Tree) × (p : Placement) × Means bytes tree p (memory_of core.old)) }
    requires names { HasNames core.old (S.image space.old) names.now }
    ensures { EditAnswers S.is_sound S.image S.state S.waiting
        (Edit.Link at name.now file.now path.now) core.old core.new space.old space.new result }
{
    let known = names.list(at.serial);
    match link(alloc, space, core, at, name, file, path, known) {
        Ok(serial) => Ok(Some(serial)),
        Err(error) => Err(error),
    }
}

fn move_node<S: Space>(
    space: &mut S,
    core: &mut Core,
    names: &Names,
    node: NodeId,
    at: NodeId,
) -> Result<Option<u64>, AdfError>
    requires sound { S.is_sound space.old }
    requires near { AreNear core.old.wide core.old.rows.items }
    requires means { IfSome (S.image space.old)
        (λ bytes. (tree : Tree) × (p : Placement) × Means bytes tree p (memory_of core.old)) }
    requires names { HasNames core.old (S.image space.old) names.now }
    ensures { EditAnswers S.is_sound S.image S.state S.waiting (Edit.Move node at)
        core.old core.new space.old space.new result }
{
    match move_to(space, core, node, at, names.list(at.serial)) {
        Ok(()) => Ok(None),
        Err(error) => Err(error),
    }
}

fn delete_known<S: Space>(
    alloc: Global,
    space: &mut S,
    core: &mut Core,
    hints: &Hints,
    node: NodeId,
) -> Result<Option<u64>, AdfError>
    requires sound { S.is_sound space.old }
    requires near { AreNear core.old.wide core.old.rows.items }
    requires means { IfSome (S.image space.old)
        (λ bytes. (tree : Tree) × (p : Placement) × Means bytes tree p (memory_of core.old)) }
    ensures { EditAnswers S.is_sound S.image S.state S.waiting (Edit.Delete node)
        core.old core.new space.old space.new result }
{
    match delete(alloc, space, core, hints, node) {
        Ok(()) => Ok(None),
        Err(error) => Err(error),
    }
}

fn delete_node<S: Space>(
    alloc: Global,
    space: &mut S,
    core: &mut Core,
    hints: &mut Option<Hints>,
    node: NodeId,
) -> Result<Option<u64>, AdfError>
    requires sound { S.is_sound space.old }
    requires near { AreNear core.old.wide core.old.rows.items }
    requires means { IfSome (S.image space.old)
        (λ bytes. (tree : Tree) × (p : Placement) × Means bytes tree p (memory_of core.old)) }
    ensures { EditAnswers S.is_sound S.image S.state S.waiting (Edit.Delete node)
        core.old core.new space.old space.new result }
{
    let known = match hints_of(alloc, hints, &core.rows) {
        Ok(known) => known,
        Err(error) => return Err(error),
    };
    let deleted = delete_known(alloc, space, core, &known, node);
    *hints = Some(known);
    deleted
}

/// Does one edit, of the node that was reached where it goes through links: the serial that it drew.
///
/// Where the children of a node are kept, no entry of its table is read for a name.
///
/// After a refusal the caller abandons what was written to the space, and undoes what is in memory.
pub(crate) fn do_edit<S: Space>(
    alloc: Global,
    space: &mut S,
    core: &mut Core,
    hints: &mut Option<Hints>,
    names: &Names,
    edit: &Edit,
    there: Option<NodeId>,
) -> Result<Option<u64>, AdfError>
    requires sound { S.is_sound space.old }
    requires near { AreNear core.old.wide core.old.rows.items }
    requires means { IfSome (S.image space.old)
        (λ bytes. (tree : Tree) × (p : Placement) × Means bytes tree p (memory_of core.old)) }
    requires names { HasNames core.old (S.image space.old) names.now }
    ensures { EditAnswers S.is_sound S.image S.state S.waiting (with_reached edit.now there)
        core.old core.new space.old space.new result }
{
    match edit {
        Edit::Create {
            parent,
            name,
            label,
        } => new_node(
            space,
            core,
            names,
            or_reached(*parent, there),
            name.items(),
            label.items(),
        ),
        Edit::Delete { node } => delete_node(alloc, space, core, hints, *node),
        Edit::Move { node, parent } => {
            move_node(space, core, names, *node, or_reached(*parent, there))
        }
        Edit::Rename { node, name } => new_name(space, core, names, *node, name.items()),
        Edit::SetLabel { node, label } => {
            new_label(space, core, or_reached(*node, there), label.items())
        }
        Edit::Link {
            parent,
            name,
            file,
            path,
        } => new_link(
            alloc,
            space,
            core,
            names,
            or_reached(*parent, there),
            name.items(),
            file.items(),
            path.items(),
        ),
        Edit::SetDims { node, shape } => {
            new_shape(alloc, space, core, or_reached(*node, there), shape)
        }
        Edit::PutAll { node, bytes } => {
            new_data(alloc, space, core, or_reached(*node, there), bytes.items())
        }
        Edit::PutPart {
            node,
            selection,
            bytes,
        } => new_part(
            alloc,
            space,
            core,
            or_reached(*node, there),
            selection,
            bytes.items(),
        ),
    }
}
