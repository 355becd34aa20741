//! Labels of nodes: an edit in place.

ghost use Rattle.std.specs.Prelude.{◌≡◌, ◌+◌, ◌≤◌, IfErr, IfSome, OnOk};
ghost use Rattle.cg_io.specs.Answers.{AnswersWrite};
ghost use Rattle.cg_io.specs.Blocks.{Both, ReadsFew};
ghost use Rattle.adf_format.specs.Names.{is_lk};
ghost use Rattle.adf_model.specs.declared.tree.Edit.{Edit};
ghost use Rattle.tree_edits.specs.Rows.{AreNear};
ghost use Rattle.tree_edits.specs.Edits.{Does, Refuses};
ghost use Rattle.tree_edits.specs.Causes.{IsLabelCause, MaySetLabel};
ghost use Rattle.tree_edits.specs.Waiting.{Reaches};

use crate::memory::Core;
use adf_format::DataType;
use adf_format::fields::NODE_LABEL;
use adf_model::{AdfError, NodeId, is_label};
use adf_records::NodeHeader;
use cg_io::Space;
use field_access::write_field;
use node_reads::{name_field, read_header};

/// Whether a header is that of a link.
pub fn is_link(header: &NodeHeader) -> bool
    ensures { result ≡ is_lk header.now.kind }
{
    matches!(header.kind, DataType::Lk)
}

/// Gives a node another label.
pub fn set_label<S: Space>(
    space: &mut S,
    core: &Core,
    node: NodeId,
    label: &[u8],
) -> Result<(), AdfError>
    requires sound { S.is_sound space.old }
    requires near { AreNear core.now.wide core.now.rows.items }
    ensures done { OnOk result (Both (Does (Edit.SetLabel node label.now) core.now core.now)
        (S.image space.old) (S.image space.new)) }
    ensures reached { OnOk result (IfSome (S.image space.old)
        (Reaches (Edit.SetLabel node label.now) core.now core.now (S.waiting space.old)
        (S.waiting space.new))) }
    ensures allowed { OnOk result (MaySetLabel core.now node label.now (S.image space.old)) }
    ensures refused { IfErr result (λ e. IfSome (S.image space.old)
        (Refuses (Edit.SetLabel node label.now) core.now e)) }
    ensures writes { AnswersWrite S.is_sound S.state S.waiting 2 (ReadsFew 4)
        (IsLabelCause core.now node label.now (S.image space.old)) space.old space.new result }
{
    let row = match core.rows.get(node.serial) {
        Some(row) => row,
        None => return Err(AdfError::NoSuchNode),
    };
    let header = match read_header(space, core.wide, row.place) {
        Ok(header) => header,
        Err(error) => return Err(error),
    };
    if is_link(&header) {
        return Err(AdfError::LinkMissing);
    }
    if !core.writable {
        return Err(AdfError::ReadOnly);
    }
    if !is_label(label) {
        return Err(AdfError::BadLabel);
    }
    write_field(
        space,
        row.place + NODE_LABEL.offset as u64,
        &name_field(label),
    )
}
