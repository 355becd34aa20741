//! The node of an edit of data, with its header.

ghost use Rattle.std.specs.Prelude.{◌≡◌, ◌+◌, ◌^◌, ◌≤◌, IfErr, IfOk, IfSome};
ghost use Rattle.adf_format.specs.Names.{is_lk};
ghost use Rattle.adf_format.specs.RecordFields.{node_length};
ghost use Rattle.adf_records.specs.View.{HasOffsets};
ghost use Rattle.cg_io.specs.Answers.{AnswersRead};
ghost use Rattle.cg_io.specs.Blocks.{ReadsFew};
ghost use Rattle.tree_edits.specs.Rows.{AreNear};
ghost use Rattle.data_edits.specs.Found.{MayEdit, RefusesEach, IsNodeCause};

use adf_format::DataType;
use adf_model::{AdfError, NodeId};
use adf_records::NodeHeader;
use cg_io::ReadBytes;
use node_reads::read_header;
use tree_edits::{Core, Row};

/// A node whose data may be edited.
#[derive(Clone, Copy)]
pub(crate) struct Found {
    pub(crate) row: Row,
    pub(crate) header: NodeHeader,
}

// Whether a header is that of a link.
fn is_link(header: &NodeHeader) -> bool
    ensures { result ≡ is_lk header.now.kind }
{
    matches!(header.kind, DataType::Lk)
}

/// The node that an edit names, where its data may be edited. By one read.
pub(crate) fn find_node<R: ReadBytes>(
    bytes: &mut R,
    core: &Core,
    node: NodeId,
) -> Result<Found, AdfError>
    requires sound { R.is_sound bytes.old }
    requires near { AreNear core.now.wide core.now.rows.items }
    ensures may { IfOk result (λ f. MayEdit core.now node (R.image bytes.old) f.row f.header) }
    ensures offsets { IfOk result (λ f. HasOffsets f.header) }
    ensures near { IfOk result (λ f. f.row.place + node_length core.now.wide ≤ 2 ^ 44) }
    ensures refused { IfErr result (λ e. IfSome (R.image bytes.old)
        (RefusesEach core.now node e)) }
    ensures reads { AnswersRead R.is_sound R.image R.state R.waiting (ReadsFew 2)
        (IsNodeCause core.now node (R.image bytes.old)) bytes.old bytes.new result }
{
    let row = match core.rows.get(node.serial) {
        Some(row) => row,
        None => return Err(AdfError::NoSuchNode),
    };
    let header = match read_header(bytes, core.wide, row.place) {
        Ok(header) => header,
        Err(error) => return Err(error),
    };
    if is_link(&header) {
        return Err(AdfError::LinkMissing);
    }
    if !core.writable {
        return Err(AdfError::ReadOnly);
    }
    Ok(Found { row, header })
}
