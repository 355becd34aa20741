//! Answers, as they are printed.

ghost use Rattle.std.specs.Prelude.{◌≡◌, ◌++◌, ◌∷◌, OnOk, IfOk, IfErr, flat_map, length};
ghost use Rattle.adf_format.specs.Parts.{type_word};
ghost use Rattle.adf_model.specs.Shapes.{dims_of};
ghost use Rattle.call_script.specs.Tokens.{dims_text, node_text};
ghost use Rattle.call_script.specs.Replies.{reply_line, told, number_field, node_field, child_field, text_field, shape_text, HasSpelling};
ghost use Rattle.hex.specs.Hex.{encode_lower};

use crate::calls::Answer;
use crate::refusals::{
    append, append_edit_refusal, append_number, append_number_field, append_refusal,
};
use adf_model::{AdfError, Child, DataType, Format, NodeId, Shape, Text, spell};
use std::alloc::Global;

/// The line that is printed for an answer, without its line feed. A rule of the layout has at most
/// two digits. It is refused only for want of memory.
pub fn reply_text(alloc: Global, answer: &Answer) -> Result<Text, AdfError>
    requires { HasSpelling answer.now }
    ensures line { IfOk result (λ line. line ≡ reply_line answer.now) }
    ensures memory { IfErr result (λ e. e ≡ AdfError.Memory) }
{
    let mut line = Vec::new(alloc);
    append_answer(alloc, &mut line, answer)?;
    Ok(Text::new(line))
}

fn append_answer(alloc: Global, line: &mut Vec<u8>, answer: &Answer) -> Result<(), AdfError>
    requires { HasSpelling answer.now }
    ensures done { OnOk result (line.new.items ≡ line.old.items ++ reply_line answer.now) }
    ensures memory { IfErr result (λ e. e ≡ AdfError.Memory) }
{
    match answer {
        Answer::Refused(error) => append_refusal(line, error),
        Answer::EditRefused(refusal) => append_edit_refusal(line, refusal),
        _ => {
            append(line, b"ok")?;
            append_told(alloc, line, answer)
        }
    }
}

// Appends what stands behind `ok`.
fn append_told(alloc: Global, line: &mut Vec<u8>, answer: &Answer) -> Result<(), AdfError>
    requires { HasSpelling answer.now }
    ensures done { OnOk result (line.new.items ≡ line.old.items ++ told answer.now) }
    ensures memory { IfErr result (λ e. e ≡ AdfError.Memory) }
{
    match answer {
        Answer::Text(text) => append_text_field(alloc, line, text.items()),
        Answer::Shape(shape) => append_shape_field(line, shape),
        Answer::Children(children) => append_children(alloc, line, children.items()),
        Answer::Link { file, path } => {
            append_text_field(alloc, line, file.items())?;
            append_text_field(alloc, line, path.items())
        }
        Answer::Hex(bytes) => append_hex_field(line, bytes.items()),
        Answer::Node(node) => append_node_field(line, *node),
        Answer::Format(Format::Little) => append(line, b" L"),
        Answer::Format(Format::Big) => append(line, b" B"),
        Answer::Created(nodes) => append_nodes(line, nodes.items()),
        Answer::Done | Answer::Refused(_) | Answer::EditRefused(_) => Ok(()),
    }
}

// Appends a space and a text.
fn append_text_field(alloc: Global, line: &mut Vec<u8>, text: &[u8]) -> Result<(), AdfError>
    ensures done { OnOk result (line.new.items ≡ line.old.items ++ text_field text.now) }
    ensures memory { IfErr result (λ e. e ≡ AdfError.Memory) }
{
    let spelling = spell(alloc, text)?;
    append(line, b" ")?;
    append(line, spelling.items())
}

// Appends a space, a type, a space and dimensions.
fn append_shape_field(line: &mut Vec<u8>, shape: &Shape) -> Result<(), AdfError>
    ensures done { OnOk result (line.new.items ≡ line.old.items ++ (32 ∷ shape_text shape.now)) }
    ensures memory { IfErr result (λ e. e ≡ AdfError.Memory) }
{
    append(line, b" ")?;
    append(line, type_word(shape.kind))?;
    append_dims_field(line, dims_in(shape))
}

// The dimensions of a shape: as many as its rank says, or all that there are.
fn dims_in(shape: &Shape) -> &[u64]
    ensures { result.now ≡ dims_of shape.now }
{
    let rank = usize::from(shape.rank).min(shape.dims.len());
    &shape.dims[..rank]
}

// Appends a space and dimensions.
fn append_dims_field(line: &mut Vec<u8>, dims: &[u64]) -> Result<(), AdfError>
    ensures done { OnOk result (line.new.items
        ≡ line.old.items ++ (32 ∷ dims_text dims.now)) }
    ensures memory { IfErr result (λ e. e ≡ AdfError.Memory) }
{
    match dims {
        [] => append(line, b" -"),
        [first, others @ ..] => append_sizes(line, *first, others),
    }
}

// Appends a space and dimensions, of which there is one at least.
fn append_sizes(line: &mut Vec<u8>, first: u64, others: &[u64]) -> Result<(), AdfError>
    ensures done { OnOk result (line.new.items
        ≡ line.old.items ++ (32 ∷ dims_text (first ∷ others.now))) }
    ensures memory { IfErr result (λ e. e ≡ AdfError.Memory) }
{
    append_number_field(line, first)?;
    for size in others {
        append(line, b",")?;
        append_number(line, *size)?;
    }
    Ok(())
}

// The word of a type.
fn type_word(kind: DataType) -> &'static [u8]
    ensures { result.now ≡ type_word kind }
{
    match kind {
        DataType::Mt => b"MT",
        DataType::I4 => b"I4",
        DataType::I8 => b"I8",
        DataType::U4 => b"U4",
        DataType::U8 => b"U8",
        DataType::R4 => b"R4",
        DataType::R8 => b"R8",
        DataType::X4 => b"X4",
        DataType::X8 => b"X8",
        DataType::B1 => b"B1",
        DataType::C1 => b"C1",
        DataType::Lk => b"LK",
    }
}

// Appends a space and bytes, each as two digits. They are spelled where they stand, in a line that
// was made long enough before.
fn append_hex_field(line: &mut Vec<u8>, bytes: &[u8]) -> Result<(), AdfError>
    ensures done { OnOk result (line.new.items ≡ line.old.items ++ (32 ∷ encode_lower bytes.now)) }
    ensures memory { IfErr result (λ e. e ≡ AdfError.Memory) }
{
    append(line, b" ")?;
    let start = line.len();
    let digits = bytes.len().checked_mul(2).ok_or(AdfError::Memory)?;
    let end = start.checked_add(digits).ok_or(AdfError::Memory)?;
    line.resize(end, b'0').map_err(|_| AdfError::Memory)?;
    match hex::encode_to_slice(bytes, &mut line[start..]) {
        Ok(()) => Ok(()),
        Err(_) => Err(AdfError::Memory),
    }
}

fn append_children(alloc: Global, line: &mut Vec<u8>, children: &[Child]) -> Result<(), AdfError>
    ensures done { OnOk result (line.new.items
        ≡ line.old.items ++ (number_field (length children.now)
        ++ flat_map child_field children.now)) }
    ensures memory { IfErr result (λ e. e ≡ AdfError.Memory) }
{
    append_number_field(line, children.len() as u64)?;
    for child in children {
        append_child(alloc, line, child)?;
    }
    Ok(())
}

fn append_child(alloc: Global, line: &mut Vec<u8>, child: &Child) -> Result<(), AdfError>
    ensures done { OnOk result (line.new.items ≡ line.old.items ++ child_field child.now) }
    ensures memory { IfErr result (λ e. e ≡ AdfError.Memory) }
{
    append_node_field(line, child.node)?;
    append_text_field(alloc, line, child.name.items())
}

fn append_nodes(line: &mut Vec<u8>, nodes: &[NodeId]) -> Result<(), AdfError>
    ensures done { OnOk result (line.new.items
        ≡ line.old.items ++ flat_map node_field nodes.now) }
    ensures memory { IfErr result (λ e. e ≡ AdfError.Memory) }
{
    for node in nodes {
        append_node_field(line, *node)?;
    }
    Ok(())
}

// Appends a space and a node.
fn append_node_field(line: &mut Vec<u8>, node: NodeId) -> Result<(), AdfError>
    ensures done { OnOk result (line.new.items ≡ line.old.items ++ node_field node) }
    ensures memory { IfErr result (λ e. e ≡ AdfError.Memory) }
{
    append_number_field(line, u64::from(node.file))?;
    append(line, b".")?;
    append_number(line, node.serial)
}
