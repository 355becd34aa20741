//! Tokens are read as numbers, nodes and texts.

ghost use Rattle.std.specs.Prelude.{◌≡◌, ◌≢◌, ◌<◌, ◌^◌, ℕ, List, None, IfSome, IfOk, IfErr, IsNone, Err, decimal, is_some, MatchOption, OnOk, length, ◌++◌, ◌∷◌, ◌≤◌};
ghost use Rattle.percent_encoding.specs.Percent.{percent_decode as decoded};
ghost use Rattle.adf_model.specs.declared.tree.NodeId.{NodeId};
ghost use Rattle.adf_model.specs.Spelling.{items_text, text_of, is_plain};
ghost use Rattle.adf_format.specs.Hex.{digit_value};
ghost use Rattle.call_script.specs.declared.calls.OpenMode.{OpenMode};
ghost use Rattle.adf_format.specs.declared.types.DataType.{DataType};
ghost use Rattle.adf_format.specs.Parts.{type_word};
ghost use Rattle.call_script.specs.Causes.{IsRefusal};
ghost use Rattle.call_script.specs.Tokens.{node_text, mode_word, begins_plainly, IsFileNumber, IsLimit, IsId, IsText, IsHex};

use crate::calls::OpenMode;
use crate::tokens::split_at_byte;
use adf_model::{AdfError, DataType, NodeId, Text};
use hex::FromHexError;
use percent_encoding::percent_decode;
use std::alloc::{AllocError, Global};
use std::str;

/// The number that a token is: none for a sign, a leading zero or 2^64 and more, too.
pub(crate) fn read_number(token: &[u8]) -> Option<u64>
    ensures found { IfSome result (λ number. token.now ≡ decimal number) }
    ensures none { IsNone result → (number : ℕ) → number < 2 ^ 64 → token.now ≢ decimal number }
{
    if !begins_plainly(token) {
        return None;
    }
    match str::from_utf8(token) {
        Ok(text) => text.parse().ok(),
        Err(_) => None,
    }
}

// Whether a token begins with no plus, and with a zero only where that is all of it.
fn begins_plainly(token: &[u8]) -> bool
    ensures { result ≡ begins_plainly token.now }
{
    match token {
        [] => true,
        [only] => *only != b'+',
        [first, _, ..] => *first != b'+' && *first != b'0',
    }
}

/// The number of a file that a token is.
pub(crate) fn read_file_number(token: &[u8]) -> Option<u32>
    ensures found { IfSome result (λ number. token.now ≡ decimal number) }
    ensures none { IsNone result → (number : ℕ) → IsFileNumber number → token.now ≢ decimal number }
{
    let number = read_number(token)?;
    if number > u64::from(u32::MAX) {
        return None;
    }
    Some(number as u32)
}

/// The greatest address limit, in blocks.
const MOST_BLOCKS: u64 = 1 << 32;

/// The address limit that a token is.
pub(crate) fn read_limit(token: &[u8]) -> Option<u64>
    ensures found { IfSome result (λ limit. (token.now ≡ decimal limit) × IsLimit limit) }
    ensures none { IsNone result → (limit : ℕ) → IsLimit limit → token.now ≢ decimal limit }
{
    let limit = read_number(token)?;
    if limit == 0 || limit > MOST_BLOCKS {
        return None;
    }
    Some(limit)
}

/// How a file is opened, by the word for it.
pub(crate) fn read_mode(token: &[u8]) -> Option<OpenMode>
    ensures found { IfSome result (λ mode. token.now ≡ mode_word mode) }
    ensures none { IsNone result → (mode : OpenMode) → token.now ≢ mode_word mode }
{
    match token {
        b"new" => Some(OpenMode::New),
        b"rw" => Some(OpenMode::ReadWrite),
        b"ro" => Some(OpenMode::ReadOnly),
        _ => None,
    }
}

/// The type whose word a token is.
pub(crate) fn read_type(token: &[u8]) -> Option<DataType>
    ensures found { IfSome result (λ kind. token.now ≡ type_word kind) }
    ensures none { IsNone result → (kind : DataType) → token.now ≢ type_word kind }
{
    match token {
        b"MT" => Some(DataType::Mt),
        b"I4" => Some(DataType::I4),
        b"I8" => Some(DataType::I8),
        b"U4" => Some(DataType::U4),
        b"U8" => Some(DataType::U8),
        b"R4" => Some(DataType::R4),
        b"R8" => Some(DataType::R8),
        b"X4" => Some(DataType::X4),
        b"X8" => Some(DataType::X8),
        b"B1" => Some(DataType::B1),
        b"C1" => Some(DataType::C1),
        b"LK" => Some(DataType::Lk),
        _ => None,
    }
}

/// The bytes of which a token spells each as a pair of digits: refused where it does not, or for
/// want of memory.
pub(crate) fn read_hex(alloc: Global, token: &[u8]) -> Result<Text, AdfError>
    ensures found { IfOk result (λ bytes. IsHex token.now bytes) }
    ensures none { result ≡ Err AdfError.Syntax → (bytes : List ℕ) → ¬ IsHex token.now bytes }
    ensures why { IfErr result IsRefusal }
{
    if token.is_empty() {
        return Err(AdfError::Syntax);
    }
    match hex::decode(alloc, token) {
        Ok(bytes) => Ok(Text::new(bytes)),
        Err(FromHexError::OutOfMemory) => Err(AdfError::Memory),
        Err(_) => Err(AdfError::Syntax),
    }
}

/// The node that a token names.
pub(crate) fn read_node(token: &[u8]) -> Option<NodeId>
    ensures found { IfSome result (λ node. token.now ≡ node_text node) }
    ensures none { IsNone result → (node : NodeId) → IsId node → token.now ≢ node_text node }
{
    let (file, serial) = split_at_byte(token, b'.')?;
    Some(NodeId {
        file: read_file_number(file)?,
        serial: read_number(serial)?,
    })
}

/// The text that a token spells: refused where it spells none, or for want of memory.
pub(crate) fn read_text(alloc: Global, token: &[u8]) -> Result<Text, AdfError>
    ensures found { IfOk result (λ text. IsText token.now text) }
    ensures none { result ≡ Err AdfError.Syntax → text_of token.now ≡ None }
    ensures why { IfErr result IsRefusal }
{
    let mut bytes = Vec::new(alloc);
    if token == b"%".as_slice() {
        return Ok(Text::new(bytes));
    }
    if token.is_empty() || !are_items(token) {
        return Err(AdfError::Syntax);
    }
    append_decoded(&mut bytes, token).map_err(|_| AdfError::Memory)?;
    Ok(Text::new(bytes))
}

fn append_decoded(bytes: &mut Vec<u8>, items: &[u8]) -> Result<(), AllocError>
    ensures { OnOk result (bytes.new.items ≡ bytes.old.items ++ decoded items.now) }
{
    percent_decode(items).append_to(bytes)
}

/// Whether bytes are items: plain ones, and `%` with two hexadecimal digits behind it.
fn are_items(bytes: &[u8]) -> bool
    ensures { result ≡ is_some (items_text bytes.now) }
{
    let mut rest = bytes;
    while let [first, after @ ..] = rest {
        match behind_item(*first, after) {
            Some(items) => rest = items,
            None => return false,
        }
    }
    true
}

// What stands behind the item that begins with a byte: none where it begins none.
fn behind_item(first: u8, after: &[u8]) -> Option<&[u8]>
    ensures items { MatchOption result
        (items_text (first ∷ after.now) ≡ None)
        (λ items. is_some (items_text (first ∷ after.now)) ≡ is_some (items_text items.now)) }
    ensures shorter { IfSome result (λ items. length items.now ≤ length after.now) }
{
    if is_plain(first) {
        return Some(after);
    }
    if first != b'%' || after.len() < 2 {
        return None;
    }
    if is_hex_digit(after[0]) && is_hex_digit(after[1]) {
        Some(&after[2..])
    } else {
        None
    }
}

fn is_plain(byte: u8) -> bool
    ensures { result ≡ is_plain byte }
{
    matches!(byte, b'!'..=b'~') && byte != b'%' && byte != b';'
}

fn is_hex_digit(byte: u8) -> bool
    ensures { result ≡ is_some (digit_value byte) }
{
    matches!(byte, b'0'..=b'9' | b'A'..=b'F' | b'a'..=b'f')
}
