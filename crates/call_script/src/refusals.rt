//! Refusals, as they are printed.

ghost use Rattle.std.specs.Prelude.{◌≡◌, ◌≤◌, ◌∷◌, ◌++◌, [], ◌+◌, ◌/◌, ◌%◌, OnOk, IfErr, decimal};
ghost use Rattle.call_script.specs.Replies.{refusal_word, refusal_fields, refusal_text, number_field, place_text, HasRule};

use adf_model::{AdfError, EditError};
use itoa::Buffer;

/// Appends bytes to a line.
pub(crate) fn append(line: &mut Vec<u8>, bytes: &[u8]) -> Result<(), AdfError>
    ensures done { OnOk result (line.new.items ≡ line.old.items ++ bytes.now) }
    ensures memory { IfErr result (λ e. e ≡ AdfError.Memory) }
{
    line.extend_from_slice(bytes).map_err(|_| AdfError::Memory)
}

/// Appends a number.
pub(crate) fn append_number(line: &mut Vec<u8>, number: u64) -> Result<(), AdfError>
    ensures done { OnOk result (line.new.items ≡ line.old.items ++ decimal number) }
    ensures memory { IfErr result (λ e. e ≡ AdfError.Memory) }
{
    append(line, Buffer::new().format(number).as_bytes())
}

/// Appends a space and a number.
pub(crate) fn append_number_field(line: &mut Vec<u8>, number: u64) -> Result<(), AdfError>
    ensures done { OnOk result (line.new.items ≡ line.old.items ++ number_field number) }
    ensures memory { IfErr result (λ e. e ≡ AdfError.Memory) }
{
    append(line, b" ")?;
    append_number(line, number)
}

/// Appends a refused group of edits.
pub(crate) fn append_edit_refusal(line: &mut Vec<u8>, refusal: &EditError) -> Result<(), AdfError>
    requires { HasRule refusal.now.error }
    ensures done { OnOk result (line.new.items
        ≡ line.old.items ++ (refusal_text refusal.now.error
        ++ place_text refusal.now.error refusal.now.at)) }
    ensures memory { IfErr result (λ e. e ≡ AdfError.Memory) }
{
    append_refusal(line, &refusal.error)?;
    match refusal.error {
        AdfError::Syntax | AdfError::LineTooLong => Ok(()),
        _ => {
            append(line, b" at ")?;
            append_number(line, refusal.at as u64)
        }
    }
}

/// Appends a refusal: its number, its word and its fields.
pub(crate) fn append_refusal(line: &mut Vec<u8>, error: &AdfError) -> Result<(), AdfError>
    requires { HasRule error.now }
    ensures done { OnOk result (line.new.items ≡ line.old.items ++ refusal_text error.now) }
    ensures memory { IfErr result (λ e. e ≡ AdfError.Memory) }
{
    append(line, refusal_word(error))?;
    append_refusal_fields(line, error)
}

fn append_refusal_fields(line: &mut Vec<u8>, error: &AdfError) -> Result<(), AdfError>
    requires { HasRule error.now }
    ensures done { OnOk result (line.new.items ≡ line.old.items ++ refusal_fields error.now) }
    ensures memory { IfErr result (λ e. e ≡ AdfError.Memory) }
{
    match *error {
        AdfError::WrongLength { want, got } => append_two(line, want, got),
        AdfError::Layout { rule, place } => {
            append(line, &[b' ', b'L', b'0' + rule / 10, b'0' + rule % 10])?;
            append_number_field(line, place)
        }
        AdfError::Full { asked, end } => append_two(line, asked, end),
        _ => Ok(()),
    }
}

fn append_two(line: &mut Vec<u8>, first: u64, second: u64) -> Result<(), AdfError>
    ensures done { OnOk result (line.new.items
        ≡ line.old.items ++ (number_field first ++ number_field second)) }
    ensures memory { IfErr result (λ e. e ≡ AdfError.Memory) }
{
    append_number_field(line, first)?;
    append_number_field(line, second)
}

// A refusal's number and word.
fn refusal_word(error: &AdfError) -> &'static [u8]
    ensures { result.now ≡ refusal_word error.now }
{
    match error {
        AdfError::Memory => b"E01 Memory",
        AdfError::ReadFault => b"E02 ReadFault",
        AdfError::WriteFault => b"E03 WriteFault",
        AdfError::Broken => b"E04 Broken",
        AdfError::NotOpen => b"E05 NotOpen",
        AdfError::NoSuchFile => b"E06 NoSuchFile",
        AdfError::AlreadyOpen => b"E07 AlreadyOpen",
        AdfError::ReadOnly => b"E08 ReadOnly",
        AdfError::NoSuchNode => b"E09 NoSuchNode",
        AdfError::NotAChild => b"E10 NotAChild",
        AdfError::BadName => b"E11 BadName",
        AdfError::Duplicate => b"E12 Duplicate",
        AdfError::BadLabel => b"E13 BadLabel",
        AdfError::BadShape => b"E14 BadShape",
        AdfError::NoData => b"E15 NoData",
        AdfError::BadRange => b"E16 BadRange",
        AdfError::WrongLength { .. } => b"E17 WrongLength",
        AdfError::IntoItself => b"E18 IntoItself",
        AdfError::TooDeep => b"E19 TooDeep",
        AdfError::LinkMissing => b"E20 LinkMissing",
        AdfError::LinkChain => b"E21 LinkChain",
        AdfError::NotALink => b"E22 NotALink",
        AdfError::BadLink => b"E23 BadLink",
        AdfError::Layout { .. } => b"E24 Layout",
        AdfError::NotEmpty => b"E25 NotEmpty",
        AdfError::TooLarge => b"E26 TooLarge",
        AdfError::TooManyChildren => b"E27 TooManyChildren",
        AdfError::Full { .. } => b"E28 Full",
        AdfError::NotFound => b"E29 NotFound",
        AdfError::Syntax => b"E30 Syntax",
        AdfError::LineTooLong => b"E31 LineTooLong",
        AdfError::OtherFile => b"E32 OtherFile",
    }
}
