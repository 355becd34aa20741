//! How texts stand in the lines that are printed.

ghost use Rattle.std.specs.Prelude.{◌≡◌, ◌++◌, IfOk, OnOk, OnErr, string_bytes};
ghost use Rattle.adf_model.specs.Spelling.{spelled};

use crate::error::AdfError;
use crate::lists::Text;
use percent_encoding::{AsciiSet, CONTROLS, ascii_set, percent_encode};
use std::alloc::{AllocError, Global};

/// What is escaped beside the bytes outside ASCII.
const ESCAPED: AsciiSet = ascii_set!(CONTROLS.add(b' ').add(b'%').add(b';'));

/// A text as it is printed: `%` alone for the empty one, else each byte outside 0x21 to 0x7E, each
/// `%` and each `;` as `%` and two hexadecimal digits in upper case, and every other byte as it is.
pub fn spell(alloc: Global, text: &[u8]) -> Result<Text, AdfError>
    ensures value { IfOk result (λ spelling. spelling ≡ spelled text.now) }
    ensures memory { OnErr result (result ≡ Err AdfError.Memory) }
{
    let mut spelling = String::new(alloc);
    append_spelling(&mut spelling, text).map_err(|_| AdfError::Memory)?;
    Ok(Text::new(spelling.into_bytes()))
}

fn append_spelling(line: &mut String, text: &[u8]) -> Result<(), AllocError>
    ensures { OnOk result (string_bytes line.new ≡ string_bytes line.old ++ spelled text.now) }
{
    if text.is_empty() {
        return line.push('%');
    }
    percent_encode(text, ESCAPED).append_to(line)
}
