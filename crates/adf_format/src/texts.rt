//! Names, labels and other texts of fixed lengths. Nothing here takes memory.

ghost use Rattle.std.specs.Prelude.{◌≡◌, ◌≤◌, ◌==◌, not, length, take};
ghost use Rattle.std.specs.List.{list_all};
ghost use Rattle.adf_format.specs.Fields.{trimmed, text_field};
ghost use Rattle.adf_format.specs.Names.{
  is_printing,
  begins_with_space,
  ends_with_space,
  is_label,
  is_name,
};

/// The bytes that a name or a label has at most.
const LONGEST: usize = 32;

/// Whether a text is a name: 1 to 32 bytes from 0x20 to 0x7E, without a slash and without a space
/// at either end, and neither `.` nor `..`.
pub fn is_name(text: &[u8]) -> bool
    ensures { result ≡ is_name text.now }
{
    if !is_label(text) {
        return false;
    }
    if text.is_empty() {
        return false;
    }
    if !has_no_slash(text) {
        return false;
    }
    text != b".".as_slice() && text != b"..".as_slice()
}

/// Whether a text is a label: at most 32 bytes from 0x20 to 0x7E, without a space at either end.
pub fn is_label(text: &[u8]) -> bool
    ensures { result ≡ is_label text.now }
{
    if text.len() > LONGEST {
        return false;
    }
    if !is_printed(text) {
        return false;
    }
    !begins_with_space(text) && !ends_with_space(text)
}

// Whether each byte is a printing one, a space among them.
fn is_printed(text: &[u8]) -> bool
    ensures { result ≡ list_all is_printing text.now }
{
    text.iter().all(|b| matches!(*b, 0x20..=0x7E))
}

fn has_no_slash(text: &[u8]) -> bool
    ensures { result ≡ list_all (λ b. not (b == 47)) text.now }
{
    text.iter().all(|b| *b != b'/')
}

fn begins_with_space(text: &[u8]) -> bool
    ensures { result ≡ begins_with_space text.now }
{
    matches!(text, [b' ', ..])
}

#[tactic(auto, using(crate::proofs::TextLaws::last_space, crate::proofs::TextLaws::no_last))]
fn ends_with_space(text: &[u8]) -> bool
    ensures { result ≡ ends_with_space text.now }
{
    match text.last() {
        Some(last) => *last == b' ',
        None => false,
    }
}

// How long a text is without the spaces at its end.
fn text_length(bytes: &[u8]) -> usize
    ensures within { result ≤ length bytes.now }
    ensures text { take result bytes.now ≡ trimmed bytes.now }
{
    let mut n = bytes.len();
    while n > 0 {
        if bytes[n - 1] != b' ' {
            return n;
        }
        n -= 1;
    }
    0
}

/// The text without the spaces at its end.
pub fn trimmed(bytes: &[u8]) -> &[u8]
    ensures { result.now ≡ trimmed bytes.now }
{
    &bytes[..text_length(bytes)]
}

/// A text of at most 32 bytes, with spaces behind it.
pub fn padded(text: &[u8]) -> [u8; 32]
    requires { length text.now ≤ 32 }
    ensures { result ≡ text_field 32 text.now }
{
    let mut field = [b' '; 32];
    field[..text.len()].copy_from_slice(text);
    field
}
