//! Hexadecimal fields and pointers of a file, as text and as places.
//!
//! A pointer is twelve characters: a block of 4,096 bytes in eight hexadecimal digits, and an offset
//! in it in four. The blank pointer is offset 4096 of block 0; no other offset is above 4095.
//! Letters are read in either case and written in upper case. No call takes memory.

#![tactic(auto)]

ghost use Rattle.std.specs.Prelude.{◌≡◌, ◌≢◌, ◌^◌, ◌<◌, ◌≤◌, ◌/◌, ◌%◌, ◌++◌, length, Some, IfSome, option_map, List, ℕ};
ghost use Rattle.adf_format.specs.Hex.{hex_value, hex_text, digit_value, hex_digit};
ghost use Rattle.adf_format.specs.Pointer.{pointer, pointer_text, pointer_of_parts, is_pointer_value, is_blank_value, is_place_value};
ghost use Rattle.disk_ptr.specs.View.{view, place_of, HasOffset, IsWritable};
ghost use Rattle.disk_ptr.specs.declared.DiskPtr.{DiskPtr};

pub mod fields;

/// A pointer as a file holds it.
#[derive(Clone, Copy, PartialEq, Eq)]
pub enum DiskPtr {
    /// It points nowhere.
    Blank,
    /// A block, and an offset in it, which is at most 4095.
    At { block: u32, offset: u16 },
}

/// The pointer to a place, in bytes from the start of the file.
pub fn from_place(place: u64) -> DiskPtr
    requires { place < 2 ^ 44 }
    ensures { result ≡ DiskPtr.At (place / 4096) (place % 4096) }
{
    DiskPtr::At {
        block: (place / 4096) as u32,
        offset: (place % 4096) as u16,
    }
}

/// The place that a pointer names, in bytes from the start of the file: none only if it is blank.
pub fn place(p: DiskPtr) -> Option<u64>
    ensures { result ≡ place_of p }
{
    match p {
        DiskPtr::Blank => None,
        DiskPtr::At { block, offset } => Some(u64::from(block) * 4096 + u64::from(offset)),
    }
}

/// The pointer that these characters are: none only if they are no pointer.
#[tactic(auto, using(crate::proofs::Digits::last_four))]
pub fn decode(bytes: &[u8; 12]) -> Option<DiskPtr>
    ensures value { option_map view result ≡ pointer bytes.now }
    ensures offset { IfSome result HasOffset }
{
    joined(read_hex(&bytes[..8]), read_hex(&bytes[8..]))
}

// The pointer of a block and an offset.
fn joined(block: Option<u32>, offset: Option<u32>) -> Option<DiskPtr>
    ensures value { option_map view result ≡ pointer_of_parts block offset }
    ensures offset { IfSome result HasOffset }
{
    match (block, offset) {
        (Some(0), Some(4096)) => Some(DiskPtr::Blank),
        (Some(block), Some(offset)) if offset <= 4095 => Some(DiskPtr::At {
            block,
            offset: offset as u16,
        }),
        _ => None,
    }
}

/// The characters of a pointer, in upper case.
#[tactic(auto, using(adf_format::proofs::CaseLaws::text_of_parts))]
pub fn encode(p: DiskPtr) -> [u8; 12]
    requires { HasOffset p }
    ensures { result ≡ pointer_text (view p) }
{
    match p {
        DiskPtr::Blank => spelled(0, 4096),
        DiskPtr::At { block, offset } => spelled(block, offset),
    }
}

// The digits of a block and of an offset.
fn spelled(block: u32, offset: u16) -> [u8; 12]
    ensures { result ≡ hex_text 8 block ++ hex_text 4 offset }
{
    let mut text = [0u8; 12];
    write_hex(block, &mut text[..8]);
    write_hex(u32::from(offset), &mut text[8..]);
    text
}

/// The number that one to eight digits spell, in either case: none only if a byte is no digit.
pub fn read_hex(bytes: &[u8]) -> Option<u32>
    requires some { 1 ≤ length bytes.now }
    requires few { length bytes.now ≤ 8 }
    ensures { result ≡ hex_value bytes.now }
{
    let value = read_long_hex(bytes)?;
    Some(value as u32)
}

/// Spells a number in one to eight digits, in upper case, with zeros before it.
pub fn write_hex(value: u32, into: &mut [u8])
    requires some { 1 ≤ length into.old }
    requires few { length into.old ≤ 8 }
    requires fits { value < 16 ^ length into.old }
    ensures { into.new ≡ hex_text (length into.old) value }
{
    write_long_hex(u64::from(value), into);
}

/// The number that one to sixteen digits spell, in either case: none only if a byte is no digit.
pub fn read_long_hex(bytes: &[u8]) -> Option<u64>
    requires some { 1 ≤ length bytes.now }
    requires few { length bytes.now ≤ 16 }
    ensures value { result ≡ hex_value bytes.now }
    ensures small { IfSome result (λ n. n < 16 ^ length bytes.now) }
{
    let mut value = 0u64;
    for c in bytes {
        value = value * 16 + u64::from(digit_of(*c)?);
    }
    Some(value)
}

/// Spells a number in one to sixteen digits, in upper case, with zeros before it.
pub fn write_long_hex(value: u64, into: &mut [u8])
    requires some { 1 ≤ length into.old }
    requires few { length into.old ≤ 16 }
    requires fits { value < 16 ^ length into.old }
    ensures { into.new ≡ hex_text (length into.old) value }
{
    let mut left = into.len();
    let mut rest = value;
    while left > 0 {
        left -= 1;
        into[left] = digit((rest % 16) as u8);
        rest /= 16;
    }
}

// The value of a digit.
fn digit_of(c: u8) -> Option<u8>
    ensures value { result ≡ digit_value c }
    ensures small { IfSome result (λ d. d < 16) }
{
    match c {
        b'0'..=b'9' => Some(c - b'0'),
        b'A'..=b'F' => Some(c - b'A' + 10),
        b'a'..=b'f' => Some(c - b'a' + 10),
        _ => None,
    }
}

// The digit of a value.
fn digit(d: u8) -> u8
    requires { d < 16 }
    ensures { result ≡ hex_digit d }
{
    if d < 10 { b'0' + d } else { b'A' + (d - 10) }
}

/// What is written is read again, different pointers are written differently, and a pointer is
/// known by the place that it names.
pub fn one_spelling()
    ensures again { (p : DiskPtr) → IsWritable p → pointer (pointer_text (view p)) ≡ Some (view p) }
    ensures apart { (p q : DiskPtr) → IsWritable p → IsWritable q
        → pointer_text (view p) ≡ pointer_text (view q) → p ≡ q }
    ensures known { (p q : DiskPtr) → HasOffset p → HasOffset q → view p ≡ view q → p ≡ q }
{}
