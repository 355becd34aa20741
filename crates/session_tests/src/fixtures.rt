//! Words, devices and streams in memory.

use adf_model::{AdfError, Text};
use cg_io::{MemoryDevice, MemorySource};
use std::alloc::Global;
use std::test::Fail;

/// A text of these bytes.
pub fn text_of(alloc: Global, bytes: &[u8]) -> Result<Text, Fail> {
    Ok(Text::new(bytes.to_vec(alloc)?))
}

/// A device of at most 16 blocks of bytes.
pub fn device_of(alloc: Global, bytes: &[u8]) -> Result<MemoryDevice, Fail> {
    if bytes.len() > 16 * 4096 {
        return Err(Fail::from(AdfError::TooLarge));
    }
    Ok(MemoryDevice::new(alloc, Text::new(bytes.to_vec(alloc)?)))
}

/// A source of these bytes.
pub fn source_of(alloc: Global, bytes: &[u8]) -> Result<MemorySource, Fail> {
    Ok(MemorySource::new(text_of(alloc, bytes)?))
}

/// The words of a line, between which one space stands.
pub fn words_of(alloc: Global, line: &str) -> Result<Vec<String>, Fail> {
    let mut words = Vec::new(alloc);
    for word in line.split(" ") {
        words.push(String::from_str(alloc, word)?)?;
    }
    Ok(words)
}

/// Whether a text stands at a place.
pub fn stands(held: &[u8], at: usize, text: &[u8]) -> bool {
    at <= held.len() && text.len() <= held.len() - at && &held[at..at + text.len()] == text
}
