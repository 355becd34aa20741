//! Heads, tails and entries of the parts of a file, as bytes and as values.
//!
//! A sub-node table, a data chunk, a chunk table and a free chunk begin with a start tag and the
//! pointer to their end tag, which is their last four bytes. A free chunk's head has the pointer to
//! the next of its list too. Letters of pointers are read in either case and written in upper case.
//! No call takes memory.

#![tactic(auto)]

ghost use Rattle.std.specs.Prelude.{◌≡◌, ◌↔◌, IsTrue, ◌≤◌, length, Some, None, IfSome, option_map};
ghost use Rattle.adf_format.specs.Fields.{holds};
ghost use Rattle.adf_format.specs.Records.{start_tag, end_tag as closing_tag, head_text, free_head_text, entry_text, chunk_entry_text};
ghost use Rattle.adf_chunks.specs.Laws.{HeadIsReadAgain, FreeHeadIsReadAgain, EntryIsReadAgain, ChunkEntryIsReadAgain, HeadIsWrittenAgain, FreeHeadIsWrittenAgain, EntryIsWrittenAgain, ChunkEntryIsWrittenAgain};
ghost use Rattle.disk_ptr.specs.View.{view, HasOffset};
ghost use Rattle.adf_chunks.specs.View.{part_of, free_view, HasFreeOffsets, entry_view, chunk_view, HasChunkOffsets, head_said, free_head_said, entry_said, chunk_entry_said};

use adf_format::fields::{
    CHUNK_END, CHUNK_START, CHUNKS_END, CHUNKS_TAG, DATA_END, DATA_TAG, ENTRY_CHILD, ENTRY_NAME,
    FREE_CHUNK_END, FREE_CHUNK_TAG, FREE_NEXT, HEAD_POINTER, SUB_NODES_END, SUB_NODES_TAG,
    tag_text,
};
pub use adf_format::{Extent, ExtentKind, Extents};
use disk_ptr::DiskPtr;
use disk_ptr::fields::{copied, holds, pointer_at, put, put_pointer};

/// A part of a file that stands between two tags.
#[derive(Clone, Copy)]
pub enum Part {
    /// A table of a node's children.
    SubNodes,
    /// A chunk of a node's data.
    Data,
    /// A table of a node's data chunks.
    Chunks,
    /// A free chunk.
    Free,
}

/// The head of a free chunk.
#[derive(Clone, Copy, PartialEq, Eq)]
pub struct FreeHead {
    pub end_tag: DiskPtr,
    /// The next free chunk of its list, or blank at the last.
    pub next: DiskPtr,
}

/// An entry of a table of children.
#[derive(Clone, Copy, PartialEq, Eq)]
pub struct NodeEntry {
    /// The child's name, and spaces behind it.
    pub name: [u8; 32],
    pub child: DiskPtr,
}

/// An entry of a table of data chunks.
#[derive(Clone, Copy, PartialEq, Eq)]
pub struct ChunkEntry {
    pub start: DiskPtr,
    pub end_tag: DiskPtr,
}

// ---- tags

fn start_tag(part: Part) -> [u8; 4]
    ensures { result ≡ start_tag (part_of part) }
{
    match part {
        Part::SubNodes => tag_text(SUB_NODES_TAG),
        Part::Data => tag_text(DATA_TAG),
        Part::Chunks => tag_text(CHUNKS_TAG),
        Part::Free => tag_text(FREE_CHUNK_TAG),
    }
}

/// The end tag of a part.
pub fn tail(part: Part) -> [u8; 4]
    ensures { result ≡ closing_tag (part_of part) }
{
    match part {
        Part::SubNodes => tag_text(SUB_NODES_END),
        Part::Data => tag_text(DATA_END),
        Part::Chunks => tag_text(CHUNKS_END),
        Part::Free => tag_text(FREE_CHUNK_END),
    }
}

/// Whether these bytes are the end tag of the part.
pub fn is_tail(part: Part, bytes: &[u8; 4]) -> bool
    ensures { IsTrue result ↔ (bytes.now ≡ closing_tag (part_of part)) }
{
    *bytes == tail(part)
}

/// Whether the bytes begin with the start tag of the part.
pub fn begins(part: Part, bytes: &[u8]) -> bool
    requires { 4 ≤ length bytes.now }
    ensures { result ≡ holds bytes.now 0 (start_tag (part_of part)) }
{
    holds(bytes, 0, &start_tag(part))
}

// ---- heads

/// The pointer to the end tag in the head of a part: none only if the start tag is wrong or the
/// pointer is none.
pub fn decode_head(part: Part, bytes: &[u8; 16]) -> Option<DiskPtr>
    ensures value { option_map view result ≡ head_said (part_of part) bytes.now }
    ensures offset { IfSome result HasOffset }
{
    if !begins(part, bytes) {
        return None;
    }
    pointer_at(bytes, HEAD_POINTER)
}

/// The head of a part.
pub fn encode_head(part: Part, end_tag: DiskPtr) -> [u8; 16]
    requires { HasOffset end_tag }
    ensures { result ≡ head_text (part_of part) (view end_tag) }
{
    let mut text = [0u8; 16];
    let at = put(&mut text, 0, &start_tag(part));
    put_pointer(&mut text, at, end_tag);
    text
}

/// The pointers in the head of a free chunk: none only if the start tag is wrong or a pointer is none.
pub fn decode_free_head(bytes: &[u8; 28]) -> Option<FreeHead>
    ensures value { option_map free_view result ≡ free_head_said bytes.now }
    ensures offset { IfSome result HasFreeOffsets }
{
    if !begins(Part::Free, bytes) {
        return None;
    }
    match (
        pointer_at(bytes, HEAD_POINTER),
        pointer_at(bytes, FREE_NEXT),
    ) {
        (Some(end_tag), Some(next)) => Some(FreeHead { end_tag, next }),
        _ => None,
    }
}

/// The head of a free chunk.
pub fn encode_free_head(head: FreeHead) -> [u8; 28]
    requires { HasFreeOffsets head }
    ensures { result ≡ free_head_text (view head.end_tag) (view head.next) }
{
    let mut text = [0u8; 28];
    let at = put(&mut text, 0, &start_tag(Part::Free));
    let at = put_pointer(&mut text, at, head.end_tag);
    put_pointer(&mut text, at, head.next);
    text
}

// ---- entries

/// The entry of a table of children: none only if its pointer is none. The name is not tested.
pub fn decode_entry(bytes: &[u8; 44]) -> Option<NodeEntry>
    ensures value { option_map entry_view result ≡ entry_said bytes.now }
    ensures offset { IfSome result (λ e. HasOffset e.child) }
{
    let child = pointer_at(bytes, ENTRY_CHILD)?;
    Some(NodeEntry {
        name: copied(bytes, ENTRY_NAME),
        child,
    })
}

/// The bytes of an entry of a table of children.
pub fn encode_entry(entry: &NodeEntry) -> [u8; 44]
    requires { HasOffset entry.now.child }
    ensures { result ≡ entry_text entry.now.name (view entry.now.child) }
{
    let mut text = [0u8; 44];
    let at = put(&mut text, 0, &entry.name);
    put_pointer(&mut text, at, entry.child);
    text
}

/// The entry of a table of data chunks: none only if a pointer is none.
pub fn decode_chunk_entry(bytes: &[u8; 24]) -> Option<ChunkEntry>
    ensures value { option_map chunk_view result ≡ chunk_entry_said bytes.now }
    ensures offset { IfSome result HasChunkOffsets }
{
    match (pointer_at(bytes, CHUNK_START), pointer_at(bytes, CHUNK_END)) {
        (Some(start), Some(end_tag)) => Some(ChunkEntry { start, end_tag }),
        _ => None,
    }
}

/// The bytes of an entry of a table of data chunks.
pub fn encode_chunk_entry(entry: ChunkEntry) -> [u8; 24]
    requires { HasChunkOffsets entry }
    ensures { result ≡ chunk_entry_text (view entry.start) (view entry.end_tag) }
{
    let mut text = [0u8; 24];
    let at = put_pointer(&mut text, 0, entry.start);
    put_pointer(&mut text, at, entry.end_tag);
    text
}

// ---- laws

/// What is written is read again: a value that a reader may answer of a written text is the value
/// that was written.
pub fn read_again()
    ensures head { HeadIsReadAgain }
    ensures free_head { FreeHeadIsReadAgain }
    ensures entry { EntryIsReadAgain }
    ensures chunk_entry { ChunkEntryIsReadAgain }
{}

/// What is read is written again, with the letters of pointers in upper case and all other bytes
/// as they were.
pub fn written_again()
    ensures head { HeadIsWrittenAgain }
    ensures free_head { FreeHeadIsWrittenAgain }
    ensures entry { EntryIsWrittenAgain }
    ensures chunk_entry { ChunkEntryIsWrittenAgain }
{}
