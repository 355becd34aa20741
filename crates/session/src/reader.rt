//! The input, cut into lines.

ghost use Rattle.std.specs.Prelude.{◌≡◌, ◌^◌, ◌≤◌, ◌+◌, ◌<◌, ◌++◌, [], ◌∷◌, length, take, drop, MatchOption, IfOk, IfErr, OnOk, OnErr, Err, List, ℕ, false, if◌then◌else◌};
ghost use Rattle.std.specs.Io.KnownBytes.{Consumes, IsAtEnd, Keeps};
ghost use Rattle.cg_io.specs.Cause.{Rose};
ghost use Rattle.session.specs.Input.{NoFeed, IsHeld, behind_part, at_end};

use cg_io::Source;
use std::alloc::Global;
use std::marker::Model;

/// The most bytes of a line, without its line feed.
const LONGEST_LINE: usize = 1_048_576;

/// So many bytes of an input are taken, and no more.
const INPUT_LIMIT: u64 = 1_099_511_627_776;

/// How many bytes are taken at once, at most.
const PIECE: usize = 4096;

/// What a reader found.
#[derive(Clone, Copy, Debug, PartialEq, Eq)]
pub enum Found {
    /// A line of at most 2^20 bytes, which the reader holds.
    Line,
    /// A longer line, which is left out.
    TooLong,
    /// The end of the input.
    End,
}

/// Why a reader found nothing.
#[derive(Clone, Copy, Debug, PartialEq, Eq)]
pub enum Stopped {
    /// A call of the source failed.
    Source,
    /// 2^40 bytes were taken, with no further line feed among them.
    Limit,
    /// Want of memory for the line.
    Memory,
}

/// Reads lines of any length from a source, and holds one of at most 2^20 bytes.
#[derive(Drop)]
pub struct LineReader {
    pieces: Pieces,
    line: Vec<u8>,
}

impl Model for LineReader {
    ghost use Rattle.std.specs.Prelude.{◌≤◌, ◌^◌, length};
    ghost use Rattle.session.specs.Input.{ReaderState};

    ghost Value = { ReaderState };

    ghost view = { λ r. record { input = r.pieces; line = r.line.items } };

    ghost invariant = { λ r. length r.line.items ≤ 2 ^ 20 };
}

impl LineReader {
    ghost use Rattle.session.specs.Input.{HasFound, HasStopped};

    /// A reader that took nothing yet. It takes no memory.
    pub fn new(alloc: Global) -> LineReader
        ensures { result ≡ record { input = record { pending = []; taken = 0 }; line = [] } }
    {
        LineReader {
            pieces: Pieces::new(),
            line: Vec::new(alloc),
        }
    }

    /// The line that was found last, without its line feed.
    pub fn line(&self) -> &[u8]
        ensures line { result.now ≡ self.now.line }
        ensures bound { length result.now ≤ 2 ^ 20 }
    {
        &self.line
    }

    /// Reads up to the end of the next line.
    pub fn next<I: Source>(&mut self, input: &mut I) -> Result<Found, Stopped>
        ensures found { IfOk result (λ what.
            HasFound what self.new.line self.old.input self.new.input (I.left input.old)
            (I.left input.new)) }
        ensures stopped { IfErr result (λ why.
            HasStopped why self.old.input self.new.input (I.left input.old) (I.left input.new)) }
        ensures line { length self.new.line ≤ 2 ^ 20 }
        ensures limit { self.new.input.taken ≤ 2 ^ 40 }
        ensures cause { result ≡ Err Stopped.Source
            → Rose (I.faults input.old) (I.faults input.new) }
        ensures later { I.faults input.old ≤ I.faults input.new }
    {
        let LineReader { pieces, line } = self;
        pieces.next_line(line, input)
    }
}

// The input by pieces of at most 4,096 bytes.
#[derive(Drop)]
struct Pieces {
    piece: [u8; 4096],
    start: usize,
    end: usize,
    taken: u64,
}

impl Model for Pieces {
    ghost use Rattle.std.specs.Prelude.{◌≤◌, ◌^◌, slice_range};
    ghost use Rattle.session.specs.Input.{InputState};

    ghost Value = { InputState };

    ghost view = { λ p. record { pending = slice_range p.piece p.start p.end; taken = p.taken } };

    ghost invariant = { λ p. (p.start ≤ p.end) × (p.end ≤ 4096) × (p.taken ≤ 2 ^ 40) };
}

impl Pieces {
    ghost use Rattle.session.specs.Input.{HasFound, HasStopped, MovesPart};

    fn new() -> Pieces
        ensures { result ≡ record { pending = []; taken = 0 } }
    {
        Pieces {
            piece: [0; 4096],
            start: 0,
            end: 0,
            taken: 0,
        }
    }

    // Reads up to the end of the next line.
    fn next_line<I: Source>(&mut self, line: &mut Vec<u8>, input: &mut I) -> Result<Found, Stopped>
        ensures found { IfOk result (λ what. HasFound what line.new.items self.old self.new
            (I.left input.old) (I.left input.new)) }
        ensures stopped { IfErr result (λ why.
            HasStopped why self.old self.new (I.left input.old) (I.left input.new)) }
        ensures line { length line.new.items ≤ 2 ^ 20 }
        ensures limit { self.new.taken ≤ 2 ^ 40 }
        ensures cause { result ≡ Err Stopped.Source
            → Rose (I.faults input.old) (I.faults input.new) }
        ensures later { I.faults input.old ≤ I.faults input.new }
    {
        line.clear();
        let mut is_long = false;
        'parts: loop {
            let (has_ended, now_long) = self.move_part(line, is_long)?;
            is_long = now_long;
            if has_ended {
                return Ok(line_found(is_long));
            }
            if self.fill(input)? == 0 {
                return Ok(last_found(is_long, line));
            }
        }
    }

    // Moves what is pending into the line, up to a line feed. It says whether the line has ended, and
    // whether it is too long.
    fn move_part(&mut self, line: &mut Vec<u8>, is_long: bool) -> Result<(bool, bool), Stopped>
        requires { length line.old.items ≤ 2 ^ 20 }
        ensures moved { IfOk result (λ said.
            MovesPart self.old self.new line.old.items line.new.items is_long said.0 said.1) }
        ensures same { OnErr result (self.new ≡ self.old) }
        ensures memory { IfErr result (λ why. why ≡ Stopped.Memory) }
        ensures line { length line.new.items ≤ 2 ^ 20 }
        ensures limit { self.new.taken ≤ 2 ^ 40 }
    {
        let pending = &self.piece[self.start..self.end];
        let part = part_in(pending);
        let now_long = extend_line(line, &pending[..part.length], is_long)?;
        self.start += part.used;
        Ok((part.has_ended, now_long))
    }

    // Takes a piece of the input, and says how many bytes it has: none is the end.
    fn fill<I: Source>(&mut self, input: &mut I) -> Result<usize, Stopped>
        requires { self.old.pending ≡ [] }
        ensures bytes { OnOk result (Consumes (I.left input.old)
            (I.left input.new) self.new.pending) }
        ensures count { IfOk result (λ n. (length self.new.pending ≡ n)
            × (self.new.taken ≡ self.old.taken + n)) }
        ensures end { IfOk result (λ n. n ≡ 0 → IsAtEnd (I.left input.new)
            × (self.new.taken < 2 ^ 40)) }
        ensures kept { OnErr result (Keeps (I.left input.old) (I.left input.new)
            × (self.new ≡ self.old)) }
        ensures source { result ≡ Err Stopped.Source
            → Rose (I.faults input.old) (I.faults input.new) × (self.new.taken < 2 ^ 40) }
        ensures full { result ≡ Err Stopped.Limit → self.new.taken ≡ 2 ^ 40 }
        ensures memory { result ≡ Err Stopped.Memory → ⊥ }
        ensures later { I.faults input.old ≤ I.faults input.new }
        ensures limit { self.new.taken ≤ 2 ^ 40 }
    {
        self.start = 0;
        self.end = 0;
        let room = (INPUT_LIMIT - self.taken).min(PIECE as u64) as usize;
        if room == 0 {
            return Err(Stopped::Limit);
        }
        let count = input
            .take(&mut self.piece[..room])
            .map_err(|_| Stopped::Source)?;
        self.end = count;
        self.taken += count as u64;
        Ok(count)
    }
}

fn line_found(is_long: bool) -> Found
    ensures { result ≡ (if is_long then Found.TooLong else Found.Line) }
{
    if is_long { Found::TooLong } else { Found::Line }
}

// What is found at the end of the input, which ends a line that has begun.
fn last_found(is_long: bool, line: &[u8]) -> Found
    ensures { result ≡ at_end is_long line.now }
{
    if line.is_empty() && !is_long {
        Found::End
    } else {
        line_found(is_long)
    }
}

// The part of a line: its length, how many bytes it has with its line feed, and whether it has one.
#[derive(Drop)]
struct Part {
    length: usize,
    used: usize,
    has_ended: bool,
}

// The bytes before the first line feed, or all of them.
fn part_in(bytes: &[u8]) -> Part
    ensures cut { bytes.now ≡ take result.length bytes.now
        ++ behind_part result.has_ended (drop result.used bytes.now) }
    ensures plain { NoFeed (take result.length bytes.now) }
    ensures bound { (result.length ≤ result.used) × (result.used ≤ length bytes.now) }
    ensures all { result.has_ended ≡ false → result.used ≡ length bytes.now }
{
    match feed_in(bytes) {
        Some(length) => Part {
            length,
            used: length + 1,
            has_ended: true,
        },
        None => Part {
            length: bytes.len(),
            used: bytes.len(),
            has_ended: false,
        },
    }
}

// The place of the first line feed.
fn feed_in(bytes: &[u8]) -> Option<usize>
    ensures { MatchOption result
        (NoFeed bytes.now)
        (λ at. (at < length bytes.now)
        × (bytes.now ≡ take at bytes.now ++ (10 ∷ drop (at + 1) bytes.now))
        × NoFeed (take at bytes.now)) }
{
    bytes.iter().position(|b| *b == b'\n')
}

// Appends a part to the line, unless it is too long then, or was before. It says whether it is.
fn extend_line(line: &mut Vec<u8>, part: &[u8], is_long: bool) -> Result<bool, Stopped>
    requires { length line.old.items ≤ 2 ^ 20 }
    ensures held { IfOk result (λ long. (used : List ℕ) → IsHeld is_long line.old.items used
        → IsHeld long line.new.items (used ++ part.now)) }
    ensures bound { length line.new.items ≤ 2 ^ 20 }
    ensures memory { IfErr result (λ why. why ≡ Stopped.Memory) }
{
    if is_long || part.len() > LONGEST_LINE - line.len() {
        return Ok(true);
    }
    line.extend_from_slice(part).map_err(|_| Stopped::Memory)?;
    Ok(false)
}
