//! Files put together from parts, each at its place among blank bytes.

use adf_model::Text;
use disk_ptr::{encode, from_place, write_hex};
use std::alloc::{AllocError, Global};

/// A text and where it is put.
pub type Change = (usize, &'static [u8]);

/// A part of a file. Places are bytes from its start.
#[derive(Clone, Copy, Drop)]
pub enum Part {
    /// The file header of the narrow version with this end, and an empty free table.
    Head(u32),
    /// The header of a node of type MT without data: its name, how many children it has, and the
    /// entries and the place of its table, if it has one.
    Node(u32, &'static [u8], u32, u32, u32),
    /// The same in the wide form.
    WideNode(u32, &'static [u8], u32, u32, u32),
    /// The frame of a table of so many children.
    Table(u32, u8),
    /// The entry of a child: the place of the table, its position, its name, and its place.
    Entry(u32, u8, &'static [u8], u32),
    /// A part of so many bytes between two tags, with the pointer to its end tag.
    Framed(u32, u16, &'static [u8], &'static [u8]),
    /// A pointer to a place.
    Pointer(u32, u32),
    /// Any bytes.
    Bytes(u32, &'static [u8]),
    /// So many bytes that count on from a number.
    Counted(u32, u16, u8),
    /// So many zeros.
    Zeros(u32, u8),
}

/// The bytes of a file.
#[derive(Drop)]
pub struct Image {
    bytes: Vec<u8>,
}

impl Image {
    /// So many blank bytes.
    pub fn blank(alloc: Global, length: usize) -> Result<Image, AllocError> {
        Ok(Image {
            bytes: vec![in alloc; b'z'; length]?,
        })
    }

    /// Writes a text at a place, where it fits.
    fn put(&mut self, at: usize, text: &[u8]) {
        if at <= self.bytes.len() && text.len() <= self.bytes.len() - at {
            self.bytes[at..at + text.len()].copy_from_slice(text);
        }
    }

    // Writes the pointer to a place.
    fn point(&mut self, at: usize, place: usize) {
        if (place as u64) < 1 << 44 {
            self.put(at, &encode(from_place(place as u64)));
        }
    }

    fn put_number(&mut self, at: usize, value: u32) {
        let mut digits = [0u8; 8];
        write_hex(value, &mut digits);
        self.put(at, &digits);
    }

    fn put_head(&mut self, end: u32) {
        self.put(0, b"@(#)ADF Database Version A02007>AdF0");
        self.put(36, b"                            AdF1");
        self.put(68, b"                            AdF2LLAdF3");
        self.put(106, b"000000000000000000000000AdF4");
        self.put(134, b"00000000010A");
        self.point(146, end as usize);
        self.put(158, b"0000000000BA000000001000AdF5");
        self.put(186, b"fCbt000000001000000000001000000000001000");
        self.put(226, b"000000001000000000001000000000001000Fcte");
    }

    // Writes the first 68 bytes of a node's header, and its 62 from the table on.
    fn put_texts(&mut self, place: u32, name: &[u8]) {
        let at = place as usize;
        self.put(at, b"NoDe                                ");
        self.put(at + 36, b"                                ");
        self.put(at + 4, name);
        self.put(at + 84, b"000000001000MT                              00");
    }

    // Writes how many children a node has, and how many entries and which place its table, if any.
    fn put_family(&mut self, place: u32, children: u32, entries: u32, table: u32) {
        let at = place as usize;
        self.put_number(at + 68, children);
        self.put_number(at + 76, entries);
        if entries > 0 {
            self.point(at + 84, table as usize);
        }
    }

    // Writes twelve dimensions, of so many digits each, and no data.
    fn put_no_data(&mut self, place: u32, digits: u8) {
        let at = place as usize;
        for k in 0..12 {
            self.put(at + 130 + usize::from(digits) * k, b"0000000000000000");
        }
        if digits == 8 {
            self.put(at + 226, b"0000000000001000TaiL");
        } else {
            self.put(at + 322, b"0000000000001000TaiL");
        }
    }

    fn put_table(&mut self, place: u32, entries: u8) {
        let at = place as usize;
        let tail = at + 16 + 44 * usize::from(entries);
        self.put(at, b"SNTb");
        self.point(at + 4, tail);
        self.put(tail, b"snTE");
    }

    fn put_entry(&mut self, table: u32, position: u8, name: &[u8], child: u32) {
        let at = table as usize + 16 + 44 * usize::from(position);
        self.put(at, b"                                ");
        self.put(at, name);
        self.point(at + 32, child as usize);
    }

    fn put_framed(&mut self, place: u32, length: u16, start: &[u8], tail: &[u8]) {
        let at = place as usize;
        let behind = at + usize::from(length);
        self.put(at, start);
        self.point(at + 4, behind.saturating_sub(4));
        self.put(behind.saturating_sub(4), tail);
    }

    fn put_counted(&mut self, place: u32, length: u16, first: u8) {
        let mut number = first;
        for k in 0..usize::from(length) {
            self.put(place as usize + k, &[number]);
            number = number.wrapping_add(1);
        }
    }

    /// Writes a part.
    pub fn draw(&mut self, part: Part) {
        match part {
            Part::Head(end) => self.put_head(end),
            Part::Node(at, name, children, entries, table) => {
                self.put_texts(at, name);
                self.put_family(at, children, entries, table);
                self.put_no_data(at, 8);
            }
            Part::WideNode(at, name, children, entries, table) => {
                self.put_texts(at, name);
                self.put_family(at, children, entries, table);
                self.put_no_data(at, 16);
            }
            Part::Table(at, entries) => self.put_table(at, entries),
            Part::Entry(table, position, name, child) => {
                self.put_entry(table, position, name, child);
            }
            Part::Framed(at, length, start, tail) => self.put_framed(at, length, start, tail),
            Part::Pointer(at, place) => self.point(at as usize, place as usize),
            Part::Bytes(at, text) => self.put(at as usize, text),
            Part::Counted(at, length, first) => self.put_counted(at, length, first),
            Part::Zeros(at, length) => {
                self.put(at as usize, &[0u8; 256][..usize::from(length)]);
            }
        }
    }

    /// Makes some changes, one after another.
    pub fn change(&mut self, changes: &[Change]) {
        for (at, text) in changes {
            self.put(*at, text);
        }
    }

    /// Leaves the first bytes alone.
    pub fn cut(&mut self, length: usize) {
        self.bytes.truncate(length);
    }

    /// The bytes.
    pub fn text(self) -> Text {
        Text::new(self.bytes)
    }
}

/// A chain of so many nodes, each the child of the one before, in a file of 100,000 bytes.
pub fn chain(alloc: Global, nodes: u16) -> Result<Image, AllocError> {
    let mut image = Image::blank(alloc, 100_000)?;
    let mut place = 266u32;
    for _ in 1..nodes {
        let next = place.saturating_add(310);
        let table = place.saturating_add(246);
        image.draw(Part::Node(place, b"N", 1, 1, table));
        image.draw(Part::Table(table, 1));
        image.draw(Part::Entry(table, 0, b"N", next));
        place = next;
    }
    image.draw(Part::Node(place, b"N", 0, 0, 0));
    image.draw(Part::Head(place.saturating_add(245)));
    Ok(image)
}
