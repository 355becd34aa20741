//! The files that words name.

ghost use Rattle.std.specs.Prelude.{◌≡◌, OnOk, IfOk, map, string_bytes};
ghost use Rattle.adf_library.specs.Shelf.{number_in, slots_of, IsShelf};
ghost use Rattle.tool_commands.specs.Named.{has_number, named_files, with_named};

use adf_format::Listing;
use adf_library::Shelf;
use adf_model::Text;
use cg_io::Device;
use std::alloc::{AllocError, Global};

/// A file that words name: the number of its device, and the first word that names it.
#[derive(Drop)]
pub struct NamedFile {
    pub number: u32,
    pub word: Text,
}

fn has_number(files: &[NamedFile], number: u32) -> bool
    ensures { result ≡ has_number files.now number }
{
    files.iter().any(|file| file.number == number)
}

// Adds the file that a word names, where it is not there.
fn add_named<D: Device>(
    alloc: Global,
    files: &mut Vec<NamedFile>,
    word: &str,
    shelf: &Shelf<D>,
) -> Result<(), AllocError>
    requires { IsShelf shelf.now }
    ensures { OnOk result (files.new.items ≡ with_named files.old.items
        (number_in (slots_of D.state shelf.now) word.now) word.now) }
{
    let Some(number) = shelf.number_of(word.as_bytes()) else {
        return Ok(());
    };
    if has_number(files, number) {
        return Ok(());
    }
    let word = Text::new(word.as_bytes().to_vec(alloc)?);
    files.push(NamedFile { number, word })?;
    Ok(())
}

/// The files that words name, in the order of their first words.
pub fn named_files<D: Device>(
    alloc: Global,
    shelf: &Shelf<D>,
    words: &[String],
) -> Result<Listing<NamedFile>, AllocError>
    requires { IsShelf shelf.now }
    ensures { IfOk result (λ files. files
        ≡ named_files (slots_of D.state shelf.now) (map string_bytes words.now)) }
{
    let mut files = Vec::new(alloc);
    for word in words {
        add_named(alloc, &mut files, word.as_str(), shelf)?;
    }
    Ok(Listing::new(files))
}
