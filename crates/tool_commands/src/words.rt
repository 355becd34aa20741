//! What the words of the command line ask for.

ghost use Rattle.std.specs.Prelude.{◌≡◌, map, string_bytes, IfSome, IsSome, IfOk, IsErr};
ghost use Rattle.std.specs.List.{list_all};
ghost use Rattle.std.specs.Option.{unwrap_or};
ghost use Rattle.tool_commands.specs.Tool.{IsOnShelf, MayLack, command_between, command_on, command_over, file_number, is_file_word, names_device, pair_wanted, files_wanted, rules_named, wanted, wanted_over};
ghost use Rattle.tool_commands.specs.Named.{named_files};
ghost use Rattle.adf_library.specs.Shelf.{slots_of, device_at, IsShelf, IsWhole};

use crate::named_files::{NamedFile, named_files};
use adf_format::Listing;
use adf_library::Shelf;
use adf_repack::Target;
use cg_io::Device;
use sids_readings::RuleSet;
use std::alloc::{AllocError, Global};

/// What the words of the command line ask for.
#[derive(Drop)]
pub enum Wanted {
    /// They are not right.
    Nothing,
    /// The fresh file of a version on the device of this number.
    Init {
        wide: bool,
        number: u32,
    },
    /// The linter's verdict on that device's file.
    Lint(u32),
    /// The extents of that device's file.
    Map(u32),
    /// The lines of the tree of that device's file.
    Tree(u32),
    /// A packed copy of the file of one device into another device, in a version.
    Copy {
        target: Target,
        from: u32,
        to: u32,
    },
    /// A packed copy of the sound part of the file of one device into another device.
    Salvage {
        from: u32,
        to: u32,
    },
    /// The findings of the first of some files by a set of rules.
    Check {
        set: RuleSet,
        files: Listing<NamedFile>,
    },
    /// A session over the files of the shelf.
    Session,
}

fn may_name(word: &str) -> bool
    ensures { result ≡ is_file_word word.now }
{
    !word.is_empty() && !word.starts_with("-")
}

// The number of the device of a file, if the word may name one.
fn file_number<D: Device>(shelf: &Shelf<D>, word: &str) -> Option<u32>
    requires whole { IsWhole shelf.now }
    requires shelf { IsShelf shelf.now }
    ensures number { result ≡ file_number (slots_of D.state shelf.now) word.now }
    ensures stands { IfSome result (λ n. IsSome (device_at (slots_of D.state shelf.now) n)) }
{
    if may_name(word) {
        shelf.number_of(word.as_bytes())
    } else {
        None
    }
}

// The command over one file that has this name.
fn command_on(command: &str, number: u32) -> Wanted
    ensures { result ≡ command_on command.now number }
{
    if command == "init" {
        Wanted::Init {
            wide: false,
            number,
        }
    } else if command == "init-wide" {
        Wanted::Init { wide: true, number }
    } else if command == "lint" {
        Wanted::Lint(number)
    } else if command == "map" {
        Wanted::Map(number)
    } else if command == "tree" {
        Wanted::Tree(number)
    } else {
        Wanted::Nothing
    }
}

// The command over two files that has this name, from the device of one number to that of the other.
fn command_between(command: &str, from: u32, to: u32) -> Wanted
    ensures { result ≡ command_between command.now from to }
{
    if command == "repack" {
        Wanted::Copy {
            target: Target::Same,
            from,
            to,
        }
    } else if command == "widen" {
        Wanted::Copy {
            target: Target::Wide,
            from,
            to,
        }
    } else if command == "narrow" {
        Wanted::Copy {
            target: Target::Narrow,
            from,
            to,
        }
    } else if command == "salvage" {
        Wanted::Salvage { from, to }
    } else {
        Wanted::Nothing
    }
}

// The command from one file to another one.
fn pair_wanted<D: Device>(command: &str, from: &str, to: &str, shelf: &Shelf<D>) -> Wanted
    requires whole { IsWhole shelf.now }
    requires shelf { IsShelf shelf.now }
    ensures wanted { result ≡ pair_wanted command.now from.now to.now
        (slots_of D.state shelf.now) }
    ensures stands { IsOnShelf result (slots_of D.state shelf.now) }
{
    if from == to {
        return Wanted::Nothing;
    }
    let Some(from) = file_number(shelf, from) else {
        return Wanted::Nothing;
    };
    let Some(to) = file_number(shelf, to) else {
        return Wanted::Nothing;
    };
    command_between(command, from, to)
}

// What is wanted where the words are not those of a session.
fn files_wanted<D: Device>(words: &[String], shelf: &Shelf<D>) -> Wanted
    requires whole { IsWhole shelf.now }
    requires shelf { IsShelf shelf.now }
    ensures wanted { result ≡ files_wanted (map string_bytes words.now)
        (slots_of D.state shelf.now) }
    ensures stands { IsOnShelf result (slots_of D.state shelf.now) }
{
    match words {
        [command, file] => match file_number(shelf, file.as_str()) {
            Some(number) => command_on(command.as_str(), number),
            None => Wanted::Nothing,
        },
        [command, from, to] => pair_wanted(command.as_str(), from.as_str(), to.as_str(), shelf),
        _ => Wanted::Nothing,
    }
}

// Whether a word may name a file, and a device stands on the shelf under it.
fn is_on<D: Device>(shelf: &Shelf<D>, word: &str) -> bool
    requires { IsShelf shelf.now }
    ensures { result ≡ names_device (slots_of D.state shelf.now) word.now }
{
    may_name(word) && shelf.number_of(word.as_bytes()).is_some()
}

// Whether that holds of all words.
fn are_on<D: Device>(shelf: &Shelf<D>, words: &[String]) -> bool
    requires { IsShelf shelf.now }
    ensures { result ≡ list_all (names_device (slots_of D.state shelf.now))
        (map string_bytes words.now) }
{
    for word in words {
        if !is_on(shelf, word.as_str()) {
            return false;
        }
    }
    true
}

// The command over one file or more that has this name.
fn command_over<D: Device>(
    alloc: Global,
    command: &str,
    files: &[String],
    shelf: &Shelf<D>,
) -> Result<Option<Wanted>, AllocError>
    requires { IsShelf shelf.now }
    ensures wanted { IfOk result (λ asked. asked
        ≡ command_over command.now (named_files (slots_of D.state shelf.now)
        (map string_bytes files.now))) }
    ensures lacks { IsErr result → MayLack (unwrap_or (command_over command.now
        (named_files (slots_of D.state shelf.now) (map string_bytes files.now))) Wanted.Nothing) }
{
    if command == "session" {
        return Ok(Some(Wanted::Session));
    }
    let Some(set) = rules_named(command) else {
        return Ok(None);
    };
    let files = named_files(alloc, shelf, files)?;
    Ok(Some(Wanted::Check { set, files }))
}

// The rules by which the command of this name checks.
fn rules_named(command: &str) -> Option<RuleSet>
    ensures { result ≡ rules_named command.now }
{
    if command == "check" {
        Some(RuleSet::Check)
    } else if command == "check4" {
        Some(RuleSet::Check4)
    } else {
        None
    }
}

// What is wanted where the words are those of a command over one file or more.
fn wanted_over<D: Device>(
    alloc: Global,
    words: &[String],
    shelf: &Shelf<D>,
) -> Result<Option<Wanted>, AllocError>
    requires { IsShelf shelf.now }
    ensures wanted { IfOk result (λ asked. asked ≡ wanted_over (map string_bytes words.now)
        (slots_of D.state shelf.now)) }
    ensures lacks { IsErr result → MayLack (unwrap_or (wanted_over (map string_bytes words.now)
        (slots_of D.state shelf.now)) Wanted.Nothing) }
{
    match words {
        [] | [_] => Ok(None),
        [command, files @ ..] => {
            if are_on(shelf, files) {
                command_over(alloc, command.as_str(), files, shelf)
            } else {
                Ok(None)
            }
        }
    }
}

/// What the words ask for, by the names that stand on the shelf. It is refused only for want of memory
/// to list the files of a check.
pub fn read_words<D: Device>(
    alloc: Global,
    words: &[String],
    shelf: &Shelf<D>,
) -> Result<Wanted, AllocError>
    requires whole { IsWhole shelf.now }
    requires shelf { IsShelf shelf.now }
    ensures wanted { IfOk result (λ asked. asked
        ≡ wanted (map string_bytes words.now) (slots_of D.state shelf.now)) }
    ensures stands { IfOk result (λ asked. IsOnShelf asked (slots_of D.state shelf.now)) }
    ensures lacks { IsErr result
        → MayLack (wanted (map string_bytes words.now) (slots_of D.state shelf.now)) }
{
    match wanted_over(alloc, words, shelf)? {
        Some(asked) => Ok(asked),
        None => Ok(files_wanted(words, shelf)),
    }
}
