//! The commands.

ghost use Rattle.std.specs.Prelude.{◌≡◌, ◌≢◌, [], IsSome, map, string_bytes};
ghost use Rattle.tool_commands.specs.Checks.{CheckEnds};
ghost use Rattle.tool_commands.specs.Copies.{CopyEnds};
ghost use Rattle.tool_commands.specs.Printed.{EndsWith};
ghost use Rattle.tool_commands.specs.Salvages.{SalvageEnds};
ghost use Rattle.tool_commands.specs.Tool.{InitEnds, OnDevice, OnDevices, Reports, RunEnds, SessionEnds, init_line, init_status, report_status, session_status, usage, wanted};
ghost use Rattle.tool_commands.specs.Trees.{TreeEnds};
ghost use Rattle.layout_report.specs.Reports.{Linted, Mapped};
ghost use Rattle.adf_library.specs.Shelf.{slots_of, device_at, IsShelf, IsWhole};

use crate::checks::check_files;
use crate::copies::{Copied, copy_file, tell_copy};
use crate::named_files::NamedFile;
use crate::pairs::{put_both_back, take_both};
use crate::printing::ended;
use crate::salvages::{Salvage, salvage_file, tell_salvage};
use crate::status::Status;
use crate::trees::print_file;
use crate::words::{Wanted, read_words};
use adf_library::{Library, Shelf};
use adf_model::AdfError;
use adf_repack::Target;
use adf_tree::make_fresh;
use cg_io::{Device, Sink, Source};
use layout_report::{Report, lint_file, map_file};
use session::{Ended, run_session};
use sids_readings::RuleSet;
use std::alloc::Global;
use std::mem::replace;

// The line that the making of a fresh file of a version prints.
fn init_text(wide: bool, made: &Result<(), AdfError>) -> &'static [u8]
    ensures { result.now ≡ init_line wide made.now }
{
    match made {
        Ok(()) if wide => b"ok 607\n",
        Ok(()) => b"ok 511\n",
        Err(AdfError::NotEmpty) => b"E25 NotEmpty\n",
        Err(AdfError::ReadFault) => b"E02 ReadFault\n",
        Err(_) => b"E03 WriteFault\n",
    }
}

// The status with which it ends.
fn init_status_of(made: &Result<(), AdfError>) -> Status
    ensures { result ≡ init_status made.now }
{
    match made {
        Ok(()) => Status::Done,
        Err(AdfError::NotEmpty) => Status::No,
        Err(_) => Status::DeviceFault,
    }
}

// Makes the fresh file of a version on a device, and says so.
fn init<D: Device, O: Sink>(wide: bool, device: &mut D, output: &mut O) -> Status
    ensures { InitEnds wide result (D.state device.old) (D.state device.new) (O.taken output.old)
        (O.taken output.new) (O.faults output.old) (O.faults output.new) }
{
    let made = make_fresh(device, wide);
    ended(output, init_text(wide, &made), init_status_of(&made))
}

// The same on the device of a number.
#[tactic(auto, using(adf_library::proofs::ShelfSlots::taken_and_put_back))]
fn init_on<D: Device, O: Sink>(
    wide: bool,
    number: u32,
    shelf: &mut Shelf<D>,
    output: &mut O,
) -> Status
    requires whole { IsWhole shelf.old }
    requires shelf { IsShelf shelf.old }
    requires there { IsSome (device_at (slots_of D.state shelf.old) number) }
    ensures init { OnDevice number (λ device after.
        InitEnds wide result device after (O.taken output.old) (O.taken output.new)
        (O.faults output.old) (O.faults output.new)) (slots_of D.state shelf.old)
        (slots_of D.state shelf.new) }
    ensures whole { IsWhole shelf.new }
    ensures shelf { IsShelf shelf.new }
{
    let Some(taken) = shelf.take(number) else {
        unreachable!()
    };
    let mut device = taken;
    let status = init(wide, &mut device, output);
    shelf.put_back(number, device);
    status
}

// The status with which a report ends.
fn report_status_of(how: Report) -> Status
    ensures { result ≡ report_status how }
{
    match how {
        Report::Done => Status::Done,
        Report::Broken => Status::No,
        Report::DeviceFault => Status::DeviceFault,
        Report::SinkFault => Status::SinkFault,
        Report::Memory => Status::Memory,
    }
}

// The linter's verdict on the file of a device.
#[tactic(auto, using(adf_library::proofs::ShelfSlots::taken_and_put_back))]
fn lint_on<D: Device, O: Sink>(
    alloc: Global,
    number: u32,
    shelf: &mut Shelf<D>,
    output: &mut O,
) -> Status
    requires whole { IsWhole shelf.old }
    requires shelf { IsShelf shelf.old }
    requires there { IsSome (device_at (slots_of D.state shelf.old) number) }
    ensures lint { OnDevice number (λ device after.
        Reports Linted result device after (O.taken output.old) (O.taken output.new)
        (O.faults output.old) (O.faults output.new)) (slots_of D.state shelf.old)
        (slots_of D.state shelf.new) }
    ensures whole { IsWhole shelf.new }
    ensures shelf { IsShelf shelf.new }
{
    let Some(taken) = shelf.take(number) else {
        unreachable!()
    };
    let (device, how) = lint_file(alloc, taken, output);
    shelf.put_back(number, device);
    report_status_of(how)
}

// The map of the file of a device.
#[tactic(auto, using(adf_library::proofs::ShelfSlots::taken_and_put_back))]
fn map_on<D: Device, O: Sink>(
    alloc: Global,
    number: u32,
    shelf: &mut Shelf<D>,
    output: &mut O,
) -> Status
    requires whole { IsWhole shelf.old }
    requires shelf { IsShelf shelf.old }
    requires there { IsSome (device_at (slots_of D.state shelf.old) number) }
    ensures map { OnDevice number (λ device after.
        Reports Mapped result device after (O.taken output.old) (O.taken output.new)
        (O.faults output.old) (O.faults output.new)) (slots_of D.state shelf.old)
        (slots_of D.state shelf.new) }
    ensures whole { IsWhole shelf.new }
    ensures shelf { IsShelf shelf.new }
{
    let Some(taken) = shelf.take(number) else {
        unreachable!()
    };
    let (device, how) = map_file(alloc, taken, output);
    shelf.put_back(number, device);
    report_status_of(how)
}

// A copy of the file of one device into another device.
fn copy_on<D: Device, O: Sink>(
    alloc: Global,
    version: Target,
    from: u32,
    to: u32,
    shelf: &mut Shelf<D>,
    output: &mut O,
) -> Status
    requires whole { IsWhole shelf.old }
    requires shelf { IsShelf shelf.old }
    requires apart { from ≢ to }
    requires source { IsSome (device_at (slots_of D.state shelf.old) from) }
    requires target { IsSome (device_at (slots_of D.state shelf.old) to) }
    ensures copy { OnDevices from to (λ source source_after target target_after.
        CopyEnds version result source source_after target target_after (O.taken output.old)
        (O.taken output.new) (O.faults output.old) (O.faults output.new))
        (slots_of D.state shelf.old) (slots_of D.state shelf.new) }
    ensures whole { IsWhole shelf.new }
    ensures shelf { IsShelf shelf.new }
{
    let (source, target) = take_both(shelf, from, to);
    let Copied {
        source,
        target,
        made,
    } = copy_file(alloc, source, target, version);
    let status = tell_copy(alloc, &made, output);
    put_both_back(shelf, from, source, to, target);
    status
}

// A copy of the sound part of the file of one device into another device.
fn salvage_on<D: Device, O: Sink>(
    alloc: Global,
    from: u32,
    to: u32,
    shelf: &mut Shelf<D>,
    output: &mut O,
) -> Status
    requires whole { IsWhole shelf.old }
    requires shelf { IsShelf shelf.old }
    requires apart { from ≢ to }
    requires source { IsSome (device_at (slots_of D.state shelf.old) from) }
    requires target { IsSome (device_at (slots_of D.state shelf.old) to) }
    ensures salvage { OnDevices from to (λ source source_after target target_after.
        SalvageEnds result source source_after target target_after (O.taken output.old)
        (O.taken output.new) (O.faults output.old) (O.faults output.new))
        (slots_of D.state shelf.old) (slots_of D.state shelf.new) }
    ensures whole { IsWhole shelf.new }
    ensures shelf { IsShelf shelf.new }
{
    let (source, target) = take_both(shelf, from, to);
    let Salvage {
        source,
        target,
        made,
    } = salvage_file(alloc, source, target);
    let status = tell_salvage(alloc, &made, output);
    put_both_back(shelf, from, source, to, target);
    status
}

// The status with which a session ends.
fn session_status_of(how: Ended) -> Status
    ensures { result ≡ session_status how }
{
    match how {
        Ended::Done => Status::Done,
        Ended::SourceFault => Status::SourceFault,
        Ended::SinkFault => Status::SinkFault,
        Ended::Memory => Status::Memory,
        Ended::TooLong => Status::TooLong,
    }
}

// A session over the files of a shelf. Meanwhile an empty shelf stands in its place.
fn session_on<D: Device, I: Source, O: Sink>(
    alloc: Global,
    shelf: &mut Shelf<D>,
    input: &mut I,
    output: &mut O,
) -> Ended
    requires whole { IsWhole shelf.old }
    requires shelf { IsShelf shelf.old }
    ensures session { SessionEnds result (slots_of D.state shelf.old) (slots_of D.state shelf.new)
        (record {
          left = I.left input.old;
          source_faults = I.faults input.old;
          taken = O.taken output.old;
          sink_faults = O.faults output.old;
        })
        (record {
          left = I.left input.new;
          source_faults = I.faults input.new;
          taken = O.taken output.new;
          sink_faults = O.faults output.new;
        }) }
    ensures whole { IsWhole shelf.new }
    ensures shelf { IsShelf shelf.new }
{
    let taken = replace(shelf, Shelf::new(alloc));
    let Ok(made) = Library::new(alloc, taken) else {
        unreachable!()
    };
    let mut library = made;
    let how = run_session(alloc, &mut library, input, output);
    *shelf = library.finish();
    how
}

// The findings of the first of some files of a shelf. Meanwhile an empty shelf stands in its place.
fn check_on<D: Device, O: Sink>(
    alloc: Global,
    set: RuleSet,
    files: &[NamedFile],
    shelf: &mut Shelf<D>,
    output: &mut O,
) -> Status
    requires whole { IsWhole shelf.old }
    requires shelf { IsShelf shelf.old }
    requires files { files.now ≢ [] }
    ensures check { CheckEnds set files.now result (slots_of D.state shelf.old)
        (slots_of D.state shelf.new)
        (record { taken = O.taken output.old; faults = O.faults output.old })
        (record { taken = O.taken output.new; faults = O.faults output.new }) }
    ensures whole { IsWhole shelf.new }
    ensures shelf { IsShelf shelf.new }
{
    let held = replace(shelf, Shelf::new(alloc));
    let Ok(made) = Library::new(alloc, held) else {
        unreachable!()
    };
    let mut calls = made;
    let status = check_files(alloc, set, &mut calls, files, output);
    *shelf = calls.finish();
    status
}

// The lines of the tree of a file of a shelf. Meanwhile an empty shelf stands in its place.
fn tree_on<D: Device, O: Sink>(
    alloc: Global,
    number: u32,
    shelf: &mut Shelf<D>,
    output: &mut O,
) -> Status
    requires whole { IsWhole shelf.old }
    requires shelf { IsShelf shelf.old }
    ensures tree { TreeEnds number result (slots_of D.state shelf.old) (slots_of D.state shelf.new)
        (record { taken = O.taken output.old; faults = O.faults output.old })
        (record { taken = O.taken output.new; faults = O.faults output.new }) }
    ensures whole { IsWhole shelf.new }
    ensures shelf { IsShelf shelf.new }
{
    let held = replace(shelf, Shelf::new(alloc));
    let Ok(made) = Library::new(alloc, held) else {
        unreachable!()
    };
    let mut calls = made;
    let status = print_file(alloc, &mut calls, number, output);
    *shelf = calls.finish();
    status
}

fn say_usage<O: Sink>(output: &mut O) -> Status
    ensures { EndsWith Status.Usage usage result (O.taken output.old) (O.taken output.new)
        (O.faults output.old) (O.faults output.new) }
{
    ended(output, b"usage: cgns_tool COMMAND WORD..\n", Status::Usage)
}

// Runs the command of these words on the devices of a shelf.
pub fn run_on<D: Device, I: Source, O: Sink>(
    alloc: Global,
    words: &[String],
    shelf: &mut Shelf<D>,
    input: &mut I,
    output: &mut O,
) -> Status
    requires whole { IsWhole shelf.old }
    requires shelf { IsShelf shelf.old }
    ensures run { RunEnds (wanted (map string_bytes words.now) (slots_of D.state shelf.old)) result
        (slots_of D.state shelf.old) (slots_of D.state shelf.new)
        (record {
          left = I.left input.old;
          source_faults = I.faults input.old;
          taken = O.taken output.old;
          sink_faults = O.faults output.old;
        })
        (record {
          left = I.left input.new;
          source_faults = I.faults input.new;
          taken = O.taken output.new;
          sink_faults = O.faults output.new;
        }) }
    ensures whole { IsWhole shelf.new }
    ensures shelf { IsShelf shelf.new }
{
    let Ok(asked) = read_words(alloc, words, shelf) else {
        return Status::Memory;
    };
    match asked {
        Wanted::Nothing => say_usage(output),
        Wanted::Init { wide, number } => init_on(wide, number, shelf, output),
        Wanted::Lint(number) => lint_on(alloc, number, shelf, output),
        Wanted::Map(number) => map_on(alloc, number, shelf, output),
        Wanted::Tree(number) => tree_on(alloc, number, shelf, output),
        Wanted::Copy { target, from, to } => copy_on(alloc, target, from, to, shelf, output),
        Wanted::Salvage { from, to } => salvage_on(alloc, from, to, shelf, output),
        Wanted::Check { set, files } => check_on(alloc, set, files.items(), shelf, output),
        Wanted::Session => session_status_of(session_on(alloc, shelf, input, output)),
    }
}

/// Runs the command of these words on the devices of a shelf, and answers how it ended. `words` are
/// the command line without the program's name. While a session runs, an empty shelf stands in the
/// place of this one.
pub fn run_tool<I: Source, O: Sink>(
    alloc: Global,
    words: &[String],
    shelf: &mut Shelf<Box<dyn Device>>,
    input: &mut I,
    output: &mut O,
) -> Status
    requires whole { IsWhole shelf.old }
    requires shelf { IsShelf shelf.old }
    ensures run { RunEnds (wanted (map string_bytes words.now) (slots_of state shelf.old)) result
        (slots_of state shelf.old) (slots_of state shelf.new)
        (record {
          left = I.left input.old;
          source_faults = I.faults input.old;
          taken = O.taken output.old;
          sink_faults = O.faults output.old;
        })
        (record {
          left = I.left input.new;
          source_faults = I.faults input.new;
          taken = O.taken output.new;
          sink_faults = O.faults output.new;
        }) }
    ensures whole { IsWhole shelf.new }
    ensures shelf { IsShelf shelf.new }
{
    run_on(alloc, words, shelf, input, output)
}
