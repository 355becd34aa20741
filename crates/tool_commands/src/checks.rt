//! Checks of files: their openings, what is printed, and how they end.

ghost use Rattle.std.specs.Prelude.{◌≡◌, ◌≢◌, ◌≤◌, ◌++◌, ℕ, List, [], true, false, length, IfErr, IfOk, OnOk};
ghost use Rattle.std.specs.List.{AllByRecursion, list_any};
ghost use Rattle.adf_model.specs.Causes.{OnlyAsks};
ghost use Rattle.adf_model.specs.NamedRules.{NamesRule};
ghost use Rattle.adf_model.specs.Slots.{IsTold, slot_at, is_open, is_broken};
ghost use Rattle.cgns_check.specs.Checked.{Checks, HasCheckCause};
ghost use Rattle.sids_readings.specs.RuleSets.{rules_of};
ghost use Rattle.sids_rules.specs.Findings.{printed_lines};
ghost use Rattle.tool_commands.specs.Checks.{Checked, ChecksFile, EndsAnswer, HasNamedRule, closed_lines, closed_text, found_status, status_over};
ghost use Rattle.tool_commands.specs.Openings.{HaveEnded, Opens, OpensFile, Outcome, is_fault, is_first_open, is_refused};

use crate::copies::refusal_line;
use crate::named_files::NamedFile;
use crate::printing::ended;
use crate::status::Status;
use adf_model::{AdfError, Mode, spell};
use cg_io::Sink;
use cgns_check::{CheckFault, check, check4};
use session::{FileCalls, print};
use sids_readings::RuleSet;
use std::alloc::{AllocError, Global};

/// The address limit of files that are opened for reading, in blocks.
pub const LIMIT: u64 = 1 << 32;

// Opens a file for reading, and adds how that ended to the outcomes. Whether it is open.
fn open_file<C: FileCalls>(
    calls: &mut C,
    number: u32,
    outcomes: &mut Vec<Result<(), AdfError>>,
) -> Result<bool, AllocError>
    requires { C.is_ready calls.old }
    ensures ready { C.is_ready calls.new }
    ensures opens { OpensFile number result outcomes.old.items outcomes.new.items
        (C.files calls.old) (C.devices calls.old) (C.devices calls.new) (C.files calls.new) }
{
    let outcome = calls.open(number, Mode::ReadOnly, LIMIT);
    outcomes.push(outcome)?;
    match outcome {
        Ok(()) => Ok(true),
        Err(AdfError::Memory) => Err(AllocError),
        Err(_) => Ok(false),
    }
}

// Opens files for reading one after another: none behind the first, where that is refused.
fn open_files<C: FileCalls>(
    alloc: Global,
    calls: &mut C,
    files: &[NamedFile],
) -> Result<Vec<Result<(), AdfError>>, AllocError>
    requires ready { C.is_ready calls.old }
    requires files { files.now ≢ [] }
    ensures ready { C.is_ready calls.new }
    ensures opens { (outcomes : List Outcome) × Opens files.now outcomes (C.files calls.old)
        (C.devices calls.old) (C.devices calls.new) (C.files calls.new)
        × IfOk result (λ given. (given.items ≡ outcomes) × HaveEnded files.now outcomes) }
{
    let [first, later @ ..] = files else {
        unreachable!()
    };
    let mut outcomes = Vec::new(alloc);
    if !open_file(calls, first.number, &mut outcomes)? {
        return Ok(outcomes);
    }
    for file in later {
        open_file(calls, file.number, &mut outcomes)?;
    }
    Ok(outcomes)
}

// Appends the lines of a file that is not opened.
fn append_closed(
    alloc: Global,
    text: &mut Vec<u8>,
    outcome: Result<(), AdfError>,
    file: &NamedFile,
) -> Result<(), AllocError>
    requires { IfErr outcome NamesRule }
    ensures { OnOk result (text.new.items
        ≡ text.old.items ++ printed_lines (closed_lines outcome file.now)) }
{
    let Err(error) = outcome else {
        return Ok(());
    };
    let Ok(name) = spell(alloc, file.word.items()) else {
        return Err(AllocError);
    };
    text.extend_from_slice(b"closed ")?;
    text.extend_from_slice(name.items())?;
    text.push(b'\n')?;
    text.extend_from_slice(&refusal_line(alloc, error)?)?;
    Ok(())
}

// The lines of all files that are not opened.
fn closed_text(
    alloc: Global,
    outcomes: &[Result<(), AdfError>],
    files: &[NamedFile],
) -> Result<Vec<u8>, AllocError>
    requires few { length outcomes.now ≤ length files.now }
    requires rules { AllByRecursion (λ outcome. IfErr outcome NamesRule) outcomes.now }
    ensures { IfOk result (λ text. text.items ≡ closed_text outcomes.now files.now) }
{
    let mut text = Vec::new(alloc);
    for (at, outcome) in outcomes.iter().enumerate() {
        append_closed(alloc, &mut text, *outcome, &files[at])?;
    }
    Ok(text)
}

fn is_fault(outcome: Result<(), AdfError>) -> bool
    ensures { result ≡ is_fault outcome }
{
    matches!(outcome, Err(AdfError::ReadFault))
}

fn is_any_fault(outcomes: &[Result<(), AdfError>]) -> bool
    ensures { result ≡ list_any is_fault outcomes.now }
{
    outcomes.iter().any(|outcome| is_fault(*outcome))
}

fn is_refused(outcome: Result<(), AdfError>) -> bool
    ensures { result ≡ is_refused outcome }
{
    matches!(outcome, Err(_))
}

fn is_any_refused(outcomes: &[Result<(), AdfError>]) -> bool
    ensures { result ≡ list_any is_refused outcomes.now }
{
    outcomes.iter().any(|outcome| is_refused(*outcome))
}

// The status in place of this one, where some file was not opened.
fn status_over(outcomes: &[Result<(), AdfError>], ended: Status) -> Status
    ensures { result ≡ status_over outcomes.now ended }
{
    if is_any_fault(outcomes) {
        Status::DeviceFault
    } else if is_any_refused(outcomes) {
        Status::No
    } else {
        ended
    }
}

// The status by the number of findings.
fn found_status(found: u64) -> Status
    ensures { result ≡ found_status found }
{
    if found == 0 { Status::Done } else { Status::No }
}

// The findings of a file by a set of rules.
fn check_by_set<C: FileCalls, O: Sink>(
    alloc: Global,
    set: RuleSet,
    calls: &mut C,
    file: u32,
    output: &mut O,
) -> Result<u64, CheckFault>
    requires ready { C.is_ready calls.old }
    requires open_file { is_open (slot_at (C.files calls.old) file) ≡ true }
    requires whole { is_broken (slot_at (C.files calls.old) file) ≡ false }
    ensures ready { C.is_ready calls.new }
    ensures only { OnlyAsks (C.files calls.old) (C.devices calls.old)
        (C.devices calls.new) (C.files calls.new) }
    ensures checks { IsTold (C.files calls.old) (C.devices calls.old)
        → Checks (rules_of set) (C.files calls.old) file result
        (O.taken output.old) (O.taken output.new) }
    ensures sink { O.faults output.old ≤ O.faults output.new }
    ensures cause { HasCheckCause (C.files calls.old) (C.devices calls.old) (C.devices calls.new)
        (O.faults output.old) (O.faults output.new) result }
{
    match set {
        RuleSet::Check => check(alloc, calls, file, output),
        RuleSet::Check4 => check4(alloc, calls, file, output),
    }
}

// Ends with the answer of the check, behind a last line where that is a refusal.
fn end_answer<O: Sink>(
    alloc: Global,
    outcomes: &[Result<(), AdfError>],
    answer: Result<u64, CheckFault>,
    output: &mut O,
) -> Status
    requires { HasNamedRule answer }
    ensures { EndsAnswer outcomes.now answer result
        (record { taken = O.taken output.old; faults = O.faults output.old })
        (record { taken = O.taken output.new; faults = O.faults output.new }) }
{
    match answer {
        Ok(found) => status_over(outcomes, found_status(found)),
        Err(CheckFault::Memory) => Status::Memory,
        Err(CheckFault::Sink) => Status::SinkFault,
        Err(CheckFault::Read) => ended(output, b"E02 ReadFault\n", Status::DeviceFault),
        Err(CheckFault::Core(error)) => match refusal_line(alloc, error) {
            Ok(line) => ended(output, &line, status_over(outcomes, Status::No)),
            Err(_) => Status::Memory,
        },
    }
}

// Whether the first file was opened.
fn is_first_open(outcomes: &[Result<(), AdfError>]) -> bool
    ensures { result ≡ is_first_open outcomes.now }
{
    matches!(outcomes, [Ok(()), ..])
}

// Checks the first of some files, where it is open, and ends.
fn check_first<C: FileCalls, O: Sink>(
    alloc: Global,
    set: RuleSet,
    calls: &mut C,
    number: u32,
    outcomes: &[Result<(), AdfError>],
    output: &mut O,
) -> Status
    requires ready { C.is_ready calls.old }
    requires open_file { is_open (slot_at (C.files calls.old) number) ≡ true }
    requires whole { is_broken (slot_at (C.files calls.old) number) ≡ false }
    ensures ready { C.is_ready calls.new }
    ensures stay { C.files calls.new ≡ C.files calls.old }
    ensures checks { ChecksFile (rules_of set) number outcomes.now (C.files calls.old)
        (C.devices calls.old) (C.devices calls.new) result
        (record { taken = O.taken output.old; faults = O.faults output.old })
        (record { taken = O.taken output.new; faults = O.faults output.new }) }
{
    let answer = check_by_set(alloc, set, calls, number, output);
    end_answer(alloc, outcomes, answer, output)
}

/// Opens files for reading, prints those that cannot be opened, and then the findings of the first one by
/// a set of rules. The files stay open.
pub fn check_files<C: FileCalls, O: Sink>(
    alloc: Global,
    set: RuleSet,
    calls: &mut C,
    files: &[NamedFile],
    output: &mut O,
) -> Status
    requires ready { C.is_ready calls.old }
    requires files { files.now ≢ [] }
    ensures ready { C.is_ready calls.new }
    ensures checked { Checked set files.now result (C.files calls.old) (C.devices calls.old)
        (C.devices calls.new) (C.files calls.new)
        (record { taken = O.taken output.old; faults = O.faults output.old })
        (record { taken = O.taken output.new; faults = O.faults output.new }) }
{
    let [first, ..] = files else { unreachable!() };
    let Ok(opened) = open_files(alloc, calls, files) else {
        return Status::Memory;
    };
    let outcomes: &[Result<(), AdfError>] = &opened;
    let Ok(text) = closed_text(alloc, outcomes, files) else {
        return Status::Memory;
    };
    match print(output, &text) {
        Ok(()) if is_first_open(outcomes) => {
            check_first(alloc, set, calls, first.number, outcomes, output)
        }
        Ok(()) => status_over(outcomes, Status::No),
        Err(_) => Status::SinkFault,
    }
}
