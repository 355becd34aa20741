//! The report on a linter's verdict.

ghost use Rattle.std.specs.Prelude.{◌≡◌, ◌⊎◌, ◌≤◌, ◌+◌, ◌*◌, length, IfOk, IfErr};
ghost use Rattle.cg_io.specs.Answers.{OnlyReads, Told};
ghost use Rattle.cg_io.specs.Blocks.{ReadsFew};
ghost use Rattle.layout_lint.specs.Verdicts.{IsVerdict, NamesRule, MayFail};
ghost use Rattle.layout_report.specs.Lines.{verdict_line};
ghost use Rattle.layout_report.specs.Reports.{Ends, Linted, Says, verdict_report};

use crate::Report;
use crate::lines::verdict_line;
use crate::output::{say, say_refusal};
use adf_model::AdfError;
use block_cache::BlockCache;
use cg_io::{Device, Sink};
use layout_lint::{Verdict, lint};
use std::alloc::Global;

/// How many blocks of the file are kept in memory.
pub const KEPT_BLOCKS: usize = 256;

// The verdict on the file of a device, which is given back.
fn verdict_on<D: Device>(alloc: Global, device: D) -> (D, Result<Verdict, AdfError>)
    ensures verdict { IfOk result.1 (λ verdict.
        Told (D.state device).held (λ image. IsVerdict image verdict)) }
    ensures rule { IfOk result.1 NamesRule }
    ensures cause { IfErr result.1 (MayFail (D.state device).faults (D.state result.0).faults) }
    ensures effect { OnlyReads (D.state device) (D.state result.0) }
    ensures few { Told (D.state device).held (λ image.
        ReadsFew (8 * length image + 16) (D.state device) (D.state result.0)) }
{
    match BlockCache::new(alloc, device, KEPT_BLOCKS) {
        Ok(blocks) => {
            let mut blocks = blocks;
            let verdict = lint(alloc, &mut blocks);
            (blocks.into_device(), verdict)
        }
        Err((error, device)) => (device, Err(error)),
    }
}

// How the report on a verdict ends.
fn report_of(verdict: &Verdict) -> Report
    ensures { result ≡ verdict_report verdict.now }
{
    match verdict {
        Verdict::Sound { .. } => Report::Done,
        Verdict::Unsound { .. } => Report::Broken,
    }
}

// Says a verdict, if there is memory for its line.
fn say_verdict<O: Sink>(alloc: Global, verdict: &Verdict, output: &mut O) -> Report
    ensures says { Ends (verdict_report verdict.now) (verdict_line verdict.now) result
        (O.taken output.old) (O.taken output.new) (O.faults output.old) (O.faults output.new)
        ⊎ ((result ≡ Report.Memory) × (output.new ≡ output.old)) }
    ensures later { O.faults output.old ≤ O.faults output.new }
{
    match verdict_line(alloc, verdict) {
        Ok(line) => say(output, line.as_bytes(), report_of(verdict)),
        Err(_) => Report::Memory,
    }
}

/// Says what the linter finds of the file of a device, which is given back: one line. Nothing is written.
pub fn lint_file<D: Device, O: Sink>(alloc: Global, device: D, output: &mut O) -> (D, Report)
    ensures says { Says (Linted (D.state device) (D.state result.0)) (O.taken output.old)
        (O.taken output.new) (O.faults output.old) (O.faults output.new) result.1 }
    ensures later { O.faults output.old ≤ O.faults output.new }
    ensures effect { OnlyReads (D.state device) (D.state result.0) }
    ensures few { Told (D.state device).held (λ image.
        ReadsFew (8 * length image + 16) (D.state device) (D.state result.0)) }
{
    let (device, found) = verdict_on(alloc, device);
    match found {
        Ok(verdict) => (device, say_verdict(alloc, &verdict, output)),
        Err(error) => (device, say_refusal(alloc, error, output)),
    }
}
