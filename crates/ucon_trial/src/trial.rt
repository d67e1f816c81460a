//! A run of a document's lines from the empty history, without a journal.

ghost use Rattle.std.specs.Prelude.{IfOk};
ghost use Rattle.ucon_model.specs.Checked.{checked_policy};
ghost use Rattle.ucon_model.specs.Document.{entries_of};
ghost use Rattle.ucon_script.specs.Document.{lines_spelled};
ghost use Rattle.ucon_trial.specs.Runs.{IsRunOutput, IsRunSummary};

use crate::answers::run_lines;
use crate::summary::Tally;
use crate::transcript::Transcript;
use std::alloc::Global;
use ucon_base::NoMemory;
use ucon_engine::Engine;
use ucon_model::{Checked, outputs_are_read_back, serial_runs_are_legal};
use ucon_script::Script;

/// One line for each answer.
pub fn trial_output<E: Engine>(
    alloc: Global,
    checked: Checked,
    script: &Script<'_>,
) -> Result<Vec<u8>, NoMemory>
    ensures { IfOk result (λ text. IsRunOutput (checked_policy checked) (entries_of (lines_spelled script.now)) text.items) }
{
    outputs_are_read_back();
    serial_runs_are_legal();
    let engine = E::begin(alloc, checked)?;
    let transcript = run_lines(alloc, engine, Transcript::new(alloc), script.lines.slice())?;
    Ok(transcript.text)
}

/// The counts of the answers.
pub fn trial_summary<E: Engine>(
    alloc: Global,
    checked: Checked,
    script: &Script<'_>,
) -> Result<Vec<u8>, NoMemory>
    ensures { IfOk result (λ text. IsRunSummary (checked_policy checked) (entries_of (lines_spelled script.now)) text.items) }
{
    serial_runs_are_legal();
    let engine = E::begin(alloc, checked)?;
    let tally = run_lines(alloc, engine, Tally::new(), script.lines.slice())?;
    let text = tally.text(alloc)?;
    Ok(text)
}
