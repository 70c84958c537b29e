//! What a run is of: its program, and its input.
ghost use Rattle.std.specs.Prelude.{◌≡◌, ◌≤◌, ◌↔◌, ℕ, List, IfOk, IfErr, length, option_map};
ghost use Rattle.ps_base.specs.Limits.{most_text_bytes};
ghost use Rattle.ps_port.specs.ps_outside.Outside.{Rose};
ghost use Rattle.ps_program.specs.Node.{BodyNode};
ghost use Rattle.ps_causes.specs.Command.{Gives, GivesInput, Unready};
ghost use Rattle.ps_causes.specs.Source.{IsProgram};
ghost use Rattle.ps_causes.specs.Steps.{RefusalWhy, UnreadWhy};
ghost use Rattle.ps_causes.specs.ps_reports.Reporting.{line_of, status_of};
ghost use Rattle.ps_causes.specs.ps_reports.Statuses.{number_of};
ghost use Rattle.ps_causes.specs.ps_args.Reading.{run_in};
ghost use Rattle.ps_command.specs.inside.Refusal.{Refuses};
ghost use Rattle.ps_command.specs.inside.Steps.{IsInputUnread, IsPrepared, IsRunnable};

use crate::compile::compile;
use crate::source_fault::SourceFault;
use ps_base::code_unit::CodeUnit;
use ps_causes::ps_args::RunWords;
use ps_causes::ps_reports::Report;
use ps_port::{Shelf, ShelfFault};
use std::alloc::Global;

/// What a run is of: the code of its program, and its input.
#[derive(Drop)]
pub(crate) struct Prepared {
    pub unit: CodeUnit,
    pub input: Vec<u8>,
}

/// Reads and compiles the text that a run names, and reads its input, where it names one. The device isn't called.
pub(crate) fn prepare<'a, S: Shelf>(
    alloc: Global,
    run: &RunWords<'a>,
    shelf: &mut S,
) -> Result<Prepared, Report<'a>>
    ensures prepared { IfOk result (λ prepared. IsPrepared (S.holds shelf.old) (S.lacks shelf.old) (run_in run.now) prepared.unit prepared.input.items) }
    ensures unready { IfErr result (λ report. Unready (run_in run.now) (S.holds shelf.old) (S.lacks shelf.old) (S.may_fail shelf.old) (Rose (S.faults shelf.old) (S.faults shelf.new)) (line_of report) (number_of (status_of report))) }
    ensures counts { S.faults shelf.old ≤ S.faults shelf.new }
{
    let text = read(alloc, run.file, shelf)?;
    let unit = compiled(alloc, run.file, &text)?;
    let input = read_input(alloc, run.input, shelf)?;
    Ok(Prepared { unit, input })
}

// The text of a name.
fn read<'a, S: Shelf>(alloc: Global, name: &'a str, shelf: &mut S) -> Result<Vec<u8>, Report<'a>>
    ensures given { IfOk result (λ text. Gives (S.holds shelf.old name.now) (S.lacks shelf.old name.now) text.items) }
    ensures unread { IfErr result (λ report. UnreadWhy (S.holds shelf.old name.now) (S.lacks shelf.old name.now) (S.may_fail shelf.old name.now) (Rose (S.faults shelf.old) (S.faults shelf.new)) name.now (line_of report) (number_of (status_of report))) }
    ensures counts { S.faults shelf.old ≤ S.faults shelf.new }
    ensures holds_on { (q t : List ℕ) → S.holds shelf.new q t ↔ S.holds shelf.old q t }
    ensures lacks_on { (q : List ℕ) → S.lacks shelf.new q ↔ S.lacks shelf.old q }
    ensures may_fail_on { (q : List ℕ) → S.may_fail shelf.new q ↔ S.may_fail shelf.old q }
{
    let mut text = Vec::new(alloc);
    match shelf.text(name, &mut text) {
        Ok(()) => Ok(text),
        Err(ShelfFault::Failed) => Err(Report::Unreadable { file: name }),
        Err(ShelfFault::TooLong { length }) => Err(Report::TooLong { file: name, length }),
        Err(ShelfFault::Memory) => Err(Report::NoMemory),
    }
}

// The input of a run, which is empty where it names none.
fn read_input<'a, S: Shelf>(
    alloc: Global,
    input: Option<&'a str>,
    shelf: &mut S,
) -> Result<Vec<u8>, Report<'a>>
    ensures given { IfOk result (λ bytes. GivesInput (S.holds shelf.old) (S.lacks shelf.old) (option_map (λ name. name.now) input.entry) bytes.items) }
    ensures unread { IfErr result (λ report. IsInputUnread (S.holds shelf.old) (S.lacks shelf.old) (S.may_fail shelf.old) (Rose (S.faults shelf.old) (S.faults shelf.new)) (option_map (λ name. name.now) input.entry) (line_of report) (number_of (status_of report))) }
    ensures counts { S.faults shelf.old ≤ S.faults shelf.new }
{
    match input {
        Some(name) => read(alloc, name, shelf),
        None => Ok(Vec::new(alloc)),
    }
}

// The code of the program that a text is.
fn compiled<'a>(alloc: Global, file: &'a str, text: &[u8]) -> Result<CodeUnit, Report<'a>>
    requires { length text.now ≤ most_text_bytes }
    ensures runnable { IfOk result (λ unit. (program : BodyNode) × IsRunnable unit program × IsProgram text.now program) }
    ensures refused { IfErr result (λ report. RefusalWhy file.now text.now (line_of report) (number_of (status_of report))) }
{
    match compile(alloc, text) {
        Ok(unit) => Ok(unit),
        Err(fault) => Err(refusal(file, &fault)),
    }
}

// The report of why a text is no program.
fn refusal<'a>(file: &'a str, fault: &SourceFault) -> Report<'a>
    ensures { (text : List ℕ) → Refuses text fault.now → RefusalWhy file.now text (line_of result) (number_of (status_of result)) }
{
    match (fault.number(), fault.line()) {
        (Some(number), Some(line)) => Report::Refused {
            file,
            stage: fault.stage(),
            number,
            line,
        },
        _ => Report::NoMemory,
    }
}
