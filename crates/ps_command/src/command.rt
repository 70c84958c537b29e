ghost use Rattle.std.specs.Prelude.{◌≡◌, ◌≤◌, Option, Some, IfOk};
ghost use Rattle.ps_port.specs.ps_outside.Outside.{Rose};
ghost use Rattle.ps_port.specs.Telling.{LeavesDevice};
ghost use Rattle.ps_causes.specs.Command.{Why, carried_out, done_of};
ghost use Rattle.ps_causes.specs.Steps.{WhyEnds};
ghost use Rattle.ps_causes.specs.ps_reports.Answering.{Answers, Tells};
ghost use Rattle.ps_causes.specs.ps_reports.Statuses.{number_of};
ghost use Rattle.ps_causes.specs.ps_args.Reading.{ReadsAs, command_in, run_in, IsArea, IsWithin};
ghost use Rattle.ps_causes.specs.ps_args.Words.{CommandOf, a_run};
ghost use Rattle.ps_command.specs.inside.Words.{report_of};

use crate::execute::execute;
use crate::prepare::prepare;
use ps_causes::ps_args::{ArgsFault, Command, RunWords};
use ps_causes::ps_reports::{Report, Status};
use ps_causes::ps_volumes::make_volume;
use ps_port::{Host, Shelf, tell};
use std::alloc::Global;

/// Does all that the program does with what was read of its words: runs the text that they name, over the input that they name and the volume of the
/// host, or makes a volume there, or tells of the program; and outputs what is due by the host. Answers the status of `docs/language.md`, beside the host.
/// All memory is taken before the first event. A run of more than one text is a usage fault, since only one is run yet.
pub fn psalgol<'a, H: Host, S: Shelf>(
    alloc: Global,
    read: Result<Command<'a>, ArgsFault>,
    host: H,
    shelf: &mut S,
) -> (u8, H)
    requires { IfOk read (λ command. IsWithin (command_in command)) }
    ensures why { (asked : Option CommandOf) → ReadsAs command_in asked read.entry → Why (H.outside host) (H.outside result.1) (carried_out asked) (S.holds shelf.old) (S.lacks shelf.old) (S.may_fail shelf.old) (Rose (S.faults shelf.old) (S.faults shelf.new)) result.0 }
    ensures shelf_counts { S.faults shelf.old ≤ S.faults shelf.new }
{
    match read {
        Ok(command) => {
            let (end, host) = perform(alloc, &command, host, shelf);
            told(end, host)
        }
        Err(fault) => told(Err(refusal(fault)), host),
    }
}

// The report of words that aren't read.
fn refusal<'a>(fault: ArgsFault) -> Report<'a>
    ensures { result ≡ report_of fault }
{
    match fault {
        ArgsFault::Usage => Report::Usage,
        ArgsFault::Memory => Report::NoMemory,
    }
}

// Carries out a command, but for the report of its end.
fn perform<'a, H: Host, S: Shelf>(
    alloc: Global,
    command: &Command<'a>,
    host: H,
    shelf: &mut S,
) -> (Result<Status, Report<'a>>, H)
    requires { IsWithin (command_in command.now) }
    ensures why { WhyEnds (H.outside host) (H.outside result.1) (done_of (command_in command.now)) (S.holds shelf.old) (S.lacks shelf.old) (S.may_fail shelf.old) (Rose (S.faults shelf.old) (S.faults shelf.new)) result.0 }
    ensures shelf_counts { S.faults shelf.old ≤ S.faults shelf.new }
{
    match command {
        Command::Run(run) => {
            if run.further.is_empty() {
                run_file(alloc, run, host, shelf)
            } else {
                (Err(Report::Usage), host)
            }
        }
        Command::Format { pages } => {
            let mut host = host;
            match make_volume(&mut host, *pages) {
                Ok(()) => (Ok(Status::Done), host),
                Err(report) => (Err(report), host),
            }
        }
        Command::Tell { text } => {
            let (status, host) = tell_text(text, host);
            (Ok(status), host)
        }
    }
}

// Tells a text, and gives the status of the end.
fn tell_text<H: Host>(text: &str, host: H) -> (Status, H)
    ensures answers { Answers (H.outside host) (H.outside result.1) text.now 0 (number_of result.0) }
    ensures device { LeavesDevice (H.outside host) (H.outside result.1) }
{
    let mut host = host;
    match tell::piece(&mut host, text.as_bytes()) {
        Ok(()) => (Status::Done, host),
        Err(_) => (Status::Output, host),
    }
}

// A run: of what its words name, where that can be run.
fn run_file<'a, H: Host, S: Shelf>(
    alloc: Global,
    run: &RunWords<'a>,
    host: H,
    shelf: &mut S,
) -> (Result<Status, Report<'a>>, H)
    requires { IsArea (run_in run.now) }
    ensures why { WhyEnds (H.outside host) (H.outside result.1) (Some (a_run (run_in run.now))) (S.holds shelf.old) (S.lacks shelf.old) (S.may_fail shelf.old) (Rose (S.faults shelf.old) (S.faults shelf.new)) result.0 }
    ensures shelf_counts { S.faults shelf.old ≤ S.faults shelf.new }
{
    match prepare(alloc, run, shelf) {
        Ok(prepared) => execute(alloc, run, prepared, host),
        Err(report) => (Err(report), host),
    }
}

// The number of the status in which a command ends, once its report is written where it has one.
fn told<H: Host>(end: Result<Status, Report>, host: H) -> (u8, H)
    ensures { Tells H.outside host result.1 end.entry result.0 }
{
    match end {
        Ok(status) => (status.number(), host),
        Err(report) => {
            let mut host = host;
            let answered = report.write(&mut host);
            (answered, host)
        }
    }
}
