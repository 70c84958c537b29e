//! Laws of the answers. `host` is the host that was handed in, and `back` the one that comes back.
ghost use Rattle.std.specs.Prelude.{◌≡◌, ◌≤◌, ◌<◌, List, ℕ, Some, None, [], length};
ghost use Rattle.ps_meaning.specs.ps_typing.ps_program.Node.{BodyNode};
ghost use Rattle.ps_meaning.specs.ps_base.Limits.{most_text_bytes as LONGEST_TEXT};
ghost use Rattle.ps_meaning.specs.ps_base.declared.line.Line.{Line};
ghost use Rattle.ps_port.specs.ps_outside.Outside.{Rose};
ghost use Rattle.ps_volumes.specs.paged_volume.Found.{found_in, no_volume, damaged, damage};
ghost use Rattle.ps_volumes.specs.volume_parts.Making.{IsNone};
ghost use Rattle.ps_args.specs.Words.{RunOf, a_run, a_text, a_volume};
ghost use Rattle.ps_volumes.specs.ps_reports.Answering.{Answers};
ghost use Rattle.ps_volumes.specs.ps_reports.Reports.{usage_line, unreadable_line, too_long_line, fault_line, not_a_volume_line, damaged_line, already_line};
ghost use Rattle.ps_volumes.specs.Attaching.{HasVolume};
ghost use Rattle.ps_volumes.specs.Making.{IsOpen};
ghost use Rattle.ps_causes.specs.Command.{Answered, Gets, GetsOrFails, GetsOrLacks, GetsRun, HoldsInput, IsRead, Why};
ghost use Rattle.ps_causes.specs.Source.{IsProgram, IsSourceFault};

use ps_port::{Host, Shelf};

/// Words that are no command get the usage line and 1; or there was no memory.
pub fn no_command_gets_usage<H: Host, S: Shelf>(host: &H, back: &H, shelf: &S)
    ensures { (before after answered : ℕ) → Why (H.outside host.now) (H.outside back.now) None (S.holds shelf.now) (S.lacks shelf.now) (S.may_fail shelf.now) (Rose before after) answered → Answered (H.outside host.now) (H.outside back.now) (GetsOrLacks usage_line 1) answered }
{}

/// Words that ask for a text that tells of the program get that text and 0; or there was no memory.
pub fn text_is_told<H: Host, S: Shelf>(host: &H, back: &H, shelf: &S)
    ensures { (before after answered : ℕ) (text : List ℕ) → Why (H.outside host.now) (H.outside back.now) (Some (a_text text)) (S.holds shelf.now) (S.lacks shelf.now) (S.may_fail shelf.now) (Rose before after) answered → Answered (H.outside host.now) (H.outside back.now) (GetsOrLacks text 0) answered }
{}

/// A name that the shelf lacks gets 7, or the refusal for want of memory.
pub fn lacked_name_is_unreadable<H: Host, S: Shelf>(host: &H, back: &H, shelf: &S)
    ensures { (before after answered : ℕ) (run : RunOf) → S.lacks shelf.now run.file → Why (H.outside host.now) (H.outside back.now) (Some (a_run run)) (S.holds shelf.now) (S.lacks shelf.now) (S.may_fail shelf.now) (Rose before after) answered → Answered (H.outside host.now) (H.outside back.now) (Gets (λ name. name ≡ run.file) (S.may_fail shelf.now) (Rose before after) ⊥ (unreadable_line run.file) 7) answered }
{}

/// A text that the shelf holds and that is too long gets 13; or there was no memory, or the shelf failed.
pub fn long_text_is_refused<H: Host, S: Shelf>(host: &H, back: &H, shelf: &S)
    ensures { (before after answered : ℕ) (text : List ℕ) (run : RunOf) → S.holds shelf.now run.file text → LONGEST_TEXT < length text → Why (H.outside host.now) (H.outside back.now) (Some (a_run run)) (S.holds shelf.now) (S.lacks shelf.now) (S.may_fail shelf.now) (Rose before after) answered → Answered (H.outside host.now) (H.outside back.now) (Gets (λ name. name ≡ run.file) (S.may_fail shelf.now) (Rose before after) ⊥ (too_long_line run.file (length text)) 13) answered }
{}

/// A text that the shelf holds and that has a first fault gets 2, with the stage, the number and the line
/// of that fault; or there was no memory, or the shelf failed. It is never run.
pub fn first_fault_is_told<H: Host, S: Shelf>(host: &H, back: &H, shelf: &S)
    ensures { (before after answered : ℕ) (text stage : List ℕ) (run : RunOf) (number : ℕ) (line : Line) → S.holds shelf.now run.file text → length text ≤ LONGEST_TEXT → IsSourceFault text stage number line → Why (H.outside host.now) (H.outside back.now) (Some (a_run run)) (S.holds shelf.now) (S.lacks shelf.now) (S.may_fail shelf.now) (Rose before after) answered → Answered (H.outside host.now) (H.outside back.now) (Gets (λ name. name ≡ run.file) (S.may_fail shelf.now) (Rose before after) ⊥ (fault_line run.file stage number line) 2) answered }
{}

/// A text that the shelf holds and that is a program is run, where the shelf holds its input too, or it has none, and the host tells of a volume; or there was no
/// memory, or the shelf failed, or the device. It is never refused.
pub fn program_is_run<H: Host, S: Shelf>(host: &H, back: &H, shelf: &S)
    ensures { (before after answered : ℕ) (text input : List ℕ) (run : RunOf) (program : BodyNode) → S.holds shelf.now run.file text → length text ≤ LONGEST_TEXT → IsProgram text program → HoldsInput (S.holds shelf.now) run.input input → (content : List ℕ) → (H.outside host.now).contents content → HasVolume content → Why (H.outside host.now) (H.outside back.now) (Some (a_run run)) (S.holds shelf.now) (S.lacks shelf.now) (S.may_fail shelf.now) (Rose before after) answered → GetsRun run input program (S.may_fail shelf.now) (Rose before after) (H.outside host.now) (H.outside back.now) answered }
{}

/// A program whose input is a name that the shelf lacks gets 7, with that name; or there was no memory, or the shelf failed.
pub fn lacked_input_is_unreadable<H: Host, S: Shelf>(host: &H, back: &H, shelf: &S)
    ensures { (before after answered : ℕ) (text name : List ℕ) (run : RunOf) (program : BodyNode) → S.holds shelf.now run.file text → length text ≤ LONGEST_TEXT → IsProgram text program → run.input ≡ Some name → S.lacks shelf.now name → Why (H.outside host.now) (H.outside back.now) (Some (a_run run)) (S.holds shelf.now) (S.lacks shelf.now) (S.may_fail shelf.now) (Rose before after) answered → Answered (H.outside host.now) (H.outside back.now) (Gets (IsRead run) (S.may_fail shelf.now) (Rose before after) ⊥ (unreadable_line name) 7) answered }
{}

/// A program whose input is a text that the shelf holds and that is too long gets 13, with the name and the size of that text; or there was no
/// memory, or the shelf failed.
pub fn long_input_is_refused<H: Host, S: Shelf>(host: &H, back: &H, shelf: &S)
    ensures { (before after answered : ℕ) (text name input : List ℕ) (run : RunOf) (program : BodyNode) → S.holds shelf.now run.file text → length text ≤ LONGEST_TEXT → IsProgram text program → run.input ≡ Some name → S.holds shelf.now name input → LONGEST_TEXT < length input → Why (H.outside host.now) (H.outside back.now) (Some (a_run run)) (S.holds shelf.now) (S.lacks shelf.now) (S.may_fail shelf.now) (Rose before after) answered → Answered (H.outside host.now) (H.outside back.now) (Gets (IsRead run) (S.may_fail shelf.now) (Rose before after) ⊥ (too_long_line name (length input)) 13) answered }
{}

/// Such a program over a host that tells of a file that is no volume gets 9, with the size of the file and its byte 0; or there was no memory, or
/// the shelf failed, or the device.
pub fn no_volume_is_refused<H: Host, S: Shelf>(host: &H, back: &H, shelf: &S)
    ensures { (before after answered : ℕ) (text input : List ℕ) (run : RunOf) (program : BodyNode) → S.holds shelf.now run.file text → length text ≤ LONGEST_TEXT → IsProgram text program → HoldsInput (S.holds shelf.now) run.input input → (content : List ℕ) (size gate : ℕ) → (H.outside host.now).contents content → found_in content ≡ no_volume size gate → Why (H.outside host.now) (H.outside back.now) (Some (a_run run)) (S.holds shelf.now) (S.lacks shelf.now) (S.may_fail shelf.now) (Rose before after) answered → Answered (H.outside host.now) (H.outside back.now) (Gets (IsRead run) (S.may_fail shelf.now) (Rose before after) (Rose (H.outside host.now).device_faults (H.outside back.now).device_faults) (not_a_volume_line size gate) 9) answered }
{}

/// And over one that tells of a damaged volume it gets 10, with the first test that fails: the place of the number, the number, and its bound.
pub fn damaged_volume_is_refused<H: Host, S: Shelf>(host: &H, back: &H, shelf: &S)
    ensures { (before after answered : ℕ) (text input : List ℕ) (run : RunOf) (program : BodyNode) → S.holds shelf.now run.file text → length text ≤ LONGEST_TEXT → IsProgram text program → HoldsInput (S.holds shelf.now) run.input input → (content : List ℕ) (at found wanted : ℕ) → (H.outside host.now).contents content → found_in content ≡ damaged (damage at found wanted) → Why (H.outside host.now) (H.outside back.now) (Some (a_run run)) (S.holds shelf.now) (S.lacks shelf.now) (S.may_fail shelf.now) (Rose before after) answered → Answered (H.outside host.now) (H.outside back.now) (Gets (IsRead run) (S.may_fail shelf.now) (Rose before after) (Rose (H.outside host.now).device_faults (H.outside back.now).device_faults) (damaged_line at found wanted) 10) answered }
{}

/// A new volume over a host that tells of a file that is no volume is made: 0, and nothing is output; or there was no memory, or the device failed.
pub fn volume_is_made<H: Host, S: Shelf>(host: &H, back: &H, shelf: &S)
    ensures { (before after answered pages : ℕ) (content : List ℕ) → (H.outside host.now).contents content → IsNone content → Why (H.outside host.now) (H.outside back.now) (Some (a_volume pages)) (S.holds shelf.now) (S.lacks shelf.now) (S.may_fail shelf.now) (Rose before after) answered → Answered (H.outside host.now) (H.outside back.now) (GetsOrFails (Rose (H.outside host.now).device_faults (H.outside back.now).device_faults) [] 0) answered }
{}

/// Over a host that tells of a file with an open gate it gets 14; or there was no memory, or the device failed.
pub fn volume_there_is_kept<H: Host, S: Shelf>(host: &H, back: &H, shelf: &S)
    ensures { (before after answered pages : ℕ) (content : List ℕ) → (H.outside host.now).contents content → IsOpen content → Why (H.outside host.now) (H.outside back.now) (Some (a_volume pages)) (S.holds shelf.now) (S.lacks shelf.now) (S.may_fail shelf.now) (Rose before after) answered → Answered (H.outside host.now) (H.outside back.now) (GetsOrFails (Rose (H.outside host.now).device_faults (H.outside back.now).device_faults) already_line 14) answered }
{}

/// A text has at most one first fault, of one stage, one number and one line.
pub fn first_fault_is_unique()
    ensures { (text stage other : List ℕ) (number count : ℕ) (line place : Line) → IsSourceFault text stage number line → IsSourceFault text other count place → (stage ≡ other) × (number ≡ count) × (line ≡ place) }
{}

/// A text with a first fault is no program.
pub fn program_excludes_fault()
    ensures { (text stage : List ℕ) (program : BodyNode) (number : ℕ) (line : Line) → IsProgram text program → IsSourceFault text stage number line → ⊥ }
{}

/// The output's count of faults doesn't fall in a call; and where it rose, 8 stands in place of the status.
pub fn output_fault_gets_8<H: Host>(before: &H, after: &H)
    ensures never_falls { (due : List ℕ) (status answered : ℕ) → Answers (H.outside before.now) (H.outside after.now) due status answered → (H.outside before.now).output_faults ≤ (H.outside after.now).output_faults }
    ensures stands { (due : List ℕ) (status answered : ℕ) → Answers (H.outside before.now) (H.outside after.now) due status answered → (H.outside before.now).output_faults < (H.outside after.now).output_faults → answered ≡ 8 }
{}
