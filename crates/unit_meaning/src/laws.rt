ghost use Rattle.std.specs.Prelude.{ℕ, List};
ghost use Rattle.std.specs.List.{AllByRecursion};
ghost use Rattle.ps_gen.specs.ps_program.Node.{BodyNode};
ghost use Rattle.ps_gen.specs.Units.{HasUnit};
ghost use Rattle.ps_typing_laws.specs.ps_typing.Program.{bodies};
ghost use Rattle.fit_soundness.specs.Laws.{IsChecked};
ghost use Rattle.unit_meaning.specs.Programs.{RunsAsMeant};

use fit_soundness::checked_commits_save_fit_heaps;
use heap_fit::typed_programs_are_fit;
use ps_code_laws::programs_run_as_meant_over_kept_heaps;
use ps_typing_laws::typed_program_is_well_typed;

/// The unit of a program that passes the check, each of whose bodies has a unit, does what the program means over each heap of reached objects for which a space
/// stands, and each of its commits keeps such a heap.
pub fn checked_units_run_as_meant()
    ensures { (turns : ℕ) (input : List ℕ) (program : BodyNode) → IsChecked program → AllByRecursion HasUnit (bodies program) → RunsAsMeant turns input program }
{
    typed_program_is_well_typed();
    typed_programs_are_fit();
    checked_commits_save_fit_heaps();
    programs_run_as_meant_over_kept_heaps();
}
