//! The code of each program that runs does what the program means.

ghost use Rattle.std.specs.Prelude.{◌≡◌, Bool, true, ℕ, List, [], None};
ghost use Rattle.std.specs.List.{AllByRecursion};
ghost use Rattle.ps_gen.specs.ps_base.TyView.{TyView};
ghost use Rattle.ps_gen.specs.ps_base.declared.instr.Instr.{Instr};
ghost use Rattle.ps_gen.specs.ps_base.declared.line.Line.{Line};
ghost use Rattle.ps_gen.specs.ps_program.Node.{Node, BodyNode};
ghost use Rattle.ps_typing_laws.specs.ps_typing.Program.{bodies, first_complex};
ghost use Rattle.ps_typing_laws.specs.ps_typing.WellTyped.{IsWellTyped};
ghost use Rattle.ps_stepping.specs.ps_meaning.Runs.{Given, fresh_store, events_with};
ghost use Rattle.ps_stepping.specs.ps_heap.Values.{Routine};
ghost use Rattle.ps_stepping.specs.ps_heap.Weights.{code_weight};
ghost use Rattle.ps_soundness.specs.Running.{BodyRuns};
ghost use Rattle.ps_soundness.specs.Shapes.{type_of_body};
ghost use Rattle.ps_soundness.specs.Valued.{IsValued};
ghost use Rattle.ps_gen.specs.Units.{HasUnit, unit_of};
ghost use Rattle.ps_stepping.specs.Config.{start};
ghost use Rattle.ps_stepping.specs.Machine.{RunsBy};
ghost use Rattle.heap_fit.specs.Bodies.{Level, IsFitBody};
ghost use Rattle.heap_fit.specs.Heaps.{IsFitHeap};
ghost use Rattle.fit_soundness.specs.Laws.{program, without_unreached};
ghost use Rattle.database_meaning.specs.SameRuns.{AreSameEvents};
ghost use Rattle.ps_code_laws.specs.Literals.{AreLevelsValued, BodyIs, HaveUnits, Fits, FitsBy, instrs_of};
ghost use Rattle.ps_code_laws.specs.Compiled.{compiled_store, compiled_events, WeighsUnits};
ghost use Rattle.ps_code_laws.specs.Meets.{IsFittingHeap, Meets};

use heap_fit::typed_bodies_are_fit;
use ps_type_text::{class_texts_tell_classes_apart, type_texts_tell_types_apart};

/// The unit of a program that is fit steps to what the program means: all its events in their order, each where as many bytes are counted, and its end.
/// It does so whatever the input, the replies and the heap that was kept are, if what this holds is typed and its procedures fit, and whatever code weighs, if a
/// body weighs what its unit does; where each body in it has a unit and its names are of types that have values. Where all instructions of its bodies and of
/// those in the heap may run, by any rule, it runs by such instructions alone.
pub fn program_runs_as_meant()
    ensures { (may : Instr → Bool) (gives : TyView) (tree : Node) (line : Line) (weigh : Routine → ℕ) (given : Given) → WeighsUnits weigh →
        IsFittingHeap may given.heap → IsFitBody [] (program gives tree line) → BodyIs (FitsBy may) IsValued (program gives tree line) →
        RunsBy may (compiled_events (events_with weigh given (program gives tree line)))
        (start (unit_of (program gives tree line)) (compiled_store (fresh_store weigh given (code_weight (program gives tree line))))) [] }
{
    type_texts_tell_types_apart();
    class_texts_tell_classes_apart();
}

/// The unit of a body that is fit for some scopes does what the body means when it is called, inside any bodies that wait, from each fit heap, in any such
/// scopes and with any values of its parameters' types.
pub fn body_runs_as_meant()
    ensures { (levels : List Level) (of : BodyNode) (n : ℕ) → IsFitBody levels of → AreLevelsValued levels → AllByRecursion Fits (bodies of) → Meets n levels of }
{
    type_texts_tell_types_apart();
    class_texts_tell_classes_apart();
}

/// A program that is well typed and runs is such a one: it is fit, and its names are of types that have values, where each of its bodies takes and gives values,
/// none is too complex, each has a unit, and its instructions may run.
pub fn typed_programs_fit()
    ensures { (may : Instr → Bool) (program : BodyNode) → IsWellTyped program → BodyRuns [] program →
        AllByRecursion (λ of. IsValued (type_of_body of)) (bodies program) → first_complex (bodies program) ≡ None → AllByRecursion HasUnit (bodies program) →
        AllByRecursion (λ b. AllByRecursion (λ i. may i ≡ true) (instrs_of b)) (bodies program) →
        IsFitBody [] program × BodyIs (FitsBy may) IsValued program }
{
    typed_bodies_are_fit();
}

/// So the unit of a program that is well typed and runs steps to what the program means, over each such heap.
pub fn typed_programs_run_as_meant()
    ensures { (may : Instr → Bool) (program : BodyNode) (weigh : Routine → ℕ) (given : Given) → WeighsUnits weigh → IsFittingHeap may given.heap →
        IsWellTyped program → BodyRuns [] program → AllByRecursion (λ of. IsValued (type_of_body of)) (bodies program) →
        first_complex (bodies program) ≡ None → AllByRecursion HasUnit (bodies program) →
        AllByRecursion (λ of. AllByRecursion (λ i. may i ≡ true) (instrs_of of)) (bodies program) →
        RunsBy may (compiled_events (events_with weigh given program))
        (start (unit_of program) (compiled_store (fresh_store weigh given (code_weight program)))) [] }
{
    type_texts_tell_types_apart();
    class_texts_tell_classes_apart();
    typed_bodies_are_fit();
}

/// Over a fit heap that was kept, without what no root reaches, the unit of a fit program steps to what the program means, where each procedure in the heap and each
/// body of the program has a unit; and this is what it means over the heap itself, but for ids.
pub fn programs_run_as_meant_over_kept_heaps()
    ensures { (gives : TyView) (tree : Node) (line : Line) (weigh : Routine → ℕ) (given : Given) → WeighsUnits weigh → IsFitHeap given.heap →
        HaveUnits given.heap.objects → IsFitBody [] (program gives tree line) → BodyIs HasUnit (λ ty. Unit {0}) (program gives tree line) →
        RunsBy (λ i. true) (compiled_events (events_with weigh (without_unreached given) (program gives tree line)))
        (start (unit_of (program gives tree line))
        (compiled_store (fresh_store weigh (without_unreached given) (code_weight (program gives tree line))))) []
        × AreSameEvents (events_with weigh given (program gives tree line)) (events_with weigh (without_unreached given) (program gives tree line)) }
{
    type_texts_tell_types_apart();
    class_texts_tell_classes_apart();
}
