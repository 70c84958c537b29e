//! What is so of every program.

ghost use Rattle.std.specs.Prelude.{◌≡◌, List, map};
ghost use Rattle.ps_typing.specs.ps_tree.Phrase.{Phrase};
ghost use Rattle.ps_typing.specs.ps_program.Node.{BodyNode};
ghost use Rattle.ps_typing.specs.Items.{LetsAreItems};
ghost use Rattle.ps_typing.specs.ps_type_text.Texts.{Field};
ghost use Rattle.ps_typing.specs.Placed.{placed_program};
ghost use Rattle.ps_typing.specs.Program.{Typed, bodies, check_program, first_complex};
ghost use Rattle.ps_typing.specs.WellTyped.{IsWellTyped};
ghost use Rattle.ps_typing_laws.specs.Counted.{Each, IsCounted, measure};

/// A program that the rules give is well typed: each of its names stands at its own place.
pub fn typed_program_is_well_typed()
    ensures { (tree : Phrase) (program : BodyNode) → LetsAreItems tree → check_program tree ≡ Typed program → IsWellTyped program }
{}

/// In a program that is well typed each slot that a body names is one of its locals on that stack, and its slot count
/// has room for them.
pub fn slots_are_counted()
    ensures { (program : BodyNode) → IsWellTyped program → Each IsCounted (bodies program) }
{}

/// Each body of a program has the slot count that it had before its names were placed, and so has each literal in it: the
/// program has the same bodies, and the first that is too complex is the same.
pub fn placing_keeps_slot_counts()
    ensures counts { (names : List Field) (program : BodyNode) → map measure (bodies (placed_program names program)) ≡ map measure (bodies program) }
    ensures complex { (names : List Field) (program : BodyNode) → first_complex (bodies (placed_program names program)) ≡ first_complex (bodies program) }
{}
