ghost use Rattle.std.specs.Prelude.{◌≡◌, ◌≤◌, ℕ, List, length};
ghost use Rattle.std.specs.List.{AllByRecursion};
ghost use Rattle.ps_unit_laws.specs.ps_base.Limits.{most_text_bytes};
ghost use Rattle.ps_unit_laws.specs.ps_base.CodeUnit.{UnitView};
ghost use Rattle.ps_unit_laws.specs.ps_program.Node.{BodyNode};
ghost use Rattle.ps_unit_laws.specs.ps_typing.Program.{bodies};
ghost use Rattle.ps_unit_laws.specs.ps_gen.Units.{unit_of};
ghost use Rattle.ps_unit_laws.specs.OneUnit.{IsUnitOf, IsWithinLimits};
ghost use Rattle.ps_text_units.specs.Texts.{IsTypedAs};

/// Each text of at most 1,048,576 bytes that has types by the typing rules has exactly one unit: its program and each literal in it are within the
/// limits of one, so each instruction can be spelled.
pub fn typed_text_has_one_unit()
    ensures within { (text : List ℕ) (program : BodyNode) → length text ≤ most_text_bytes → IsTypedAs text program → AllByRecursion IsWithinLimits (bodies program) }
    ensures has { (text : List ℕ) (program : BodyNode) → length text ≤ most_text_bytes → IsTypedAs text program → IsUnitOf program (unit_of program) }
    ensures one { (text : List ℕ) (program : BodyNode) (made : UnitView) → length text ≤ most_text_bytes → IsTypedAs text program → IsUnitOf program made → made ≡ unit_of program }
{}
