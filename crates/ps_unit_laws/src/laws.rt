ghost use Rattle.std.specs.Prelude.{◌≡◌, List};
ghost use Rattle.std.specs.List.{AllByRecursion};
ghost use Rattle.ps_gen.specs.ps_base.CodeUnit.{UnitView};
ghost use Rattle.ps_gen.specs.ps_program.Node.{BodyNode};
ghost use Rattle.ps_gen.specs.ps_type_text.Texts.{Field};
ghost use Rattle.ps_typing_laws.specs.ps_typing.Program.{bodies};
ghost use Rattle.ps_typing_laws.specs.ps_typing.WellTyped.{IsBody};
ghost use Rattle.ps_gen.specs.Units.{unit_of};
ghost use Rattle.ps_unit_laws.specs.OneUnit.{IsUnitOf, IsWithinLimits};

/// A body has at most one unit. It has one where it has types by the typing rules, inside any scopes, and it and each literal in it are within
/// the limits: at most 512 slots, and fewer than 2^32 bytes of code.
pub fn typed_body_has_one_unit()
    ensures one { (of : BodyNode) (made other : UnitView) → IsUnitOf of made → IsUnitOf of other → made ≡ other }
    ensures has { (scopes : List (List Field)) (of : BodyNode) → IsBody scopes of → AllByRecursion IsWithinLimits (bodies of) → IsUnitOf of (unit_of of) }
{}
