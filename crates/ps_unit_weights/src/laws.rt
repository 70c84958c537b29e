ghost use Rattle.std.specs.Prelude.{◌≡◌, ◌+◌, ◌*◌, ◌≤◌};
ghost use Rattle.ps_gen.specs.ps_program.Node.{BodyNode};
ghost use Rattle.proc_values.specs.ps_heap.Weights.{code_weight, unit_weight, routine_weight};
ghost use Rattle.proc_values.specs.ps_heap.Values.{Routine};
ghost use Rattle.proc_values.specs.ps_base.CodeUnit.{UnitView};
ghost use Rattle.ps_gen.specs.Units.{unit_of};
ghost use Rattle.proc_values.specs.Units.{unit_words, HasConstants};
ghost use Rattle.ps_unit_weights.specs.Weights.{weight_as_unit};

/// The words of the objects that the unit of a body takes, and word 0 of the area, have at most as many bytes as are counted for its code.
pub fn units_weigh_as_counted()
    ensures { (of : BodyNode) → 8 + 8 * unit_words (unit_of of) ≤ code_weight of }
{}

/// The words of the objects of a unit have as many bytes as the unit weighs. So the code of a procedure weighs no more as a unit than as it is written.
pub fn units_weigh_their_words()
    ensures words { (u : UnitView) → unit_weight u ≡ 8 * unit_words u }
    ensures lighter { (does : Routine) → weight_as_unit does ≤ routine_weight does }
{}

/// The unit of a body has a constant, as each unit among its constants does: the text of the type comes first.
pub fn generated_units_have_constants()
    ensures { (of : BodyNode) → HasConstants (unit_of of) }
{}
