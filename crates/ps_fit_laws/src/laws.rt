ghost use Rattle.std.specs.Prelude.{◌≡◌};
ghost use Rattle.ps_leaf_laws.specs.ps_tree.Phrase.{Phrase};
ghost use Rattle.ps_leaf_laws.specs.ps_program.Node.{BodyNode};
ghost use Rattle.std.specs.List.{AllByRecursion};
ghost use Rattle.ps_leaf_laws.specs.ps_typing.Program.{Typed, bodies, check_program};
ghost use Rattle.ps_leaf_laws.specs.ps_soundness.Shapes.{type_of_body};
ghost use Rattle.ps_leaf_laws.specs.ps_soundness.Valued.{IsValued};
ghost use Rattle.ps_leaf_laws.specs.Leaves.{LeavesFit};
ghost use Rattle.ps_fit_laws.specs.Fitting.{FitsBody};

/// In the typed program of a tree whose leaves fit, each literal is an int or a string, and each class that is named has names of a text, the field
/// that is meant at its position, and as many fields as it is made with. Its body and those of all literals in it take and give values.
pub fn typed_programs_fit()
    ensures { (tree : Phrase) (program : BodyNode) → LeavesFit tree → check_program tree ≡ Typed program → FitsBody program }
{}

/// The parameters of each body in the typed program of a tree whose leaves fit are of types that have values, and so is what it gives, if it gives
/// anything.
pub fn bodies_take_and_give_values()
    ensures { (tree : Phrase) (program : BodyNode) → LeavesFit tree → check_program tree ≡ Typed program
        → AllByRecursion (λ of. IsValued (type_of_body of)) (bodies program) }
{}
