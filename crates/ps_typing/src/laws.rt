//! What is so of every tree, whatever a checker does.

ghost use Rattle.std.specs.Prelude.{◌≡◌, ◌↔◌, true};
ghost use Rattle.ps_tree.specs.ps_base.TyView.{TyView};
ghost use Rattle.ps_tree.specs.Phrase.{Phrase};
ghost use Rattle.ps_program.specs.Node.{BodyNode};
ghost use Rattle.ps_typing.specs.Fault.{Fault};
ghost use Rattle.ps_typing.specs.Checking.{is_same};
ghost use Rattle.ps_typing.specs.Program.{Typed, Fails, check_program};

/// The test of the rules finds two types the same exactly where they are equal.
pub fn same_is_equal()
    ensures { (a b : TyView) → (is_same a b ≡ true) ↔ (a ≡ b) }
{}

/// A tree of the grammar is at most one program.
pub fn program_is_unique()
    ensures { (tree : Phrase) (program other : BodyNode) → check_program tree ≡ Typed program → check_program tree ≡ Typed other → program ≡ other }
{}

/// A tree that is a program has no fault.
pub fn program_excludes_fault()
    ensures { (tree : Phrase) (program : BodyNode) (fault : Fault) → check_program tree ≡ Typed program → check_program tree ≡ Fails fault → ⊥ }
{}
