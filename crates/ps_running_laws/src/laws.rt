//! What is so of every program of which all runs.

ghost use Rattle.std.specs.Prelude.{◌≡◌, []};
ghost use Rattle.ps_typing_laws.specs.ps_tree.Phrase.{Phrase};
ghost use Rattle.ps_program.specs.Node.{BodyNode};
ghost use Rattle.ps_typing_laws.specs.ps_typing.Items.{LetsAreItems};
ghost use Rattle.ps_typing_laws.specs.ps_typing.Program.{Typed, check_program};
ghost use Rattle.ps_fit_laws.specs.ps_soundness.Running.{BodyRuns};
ghost use Rattle.ps_fit_laws.specs.ps_leaf_laws.Leaves.{LeavesFit};

/// A text whose leaves fit and whose `let`s are items of sequences, as in every tree of the grammar, is a program of which all runs, with procedures,
/// scopes, input, tables, databases and scans, if it fits the typing rules. Each place that is kept names a name of its type in the scopes round it,
/// and each scope has names of a text.
pub fn typed_program_runs()
    ensures { (tree : Phrase) (program : BodyNode) → LetsAreItems tree → check_program tree ≡ Typed program → LeavesFit tree
        → BodyRuns [] program }
{}
