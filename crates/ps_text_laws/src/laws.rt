//! What is so of every text.

ghost use Rattle.std.specs.Prelude.{◌≡◌, ℕ, List};
ghost use Rattle.ps_parse.specs.ps_scan.declared.token.Token.{Token};
ghost use Rattle.ps_parse.specs.ps_tree.Phrase.{Phrase};
ghost use Rattle.ps_parse.specs.Program.{ReadsAs};
ghost use Rattle.ps_typing_laws.specs.ps_program.Node.{BodyNode};
ghost use Rattle.ps_typing_laws.specs.ps_typing.Items.{LetsAreItems};
ghost use Rattle.ps_typing_laws.specs.ps_typing.Program.{Typed, check_program};
ghost use Rattle.ps_typing_laws.specs.ps_typing.WellTyped.{IsWellTyped};

/// In the tree of a text each `let` is an item of a sequence.
pub fn lets_of_a_text_are_items()
    ensures { (text : List ℕ) (tokens : List Token) (tree : Phrase) → ReadsAs text tokens tree → LetsAreItems tree }
{}

/// The program that a text is by the rules is well typed.
pub fn program_of_a_text_is_well_typed()
    ensures { (text : List ℕ) (tokens : List Token) (tree : Phrase) (program : BodyNode) → ReadsAs text tokens tree → check_program tree ≡ Typed program → IsWellTyped program }
{}
