ghost use Rattle.std.specs.Prelude.{ℕ, List};
ghost use Rattle.ps_parse.specs.ps_scan.declared.token.Token.{Token};
ghost use Rattle.ps_parse.specs.ps_scan.Tokens.{HasTokens};
ghost use Rattle.ps_parse.specs.ps_tree.Phrase.{Phrase};
ghost use Rattle.ps_parse.specs.Program.{ReadsAs};
ghost use Rattle.ps_leaf_laws.specs.Leaves.{LeavesFit};

/// In the tree of a text each int has 32 bits with its sign, each string has at most 65,535 bytes, and all names that
/// are declared, those of parameters and of fields too, are letters, digits and dots.
pub fn leaves_of_a_text_fit()
    ensures { (text : List ℕ) (tokens : List Token) (tree : Phrase) → HasTokens text tokens → ReadsAs text tokens tree → LeavesFit tree }
{}
