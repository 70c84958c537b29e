//! What is so of every text, whatever the parser does.

ghost use Rattle.std.specs.Prelude.{◌≡◌, ℕ, List};
ghost use Rattle.ps_reader.specs.ps_scan.declared.token.Token.{Token};
ghost use Rattle.ps_tree.specs.ps_symbols.Symbols.{symbols};
ghost use Rattle.ps_tree.specs.declared.fault.ParseFault.{ParseFault};
ghost use Rattle.ps_tree.specs.Phrase.{Phrase};
ghost use Rattle.ps_parse.specs.Program.{IsProgram, ReadsAs, IsParseFault};

/// A text with these tokens has at most one tree, however deep its clauses and types may stand
/// inside one another.
pub fn tree_is_unique()
    ensures { (text : List ℕ) (tokens : List Token) (nesting larger : ℕ) (tree other : Phrase) → IsProgram text nesting (symbols tokens) tree → IsProgram text larger (symbols tokens) other → tree ≡ other }
{}

/// A text with these tokens has at most one first fault.
#[tactic(auto, using(crate::proofs::Faults::one_fault))]
pub fn fault_is_unique()
    ensures { (text : List ℕ) (tokens : List Token) (fault other : ParseFault) → IsParseFault text tokens fault → IsParseFault text tokens other → fault ≡ other }
{}

/// A text with a tree has no fault.
pub fn tree_excludes_fault()
    ensures { (text : List ℕ) (tokens : List Token) (tree : Phrase) (fault : ParseFault) → ReadsAs text tokens tree → IsParseFault text tokens fault → ⊥ }
{}
