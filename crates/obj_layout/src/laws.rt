//! What is so of every header and every space, whatever the calls do.

ghost use Rattle.std.specs.Prelude.{◌≡◌, ℕ, List};
ghost use Rattle.obj_layout.specs.declared.header.Header.{Header};
ghost use Rattle.obj_layout.specs.Header.{HasFitFields, header_words};
ghost use Rattle.obj_layout.specs.Objects.{Contents, HasContents, Placed, Cuts};

/// Two headers that are spelled as the same four words are the same.
pub fn header_has_one_spelling()
    ensures { (header other : Header) → HasFitFields header → HasFitFields other → header_words header ≡ header_words other → header ≡ other }
{}

/// A header fits at most one contents.
pub fn header_has_one_contents()
    ensures { (header : Header) (contents other : Contents) → HasContents header contents → HasContents header other → contents ≡ other }
{}

/// Words are cut into objects in at most one way, from whatever place on.
pub fn words_are_cut_once()
    ensures { (at : ℕ) (words : List ℕ) (objects others : List Placed) → Cuts at words objects → Cuts at words others → objects ≡ others }
{}
