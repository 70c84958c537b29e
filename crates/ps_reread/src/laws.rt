//! What is so of every printed text.

ghost use Rattle.std.specs.Prelude.{◌≡◌, ℕ, ◌≤◌, true, not, IsTrue, List, ◌∷◌, ◌++◌, length, Some, slice_get};
ghost use Rattle.std.specs.List.{list_all};
ghost use Rattle.ps_parse.specs.ps_scan.declared.token.Token.{Token};
ghost use Rattle.ps_parse.specs.ps_scan.Tokens.{HasTokens, IsSpelled, slice_of};
ghost use Rattle.ps_layout.specs.ps_tree.Phrase.{Phrase};
ghost use Rattle.ps_layout.specs.ps_symbols.Symbols.{symbol, symbols};
ghost use Rattle.ps_layout.specs.Lexemes.{Lexeme, printed};
ghost use Rattle.ps_reread.specs.Printable.{IsPrintable, tokens_of, token_behind, AreSpelledBy, is_mark, first_passes, last_passes, may_follow, neighbours_pass};
ghost use Rattle.ps_reread.specs.Lines.{goes_on, one_for_one};
ghost use Rattle.ps_reread.specs.Reprint.{PrintsBack};
ghost use Rattle.ps_layout.specs.Spellings.{int_text, string_text};
ghost use Rattle.ps_reread.specs.Spelled.{SpellsInt, SpellsString, can_be_spelled};

/// Lexemes that are spelled as they should be, none glued to one that it would change, print a text
/// that is scanned as their tokens, in their order and on their lines.
pub fn print_is_scanned()
    ensures tokens { (lexemes : List Lexeme) → IsPrintable lexemes → HasTokens (printed lexemes) (tokens_of 0 1 lexemes) }
    // The bytes of each token are its lexeme's spelling, for all at once and for one between others.
    ensures spelled { (lexemes : List Lexeme) → AreSpelledBy (printed lexemes) (tokens_of 0 1 lexemes) lexemes }
    ensures between { (front : List Lexeme) (lexeme : Lexeme) (back : List Lexeme) → (tokens : List Token) ×
        (tokens_of 0 1 (front ++ lexeme ∷ back) ≡ tokens_of 0 1 front ++ token_behind front lexeme ∷ tokens) }
    ensures slice { (front : List Lexeme) (lexeme : Lexeme) (back : List Lexeme) →
        slice_of (printed (front ++ lexeme ∷ back)) (token_behind front lexeme) ≡ lexeme.spelling }
{}

/// Where one of two lexemes is a mark and the other is none, they may be glued.
pub fn marks_are_glued()
    ensures { (first second : Lexeme) → IsSpelled first.what first.spelling → IsSpelled second.what second.spelling →
        is_mark first.what ≡ not (is_mark second.what) → IsTrue (may_follow first second) }
{}

/// Two printable lists are one where the first of the second may follow the last of the first.
pub fn parts_are_printed()
    ensures { (front back : List Lexeme) → IsPrintable front → IsPrintable back →
        IsTrue (last_passes (λ lexeme. first_passes (may_follow lexeme) back) front) → IsPrintable (front ++ back) }
{}

/// Where no newline stands at which a clause could end, the tokens are read one for one, with no `;`
/// between them.
pub fn print_is_read()
    ensures one_for_one { (lexemes : List Lexeme) → IsTrue (neighbours_pass goes_on lexemes) →
        symbols (tokens_of 0 1 lexemes) ≡ one_for_one 0 (tokens_of 0 1 lexemes) }
    // So the symbol of each lexeme stands at its number, and there are no others.
    ensures symbol { (front : List Lexeme) (lexeme : Lexeme) (back : List Lexeme) → IsTrue (neighbours_pass goes_on (front ++ lexeme ∷ back)) →
        slice_get (symbols (tokens_of 0 1 (front ++ lexeme ∷ back))) (length front) ≡ Some (symbol (length front) (token_behind front lexeme)) }
    ensures count { (lexemes : List Lexeme) → IsTrue (neighbours_pass goes_on lexemes) →
        length (symbols (tokens_of 0 1 lexemes)) ≡ length lexemes }
{}

/// The decimal digits of each int spell it.
pub fn digits_spell_int()
    ensures { (value : ℕ) → value ≤ 2147483647 → SpellsInt value (int_text value) }
{}

/// Each string of at most 65,535 newlines, tabs and bytes from 32 to 126 is spelled with escapes.
pub fn escapes_spell_string()
    ensures { (bytes : List ℕ) → list_all can_be_spelled bytes ≡ true → length bytes ≤ 65535 → SpellsString bytes (string_text bytes) }
{}

/// Whatever text has a tree, what the tree is printed as is read as that tree but for lines, and in
/// it no clause and no type stands deeper inside others.
pub fn prints_are_read_back()
    ensures { (tree : Phrase) → PrintsBack tree }
{}
