//! The marks `( ) [ ] { } , ; : :: := = ~ ~= < <= > >= + - ++ * -> @ ? |`. The constants name their
//! places, and `MARKS` is their table.

ghost use Rattle.std.specs.Prelude.{◌≡◌, ℕ, ◌<◌, List, Some, IfSome, IsTrue, slice_get};
ghost use Rattle.std.specs.List.{range_with_len};
ghost use Rattle.ps_cases.specs.Table.{codes, names, is_table};
ghost use Rattle.ps_scan.specs.Names.{marks, mark_place};

use crate::rows::{each_name, each_row};
use ps_cases::find::find_name;
use ps_cases::row::Row;

/// `(`
pub const OPEN_ROUND: u8 = 0;
/// `)`
pub const CLOSE_ROUND: u8 = 1;
/// `[`
pub const OPEN_SQUARE: u8 = 2;
/// `]`
pub const CLOSE_SQUARE: u8 = 3;
/// `{`
pub const OPEN_CURLY: u8 = 4;
/// `}`
pub const CLOSE_CURLY: u8 = 5;
/// `,`
pub const COMMA: u8 = 6;
/// `;`
pub const SEMICOLON: u8 = 7;
/// `:`
pub const COLON: u8 = 8;
/// `::`
pub const DOUBLE_COLON: u8 = 9;
/// `:=`
pub const BECOMES: u8 = 10;
/// `=`
pub const EQUALS: u8 = 11;
/// `~`
pub const TILDE: u8 = 12;
/// `~=`
pub const NOT_EQUALS: u8 = 13;
/// `<`
pub const LESS: u8 = 14;
/// `<=`
pub const LESS_OR_EQUAL: u8 = 15;
/// `>`
pub const GREATER: u8 = 16;
/// `>=`
pub const GREATER_OR_EQUAL: u8 = 17;
/// `+`
pub const PLUS: u8 = 18;
/// `-`
pub const MINUS: u8 = 19;
/// `++`
pub const CONCATENATE: u8 = 20;
/// `*`
pub const TIMES: u8 = 21;
/// `->`
pub const ARROW: u8 = 22;
/// `@`
pub const AT: u8 = 23;
/// `?`
pub const QUESTION: u8 = 24;
/// `|`
pub const BAR: u8 = 25;

// The marks in their order, each by its constant and its spelling. What writes the rows out is
// named first, and is handed the rest.
macro_rules! all_marks {
    ($write:ident $($given:ident)*) => {
        $write! { ($($given)*)
            OPEN_ROUND "("
            CLOSE_ROUND ")"
            OPEN_SQUARE "["
            CLOSE_SQUARE "]"
            OPEN_CURLY "{"
            CLOSE_CURLY "}"
            COMMA ","
            SEMICOLON ";"
            COLON ":"
            DOUBLE_COLON "::"
            BECOMES ":="
            EQUALS "="
            TILDE "~"
            NOT_EQUALS "~="
            LESS "<"
            LESS_OR_EQUAL "<="
            GREATER ">"
            GREATER_OR_EQUAL ">="
            PLUS "+"
            MINUS "-"
            CONCATENATE "++"
            TIMES "*"
            ARROW "->"
            AT "@"
            QUESTION "?"
            BAR "|"
        }
    };
}

/// The marks in their order. The code of a mark is its place, from 0 on.
pub const MARKS: [Row; 26] = all_marks!(each_row);

/// Their names, each at its place, as the definitions have them.
pub const SPELLINGS: [&str; 26] = all_marks!(each_name);

/// The table of the marks.
pub fn marks() -> &'static [Row; 26]
    ensures table { IsTrue (is_table result.now) }
    ensures names { names result.now ≡ marks }
    ensures places { codes result.now ≡ range_with_len 0 26 }
    ensures found { (name : List ℕ) (place : ℕ) → mark_place name ≡ Some place → slice_get (names result.now) place ≡ Some name }
    ensures only { (name : List ℕ) (place : ℕ) → slice_get (names result.now) place ≡ Some name → mark_place name ≡ Some place }
{
    &MARKS
}

/// The place of the mark that is spelled so.
pub fn mark_place(name: &[u8]) -> Option<u8>
    ensures { result ≡ mark_place name.now }
{
    mark_index(name).map(|place| place as u8)
}

fn mark_index(name: &[u8]) -> Option<usize>
    ensures place { result ≡ mark_place name.now }
    ensures small { IfSome result (λ place. place < 26) }
{
    find_name(marks(), name)
}
