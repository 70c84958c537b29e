//! The reserved words. The constants name their places, and `WORDS` is their table.

ghost use Rattle.std.specs.Prelude.{◌≡◌, ℕ, ◌<◌, List, Some, IfSome, IsTrue, slice_get};
ghost use Rattle.std.specs.List.{range_with_len};
ghost use Rattle.ps_cases.specs.Table.{codes, names, is_table};
ghost use Rattle.ps_scan.specs.Names.{reserved_words, word_place};

use crate::rows::{each_name, each_row};
use ps_cases::find::find_name;
use ps_cases::row::Row;

pub const ABORT: u8 = 0;

pub const AND: u8 = 1;

pub const BEGIN: u8 = 2;

pub const BOOL: u8 = 3;

pub const BY: u8 = 4;

pub const CASE: u8 = 5;

pub const DEFAULT: u8 = 6;

pub const DIV: u8 = 7;

pub const DO: u8 = 8;

pub const ELSE: u8 = 9;

pub const END: u8 = 10;

pub const FALSE: u8 = 11;

pub const FOR: u8 = 12;

pub const IF: u8 = 13;

pub const INT: u8 = 14;

pub const IS: u8 = 15;

pub const ISNT: u8 = 16;

pub const LET: u8 = 17;

pub const LWB: u8 = 18;

pub const NIL: u8 = 19;

pub const OF: u8 = 20;

pub const OR: u8 = 21;

pub const PNTR: u8 = 22;

pub const PROC: u8 = 23;

pub const PROCEDURE: u8 = 24;

pub const REM: u8 = 25;

pub const REPEAT: u8 = 26;

pub const STRING: u8 = 27;

pub const STRUCTURE: u8 = 28;

pub const THEN: u8 = 29;

pub const TO: u8 = 30;

pub const TRUE: u8 = 31;

pub const UPB: u8 = 32;

pub const VECTOR: u8 = 33;

pub const WHILE: u8 = 34;

pub const WRITE: u8 = 35;

// The reserved words in their order, each by its constant and its spelling. What writes the rows
// out is named first, and is handed the rest.
macro_rules! reserved_words {
    ($write:ident $($given:ident)*) => {
        $write! { ($($given)*)
            ABORT "abort"
            AND "and"
            BEGIN "begin"
            BOOL "bool"
            BY "by"
            CASE "case"
            DEFAULT "default"
            DIV "div"
            DO "do"
            ELSE "else"
            END "end"
            FALSE "false"
            FOR "for"
            IF "if"
            INT "int"
            IS "is"
            ISNT "isnt"
            LET "let"
            LWB "lwb"
            NIL "nil"
            OF "of"
            OR "or"
            PNTR "pntr"
            PROC "proc"
            PROCEDURE "procedure"
            REM "rem"
            REPEAT "repeat"
            STRING "string"
            STRUCTURE "structure"
            THEN "then"
            TO "to"
            TRUE "true"
            UPB "upb"
            VECTOR "vector"
            WHILE "while"
            WRITE "write"
        }
    };
}

/// The reserved words in their order. The code of a word is its place, from 0 on.
pub const WORDS: [Row; 36] = reserved_words!(each_row);

/// Their names, each at its place, as the definitions have them.
pub const SPELLINGS: [&str; 36] = reserved_words!(each_name);

/// The table of the reserved words.
pub fn words() -> &'static [Row; 36]
    ensures table { IsTrue (is_table result.now) }
    ensures names { names result.now ≡ reserved_words }
    ensures places { codes result.now ≡ range_with_len 0 36 }
    ensures found { (name : List ℕ) (place : ℕ) → word_place name ≡ Some place → slice_get (names result.now) place ≡ Some name }
    ensures only { (name : List ℕ) (place : ℕ) → slice_get (names result.now) place ≡ Some name → word_place name ≡ Some place }
{
    &WORDS
}

/// The place of the reserved word that is spelled so.
pub fn word_place(name: &[u8]) -> Option<u8>
    ensures { result ≡ word_place name.now }
{
    word_index(name).map(|place| place as u8)
}

fn word_index(name: &[u8]) -> Option<usize>
    ensures place { result ≡ word_place name.now }
    ensures small { IfSome result (λ place. place < 36) }
{
    find_name(words(), name)
}
