ghost use Rattle.std.specs.Prelude.{◌≡◌, ◌≤◌, ◌+◌, [], ◌∷◌, ◌++◌, take, drop};
ghost use Rattle.ps_base.specs.Instr.{word, spelling, width_of, IsInstr};

use crate::table::instructions;
use byteorder::{ByteOrder, LittleEndian};
use ps_base::instr::Instr;

// The number that the word of a field of a kind spells.
macro_rules! number {
    (word $field:ident) => {
        $field
    };
    (int $field:ident) => {
        $field.cast_unsigned()
    };
    (line $field:ident) => {
        $field.0
    };
}

// Writes a code and so many words.
macro_rules! put {
    ($into:ident, $code:literal) => {
        put_none($code, $into)
    };
    ($into:ident, $code:literal, $a:expr) => {
        put_one($code, $a, $into)
    };
    ($into:ident, $code:literal, $a:expr, $b:expr) => {
        put_two($code, $a, $b, $into)
    };
    ($into:ident, $code:literal, $a:expr, $b:expr, $c:expr) => {
        put_three($code, $a, $b, $c, $into)
    };
    ($into:ident, $code:literal, $a:expr, $b:expr, $c:expr, $d:expr) => {
        put_four($code, $a, $b, $c, $d, $into)
    };
}

// The arm of each row.
macro_rules! put_each {
    (
        ($instr:ident $into:ident)
        $($code:literal $name:literal $variant:ident { $($field:ident: $kind:ident),* })*
    ) => {
        match $instr {
            $(Instr::$variant { $($field),* } => put!($into, $code $(, number!($kind $field))*),)*
        }
    };
}

/// Writes the spelling of the instruction to the prefix of the buffer, and answers how many bytes
/// it has. The rest of the buffer stays.
pub fn encode(instr: Instr, into: &mut [u8; 17]) -> usize
    ensures written { into.new ≡ spelling instr ++ drop result into.old }
    ensures width { result ≡ width_of instr }
    // What a value of the type can hold.
    ensures fits { IsInstr instr }
{
    instructions!(put_each instr into)
}

fn put_none(code: u8, into: &mut [u8; 17]) -> usize
    ensures written { into.new ≡ (code ∷ []) ++ drop 1 into.old }
    ensures width { result ≡ 1 }
{
    into[0] = code;
    1
}

#[tactic(auto, using(crate::proofs::Words::next_word))]
fn put_one(code: u8, a: u32, into: &mut [u8; 17]) -> usize
    ensures written { into.new ≡ (code ∷ word a) ++ drop 5 into.old }
    ensures width { result ≡ 5 }
{
    put_none(code, into);
    put_word(into, 1, a);
    5
}

fn put_two(code: u8, a: u32, b: u32, into: &mut [u8; 17]) -> usize
    ensures written { into.new ≡ (code ∷ (word a ++ word b)) ++ drop 9 into.old }
    ensures width { result ≡ 9 }
{
    put_one(code, a, into);
    put_word(into, 5, b);
    9
}

fn put_three(code: u8, a: u32, b: u32, c: u32, into: &mut [u8; 17]) -> usize
    ensures written { into.new ≡ (code ∷ (word a ++ (word b ++ word c))) ++ drop 13 into.old }
    ensures width { result ≡ 13 }
{
    put_two(code, a, b, into);
    put_word(into, 9, c);
    13
}

fn put_four(code: u8, a: u32, b: u32, c: u32, d: u32, into: &mut [u8; 17]) -> usize
    ensures written { into.new ≡ (code ∷ (word a ++ (word b ++ (word c ++ word d)))) ++ drop 17 into.old }
    ensures width { result ≡ 17 }
{
    put_three(code, a, b, c, into);
    put_word(into, 13, d);
    17
}

fn put_word(into: &mut [u8; 17], at: usize, number: u32)
    requires { at + 4 ≤ 17 }
    ensures { into.new ≡ (take at into.old ++ word number) ++ drop (at + 4) into.old }
{
    LittleEndian::write_u32(&mut into[at..at + 4], number);
}
