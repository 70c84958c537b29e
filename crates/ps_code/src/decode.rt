ghost use Rattle.std.specs.Prelude.{◌≡◌, ℕ, ◌<◌, ◌≤◌, ◌+◌, List, [], ◌∷◌, ◌++◌, drop, length, Some, IfSome, MatchOption};
ghost use Rattle.ps_base.specs.declared.instr.Instr.{Instr};
ghost use Rattle.ps_base.specs.Instr.{word, spelling, width_of, IsInstr};
ghost use Rattle.ps_code.specs.inside.Fronts.{IsShort, IsPrefix};

use crate::table::instructions;
use byteorder::{ByteOrder, LittleEndian};
use ps_base::instr::Instr;
use ps_base::line::Line;

// The value of a field of a kind, from the number that its word spells.
macro_rules! value {
    (word $number:expr) => {
        $number
    };
    (int $number:expr) => {
        $number.cast_signed()
    };
    (line $number:expr) => {
        Line($number)
    };
}

// An instruction of a row with so many fields, and its length.
macro_rules! take {
    ($rest:ident, $variant:ident) => {
        Some((Instr::$variant, 1))
    };
    ($rest:ident, $variant:ident, $a:ident $ka:ident) => {
        match one_word($rest) {
            Some(a) => {
                let instr = Instr::$variant { $a: value!($ka a) };
                Some((instr, 5))
            }
            None => None,
        }
    };
    ($rest:ident, $variant:ident, $a:ident $ka:ident, $b:ident $kb:ident) => {
        match two_words($rest) {
            Some((a, b)) => {
                let instr = Instr::$variant { $a: value!($ka a), $b: value!($kb b) };
                Some((instr, 9))
            }
            None => None,
        }
    };
    ($rest:ident, $variant:ident, $a:ident $ka:ident, $b:ident $kb:ident, $c:ident $kc:ident) => {
        match three_words($rest) {
            Some((a, b, c)) => {
                let instr = Instr::$variant { $a: value!($ka a), $b: value!($kb b), $c: value!($kc c) };
                Some((instr, 13))
            }
            None => None,
        }
    };
    (
        $rest:ident, $variant:ident,
        $a:ident $ka:ident, $b:ident $kb:ident, $c:ident $kc:ident, $d:ident $kd:ident
    ) => {
        match four_words($rest) {
            Some((a, b, c, d)) => {
                let instr = Instr::$variant {
                    $a: value!($ka a), $b: value!($kb b), $c: value!($kc c), $d: value!($kd d)
                };
                Some((instr, 17))
            }
            None => None,
        }
    };
}

// The arm of each row.
macro_rules! take_each {
    (
        ($number:ident $rest:ident)
        $($code:literal $name:literal $variant:ident { $($field:ident: $kind:ident),* })*
    ) => {
        match $number {
            0 | 78..=255 => None,
            $($code => take!($rest, $variant $(, $field $kind)*),)*
        }
    };
}

/// The instruction whose spelling stands at the start of the bytes, and how many bytes it has.
/// `None` where no spelling stands there.
#[inline(always)]
pub fn decode(bytes: &[u8]) -> Option<(Instr, usize)>
    ensures found { IfSome result (λ x. bytes.now ≡ spelling x.0 ++ drop x.1 bytes.now) }
    ensures width { IfSome result (λ x. x.1 ≡ width_of x.0) }
    ensures within { IfSome result (λ x. x.1 ≤ length bytes.now) }
    ensures fits { IfSome result (λ x. IsInstr x.0) }
    // Whatever follows the spelling of an instruction, that instruction is answered.
    ensures only { (i : Instr) (rest : List ℕ) → IsInstr i → bytes.now ≡ spelling i ++ rest →
        result ≡ Some (i, width_of i) }
{
    match bytes.split_first() {
        Some((code, rest)) => take_row(*code, rest),
        None => None,
    }
}

#[inline(always)]
fn take_row(code: u8, rest: &[u8]) -> Option<(Instr, usize)>
    ensures { MatchOption result (IsShort code rest.now) (λ x. IsPrefix code rest.now x) }
{
    instructions!(take_each code rest)
}

fn one_word(bytes: &[u8]) -> Option<u32>
    ensures { MatchOption result (length bytes.now < 4) (λ a. bytes.now ≡ word a ++ drop 4 bytes.now) }
{
    if bytes.len() < 4 {
        return None;
    }
    Some(word_at(bytes, 0))
}

fn two_words(bytes: &[u8]) -> Option<(u32, u32)>
    ensures { MatchOption result (length bytes.now < 8)
        (λ x. bytes.now ≡ (word x.0 ++ word x.1) ++ drop 8 bytes.now) }
{
    if bytes.len() < 8 {
        return None;
    }
    Some((word_at(bytes, 0), word_at(bytes, 4)))
}

fn three_words(bytes: &[u8]) -> Option<(u32, u32, u32)>
    ensures { MatchOption result (length bytes.now < 12)
        (λ x. bytes.now ≡ (word x.0 ++ (word x.1 ++ word x.2)) ++ drop 12 bytes.now) }
{
    if bytes.len() < 12 {
        return None;
    }
    Some((word_at(bytes, 0), word_at(bytes, 4), word_at(bytes, 8)))
}

fn four_words(bytes: &[u8]) -> Option<(u32, u32, u32, u32)>
    ensures { MatchOption result (length bytes.now < 16)
        (λ x. bytes.now ≡ (word x.0 ++ (word x.1 ++ (word x.2 ++ word x.3))) ++ drop 16 bytes.now) }
{
    if bytes.len() < 16 {
        return None;
    }
    Some((
        word_at(bytes, 0),
        word_at(bytes, 4),
        word_at(bytes, 8),
        word_at(bytes, 12),
    ))
}

fn word_at(bytes: &[u8], at: usize) -> u32
    requires { at + 4 ≤ length bytes.now }
    ensures { drop at bytes.now ≡ word result ++ drop (at + 4) bytes.now }
{
    LittleEndian::read_u32(&bytes[at..at + 4])
}
