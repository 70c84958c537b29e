//! The words that ints and bools are stored as.
ghost use Rattle.std.specs.Prelude.{◌≡◌};
ghost use Rattle.heap_places.specs.Words.{flag_in, flag_word, int_in, int_word};

/// The word that an int is stored as: its two's complement of 64 bits.
#[inline]
pub fn word_of_int(value: i32) -> u64
    ensures { result ≡ int_word value }
{
    i64::from(value).cast_unsigned()
}

/// The int that a word stands for; None where it stands for none.
#[inline]
pub fn int_of_word(word: u64) -> Option<i32>
    ensures { result ≡ int_in word }
{
    i32::try_from(word.cast_signed()).ok()
}

/// The word that a bool is stored as.
#[inline]
pub fn word_of_flag(value: bool) -> u64
    ensures { result ≡ flag_word value }
{
    u64::from(value)
}

/// The bool that a word stands for; None where it stands for none.
#[inline]
#[tactic(auto, using(crate::proofs::WordLaws::flag_is, crate::proofs::WordLaws::flag_none))]
pub fn flag_of_word(word: u64) -> Option<bool>
    ensures { result ≡ flag_in word }
{
    if word > 1 {
        return None;
    }
    Some(word == 1)
}
