//! Words that are filled up with blanks.
ghost use Rattle.std.specs.Prelude.{◌≡◌, ◌+◌, ◌≤◌, ◌++◌, replicate, vec_len, vec_capacity};

// Puts so many blanks after words, where there is room for them. Mostly they are few.
#[inline(always)]
pub(crate) fn fill<W: Copy + Drop>(words: &mut Vec<W>, count: usize, blank: W)
    requires { vec_len words.old + count ≤ vec_capacity words.old }
    ensures items { words.new.items ≡ words.old.items ++ replicate count blank }
    ensures len { vec_len words.new ≡ vec_len words.old + count }
    ensures room { vec_capacity words.new ≡ vec_capacity words.old }
{
    for _ in 0..count {
        words.push_reserved(blank);
    }
}
