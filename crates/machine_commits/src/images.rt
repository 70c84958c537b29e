//! The buffer in which a commit makes the images of objects.
ghost use Rattle.std.specs.Prelude.{◌≡◌, ◌+◌, ◌≤◌, length, vec_capacity};

/// Has so many words in the buffer at least, by words that are reserved.
pub fn grow(images: &mut Vec<u64>, words: usize)
    requires { words ≤ vec_capacity images.old }
    ensures long { words ≤ length images.new.items }
    ensures room { vec_capacity images.new ≡ vec_capacity images.old }
{
    while images.len() < words {
        images.push_reserved(0);
    }
}
