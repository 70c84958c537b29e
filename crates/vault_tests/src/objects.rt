//! Objects to be stored.
ghost use Rattle.memory_vault.specs.obj_layout.Stored.{IsHeaded};

/// A text with no byte, in five words, the last of which is its home.
pub fn short_text(home: u64) -> [u64; 5]
    ensures { IsHeaded result }
{
    [1, 0, 1, 0, home]
}

/// A text of eight bytes, in six words.
pub fn long_text(home: u64, bytes: u64) -> [u64; 6]
    ensures { IsHeaded result }
{
    [1, 0, 0x0000_0008_0000_0002, 0, home, bytes]
}
