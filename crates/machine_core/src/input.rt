ghost use Rattle.std.specs.Prelude.{◌≡◌, length};
ghost use Rattle.ps_stepping.specs.ps_heap.Texts.{line_of, behind_line, is_at_end as is_at_end_of};

use std::marker::Model;

/// The input of a run. Contracts see the bytes of it that weren't read yet.
#[derive(Drop)]
pub struct Input {
    bytes: Vec<u8>,
    read: usize,
}

impl Model for Input {
    ghost use Rattle.std.specs.Prelude.{ℕ, List};

    ghost Value = { List ℕ };

    ghost use Rattle.machine_core.specs.Reading.{left_of, IsWithin};

    ghost view = { left_of };

    ghost invariant = { IsWithin };
}

impl Input {
    /// An input of which nothing was read.
    pub fn new(bytes: Vec<u8>) -> Input
        ensures { result ≡ bytes.items }
    {
        Input { bytes, read: 0 }
    }

    /// Whether all of it was read.
    #[inline]
    pub fn is_at_end(&self) -> bool
        ensures { result ≡ is_at_end_of self.now }
    {
        self.read >= self.bytes.len()
    }

    /// The line with which what is left begins.
    pub fn line(&self) -> &[u8]
        ensures { result.now ≡ line_of self.now }
    {
        let left = self.left();
        left.split_at(line_length(left)).0
    }

    /// Reads a line of so many bytes, and the newline after it.
    pub fn pass_line(&mut self, count: usize)
        requires { count ≡ length (line_of self.old) }
        ensures { self.new ≡ behind_line self.old }
    {
        let behind = self.read + count;
        if behind < self.bytes.len() {
            self.read = behind + 1;
        } else {
            self.read = behind;
        }
    }

    // The bytes that weren't read yet.
    fn left(&self) -> &[u8]
        ensures { result.now ≡ self.now }
    {
        self.bytes.split_at(self.read).1
    }
}

// How many bytes stand before the first newline.
fn line_length(bytes: &[u8]) -> usize
    ensures { result ≡ length (line_of bytes.now) }
{
    let mut count = 0;
    while count < bytes.len() {
        if bytes[count] == b'\n' {
            return count;
        }
        count += 1;
    }
    count
}
