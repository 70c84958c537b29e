ghost use Rattle.std.specs.Prelude.{◌≡◌, ◌∷◌, [], ◌++◌, OnOk, MatchOption};
ghost use Rattle.ps_layout.specs.Waiting.{waiting};

use crate::piece::Piece;
use std::alloc::{AllocError, Global};

/// The pieces that are still to be printed.
#[derive(Drop)]
pub struct Pending<'a> {
    last_first: Vec<Piece<'a>>,
}

impl<'a> Pending<'a> {
    /// Nothing to be printed. Takes no memory.
    pub fn new(alloc: Global) -> Pending<'a>
        ensures { waiting result ≡ [] }
    {
        Pending {
            last_first: Vec::new(alloc),
        }
    }

    /// Puts these pieces before the others.
    pub fn put(&mut self, pieces: &[Piece<'a>]) -> Result<(), AllocError>
        ensures { OnOk result (waiting self.new ≡ pieces.now ++ waiting self.old) }
    {
        let mut i = pieces.len();
        while i > 0 {
            i -= 1;
            self.last_first.push(pieces[i])?;
        }
        Ok(())
    }

    /// Takes the next piece.
    pub fn next(&mut self) -> Option<Piece<'a>>
        ensures { MatchOption result (waiting self.old ≡ []) (λ piece. waiting self.old ≡ piece ∷ waiting self.new) }
    {
        self.last_first.pop()
    }
}
