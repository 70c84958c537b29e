ghost use Rattle.std.specs.Prelude.{◌≡◌, ℕ, ◌≤◌, ◌↔◌, List, [], OnOk, OnErr, IfErr, IsErrOf, vec_len};
ghost use Rattle.ps_base.specs.Limits.{most_text_bytes};
ghost use Rattle.ps_port.specs.declared.shelf.ShelfFault.TheVariants.{Failed, Memory};
ghost use Rattle.ps_outside.specs.Outside.{Rose};
ghost use Rattle.ps_port.specs.Texts.{IsTextOf, TooLongFor};

use std::alloc::AllocError;

/// Why a shelf gave no text.
#[derive(Clone, Copy, Debug, PartialEq, Eq)]
pub enum ShelfFault {
    /// There is no text of this name, or it couldn't be read: the shelf's `faults` rose.
    Failed,
    /// The text has this many bytes, more than 1,048,576.
    TooLong { length: u64 },
    /// There was no memory for the text.
    Memory,
}

impl From<AllocError> for ShelfFault {
    ghost from_gives = { λ _ fault. fault ≡ Memory };

    fn from(_: AllocError) -> Self {
        ShelfFault::Memory
    }
}

/// Texts by name.
pub trait Shelf {
    /// Under this name the shelf has this text. A shelf that tells nothing has no such text.
    ghost holds: { Self → List ℕ → List ℕ → Type 0 };

    /// The shelf has no text of this name. A shelf that tells nothing says so of no name.
    ghost lacks: { Self → List ℕ → Type 0 };

    /// A text of this name may fail to be read. A shelf that can't know says so of every name.
    ghost may_fail: { Self → List ℕ → Type 0 };

    /// How often a text couldn't be had. It stands still at 2^64 - 1.
    ghost faults: { Self → ℕ };

    /// Empties `into` and fills it with the text of this name, of at most 1,048,576 bytes. After a
    /// refusal `into` is empty. The shelf's texts stay as they are.
    fn text(&mut self, name: &str, into: &mut Vec<u8>) -> Result<(), ShelfFault>
        ensures given { OnOk result (IsTextOf (holds self.old name.now) into.new.items) }
        ensures short { OnOk result (vec_len into.new ≤ most_text_bytes) }
        ensures long { IfErr result (λ fault. TooLongFor most_text_bytes (holds self.old name.now) fault) }
        ensures lacking { lacks self.old name.now → IsErrOf result Failed }
        ensures named { IsErrOf result Failed → may_fail self.old name.now }
        ensures cause { IsErrOf result Failed → Rose (faults self.old) (faults self.new) }
        ensures counts { faults self.old ≤ faults self.new }
        ensures emptied { OnErr result (into.new.items ≡ []) }
        ensures holds_on { (q t : List ℕ) → holds self.new q t ↔ holds self.old q t }
        ensures lacks_on { (q : List ℕ) → lacks self.new q ↔ lacks self.old q }
        ensures may_fail_on { (q : List ℕ) → may_fail self.new q ↔ may_fail self.old q };
}
