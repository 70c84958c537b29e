ghost use Rattle.std.specs.Prelude.{◌≡◌, ℕ, ◌≤◌, ◌↔◌, List, [], None, OnOk, OnErr, IfErr, IsErrOf, vec_len};
ghost use Rattle.ps_base.specs.Limits.{most_text_bytes};
ghost use Rattle.ps_port.specs.declared.shelf.ShelfFault.TheVariants.{Failed};
ghost use Rattle.ps_outside.specs.Outside.{Rose, counted};
ghost use Rattle.ps_port.specs.Texts.{IsTextOf, TooLongFor};

use crate::{Shelf, ShelfFault};
use ps_base::LONGEST_TEXT;
use std::alloc::{AllocError, Global};
use std::collections::BTreeMap;

/// A shelf in memory, for tests: the texts that were added to it.
#[derive(Drop)]
pub struct MemoryShelf {
    alloc: Global,
    texts: BTreeMap<String, Vec<u8>>,
    faults: u64,
}

impl MemoryShelf {
    ghost use Rattle.ps_port.specs.MemoryTexts.{text_of, Puts, SameTexts};

    /// A shelf with no text.
    pub fn new(alloc: Global) -> MemoryShelf
        ensures empty { (q : List ℕ) → text_of result q ≡ None }
        ensures faults { result.faults ≡ 0 }
    {
        MemoryShelf {
            alloc,
            texts: BTreeMap::new(alloc),
            faults: 0,
        }
    }

    /// Puts a text under a name, in place of the one that it had. After a refusal the shelf is as it was.
    pub fn add(&mut self, name: &str, bytes: &[u8]) -> Result<(), AllocError>
        ensures ok { OnOk result (Puts self.old self.new name.now bytes.now) }
        ensures err { OnErr result (SameTexts self.old self.new) }
        ensures faults { self.new.faults ≡ self.old.faults }
    {
        let text = Vec::from_slice(self.alloc, bytes)?;
        let key = String::from_str(self.alloc, name)?;
        self.texts.insert(key, text)?;
        Ok(())
    }
}

impl Shelf for MemoryShelf {
    ghost use Rattle.ps_port.specs.MemoryTexts.{HoldsText, LacksText, is_lacking};

    ghost holds = { HoldsText };

    ghost lacks = { LacksText };

    ghost may_fail = { LacksText };

    ghost faults = { λ shelf. shelf.faults };

    /// It fails exactly where no text has that name.
    fn text(&mut self, name: &str, into: &mut Vec<u8>) -> Result<(), ShelfFault>
        ensures given { OnOk result (IsTextOf (HoldsText self.old name.now) into.new.items) }
        ensures short { OnOk result (vec_len into.new ≤ most_text_bytes) }
        ensures long { IfErr result (λ fault. TooLongFor most_text_bytes (HoldsText self.old name.now) fault) }
        ensures lacking { LacksText self.old name.now → IsErrOf result Failed }
        ensures named { IsErrOf result Failed → LacksText self.old name.now }
        ensures cause { IsErrOf result Failed → Rose self.old.faults self.new.faults }
        ensures counts { self.old.faults ≤ self.new.faults }
        ensures emptied { OnErr result (into.new.items ≡ []) }
        ensures holds_on { (q t : List ℕ) → HoldsText self.new q t ↔ HoldsText self.old q t }
        ensures lacks_on { (q : List ℕ) → LacksText self.new q ↔ LacksText self.old q }
        ensures may_fail_on { (q : List ℕ) → LacksText self.new q ↔ LacksText self.old q }
        ensures counted { self.new.faults ≡ counted (is_lacking self.old name.now) self.old.faults }
    {
        into.clear();
        let Some(text) = self.texts.get(name) else {
            self.faults = self.faults.saturating_add(1);
            return Err(ShelfFault::Failed);
        };
        if text.len() > LONGEST_TEXT {
            let length = text.len() as u64;
            return Err(ShelfFault::TooLong { length });
        }
        into.extend_from_slice(text)?;
        Ok(())
    }
}
