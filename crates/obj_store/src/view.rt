//! A store as one of its pins holds it.

ghost use Rattle.std.specs.Prelude.{◌≡◌, true, false, IsSome};
ghost use Rattle.paged_volume.specs.Pinning.{pin_of};
ghost use Rattle.obj_store.specs.Spaces.{used_in, directory_in};
ghost use Rattle.obj_store.specs.Store.{bounded, most_of, outside_at};
ghost use Rattle.obj_store.specs.Lending.{Lent, view_access};
ghost use Rattle.obj_store.specs.Viewing.{IsViewed, IsFew, ShowsPin};

use crate::source::Source;
use crate::store::ObjStore;
use obj_layout::vault::{Vault, VaultFault};
use ps_port::Host;

/// A store as one of its pins holds it. Where the pin is current it reads and is written as the store, and `settle` moves the pin to what is committed then.
/// Where it isn't, it reads what the pin holds, and may not be written.
#[derive(Drop)]
pub struct View<'a, H: Host> {
    store: &'a mut ObjStore<H>,
    pin: u32,
    source: Source,
    ghost viewed: { store.now.live ≡ true → IsViewed store.now.table pin source },
    ghost few: { IsFew source },
}

impl<H: Host> ObjStore<H> {
    /// The store as this pin holds it. The pin holds something, and nothing is staged.
    pub fn view(&mut self, pin: u32) -> View<'_, H>
        requires alive { self.old.live ≡ true }
        requires pin { IsSome (pin_of self.old.table pin) }
        requires unstaged { self.old.staged ≡ false }
        ensures same_reference { result.store.ghost_name ≡ self.entry.ghost_name }
        ensures now { result.store.now ≡ self.old }
        ensures pin { result.pin ≡ pin }
        ensures viewed { IsViewed self.old.table pin result.source }
        ensures shows { ShowsPin H.outside self.old pin result.source }
    {
        let source = self.source_of(pin);
        View {
            store: self,
            pin,
            source,
        }
    }
}

impl<'a, H: Host> Vault for View<'a, H> {
    ghost outside = { λ view. outside_at H.outside view.source view.store.now };

    ghost alive = { λ view. view.store.now.live ≡ true };

    ghost used_words = { λ view. bounded (used_in view.source view.store.now.used) };

    ghost most_words = { λ view. most_of view.store.now };

    ghost directory_at = { λ view. directory_in view.source view.store.now.table };

    ghost Lent = { Lent };

    ghost access = { λ view. view_access view.store.ghost_name view.pin view.source view.store.now };

    fn length(&mut self, pid: u64) -> Result<u32, VaultFault> {
        self.store.length_in(self.source, pid)
    }

    fn fetch(&mut self, pid: u64, into: &mut [u64]) -> Result<(), VaultFault> {
        self.store.fetch_in(self.source, pid, into)
    }

    fn append(&mut self, words: &[u64]) -> Result<u64, VaultFault> {
        match self.source {
            Source::Staged => self.store.append_new(words),
            Source::Pinned { .. } => unreachable!(),
        }
    }

    fn overwrite(&mut self, pid: u64, words: &[u64]) -> Result<(), VaultFault> {
        match self.source {
            Source::Staged => self.store.overwrite_old(pid, words),
            Source::Pinned { .. } => unreachable!(),
        }
    }

    fn settle(&mut self, directory: u64) -> Result<(), VaultFault> {
        match self.source {
            Source::Staged => self.store.settle_pinned(self.pin, directory),
            Source::Pinned { .. } => unreachable!(),
        }
    }

    fn put(&mut self, bytes: &[u8]) -> Result<(), VaultFault> {
        self.store.put_in(self.source, bytes)
    }

    fn used(&self) -> u64 {
        self.source.used_of(self.store.used())
    }

    fn capacity(&self) -> u64 {
        self.store.capacity()
    }

    fn directory(&self) -> u64 {
        self.source.directory_of(self.store.directory())
    }

    fn writable(&self) -> bool {
        self.source.is_staged()
    }

    fn is_alive(&self) -> bool {
        self.store.is_alive()
    }

    ghost use Rattle.paged_volume.specs.Layout.{capacity_of};
    ghost use Rattle.obj_store.specs.StoreLaws.{is_space, is_one, in_bounds};

    ghost space = { λ view space is. is_space view.source (used_in view.source view.store.now.used) view.store.now.table (H.outside view.store.now.host) space is };

    ghost one = { λ view a b is other. is_one view.source (used_in view.source view.store.now.used) view.store.now.table (H.outside view.store.now.host) (H.one view.store.now.host) a b is other };

    ghost bounds = { λ view. in_bounds (used_in view.source view.store.now.used) (capacity_of view.store.now.table.committed.pages) };
}
