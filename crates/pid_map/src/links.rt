ghost use Rattle.std.specs.Prelude.{◌≡◌, ◌<◌, ◌≤◌, ℕ};
ghost use Rattle.pid_map.specs.Chains.{Relinked};

/// Places with a key each, and a link from each to another.
pub trait Links {
    /// The PID of a place.
    ghost key: { Self → ℕ → ℕ };

    /// The next place of its chain, 0 for none.
    ghost next: { Self → ℕ → ℕ };

    ghost is_place: { Self → ℕ → Type 0 };

    /// Every place is below it.
    ghost bound: { Self → ℕ };

    fn key_at(&self, at: u32) -> u64
        requires { is_place self.now at }
        ensures { result ≡ key self.now at };

    fn next_at(&self, at: u32) -> u32
        requires { is_place self.now at }
        ensures { result ≡ next self.now at };

    ghost range: { (links : Self) (at : ℕ) → is_place links at → (1 ≤ at) × (at < bound links) };
}

/// Places whose links can be changed.
pub trait Relinks: Links {
    /// How the whole changes where the link of a place becomes another: the implementor's own equation, which callers get back from `add`.
    ghost linked: { Self → Self → ℕ → ℕ → Type 0 };

    /// Changes one link, and no key.
    fn set_next(&mut self, at: u32, to: u32)
        requires { Self.is_place self.old at }
        ensures { linked self.old self.new at to };

    ghost relinks: { (old new : Self) (at to : ℕ) → Self.is_place old at → linked old new at to → Relinked (Self.key old) (Self.next old) (Self.is_place old) (Self.key new) (Self.next new) (Self.is_place new) at to };
}
