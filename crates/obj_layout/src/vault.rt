ghost use Rattle.std.specs.Prelude.{◌≡◌, ◌+◌, ◌≤◌, ◌<◌, ◌^◌, ◌↔◌, ℕ, List, length, Some, None, true, IfOk, OnOk, Err, drop};
ghost use Rattle.ps_outside.specs.Outside.{Outside, SameContents};
ghost use Rattle.obj_layout.specs.Stored.{Space, IsSpace, Holds, IsHeaded, length_there, words_there, appended, overwritten, directed};
ghost use Rattle.obj_layout.specs.Storing.{IsStoreCall, IsStagingCall, TestsObject, NeverDamaged, NeverFull, Access, SameUsers, all_settled, LacksPages, NeverLacksPages, DeadIfErr, Becomes, Settles, Puts, reading, writing, settling, SameNumbers};

/// Why a vault didn't answer. After any fault the vault isn't alive.
#[derive(Clone, Copy, PartialEq, Eq, Debug)]
pub enum VaultFault {
    /// The device failed.
    Device,
    /// The output failed; `put` alone answers it.
    Output,
    /// The object doesn't fit: so many words are used, so many wanted, and so many can be had. `append` alone answers it.
    Full {
        used: u64,
        wanted: u64,
        capacity: u64,
    },
    /// So many pages are held, by what is committed, by what is staged and by snapshots, so many more are wanted, and there are only so many.
    /// `append`, `overwrite` and `settle` alone answer it, and only beside snapshots (`docs/formats.md`, "Snapshots").
    NoPages {
        held: u32,
        wanted: u32,
        pages: u32,
    },
    /// At this PID a test of the object failed: the number that was tested, and its bound (`docs/formats.md`).
    Damaged {
        at: u64,
        found: u64,
        wanted: u64,
    },
}

/// A store of objects under their PIDs, with the output. An object's PID is the index of its first word.
pub trait Vault {
    /// What is seen of it: what is output, what a crash may leave, what is held, and the counts of its faults and of its device calls.
    ghost outside: { Self → Outside Space };

    /// Its calls may be made.
    ghost alive: { Self → Type 0 };

    ghost used_words: { Self → ℕ };

    ghost most_words: { Self → ℕ };

    ghost directory_at: { Self → ℕ };

    /// What it is lent by others who use the same store.
    ghost Lent: { Type 0 };

    /// Whether it may be written, whether no snapshot holds pages of it, what it is lent, and whether something is staged: only `append` and `overwrite` stage.
    ghost access: { Self → Access Lent };

    /// How many words the object has, its header included. It goes by what stands at the PID alone: whether the rest of the space is cut into
    /// objects changes nothing.
    fn length(&mut self, pid: u64) -> Result<u32, VaultFault>
        requires alive { alive self.old }
        ensures told { IfOk result (λ count. (words : List ℕ) → Holds (outside self.old) pid words → length words ≡ count) }
        ensures stands { IfOk result (λ count. (space : Space) → (outside self.old).contents space → length_there pid space ≡ count) }
        ensures tested { TestsObject (outside self.old) pid None result }
        ensures call { IsStoreCall (outside self.old) (outside self.new) 2 result }
        ensures same { SameContents (outside self.old) (outside self.new) }
        ensures full { NeverFull result }
        ensures pages { NeverLacksPages result }
        ensures numbers { SameNumbers used_words directory_at most_words access self.old self.new }
        ensures alive { OnOk result (alive self.new) }
        ensures dead { DeadIfErr (alive self.new) result };

    /// Gives the words of the object, those that stand at the PID.
    fn fetch(&mut self, pid: u64, into: &mut [u64]) -> Result<(), VaultFault>
        requires alive { alive self.old }
        requires fits { (words : List ℕ) → Holds (outside self.old) pid words → length words ≡ length into.old }
        ensures told { OnOk result ((words : List ℕ) → Holds (outside self.old) pid words → words ≡ into.new) }
        ensures stands { OnOk result ((space : Space) → (outside self.old).contents space → words_there pid (length into.old) space ≡ into.new) }
        ensures headed { OnOk result (IsHeaded into.new) }
        ensures tested { TestsObject (outside self.old) pid (Some (length into.old)) result }
        ensures call { IsStoreCall (outside self.old) (outside self.new) (reading (length into.old)) result }
        ensures same { SameContents (outside self.old) (outside self.new) }
        ensures full { NeverFull result }
        ensures pages { NeverLacksPages result }
        ensures numbers { SameNumbers used_words directory_at most_words access self.old self.new }
        ensures alive { OnOk result (alive self.new) }
        ensures dead { DeadIfErr (alive self.new) result };

    /// Stores a new object. Its PID is the number of used words before.
    fn append(&mut self, words: &[u64]) -> Result<u64, VaultFault>
        requires alive { alive self.old }
        requires writable { (access self.old).writes ≡ true }
        requires headed { IsHeaded words.now }
        ensures pid { IfOk result (λ pid. pid ≡ used_words self.old) }
        ensures told { OnOk result (Becomes (outside self.old) (outside self.new) (appended words.now)) }
        ensures full { (used wanted capacity : ℕ) → result ≡ Err (VaultFault.Full used wanted capacity) →
            (used ≡ used_words self.old) × (wanted ≡ length words.now) × (capacity ≡ most_words self.old) × (capacity < used + wanted) }
        ensures room { OnOk result (used_words self.old + length words.now ≤ most_words self.old) }
        ensures pages { LacksPages (access self.old) result }
        ensures call { IsStagingCall (outside self.old) (outside self.new) (writing (length words.now)) result }
        ensures sound { NeverDamaged result }
        ensures used { OnOk result (used_words self.new ≡ used_words self.old + length words.now) }
        ensures numbers { (directory_at self.new ≡ directory_at self.old) × (most_words self.new ≡ most_words self.old) }
        ensures users { SameUsers (access self.old) (access self.new) }
        ensures alive { OnOk result (alive self.new) }
        ensures dead { DeadIfErr (alive self.new) result };

    /// Puts these words in place of the object's.
    fn overwrite(&mut self, pid: u64, words: &[u64]) -> Result<(), VaultFault>
        requires alive { alive self.old }
        requires writable { (access self.old).writes ≡ true }
        requires headed { IsHeaded words.now }
        ensures told { OnOk result (Becomes (outside self.old) (outside self.new) (overwritten pid words.now)) }
        ensures tested { TestsObject (outside self.old) pid (Some (length words.now)) result }
        ensures call { IsStagingCall (outside self.old) (outside self.new) (writing (length words.now)) result }
        ensures full { NeverFull result }
        ensures pages { LacksPages (access self.old) result }
        ensures numbers { (used_words self.new ≡ used_words self.old) × (directory_at self.new ≡ directory_at self.old) × (most_words self.new ≡ most_words self.old) }
        ensures users { SameUsers (access self.old) (access self.new) }
        ensures alive { OnOk result (alive self.new) }
        ensures dead { DeadIfErr (alive self.new) result };

    /// Keeps all that was stored, with this directory: at every moment a crash leaves all of it or none.
    fn settle(&mut self, directory: u64) -> Result<(), VaultFault>
        requires alive { alive self.old }
        requires writable { (access self.old).writes ≡ true }
        requires below { directory < used_words self.old }
        ensures told { OnOk result (Becomes (outside self.old) (outside self.new) (directed directory)) }
        ensures settled { Settles (outside self.old) (outside self.new) (settling (used_words self.old)) (directed directory) result }
        ensures full { NeverFull result }
        ensures pages { LacksPages (access self.old) result }
        ensures sound { NeverDamaged result }
        ensures directory { OnOk result (directory_at self.new ≡ directory) }
        ensures numbers { (used_words self.new ≡ used_words self.old) × (most_words self.new ≡ most_words self.old) }
        ensures users { SameUsers (access self.old) (access self.new) }
        ensures unstaged { OnOk result (access self.new ≡ all_settled (access self.old)) }
        ensures alive { OnOk result (alive self.new) }
        ensures dead { DeadIfErr (alive self.new) result };

    /// Writes these bytes.
    fn put(&mut self, bytes: &[u8]) -> Result<(), VaultFault>
        requires alive { alive self.old }
        ensures told { Puts (outside self.old) (outside self.new) bytes.now result }
        ensures full { NeverFull result }
        ensures pages { NeverLacksPages result }
        ensures sound { NeverDamaged result }
        ensures numbers { SameNumbers used_words directory_at most_words access self.old self.new }
        ensures alive { OnOk result (alive self.new) }
        ensures dead { DeadIfErr (alive self.new) result };

    /// How many words are used, word 0 included.
    fn used(&self) -> u64
        ensures { result ≡ used_words self.now };

    /// How many words can be used.
    fn capacity(&self) -> u64
        ensures { result ≡ most_words self.now };

    /// The directory's PID, 0 where there is none.
    fn directory(&self) -> u64
        ensures { result ≡ directory_at self.now };

    /// Whether it may be written: what it shows is what was committed last.
    fn writable(&self) -> bool
        ensures { result ≡ (access self.now).writes };

    /// Whether calls may be made.
    fn is_alive(&self) -> bool
        ensures { (alive self.now → result ≡ true) × (result ≡ true → alive self.now) };

    /// What it holds is a space of its used words and its directory, and one space alone.
    ghost space: { (vault : Self) (space : Space) → (outside vault).contents space → IsSpace (used_words vault) (directory_at vault) space };

    ghost one: { (vault : Self) (a b : Space) → (outside vault).contents a → (outside vault).contents b → a ≡ b };

    /// There is at least word 0, and there are fewer than 2^30 words.
    ghost bounds: { (vault : Self) → (1 ≤ used_words vault) × (used_words vault < 2 ^ 30) × (most_words vault < 2 ^ 30) };
}
