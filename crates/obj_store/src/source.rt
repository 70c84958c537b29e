//! What of a volume is read.

ghost use Rattle.std.specs.Prelude.{◌≡◌};

use paged_volume::volume_parts::Note;

/// Where pages are read: as they are staged, or as a pin holds them, under the note of its commit.
#[derive(Clone, Copy)]
pub enum Source {
    Staged,
    Pinned { pin: u32, note: Note },
}

impl Source {
    ghost use Rattle.obj_store.specs.Spaces.{used_in, directory_by, is_staged};

    /// The words that are used as it shows them, of a store in which so many are staged.
    pub fn used_of(self, staged: u64) -> u64
        ensures { result ≡ used_in self staged }
    {
        match self {
            Source::Staged => staged,
            Source::Pinned { note, .. } => note.used,
        }
    }

    /// The directory as it shows it, of a store in which this one is committed.
    pub fn directory_of(self, committed: u64) -> u64
        ensures { result ≡ directory_by self committed }
    {
        match self {
            Source::Staged => committed,
            Source::Pinned { note, .. } => note.directory,
        }
    }

    /// Whether it shows what is staged.
    pub fn is_staged(self) -> bool
        ensures { result ≡ is_staged self }
    {
        match self {
            Source::Staged => true,
            Source::Pinned { .. } => false,
        }
    }
}
