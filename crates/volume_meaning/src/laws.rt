//! Which images stand for which heaps.

ghost use Rattle.std.specs.Prelude.{◌≡◌, ℕ, ◌≤◌, Bool, List, [], ◌++◌, length, Some};
ghost use Rattle.heap_meaning.specs.obj_area.Words.{bytes_of, AreWords};
ghost use Rattle.ps_volumes.specs.obj_layout.Stored.{Space, IsSpace};
ghost use Rattle.ps_volumes.specs.volume_parts.Layout.{gate};
ghost use Rattle.ps_volumes.specs.volume_parts.Holding.{Held};
ghost use Rattle.ps_volumes.specs.paged_volume.Found.{found_in, a_volume, no_volume, damaged};
ghost use Rattle.ps_volumes.specs.paged_volume.declared.damage.Damage.{Damage};
ghost use Rattle.ps_volumes.specs.paged_volume.Making.{IsNew};
ghost use Rattle.ps_volumes.specs.paged_volume.Standing.{held_in};
ghost use Rattle.ps_volumes.specs.volume_parts.declared.note.Note.{Note};
ghost use Rattle.heap_fit.specs.ps_heap.Held.{StoredHeap};
ghost use Rattle.heap_fit.specs.database_meaning.Same.{IsSame};
ghost use Rattle.volume_meaning.specs.Space.{holding, space_in, HoldSame};
ghost use Rattle.space_meaning.specs.Space.{spaced};
ghost use Rattle.volume_meaning.specs.Stands.{Stands, StandsSince};
ghost use Rattle.ps_volumes.specs.Attaching.{KeepsVolume};

use ps_port::Host;

/// A law: what `format` leaves stands for each heap without a database, and for no other.
pub fn a_new_volume_stands_for_no_database()
    ensures stands { (pages : ℕ) (image : List ℕ) (heap : StoredHeap) → 32 ≤ pages → pages ≤ 1048576 → IsNew pages image → gate image ≡ 1 →
        heap.directory ≡ [] → Stands image heap }
    ensures alone { (pages : ℕ) (image : List ℕ) (heap : StoredHeap) → 32 ≤ pages → pages ≤ 1048576 → IsNew pages image → gate image ≡ 1 →
        Stands image heap → heap.directory ≡ [] }
{}

/// A law: an image stands for a heap only where a volume is found in it.
pub fn what_stands_is_a_volume()
    ensures { (image : List ℕ) (heap : StoredHeap) → Stands image heap →
        (pages : ℕ) × (second : Bool) × (held : Held) × (found_in image ≡ a_volume pages second held) }
{}

/// A law: images that hold the same, the same used words under the same directory, stand for the same heaps.
pub fn what_is_held_decides()
    ensures { (image other : List ℕ) (heap : StoredHeap) → HoldSame image other → Stands image heap → Stands other heap }
{}

/// A law: an image that stands for a heap stands for each heap that is the same but for the ids of its objects.
pub fn ids_dont_matter()
    ensures { (image : List ℕ) (heap other : StoredHeap) → IsSame heap other → Stands image heap → Stands image other }
{}

/// A law: where the bytes that are held begin with the spelling of as many words as are used, those are the words of the space.
pub fn what_is_spelled_is_the_space()
    ensures { (image : List ℕ) (note : Note) (words behind : List ℕ) → AreWords words → note.used ≡ length words →
        held_in image ≡ Some (holding note (bytes_of words ++ behind)) → space_in image ≡ Some (spaced words note.directory) }
{}

/// A law: the space of an image has as many words as are used in it, at least word 0, and its directory lies among them.
pub fn a_space_is_used()
    ensures { (image : List ℕ) (held : Held) → held_in image ≡ Some held →
        (space : Space) × (space_in image ≡ Some space) × IsSpace held.note.used held.note.directory space }
{}

/// A law: a damaged file stands for no heap, and neither does one in which there is no volume.
pub fn what_is_damaged_stands_for_no_heap()
    ensures damage { (image : List ℕ) (heap : StoredHeap) (why : Damage) → found_in image ≡ damaged why → Stands image heap → ⊥ }
    ensures none { (image : List ℕ) (heap : StoredHeap) (size gate : ℕ) → found_in image ≡ no_volume size gate → Stands image heap → ⊥ }
{}

/// A law: where a run left its volume between two states of a host, and what a read gave at the start stood for a heap, from some moment on each image
/// that a crash may leave stands for it, and so does what a read gives at the end.
pub fn a_run_leaves_its_heap<H: Host>(host: &H, back: &H)
    ensures since { (heap : StoredHeap) → KeepsVolume (H.outside host.now) (H.outside back.now) →
        ((bytes : List ℕ) → (H.outside host.now).contents bytes → Stands bytes heap) → StandsSince (H.outside host.now) (H.outside back.now) heap }
    ensures after { (heap : StoredHeap) → KeepsVolume (H.outside host.now) (H.outside back.now) →
        ((bytes : List ℕ) → (H.outside host.now).contents bytes → Stands bytes heap) → (bytes : List ℕ) → (H.outside back.now).contents bytes → Stands bytes heap }
{}
