//! Which spaces stand for which heaps.

ghost use Rattle.std.specs.Prelude.{◌≡◌, List, []};
ghost use Rattle.heap_meaning.specs.obj_layout.Objects.{Placed, HoldsObjects};
ghost use Rattle.heap_meaning.specs.obj_layout.Stored.{Space};
ghost use Rattle.heap_fit.specs.ps_heap.Held.{StoredHeap};
ghost use Rattle.heap_fit.specs.database_meaning.Same.{IsSame};
ghost use Rattle.heap_fit.specs.ps_heap.Objects.{Heap};
ghost use Rattle.ps_code_laws.specs.Literals.{HeapIs, Fits};
ghost use Rattle.space_meaning.specs.Stands.{SpaceStands};
ghost use Rattle.space_meaning.specs.Keeping.{HaveUnits};

/// A law: a space without a directory, which is cut into objects, stands for each heap without a database, and for no other.
pub fn a_space_without_a_directory_has_no_database()
    ensures stands { (space : Space) (objects : List Placed) (heap : StoredHeap) → HoldsObjects space.words objects → space.directory ≡ 0 →
        heap.directory ≡ [] → SpaceStands space heap }
    ensures alone { (space : Space) (heap : StoredHeap) → space.directory ≡ 0 → SpaceStands space heap → heap.directory ≡ [] }
{}

/// A law: a space that stands for a heap stands for each heap that is the same but for the ids of its objects.
pub fn ids_of_a_space_dont_matter()
    ensures { (space : Space) (heap other : StoredHeap) → IsSame heap other → SpaceStands space heap → SpaceStands space other }
{}

/// A law: where each body of a heap's procedures fits, with those inside it, each of them has a unit.
pub fn fitting_bodies_have_units()
    ensures { (heap : Heap) → HeapIs Fits heap → HaveUnits heap }
{}
