//! Laws of how a run begins.
ghost use Rattle.std.specs.Prelude.{ℕ, List};
ghost use Rattle.joint_held.specs.joint_ops.obj_layout.Stored.{Space, without_file};
ghost use Rattle.joint_held.specs.joint_ops.ps_heap.Values.{Routine};
ghost use Rattle.joint_held.specs.joint_ops.ps_heap.Held.{Reply, StoredHeap};
ghost use Rattle.space_meaning.specs.heap_fit.Heaps.{IsFitHeap};
ghost use Rattle.space_meaning.specs.Stands.{SpaceStands};
ghost use Rattle.joint_begun.specs.Beginning.{BeginsOver, BeginsOverSame, HasCompact, IsCompact};

use joint_held::reach_commit::joint_ops::obj_layout::vault::Vault;

/// Each fit heap has one that is the same but for its ids, all of which are reached.
pub fn each_heap_has_a_compact_one()
    ensures { (heap : StoredHeap) → IsFitHeap heap → HasCompact heap }
{}

/// Over a vault that stands for a heap whose ids are all reached, an area without objects holds the run that begins over this heap.
pub fn a_run_begins_over_what_stands<V: Vault>()
    ensures { (vault : V) (space : Space) (heap : StoredHeap) (size : ℕ) (weigh : Routine → ℕ) (replies : List Reply) (counted : ℕ) → (V.outside vault).contents space
        → SpaceStands (without_file space) heap → IsCompact heap → BeginsOver size (V.outside vault) weigh replies counted heap }
{}

/// So it begins over each heap for which the vault stands, with other ids.
pub fn a_run_begins_over_each_heap<V: Vault>()
    ensures { (vault : V) (space : Space) (heap : StoredHeap) (size : ℕ) (weigh : Routine → ℕ) (replies : List Reply) (counted : ℕ) → (V.outside vault).contents space
        → SpaceStands (without_file space) heap → BeginsOverSame size (V.outside vault) weigh replies counted (without_file space) heap }
{}
