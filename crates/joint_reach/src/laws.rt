//! Laws of commits.
ghost use Rattle.std.specs.Prelude.{◌≡◌, ℕ, true, List, Option, Result};
ghost use Rattle.joint_held.specs.joint_ops.obj_layout.declared.reference.Reference.{Reference};
ghost use Rattle.joint_held.specs.joint_ops.swizzle.declared.fault.SwizzleFault.{SwizzleFault};
ghost use Rattle.joint_held.specs.joint_ops.swizzle.Heap.{Heap, IsHeap};
ghost use Rattle.joint_held.specs.joint_ops.ps_heap.Databases.{open_for_writing};
ghost use Rattle.joint_held.specs.joint_ops.ps_heap.Held.{Held};
ghost use Rattle.joint_held.specs.joint_ops.ps_heap.Commit.{are_writable};
ghost use Rattle.joint_held.specs.reach_commit.commit_walk.declared.homes.Source.{Source};
ghost use Rattle.joint_held.specs.reach_commit.declared.commit.CommitAnswer.{CommitAnswer};
ghost use Rattle.joint_held.specs.reach_commit.Answers.{Decides};
ghost use Rattle.joint_held.specs.reach_commit.Committing.{Commits};
ghost use Rattle.joint_held.specs.Held.{HoldsRun};
ghost use Rattle.joint_reach.specs.Meets.{MeetsDecision, DecidesAs, MeetsReach, MeetsHomes, MeetsNodes};

use joint_held::reach_commit::joint_ops::obj_layout::vault::Vault;

/// Where area and vault, the databases that are open for writing and the directory stand for what a run holds, code decides as the meaning does.
pub fn a_commit_decides_as_is_meant<V: Vault>()
    ensures tests { (vault : V) (here : Heap) (names : List Reference) (writing : List Source) (directory : Option ℕ) (h : Held) → IsHeap here
        → HoldsRun here (V.outside vault) names writing directory h → MeetsDecision here writing h }
    ensures answers { (vault : V) (here : Heap) (names : List Reference) (writing : List Source) (directory : Option ℕ) (h : Held)
        (result : Result CommitAnswer SwizzleFault) → IsHeap here
        → HoldsRun here (V.outside vault) names writing directory h → Decides here writing result → DecidesAs h result }
{}

/// Where all that was assigned may be written, what code reaches of the objects with an id is what the meaning newly reaches.
pub fn a_commit_reaches_what_is_meant<V: Vault>()
    ensures { (vault : V) (here : Heap) (names : List Reference) (writing : List Source) (directory : Option ℕ) (h : Held) → IsHeap here
        → HoldsRun here (V.outside vault) names writing directory h
        → are_writable h.homes (open_for_writing h.openings) h.assigned ≡ true → MeetsReach here names writing directory h }
{}

/// And the homes that it gives are the meaning's.
pub fn a_commit_gives_homes_as_is_meant<V: Vault>()
    ensures { (vault : V) (here new : Heap) (names : List Reference) (writing : List Source) (directory : Option ℕ) (h : Held) (used : ℕ)
        (fresh changed : List ℕ) → IsHeap here → HoldsRun here (V.outside vault) names writing directory h
        → are_writable h.homes (open_for_writing h.openings) h.assigned ≡ true → Commits here new writing directory used fresh changed
        → MeetsHomes here new names writing directory h }
{}

/// And of the nodes of tables it reaches those that are written anew, and those that become stored with their tables.
pub fn a_commit_reaches_nodes_with_their_tables<V: Vault>()
    ensures { (vault : V) (here : Heap) (names : List Reference) (writing : List Source) (directory : Option ℕ) (h : Held) → IsHeap here
        → (run : HoldsRun here (V.outside vault) names writing directory h)
        → are_writable h.homes (open_for_writing h.openings) h.assigned ≡ true
        → MeetsNodes here h.objects names writing directory run.world.row.stands.tables.nodes }
{}
