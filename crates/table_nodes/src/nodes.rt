ghost use Rattle.std.specs.Prelude.{◌≡◌, ◌⊎◌, ℕ, ◌<◌, ◌≤◌, true, false, None, Some, IfOk, IfErr, IfSome, OnOk, OnErr};
ghost use Rattle.heap_places.specs.obj_layout.Storing.{SameNumbers};
ghost use Rattle.heap_places.specs.obj_layout.declared.reference.Reference.{Reference as Name};
ghost use Rattle.heap_places.specs.swizzle.Heap.{IsHeld, IsListed, num_at};
ghost use Rattle.heap_places.specs.swizzle.Joint.{name_at, shown_at};
ghost use Rattle.heap_places.specs.swizzle.Touch.{Keeps};
ghost use Rattle.heap_places.specs.Shapes.{slot_of};
ghost use Rattle.table_nodes.specs.Fetching.{FetchesSide, FetchesValue};
ghost use Rattle.table_nodes.specs.Steps.{place};
ghost use Rattle.table_nodes.specs.Bringing.{Brings, NoneCome};
ghost use Rattle.node_rows.specs.Nodes.{Seat};
ghost use Rattle.table_nodes.specs.Nodes.{IsNode, IsNamed, IsLinked, IsSide, IsSlot, HasSides, Grows, Links, IsFetchFault, rows_in, side_of};
ghost use Rattle.table_nodes.specs.Entering.{Puts};
ghost use Rattle.node_rows.specs.Keys.{Keys};
ghost use Rattle.table_nodes.specs.Searching.{ReadsValue};
ghost use Rattle.table_nodes.specs.Sparing.{Spares};
ghost use Rattle.table_nodes.specs.Faults.{IsNodeFault};

use heap_places::obj_layout::kind::Kind;
use heap_places::obj_layout::reference::Reference;
use heap_places::obj_layout::vault::Vault;
use heap_places::places::damaged;
use heap_places::swizzle::fault::SwizzleFault;
use heap_places::swizzle::swizzle::Swizzle;

/// Whether an object has a node's shape.
#[inline(always)]
pub fn is_node(sw: &Swizzle, at: u32) -> bool
    requires held { IsHeld sw.now at }
    ensures yes { result ≡ true → IsNode sw.now at }
    ensures no { IsNode sw.now at → result ≡ true }
{
    sw.kind(at) == Kind::Node && sw.refs(at) == 4 && sw.nums(at) == 3
}

/// How high a side is.
#[inline(always)]
pub fn height<V: Vault>(sw: &Swizzle, vault: &V, side: Option<u32>) -> u64
    requires { IfSome side (IsNode sw.now) }
    ensures none { side ≡ None → result ≡ 0 }
    ensures word { (at : ℕ) → side ≡ Some at → result ≡ num_at sw.now at 2 }
    ensures some { (ks : Keys) (at : ℕ) (n : Name) (row : Seat ks) → side ≡ Some at → IsNamed sw.now at n → rows_in ks sw.now (V.outside vault.now) n row → result ≡ row.height }
{
    let _ = vault;
    sw.sound();
    match side {
        None => 0,
        Some(at) => sw.num(at, 2),
    }
}

/// A side of a node: 0 is the left one. It is fetched where it isn't in the area.
#[inline(always)]
pub fn side<V: Vault>(
    sw: &mut Swizzle,
    vault: &mut V,
    at: u32,
    slot: u32,
) -> Result<Option<u32>, SwizzleFault>
    requires alive { V.alive vault.old }
    requires node { IsNode sw.old at }
    requires slot { slot < 2 }
    ensures held { IfOk result (λ side. IfSome side (IsNode sw.new)) }
    ensures side { (ks : Keys) (n : Name) (row : Seat ks) → IsNamed sw.old at n → rows_in ks sw.old (V.outside vault.old) n row → IfOk result (λ side. IsLinked sw.new side (side_of slot row)) }
    ensures sound { (ks : Keys) (n : Name) (row : Seat ks) → IsNamed sw.old at n → rows_in ks sw.old (V.outside vault.old) n row → IsSide ks sw.old (V.outside vault.old) (side_of slot row) → IfErr result (IsFetchFault sw.old (V.outside vault.old)) }
    ensures grows { OnOk result (Grows sw.old sw.new (V.outside vault.old) (V.outside vault.new)) }
    ensures keeps { OnOk result (Keeps sw.old sw.new) }
    ensures still { OnErr result (Grows sw.old sw.new (V.outside vault.old) (V.outside vault.new)) }
    ensures brings { Brings sw.old sw.new 1 }
    ensures fetched { FetchesSide (place sw.old (V.outside vault.old)) sw.new at slot result }
    ensures fault { IfErr result (IsNodeFault (V.outside vault.old) (V.outside vault.new) sw.new) }
    ensures numbers { SameNumbers V.used_words V.directory_at V.most_words V.access vault.old vault.new }
    ensures alive { OnOk result (V.alive vault.new) }
{
    sw.sound();
    match sw.touch_slot(vault, at, slot) {
        Ok(Some(to)) => {
            sw.sound();
            if is_node(sw, to) {
                Ok(Some(to))
            } else {
                Err(damaged(sw, to, 0, 0))
            }
        }
        Ok(None) => {
            sw.sound();
            Ok(None)
        }
        Err(fault) => Err(fault),
    }
}

/// The object of a node's value. It is fetched where it isn't in the area.
pub fn value<V: Vault>(sw: &mut Swizzle, vault: &mut V, at: u32) -> Result<u32, SwizzleFault>
    requires alive { V.alive vault.old }
    requires node { IsNode sw.old at }
    ensures held { IfOk result (IsHeld sw.new) }
    ensures slot { IfOk result (λ value. slot_of (shown_at sw.new at) 3 ≡ name_at sw.new value) }
    ensures read { ReadsValue sw.old sw.new (V.outside vault.old) at result }
    ensures grows { OnOk result (Grows sw.old sw.new (V.outside vault.old) (V.outside vault.new)) }
    ensures keeps { OnOk result (Keeps sw.old sw.new) }
    ensures still { OnErr result (Grows sw.old sw.new (V.outside vault.old) (V.outside vault.new)) }
    ensures brings { Brings sw.old sw.new 1 }
    ensures fetched { FetchesValue (place sw.old (V.outside vault.old)) sw.new at result }
    ensures fault { IfErr result (IsNodeFault (V.outside vault.old) (V.outside vault.new) sw.new) }
    ensures numbers { SameNumbers V.used_words V.directory_at V.most_words V.access vault.old vault.new }
    ensures alive { OnOk result (V.alive vault.new) }
{
    sw.sound();
    match sw.touch_slot(vault, at, 3) {
        Ok(Some(value)) => {
            sw.sound();
            Ok(value)
        }
        Ok(None) => {
            sw.sound();
            Err(damaged(sw, at, 0, 1))
        }
        Err(fault) => Err(fault),
    }
}

// Whether a slot of a node denotes this object, or none.
fn denotes(sw: &Swizzle, at: u32, slot: u32, side: Option<u32>) -> bool
    requires node { IsNode sw.now at }
    requires slot { slot < 4 }
    requires side { IfSome side (IsHeld sw.now) }
    ensures yes { result ≡ true → IsSlot sw.now at slot side }
    ensures no { result ≡ false → IsSlot sw.now at slot side → ⊥ }
{
    sw.sound();
    match (sw.peek(at, slot), side) {
        (Reference::Nil, None) => true,
        (Reference::Local(to), Some(side)) => to == side,
        (Reference::Pid(pid), Some(side)) => sw.pid(side) == pid,
        _ => false,
    }
}

/// Gives a node other sides and another height, and notes it as assigned. Where it has them already, the area stays.
pub fn link<V: Vault>(
    sw: &mut Swizzle,
    vault: &V,
    at: u32,
    left: Option<u32>,
    right: Option<u32>,
    height: u64,
)
    requires node { IsNode sw.old at }
    requires left { IfSome left (IsNode sw.old) }
    requires right { IfSome right (IsNode sw.old) }
    ensures linked { Links sw.old sw.new (V.outside vault.now) at left right height }
    ensures still { HasSides sw.old at left right height → sw.new ≡ sw.old }
    ensures spares { Spares sw.old sw.new (V.outside vault.now) (V.outside vault.now) }
    ensures none { NoneCome sw.old sw.new }
    ensures marked { HasSides sw.old at left right height ⊎ IsListed at sw.new.assigned }
{
    sw.sound();
    if denotes(sw, at, 0, left) && denotes(sw, at, 1, right) && sw.num(at, 2) == height {
        return;
    }
    write_sides(sw, vault, at, left, right, height);
}

/// Gives a node another value, and notes it as assigned. Where it has that value already, the area stays.
pub fn put<V: Vault>(sw: &mut Swizzle, vault: &V, at: u32, value: u32)
    requires node { IsNode sw.old at }
    requires value { IsHeld sw.old value }
    ensures put { Puts sw.old sw.new (V.outside vault.now) at value }
    ensures still { IsSlot sw.old at 3 (Some value) → sw.new ≡ sw.old }
    ensures spares { Spares sw.old sw.new (V.outside vault.now) (V.outside vault.now) }
    ensures none { NoneCome sw.old sw.new }
    ensures marked { IsSlot sw.old at 3 (Some value) ⊎ IsListed at sw.new.assigned }
{
    sw.sound();
    if denotes(sw, at, 3, Some(value)) {
        return;
    }
    write_value(sw, vault, at, value);
}

// Writes the value of a node, and notes it as assigned.
fn write_value<V: Vault>(sw: &mut Swizzle, vault: &V, node: u32, value: u32)
    requires node { IsNode sw.old node }
    requires value { IsHeld sw.old value }
    ensures put { Puts sw.old sw.new (V.outside vault.now) node value }
    ensures spares { Spares sw.old sw.new (V.outside vault.now) (V.outside vault.now) }
    ensures none { NoneCome sw.old sw.new }
    ensures marked { IsListed node sw.new.assigned }
{
    let _ = vault;
    sw.sound();
    sw.set_ref(node, 3, Some(value));
    sw.sound();
    sw.mark(node);
    sw.sound();
}

// Writes the sides and the height of a node, and notes it as assigned.
fn write_sides<V: Vault>(
    sw: &mut Swizzle,
    vault: &V,
    at: u32,
    left: Option<u32>,
    right: Option<u32>,
    height: u64,
)
    requires node { IsNode sw.old at }
    requires left { IfSome left (IsNode sw.old) }
    requires right { IfSome right (IsNode sw.old) }
    ensures linked { Links sw.old sw.new (V.outside vault.now) at left right height }
    ensures spares { Spares sw.old sw.new (V.outside vault.now) (V.outside vault.now) }
    ensures none { NoneCome sw.old sw.new }
    ensures marked { IsListed at sw.new.assigned }
{
    let _ = vault;
    sw.sound();
    sw.set_ref(at, 0, left);
    sw.sound();
    sw.set_ref(at, 1, right);
    sw.sound();
    sw.set_num(at, 2, height);
    sw.sound();
    sw.mark(at);
    sw.sound();
}
