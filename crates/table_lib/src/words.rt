ghost use Rattle.std.specs.Prelude.{◌≡◌, true, false, IfOk, IfSome, OnOk, OnErr, IfErr};
ghost use Rattle.table_nodes.specs.heap_places.obj_layout.Storing.{SameNumbers};
ghost use Rattle.table_nodes.specs.heap_places.obj_layout.declared.reference.Reference.{Reference};
ghost use Rattle.table_nodes.specs.heap_places.swizzle.Heap.{IsHeld, num_at, ref_at};
ghost use Rattle.table_nodes.specs.heap_places.swizzle.Touch.{Keeps};
ghost use Rattle.table_nodes.specs.Bringing.{Brings, NoneCome};
ghost use Rattle.table_nodes.specs.Nodes.{IsNode, Grows};
ghost use Rattle.table_nodes.specs.Sought.{keys_of};
ghost use Rattle.table_nodes.specs.Steps.{place};
ghost use Rattle.table_lib.specs.Entries.{MarksTable, SparesBut, WritesTable};
ghost use Rattle.table_lib.specs.Operations.{FetchesRoot, Opens, ReadsRoot};
ghost use Rattle.table_lib.specs.Tables.{IsTableAt, key_number};
ghost use Rattle.table_nodes.specs.Faults.{IsNodeFault};
ghost use Rattle.table_lib.specs.Faults.{IsFaultAt, IsOpenFault};

use ps_base::trap::Trap;
use table_nodes::heap_places::heap_texts::fault::OpFault;
use table_nodes::heap_places::obj_layout::kind::Kind;
use table_nodes::heap_places::obj_layout::reference::Reference;
use table_nodes::heap_places::obj_layout::vault::Vault;
use table_nodes::heap_places::places::damaged;
use table_nodes::heap_places::swizzle::fault::SwizzleFault;
use table_nodes::heap_places::swizzle::swizzle::Swizzle;
use table_nodes::keys::KeyKind;
use table_nodes::nodes::is_node;

/// A table, and whether it has had keys.
#[derive(Clone, Copy)]
pub struct Opened {
    pub at: u32,
    pub used: bool,
}

// The number of a kind of keys.
fn number_of(kind: KeyKind) -> u64
    ensures { result ≡ key_number (keys_of kind) }
{
    match kind {
        KeyKind::Texts => 1,
        KeyKind::Ints => 2,
    }
}

// Whether a table has no root and no pairs.
fn is_empty(sw: &Swizzle, at: u32) -> bool
    requires table { IsTableAt sw.now at }
    ensures yes { result ≡ true → (ref_at sw.now at 0 ≡ Reference.Nil) × (num_at sw.now at 2 ≡ 0) }
    ensures no { result ≡ false → ref_at sw.now at 0 ≡ Reference.Nil → num_at sw.now at 2 ≡ 0 → ⊥ }
{
    has_no_root(sw, at) && sw.num(at, 2) == 0
}

// Whether a table has no root.
fn has_no_root(sw: &Swizzle, at: u32) -> bool
    requires table { IsTableAt sw.now at }
    ensures yes { result ≡ true → ref_at sw.now at 0 ≡ Reference.Nil }
    ensures no { result ≡ false → ref_at sw.now at 0 ≡ Reference.Nil → ⊥ }
{
    match sw.peek(at, 0) {
        Reference::Nil => true,
        _ => false,
    }
}

/// The table of an operand, for keys of this kind. Nil where there is none, WrongClass where the object is no table, KeyKind where the table
/// has keys of the other kind.
pub fn open_table(sw: &Swizzle, keys: KeyKind, table: Option<u32>) -> Result<Opened, OpFault>
    requires held { IfSome table (IsHeld sw.now) }
    ensures opens { Opens (keys_of keys) sw.now table result }
    ensures fault { IfErr result (IsOpenFault sw.now table) }
{
    let Some(at) = table else {
        return Err(OpFault::Trap(Trap::Nil));
    };
    if sw.kind(at) != Kind::Table {
        return Err(OpFault::Trap(Trap::WrongClass));
    }
    if sw.refs(at) != 1 || sw.nums(at) != 3 {
        return Err(OpFault::Swizzle(damaged(sw, at, 0, 0)));
    }
    let kind = sw.num(at, 1);
    if kind == 0 {
        return match is_empty(sw, at) {
            true => Ok(Opened { at, used: false }),
            false => Err(OpFault::Swizzle(damaged(sw, at, 0, 1))),
        };
    }
    if kind == number_of(keys) {
        return Ok(Opened { at, used: true });
    }
    if kind < 3 {
        return Err(OpFault::Trap(Trap::KeyKind));
    }
    Err(OpFault::Swizzle(damaged(sw, at, kind, 3)))
}

/// The node of a table's root. It is fetched where it isn't in the area.
pub fn root_node<V: Vault>(
    sw: &mut Swizzle,
    vault: &mut V,
    at: u32,
) -> Result<Option<u32>, SwizzleFault>
    requires alive { V.alive vault.old }
    requires table { IsTableAt sw.old at }
    ensures root { ReadsRoot (place sw.old (V.outside vault.old)) sw.new at result }
    ensures node { IfOk result (λ root. IfSome root (IsNode sw.new)) }
    ensures grows { OnOk result (Grows sw.old sw.new (V.outside vault.old) (V.outside vault.new)) }
    ensures keeps { OnOk result (Keeps sw.old sw.new) }
    ensures still { OnErr result (Grows sw.old sw.new (V.outside vault.old) (V.outside vault.new)) }
    ensures brings { Brings sw.old sw.new 1 }
    ensures fetched { FetchesRoot (place sw.old (V.outside vault.old)) sw.new at result }
    ensures fault { IfErr result (IsNodeFault (V.outside vault.old) (V.outside vault.new) sw.new) }
    ensures numbers { SameNumbers V.used_words V.directory_at V.most_words V.access vault.old vault.new }
    ensures alive { OnOk result (V.alive vault.new) }
{
    sw.sound();
    match sw.touch_slot(vault, at, 0) {
        Ok(Some(root)) => {
            sw.sound();
            if is_node(sw, root) {
                Ok(Some(root))
            } else {
                Err(damaged(sw, root, 0, 0))
            }
        }
        Ok(None) => {
            sw.sound();
            Ok(None)
        }
        Err(fault) => Err(fault),
    }
}

/// The node of a table's root, where it has one exactly where its words tell of pairs; else it is damaged.
pub fn counted_root<V: Vault>(
    sw: &mut Swizzle,
    vault: &mut V,
    at: u32,
) -> Result<Option<u32>, SwizzleFault>
    requires alive { V.alive vault.old }
    requires table { IsTableAt sw.old at }
    ensures root { ReadsRoot (place sw.old (V.outside vault.old)) sw.new at result }
    ensures node { IfOk result (λ root. IfSome root (IsNode sw.new)) }
    ensures grows { OnOk result (Grows sw.old sw.new (V.outside vault.old) (V.outside vault.new)) }
    ensures keeps { OnOk result (Keeps sw.old sw.new) }
    ensures still { OnErr result (Grows sw.old sw.new (V.outside vault.old) (V.outside vault.new)) }
    ensures brings { Brings sw.old sw.new 1 }
    ensures fetched { FetchesRoot (place sw.old (V.outside vault.old)) sw.new at result }
    ensures fault { IfErr result (IsFaultAt (IsNodeFault (V.outside vault.old) (V.outside vault.new) sw.new) sw.new at) }
    ensures numbers { SameNumbers V.used_words V.directory_at V.most_words V.access vault.old vault.new }
    ensures alive { OnOk result (V.alive vault.new) }
{
    sw.sound();
    let count = sw.num(at, 2);
    let none = has_no_root(sw, at);
    if none != (count == 0) {
        return Err(damaged(sw, at, count, 0));
    }
    root_node(sw, vault, at)
}

/// Writes a table's root, the kind of its keys and how many pairs it has, and notes it as assigned.
pub fn write_table<V: Vault>(
    sw: &mut Swizzle,
    vault: &V,
    at: u32,
    root: Option<u32>,
    keys: KeyKind,
    count: u64,
)
    requires table { IsTableAt sw.old at }
    requires root { IfSome root (IsNode sw.old) }
    ensures written { WritesTable (keys_of keys) sw.old sw.new (V.outside vault.now) at root count }
    ensures spares { SparesBut at sw.old sw.new (V.outside vault.now) (V.outside vault.now) }
    ensures none { NoneCome sw.old sw.new }
{
    let _ = vault;
    sw.sound();
    sw.set_ref(at, 0, root);
    sw.sound();
    sw.set_num(at, 1, number_of(keys));
    sw.sound();
    sw.set_num(at, 2, count);
    sw.sound();
    sw.mark(at);
    sw.sound();
}

/// Notes a table as assigned whose words stay.
pub fn mark_table<V: Vault>(sw: &mut Swizzle, vault: &V, at: u32)
    requires table { IsTableAt sw.old at }
    ensures marked { MarksTable sw.old sw.new (V.outside vault.now) (V.outside vault.now) at }
    ensures spares { SparesBut at sw.old sw.new (V.outside vault.now) (V.outside vault.now) }
    ensures none { NoneCome sw.old sw.new }
{
    let _ = vault;
    sw.sound();
    sw.mark(at);
    sw.sound();
}
