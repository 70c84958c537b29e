ghost use Rattle.std.specs.Prelude.{◌≡◌, Some, OnOk, OnErr, IfOk, MatchResult, IfErr};
ghost use Rattle.heap_places.specs.obj_layout.Storing.{SameNumbers};
ghost use Rattle.heap_places.specs.Shapes.{slot_of};
ghost use Rattle.heap_places.specs.Words.{int_in};
ghost use Rattle.heap_places.specs.swizzle.Heap.{num_at};
ghost use Rattle.heap_places.specs.swizzle.Joint.{name_at, shown_at};
ghost use Rattle.heap_places.specs.swizzle.Touch.{Keeps};
ghost use Rattle.table_nodes.specs.Fetching.{FetchesKey};
ghost use Rattle.table_nodes.specs.Steps.{place};
ghost use Rattle.node_rows.specs.Keys.{by_texts};
ghost use Rattle.table_nodes.specs.Bringing.{Brings};
ghost use Rattle.table_nodes.specs.Nodes.{IsNode, Grows};
ghost use Rattle.table_nodes.specs.Sought.{IsTextHeld, ReadsInt, ReadsText, keys_of, kind_of};
ghost use Rattle.table_nodes.specs.Faults.{IsNodeFault};

use heap_places::obj_layout::kind::Kind;
use heap_places::obj_layout::vault::Vault;
use heap_places::places::damaged;
use heap_places::swizzle::fault::SwizzleFault;
use heap_places::swizzle::swizzle::Swizzle;
use heap_places::words::int_of_word;

// One more than the greatest int.
const INT_BOUND: u64 = 1 << 31;

/// A key that is sought: an int, or the string of the text at this index of the area.
#[derive(Clone, Copy)]
pub enum Key {
    Int(i32),
    Text(u32),
}

/// Of which kind keys are.
#[derive(Clone, Copy)]
pub enum KeyKind {
    Ints,
    Texts,
}

/// The kind of a key.
#[inline(always)]
pub fn kind_of_key(key: Key) -> KeyKind
    ensures { keys_of result ≡ kind_of key }
{
    match key {
        Key::Int(_) => KeyKind::Ints,
        Key::Text(_) => KeyKind::Texts,
    }
}

/// The int key of a node.
#[inline(always)]
pub fn int_key<V: Vault>(sw: &Swizzle, vault: &V, at: u32) -> Result<i32, SwizzleFault>
    requires node { IsNode sw.now at }
    ensures read { ReadsInt sw.now (V.outside vault.now) at result }
    ensures word { IfOk result (λ value. int_in (num_at sw.now at 1) ≡ Some value) }
    ensures fault { IfErr result (IsNodeFault (V.outside vault.now) (V.outside vault.now) sw.now) }
{
    let _ = vault;
    sw.sound();
    let word = sw.num(at, 1);
    match int_of_word(word) {
        Some(value) => Ok(value),
        None => Err(damaged(sw, at, word, INT_BOUND)),
    }
}

/// The text of a node's key. It is fetched where it isn't in the area.
pub fn text_key<V: Vault>(sw: &mut Swizzle, vault: &mut V, at: u32) -> Result<u32, SwizzleFault>
    requires alive { V.alive vault.old }
    requires node { IsNode sw.old at }
    ensures held { IfOk result (IsTextHeld sw.new) }
    ensures slot { IfOk result (λ text. slot_of (shown_at sw.new at) 2 ≡ name_at sw.new text) }
    ensures read { ReadsText sw.old sw.new (V.outside vault.old) at result }
    ensures grows { OnOk result (Grows sw.old sw.new (V.outside vault.old) (V.outside vault.new)) }
    ensures keeps { OnOk result (Keeps sw.old sw.new) }
    ensures still { OnErr result (Grows sw.old sw.new (V.outside vault.old) (V.outside vault.new)) }
    ensures brings { MatchResult result (λ answer. Brings sw.old sw.new 0) (λ fault. Brings sw.old sw.new 1) }
    ensures fetched { FetchesKey by_texts (place sw.old (V.outside vault.old)) sw.new at result }
    ensures fault { IfErr result (IsNodeFault (V.outside vault.old) (V.outside vault.new) sw.new) }
    ensures numbers { SameNumbers V.used_words V.directory_at V.most_words V.access vault.old vault.new }
    ensures alive { OnOk result (V.alive vault.new) }
{
    sw.sound();
    match sw.touch_slot(vault, at, 2) {
        Ok(Some(text)) => {
            sw.sound();
            let kind = sw.kind(text);
            if kind == Kind::Text {
                Ok(text)
            } else {
                Err(damaged(sw, text, u64::from(kind.number()), 1))
            }
        }
        Ok(None) => {
            sw.sound();
            Err(damaged(sw, at, 0, 1))
        }
        Err(fault) => Err(fault),
    }
}
