ghost use Rattle.std.specs.Prelude.{◌≡◌, ◌<◌, OnOk, MatchResult};
ghost use Rattle.heap_places.specs.swizzle.Heap.{IsHeld, IsFull, Stands, header_at};
ghost use Rattle.heap_places.specs.swizzle.Joint.{name_at};
ghost use Rattle.heap_places.specs.swizzle.Touch.{Keeps};
ghost use Rattle.table_nodes.specs.Bringing.{Brings};
ghost use Rattle.table_nodes.specs.Entering.{Makes};
ghost use Rattle.table_nodes.specs.Making.{with_key};
ghost use Rattle.table_nodes.specs.Sought.{IsKeyHeld, kind_of, key_in};

use crate::keys::Key;
use heap_places::obj_layout::kind::Kind;
use heap_places::obj_layout::vault::Vault;
use heap_places::swizzle::fault::SwizzleFault;
use heap_places::swizzle::swizzle::Swizzle;
use heap_places::words::word_of_int;

/// Makes a node with a key and a value, without sides. AreaFull exactly where there is no room for its 11 words; then the area stays.
pub fn make_node<V: Vault>(
    sw: &mut Swizzle,
    vault: &V,
    key: Key,
    value: u32,
) -> Result<u32, SwizzleFault>
    requires key { IsKeyHeld sw.old key }
    requires value { IsHeld sw.old value }
    ensures made { MatchResult result
        (λ at. Makes (kind_of key) sw.old sw.new (V.outside vault.now) at (key_in sw.old key) (name_at sw.old value))
        (λ fault. IsFull sw.old sw.new 11 fault) }
    ensures keeps { OnOk result (Keeps sw.old sw.new) }
    ensures brings { Brings sw.old sw.new 1 }
{
    let _ = vault;
    sw.sound();
    let at = match sw.make(Kind::Node, 4, 3, 0) {
        Ok(at) => at,
        Err(fault) => return Err(fault),
    };
    set_key(sw, at, key);
    sw.set_ref(at, 3, Some(value));
    sw.set_num(at, 2, 1);
    sw.sound();
    Ok(at)
}

// Writes the key of a node.
fn set_key(sw: &mut Swizzle, at: u32, key: Key)
    requires held { IsHeld sw.old at }
    requires refs { (header_at sw.old at).refs ≡ 4 }
    requires nums { (header_at sw.old at).nums ≡ 3 }
    requires key { IsKeyHeld sw.old key }
    ensures written { sw.new ≡ with_key sw.old at key }
    ensures stands { Stands sw.old sw.new }
{
    match key {
        Key::Int(value) => sw.set_num(at, 1, word_of_int(value)),
        Key::Text(text) => sw.set_ref(at, 2, Some(text)),
    }
}
