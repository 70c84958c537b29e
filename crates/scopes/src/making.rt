ghost use Rattle.std.specs.Prelude.{◌≡◌, IfSome};
ghost use Rattle.closures.specs.swizzle.Heap.{IsHeld, Stands, header_at};
ghost use Rattle.closures.specs.swizzle.Text.{text_at};
ghost use Rattle.scopes.specs.Making.{MakesScope};

use closures::obj_layout::kind::Kind;
use closures::swizzle::fault::SwizzleFault;
use closures::swizzle::swizzle::Swizzle;
use closures::text_forms::forms::count_places;

/// Makes the scope of a text under a parent, where there is one: each name that is an int or a bool holds 0, and each other nil. AreaFull exactly
/// where there is no room for its words; then the area stays.
pub fn make_scope(sw: &mut Swizzle, names: u32, parent: Option<u32>) -> Result<u32, SwizzleFault>
    requires names { IsHeld sw.old names }
    requires text { (header_at sw.old names).kind ≡ Kind.Text }
    requires parent { IfSome parent (IsHeld sw.old) }
    ensures made { MakesScope sw.old sw.new names (text_at sw.old names) parent result }
    ensures stands { Stands sw.old sw.new }
{
    sw.sound();
    let rows = count_places(sw.text(names));
    let scope = match sw.make(Kind::Scope, 2 + rows.refs, 1 + rows.nums, 0) {
        Ok(scope) => scope,
        Err(fault) => return Err(fault),
    };
    sw.set_ref(scope, 0, Some(names));
    sw.set_ref(scope, 1, parent);
    Ok(scope)
}
