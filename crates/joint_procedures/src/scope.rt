//! Scopes: made, left, and their names read and written.
ghost use Rattle.std.specs.Prelude.{◌≡◌, ℕ, List, Option, IfOk, IfSome, OnOk, Some};
ghost use Rattle.joint_ops.specs.obj_layout.declared.reference.Reference.{Reference};
ghost use Rattle.joint_ops.specs.obj_layout.Storing.{SameNumbers};
ghost use Rattle.joint_ops.specs.swizzle.Heap.{IsHeld, Stands as AllStand, header_at};
ghost use Rattle.joint_ops.specs.swizzle.Reading.{LeavesOutside};
ghost use Rattle.joint_ops.specs.swizzle.Touch.{Keeps};
ghost use Rattle.scopes.specs.heap_ops.Layouts.{AreSo};
ghost use Rattle.scopes.specs.heap_places.Places.{IsNear};
ghost use Rattle.joint_ops.specs.ps_heap.Objects as meaning;
ghost use Rattle.joint_ops.specs.ps_heap.Scopes.{new_scope};
ghost use Rattle.joint_ops.specs.ps_heap.Values as meant;
ghost use Rattle.joint_ops.specs.World.{DenotesIn, DenotesScopeIn, IsForIn, IsWorld, FailsAsReading};
ghost use Rattle.joint_ops.specs.Made.{FailsAsMaking};
ghost use Rattle.joint_procedures.specs.Scopes.{AnswersOut, AnswersParent, IsInt, MakesScope, PutsKept, ReadsKept, WritesKept};

use joint_ops::obj_layout::kind::Kind;
use joint_ops::obj_layout::vault::Vault;
use joint_ops::swizzle::fault::SwizzleFault;
use joint_ops::swizzle::swizzle::Swizzle;
use scopes::heap_ops::layouts::Layouts;
use scopes::heap_places::value::Value;
use scopes::{making, names as kept, way};

/// Makes a scope of a text inside another one, or inside none. AreaFull exactly where there is no room for its words; then the area stays. The vault is
/// there for the clause alone.
#[inline]
pub fn make_scope<V: Vault>(
    sw: &mut Swizzle,
    _vault: &V,
    text: u32,
    parent: Option<u32>,
) -> Result<u32, SwizzleFault>
    requires text { IsHeld sw.old text }
    requires kind { (header_at sw.old text).kind ≡ Kind.Text }
    requires parent { IfSome parent (IsHeld sw.old) }
    ensures made { (of : meaning.Heap) (names : List Reference) (bytes : List ℕ) (round : Option ℕ) → IsWorld sw.old (V.outside _vault.now) of names
        → DenotesIn sw.old (V.outside _vault.now) names (Some text) (meant.Text bytes) → DenotesScopeIn sw.old (V.outside _vault.now) names parent round
        → MakesScope sw.old sw.new (V.outside _vault.now) of names (new_scope bytes round) result }
    ensures fails { FailsAsMaking sw.old sw.new result }
    ensures held { IfOk result (IsHeld sw.new) }
    ensures keeps { Keeps sw.old sw.new }
{
    sw.sound();
    let made = making::make_scope(sw, text, parent);
    sw.sound();
    made
}

/// The scope round a scope; None for none. What isn't in the area is fetched, here and below.
#[inline]
pub fn parent_of<V: Vault>(
    sw: &mut Swizzle,
    vault: &mut V,
    scope: u32,
) -> Result<Option<u32>, SwizzleFault>
    requires alive { V.alive vault.old }
    requires held { IsHeld sw.old scope }
    ensures got { (of : meaning.Heap) (names : List Reference) (within : Option ℕ) → IsWorld sw.old (V.outside vault.old) of names
        → DenotesScopeIn sw.old (V.outside vault.old) names (Some scope) within → AnswersParent sw.old sw.new (V.outside vault.old) (V.outside vault.new) of names within result }
    ensures held { IfOk result (λ to. IfSome to (IsHeld sw.new)) }
    ensures keeps { OnOk result (Keeps sw.old sw.new) }
    ensures fails { FailsAsReading (V.outside vault.old) (V.outside vault.new) result }
    ensures leaves { LeavesOutside (V.outside vault.old) (V.outside vault.new) }
    ensures numbers { SameNumbers V.used_words V.directory_at V.most_words V.access vault.old vault.new }
    ensures alive { OnOk result (V.alive vault.new) }
{
    sw.sound();
    let got = way::parent_of(sw, vault, scope);
    sw.sound();
    got
}

/// The scope so many levels out from a scope, which is 0 levels out from itself. Damaged exactly where there is none.
#[inline(always)]
pub fn scope_out<V: Vault>(
    sw: &mut Swizzle,
    vault: &mut V,
    scope: u32,
    up: u32,
) -> Result<u32, SwizzleFault>
    requires alive { V.alive vault.old }
    requires held { IsHeld sw.old scope }
    ensures out { (of : meaning.Heap) (names : List Reference) (within : Option ℕ) → IsWorld sw.old (V.outside vault.old) of names
        → DenotesScopeIn sw.old (V.outside vault.old) names (Some scope) within → AnswersOut sw.old sw.new (V.outside vault.old) (V.outside vault.new) of names within up result }
    ensures held { IfOk result (IsHeld sw.new) }
    ensures keeps { OnOk result (Keeps sw.old sw.new) }
    ensures fails { FailsAsReading (V.outside vault.old) (V.outside vault.new) result }
    ensures leaves { LeavesOutside (V.outside vault.old) (V.outside vault.new) }
    ensures numbers { SameNumbers V.used_words V.directory_at V.most_words V.access vault.old vault.new }
    ensures alive { OnOk result (V.alive vault.new) }
{
    sw.sound();
    let out = way::scope_out(sw, vault, scope, up);
    sw.sound();
    out
}

/// What is kept under the name of this number, from 0, of the scope so many levels out. Damaged exactly where there is no such scope, or its text
/// has no such name.
#[inline(always)]
pub fn get_kept<V: Vault>(
    sw: &mut Swizzle,
    vault: &mut V,
    layouts: &mut Layouts,
    scope: u32,
    up: u32,
    name: u32,
) -> Result<Value, SwizzleFault>
    requires alive { V.alive vault.old }
    requires held { IsHeld sw.old scope }
    requires so { AreSo sw.old layouts.old.entries.items }
    ensures got { (of : meaning.Heap) (names : List Reference) (within : Option ℕ) → IsWorld sw.old (V.outside vault.old) of names
        → DenotesScopeIn sw.old (V.outside vault.old) names (Some scope) within → ReadsKept sw.old sw.new (V.outside vault.old) (V.outside vault.new) of names within up name result }
    ensures so { OnOk result (AreSo sw.new layouts.new.entries.items) }
    ensures near { IfOk result (IsNear sw.new) }
    ensures keeps { OnOk result (Keeps sw.old sw.new) }
    ensures fails { FailsAsReading (V.outside vault.old) (V.outside vault.new) result }
    ensures leaves { LeavesOutside (V.outside vault.old) (V.outside vault.new) }
    ensures numbers { SameNumbers V.used_words V.directory_at V.most_words V.access vault.old vault.new }
    ensures alive { OnOk result (V.alive vault.new) }
{
    let at = match scope_out(sw, vault, scope, up) {
        Ok(at) => at,
        Err(fault) => return Err(fault),
    };
    sw.sound();
    let got = kept::get_kept(sw, vault, layouts, at, name);
    sw.sound();
    got
}

/// Writes what is kept under the name of this number of the scope so many levels out, and notes that scope as assigned. Damaged exactly where there
/// is no such scope, its text has no such name, or the value belongs into the other row; an int may be put where a bool is kept, and a bool where an
/// int is.
#[inline]
pub fn set_kept<V: Vault>(
    sw: &mut Swizzle,
    vault: &mut V,
    layouts: &mut Layouts,
    scope: u32,
    up: u32,
    name: u32,
    to: Value,
) -> Result<(), SwizzleFault>
    requires alive { V.alive vault.old }
    requires held { IsHeld sw.old scope }
    requires so { AreSo sw.old layouts.old.entries.items }
    requires near { IsNear sw.old to }
    ensures set { (of : meaning.Heap) (names : List Reference) (within : Option ℕ) (v : meant.Value) → IsWorld sw.old (V.outside vault.old) of names
        → DenotesScopeIn sw.old (V.outside vault.old) names (Some scope) within → IsInt to → IsForIn sw.old (V.outside vault.old) names to v
        → WritesKept sw.old sw.new (V.outside vault.old) (V.outside vault.new) of names within up name to v result }
    ensures so { OnOk result (AreSo sw.new layouts.new.entries.items) }
    ensures does { OnOk result (PutsKept sw.old sw.new name to) }
    ensures fails { FailsAsReading (V.outside vault.old) (V.outside vault.new) result }
    ensures leaves { LeavesOutside (V.outside vault.old) (V.outside vault.new) }
    ensures numbers { SameNumbers V.used_words V.directory_at V.most_words V.access vault.old vault.new }
    ensures alive { OnOk result (V.alive vault.new) }
    ensures stands { OnOk result (AllStand sw.old sw.new) }
{
    let at = match scope_out(sw, vault, scope, up) {
        Ok(at) => at,
        Err(fault) => return Err(fault),
    };
    sw.sound();
    let set = kept::set_kept(sw, vault, layouts, at, name, to);
    sw.sound();
    set
}
