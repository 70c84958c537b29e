ghost use Rattle.std.specs.Prelude.{◌≡◌, ◌+◌, ◌<◌, ◌^◌, length, Ok, IfSome, OnOk};
ghost use Rattle.closures.specs.obj_layout.declared.vault.VaultFault.TheVariants.{Damaged};
ghost use Rattle.closures.specs.obj_layout.Storing.{SameNumbers};
ghost use Rattle.closures.specs.swizzle.declared.fault.SwizzleFault.TheVariants.{Vault as InVault};
ghost use Rattle.closures.specs.swizzle.Heap.{IsHeld, Stands, header_at};
ghost use Rattle.closures.specs.swizzle.Text.{text_at};
ghost use Rattle.closures.specs.text_forms.Forms.{forms_of};
ghost use Rattle.closures.specs.swizzle.Joint.{shown_at};
ghost use Rattle.closures.specs.heap_places.Places.{FirstText, HasPlace, IsNear, ReadsPlace, TouchesText};
ghost use Rattle.heap_ops.specs.Layouts.{AreSo};
ghost use Rattle.scopes.specs.Names.{GetsKept, SetsKept, index_of};
ghost use Rattle.scopes.specs.inside.Opening.{OpensName};

use closures::heap_places::places::{self, damaged, write_place};
use closures::heap_places::texts;
use closures::heap_places::value::Value;
use closures::obj_layout::kind::Kind;
use closures::obj_layout::reference::Reference;
use closures::obj_layout::vault::Vault;
use closures::shape::{other_kind, test_shape};
use closures::swizzle::fault::SwizzleFault;
use closures::swizzle::swizzle::Swizzle;
use closures::text_forms::forms::{Form, Located, Place, count_places};
use heap_ops::layouts::Layouts;
use heap_ops::shape::fit;
use heap_ops::vectors::misfitting;

/// What a scope keeps under the name of this number, from 0 in the order of its text. A referred object is fetched where it isn't in the area.
/// Damaged, at the scope's PID, exactly where the object is no scope (found the number of its kind, wanted 4), refers to no text first (as
/// `first_text` says), its text has no such name (found the number, wanted how many names it has), it hasn't two references and one number
/// word more than its text names places of each row (found their number, wanted that), or the name's word stands for no value of its form; in
/// this order.
#[inline(always)]
pub fn get_kept<V: Vault>(
    sw: &mut Swizzle,
    vault: &mut V,
    layouts: &mut Layouts,
    scope: u32,
    name: u32,
) -> Result<Value, SwizzleFault>
    requires alive { V.alive vault.old }
    requires so { AreSo sw.old layouts.old.entries.items }
    requires held { IsHeld sw.old scope }
    ensures got { GetsKept sw.old sw.new (V.outside vault.old) (V.outside vault.new) scope name result }
    ensures so { OnOk result (AreSo sw.new layouts.new.entries.items) }
    ensures numbers { SameNumbers V.used_words V.directory_at V.most_words V.access vault.old vault.new }
    ensures alive { OnOk result (V.alive vault.new) }
{
    let located = match open_name(sw, vault, layouts, scope, name) {
        Ok(located) => located,
        Err(fault) => return Err(fault),
    };
    sw.sound();
    let place = Place {
        form: located.place.form,
        index: index(located.place),
    };
    read_place(sw, vault, scope, place)
}

/// Writes what a scope keeps under the name of this number, and notes the scope as assigned. Damaged as `get_kept` says, but that the present value
/// isn't read, and where the value belongs into the other row: an int may be put where a bool is kept, and a bool where an int is.
pub fn set_kept<V: Vault>(
    sw: &mut Swizzle,
    vault: &mut V,
    layouts: &mut Layouts,
    scope: u32,
    name: u32,
    to: Value,
) -> Result<(), SwizzleFault>
    requires alive { V.alive vault.old }
    requires so { AreSo sw.old layouts.old.entries.items }
    requires held { IsHeld sw.old scope }
    requires near { IsNear sw.old to }
    ensures set { SetsKept sw.old sw.new (V.outside vault.old) (V.outside vault.new) scope name to result }
    ensures so { OnOk result (AreSo sw.new layouts.new.entries.items) }
    ensures numbers { SameNumbers V.used_words V.directory_at V.most_words V.access vault.old vault.new }
    ensures alive { OnOk result (V.alive vault.new) }
    ensures stands { OnOk result (Stands sw.old sw.new) }
{
    let located = match open_name(sw, vault, layouts, scope, name) {
        Ok(located) => located,
        Err(fault) => return Err(fault),
    };
    sw.sound();
    match fit(located.place.form, to) {
        Some(stored) => {
            write_place(sw, scope, index(located.place), stored);
            Ok(())
        }
        None => Err(misfitting(sw, scope, located.place.form, to)),
    }
}

// The place of a name of a scope, whose shape is that of its text.
#[inline(always)]
fn open_name<V: Vault>(
    sw: &mut Swizzle,
    vault: &mut V,
    layouts: &mut Layouts,
    scope: u32,
    name: u32,
) -> Result<Located, SwizzleFault>
    requires alive { V.alive vault.old }
    requires so { AreSo sw.old layouts.old.entries.items }
    requires held { IsHeld sw.old scope }
    ensures opened { OpensName sw.old sw.new (V.outside vault.old) (V.outside vault.new) scope name result }
    ensures so { OnOk result (AreSo sw.new layouts.new.entries.items) }
    ensures numbers { SameNumbers V.used_words V.directory_at V.most_words V.access vault.old vault.new }
    ensures alive { OnOk result (V.alive vault.new) }
{
    sw.sound();
    if !sw.is_kind(scope, Kind::Scope) {
        return Err(other_kind(sw, scope, Kind::Scope));
    }
    let text = match first_text(sw, vault, scope) {
        Ok(text) => text,
        Err(fault) => return Err(fault),
    };
    sw.sound();
    let Some(located) = layouts.locate(sw, text, name) else {
        return Err(no_name(sw, scope, text, name));
    };
    let refs = 2 + u64::from(located.rows.refs);
    let nums = 1 + u64::from(located.rows.nums);
    match test_shape(sw, scope, Kind::Scope, refs, nums) {
        Ok(()) => Ok(located),
        Err(fault) => Err(fault),
    }
}

// The text that an object refers to first, as `heap_places` has it; where it stands in the area, without a call.
#[inline(always)]
fn first_text<V: Vault>(sw: &mut Swizzle, vault: &mut V, object: u32) -> Result<u32, SwizzleFault>
    requires alive { V.alive vault.old }
    requires held { IsHeld sw.old object }
    ensures touched { TouchesText sw.old sw.new (V.outside vault.old) (V.outside vault.new) object result }
    ensures numbers { SameNumbers V.used_words V.directory_at V.most_words V.access vault.old vault.new }
    ensures alive { OnOk result (V.alive vault.new) }
{
    match near_text(sw, vault, object) {
        Some(text) => Ok(text),
        None => texts::first_text(sw, vault, object),
    }
}

// The text that an object refers to first, where it stands in the area.
#[inline(always)]
fn near_text<V: Vault>(sw: &Swizzle, vault: &V, object: u32) -> Option<u32>
    requires { IsHeld sw.now object }
    ensures { IfSome result (λ text. FirstText sw.now sw.now (V.outside vault.now) (V.outside vault.now) object text) }
{
    let _ = vault;
    sw.sound();
    if sw.refs(object) == 0 {
        return None;
    }
    match sw.peek(object, 0) {
        Reference::Local(text) => {
            if sw.is_kind(text, Kind::Text) {
                Some(text)
            } else {
                None
            }
        }
        _ => None,
    }
}

// The value in a place of an object, as `heap_places` has it; a reference that stands in the area is read without a call.
#[inline(always)]
fn read_place<V: Vault>(
    sw: &mut Swizzle,
    vault: &mut V,
    object: u32,
    place: Place,
) -> Result<Value, SwizzleFault>
    requires alive { V.alive vault.old }
    requires held { IsHeld sw.old object }
    requires place { HasPlace (shown_at sw.old object) place.form place.index }
    ensures read { ReadsPlace sw.old sw.new (V.outside vault.old) (V.outside vault.new) object place.form place.index result }
    ensures numbers { SameNumbers V.used_words V.directory_at V.most_words V.access vault.old vault.new }
    ensures alive { OnOk result (V.alive vault.new) }
{
    match near_value(sw, vault, object, place) {
        Some(value) => Ok(value),
        None => places::read_place(sw, vault, object, place),
    }
}

// The reference in a place of an object, where it stands in the area.
#[inline(always)]
fn near_value<V: Vault>(sw: &Swizzle, vault: &V, object: u32, place: Place) -> Option<Value>
    requires held { IsHeld sw.now object }
    requires place { HasPlace (shown_at sw.now object) place.form place.index }
    ensures { IfSome result (λ value. ReadsPlace sw.now sw.now (V.outside vault.now) (V.outside vault.now) object place.form place.index (Ok value)) }
{
    let _ = vault;
    sw.sound();
    match place.form {
        Form::Reference => match sw.peek(object, place.index) {
            Reference::Nil => Some(Value::Ref(None)),
            Reference::Local(at) => Some(Value::Ref(Some(at))),
            Reference::Pid(_) => None,
        },
        _ => None,
    }
}

// The fault of a scope whose text has no such name.
#[inline(never)]
fn no_name(sw: &Swizzle, scope: u32, text: u32, name: u32) -> SwizzleFault
    requires held { IsHeld sw.now scope }
    requires text_held { IsHeld sw.now text }
    requires text { (header_at sw.now text).kind ≡ Kind.Text }
    ensures { result ≡ InVault (Damaged (header_at sw.now scope).pid name (length (forms_of (text_at sw.now text)))) }
{
    let rows = count_places(sw.text(text));
    damaged(
        sw,
        scope,
        u64::from(name),
        u64::from(rows.refs) + u64::from(rows.nums),
    )
}

// The index of a name's place in its row.
#[inline(always)]
fn index(place: Place) -> u32
    requires { place.index + 2 < 2 ^ 32 }
    ensures { result ≡ index_of place }
{
    match place.form {
        Form::Number | Form::Flag => 1 + place.index,
        Form::Reference => 2 + place.index,
    }
}
