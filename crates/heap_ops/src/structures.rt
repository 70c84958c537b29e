ghost use Rattle.std.specs.Prelude.{◌≡◌, ◌≢◌, Some, None, true, false, OnOk, IfSome, MatchResult};
ghost use Rattle.heap_places.specs.swizzle.Heap.{IsHeld, Stands, header_at};
ghost use Rattle.heap_places.specs.swizzle.Text.{text_at};
ghost use Rattle.heap_places.specs.swizzle.Joint.{shown_at};
ghost use Rattle.heap_places.specs.Places.{IsNear, NamesDamage, fit_damage};
ghost use Rattle.heap_places.specs.Filling.{AreNear, Fills};
ghost use Rattle.heap_ops.specs.Structures.{TellsClass, IsNamed, GetsField, SetsField, structure_damage};
ghost use Rattle.heap_ops.specs.Outcomes.{UnlessFault};
ghost use Rattle.heap_ops.specs.inside.Opening.{OpensFields};
ghost use Rattle.heap_places.specs.obj_layout.Storing.{SameNumbers};

use heap_places::filling::make_filled;
use heap_places::heap_texts::fault::OpFault;
use heap_places::obj_layout::kind::Kind;
use heap_places::obj_layout::vault::Vault;
use heap_places::places::{damaged, read_place, write_place};
use heap_places::swizzle::fault::SwizzleFault;
use heap_places::swizzle::swizzle::Swizzle;
use heap_places::text_forms::forms::{Located, Place, Rows};
use heap_places::texts::first_text;
use heap_places::value::Value;
use ps_base::trap::Trap;

/// Makes a structure of a class, which is a text, with the values of its fields in their order. AreaFull exactly where there is no room for its
/// words; then the area stays.
pub fn make_structure(sw: &mut Swizzle, class: u32, fields: &[Value]) -> Result<u32, SwizzleFault>
    requires class { IsHeld sw.old class }
    requires near { AreNear sw.old fields.now }
    ensures filled { Fills sw.old sw.new Kind.Structure class None fields.now result }
    ensures stands { Stands sw.old sw.new }
{
    make_filled(sw, Kind::Structure, class, None, fields)
}

/// Whether a value denotes a structure of a class, which is a text: nil does not. Classes are compared by their texts, which is quick where the
/// structure refers to that very text.
pub fn is_class<V: Vault>(
    sw: &mut Swizzle,
    vault: &mut V,
    object: Option<u32>,
    class: u32,
) -> Result<bool, SwizzleFault>
    requires alive { V.alive vault.old }
    requires held { IfSome object (IsHeld sw.old) }
    requires class { IsHeld sw.old class }
    requires text { (header_at sw.old class).kind ≡ Kind.Text }
    ensures told { TellsClass sw.old sw.new (V.outside vault.old) (V.outside vault.new) object (text_at sw.old class) result }
    ensures numbers { SameNumbers V.used_words V.directory_at V.most_words V.access vault.old vault.new }
    ensures alive { OnOk result (V.alive vault.new) }
{
    match object {
        Some(at) => is_of_class(sw, vault, at, class),
        None => Ok(false),
    }
}

/// The value of a field of what a value denotes; `located` is the field's place as the class's text tells it. Trap Nil for nil, WrongClass for an
/// object of another class. Damaged, at the object's PID, exactly where the object hasn't the shape of its class or the field's word stands for
/// no value of its form.
pub fn get_field<V: Vault>(
    sw: &mut Swizzle,
    vault: &mut V,
    object: Option<u32>,
    class: u32,
    located: Located,
) -> Result<Value, OpFault>
    requires alive { V.alive vault.old }
    requires held { IfSome object (IsHeld sw.old) }
    requires class { IsHeld sw.old class }
    requires text { (header_at sw.old class).kind ≡ Kind.Text }
    requires field { IsNamed (text_at sw.old class) located }
    ensures got { GetsField sw.old sw.new (V.outside vault.old) (V.outside vault.new) object (text_at sw.old class) located result }
    ensures numbers { SameNumbers V.used_words V.directory_at V.most_words V.access vault.old vault.new }
    ensures alive { UnlessFault result (V.alive vault.new) }
{
    let at = match open_structure(sw, vault, object, class, located.rows) {
        Ok(at) => at,
        Err(fault) => return Err(fault),
    };
    sw.sound();
    let place = Place {
        form: located.place.form,
        index: located.place.index + 1,
    };
    match read_place(sw, vault, at, place) {
        Ok(value) => Ok(value),
        Err(fault) => Err(OpFault::Swizzle(fault)),
    }
}

/// Writes a field of what a value denotes, and notes its object as assigned. The same traps and damage as `get_field`, but that the present value
/// isn't read.
pub fn set_field<V: Vault>(
    sw: &mut Swizzle,
    vault: &mut V,
    object: Option<u32>,
    class: u32,
    located: Located,
    to: Value,
) -> Result<(), OpFault>
    requires alive { V.alive vault.old }
    requires held { IfSome object (IsHeld sw.old) }
    requires class { IsHeld sw.old class }
    requires text { (header_at sw.old class).kind ≡ Kind.Text }
    requires field { IsNamed (text_at sw.old class) located }
    requires near { IsNear sw.old to }
    requires fits { fit_damage located.place.form to ≡ None }
    ensures set { SetsField sw.old sw.new (V.outside vault.old) (V.outside vault.new) object (text_at sw.old class) located to result }
    ensures numbers { SameNumbers V.used_words V.directory_at V.most_words V.access vault.old vault.new }
    ensures alive { UnlessFault result (V.alive vault.new) }
    ensures stands { UnlessFault result (Stands sw.old sw.new) }
{
    let at = match open_structure(sw, vault, object, class, located.rows) {
        Ok(at) => at,
        Err(fault) => return Err(fault),
    };
    sw.sound();
    write_place(sw, at, located.place.index + 1, to);
    Ok(())
}

// The object of a field: a structure of the class whose shape is that of the class.
#[inline]
fn open_structure<V: Vault>(
    sw: &mut Swizzle,
    vault: &mut V,
    object: Option<u32>,
    class: u32,
    rows: Rows,
) -> Result<u32, OpFault>
    requires alive { V.alive vault.old }
    requires held { IfSome object (IsHeld sw.old) }
    requires class { IsHeld sw.old class }
    requires text { (header_at sw.old class).kind ≡ Kind.Text }
    ensures opened { OpensFields sw.old sw.new (V.outside vault.old) (V.outside vault.new) object (text_at sw.old class) rows result }
    ensures numbers { SameNumbers V.used_words V.directory_at V.most_words V.access vault.old vault.new }
    ensures alive { UnlessFault result (V.alive vault.new) }
{
    let Some(at) = object else {
        return Err(OpFault::Trap(Trap::Nil));
    };
    match is_of_class(sw, vault, at, class) {
        Ok(true) => match test_shape(sw, at, rows) {
            Ok(()) => Ok(at),
            Err(fault) => Err(OpFault::Swizzle(fault)),
        },
        Ok(false) => Err(OpFault::Trap(Trap::WrongClass)),
        Err(fault) => Err(OpFault::Swizzle(fault)),
    }
}

// Whether an object is a structure of a class.
#[inline]
fn is_of_class<V: Vault>(
    sw: &mut Swizzle,
    vault: &mut V,
    object: u32,
    class: u32,
) -> Result<bool, SwizzleFault>
    requires alive { V.alive vault.old }
    requires held { IsHeld sw.old object }
    requires class { IsHeld sw.old class }
    requires text { (header_at sw.old class).kind ≡ Kind.Text }
    ensures told { TellsClass sw.old sw.new (V.outside vault.old) (V.outside vault.new) (Some object) (text_at sw.old class) result }
    ensures numbers { SameNumbers V.used_words V.directory_at V.most_words V.access vault.old vault.new }
    ensures alive { OnOk result (V.alive vault.new) }
{
    if !sw.is_kind(object, Kind::Structure) {
        return Ok(false);
    }
    match first_text(sw, vault, object) {
        Ok(text) => Ok(are_same(sw, text, class)),
        Err(fault) => Err(fault),
    }
}

// Whether two texts have the same bytes, which is quick where they are one.
#[inline]
fn are_same(sw: &Swizzle, text: u32, other: u32) -> bool
    requires held { IsHeld sw.now text }
    requires kind { (header_at sw.now text).kind ≡ Kind.Text }
    requires other_held { IsHeld sw.now other }
    requires other_kind { (header_at sw.now other).kind ≡ Kind.Text }
    ensures same { result ≡ true → text_at sw.now text ≡ text_at sw.now other }
    ensures different { result ≡ false → text_at sw.now text ≢ text_at sw.now other }
{
    text == other || have_same_bytes(sw, text, other)
}

// Whether two texts have the same bytes.
#[inline(never)]
fn have_same_bytes(sw: &Swizzle, text: u32, other: u32) -> bool
    requires held { IsHeld sw.now text }
    requires kind { (header_at sw.now text).kind ≡ Kind.Text }
    requires other_held { IsHeld sw.now other }
    requires other_kind { (header_at sw.now other).kind ≡ Kind.Text }
    ensures same { result ≡ true → text_at sw.now text ≡ text_at sw.now other }
    ensures different { result ≡ false → text_at sw.now text ≢ text_at sw.now other }
{
    sw.text(text) == sw.text(other)
}

// Tests that a structure has as many places as its class names.
#[inline]
fn test_shape(sw: &Swizzle, object: u32, rows: Rows) -> Result<(), SwizzleFault>
    requires held { IsHeld sw.now object }
    requires kind { (header_at sw.now object).kind ≡ Kind.Structure }
    ensures { MatchResult result
        (λ _. structure_damage (shown_at sw.now object) rows ≡ None)
        (NamesDamage sw.now object (structure_damage (shown_at sw.now object) rows)) }
{
    sw.sound();
    let refs = u64::from(sw.refs(object));
    let refs_wanted = 1 + u64::from(rows.refs);
    if refs != refs_wanted {
        return Err(damaged(sw, object, refs, refs_wanted));
    }
    let nums = u64::from(sw.nums(object));
    let nums_wanted = 1 + u64::from(rows.nums);
    if nums != nums_wanted {
        return Err(damaged(sw, object, nums, nums_wanted));
    }
    Ok(())
}
