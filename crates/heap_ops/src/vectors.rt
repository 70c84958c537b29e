ghost use Rattle.std.specs.Prelude.{◌≡◌, ◌-ℤ◌, length, replicate, None, OnOk};
ghost use Rattle.heap_places.specs.ps_heap.Objects.{is_vector as is_vector_of, count_from};
ghost use Rattle.heap_places.specs.swizzle.Heap.{IsHeld, Stands};
ghost use Rattle.heap_places.specs.Places.{IsNear, NamesDamage, fit_damage};
ghost use Rattle.heap_places.specs.Filling.{AreNear};
ghost use Rattle.heap_ops.specs.Outcomes.{UnlessFault};
ghost use Rattle.heap_ops.specs.Vectors.{fitted, MakesVector, TellsLow, TellsHigh, GetsElement, SetsElement};
ghost use Rattle.heap_places.specs.obj_layout.Storing.{SameNumbers};

use crate::shape::{fit, index, is_vector, place, read_shape, upper};
use heap_places::filling::{make_filled, make_repeated};
use heap_places::heap_texts::fault::OpFault;
use heap_places::obj_layout::kind::Kind;
use heap_places::obj_layout::vault::Vault;
use heap_places::places::{damaged, find_misfit, read_place, write_place};
use heap_places::swizzle::fault::SwizzleFault;
use heap_places::swizzle::swizzle::Swizzle;
use heap_places::text_forms::forms::{Form, Place};
use heap_places::value::Value;
use ps_base::trap::Trap;

/// Makes a vector of a type, which is a text, whose elements from `low` to `high` all are `fill`. Trap Bounds exactly where `high` is below
/// `low` or there would be more than 1,048,576 elements. AreaFull exactly where there is no room for its words; then the area stays.
pub fn make_vector(
    sw: &mut Swizzle,
    ty: u32,
    low: i32,
    high: i32,
    fill: Value,
) -> Result<u32, OpFault>
    requires text { IsHeld sw.old ty }
    requires near { IsNear sw.old fill }
    ensures made { MakesVector sw.old sw.new ty low (replicate (count_from (high -ℤ low)) fill) (is_vector_of low (count_from (high -ℤ low))) result }
    ensures stands { Stands sw.old sw.new }
{
    let count = count_between(low, high);
    if !is_vector(low, count) {
        return Err(OpFault::Trap(Trap::Bounds));
    }
    match make_repeated(sw, Kind::Vector, ty, Some(low), count as u32, fill) {
        Ok(vector) => Ok(vector),
        Err(fault) => Err(OpFault::Swizzle(fault)),
    }
}

// How many elements lie between two bounds: none where the upper is below the lower one.
#[inline]
fn count_between(low: i32, high: i32) -> u64
    ensures { result ≡ count_from (high -ℤ low) }
{
    if high < low {
        return 0;
    }
    u64::from(high.abs_diff(low)) + 1
}

/// Makes a vector of a type, which is a text, of these elements from `low` on. Trap Bounds exactly where there are none or more than 1,048,576,
/// or the upper bound would pass 2,147,483,647.
pub fn make_list(sw: &mut Swizzle, ty: u32, low: i32, items: &[Value]) -> Result<u32, OpFault>
    requires text { IsHeld sw.old ty }
    requires near { AreNear sw.old items.now }
    ensures made { MakesVector sw.old sw.new ty low items.now (is_vector_of low (length items.now)) result }
    ensures stands { Stands sw.old sw.new }
{
    if !is_vector(low, items.len() as u64) {
        return Err(OpFault::Trap(Trap::Bounds));
    }
    match make_filled(sw, Kind::Vector, ty, Some(low), items) {
        Ok(vector) => Ok(vector),
        Err(fault) => Err(OpFault::Swizzle(fault)),
    }
}

/// The lower bound of a vector. Damaged exactly where the object is no vector of the shape of its type (`docs/formats.md`).
#[inline]
pub fn low<V: Vault>(sw: &mut Swizzle, vault: &mut V, vector: u32) -> Result<i32, SwizzleFault>
    requires alive { V.alive vault.old }
    requires held { IsHeld sw.old vector }
    ensures told { TellsLow sw.old sw.new (V.outside vault.old) (V.outside vault.new) vector result }
    ensures numbers { SameNumbers V.used_words V.directory_at V.most_words V.access vault.old vault.new }
    ensures alive { OnOk result (V.alive vault.new) }
{
    match read_shape(sw, vault, vector) {
        Ok(shape) => Ok(shape.low),
        Err(fault) => Err(fault),
    }
}

/// The upper bound of a vector. Damaged as `low` says.
#[inline]
pub fn high<V: Vault>(sw: &mut Swizzle, vault: &mut V, vector: u32) -> Result<i32, SwizzleFault>
    requires alive { V.alive vault.old }
    requires held { IsHeld sw.old vector }
    ensures told { TellsHigh sw.old sw.new (V.outside vault.old) (V.outside vault.new) vector result }
    ensures numbers { SameNumbers V.used_words V.directory_at V.most_words V.access vault.old vault.new }
    ensures alive { OnOk result (V.alive vault.new) }
{
    match read_shape(sw, vault, vector) {
        Ok(shape) => Ok(upper(shape.low, shape.count)),
        Err(fault) => Err(fault),
    }
}

/// The element of a vector at a subscript. Trap Bounds exactly where the subscript is outside the vector. Damaged as `low` says, and where the
/// element's word stands for no value of its form.
#[inline]
pub fn get_element<V: Vault>(
    sw: &mut Swizzle,
    vault: &mut V,
    vector: u32,
    at: i32,
) -> Result<Value, OpFault>
    requires alive { V.alive vault.old }
    requires held { IsHeld sw.old vector }
    ensures got { GetsElement sw.old sw.new (V.outside vault.old) (V.outside vault.new) vector at result }
    ensures numbers { SameNumbers V.used_words V.directory_at V.most_words V.access vault.old vault.new }
    ensures alive { UnlessFault result (V.alive vault.new) }
{
    let shape = match read_shape(sw, vault, vector) {
        Ok(shape) => shape,
        Err(fault) => return Err(OpFault::Swizzle(fault)),
    };
    let Some(number) = place(shape, at) else {
        return Err(OpFault::Trap(Trap::Bounds));
    };
    sw.sound();
    let place = Place {
        form: shape.form,
        index: index(shape.form, number),
    };
    match read_place(sw, vault, vector, place) {
        Ok(value) => Ok(value),
        Err(fault) => Err(OpFault::Swizzle(fault)),
    }
}

/// Writes the element of a vector at a subscript, and notes the vector as assigned. Trap Bounds exactly where the subscript is outside the vector.
/// Damaged as `low` says, and where the value belongs into the other row: an int may be put where bools are kept, and a bool among ints.
#[inline]
pub fn set_element<V: Vault>(
    sw: &mut Swizzle,
    vault: &mut V,
    vector: u32,
    at: i32,
    to: Value,
) -> Result<(), OpFault>
    requires alive { V.alive vault.old }
    requires held { IsHeld sw.old vector }
    requires near { IsNear sw.old to }
    ensures set { SetsElement sw.old sw.new (V.outside vault.old) (V.outside vault.new) vector at to result }
    ensures numbers { SameNumbers V.used_words V.directory_at V.most_words V.access vault.old vault.new }
    ensures alive { UnlessFault result (V.alive vault.new) }
    ensures stands { UnlessFault result (Stands sw.old sw.new) }
{
    let shape = match read_shape(sw, vault, vector) {
        Ok(shape) => shape,
        Err(fault) => return Err(OpFault::Swizzle(fault)),
    };
    let Some(number) = place(shape, at) else {
        return Err(OpFault::Trap(Trap::Bounds));
    };
    sw.sound();
    match fit(shape.form, to) {
        Some(stored) => {
            write_place(sw, vector, index(shape.form, number), stored);
            Ok(())
        }
        None => Err(OpFault::Swizzle(misfitting(sw, vector, shape.form, to))),
    }
}

/// The fault of an object into whose place of this form a value is put that belongs into the other row: found and wanted as `find_misfit` says.
pub fn misfitting(sw: &Swizzle, object: u32, form: Form, to: Value) -> SwizzleFault
    requires held { IsHeld sw.now object }
    requires none { fitted form to ≡ None }
    ensures { NamesDamage sw.now object (fit_damage form to) result }
{
    match find_misfit(form, to) {
        Some(misfit) => damaged(sw, object, misfit.found, misfit.wanted),
        None => unreachable!(),
    }
}
