//! The shape of a vector, as it is read of its object.
ghost use Rattle.std.specs.Prelude.{◌≡◌, ◌+ℤ◌, ◌-ℤ◌, ◌+◌, ◌<◌, ◌^◌, pos, true, false, if◌then◌else◌, length, IfOk, OnOk, Some, None};
ghost use Rattle.heap_places.specs.ps_heap.Objects.{is_vector as is_vector_of, place_of};
ghost use Rattle.heap_places.specs.ps_heap.Operators.{is_int};
ghost use Rattle.heap_places.specs.swizzle.Heap.{IsHeld};
ghost use Rattle.heap_places.specs.swizzle.Joint.{shown_at};
ghost use Rattle.heap_places.specs.text_forms.Forms.{is_number_form};
ghost use Rattle.heap_places.specs.Shapes.{word_in};
ghost use Rattle.heap_ops.specs.Vectors.{count_of, index_of, fitted, FindsShape, HasType, ReadsShape};
ghost use Rattle.heap_places.specs.obj_layout.Storing.{SameNumbers};

use heap_places::obj_layout::kind::Kind;
use heap_places::obj_layout::vault::Vault;
use heap_places::places::{Misfit, damaged};
use heap_places::swizzle::fault::SwizzleFault;
use heap_places::swizzle::swizzle::Swizzle;
use heap_places::text_forms::forms::{Form, element_form};
use heap_places::texts::first_text;
use heap_places::value::Value;
use heap_places::words::int_of_word;

const MOST_ELEMENTS: u64 = 1 << 20;

// One more than the greatest int.
const INT_BOUND: u64 = 1 << 31;

/// What a vector was found to be: the form of its elements, its lower bound, and how many elements it has.
#[derive(Clone, Copy)]
pub struct Shape {
    pub form: Form,
    pub low: i32,
    pub count: u32,
}

/// Whether a form is one of number words.
#[inline]
pub fn is_number(form: Form) -> bool
    ensures { result ≡ is_number_form form }
{
    match form {
        Form::Number | Form::Flag => true,
        Form::Reference => false,
    }
}

/// Whether a vector may have this lower bound and so many elements.
#[inline]
pub(crate) fn is_vector(low: i32, count: u64) -> bool
    ensures { result ≡ is_vector_of low count }
{
    if count == 0 {
        return false;
    }
    let last = count - 1;
    last < MOST_ELEMENTS && ends_in_ints(low, last as u32)
}

// Whether the sum is an int.
#[inline]
fn ends_in_ints(low: i32, last: u32) -> bool
    requires { last < 2 ^ 20 }
    ensures { result ≡ is_int (low +ℤ pos last) }
{
    low.checked_add(last.cast_signed()).is_some()
}

/// The place of a subscript, from 0; None where it is outside.
#[inline]
pub fn place(shape: Shape, at: i32) -> Option<u32>
    ensures { result ≡ place_of shape.low shape.count at }
{
    if at < shape.low {
        return None;
    }
    let place = at.abs_diff(shape.low);
    if place < shape.count {
        Some(place)
    } else {
        None
    }
}

// How long the row is that holds no elements.
#[inline]
fn rest_of(sw: &Swizzle, vector: u32, number: bool) -> u32
    requires { IsHeld sw.now vector }
    ensures { result ≡ (if number then length (shown_at sw.now vector).refs else length (shown_at sw.now vector).nums) }
{
    sw.sound();
    if number {
        sw.refs(vector)
    } else {
        sw.nums(vector)
    }
}

// How long it should be.
#[inline]
fn rest_wanted(number: bool) -> u32
    ensures { result ≡ (if number then 1 else 2) }
{
    if number { 1 } else { 2 }
}

// How many elements there are.
#[inline]
fn count(sw: &Swizzle, vector: u32, form: Form) -> u32
    requires { IsHeld sw.now vector }
    ensures { result ≡ count_of (shown_at sw.now vector) form }
{
    sw.sound();
    if is_number(form) {
        sw.nums(vector).saturating_sub(2)
    } else {
        sw.refs(vector).saturating_sub(1)
    }
}

// The word of the lower bound, 0 where there is none.
#[inline]
fn lower_word(sw: &Swizzle, vector: u32) -> u64
    requires { IsHeld sw.now vector }
    ensures { result ≡ word_in (shown_at sw.now vector) 1 }
{
    sw.sound();
    if sw.nums(vector) < 2 {
        return 0;
    }
    sw.num(vector, 1)
}

// The shape of an object as a vector of elements of this form.
#[inline]
fn find_shape(sw: &Swizzle, vector: u32, form: Form) -> Result<Shape, Misfit>
    requires { IsHeld sw.now vector }
    ensures { FindsShape (shown_at sw.now vector) form result }
{
    let number = is_number(form);
    let rest = rest_of(sw, vector, number);
    let wanted = rest_wanted(number);
    if rest != wanted {
        return Err(Misfit {
            found: u64::from(rest),
            wanted: u64::from(wanted),
        });
    }
    let word = lower_word(sw, vector);
    let Some(low) = int_of_word(word) else {
        return Err(Misfit {
            found: word,
            wanted: INT_BOUND,
        });
    };
    let count = count(sw, vector, form);
    if !is_vector(low, u64::from(count)) {
        return Err(Misfit {
            found: u64::from(count),
            wanted: MOST_ELEMENTS,
        });
    }
    Ok(Shape { form, low, count })
}

/// Reads the shape of a vector by the text of its type. Damaged where the object is no vector, what it refers to first is no text, or it hasn't
/// the shape of its type.
#[inline]
pub fn read_shape<V: Vault>(
    sw: &mut Swizzle,
    vault: &mut V,
    vector: u32,
) -> Result<Shape, SwizzleFault>
    requires alive { V.alive vault.old }
    requires held { IsHeld sw.old vector }
    ensures read { ReadsShape sw.old sw.new (V.outside vault.old) (V.outside vault.new) vector result }
    ensures typed { IfOk result (λ shape. HasType sw.new vector shape.form) }
    ensures numbers { SameNumbers V.used_words V.directory_at V.most_words V.access vault.old vault.new }
    ensures alive { OnOk result (V.alive vault.new) }
{
    if !sw.is_kind(vector, Kind::Vector) {
        let number = sw.header(vector).kind.number();
        return Err(damaged(sw, vector, u64::from(number), 3));
    }
    let text = match first_text(sw, vault, vector) {
        Ok(text) => text,
        Err(fault) => return Err(fault),
    };
    sw.sound();
    let form = element_form(sw.text(text));
    match find_shape(sw, vector, form) {
        Ok(shape) => Ok(shape),
        Err(misfit) => Err(damaged(sw, vector, misfit.found, misfit.wanted)),
    }
}

/// The upper bound of a vector that has this lower bound and so many elements.
#[inline]
pub(crate) fn upper(low: i32, count: u32) -> i32
    requires { is_vector_of low count ≡ true }
    ensures { result ≡ low +ℤ (pos count -ℤ pos 1) }
{
    let last = count - 1;
    match low.checked_add(last.cast_signed()) {
        Some(high) => high,
        None => unreachable!(),
    }
}

/// The index of an element in its row: two number words stand before the elements, or one reference.
#[inline]
pub fn index(form: Form, place: u32) -> u32
    requires { place < 2 ^ 20 }
    ensures { result ≡ index_of form place }
{
    if is_number(form) {
        2 + place
    } else {
        1 + place
    }
}

/// A value as an element of a form holds it; None exactly where it belongs into the other row.
#[inline]
#[tactic(auto, unfolding(crate::specs::Vectors::fitted))]
pub fn fit(form: Form, value: Value) -> Option<Value>
    ensures { result ≡ fitted form value }
{
    match (form, value) {
        (Form::Number, Value::Num(_)) => Some(value),
        (Form::Number, Value::Flag(flag)) => Some(Value::Num(i32::from(flag))),
        (Form::Flag, Value::Num(number)) => Some(Value::Flag(number > 0)),
        (Form::Flag, Value::Flag(_)) => Some(value),
        (Form::Reference, Value::Ref(_)) => Some(value),
        _ => None,
    }
}
