//! Places of objects that are looked at without a fetch.
ghost use Rattle.std.specs.Prelude.{◌≡◌, ◌<◌, ◌+◌, ◌^◌, ℕ, true, IfSome};
ghost use Rattle.joint_ops.specs.swizzle.Heap.{IsHeld};
ghost use Rattle.joint_ops.specs.swizzle.Joint.{shown_at};
ghost use Rattle.joint_ops.specs.heap_places.Places.{HasPlace, Holds};

use joint_ops::Value;
use joint_ops::heap_places::words::{flag_of_word, int_of_word};
use joint_ops::obj_layout::reference::Reference;
use joint_ops::swizzle::swizzle::Swizzle;
use joint_ops::text_forms::forms::{Form, Place};

// How many places an object has in the row of a form.
#[inline(always)]
fn count_in_row(sw: &Swizzle, object: u32, form: Form) -> u32
    requires { IsHeld sw.now object }
    ensures { (index : ℕ) → index < result → HasPlace (shown_at sw.now object) form index }
{
    sw.sound();
    match form {
        Form::Reference => sw.refs(object),
        Form::Number => sw.nums(object),
        Form::Flag => sw.nums(object),
    }
}

/// Whether an object has the place of a field, before which one other stands in its row. Of an object whose class isn't read it isn't known otherwise.
#[inline(always)]
pub(crate) fn has_field(sw: &Swizzle, object: u32, place: Place) -> bool
    requires { IsHeld sw.now object }
    ensures place { result ≡ true → HasPlace (shown_at sw.now object) place.form (place.index + 1) }
    ensures small { result ≡ true → place.index + 1 < 2 ^ 32 }
{
    let count = count_in_row(sw, object, place.form);
    if count == 0 {
        return false;
    }
    place.index < count - 1
}

/// The value in a place of an object, where it stands in the area.
#[inline(always)]
pub(crate) fn peek_place(sw: &Swizzle, object: u32, place: Place) -> Option<Value>
    requires held { IsHeld sw.now object }
    requires place { HasPlace (shown_at sw.now object) place.form place.index }
    ensures { IfSome result (Holds sw.now (shown_at sw.now object) place.form place.index) }
{
    sw.sound();
    match place.form {
        Form::Number => match int_of_word(sw.num(object, place.index)) {
            Some(value) => Some(Value::Num(value)),
            None => None,
        },
        Form::Flag => match flag_of_word(sw.num(object, place.index)) {
            Some(value) => Some(Value::Flag(value)),
            None => None,
        },
        Form::Reference => match sw.peek(object, place.index) {
            Reference::Nil => Some(Value::Ref(None)),
            Reference::Local(at) => Some(Value::Ref(Some(at))),
            Reference::Pid(_) => None,
        },
    }
}
