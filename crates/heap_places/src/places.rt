ghost use Rattle.std.specs.Prelude.{◌≡◌, ◌<◌, length, MatchResult, OnOk};
ghost use Rattle.heap_texts.specs.swizzle.Heap.{IsHeld, Stands, header_at};
ghost use Rattle.heap_texts.specs.swizzle.Joint.{shown_at};
ghost use Rattle.heap_places.specs.Places.{HasPlace, HasRow, Holds, IsNear, NamesDamage, ReadsPlace, assigned_value, fit_damage, misfit_view, with_value};
ghost use Rattle.heap_places.specs.Shapes.{word_in};
ghost use Rattle.heap_places.specs.Words.{word_damage};
ghost use Rattle.heap_texts.specs.obj_layout.Storing.{SameNumbers};

use crate::value::Value;
use crate::words::{flag_of_word, int_of_word, word_of_flag, word_of_int};
use heap_texts::obj_layout::vault::{Vault, VaultFault};
use heap_texts::swizzle::fault::SwizzleFault;
use heap_texts::swizzle::swizzle::Swizzle;
use heap_texts::text_forms::forms::{Form, Place};

/// What was tested and didn't hold: a number, and its bound.
#[derive(Clone, Copy, PartialEq, Eq, Debug)]
pub struct Misfit {
    pub found: u64,
    pub wanted: u64,
}

// One more than the greatest int, and one more than the word of `true`.
const INT_BOUND: u64 = 1 << 31;

const FLAG_BOUND: u64 = 2;

/// The fault of an object that is damaged so, at its PID.
pub fn damaged(sw: &Swizzle, object: u32, found: u64, wanted: u64) -> SwizzleFault
    requires { IsHeld sw.now object }
    ensures { result ≡ SwizzleFault.Vault (VaultFault.Damaged (header_at sw.now object).pid found wanted) }
{
    SwizzleFault::Vault(VaultFault::Damaged {
        at: sw.pid(object),
        found,
        wanted,
    })
}

/// The value in a place of an object; its index is that of the word or of the reference in the object. A referred object is fetched where it
/// isn't in the area. Damaged, at the object's PID, exactly where the word stands for no value of the form.
#[inline]
pub fn read_place<V: Vault>(
    sw: &mut Swizzle,
    vault: &mut V,
    object: u32,
    place: Place,
) -> Result<Value, SwizzleFault>
    requires alive { V.alive vault.old }
    requires held { IsHeld sw.old object }
    requires place { HasPlace (shown_at sw.old object) place.form place.index }
    ensures read { ReadsPlace sw.old sw.new (V.outside vault.old) (V.outside vault.new) object place.form place.index result }
    ensures numbers { SameNumbers V.used_words V.directory_at V.most_words V.access vault.old vault.new }
    ensures alive { OnOk result (V.alive vault.new) }
{
    sw.sound();
    match place.form {
        Form::Number => read_int(sw, object, place.index),
        Form::Flag => read_flag(sw, object, place.index),
        Form::Reference => match sw.touch_slot(vault, object, place.index) {
            Ok(to) => Ok(Value::Ref(to)),
            Err(fault) => Err(fault),
        },
    }
}

// The int in a number word.
#[inline]
#[tactic(auto, using(crate::proofs::PlaceLaws::nums_below), unfolding(crate::specs::Words::word_damage))]
fn read_int(sw: &Swizzle, object: u32, index: u32) -> Result<Value, SwizzleFault>
    requires held { IsHeld sw.now object }
    requires place { index < length (shown_at sw.now object).nums }
    ensures { MatchResult result
        (Holds sw.now (shown_at sw.now object) Form.Number index)
        (NamesDamage sw.now object (word_damage Form.Number (word_in (shown_at sw.now object) index))) }
{
    sw.sound();
    let word = sw.num(object, index);
    match int_of_word(word) {
        Some(value) => Ok(Value::Num(value)),
        None => Err(damaged(sw, object, word, INT_BOUND)),
    }
}

// The bool in a number word.
#[inline]
#[tactic(auto, using(crate::proofs::PlaceLaws::nums_below), unfolding(crate::specs::Words::word_damage))]
fn read_flag(sw: &Swizzle, object: u32, index: u32) -> Result<Value, SwizzleFault>
    requires held { IsHeld sw.now object }
    requires place { index < length (shown_at sw.now object).nums }
    ensures { MatchResult result
        (Holds sw.now (shown_at sw.now object) Form.Flag index)
        (NamesDamage sw.now object (word_damage Form.Flag (word_in (shown_at sw.now object) index))) }
{
    sw.sound();
    let word = sw.num(object, index);
    match flag_of_word(word) {
        Some(value) => Ok(Value::Flag(value)),
        None => Err(damaged(sw, object, word, FLAG_BOUND)),
    }
}

/// Writes a value to the place at this index of its row, and notes the object as assigned.
#[inline]
pub fn write_place(sw: &mut Swizzle, object: u32, index: u32, to: Value)
    requires held { IsHeld sw.old object }
    requires place { HasRow (shown_at sw.old object) index to }
    requires near { IsNear sw.old to }
    ensures written { sw.new ≡ assigned_value sw.old object index to }
    ensures stands { Stands sw.old sw.new }
{
    lay_value(sw, object, index, to);
    sw.mark(object);
}

/// Writes a value to the place at this index of its row.
#[inline]
#[tactic(auto, using(crate::proofs::PlaceLaws::nums_below, crate::proofs::PlaceLaws::refs_below))]
pub fn lay_value(sw: &mut Swizzle, object: u32, index: u32, to: Value)
    requires held { IsHeld sw.old object }
    requires place { HasRow (shown_at sw.old object) index to }
    requires near { IsNear sw.old to }
    ensures laid { sw.new ≡ with_value sw.old object index to }
    ensures stands { Stands sw.old sw.new }
{
    sw.sound();
    match to {
        Value::Num(value) => sw.set_num(object, index, word_of_int(value)),
        Value::Flag(value) => sw.set_num(object, index, word_of_flag(value)),
        Value::Ref(to) => sw.set_ref(object, index, to),
    }
}

/// What is wrong with a value for a place of a form, as two numbers; None exactly where it may stand there.
#[inline]
#[tactic(auto, unfolding(crate::specs::Places::fit_damage))]
pub fn find_misfit(form: Form, value: Value) -> Option<Misfit>
    ensures { misfit_view result ≡ fit_damage form value }
{
    match (form, value) {
        (Form::Reference, Value::Ref(_)) => None,
        (Form::Reference, _) => Some(Misfit {
            found: 0,
            wanted: 1,
        }),
        (_, Value::Ref(_)) => Some(Misfit {
            found: 1,
            wanted: 0,
        }),
        (_, Value::Num(value)) => misfit_of_word(form, word_of_int(value)),
        (_, Value::Flag(value)) => misfit_of_word(form, word_of_flag(value)),
    }
}

// What is wrong with a word for a place of a form.
#[inline]
#[tactic(auto, unfolding(crate::specs::Words::word_damage))]
fn misfit_of_word(form: Form, word: u64) -> Option<Misfit>
    ensures { misfit_view result ≡ word_damage form word }
{
    match form {
        Form::Number => match int_of_word(word) {
            Some(_) => None,
            None => Some(Misfit {
                found: word,
                wanted: INT_BOUND,
            }),
        },
        Form::Flag => match flag_of_word(word) {
            Some(_) => None,
            None => Some(Misfit {
                found: word,
                wanted: FLAG_BOUND,
            }),
        },
        Form::Reference => None,
    }
}
