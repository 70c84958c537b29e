//! Fields of structures.
ghost use Rattle.std.specs.Prelude.{◌≡◌, ◌+◌, ◌<◌, ◌^◌, ℕ, List, IfOk, IfSome, MatchOption, Some};
ghost use Rattle.joint_ops.specs.obj_layout.declared.reference.Reference.{Reference};
ghost use Rattle.joint_ops.specs.obj_layout.Storing.{SameNumbers};
ghost use Rattle.joint_ops.specs.swizzle.Heap.{IsHeld, Stands as AllStand};
ghost use Rattle.joint_ops.specs.swizzle.Reading.{LeavesOutside};
ghost use Rattle.joint_ops.specs.swizzle.Touch.{Keeps};
ghost use Rattle.joint_ops.specs.text_forms.Forms.{forms_of, located_in};
ghost use Rattle.joint_ops.specs.text_forms.declared.forms.Located as declared;
ghost use Rattle.joint_ops.specs.heap_places.Places.{IsNear};
ghost use Rattle.joint_ops.specs.heap_ops.Outcomes.{UnlessFault};
ghost use Rattle.joint_ops.specs.ps_heap.Objects as meaning;
ghost use Rattle.joint_ops.specs.ps_heap.Objects.{kept_as};
ghost use Rattle.joint_ops.specs.ps_heap.Values as meant;
ghost use Rattle.joint_ops.specs.World.{IsWorld, DenotesIn, IsForIn, IsOfForm, Answers, Writes, BreaksAsReading};
ghost use Rattle.objects.specs.Classes.{NamesClass, LacksField, BreaksByCode};
ghost use Rattle.objects.specs.Fields.{AreSo, HasReached, IsReached};
ghost use Rattle.objects.specs.Known.{IsRight};
ghost use Rattle.objects.specs.Putting.{IsOfRow, kept_in, LacksPlace, NotesWritten, IsPut};

use super::Objects;
use crate::classes::{class_at, no_field};
use crate::known::Known;
use crate::known_fields::{KnownField, KnownFields, class_of};
use crate::places::{has_field, peek_place};
use joint_ops::heap_places::places::write_place;
use joint_ops::obj_layout::vault::Vault;
use joint_ops::swizzle::swizzle::Swizzle;
use joint_ops::text_forms::forms::{Form, Place};
use joint_ops::{OpFault, Value, structures};

impl Objects {
    /// The value of a field of what a value denotes: the field of this number of the class whose text is the constant of this number of a code object.
    /// Trap Nil for nil, WrongClass for an object of another class. Where the class has no such field, the code object is damaged. What isn't in the
    /// area is fetched.
    #[inline(always)]
    pub fn get_field<V: Vault>(
        &mut self,
        vault: &mut V,
        object: Option<u32>,
        code: u32,
        constant: u32,
        field: u32,
    ) -> Result<Value, OpFault>
        requires alive { V.alive vault.old }
        requires held { IfSome object (IsHeld self.old) }
        requires code { IsHeld self.old code }
        ensures got { (of : meaning.Heap) (names : List Reference) (class : List ℕ) (located : declared.Located) (o : meant.Value)
            → IsWorld self.old (V.outside vault.old) of names → NamesClass self.old (V.outside vault.old) code constant class
            → located_in (forms_of class) field ≡ Some located → DenotesIn self.old (V.outside vault.old) names object o
            → Answers self.old self.new (V.outside vault.old) (V.outside vault.new)
            (λ c v. IsOfForm located.place.form c × IsForIn self.new (V.outside vault.new) names c v) of names (meaning.field_of of o class field) result }
        ensures damaged { LacksField self.old (V.outside vault.old) code constant field
            → BreaksByCode self.old self.new (V.outside vault.old) (V.outside vault.new) code result }
        ensures near { IfOk result (IsNear self.new) }
        ensures keeps { UnlessFault result (Keeps self.old self.new) }
        ensures fails { BreaksAsReading (V.outside vault.old) (V.outside vault.new) result }
        ensures leaves { LeavesOutside (V.outside vault.old) (V.outside vault.new) }
        ensures numbers { SameNumbers V.used_words V.directory_at V.most_words V.access vault.old vault.new }
        ensures alive { UnlessFault result (V.alive vault.new) }
    {
        self.sw.sound();
        match value_at(&self.known.fields, &self.sw, code, constant, field, object) {
            Some(value) => Ok(value),
            None => read_field(
                &mut self.sw,
                &mut self.known,
                vault,
                object,
                code,
                constant,
                field,
            ),
        }
    }

    /// Writes a field of what a value denotes, as the field keeps it, and notes its object as assigned. The field and the traps are those of `get_field`.
    /// Where the class has no such field, or it lies in the other row, the code object is damaged. What isn't in the area is fetched.
    #[inline(always)]
    pub fn set_field<V: Vault>(
        &mut self,
        vault: &mut V,
        object: Option<u32>,
        code: u32,
        constant: u32,
        field: u32,
        to: Value,
    ) -> Result<(), OpFault>
        requires alive { V.alive vault.old }
        requires held { IfSome object (IsHeld self.old) }
        requires code { IsHeld self.old code }
        requires near { IsNear self.old to }
        ensures set { (of : meaning.Heap) (names : List Reference) (class : List ℕ) (located : declared.Located) (o v : meant.Value)
            → IsWorld self.old (V.outside vault.old) of names → NamesClass self.old (V.outside vault.old) code constant class
            → located_in (forms_of class) field ≡ Some located → IsOfRow located.place.form to
            → DenotesIn self.old (V.outside vault.old) names object o → IsForIn self.old (V.outside vault.old) names to v
            → Writes self.old self.new (V.outside vault.old) (V.outside vault.new) o of names (meaning.with_field of o class field (kept_as (Some located.place.form) v)) result }
        ensures damaged { LacksPlace self.old (V.outside vault.old) code constant field to
            → BreaksByCode self.old self.new (V.outside vault.old) (V.outside vault.new) code result }
        ensures notes { NotesWritten self.old self.new object result }
        ensures stands { UnlessFault result (AllStand self.old self.new) }
        ensures size { UnlessFault result (self.new.size ≡ self.old.size) }
        ensures fails { BreaksAsReading (V.outside vault.old) (V.outside vault.new) result }
        ensures leaves { LeavesOutside (V.outside vault.old) (V.outside vault.new) }
        ensures numbers { SameNumbers V.used_words V.directory_at V.most_words V.access vault.old vault.new }
        ensures alive { UnlessFault result (V.alive vault.new) }
    {
        self.sw.sound();
        match find_put(
            &self.known.fields,
            &self.sw,
            code,
            constant,
            field,
            object,
            to,
        ) {
            Some(put) => {
                write_place(&mut self.sw, put.object, put.index, put.value);
                self.sw.sound();
                Ok(())
            }
            None => write_field(
                &mut self.sw,
                &mut self.known,
                vault,
                object,
                code,
                constant,
                field,
                to,
            ),
        }
    }
}

// What is known of a field of a structure, where it is reached by that.
#[inline(always)]
fn reached<'a>(
    fields: &'a KnownFields,
    sw: &Swizzle,
    code: u32,
    constant: u32,
    field: u32,
    object: u32,
) -> Option<&'a KnownField>
    requires held { IsHeld sw.now object }
    requires so { AreSo sw.now fields.now.entries.items }
    ensures reached { IfSome result (λ known. IsReached sw.now code constant field object known.now) }
    ensures small { IfSome result (λ known. known.now.located.place.index + 1 < 2 ^ 32) }
{
    sw.sound();
    let Some(text) = class_of(sw, object) else {
        return None;
    };
    let Some(known) = fields.entry(code, constant, field, text) else {
        return None;
    };
    if !has_field(sw, object, known.located.place) {
        return None;
    }
    Some(known)
}

// The value of a field that is reached by what is known of it, where it stands in the area.
#[inline(always)]
fn value_at(
    fields: &KnownFields,
    sw: &Swizzle,
    code: u32,
    constant: u32,
    field: u32,
    object: Option<u32>,
) -> Option<Value>
    requires held { IfSome object (IsHeld sw.now) }
    requires so { AreSo sw.now fields.now.entries.items }
    ensures { IfSome result (HasReached sw.now code constant field object) }
{
    let Some(at) = object else {
        return None;
    };
    let Some(known) = reached(fields, sw, code, constant, field, at) else {
        return None;
    };
    let place = Place {
        form: known.located.place.form,
        index: known.located.place.index + 1,
    };
    peek_place(sw, at, place)
}

// The value of a field, whatever is known of it, which is known then.
#[inline(never)]
fn read_field<V: Vault>(
    sw: &mut Swizzle,
    known: &mut Known,
    vault: &mut V,
    object: Option<u32>,
    code: u32,
    constant: u32,
    field: u32,
) -> Result<Value, OpFault>
    requires alive { V.alive vault.old }
    requires held { IfSome object (IsHeld sw.old) }
    requires code { IsHeld sw.old code }
    requires right { IsRight sw.old known.old }
    ensures got { (of : meaning.Heap) (names : List Reference) (class : List ℕ) (located : declared.Located) (o : meant.Value)
        → IsWorld sw.old (V.outside vault.old) of names → NamesClass sw.old (V.outside vault.old) code constant class
        → located_in (forms_of class) field ≡ Some located → DenotesIn sw.old (V.outside vault.old) names object o
        → Answers sw.old sw.new (V.outside vault.old) (V.outside vault.new)
        (λ c v. IsOfForm located.place.form c × IsForIn sw.new (V.outside vault.new) names c v) of names (meaning.field_of of o class field) result }
    ensures damaged { LacksField sw.old (V.outside vault.old) code constant field
        → BreaksByCode sw.old sw.new (V.outside vault.old) (V.outside vault.new) code result }
    ensures near { IfOk result (IsNear sw.new) }
    ensures keeps { UnlessFault result (Keeps sw.old sw.new) }
    ensures fails { BreaksAsReading (V.outside vault.old) (V.outside vault.new) result }
    ensures leaves { LeavesOutside (V.outside vault.old) (V.outside vault.new) }
    ensures numbers { SameNumbers V.used_words V.directory_at V.most_words V.access vault.old vault.new }
    ensures alive { UnlessFault result (V.alive vault.new) }
    ensures right { IsRight sw.new known.new }
{
    let class = match class_at(sw, vault, code, constant) {
        Ok(class) => class,
        Err(fault) => {
            known.clear();
            return Err(OpFault::Swizzle(fault));
        }
    };
    sw.sound();
    let Some(located) = known.layouts.locate(sw, class, field) else {
        return Err(OpFault::Swizzle(no_field(sw, code, class, field)));
    };
    let got = structures::get_field(sw, vault, object, class, located);
    match got {
        Ok(value) => {
            known.fields.learn(sw, code, constant, field, object);
            Ok(value)
        }
        Err(fault) => Err(known.keep(fault)),
    }
}

/// Where a value is put, and as what.
#[derive(Clone, Copy)]
struct Put {
    object: u32,
    index: u32,
    value: Value,
}

// Where a value is put into a field that is reached by what is known of it.
#[inline(always)]
fn find_put(
    fields: &KnownFields,
    sw: &Swizzle,
    code: u32,
    constant: u32,
    field: u32,
    object: Option<u32>,
    to: Value,
) -> Option<Put>
    requires held { IfSome object (IsHeld sw.now) }
    requires so { AreSo sw.now fields.now.entries.items }
    ensures { IfSome result (IsPut sw.now code constant field object to) }
{
    let Some(at) = object else {
        return None;
    };
    let Some(known) = reached(fields, sw, code, constant, field, at) else {
        return None;
    };
    let Some(value) = kept(known.located.place.form, to) else {
        return None;
    };
    Some(Put {
        object: at,
        index: known.located.place.index + 1,
        value,
    })
}

// A value as a place of a form keeps it; None exactly where it belongs into the other row.
#[inline(always)]
fn kept(form: Form, to: Value) -> Option<Value>
    ensures { MatchOption result (IsOfRow form to → ⊥) (λ value. IsOfRow form to × IsOfForm form value × (value ≡ kept_in form to)) }
{
    match to {
        Value::Num(z) => kept_number(form, z),
        Value::Flag(flag) => kept_flag(form, flag),
        Value::Ref(to) => match form {
            Form::Reference => Some(Value::Ref(to)),
            _ => None,
        },
    }
}

// An int as a place of a form keeps it.
#[inline(always)]
fn kept_number(form: Form, z: i32) -> Option<Value>
    ensures { MatchOption result (IsOfRow form (Value.Num z) → ⊥) (λ value. IsOfRow form (Value.Num z) × IsOfForm form value × (value ≡ kept_in form (Value.Num z))) }
{
    match form {
        Form::Number => Some(Value::Num(z)),
        Form::Flag => Some(Value::Flag(z > 0)),
        Form::Reference => None,
    }
}

// A bool as a place of a form keeps it.
#[inline(always)]
fn kept_flag(form: Form, flag: bool) -> Option<Value>
    ensures { MatchOption result (IsOfRow form (Value.Flag flag) → ⊥) (λ value. IsOfRow form (Value.Flag flag) × IsOfForm form value × (value ≡ kept_in form (Value.Flag flag))) }
{
    match form {
        Form::Number => Some(Value::Num(i32::from(flag))),
        Form::Flag => Some(Value::Flag(flag)),
        Form::Reference => None,
    }
}

// Writes a field, whatever is known of it, which is known then.
#[inline(never)]
fn write_field<V: Vault>(
    sw: &mut Swizzle,
    known: &mut Known,
    vault: &mut V,
    object: Option<u32>,
    code: u32,
    constant: u32,
    field: u32,
    to: Value,
) -> Result<(), OpFault>
    requires alive { V.alive vault.old }
    requires held { IfSome object (IsHeld sw.old) }
    requires code { IsHeld sw.old code }
    requires near { IsNear sw.old to }
    requires right { IsRight sw.old known.old }
    ensures set { (of : meaning.Heap) (names : List Reference) (class : List ℕ) (located : declared.Located) (o v : meant.Value)
        → IsWorld sw.old (V.outside vault.old) of names → NamesClass sw.old (V.outside vault.old) code constant class
        → located_in (forms_of class) field ≡ Some located → IsOfRow located.place.form to
        → DenotesIn sw.old (V.outside vault.old) names object o → IsForIn sw.old (V.outside vault.old) names to v
        → Writes sw.old sw.new (V.outside vault.old) (V.outside vault.new) o of names (meaning.with_field of o class field (kept_as (Some located.place.form) v)) result }
    ensures damaged { LacksPlace sw.old (V.outside vault.old) code constant field to
        → BreaksByCode sw.old sw.new (V.outside vault.old) (V.outside vault.new) code result }
    ensures notes { NotesWritten sw.old sw.new object result }
    ensures stands { UnlessFault result (AllStand sw.old sw.new) }
    ensures size { UnlessFault result (sw.new.size ≡ sw.old.size) }
    ensures fails { BreaksAsReading (V.outside vault.old) (V.outside vault.new) result }
    ensures leaves { LeavesOutside (V.outside vault.old) (V.outside vault.new) }
    ensures numbers { SameNumbers V.used_words V.directory_at V.most_words V.access vault.old vault.new }
    ensures alive { UnlessFault result (V.alive vault.new) }
    ensures right { IsRight sw.new known.new }
{
    let class = match class_at(sw, vault, code, constant) {
        Ok(class) => class,
        Err(fault) => {
            known.clear();
            return Err(OpFault::Swizzle(fault));
        }
    };
    sw.sound();
    let Some(located) = known.layouts.locate(sw, class, field) else {
        return Err(OpFault::Swizzle(no_field(sw, code, class, field)));
    };
    let Some(value) = kept(located.place.form, to) else {
        return Err(OpFault::Swizzle(no_field(sw, code, class, field)));
    };
    let set = structures::set_field(sw, vault, object, class, located, value);
    match set {
        Ok(()) => {
            known.fields.learn(sw, code, constant, field, object);
            Ok(())
        }
        Err(fault) => Err(known.keep(fault)),
    }
}
