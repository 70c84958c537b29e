//! The operators on vectors. An element that is reached by what is known of its vector is read and written here; for others the vector is read, and known
//! from then on.
ghost use Rattle.std.specs.Prelude.{◌≡◌, ◌<◌, ℕ, ℤ, Bool, List, length, replicate, IfOk, IfSome, Some};
ghost use Rattle.joint_ops.specs.obj_layout.declared.reference.Reference.{Reference};
ghost use Rattle.joint_ops.specs.obj_layout.Storing.{SameNumbers};
ghost use Rattle.joint_ops.specs.swizzle.Heap.{Heap, IsHeld, Stands as AllStand, header_at, with_mark, with_num};
ghost use Rattle.joint_ops.specs.swizzle.Reading.{LeavesOutside};
ghost use Rattle.joint_ops.specs.swizzle.Touch.{Keeps};
ghost use Rattle.joint_ops.specs.text_forms.Forms.{element_of};
ghost use Rattle.joint_ops.specs.heap_places.Places.{IsNear, assigned_value};
ghost use Rattle.joint_ops.specs.heap_places.Words.{flag_in, int_in};
ghost use Rattle.joint_ops.specs.heap_places.Filling.{AreNear};
ghost use Rattle.joint_ops.specs.heap_places.declared.value.Value as declared;
ghost use Rattle.joint_ops.specs.heap_ops.Outcomes.{UnlessFault};
ghost use Rattle.joint_ops.specs.heap_ops.Vectors.{SetsElement, fitted, index_of};
ghost use Rattle.joint_ops.specs.ps_heap.Objects as meaning;
ghost use Rattle.joint_ops.specs.ps_heap.Texts.{Yields};
ghost use Rattle.joint_ops.specs.ps_heap.Values as meant;
ghost use Rattle.joint_ops.specs.ps_heap.Values.{number_of};
ghost use Rattle.joint_ops.specs.World.{IsWorld, DenotesIn, IsForIn, IsOfForm, Answers, Writes, BreaksAsReading};
ghost use Rattle.joint_ops.specs.Operands.{AreForIn, form_in};
ghost use Rattle.joint_ops.specs.Made.{Makes, BreaksAsMaking};
ghost use Rattle.joint_procedures.specs.Scopes.{IsInt};
ghost use Rattle.objects.specs.Known.{IsRight};
ghost use Rattle.objects.specs.Vectors.{AreSo, CanPut, HasElement, HasNumber, IsNumber, IsPut};

use super::Objects;
use crate::known::Known;
use crate::known_vectors::{KnownVectors, Reached};
use joint_ops::heap_ops::shape::fit;
use joint_ops::heap_places::places::write_place;
use joint_ops::heap_places::words::{flag_of_word, int_of_word, word_of_flag, word_of_int};
use joint_ops::obj_layout::reference::Reference;
use joint_ops::obj_layout::vault::Vault;
use joint_ops::swizzle::swizzle::Swizzle;
use joint_ops::text_forms::forms::Form;
use joint_ops::{OpFault, Value, vectors};

// One more than the greatest half of a word.
const HALF: u64 = 1 << 32;

impl Objects {
    /// The element of a vector at a subscript. Trap Bounds exactly where the subscript is outside the vector. What isn't in the area is fetched.
    #[inline(always)]
    pub fn get_element<V: Vault>(
        &mut self,
        vault: &mut V,
        vector: u32,
        at: i32,
    ) -> Result<Value, OpFault>
        requires alive { V.alive vault.old }
        requires held { IsHeld self.old vector }
        ensures got { (of : meaning.Heap) (names : List Reference) (id : ℕ) → IsWorld self.old (V.outside vault.old) of names
            → DenotesIn self.old (V.outside vault.old) names (Some vector) (meant.Vector id)
            → Answers self.old self.new (V.outside vault.old) (V.outside vault.new)
            (λ c v. IsOfForm (form_in of id) c × IsForIn self.new (V.outside vault.new) names c v) of names (meaning.element_of of (meant.Vector id) at) result }
        ensures near { IfOk result (IsNear self.new) }
        ensures keeps { UnlessFault result (Keeps self.old self.new) }
        ensures fails { BreaksAsReading (V.outside vault.old) (V.outside vault.new) result }
        ensures leaves { LeavesOutside (V.outside vault.old) (V.outside vault.new) }
        ensures numbers { SameNumbers V.used_words V.directory_at V.most_words V.access vault.old vault.new }
        ensures alive { UnlessFault result (V.alive vault.new) }
    {
        self.sw.sound();
        match peek_element(&self.sw, &self.known.vectors, vector, at) {
            Some(value) => Ok(value),
            None => read_element(&mut self.sw, &mut self.known, vault, vector, at),
        }
    }

    /// The number of an element of a vector of ints or bools, of a bool 1 or 0, where it is reached by what is known of the vector. None where it isn't:
    /// then it is to be read by `get_element`, which also finds the trap of a subscript.
    #[inline(always)]
    pub fn element_number<V: Vault>(&self, vector: u32, at: i32) -> Option<i32>
        ensures { (vault : V) (of : meaning.Heap) (names : List Reference) (id : ℕ) → IsWorld self.now (V.outside vault) of names
            → DenotesIn self.now (V.outside vault) names (Some vector) (meant.Vector id) → IfSome result (IsNumber of id at) }
    {
        self.sw.sound();
        peek_number(&self.sw, &self.known.vectors, vector, at)
    }

    /// The form of the elements of a vector, where the element at a subscript is reached by what is known of the vector. None where it isn't: then
    /// `element_form` tells it.
    #[inline(always)]
    pub fn known_form<V: Vault>(&self, vector: u32, at: i32) -> Option<Form>
        ensures { (vault : V) (of : meaning.Heap) (names : List Reference) (id : ℕ) → IsWorld self.now (V.outside vault) of names
            → DenotesIn self.now (V.outside vault) names (Some vector) (meant.Vector id) → IfSome result (λ form. form ≡ form_in of id) }
    {
        self.sw.sound();
        match self.known.vectors.reach(vector, at) {
            Some(found) => Some(found.form),
            None => None,
        }
    }

    /// Writes the element of a vector at a subscript, as the elements keep it, and notes the vector as assigned: an int may be put where bools are kept,
    /// and a bool among ints. Trap Bounds exactly where the subscript is outside the vector. What isn't in the area is fetched.
    #[inline(always)]
    pub fn set_element<V: Vault>(
        &mut self,
        vault: &mut V,
        vector: u32,
        at: i32,
        to: Value,
    ) -> Result<(), OpFault>
        requires alive { V.alive vault.old }
        requires held { IsHeld self.old vector }
        requires near { IsNear self.old to }
        ensures set { (of : meaning.Heap) (names : List Reference) (id : ℕ) (v : meant.Value) → IsWorld self.old (V.outside vault.old) of names
            → DenotesIn self.old (V.outside vault.old) names (Some vector) (meant.Vector id) → IsOfForm (form_in of id) to
            → IsForIn self.old (V.outside vault.old) names to v
            → Writes self.old self.new (V.outside vault.old) (V.outside vault.new) (meant.Vector id) of names (meaning.with_element of (meant.Vector id) at v) result }
        ensures kept { (of : meaning.Heap) (names : List Reference) (id : ℕ) (v : meant.Value) (stored : declared.Value) → IsWorld self.old (V.outside vault.old) of names
            → DenotesIn self.old (V.outside vault.old) names (Some vector) (meant.Vector id) → IsInt to → fitted (form_in of id) to ≡ Some stored
            → IsForIn self.old (V.outside vault.old) names to v
            → Writes self.old self.new (V.outside vault.old) (V.outside vault.new) (meant.Vector id) of names (meaning.with_element of (meant.Vector id) at (meaning.kept_as (Some (form_in of id)) v)) result }
        ensures does { SetsElement self.old self.new (V.outside vault.old) (V.outside vault.new) vector at to result }
        ensures fails { BreaksAsReading (V.outside vault.old) (V.outside vault.new) result }
        ensures leaves { LeavesOutside (V.outside vault.old) (V.outside vault.new) }
        ensures numbers { SameNumbers V.used_words V.directory_at V.most_words V.access vault.old vault.new }
        ensures alive { UnlessFault result (V.alive vault.new) }
        ensures stands { UnlessFault result (AllStand self.old self.new) }
        ensures size { UnlessFault result (self.new.size ≡ self.old.size) }
    {
        self.sw.sound();
        match place_for(&self.known.vectors, vector, at, to) {
            Some((found, value)) => {
                put_element(&mut self.sw, vector, found, value);
                self.sw.sound();
                Ok(())
            }
            None => write_element(&mut self.sw, &mut self.known, vault, vector, at, to),
        }
    }

    /// The lower bound of a vector. What isn't in the area is fetched.
    #[inline]
    pub fn lower_bound<V: Vault>(&mut self, vault: &mut V, vector: u32) -> Result<i32, OpFault>
        requires alive { V.alive vault.old }
        requires held { IsHeld self.old vector }
        ensures got { (of : meaning.Heap) (names : List Reference) (id : ℕ) → IsWorld self.old (V.outside vault.old) of names
            → DenotesIn self.old (V.outside vault.old) names (Some vector) (meant.Vector id)
            → Answers self.old self.new (V.outside vault.old) (V.outside vault.new) (λ z wanted. z ≡ wanted) of names (Yields (meaning.low_of of (meant.Vector id))) result }
        ensures keeps { UnlessFault result (Keeps self.old self.new) }
        ensures fails { BreaksAsReading (V.outside vault.old) (V.outside vault.new) result }
        ensures leaves { LeavesOutside (V.outside vault.old) (V.outside vault.new) }
        ensures numbers { SameNumbers V.used_words V.directory_at V.most_words V.access vault.old vault.new }
        ensures alive { UnlessFault result (V.alive vault.new) }
    {
        let got = vectors::low(&mut self.sw, vault, vector);
        match got {
            Ok(low) => Ok(low),
            Err(fault) => Err(self.known.keep(fault)),
        }
    }

    /// The upper bound of a vector. What isn't in the area is fetched.
    #[inline]
    pub fn upper_bound<V: Vault>(&mut self, vault: &mut V, vector: u32) -> Result<i32, OpFault>
        requires alive { V.alive vault.old }
        requires held { IsHeld self.old vector }
        ensures got { (of : meaning.Heap) (names : List Reference) (id : ℕ) → IsWorld self.old (V.outside vault.old) of names
            → DenotesIn self.old (V.outside vault.old) names (Some vector) (meant.Vector id)
            → Answers self.old self.new (V.outside vault.old) (V.outside vault.new) (λ z wanted. z ≡ wanted) of names (Yields (meaning.high_of of (meant.Vector id))) result }
        ensures keeps { UnlessFault result (Keeps self.old self.new) }
        ensures fails { BreaksAsReading (V.outside vault.old) (V.outside vault.new) result }
        ensures leaves { LeavesOutside (V.outside vault.old) (V.outside vault.new) }
        ensures numbers { SameNumbers V.used_words V.directory_at V.most_words V.access vault.old vault.new }
        ensures alive { UnlessFault result (V.alive vault.new) }
    {
        let got = vectors::high(&mut self.sw, vault, vector);
        match got {
            Ok(high) => Ok(high),
            Err(fault) => Err(self.known.keep(fault)),
        }
    }

    /// The form of the elements of a vector, by the text of its type. What isn't in the area is fetched.
    #[inline]
    pub fn element_form<V: Vault>(&mut self, vault: &mut V, vector: u32) -> Result<Form, OpFault>
        requires alive { V.alive vault.old }
        requires held { IsHeld self.old vector }
        ensures got { (of : meaning.Heap) (names : List Reference) (id : ℕ) → IsWorld self.old (V.outside vault.old) of names
            → DenotesIn self.old (V.outside vault.old) names (Some vector) (meant.Vector id)
            → Answers self.old self.new (V.outside vault.old) (V.outside vault.new) (λ is wanted. is ≡ wanted) of names (Yields (form_in of id)) result }
        ensures keeps { UnlessFault result (Keeps self.old self.new) }
        ensures fails { BreaksAsReading (V.outside vault.old) (V.outside vault.new) result }
        ensures leaves { LeavesOutside (V.outside vault.old) (V.outside vault.new) }
        ensures numbers { SameNumbers V.used_words V.directory_at V.most_words V.access vault.old vault.new }
        ensures alive { UnlessFault result (V.alive vault.new) }
    {
        let got = vectors::form_of(&mut self.sw, vault, vector);
        match got {
            Ok(form) => Ok(form),
            Err(fault) => Err(self.known.keep(fault)),
        }
    }

    /// Makes a vector of a type, which is a text, whose elements from `low` to `high` all are `fill`. Trap Bounds exactly where `high` is below
    /// `low` or there would be more than 1,048,576 elements. AreaFull exactly where there is no room for its words; then the area stays.
    #[inline]
    pub fn make_vector<V: Vault>(
        &mut self,
        vault: &V,
        ty: u32,
        low: i32,
        high: i32,
        fill: Value,
    ) -> Result<u32, OpFault>
        requires text { IsHeld self.old ty }
        requires near { IsNear self.old fill }
        ensures made { (of : meaning.Heap) (names : List Reference) (text : List ℕ) (v : meant.Value) → IsWorld self.old (V.outside vault.now) of names
            → DenotesIn self.old (V.outside vault.now) names (Some ty) (meant.Text text) → IsOfForm (element_of text) fill
            → IsForIn self.old (V.outside vault.now) names fill v
            → Makes self.old self.new (V.outside vault.now) of names meant.Vector (meaning.filled_vector text low high v) result }
        ensures held { IfOk result (IsHeld self.new) }
        ensures fails { BreaksAsMaking self.old self.new result }
        ensures keeps { Keeps self.old self.new }
    {
        vectors::make_vector(&mut self.sw, vault, ty, low, high, fill)
    }

    /// Makes a vector of a type, which is a text, of these elements from `low` on. Trap Bounds exactly where there are none or more than 1,048,576,
    /// or the upper bound would pass 2,147,483,647. AreaFull exactly where there is no room for its words; then the area stays.
    #[inline]
    pub fn make_list<V: Vault>(
        &mut self,
        vault: &V,
        ty: u32,
        low: i32,
        items: &[Value],
    ) -> Result<u32, OpFault>
        requires text { IsHeld self.old ty }
        requires near { AreNear self.old items.now }
        ensures made { (of : meaning.Heap) (names : List Reference) (text : List ℕ) (elements : List meant.Value) → IsWorld self.old (V.outside vault.now) of names
            → DenotesIn self.old (V.outside vault.now) names (Some ty) (meant.Text text)
            → AreForIn self.old (V.outside vault.now) names (replicate (length items.now) (element_of text)) items.now elements
            → Makes self.old self.new (V.outside vault.now) of names meant.Vector (meaning.vector_of text low elements) result }
        ensures held { IfOk result (IsHeld self.new) }
        ensures fails { BreaksAsMaking self.old self.new result }
        ensures keeps { Keeps self.old self.new }
    {
        vectors::make_list(&mut self.sw, vault, ty, low, items)
    }
}

// The element of a vector that is known, where it stands in the area.
#[inline(always)]
fn peek_element(sw: &Swizzle, known: &KnownVectors, vector: u32, at: i32) -> Option<Value>
    requires { AreSo sw.now known.now.entries.items }
    ensures { IfSome result (HasElement sw.now vector at) }
{
    sw.sound();
    let Some(found) = known.reach(vector, at) else {
        return None;
    };
    match found.form {
        Form::Number => match int_of_word(sw.num_behind(vector, 1, 2 + found.place)) {
            Some(value) => Some(Value::Num(value)),
            None => None,
        },
        Form::Flag => match flag_of_word(sw.num_behind(vector, 1, 2 + found.place)) {
            Some(value) => Some(Value::Flag(value)),
            None => None,
        },
        Form::Reference => match sw.peek(vector, 1 + found.place) {
            Reference::Nil => Some(Value::Ref(None)),
            Reference::Local(to) => Some(Value::Ref(Some(to))),
            Reference::Pid(_) => None,
        },
    }
}

// The number of an element of a vector of ints or bools that is known.
#[inline(always)]
fn peek_number(sw: &Swizzle, known: &KnownVectors, vector: u32, at: i32) -> Option<i32>
    requires { AreSo sw.now known.now.entries.items }
    ensures { IfSome result (HasNumber sw.now vector at) }
{
    sw.sound();
    let Some(found) = known.reach(vector, at) else {
        return None;
    };
    match found.form {
        Form::Reference => None,
        form => match number_in(form, sw.num_behind(vector, 1, 2 + found.place)) {
            Some(number) => Some(number),
            None => None,
        },
    }
}

// The number that is stored as a word of this form; None where the word is none of the form.
#[inline(always)]
fn number_in(form: Form, word: u64) -> Option<i32>
    ensures int { IfSome result (λ number. (z : ℤ) → int_in word ≡ Some z → number ≡ z) }
    ensures flag { IfSome result (λ number. (b : Bool) → flag_in word ≡ Some b → number ≡ number_of b) }
{
    let is_one = match form {
        Form::Flag => word <= 1,
        _ => int_of_word(word).is_some(),
    };
    if is_one {
        return Some(low_half(word));
    }
    None
}

// The number that the low half of a word is.
#[inline(always)]
fn low_half(word: u64) -> i32
    ensures int { (z : ℤ) → int_in word ≡ Some z → result ≡ z }
    ensures flag { (b : Bool) → flag_in word ≡ Some b → result ≡ number_of b }
{
    ((word % HALF) as u32).cast_signed()
}

// The element of another vector, which is read and known from then on.
#[inline(never)]
fn read_element<V: Vault>(
    sw: &mut Swizzle,
    known: &mut Known,
    vault: &mut V,
    vector: u32,
    at: i32,
) -> Result<Value, OpFault>
    requires alive { V.alive vault.old }
    requires held { IsHeld sw.old vector }
    requires right { IsRight sw.old known.old }
    ensures got { (of : meaning.Heap) (names : List Reference) (id : ℕ) → IsWorld sw.old (V.outside vault.old) of names
        → DenotesIn sw.old (V.outside vault.old) names (Some vector) (meant.Vector id)
        → Answers sw.old sw.new (V.outside vault.old) (V.outside vault.new)
        (λ c v. IsOfForm (form_in of id) c × IsForIn sw.new (V.outside vault.new) names c v) of names (meaning.element_of of (meant.Vector id) at) result }
    ensures right { IsRight sw.new known.new }
    ensures near { IfOk result (IsNear sw.new) }
    ensures keeps { UnlessFault result (Keeps sw.old sw.new) }
    ensures fails { BreaksAsReading (V.outside vault.old) (V.outside vault.new) result }
    ensures leaves { LeavesOutside (V.outside vault.old) (V.outside vault.new) }
    ensures numbers { SameNumbers V.used_words V.directory_at V.most_words V.access vault.old vault.new }
    ensures alive { UnlessFault result (V.alive vault.new) }
{
    let got = vectors::get_element(sw, vault, vector, at);
    match got {
        Ok(value) => {
            known.vectors.learn(sw, vector);
            Ok(value)
        }
        Err(fault) => Err(known.keep(fault)),
    }
}

// Where a value is put as the element of a vector that is known, and as what; None where it belongs into the other row.
#[inline(always)]
fn place_for(known: &KnownVectors, vector: u32, at: i32, to: Value) -> Option<(Reached, Value)>
    ensures { (here : Heap) → AreSo here known.now.entries.items → IfSome result (λ put. IsPut here vector at to put.0.form put.0.place put.1) }
{
    let Some(found) = known.reach(vector, at) else {
        return None;
    };
    match fit(found.form, to) {
        Some(value) => Some((found, value)),
        None => None,
    }
}

// Puts a value in its place of a vector, and notes that as assigned.
#[inline(always)]
fn put_element(sw: &mut Swizzle, vector: u32, found: Reached, value: Value)
    requires put { CanPut sw.old vector found.form found.place value }
    requires near { IsNear sw.old value }
    ensures { sw.new ≡ assigned_value sw.old vector (index_of found.form found.place) value }
{
    sw.sound();
    match value {
        Value::Num(int) => put_number(sw, vector, 2 + found.place, word_of_int(int)),
        Value::Flag(flag) => put_number(sw, vector, 2 + found.place, word_of_flag(flag)),
        Value::Ref(_) => write_place(sw, vector, 1 + found.place, value),
    }
}

// Puts a word among the number words of a vector of ints or bools.
#[inline(always)]
fn put_number(sw: &mut Swizzle, vector: u32, index: u32, word: u64)
    requires held { IsHeld sw.old vector }
    requires refs { 1 ≡ (header_at sw.old vector).refs }
    requires below { index < (header_at sw.old vector).nums }
    ensures { sw.new ≡ with_mark (with_num sw.old vector index word) vector }
{
    sw.set_num_behind(vector, 1, index, word);
    sw.mark(vector);
}

// Writes an element of another vector, or by a value of the other row; the vector is known from then on.
#[inline(never)]
fn write_element<V: Vault>(
    sw: &mut Swizzle,
    known: &mut Known,
    vault: &mut V,
    vector: u32,
    at: i32,
    to: Value,
) -> Result<(), OpFault>
    requires alive { V.alive vault.old }
    requires held { IsHeld sw.old vector }
    requires near { IsNear sw.old to }
    requires right { IsRight sw.old known.old }
    ensures set { (of : meaning.Heap) (names : List Reference) (id : ℕ) (v : meant.Value) → IsWorld sw.old (V.outside vault.old) of names
        → DenotesIn sw.old (V.outside vault.old) names (Some vector) (meant.Vector id) → IsOfForm (form_in of id) to
        → IsForIn sw.old (V.outside vault.old) names to v
        → Writes sw.old sw.new (V.outside vault.old) (V.outside vault.new) (meant.Vector id) of names (meaning.with_element of (meant.Vector id) at v) result }
    ensures kept { (of : meaning.Heap) (names : List Reference) (id : ℕ) (v : meant.Value) (stored : declared.Value) → IsWorld sw.old (V.outside vault.old) of names
        → DenotesIn sw.old (V.outside vault.old) names (Some vector) (meant.Vector id) → IsInt to → fitted (form_in of id) to ≡ Some stored
        → IsForIn sw.old (V.outside vault.old) names to v
        → Writes sw.old sw.new (V.outside vault.old) (V.outside vault.new) (meant.Vector id) of names (meaning.with_element of (meant.Vector id) at (meaning.kept_as (Some (form_in of id)) v)) result }
    ensures right { IsRight sw.new known.new }
    ensures does { SetsElement sw.old sw.new (V.outside vault.old) (V.outside vault.new) vector at to result }
    ensures fails { BreaksAsReading (V.outside vault.old) (V.outside vault.new) result }
    ensures leaves { LeavesOutside (V.outside vault.old) (V.outside vault.new) }
    ensures numbers { SameNumbers V.used_words V.directory_at V.most_words V.access vault.old vault.new }
    ensures alive { UnlessFault result (V.alive vault.new) }
    ensures stands { UnlessFault result (AllStand sw.old sw.new) }
    ensures size { UnlessFault result (sw.new.size ≡ sw.old.size) }
{
    sw.sound();
    let set = vectors::set_element(sw, vault, vector, at, to);
    sw.sound();
    match set {
        Ok(()) => {
            known.vectors.learn(sw, vector);
            Ok(())
        }
        Err(fault) => Err(known.keep(fault)),
    }
}
