//! Vectors that were read before.
ghost use Rattle.std.specs.Prelude.{◌≡◌, ◌<◌, ◌+◌, ◌+ℤ◌, ◌^◌, pos, IfOk, IfSome, Some};
ghost use Rattle.joint_ops.specs.swizzle.Heap.{Heap, IsHeld, header_at};
ghost use Rattle.joint_ops.specs.swizzle.Joint.{shown_at};
ghost use Rattle.joint_ops.specs.heap_places.Shapes.{word_in};
ghost use Rattle.joint_ops.specs.heap_places.Words.{int_in};
ghost use Rattle.joint_ops.specs.heap_ops.Vectors.{HasType};
ghost use Rattle.joint_ops.specs.ps_heap.Objects.{is_vector as is_vector_of, place_of};
ghost use Rattle.joint_ops.specs.ps_heap.Operators.{is_int};
ghost use Rattle.objects.specs.Vectors.{AreSo, ReachesElement, IsSo, nums_of, refs_of};

use joint_ops::heap_ops::shape::{Shape, place};
use joint_ops::heap_places::words::int_of_word;
use joint_ops::obj_layout::kind::Kind;
use joint_ops::obj_layout::reference::Reference;
use joint_ops::swizzle::swizzle::Swizzle;
use joint_ops::text_forms::forms::{Form, element_form};
use std::alloc::{AllocError, Global};

/// What a vector was found to be: its object's index in the area, the form of its elements, its lower bound, and how many elements it has. Index
/// 0 stands for no entry, and such a one has no element.
#[derive(Clone, Copy)]
pub(crate) struct KnownVector {
    pub vector: u32,
    pub form: Form,
    pub low: i32,
    pub count: u32,
}

/// An element that was reached: the form of its vector's elements, and its place, from 0.
#[derive(Clone, Copy)]
pub(crate) struct Reached {
    pub form: Form,
    pub place: u32,
}

/// Vectors that were read before.
#[derive(Drop)]
pub(crate) struct KnownVectors {
    pub entries: Vec<KnownVector>,
}

// How many entries there are. A vector that is read takes the entry of its index from another one.
const ENTRIES: usize = 64;

const NO_ENTRY: KnownVector = KnownVector {
    vector: 0,
    form: Form::Reference,
    low: 0,
    count: 0,
};

// The most elements that a vector has.
const MOST_ELEMENTS: u32 = 1 << 20;

impl KnownVectors {
    /// Without any vector. This takes memory for 64 entries, once.
    pub fn new(alloc: Global) -> Result<KnownVectors, AllocError>
        ensures { IfOk result (λ known. (here : Heap) → AreSo here known.entries.items) }
    {
        let mut entries = Vec::with_capacity(alloc, ENTRIES)?;
        entries.resize(ENTRIES, NO_ENTRY)?;
        Ok(KnownVectors { entries })
    }

    /// Forgets all vectors.
    pub fn clear(&mut self)
        ensures { (here : Heap) → AreSo here self.new.entries.items }
    {
        self.entries.fill(NO_ENTRY);
    }

    /// The element at a subscript of a vector, if its entry stands in its place. None too where the subscript is outside.
    #[inline(always)]
    pub fn reach(&self, vector: u32, at: i32) -> Option<Reached>
        ensures { (here : Heap) → AreSo here self.now.entries.items → IfSome result (λ found. ReachesElement here vector at found.form found.place) }
    {
        let index = index_of(vector);
        if index >= self.entries.len() {
            return None;
        }
        let entry = self.entries[index];
        if entry.vector != vector {
            return None;
        }
        match subscript(entry, at) {
            Some(place) => Some(Reached {
                form: entry.form,
                place,
            }),
            None => None,
        }
    }

    /// Keeps what a vector is, where it has the shape of its type and the text of that lies in the area.
    pub fn learn(&mut self, sw: &Swizzle, vector: u32)
        requires { IsHeld sw.now vector }
        ensures { AreSo sw.now self.old.entries.items → AreSo sw.now self.new.entries.items }
    {
        let Some(known) = known_of(sw, vector) else {
            return;
        };
        self.keep(known);
    }

    // Puts an entry in its place.
    fn keep(&mut self, known: KnownVector)
        ensures { (here : Heap) → AreSo here self.old.entries.items → IsSo here known → AreSo here self.new.entries.items }
    {
        let index = index_of(known.vector);
        if index < self.entries.len() {
            self.entries[index] = known;
        }
    }
}

// The place of a subscript, from 0; None where it is outside.
#[inline(always)]
fn subscript(known: KnownVector, at: i32) -> Option<u32>
    ensures { result ≡ place_of known.low known.count at }
{
    let shape = Shape {
        form: known.form,
        low: known.low,
        count: known.count,
    };
    place(shape, at)
}

// Where the entry of a vector stands.
#[inline(always)]
fn index_of(vector: u32) -> usize
    ensures { result < 64 }
{
    (vector.wrapping_mul(0x9e37_79b1) >> 26) as usize
}

// What a vector is, where it has the shape of its type and the text of that lies in the area.
fn known_of(sw: &Swizzle, vector: u32) -> Option<KnownVector>
    requires { IsHeld sw.now vector }
    ensures { IfSome result (IsSo sw.now) }
{
    let Some(form) = form_of(sw, vector) else {
        return None;
    };
    let Some(count) = count_of(sw, vector, form) else {
        return None;
    };
    let Some(low) = low_of(sw, vector) else {
        return None;
    };
    if !is_vector(low, count) {
        return None;
    }
    Some(KnownVector {
        vector,
        form,
        low,
        count,
    })
}

// The form of a vector's elements, where the text of its type lies in the area.
fn form_of(sw: &Swizzle, vector: u32) -> Option<Form>
    requires { IsHeld sw.now vector }
    ensures vector { IfSome result (λ form. (header_at sw.now vector).kind ≡ Kind.Vector) }
    ensures typed { IfSome result (HasType sw.now vector) }
{
    sw.sound();
    let Kind::Vector = sw.kind(vector) else {
        return None;
    };
    if sw.refs(vector) == 0 {
        return None;
    }
    let Reference::Local(text) = sw.peek(vector, 0) else {
        return None;
    };
    match sw.kind(text) {
        Kind::Text => Some(element_form(sw.text(text))),
        _ => None,
    }
}

// How many elements of a form a vector has, whose other row holds no more than that of each vector.
fn count_of(sw: &Swizzle, vector: u32, form: Form) -> Option<u32>
    requires { IsHeld sw.now vector }
    ensures refs { IfSome result (λ count. (header_at sw.now vector).refs ≡ refs_of form count) }
    ensures nums { IfSome result (λ count. (header_at sw.now vector).nums ≡ nums_of form count) }
{
    let refs = sw.refs(vector);
    let nums = sw.nums(vector);
    match form {
        Form::Reference => rest(refs, 1, nums, 2),
        Form::Number | Form::Flag => rest(nums, 2, refs, 1),
    }
}

// What is left of a row behind so many, where the other row has so many as are wanted of it.
fn rest(row: u32, before: u32, other: u32, wanted: u32) -> Option<u32>
    ensures row { IfSome result (λ left. row ≡ before + left) }
    ensures other { IfSome result (λ left. other ≡ wanted) }
{
    if other != wanted || row < before {
        return None;
    }
    Some(row - before)
}

// The lower bound of a vector, where its word is that of an int.
fn low_of(sw: &Swizzle, vector: u32) -> Option<i32>
    requires { IsHeld sw.now vector }
    ensures { IfSome result (λ low. int_in (word_in (shown_at sw.now vector) 1) ≡ Some low) }
{
    if sw.nums(vector) < 2 {
        return None;
    }
    int_of_word(sw.num(vector, 1))
}

// Whether a vector may have this lower bound and so many elements.
fn is_vector(low: i32, count: u32) -> bool
    ensures { result ≡ is_vector_of low count }
{
    if count == 0 {
        return false;
    }
    let last = count - 1;
    last < MOST_ELEMENTS && ends_in_ints(low, last)
}

// Whether the sum is an int.
fn ends_in_ints(low: i32, last: u32) -> bool
    requires { last < 2 ^ 20 }
    ensures { result ≡ is_int (low +ℤ pos last) }
{
    low.checked_add(last.cast_signed()).is_some()
}
