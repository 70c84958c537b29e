//! The operators on vectors.
ghost use Rattle.std.specs.Prelude.{◌≡◌, ℕ, List, length, replicate, IfOk, Some};
ghost use Rattle.heap_meaning.specs.obj_layout.declared.reference.Reference.{Reference};
ghost use Rattle.heap_meaning.specs.obj_layout.Storing.{SameNumbers};
ghost use Rattle.heap_meaning.specs.swizzle.Heap.{IsHeld, Stands as AllStand};
ghost use Rattle.heap_meaning.specs.swizzle.Reading.{LeavesOutside};
ghost use Rattle.heap_meaning.specs.swizzle.Touch.{Keeps};
ghost use Rattle.heap_meaning.specs.text_forms.Forms.{element_of};
ghost use Rattle.heap_meaning.specs.heap_places.Places.{IsNear};
ghost use Rattle.heap_meaning.specs.heap_places.Filling.{AreNear};
ghost use Rattle.heap_meaning.specs.heap_ops.Outcomes.{UnlessFault};
ghost use Rattle.heap_meaning.specs.heap_ops.Vectors.{SetsElement};
ghost use Rattle.heap_meaning.specs.ps_heap.Objects as meaning;
ghost use Rattle.heap_meaning.specs.ps_heap.Texts.{Yields};
ghost use Rattle.heap_meaning.specs.ps_heap.Values as meant;
ghost use Rattle.joint_ops.specs.World.{IsWorld, DenotesIn, IsForIn, IsOfForm, Answers, Writes, BreaksAsReading};
ghost use Rattle.joint_ops.specs.Operands.{AreForIn, form_in};
ghost use Rattle.joint_ops.specs.Made.{Makes, BreaksAsMaking};

use heap_meaning::heap_ops::vectors;
use heap_meaning::heap_places::texts::first_text;
use heap_meaning::heap_places::value::Value;
use heap_meaning::heap_texts::fault::OpFault;
use heap_meaning::obj_layout::vault::Vault;
use heap_meaning::swizzle::swizzle::Swizzle;
use heap_meaning::text_forms::forms::{Form, element_form};

/// Makes a vector of a type, which is a text, whose elements from `low` to `high` all are `fill`. Trap Bounds exactly where `high` is below
/// `low` or there would be more than 1,048,576 elements. AreaFull exactly where there is no room for its words; then the area stays. The vault is
/// there for the clause alone.
#[inline]
pub fn make_vector<V: Vault>(
    sw: &mut Swizzle,
    _vault: &V,
    ty: u32,
    low: i32,
    high: i32,
    fill: Value,
) -> Result<u32, OpFault>
    requires text { IsHeld sw.old ty }
    requires near { IsNear sw.old fill }
    ensures made { (of : meaning.Heap) (names : List Reference) (text : List ℕ) (v : meant.Value) → IsWorld sw.old (V.outside _vault.now) of names
        → DenotesIn sw.old (V.outside _vault.now) names (Some ty) (meant.Text text) → IsOfForm (element_of text) fill
        → IsForIn sw.old (V.outside _vault.now) names fill v
        → Makes sw.old sw.new (V.outside _vault.now) of names meant.Vector (meaning.filled_vector text low high v) result }
    ensures held { IfOk result (IsHeld sw.new) }
    ensures fails { BreaksAsMaking sw.old sw.new result }
    ensures keeps { Keeps sw.old sw.new }
{
    sw.sound();
    let made = vectors::make_vector(sw, ty, low, high, fill);
    sw.sound();
    made
}

/// Makes a vector of a type, which is a text, of these elements from `low` on. Trap Bounds exactly where there are none or more than 1,048,576,
/// or the upper bound would pass 2,147,483,647. AreaFull exactly where there is no room for its words; then the area stays. The vault is there for
/// the clause alone.
#[inline]
pub fn make_list<V: Vault>(
    sw: &mut Swizzle,
    _vault: &V,
    ty: u32,
    low: i32,
    items: &[Value],
) -> Result<u32, OpFault>
    requires text { IsHeld sw.old ty }
    requires near { AreNear sw.old items.now }
    ensures made { (of : meaning.Heap) (names : List Reference) (text : List ℕ) (elements : List meant.Value) → IsWorld sw.old (V.outside _vault.now) of names
        → DenotesIn sw.old (V.outside _vault.now) names (Some ty) (meant.Text text)
        → AreForIn sw.old (V.outside _vault.now) names (replicate (length items.now) (element_of text)) items.now elements
        → Makes sw.old sw.new (V.outside _vault.now) of names meant.Vector (meaning.vector_of text low elements) result }
    ensures held { IfOk result (IsHeld sw.new) }
    ensures fails { BreaksAsMaking sw.old sw.new result }
    ensures keeps { Keeps sw.old sw.new }
{
    sw.sound();
    let made = vectors::make_list(sw, ty, low, items);
    sw.sound();
    made
}

/// The form of the elements of a vector, by the text of its type. What isn't in the area is fetched.
#[inline]
pub fn form_of<V: Vault>(sw: &mut Swizzle, vault: &mut V, vector: u32) -> Result<Form, OpFault>
    requires alive { V.alive vault.old }
    requires held { IsHeld sw.old vector }
    ensures got { (of : meaning.Heap) (names : List Reference) (id : ℕ) → IsWorld sw.old (V.outside vault.old) of names
        → DenotesIn sw.old (V.outside vault.old) names (Some vector) (meant.Vector id)
        → Answers sw.old sw.new (V.outside vault.old) (V.outside vault.new) (λ is wanted. is ≡ wanted) of names (Yields (form_in of id)) result }
    ensures keeps { UnlessFault result (Keeps sw.old sw.new) }
    ensures fails { BreaksAsReading (V.outside vault.old) (V.outside vault.new) result }
    ensures leaves { LeavesOutside (V.outside vault.old) (V.outside vault.new) }
    ensures numbers { SameNumbers V.used_words V.directory_at V.most_words V.access vault.old vault.new }
    ensures alive { UnlessFault result (V.alive vault.new) }
{
    sw.sound();
    let touched = first_text(sw, vault, vector);
    sw.sound();
    match touched {
        Ok(text) => Ok(element_form(sw.text(text))),
        Err(fault) => Err(OpFault::Swizzle(fault)),
    }
}

/// The lower bound of a vector. What isn't in the area is fetched.
#[inline]
pub fn low<V: Vault>(sw: &mut Swizzle, vault: &mut V, vector: u32) -> Result<i32, OpFault>
    requires alive { V.alive vault.old }
    requires held { IsHeld sw.old vector }
    ensures got { (of : meaning.Heap) (names : List Reference) (id : ℕ) → IsWorld sw.old (V.outside vault.old) of names
        → DenotesIn sw.old (V.outside vault.old) names (Some vector) (meant.Vector id)
        → Answers sw.old sw.new (V.outside vault.old) (V.outside vault.new) (λ z wanted. z ≡ wanted) of names (Yields (meaning.low_of of (meant.Vector id))) result }
    ensures keeps { UnlessFault result (Keeps sw.old sw.new) }
    ensures fails { BreaksAsReading (V.outside vault.old) (V.outside vault.new) result }
    ensures leaves { LeavesOutside (V.outside vault.old) (V.outside vault.new) }
    ensures numbers { SameNumbers V.used_words V.directory_at V.most_words V.access vault.old vault.new }
    ensures alive { UnlessFault result (V.alive vault.new) }
{
    sw.sound();
    let got = vectors::low(sw, vault, vector);
    sw.sound();
    match got {
        Ok(low) => Ok(low),
        Err(fault) => Err(OpFault::Swizzle(fault)),
    }
}

/// The upper bound of a vector. What isn't in the area is fetched.
#[inline]
pub fn high<V: Vault>(sw: &mut Swizzle, vault: &mut V, vector: u32) -> Result<i32, OpFault>
    requires alive { V.alive vault.old }
    requires held { IsHeld sw.old vector }
    ensures got { (of : meaning.Heap) (names : List Reference) (id : ℕ) → IsWorld sw.old (V.outside vault.old) of names
        → DenotesIn sw.old (V.outside vault.old) names (Some vector) (meant.Vector id)
        → Answers sw.old sw.new (V.outside vault.old) (V.outside vault.new) (λ z wanted. z ≡ wanted) of names (Yields (meaning.high_of of (meant.Vector id))) result }
    ensures keeps { UnlessFault result (Keeps sw.old sw.new) }
    ensures fails { BreaksAsReading (V.outside vault.old) (V.outside vault.new) result }
    ensures leaves { LeavesOutside (V.outside vault.old) (V.outside vault.new) }
    ensures numbers { SameNumbers V.used_words V.directory_at V.most_words V.access vault.old vault.new }
    ensures alive { UnlessFault result (V.alive vault.new) }
{
    sw.sound();
    let got = vectors::high(sw, vault, vector);
    sw.sound();
    match got {
        Ok(high) => Ok(high),
        Err(fault) => Err(OpFault::Swizzle(fault)),
    }
}

/// The element of a vector at a subscript. Trap Bounds exactly where the subscript is outside the vector. What isn't in the area is fetched.
#[inline]
pub fn get_element<V: Vault>(
    sw: &mut Swizzle,
    vault: &mut V,
    vector: u32,
    at: i32,
) -> Result<Value, OpFault>
    requires alive { V.alive vault.old }
    requires held { IsHeld sw.old vector }
    ensures got { (of : meaning.Heap) (names : List Reference) (id : ℕ) → IsWorld sw.old (V.outside vault.old) of names
        → DenotesIn sw.old (V.outside vault.old) names (Some vector) (meant.Vector id)
        → Answers sw.old sw.new (V.outside vault.old) (V.outside vault.new)
        (λ c v. IsOfForm (form_in of id) c × IsForIn sw.new (V.outside vault.new) names c v) of names (meaning.element_of of (meant.Vector id) at) result }
    ensures near { IfOk result (IsNear sw.new) }
    ensures keeps { UnlessFault result (Keeps sw.old sw.new) }
    ensures fails { BreaksAsReading (V.outside vault.old) (V.outside vault.new) result }
    ensures leaves { LeavesOutside (V.outside vault.old) (V.outside vault.new) }
    ensures numbers { SameNumbers V.used_words V.directory_at V.most_words V.access vault.old vault.new }
    ensures alive { UnlessFault result (V.alive vault.new) }
{
    sw.sound();
    let got = vectors::get_element(sw, vault, vector, at);
    sw.sound();
    got
}

/// Writes the element of a vector at a subscript, and notes the vector as assigned. Trap Bounds exactly where the subscript is outside the vector.
/// What isn't in the area is fetched.
#[inline]
pub fn set_element<V: Vault>(
    sw: &mut Swizzle,
    vault: &mut V,
    vector: u32,
    at: i32,
    to: Value,
) -> Result<(), OpFault>
    requires alive { V.alive vault.old }
    requires held { IsHeld sw.old vector }
    requires near { IsNear sw.old to }
    ensures set { (of : meaning.Heap) (names : List Reference) (id : ℕ) (v : meant.Value) → IsWorld sw.old (V.outside vault.old) of names
        → DenotesIn sw.old (V.outside vault.old) names (Some vector) (meant.Vector id) → IsOfForm (form_in of id) to
        → IsForIn sw.old (V.outside vault.old) names to v
        → Writes sw.old sw.new (V.outside vault.old) (V.outside vault.new) (meant.Vector id) of names (meaning.with_element of (meant.Vector id) at v) result }
    ensures does { SetsElement sw.old sw.new (V.outside vault.old) (V.outside vault.new) vector at to result }
    ensures fails { BreaksAsReading (V.outside vault.old) (V.outside vault.new) result }
    ensures leaves { LeavesOutside (V.outside vault.old) (V.outside vault.new) }
    ensures numbers { SameNumbers V.used_words V.directory_at V.most_words V.access vault.old vault.new }
    ensures alive { UnlessFault result (V.alive vault.new) }
    ensures stands { UnlessFault result (AllStand sw.old sw.new) }
{
    sw.sound();
    let set = vectors::set_element(sw, vault, vector, at, to);
    sw.sound();
    set
}
