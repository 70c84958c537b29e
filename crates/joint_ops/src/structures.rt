//! The operators on structures.
ghost use Rattle.std.specs.Prelude.{◌≡◌, ℕ, List, IfOk, IfSome, Some};
ghost use Rattle.heap_meaning.specs.obj_layout.declared.reference.Reference.{Reference};
ghost use Rattle.heap_meaning.specs.obj_layout.Storing.{SameNumbers};
ghost use Rattle.heap_meaning.specs.swizzle.Heap.{IsHeld, Stands as AllStand, header_at};
ghost use Rattle.heap_meaning.specs.swizzle.Reading.{LeavesOutside};
ghost use Rattle.heap_meaning.specs.swizzle.Text.{text_at};
ghost use Rattle.heap_meaning.specs.swizzle.Touch.{Keeps};
ghost use Rattle.heap_meaning.specs.text_forms.Forms.{forms_of, located_in};
ghost use Rattle.heap_meaning.specs.heap_places.Places.{IsNear};
ghost use Rattle.heap_meaning.specs.heap_places.Filling.{AreNear};
ghost use Rattle.heap_meaning.specs.heap_ops.Outcomes.{UnlessFault};
ghost use Rattle.heap_meaning.specs.heap_ops.Structures.{IsNamed, SetsField};
ghost use Rattle.heap_meaning.specs.ps_heap.Objects as meaning;
ghost use Rattle.heap_meaning.specs.ps_heap.Texts.{Yields};
ghost use Rattle.heap_meaning.specs.ps_heap.Values as meant;
ghost use Rattle.joint_ops.specs.World.{IsWorld, DenotesIn, IsForIn, IsOfForm, Answers, Writes, BreaksAsReading};
ghost use Rattle.joint_ops.specs.Operands.{AreForIn};
ghost use Rattle.joint_ops.specs.Made.{Makes, BreaksAsMaking};

use heap_meaning::heap_ops::structures;
use heap_meaning::heap_places::value::Value;
use heap_meaning::heap_texts::fault::OpFault;
use heap_meaning::obj_layout::kind::Kind;
use heap_meaning::obj_layout::vault::Vault;
use heap_meaning::swizzle::swizzle::Swizzle;
use heap_meaning::text_forms::forms::Located;
use ps_base::trap::Trap;

/// Makes a structure of a class, which is a text, with the values of its fields in their order. AreaFull exactly where there is no room for its
/// words; then the area stays. The vault is there for the clause alone.
#[inline]
pub fn make_structure<V: Vault>(
    sw: &mut Swizzle,
    _vault: &V,
    class: u32,
    fields: &[Value],
) -> Result<u32, OpFault>
    requires class { IsHeld sw.old class }
    requires near { AreNear sw.old fields.now }
    ensures made { (of : meaning.Heap) (names : List Reference) (text : List ℕ) (values : List meant.Value) → IsWorld sw.old (V.outside _vault.now) of names
        → DenotesIn sw.old (V.outside _vault.now) names (Some class) (meant.Text text)
        → AreForIn sw.old (V.outside _vault.now) names (forms_of text) fields.now values
        → Makes sw.old sw.new (V.outside _vault.now) of names meant.Pointer (Yields (meaning.Structure text values)) result }
    ensures held { IfOk result (IsHeld sw.new) }
    ensures fails { BreaksAsMaking sw.old sw.new result }
    ensures keeps { Keeps sw.old sw.new }
{
    sw.sound();
    let made = structures::make_structure(sw, class, fields);
    sw.sound();
    match made {
        Ok(at) => Ok(at),
        Err(fault) => Err(OpFault::Swizzle(fault)),
    }
}

/// Whether a value denotes a structure of a class, which is a text: nil does not. What isn't in the area is fetched.
#[inline]
pub fn is_class<V: Vault>(
    sw: &mut Swizzle,
    vault: &mut V,
    object: Option<u32>,
    class: u32,
) -> Result<bool, OpFault>
    requires alive { V.alive vault.old }
    requires held { IfSome object (IsHeld sw.old) }
    requires class { IsHeld sw.old class }
    requires text { (header_at sw.old class).kind ≡ Kind.Text }
    ensures got { (of : meaning.Heap) (names : List Reference) (text : List ℕ) (o : meant.Value) → IsWorld sw.old (V.outside vault.old) of names
        → DenotesIn sw.old (V.outside vault.old) names (Some class) (meant.Text text) → DenotesIn sw.old (V.outside vault.old) names object o
        → Answers sw.old sw.new (V.outside vault.old) (V.outside vault.new) (λ is wanted. is ≡ wanted) of names (Yields (meaning.is_class of o text)) result }
    ensures keeps { UnlessFault result (Keeps sw.old sw.new) }
    ensures fails { BreaksAsReading (V.outside vault.old) (V.outside vault.new) result }
    ensures leaves { LeavesOutside (V.outside vault.old) (V.outside vault.new) }
    ensures numbers { SameNumbers V.used_words V.directory_at V.most_words V.access vault.old vault.new }
    ensures alive { UnlessFault result (V.alive vault.new) }
{
    sw.sound();
    let Some(at) = object else {
        return Ok(false);
    };
    if !sw.is_kind(at, Kind::Structure) {
        return Ok(false);
    }
    let got = structures::is_class(sw, vault, Some(at), class);
    sw.sound();
    match got {
        Ok(is) => Ok(is),
        Err(fault) => Err(OpFault::Swizzle(fault)),
    }
}

/// The value of a field of what a value denotes; `located` is the field's place as the class's text tells it. Trap Nil for nil, WrongClass for an
/// object of another class. What isn't in the area is fetched.
#[inline]
pub fn get_field<V: Vault>(
    sw: &mut Swizzle,
    vault: &mut V,
    object: Option<u32>,
    class: u32,
    located: Located,
) -> Result<Value, OpFault>
    requires alive { V.alive vault.old }
    requires held { IfSome object (IsHeld sw.old) }
    requires class { IsHeld sw.old class }
    requires text { (header_at sw.old class).kind ≡ Kind.Text }
    requires field { IsNamed (text_at sw.old class) located }
    ensures got { (of : meaning.Heap) (names : List Reference) (text : List ℕ) (n : ℕ) (o : meant.Value) → IsWorld sw.old (V.outside vault.old) of names
        → DenotesIn sw.old (V.outside vault.old) names (Some class) (meant.Text text) → DenotesIn sw.old (V.outside vault.old) names object o
        → located_in (forms_of text) n ≡ Some located
        → Answers sw.old sw.new (V.outside vault.old) (V.outside vault.new)
        (λ c v. IsOfForm located.place.form c × IsForIn sw.new (V.outside vault.new) names c v) of names (meaning.field_of of o text n) result }
    ensures near { IfOk result (IsNear sw.new) }
    ensures keeps { UnlessFault result (Keeps sw.old sw.new) }
    ensures fails { BreaksAsReading (V.outside vault.old) (V.outside vault.new) result }
    ensures leaves { LeavesOutside (V.outside vault.old) (V.outside vault.new) }
    ensures numbers { SameNumbers V.used_words V.directory_at V.most_words V.access vault.old vault.new }
    ensures alive { UnlessFault result (V.alive vault.new) }
{
    sw.sound();
    let Some(at) = object else {
        return Err(OpFault::Trap(Trap::Nil));
    };
    if !sw.is_kind(at, Kind::Structure) {
        return Err(OpFault::Trap(Trap::WrongClass));
    }
    let got = structures::get_field(sw, vault, Some(at), class, located);
    sw.sound();
    got
}

/// Writes a field of what a value denotes, and notes its object as assigned. The same traps as those of `get_field`. What isn't in the area is
/// fetched.
#[inline]
pub fn set_field<V: Vault>(
    sw: &mut Swizzle,
    vault: &mut V,
    object: Option<u32>,
    class: u32,
    located: Located,
    to: Value,
) -> Result<(), OpFault>
    requires alive { V.alive vault.old }
    requires held { IfSome object (IsHeld sw.old) }
    requires class { IsHeld sw.old class }
    requires text { (header_at sw.old class).kind ≡ Kind.Text }
    requires field { IsNamed (text_at sw.old class) located }
    requires near { IsNear sw.old to }
    requires form { IsOfForm located.place.form to }
    ensures set { (of : meaning.Heap) (names : List Reference) (text : List ℕ) (n : ℕ) (o v : meant.Value) → IsWorld sw.old (V.outside vault.old) of names
        → DenotesIn sw.old (V.outside vault.old) names (Some class) (meant.Text text) → DenotesIn sw.old (V.outside vault.old) names object o
        → located_in (forms_of text) n ≡ Some located → IsForIn sw.old (V.outside vault.old) names to v
        → Writes sw.old sw.new (V.outside vault.old) (V.outside vault.new) o of names (meaning.with_field of o text n v) result }
    ensures does { SetsField sw.old sw.new (V.outside vault.old) (V.outside vault.new) object (text_at sw.old class) located to result }
    ensures fails { BreaksAsReading (V.outside vault.old) (V.outside vault.new) result }
    ensures leaves { LeavesOutside (V.outside vault.old) (V.outside vault.new) }
    ensures numbers { SameNumbers V.used_words V.directory_at V.most_words V.access vault.old vault.new }
    ensures alive { UnlessFault result (V.alive vault.new) }
    ensures stands { UnlessFault result (AllStand sw.old sw.new) }
{
    sw.sound();
    let Some(at) = object else {
        return Err(OpFault::Trap(Trap::Nil));
    };
    if !sw.is_kind(at, Kind::Structure) {
        return Err(OpFault::Trap(Trap::WrongClass));
    }
    let set = structures::set_field(sw, vault, Some(at), class, located, to);
    sw.sound();
    set
}
