//! The operators on strings, over texts of the area.
ghost use Rattle.std.specs.Prelude.{◌≡◌, ◌<◌, ◌^◌, List, length, ℕ, IfOk, Some};
ghost use Rattle.std.specs.Fmt.{signed_decimal};
ghost use Rattle.heap_meaning.specs.obj_area.Words.{AreBytes};
ghost use Rattle.heap_meaning.specs.obj_layout.declared.reference.Reference.{Reference};
ghost use Rattle.heap_meaning.specs.swizzle.Heap.{IsHeld, header_at};
ghost use Rattle.heap_meaning.specs.swizzle.Text.{text_at};
ghost use Rattle.heap_meaning.specs.swizzle.Touch.{Keeps};
ghost use Rattle.heap_meaning.specs.ps_heap.Objects as meaning;
ghost use Rattle.heap_meaning.specs.ps_heap.Texts.{Yields, join_of, part_of, order_of, string_of};
ghost use Rattle.heap_meaning.specs.ps_heap.Values as meant;
ghost use Rattle.joint_ops.specs.World.{IsWorld, DenotesIn};
ghost use Rattle.joint_ops.specs.Made.{MakesText, BreaksAsMaking};

use heap_meaning::heap_texts::fault::OpFault;
use heap_meaning::obj_layout::kind::Kind;
use heap_meaning::obj_layout::vault::Vault;
use heap_meaning::swizzle::swizzle::Swizzle;
use std::cmp::Ordering;
use text_ops::operators;

/// One text after the other, as a new text. TooLong where together they have more than 65,535 bytes, else AreaFull where there is no room for
/// it; then the area stays.
#[inline]
pub fn join<V: Vault>(sw: &mut Swizzle, _vault: &V, a: u32, b: u32) -> Result<u32, OpFault>
    requires a_held { IsHeld sw.old a }
    requires a_text { (header_at sw.old a).kind ≡ Kind.Text }
    requires b_held { IsHeld sw.old b }
    requires b_text { (header_at sw.old b).kind ≡ Kind.Text }
    ensures made { (of : meaning.Heap) (names : List Reference) (v w : List ℕ) → IsWorld sw.old (V.outside _vault.now) of names
        → DenotesIn sw.old (V.outside _vault.now) names (Some a) (meant.Text v) → DenotesIn sw.old (V.outside _vault.now) names (Some b) (meant.Text w)
        → MakesText sw.old sw.new (V.outside _vault.now) of names (join_of v w) result }
    ensures held { IfOk result (IsHeld sw.new) }
    ensures keeps { Keeps sw.old sw.new }
    ensures fails { BreaksAsMaking sw.old sw.new result }
{
    sw.sound();
    let joined = operators::join(sw, a, b);
    sw.sound();
    joined
}

/// The part of a text that begins at `from`, counted from 1, and has `count` bytes, as a new text. Substring where it doesn't lie within the
/// text (`docs/language.md`), else AreaFull where there is no room for it; then the area stays.
#[inline]
pub fn part<V: Vault>(
    sw: &mut Swizzle,
    _vault: &V,
    text: u32,
    from: i32,
    count: i32,
) -> Result<u32, OpFault>
    requires held { IsHeld sw.old text }
    requires text { (header_at sw.old text).kind ≡ Kind.Text }
    ensures made { (of : meaning.Heap) (names : List Reference) (v : List ℕ) → IsWorld sw.old (V.outside _vault.now) of names
        → DenotesIn sw.old (V.outside _vault.now) names (Some text) (meant.Text v)
        → MakesText sw.old sw.new (V.outside _vault.now) of names (part_of v from count) result }
    ensures held { IfOk result (IsHeld sw.new) }
    ensures keeps { Keeps sw.old sw.new }
    ensures fails { BreaksAsMaking sw.old sw.new result }
{
    sw.sound();
    let cut = operators::part(sw, text, from, count);
    sw.sound();
    cut
}

/// The shortest decimal text of an int, as a new text. AreaFull where there is no room for it; then the area stays.
#[inline]
pub fn int_text<V: Vault>(sw: &mut Swizzle, _vault: &V, value: i32) -> Result<u32, OpFault>
    ensures made { (of : meaning.Heap) (names : List Reference) → IsWorld sw.old (V.outside _vault.now) of names
        → MakesText sw.old sw.new (V.outside _vault.now) of names (Yields (signed_decimal value)) result }
    ensures held { IfOk result (IsHeld sw.new) }
    ensures keeps { Keeps sw.old sw.new }
    ensures fails { BreaksAsMaking sw.old sw.new result }
{
    sw.sound();
    match operators::int_text(sw, value) {
        Ok(at) => {
            sw.sound();
            Ok(at)
        }
        Err(fault) => Err(OpFault::Swizzle(fault)),
    }
}

/// These bytes as a new text, whatever the vault. TooLong where they are more than 65,535, else AreaFull where there is no room for it; then the area
/// stays.
#[inline]
pub fn text_of_bytes<V: Vault>(sw: &mut Swizzle, bytes: &[u8]) -> Result<u32, OpFault>
    ensures made { (vault : V) (of : meaning.Heap) (names : List Reference) → IsWorld sw.old (V.outside vault) of names
        → MakesText sw.old sw.new (V.outside vault) of names (string_of bytes.now) result }
    ensures held { IfOk result (IsHeld sw.new) }
    ensures keeps { Keeps sw.old sw.new }
    ensures fails { BreaksAsMaking sw.old sw.new result }
{
    sw.sound();
    are_bytes(bytes);
    let made = operators::text_of_bytes(sw, bytes);
    sw.sound();
    made
}

// A law: what a slice of bytes holds are bytes.
#[inline]
fn are_bytes(bytes: &[u8])
    ensures { AreBytes bytes.now }
{
    let _ = bytes;
}

/// How many bytes a text has, whatever the vault.
#[inline]
pub fn length<V: Vault>(sw: &Swizzle, text: u32) -> u32
    requires held { IsHeld sw.now text }
    requires text { (header_at sw.now text).kind ≡ Kind.Text }
    ensures value { (vault : V) (names : List Reference) (v : List ℕ) → DenotesIn sw.now (V.outside vault) names (Some text) (meant.Text v) → result ≡ length v }
    ensures small { result < 2 ^ 31 }
{
    sw.sound();
    bytes::<V>(sw, text).len() as u32
}

/// How two texts compare: byte by byte, the first difference decides, and a proper prefix is less.
#[inline]
pub fn compare<V: Vault>(sw: &Swizzle, a: u32, b: u32) -> Ordering
    requires a_held { IsHeld sw.now a }
    requires a_text { (header_at sw.now a).kind ≡ Kind.Text }
    requires b_held { IsHeld sw.now b }
    requires b_text { (header_at sw.now b).kind ≡ Kind.Text }
    ensures { (vault : V) (names : List Reference) (v w : List ℕ) → DenotesIn sw.now (V.outside vault) names (Some a) (meant.Text v)
        → DenotesIn sw.now (V.outside vault) names (Some b) (meant.Text w)
        → result ≡ order_of v w }
{
    sw.sound();
    operators::compare(sw, a, b)
}

/// The bytes of a text.
#[inline]
pub fn bytes<V: Vault>(sw: &Swizzle, text: u32) -> &[u8]
    requires held { IsHeld sw.now text }
    requires text { (header_at sw.now text).kind ≡ Kind.Text }
    ensures value { (vault : V) (names : List Reference) (v : List ℕ) → DenotesIn sw.now (V.outside vault) names (Some text) (meant.Text v) → result.now ≡ v }
    ensures bytes { result.now ≡ text_at sw.now text }
    ensures small { length result.now < 2 ^ 31 }
{
    sw.sound();
    sw.text(text)
}
