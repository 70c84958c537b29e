//! The operators on strings.
ghost use Rattle.std.specs.Prelude.{◌≡◌, ◌<◌, ◌^◌, List, length, ℕ, IfOk, Some};
ghost use Rattle.std.specs.Fmt.{signed_decimal};
ghost use Rattle.joint_ops.specs.obj_layout.declared.reference.Reference.{Reference};
ghost use Rattle.joint_ops.specs.swizzle.Heap.{IsHeld, header_at};
ghost use Rattle.joint_ops.specs.swizzle.Text.{text_at};
ghost use Rattle.joint_ops.specs.swizzle.Touch.{Keeps};
ghost use Rattle.joint_ops.specs.ps_heap.Objects as meaning;
ghost use Rattle.joint_ops.specs.ps_heap.Texts.{Yields, join_of, part_of, order_of, string_of};
ghost use Rattle.joint_ops.specs.ps_heap.Values as meant;
ghost use Rattle.joint_ops.specs.World.{IsWorld, DenotesIn};
ghost use Rattle.joint_ops.specs.Made.{MakesText, BreaksAsMaking};

use super::Objects;
use joint_ops::obj_layout::kind::Kind;
use joint_ops::obj_layout::vault::Vault;
use joint_ops::{OpFault, texts};
use std::cmp::Ordering;

impl Objects {
    /// One text after the other, as a new text. TooLong where together they have more than 65,535 bytes, else AreaFull where there is no room for
    /// it; then the area stays.
    #[inline]
    pub fn join<V: Vault>(&mut self, vault: &V, a: u32, b: u32) -> Result<u32, OpFault>
        requires a_held { IsHeld self.old a }
        requires a_text { (header_at self.old a).kind ≡ Kind.Text }
        requires b_held { IsHeld self.old b }
        requires b_text { (header_at self.old b).kind ≡ Kind.Text }
        ensures made { (of : meaning.Heap) (names : List Reference) (v w : List ℕ) → IsWorld self.old (V.outside vault.now) of names
            → DenotesIn self.old (V.outside vault.now) names (Some a) (meant.Text v) → DenotesIn self.old (V.outside vault.now) names (Some b) (meant.Text w)
            → MakesText self.old self.new (V.outside vault.now) of names (join_of v w) result }
        ensures held { IfOk result (IsHeld self.new) }
        ensures keeps { Keeps self.old self.new }
        ensures fails { BreaksAsMaking self.old self.new result }
    {
        texts::join(&mut self.sw, vault, a, b)
    }

    /// The part of a text that begins at `from`, counted from 1, and has `count` bytes, as a new text. Substring where it doesn't lie within the
    /// text (`docs/language.md`), else AreaFull where there is no room for it; then the area stays.
    #[inline]
    pub fn part<V: Vault>(
        &mut self,
        vault: &V,
        text: u32,
        from: i32,
        count: i32,
    ) -> Result<u32, OpFault>
        requires held { IsHeld self.old text }
        requires text { (header_at self.old text).kind ≡ Kind.Text }
        ensures made { (of : meaning.Heap) (names : List Reference) (v : List ℕ) → IsWorld self.old (V.outside vault.now) of names
            → DenotesIn self.old (V.outside vault.now) names (Some text) (meant.Text v)
            → MakesText self.old self.new (V.outside vault.now) of names (part_of v from count) result }
        ensures held { IfOk result (IsHeld self.new) }
        ensures keeps { Keeps self.old self.new }
        ensures fails { BreaksAsMaking self.old self.new result }
    {
        texts::part(&mut self.sw, vault, text, from, count)
    }

    /// The shortest decimal text of an int, as a new text. AreaFull where there is no room for it; then the area stays.
    #[inline]
    pub fn int_text<V: Vault>(&mut self, vault: &V, value: i32) -> Result<u32, OpFault>
        ensures made { (of : meaning.Heap) (names : List Reference) → IsWorld self.old (V.outside vault.now) of names
            → MakesText self.old self.new (V.outside vault.now) of names (Yields (signed_decimal value)) result }
        ensures held { IfOk result (IsHeld self.new) }
        ensures keeps { Keeps self.old self.new }
        ensures fails { BreaksAsMaking self.old self.new result }
    {
        texts::int_text(&mut self.sw, vault, value)
    }

    /// These bytes as a new text, whatever the vault. TooLong where they are more than 65,535, else AreaFull where there is no room for it; then the
    /// area stays.
    #[inline]
    pub fn text_of_bytes<V: Vault>(&mut self, bytes: &[u8]) -> Result<u32, OpFault>
        ensures made { (vault : V) (of : meaning.Heap) (names : List Reference) → IsWorld self.old (V.outside vault) of names
            → MakesText self.old self.new (V.outside vault) of names (string_of bytes.now) result }
        ensures held { IfOk result (IsHeld self.new) }
        ensures keeps { Keeps self.old self.new }
        ensures fails { BreaksAsMaking self.old self.new result }
    {
        texts::text_of_bytes::<V>(&mut self.sw, bytes)
    }

    /// How many bytes a text has.
    #[inline]
    pub fn text_length<V: Vault>(&self, text: u32) -> u32
        requires held { IsHeld self.now text }
        requires text { (header_at self.now text).kind ≡ Kind.Text }
        ensures value { (vault : V) (names : List Reference) (v : List ℕ) → DenotesIn self.now (V.outside vault) names (Some text) (meant.Text v) → result ≡ length v }
        ensures small { result < 2 ^ 31 }
    {
        texts::length::<V>(&self.sw, text)
    }

    /// How two texts compare: byte by byte, the first difference decides, and a proper prefix is less.
    #[inline]
    pub fn compare<V: Vault>(&self, a: u32, b: u32) -> Ordering
        requires a_held { IsHeld self.now a }
        requires a_text { (header_at self.now a).kind ≡ Kind.Text }
        requires b_held { IsHeld self.now b }
        requires b_text { (header_at self.now b).kind ≡ Kind.Text }
        ensures { (vault : V) (names : List Reference) (v w : List ℕ) → DenotesIn self.now (V.outside vault) names (Some a) (meant.Text v)
            → DenotesIn self.now (V.outside vault) names (Some b) (meant.Text w)
            → result ≡ order_of v w }
    {
        texts::compare::<V>(&self.sw, a, b)
    }

    /// The bytes of a text.
    #[inline]
    pub fn text_bytes<V: Vault>(&self, text: u32) -> &[u8]
        requires held { IsHeld self.now text }
        requires text { (header_at self.now text).kind ≡ Kind.Text }
        ensures value { (vault : V) (names : List Reference) (v : List ℕ) → DenotesIn self.now (V.outside vault) names (Some text) (meant.Text v) → result.now ≡ v }
        ensures bytes { result.now ≡ text_at self.now text }
        ensures small { length result.now < 2 ^ 31 }
    {
        texts::bytes::<V>(&self.sw, text)
    }
}
