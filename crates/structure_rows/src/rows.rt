//! Structures made at once of the two rows of their fields.
ghost use Rattle.std.specs.Prelude.{◌≡◌, ◌+◌, ◌<◌, ◌≤◌, ◌^◌, None, OnOk, length, true};
ghost use Rattle.heap_places.specs.swizzle.Heap.{IsHeld, Stands, header_at};
ghost use Rattle.heap_places.specs.Filling.{AreNear, Fills};
ghost use Rattle.heap_places.specs.inside.Laying.{with_values};
ghost use Rattle.heap_places.specs.ps_heap.Operators.{is_int};
ghost use Rattle.structure_rows.specs.Rows.{AreInts, kept, kept_word, named, object_in, row_values};

use crate::marks::FlagSet;
use heap_places::obj_layout::kind::Kind;
use heap_places::swizzle::fault::SwizzleFault;
use heap_places::swizzle::swizzle::Swizzle;
use heap_places::words::{word_of_flag, word_of_int};

/// Makes a structure of a class, which is a text, of the numbers and the references of its fields, each in their order; a reference is an index of the
/// area, or 0 for nil. AreaFull exactly where there
/// is no room for its words; then the area stays. The cost is in line with its words.
#[inline]
pub fn make_rows(
    sw: &mut Swizzle,
    class: u32,
    flags: FlagSet,
    nums: &[i32],
    refs: &[u32],
) -> Result<u32, SwizzleFault>
    requires class { IsHeld sw.old class }
    requires near { AreNear sw.old (named refs.now) }
    requires few { length nums.now + length refs.now < 2 ^ 26 }
    ensures filled { Fills sw.old sw.new Kind.Structure class None (row_values flags.bits nums.now refs.now) result }
    ensures ints { OnOk result (AreInts nums.now) }
{
    sw.sound();
    let ref_count = 1 + refs.len() as u32;
    let made = match sw.make(Kind::Structure, ref_count, 1 + nums.len() as u32, 0) {
        Ok(made) => made,
        Err(fault) => return Err(fault),
    };
    sw.set_ref(made, 0, Some(class));
    lay_refs(sw, made, refs);
    lay_nums(sw, made, ref_count, flags, nums);
    Ok(made)
}

// Lays references into an object, after its class.
#[inline(always)]
fn lay_refs(sw: &mut Swizzle, into: u32, refs: &[u32])
    requires held { IsHeld sw.old into }
    requires few { length refs.now < 2 ^ 26 }
    requires room { 1 + length refs.now ≤ (header_at sw.old into).refs }
    requires home { 1 ≤ (header_at sw.old into).nums }
    requires near { AreNear sw.old (named refs.now) }
    ensures laid { sw.new ≡ with_values sw.old into (record { refs = 1; nums = 1 }) (named refs.now) }
    ensures stands { Stands sw.old sw.new }
{
    let mut slot = 1;
    for word in refs {
        sw.set_ref(into, slot, object(*word));
        slot += 1;
    }
}

// Lays numbers into an object with so many references, after its home.
#[inline(always)]
fn lay_nums(sw: &mut Swizzle, into: u32, refs: u32, flags: FlagSet, nums: &[i32])
    requires held { IsHeld sw.old into }
    requires refs { refs ≡ (header_at sw.old into).refs }
    requires class { 1 ≤ refs }
    requires few { length nums.now < 2 ^ 26 }
    requires room { 1 + length nums.now ≤ (header_at sw.old into).nums }
    ensures laid { sw.new ≡ with_values sw.old into (record { refs = 1; nums = 1 }) (kept flags.bits nums.now) }
    ensures ints { AreInts nums.now }
    ensures stands { Stands sw.old sw.new }
{
    let mut index = 1;
    let mut rest = flags;
    for z in nums {
        sw.set_num_behind(into, refs, index, word_kept(rest, *z));
        index += 1;
        rest = rest.behind();
    }
}

// The word that a number is kept as.
#[inline(always)]
fn word_kept(flags: FlagSet, z: i32) -> u64
    ensures word { result ≡ kept_word flags.bits z }
    ensures int { is_int z ≡ true }
{
    if flags.is_first() {
        word_of_flag(z > 0)
    } else {
        word_of_int(z)
    }
}

// The object that a word names.
#[inline(always)]
fn object(word: u32) -> Option<u32>
    ensures { result ≡ object_in word }
{
    if word == 0 { None } else { Some(word) }
}
