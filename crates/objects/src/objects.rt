//! The objects of an area, with what was looked up of them.
ghost use Rattle.std.specs.Prelude.{◌≡◌, ◌≤◌, ◌+◌, ◌^◌, List, IfOk, IfSome};
ghost use Rattle.joint_ops.specs.obj_layout.declared.reference.Reference.{Reference};
ghost use Rattle.joint_ops.specs.swizzle.Heap.{IsHeap, IsHeld, fresh_heap, top_of};
ghost use Rattle.joint_ops.specs.ps_heap.Objects as meaning;
ghost use Rattle.joint_ops.specs.ps_heap.Objects.{is_one_object};
ghost use Rattle.joint_ops.specs.ps_heap.Values as meant;
ghost use Rattle.joint_ops.specs.World.{DenotesIn, IsWorld};
ghost use Rattle.joint_ops.specs.Operands.{IsByObject, IsOfSort, IsSorted};

mod code_bytes;
mod field_forms;
mod fields;
mod lent;
mod procedures;
mod residence;
mod row_makes;
mod scope_objects;
mod structures;
mod tables;
mod texts;
mod units;
mod vectors;

use crate::known::Known;
use joint_ops::obj_layout::vault::Vault;
use joint_ops::swizzle::swizzle::Swizzle;
use joint_ops::values::{self, Sort};
use std::alloc::{AllocError, Global};
use std::marker::Model;

/// The objects of an area, seen as its heap. What was looked up of them stays beside it, and no clause speaks of that.
#[derive(Drop)]
pub struct Objects {
    sw: Swizzle,
    known: Known,
}

impl Model for Objects {
    ghost use Rattle.joint_ops.specs.swizzle.Heap.{Heap};
    ghost use Rattle.objects.specs.Inside.{heap_of, IsRight};

    ghost Value = { Heap };

    ghost view = { heap_of };

    ghost invariant = { IsRight };
}

impl Objects {
    /// No objects, in an area of so many words. This takes memory for the area and for what is looked up, once.
    pub fn new(alloc: Global, words: u32) -> Result<Objects, AllocError>
        requires low { 5 ≤ words }
        requires high { words ≤ 2 ^ 25 }
        ensures { IfOk result (λ objects. objects ≡ fresh_heap (words + 1)) }
    {
        let sw = Swizzle::new(alloc, words)?;
        let known = Known::new(alloc)?;
        Ok(Objects { sw, known })
    }

    /// Forgets all objects, and what was looked up of them.
    pub fn reset(&mut self)
        ensures { self.new ≡ fresh_heap self.old.size }
    {
        self.sw.reset();
        self.known.clear();
    }

    /// What is so of the area whatever was done.
    #[inline(always)]
    pub fn sound(&self)
        ensures { IsHeap self.now }
    {
        self.sw.sound();
    }

    /// The index at which the next object begins.
    #[inline]
    pub fn top(&self) -> u32
        ensures { result ≡ top_of self.now }
    {
        self.sw.top()
    }

    /// The index that no word of the area reaches.
    #[inline]
    pub fn size(&self) -> u32
        ensures { result ≡ self.now.size }
    {
        self.sw.size()
    }

    /// What sort of object this is. Where it denotes a value, it is the sort of that value, and never `Other`. It is so whatever
    /// the vault, here and wherever none is lent; one that is lent shared is there for the clause alone.
    #[inline]
    pub fn sort_of<V: Vault>(&self, to: Option<u32>) -> Sort
        requires held { IfSome to (IsHeld self.now) }
        ensures kind { IsSorted self.now to result }
        ensures value { (vault : V) (names : List Reference) (v : meant.Value) → DenotesIn self.now (V.outside vault) names to v → IsOfSort v result }
    {
        values::sort_of::<V>(&self.sw, to)
    }

    /// Whether two values that are neither texts nor procedures are one: nil and nil, or the same object.
    #[inline]
    pub fn is_one<V: Vault>(&self, a: Option<u32>, b: Option<u32>) -> bool
        ensures { (vault : V) (of : meaning.Heap) (names : List Reference) (v w : meant.Value) → IsWorld self.now (V.outside vault) of names
            → DenotesIn self.now (V.outside vault) names a v → DenotesIn self.now (V.outside vault) names b w
            → IsByObject v → IsByObject w → result ≡ is_one_object v w }
    {
        values::is_one::<V>(&self.sw, a, b)
    }
}
