//! Two objects that calls go to in turn, so that nothing is left over from the call before.
ghost use Rattle.proc_values.specs.swizzle.Heap.{IsHeld};
ghost use Rattle.bench_heap.specs.Scene.{AreHeld};

use proc_values::swizzle::swizzle::Swizzle;

#[derive(Clone, Copy)]
pub struct Pair {
    pub a: u32,
    pub b: u32,
}

/// One of the two, by a sum that is not known before.
#[inline]
pub fn pick(_sw: &Swizzle, pair: Pair, sum: u64) -> u32
    requires { AreHeld _sw.now pair }
    ensures { IsHeld _sw.now result }
{
    if sum % 2 == 0 { pair.a } else { pair.b }
}
