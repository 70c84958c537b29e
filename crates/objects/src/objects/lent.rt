//! The area, lent to what moves its objects or names them.
ghost use Rattle.std.specs.Prelude.{◌≡◌};

use super::Objects;
use joint_ops::swizzle::swizzle::Swizzle;

impl Objects {
    ghost use Rattle.std.specs.Borrow.{Lends, sem};
    ghost use Rattle.joint_ops.specs.swizzle.contracts.swizzle.Swizzle.{the_row as area_row};
    ghost use Rattle.objects.specs.contracts.objects.Objects.{the_row};

    /// The area itself, for the calls on databases and the commit. What was looked up of it is forgotten.
    pub fn area(&mut self) -> &mut Swizzle
        ensures* lends { sem 𝓛 (Lends the_row area_row self.entry result (λ w. w)) }
        ensures same { result.now ≡ self.old }
    {
        self.known.clear();
        &mut self.sw
    }
}
