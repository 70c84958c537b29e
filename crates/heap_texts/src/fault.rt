ghost use Rattle.std.specs.Prelude.{◌≡◌};
ghost use Rattle.heap_texts.specs.declared.fault.OpFault.TheVariants.{Swizzle};

use ps_base::trap::Trap;
use swizzle::fault::SwizzleFault;

/// Why an operation on objects gave nothing.
#[derive(Clone, Copy)]
pub enum OpFault {
    /// The program ends in this trap.
    Trap(Trap),
    /// The area is full, or the store refused an object. The run ends.
    Swizzle(SwizzleFault),
}

impl From<SwizzleFault> for OpFault {
    ghost from_gives = { λ of fault. fault ≡ Swizzle of };

    fn from(of: SwizzleFault) -> OpFault {
        OpFault::Swizzle(of)
    }
}
