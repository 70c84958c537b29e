//! Operations that broke off.
ghost use Rattle.std.specs.Prelude.{◌≡◌};
ghost use Rattle.machine_core.specs.declared.stepped.Stepped.TheVariants.{Breaks};

use machine_core::swizzle::fault::SwizzleFault;
use machine_core::{Machine, Stepped};

/// The step broke off for this fault.
#[inline]
pub(crate) fn broke(m: &mut Machine, fault: SwizzleFault) -> Stepped
    ensures answer { result ≡ Breaks }
    ensures left { m.new ≡ record m.old { fault = fault } }
{
    m.fault = fault;
    Stepped::Breaks
}
