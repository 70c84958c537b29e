//! Where a run ends.
ghost use Rattle.std.specs.Prelude.{◌≡◌};
ghost use Rattle.ps_stepping.specs.ps_heap.Ends.{Trapped};
ghost use Rattle.ps_stepping.specs.Machine.{Stops};
ghost use Rattle.machine_core.specs.Holding.{IsSound};
ghost use Rattle.machine_core.specs.declared.run_end.RunEnd.TheVariants as in_code;
ghost use Rattle.machine_core.specs.declared.stepped.Stepped.TheVariants.{Halts};
ghost use Rattle.machine_core.specs.Stepped.{Takes, end_of, ended};

use crate::machine::Machine;
use crate::run_end::RunEnd;
use crate::stepped::Stepped;
use joint_ops::obj_layout::vault::Vault;
use ps_base::line::Line;
use ps_base::trap::Trap;

/// Stops the run at this end.
#[inline(always)]
pub fn halt<V: Vault>(m: &mut Machine, end: RunEnd) -> Stepped
    requires { IsSound m.old }
    ensures takes { (v : V) → Takes (V.outside v) (V.outside v) (λ c. Stops (end_of end) 0) m.old m.new result }
    ensures answer { result ≡ Halts }
    ensures left { m.new ≡ ended end m.old }
{
    m.end = end;
    Stepped::Halts
}

/// Stops the run with a trap.
#[inline(always)]
pub fn trapped<V: Vault>(m: &mut Machine, trap: Trap, line: Line) -> Stepped
    requires { IsSound m.old }
    ensures takes { (v : V) → Takes (V.outside v) (V.outside v) (λ c. Stops (Trapped trap line) 0) m.old m.new result }
    ensures answer { result ≡ Halts }
    ensures left { m.new ≡ ended (in_code.Trapped trap line) m.old }
{
    halt::<V>(m, RunEnd::Trapped { trap, line })
}
