ghost use Rattle.std.specs.Prelude.{IfOk};
ghost use Rattle.machine_core.specs.obj_layout.Storing.{SameNumbers};
ghost use Rattle.machine_core.specs.obj_layout.declared.kind.Kind.TheVariants.{Text};
ghost use Rattle.machine_core.specs.swizzle.Reading.{LeavesOutside};
ghost use Rattle.machine_core.specs.Holding.{IsSound};
ghost use Rattle.machine_core.specs.Naming.{NamesObjects};
ghost use Rattle.machine_operands.specs.Constants.{EndsReading, FailsBrokenOff, ReadsConstant, Refetched, UnlessBrokenOff};
ghost use Rattle.machine_operands.specs.Popping.{IsKind};

use crate::gives::broke;
use machine_core::obj_layout::vault::Vault;
use machine_core::{Machine, Stepped};

/// The object of the text constant of this number of the code that runs; its bytes are `objects.text_bytes` of it. Else how the step ends: damaged where the
/// constant is a unit; and it breaks off where the code has no such constant, or what isn't in the area couldn't be fetched.
#[inline]
pub fn text_constant<V: Vault>(m: &mut Machine, vault: &mut V, k: u32) -> Result<u32, Stepped>
    requires sound { IsSound m.old }
    requires names { NamesObjects m.old }
    requires alive { V.alive vault.old }
    ensures reads { ReadsConstant (V.outside vault.old) (V.outside vault.new) k m.old m.new result }
    ensures ends { EndsReading m.old m.new result }
    ensures fetched { IfOk result (λ at. Refetched m.old m.new) }
    ensures text { IfOk result (IsKind Text m.new.objects) }
    ensures fails { FailsBrokenOff (V.outside vault.old) (V.outside vault.new) result m.new }
    ensures leaves { LeavesOutside (V.outside vault.old) (V.outside vault.new) }
    ensures numbers { SameNumbers V.used_words V.directory_at V.most_words V.access vault.old vault.new }
    ensures alive { UnlessBrokenOff result (V.alive vault.new) }
{
    let got = m.objects.text_of(vault, m.code, k);
    match got {
        Ok(found) => match found {
            Some(at) => Ok(at),
            None => Err(Stepped::Damaged),
        },
        Err(fault) => Err(broke::<V>(m, fault)),
    }
}
