//! A refused call pushes an error record.
ghost use Rattle.std.specs.Prelude.{◌<◌, length};
ghost use Rattle.error_records.specs.Refusals.{context_of, fault_by};
ghost use Rattle.machine_core.specs.ps_stepping.Config.{frame_words};
ghost use Rattle.machine_core.specs.Failing.{FailsAsReading};
ghost use Rattle.machine_core.specs.Holding.{IsSound};
ghost use Rattle.machine_core.specs.Naming.{NamesObjects};
ghost use Rattle.machine_databases.specs.Refusing.{GivesRefusal};

use crate::roots::push_object;
use error_records::records::refuse;
use error_records::refusals::{Call, Refusal};
use machine_core::obj_layout::vault::Vault;
use machine_core::{Machine, Stepped};

/// Makes the error record of a call that was refused, and pushes it; or breaks off, where there is no room in the area for one of its objects.
pub fn push_refusal<V: Vault>(m: &mut Machine, vault: &V, by: Call, why: Refusal) -> Stepped
    requires sound { IsSound m.old }
    requires names { NamesObjects m.old }
    requires room { length m.old.refs.own < frame_words }
    ensures gives { GivesRefusal (V.outside vault.now) (context_of by) (fault_by why) m.old m.new result }
    ensures fails { FailsAsReading (V.outside vault.now) (V.outside vault.now) result m.new }
{
    match refuse(m.objects.area(), vault, by, why) {
        Ok(record) => {
            push_object::<V>(m, record);
            Stepped::Quiet
        }
        Err(fault) => {
            m.fault = fault;
            Stepped::Breaks
        }
    }
}
