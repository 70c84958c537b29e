//! What a commit pushes: nil, or an error record.
ghost use Rattle.std.specs.Prelude.{◌<◌, length};
ghost use Rattle.machine_core.specs.ps_stepping.Config.{frame_words};
ghost use Rattle.machine_core.specs.Holding.{IsSound};
ghost use Rattle.machine_core.specs.Naming.{NamesObjects};
ghost use Rattle.machine_commits.specs.Committing.{FailsCommitting};
ghost use Rattle.machine_commits.specs.inside.Answering.{PushesNil, RefusesCommit};

use error_records::records::refuse;
use error_records::refusals::{Call, Refusal};
use machine_core::obj_layout::vault::Vault;
use machine_core::{Machine, Stepped};

/// Pushes nil, where there is room.
pub fn push_nil<V: Vault>(m: &mut Machine)
    requires sound { IsSound m.old }
    requires names { NamesObjects m.old }
    requires room { length m.old.refs.own < frame_words }
    ensures { (v : V) → PushesNil (V.outside v) m.old m.new }
{
    m.refs.push_reserved(0);
}

/// Makes the error record of a commit that was refused, and pushes it; or breaks off, where there is no room in the area for one of its objects.
pub fn refuse_commit<V: Vault>(m: &mut Machine, vault: &V) -> Stepped
    requires sound { IsSound m.old }
    requires names { NamesObjects m.old }
    requires room { length m.old.refs.own < frame_words }
    ensures refuses { RefusesCommit (V.outside vault.now) m.old m.new result }
    ensures fails { FailsCommitting (V.outside vault.now) (V.outside vault.now) (V.access vault.now) result m.new }
{
    match refuse(m.objects.area(), vault, Call::Commit, Refusal::NotWritable) {
        Ok(record) => {
            m.objects.sound();
            m.refs.push_reserved(record);
            Stepped::Quiet
        }
        Err(fault) => {
            m.fault = fault;
            Stepped::Breaks
        }
    }
}
