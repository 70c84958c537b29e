//! The instruction that calls a procedure.
ghost use Rattle.std.specs.Prelude.{◌≡◌, ◌≢◌, ◌+◌, ◌<◌, length, IfSome, MatchOption};
ghost use Rattle.machine_core.specs.obj_layout.Storing.{SameNumbers};
ghost use Rattle.machine_core.specs.swizzle.Heap.{IsHeld};
ghost use Rattle.machine_core.specs.swizzle.Reading.{LeavesOutside};
ghost use Rattle.machine_core.specs.ps_stepping.Procedures.{call as call_of};
ghost use Rattle.machine_core.specs.Holding.{IsSound};
ghost use Rattle.machine_core.specs.Naming.{IsNamed, NamesObjects};
ghost use Rattle.machine_core.specs.Stepped.{Takes, UnlessBroken};
ghost use Rattle.machine_core.specs.declared.stepped.Stepped.TheVariants.{Breaks};
ghost use Rattle.machine_core.specs.Failing.{FailsAsReading};
ghost use Rattle.machine_calls.specs.inside.Bodies.{CallsWith, IsBelow, IsCalled, IsNotCalled};

use crate::faults::broke;
use machine_core::calls::{call_body, fits, ref_below};
use machine_core::joint_ops::values::Sort;
use machine_core::obj_layout::vault::Vault;
use machine_core::objects::body;
use machine_core::stacks::{object, word};
use machine_core::{Body, Machine, Stepped};
use ps_base::line::Line;

/// Calls the procedure below so many references on top, which are arguments, with as many numbers on top as it takes. Damaged where there is no
/// procedure, it takes another number of references, its frame doesn't fit, or there are fewer numbers; breaks off where its body is damaged or can't be
/// fetched. Trap TooDeep where 2,000 calls wait already; else a turn is taken, and the run ends where none is left.
#[inline]
pub fn call<V: Vault>(m: &mut Machine, vault: &mut V, n: u32, line: Line) -> Stepped
    requires sound { IsSound m.old }
    requires names { NamesObjects m.old }
    requires alive { V.alive vault.old }
    ensures takes { Takes (V.outside vault.old) (V.outside vault.new) (call_of n line) m.old m.new result }
    ensures fails { FailsAsReading (V.outside vault.old) (V.outside vault.new) result m.new }
    ensures leaves { LeavesOutside (V.outside vault.old) (V.outside vault.new) }
    ensures numbers { SameNumbers V.used_words V.directory_at V.most_words V.access vault.old vault.new }
    ensures alive { UnlessBroken result (V.alive vault.new) }
{
    let Some(word) = ref_below::<V>(m, n) else {
        return Stepped::Damaged;
    };
    match procedure_in::<V>(m, word) {
        Some(at) => call_procedure(m, vault, word, at, n, line),
        None => Stepped::Damaged,
    }
}

// The procedure that a word names; None where it names none.
#[inline(always)]
fn procedure_in<V: Vault>(m: &Machine, word: u32) -> Option<u32>
    requires { IsNamed m.now.objects word }
    ensures called { (v : V) → MatchOption result (IsNotCalled m.now.objects (V.outside v) word) (IsCalled m.now.objects (V.outside v) word) }
    ensures held { IfSome result (IsHeld m.now.objects) }
{
    let to = object(word);
    match m.objects.sort_of::<V>(to) {
        Sort::Procedure => to,
        _ => None,
    }
}

// Calls the procedure that a word names.
#[inline(always)]
fn call_procedure<V: Vault>(
    m: &mut Machine,
    vault: &mut V,
    word: u32,
    at: u32,
    n: u32,
    line: Line,
) -> Stepped
    requires sound { IsSound m.old }
    requires names { NamesObjects m.old }
    requires alive { V.alive vault.old }
    requires held { IsHeld m.old.objects at }
    requires called { IsCalled m.old.objects (V.outside vault.old) word at }
    requires below { IsBelow (V.outside vault.old) n word m.old }
    requires there { m.old.frame.refs + n < length m.old.refs.own }
    ensures takes { Takes (V.outside vault.old) (V.outside vault.new) (call_of n line) m.old m.new result }
    ensures fails { FailsAsReading (V.outside vault.old) (V.outside vault.new) result m.new }
    ensures leaves { LeavesOutside (V.outside vault.old) (V.outside vault.new) }
    ensures numbers { SameNumbers V.used_words V.directory_at V.most_words V.access vault.old vault.new }
    ensures alive { UnlessBroken result (V.alive vault.new) }
{
    let _ = word;
    let got = m.objects.body_of(vault, at);
    match got {
        Ok(body) => call_with::<V>(m, body, n, line),
        Err(fault) => broke(m, fault),
    }
}

// Calls a body that was looked up, where it takes so many references.
#[inline(always)]
fn call_with<V: Vault>(m: &mut Machine, found: body::Body, n: u32, line: Line) -> Stepped
    requires sound { IsSound m.old }
    requires there { m.old.frame.refs + n < length m.old.refs.own }
    ensures calls { (v : V) → CallsWith (V.outside v) found n line m.old m.new result }
    ensures goes { result ≢ Breaks }
{
    m.objects.sound();
    if n != u32::from(found.frame.ref_params) {
        return Stepped::Damaged;
    }
    if !fits(found.frame) {
        return Stepped::Damaged;
    }
    let body = Body {
        code: found.code,
        place: found.place,
        frame: found.frame,
        scope: word(found.scope),
    };
    call_body::<V>(m, body, n, line)
}
