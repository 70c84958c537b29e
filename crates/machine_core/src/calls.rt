//! Calls: the body that runs waits, and another one begins.
ghost use Rattle.std.specs.Prelude.{◌≡◌, ◌≢◌, ◌+◌, ◌<◌, ◌≤◌, length, true, vec_len, IfSome, List};
ghost use Rattle.joint_ops.specs.obj_layout.declared.reference.Reference.{Reference};
ghost use Rattle.ps_stepping.specs.ps_meaning.Evaluation.{most_calls};
ghost use Rattle.ps_stepping.specs.Config.{Config};
ghost use Rattle.ps_stepping.specs.Procedures.{takes_refs as takes_refs_of};
ghost use Rattle.machine_core.specs.Calling.{Calls, HasBelow};
ghost use Rattle.machine_core.specs.Holding.{HeldBy, IsSound};
ghost use Rattle.machine_core.specs.Naming.{IsNamed, NamesObjects};
ghost use Rattle.machine_core.specs.declared.stepped.Stepped.TheVariants.{Breaks};
ghost use Rattle.machine_core.specs.inside.Handing.{IsEntered};

use crate::body::Body;
use crate::caller::Caller;
use crate::ends::{halt, trapped};
use crate::machine::{FRAME_WORDS, MOST_CALLERS, Machine};
use crate::run_end::RunEnd;
use crate::stepped::Stepped;
use joint_ops::obj_layout::vault::Vault;
use ps_base::code_unit::Frame;
use ps_base::line::Line;
use ps_base::trap::Trap;

/// Whether a frame fits on the stacks, and its locals include its parameters.
#[inline(always)]
pub fn fits(frame: Frame) -> bool
    ensures { result ≡ takes_refs_of frame.ref_params frame }
{
    frame.ref_params <= frame.refs
        && frame.num_params <= frame.nums
        && frame.nums as usize <= FRAME_WORDS
        && frame.refs as usize <= FRAME_WORDS
}

/// The reference below so many on top, where so many were pushed.
#[inline(always)]
pub fn ref_below<V: Vault>(m: &Machine, n: u32) -> Option<u32>
    ensures named { NamesObjects m.now → IfSome result (λ w. IsNamed m.now.objects w) }
    ensures below { (v : V) (names : List Reference) (c : Config) → HeldBy (V.outside v) names m.now c → HasBelow (V.outside v) n names m.now c result }
    ensures there { IfSome result (λ w. m.now.frame.refs + n < length m.now.refs.own) }
{
    let count = m.refs.len();
    if count <= m.frame.refs as usize + n as usize {
        return None;
    }
    Some(m.refs.word(count - 1 - n as usize))
}

/// Calls a body, with so many references on top, below which its procedure stands, and with the numbers on top that its frame takes. Damaged where
/// fewer numbers were pushed. Trap TooDeep where 2,000 bodies wait already; then a turn is taken, where one is left.
#[inline(always)]
pub fn call_body<V: Vault>(m: &mut Machine, body: Body, refs: u32, line: Line) -> Stepped
    requires sound { IsSound m.old }
    requires there { m.old.frame.refs + refs < length m.old.refs.own }
    requires takes { takes_refs_of refs body.frame ≡ true }
    ensures calls { (v : V) → Calls (V.outside v) body refs line m.old m.new result }
    ensures goes { result ≢ Breaks }
{
    let params = body.frame.num_params;
    if m.nums.len() < m.frame.nums as usize + params as usize {
        return Stepped::Damaged;
    }
    if m.callers.len() >= MOST_CALLERS {
        return trapped::<V>(m, Trap::TooDeep, line);
    }
    if m.turns == 0 {
        return halt::<V>(m, RunEnd::OutOfTurns);
    }
    m.turns -= 1;
    enter(m, body, refs);
    Stepped::Turns
}

// The body that runs waits, and this one begins with its arguments.
#[inline(always)]
fn enter(m: &mut Machine, body: Body, refs: u32)
    requires sound { IsSound m.old }
    requires few { vec_len m.old.callers < most_calls }
    requires there { m.old.frame.refs + refs < length m.old.refs.own }
    requires nums { m.old.frame.nums + body.frame.num_params ≤ length m.old.nums.own }
    requires takes { takes_refs_of refs body.frame ≡ true }
    ensures { IsEntered body refs m.old m.new }
{
    let params = body.frame.num_params as usize;
    m.callers.push_reserved(Caller {
        code: m.code,
        place: m.place,
        frame: m.frame,
        scope: m.scope,
        at: m.at,
        nums: m.nums.len() - params,
        refs: m.refs.len() - refs as usize,
    });
    m.nums.open(params, body.frame.nums as usize, 0);
    m.refs.open(refs as usize, body.frame.refs as usize, 0);
    m.code = body.code;
    m.place = body.place;
    m.frame = body.frame;
    m.scope = body.scope;
    m.at = 0;
}
