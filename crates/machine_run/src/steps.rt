//! One step: the instruction at the machine's offset.
ghost use Rattle.std.specs.Prelude.{◌≡◌};
ghost use Rattle.machine_core.specs.obj_layout.Storing.{SameNumbers};
ghost use Rattle.machine_core.specs.swizzle.Reading.{LeavesOutside};
ghost use Rattle.machine_core.specs.Failing.{FailsAsReading};
ghost use Rattle.machine_core.specs.Holding.{IsSound};
ghost use Rattle.machine_core.specs.Naming.{NamesObjects};
ghost use Rattle.machine_core.specs.Stepped.{TakesStep, UnlessBroken};
ghost use Rattle.machine_run.specs.Acting.{ActsAs};

use crate::library::library;
use machine_calls::blocks::{enter_scope, leave_scope};
use machine_calls::calls::call;
use machine_calls::names::{keep_num, keep_ref, kept_num, kept_ref};
use machine_calls::procedures::closure;
use machine_core::jumps::{again, and, drop_num, forward, jump_false, jump_true, or};
use machine_core::loops::{for_next, for_start};
use machine_core::obj_layout::vault::Vault;
use machine_core::returns::returned;
use machine_core::stacks::push_num;
use machine_core::values::{
    arith, compare, drop_ref, dup_num, dup_ref, get_num, get_ref, neg, not, set_num, set_ref,
};
use machine_core::writes::{abort, write_flag, write_int};
use machine_core::{Machine, Stepped};
use machine_strings::texts::{compare_texts, join, part, push_text, write_text};
use machine_structures::fields::{field_num, field_ref, set_field_num, set_field_ref};
use machine_structures::makes::make_structure;
use machine_structures::structures::{compare_objects, is_of_class, push_nil};
use machine_tables::Scan;
use machine_tables::scans::{scan_ints, scan_more, scan_strings};
use machine_vectors::bounds::{lower_bound, upper_bound};
use machine_vectors::elements::{element_num, element_ref, set_element_num, set_element_ref};
use machine_vectors::fills::{fill_num, fill_ref};
use machine_vectors::lists::{list_num, list_ref};
use ps_base::instr::Instr;
use ps_base::operator::{Operator, Relation};

/// Takes one step: does what the instruction at the machine's offset says. Where there is no instruction, or none that the machine can do, it
/// answers `Damaged`, and the machine is of no use. Where it breaks off, the machine's fault says why.
#[inline(always)]
pub fn step<V: Vault>(m: &mut Machine, vault: &mut V) -> Stepped
    requires sound { IsSound m.old }
    requires names { NamesObjects m.old }
    requires alive { V.alive vault.old }
    ensures takes { TakesStep (V.outside vault.old) (V.outside vault.new) m.old m.new result }
    ensures fails { FailsAsReading (V.outside vault.old) (V.outside vault.new) result m.new }
    ensures leaves { LeavesOutside (V.outside vault.old) (V.outside vault.new) }
    ensures numbers { SameNumbers V.used_words V.directory_at V.most_words V.access vault.old vault.new }
    ensures alive { UnlessBroken result (V.alive vault.new) }
{
    let own = m.at;
    m.objects.sound();
    match m.objects.instr_within(m.code, m.place, own) {
        Some((instr, after)) => {
            m.at = after;
            act(m, vault, own, instr)
        }
        None => Stepped::Damaged,
    }
}

/// Does what an instruction says, whose own offset this is. The machine stands after it already. At a call on databases, of which this machine has none, it
/// answers `Damaged`.
#[inline(always)]
pub fn act<V: Vault>(m: &mut Machine, vault: &mut V, own: u32, instr: Instr) -> Stepped
    requires sound { IsSound m.old }
    requires names { NamesObjects m.old }
    requires alive { V.alive vault.old }
    ensures acts { ActsAs (V.outside vault.old) (V.outside vault.new) instr own m.old m.new result }
    ensures numbers { SameNumbers V.used_words V.directory_at V.most_words V.access vault.old vault.new }
    ensures alive { UnlessBroken result (V.alive vault.new) }
{
    match instr {
        Instr::Int { v } => push_num::<V>(m, v),
        Instr::True => push_num::<V>(m, 1),
        Instr::False => push_num::<V>(m, 0),
        Instr::Text { c } => push_text(m, vault, c),
        Instr::Nil => push_nil::<V>(m),
        Instr::GetM { s } => get_num::<V>(m, s as usize),
        Instr::GetP { s } => get_ref::<V>(m, s as usize),
        Instr::SetM { s } => set_num::<V>(m, s as usize),
        Instr::SetP { s } => set_ref::<V>(m, s as usize),
        Instr::KeptM { u, i } => kept_num(m, vault, u, i),
        Instr::KeptP { u, i } => kept_ref(m, vault, u, i),
        Instr::KeepM { u, i } => keep_num(m, vault, u, i),
        Instr::KeepP { u, i } => keep_ref(m, vault, u, i),
        Instr::Scope { c } => enter_scope(m, vault, c),
        Instr::Leave => leave_scope(m, vault),
        Instr::Jump { t } => forward::<V>(m, own, t),
        Instr::JumpFalse { t } => jump_false::<V>(m, own, t),
        Instr::Again { t } => again::<V>(m, own, t),
        Instr::And { t } => and::<V>(m, own, t),
        Instr::Or { t } => or::<V>(m, own, t),
        Instr::Not => not::<V>(m),
        Instr::Neg { line } => neg::<V>(m, line),
        Instr::Add { line } => arith::<V>(m, Operator::Add, line),
        Instr::Sub { line } => arith::<V>(m, Operator::Sub, line),
        Instr::Mul { line } => arith::<V>(m, Operator::Mul, line),
        Instr::Div { line } => arith::<V>(m, Operator::Div, line),
        Instr::Rem { line } => arith::<V>(m, Operator::Rem, line),
        Instr::EqM => compare::<V>(m, Relation::Equal),
        Instr::NeM => compare::<V>(m, Relation::NotEqual),
        Instr::LtM => compare::<V>(m, Relation::Less),
        Instr::LeM => compare::<V>(m, Relation::LessEqual),
        Instr::GtM => compare::<V>(m, Relation::Greater),
        Instr::GeM => compare::<V>(m, Relation::GreaterEqual),
        Instr::EqP => compare_objects::<V>(m, Relation::Equal),
        Instr::NeP => compare_objects::<V>(m, Relation::NotEqual),
        Instr::EqT => compare_texts::<V>(m, Relation::Equal),
        Instr::NeT => compare_texts::<V>(m, Relation::NotEqual),
        Instr::LtT => compare_texts::<V>(m, Relation::Less),
        Instr::LeT => compare_texts::<V>(m, Relation::LessEqual),
        Instr::GtT => compare_texts::<V>(m, Relation::Greater),
        Instr::GeT => compare_texts::<V>(m, Relation::GreaterEqual),
        Instr::Join { line } => join(m, vault, line),
        Instr::Part { line } => part(m, vault, line),
        Instr::Is { c } => is_of_class(m, vault, c),
        Instr::Make { c } => make_structure(m, vault, c),
        Instr::FieldM { c, i, line } => field_num(m, vault, c, i, line),
        Instr::FieldP { c, i, line } => field_ref(m, vault, c, i, line),
        Instr::SetFieldM { c, i, line } => set_field_num(m, vault, c, i, line),
        Instr::SetFieldP { c, i, line } => set_field_ref(m, vault, c, i, line),
        Instr::FillM { c, line } => fill_num(m, vault, c, line),
        Instr::FillP { c, line } => fill_ref(m, vault, c, line),
        Instr::ListM { c, n, line } => list_num(m, vault, c, n, line),
        Instr::ListP { c, n, line } => list_ref(m, vault, c, n, line),
        Instr::ElemM { line } => element_num(m, vault, line),
        Instr::ElemP { line } => element_ref(m, vault, line),
        Instr::SetElemM { line } => set_element_num(m, vault, line),
        Instr::SetElemP { line } => set_element_ref(m, vault, line),
        Instr::Lwb => lower_bound(m, vault),
        Instr::Upb => upper_bound(m, vault),
        Instr::Closure { c } => closure(m, vault, c),
        Instr::Call { n, line } => call(m, vault, n, line),
        Instr::Return { k } => returned::<V>(m, k),
        Instr::Lib { k, line } => library(m, vault, k, line),
        Instr::WriteI { w, line } => write_int::<V>(m, w, line),
        Instr::WriteB { w, line } => write_flag::<V>(m, w, line),
        Instr::WriteT { w, line } => write_text::<V>(m, w, line),
        Instr::Abort { line } => abort::<V>(m, line),
        Instr::ForStart { s, t, line } => for_start::<V>(m, own, s as usize, t, line),
        Instr::ForNext { s, t } => for_next::<V>(m, own, s as usize, t),
        Instr::ScanT { q, s, t, line } => scan_strings(
            m,
            vault,
            Scan {
                own,
                refs: q,
                nums: s,
                end: t,
                line,
            },
        ),
        Instr::ScanI { q, s, t, line } => scan_ints(
            m,
            vault,
            Scan {
                own,
                refs: q,
                nums: s,
                end: t,
                line,
            },
        ),
        Instr::ScanMore { s, t } => scan_more::<V>(m, own, s as usize, t),
        Instr::DupM => dup_num::<V>(m),
        Instr::DupP => dup_ref::<V>(m),
        Instr::DropM => drop_num::<V>(m),
        Instr::DropP => drop_ref::<V>(m),
        Instr::JumpTrue { t } => jump_true::<V>(m, own, t),
    }
}
