//! The instruction that makes a structure.
ghost use Rattle.std.specs.Prelude.{◌≡◌, ◌+◌, ◌<◌, ◌≤◌, MatchOption, drop, length};
ghost use Rattle.machine_core.specs.obj_layout.Storing.{SameNumbers};
ghost use Rattle.machine_core.specs.swizzle.Reading.{LeavesOutside};
ghost use Rattle.machine_core.specs.swizzle.Text.{text_at};
ghost use Rattle.machine_core.specs.ps_stepping.Objects.{make_structure as make_structure_of};
ghost use Rattle.machine_core.specs.objects.Makes.{HasRows};
ghost use Rattle.machine_core.specs.Failing.{FailsAsReading};
ghost use Rattle.machine_core.specs.Holding.{IsSound};
ghost use Rattle.machine_core.specs.Naming.{NamesObjects};
ghost use Rattle.machine_core.specs.Stepped.{Takes, UnlessBroken};
ghost use Rattle.machine_structures.specs.inside.Making.{structure_of};

use crate::laying::lay_fields;
use machine_core::obj_layout::vault::Vault;
use machine_core::objects::class_rows::ClassRows;
use machine_core::text_forms::forms::{Rows, count_places};
use machine_core::{FRAME_WORDS, Machine, Stepped};
use machine_operands::constants::text_constant;
use machine_operands::gives::{broke, give_object, give_structure};
use ps_base::line::Line;

// The line of an operation that has no trap.
const NO_LINE: Line = Line(0);

/// Pops the values of the fields of a class, the last field first, each from the stack of its form; makes a structure of them, and pushes it. The class is
/// the text constant of this number of the code. Damaged where there are too few values, or the stack is full; breaks off where the code has no such
/// class, what isn't in the area can't be fetched, or the area has no room.
#[inline]
pub fn make_structure<V: Vault>(m: &mut Machine, vault: &mut V, k: u32) -> Stepped
    requires sound { IsSound m.old }
    requires names { NamesObjects m.old }
    requires alive { V.alive vault.old }
    ensures takes { Takes (V.outside vault.old) (V.outside vault.new) (make_structure_of k) m.old m.new result }
    ensures fails { FailsAsReading (V.outside vault.old) (V.outside vault.new) result m.new }
    ensures leaves { LeavesOutside (V.outside vault.old) (V.outside vault.new) }
    ensures numbers { SameNumbers V.used_words V.directory_at V.most_words V.access vault.old vault.new }
    ensures alive { UnlessBroken result (V.alive vault.new) }
{
    let got = m.objects.class_rows(vault, m.code, k);
    match got {
        Ok(class) => match class {
            Some(rows) => make_of_rows::<V>(m, rows),
            None => make_by_text(m, vault, k),
        },
        Err(fault) => broke::<V>(m, fault),
    }
}

// Makes a structure of a class, of the tops of both stacks, and pushes it.
#[inline]
fn make_of_rows<V: Vault>(m: &mut Machine, class: ClassRows) -> Stepped
    requires sound { IsSound m.old }
    requires names { NamesObjects m.old }
    requires class { HasRows m.old.objects class }
    ensures takes { (v : V) → Takes (V.outside v) (V.outside v) (structure_of (text_at m.old.objects class.text)) m.old m.new result }
    ensures fails { (v : V) → FailsAsReading (V.outside v) (V.outside v) result m.new }
{
    let Rows { refs, nums } = class.fields.rows;
    let Some(first_num) = below_top(m.nums.len(), m.frame.nums, nums) else {
        return Stepped::Damaged;
    };
    let Some(first_ref) = below_top(m.refs.len(), m.frame.refs, refs) else {
        return Stepped::Damaged;
    };
    let made = m.objects.make_from::<V>(
        class,
        top_nums(m.nums.own(), first_num),
        top_refs(m.refs.own(), first_ref),
    );
    m.nums.truncate(first_num);
    m.refs.truncate(first_ref);
    give_object::<V>(m, made, NO_LINE)
}

// How many words lie below so many on top, where those lie above the locals.
#[inline(always)]
fn below_top(all: usize, locals: u16, count: u32) -> Option<usize>
    ensures { MatchOption result (all < locals + count) (λ first. (first + count ≡ all) × (locals ≤ first)) }
{
    let count = count as usize;
    if all < locals as usize + count {
        return None;
    }
    Some(all - count)
}

// The numbers from an index on.
#[inline(always)]
fn top_nums(stack: &[i32], first: usize) -> &[i32]
    requires { first ≤ length stack.now }
    ensures { result.now ≡ drop first stack.now }
{
    stack.split_at(first).1
}

// The references from an index on.
#[inline(always)]
fn top_refs(stack: &[u32], first: usize) -> &[u32]
    requires { first ≤ length stack.now }
    ensures { result.now ≡ drop first stack.now }
{
    stack.split_at(first).1
}

// Makes a structure of a class with more fields than `ClassRows` tells of, by its text. Where the stack is full there is no step, and nothing is made.
#[inline(never)]
fn make_by_text<V: Vault>(m: &mut Machine, vault: &mut V, k: u32) -> Stepped
    requires sound { IsSound m.old }
    requires names { NamesObjects m.old }
    requires alive { V.alive vault.old }
    ensures takes { Takes (V.outside vault.old) (V.outside vault.new) (make_structure_of k) m.old m.new result }
    ensures fails { FailsAsReading (V.outside vault.old) (V.outside vault.new) result m.new }
    ensures leaves { LeavesOutside (V.outside vault.old) (V.outside vault.new) }
    ensures numbers { SameNumbers V.used_words V.directory_at V.most_words V.access vault.old vault.new }
    ensures alive { UnlessBroken result (V.alive vault.new) }
{
    let class = match text_constant(m, vault, k) {
        Ok(class) => class,
        Err(answer) => return answer,
    };
    let text = m.objects.text_bytes::<V>(class);
    let Rows { refs, nums } = count_places(text);
    let Some(first_num) = below_top(m.nums.len(), m.frame.nums, nums) else {
        return Stepped::Damaged;
    };
    let Some(first_ref) = below_top(m.refs.len(), m.frame.refs, refs) else {
        return Stepped::Damaged;
    };
    if first_ref >= FRAME_WORDS {
        return Stepped::Damaged;
    }
    lay_fields(
        text,
        top_nums(m.nums.own(), first_num),
        top_refs(m.refs.own(), first_ref),
        &mut m.values,
    );
    m.nums.truncate(first_num);
    m.refs.truncate(first_ref);
    let made = m.objects.make_structure(vault, m.code, k, &m.values);
    give_structure::<V>(m, made)
}
