//! Instructions over strings. Where there isn't what an instruction wants on the stacks, or it is no text, the code is damaged; an instruction that makes
//! a text breaks off where the area has no room for it.
ghost use Rattle.std.specs.Prelude.{◌≡◌, ◌≢◌, ℕ, List};
ghost use Rattle.machine_core.specs.obj_layout.Storing.{SameNumbers};
ghost use Rattle.machine_core.specs.swizzle.Reading.{LeavesOutside};
ghost use Rattle.machine_core.specs.ps_heap.Texts.{order_of};
ghost use Rattle.machine_core.specs.ps_meaning.Operations.{text_relation};
ghost use Rattle.machine_core.specs.ps_stepping.Config.{constants_in, constant_at};
ghost use Rattle.machine_core.specs.ps_stepping.Machine.{push_text as push_text_of, write_text as write_text_of};
ghost use Rattle.machine_core.specs.ps_stepping.Objects.{join as join_of, part as part_of, compare_texts as compare_texts_of};
ghost use Rattle.machine_core.specs.ps_stepping.Library.{int_text as int_text_of, text_length as text_length_of};
ghost use Rattle.machine_core.specs.Failing.{FailsAsReading};
ghost use Rattle.machine_core.specs.Holding.{IsSound};
ghost use Rattle.machine_core.specs.Naming.{NamesObjects};
ghost use Rattle.machine_core.specs.declared.stepped.Stepped.TheVariants.{Breaks};
ghost use Rattle.machine_core.specs.Stepped.{Takes, UnlessBroken};

use machine_core::obj_layout::vault::Vault;
use machine_core::stacks::{push_num, push_ref};
use machine_core::values::number;
use machine_core::writes::written;
use machine_core::{Item, Machine, Stepped};
use machine_operands::constants::text_constant;
use machine_operands::gives::give_text;
use machine_operands::pops::{pop_int, pop_text, take_width};
use ps_base::line::Line;
use ps_base::operator::Relation;
use std::cmp::Ordering;

// The line of an operation that has no trap.
const NO_LINE: Line = Line(0);

/// Pushes the text constant of this number of the code, which is fetched where it isn't in the area.
#[inline]
pub fn push_text<V: Vault>(m: &mut Machine, vault: &mut V, k: u32) -> Stepped
    requires sound { IsSound m.old }
    requires names { NamesObjects m.old }
    requires alive { V.alive vault.old }
    ensures takes { Takes (V.outside vault.old) (V.outside vault.new) (λ c. push_text_of (constant_at (constants_in c.unit) k) c) m.old m.new result }
    ensures fails { FailsAsReading (V.outside vault.old) (V.outside vault.new) result m.new }
    ensures leaves { LeavesOutside (V.outside vault.old) (V.outside vault.new) }
    ensures numbers { SameNumbers V.used_words V.directory_at V.most_words V.access vault.old vault.new }
    ensures alive { UnlessBroken result (V.alive vault.new) }
{
    match text_constant(m, vault, k) {
        Ok(text) => push_ref::<V>(m, Some(text)),
        Err(answer) => answer,
    }
}

/// Pops two texts, and pushes the one after the other.
#[inline]
pub fn join<V: Vault>(m: &mut Machine, vault: &V, line: Line) -> Stepped
    requires sound { IsSound m.old }
    requires names { NamesObjects m.old }
    ensures takes { Takes (V.outside vault.now) (V.outside vault.now) (join_of line) m.old m.new result }
    ensures fails { FailsAsReading (V.outside vault.now) (V.outside vault.now) result m.new }
{
    let Some(b) = pop_text::<V>(m) else {
        return Stepped::Damaged;
    };
    let Some(a) = pop_text::<V>(m) else {
        return Stepped::Damaged;
    };
    let made = m.objects.join(vault, a, b);
    give_text::<V>(m, made, line)
}

/// Pops a count, a first place and a text, and pushes the part.
#[inline]
pub fn part<V: Vault>(m: &mut Machine, vault: &V, line: Line) -> Stepped
    requires sound { IsSound m.old }
    requires names { NamesObjects m.old }
    ensures takes { Takes (V.outside vault.now) (V.outside vault.now) (part_of line) m.old m.new result }
    ensures fails { FailsAsReading (V.outside vault.now) (V.outside vault.now) result m.new }
{
    let Some(count) = pop_int::<V>(m) else {
        return Stepped::Damaged;
    };
    let Some(from) = pop_int::<V>(m) else {
        return Stepped::Damaged;
    };
    let Some(text) = pop_text::<V>(m) else {
        return Stepped::Damaged;
    };
    let made = m.objects.part(vault, text, from, count);
    give_text::<V>(m, made, line)
}

/// Pops an int, and pushes its shortest decimal text.
#[inline]
pub fn int_text<V: Vault>(m: &mut Machine, vault: &V) -> Stepped
    requires sound { IsSound m.old }
    requires names { NamesObjects m.old }
    ensures takes { Takes (V.outside vault.now) (V.outside vault.now) int_text_of m.old m.new result }
    ensures fails { FailsAsReading (V.outside vault.now) (V.outside vault.now) result m.new }
{
    let Some(z) = pop_int::<V>(m) else {
        return Stepped::Damaged;
    };
    let made = m.objects.int_text(vault, z);
    give_text::<V>(m, made, NO_LINE)
}

/// Pops a text, and pushes how many bytes it has.
#[inline]
pub fn length<V: Vault>(m: &mut Machine) -> Stepped
    requires sound { IsSound m.old }
    requires names { NamesObjects m.old }
    ensures takes { (v : V) → Takes (V.outside v) (V.outside v) text_length_of m.old m.new result }
    ensures goes { result ≢ Breaks }
{
    let Some(text) = pop_text::<V>(m) else {
        return Stepped::Damaged;
    };
    let count = m.objects.text_length::<V>(text);
    push_num::<V>(m, count.cast_signed())
}

/// Pops two texts, and pushes whether they stand in a relation.
#[inline]
pub fn compare_texts<V: Vault>(m: &mut Machine, relation: Relation) -> Stepped
    requires sound { IsSound m.old }
    requires names { NamesObjects m.old }
    ensures takes { (v : V) → Takes (V.outside v) (V.outside v) (compare_texts_of relation) m.old m.new result }
    ensures goes { result ≢ Breaks }
{
    let Some(b) = pop_text::<V>(m) else {
        return Stepped::Damaged;
    };
    let Some(a) = pop_text::<V>(m) else {
        return Stepped::Damaged;
    };
    let order = m.objects.compare::<V>(a, b);
    let stands = is_related(relation, order);
    push_num::<V>(m, number(stands))
}

// Whether texts that compare so stand in a relation.
#[inline(always)]
fn is_related(relation: Relation, order: Ordering) -> bool
    ensures { (v w : List ℕ) → order_of v w ≡ order → text_relation relation v w ≡ result }
{
    match relation {
        Relation::Equal => order.is_eq(),
        Relation::NotEqual => !order.is_eq(),
        Relation::Less => order.is_lt(),
        Relation::LessEqual => !order.is_gt(),
        Relation::Greater => order.is_gt(),
        Relation::GreaterEqual => !order.is_lt(),
    }
}

/// Writes a text, in places where a width was pushed.
#[inline]
pub fn write_text<V: Vault>(m: &mut Machine, given: u32, line: Line) -> Stepped
    requires sound { IsSound m.old }
    requires names { NamesObjects m.old }
    ensures takes { (v : V) → Takes (V.outside v) (V.outside v) (write_text_of given line) m.old m.new result }
    ensures goes { result ≢ Breaks }
{
    let Some(width) = take_width::<V>(m, given) else {
        return Stepped::Damaged;
    };
    let Some(text) = pop_text::<V>(m) else {
        return Stepped::Damaged;
    };
    m.objects.sound();
    written::<V>(m, width, Item::Text(text), line)
}
