ghost use Rattle.std.specs.Prelude.{◌≡◌, Option, Some, None, ◌≢◌};
ghost use Rattle.std.specs.Fmt.{signed_decimal};
ghost use Rattle.ps_base.specs.declared.trap.Trap.TheVariants.{Abort};
ghost use Rattle.ps_stepping.specs.ps_heap.Ends.{Trapped};
ghost use Rattle.ps_stepping.specs.ps_heap.Values.{is_one as is_one_of, flag_text};
ghost use Rattle.ps_stepping.specs.ps_meaning.Meaning.{is_width as is_width_of};
ghost use Rattle.ps_stepping.specs.Machine.{Stops, written as written_of, write_num as write_num_of};
ghost use Rattle.machine_core.specs.Holding.{IsSound};
ghost use Rattle.machine_core.specs.Stepped.{Takes, item_text, IsItem};
ghost use Rattle.machine_core.specs.declared.stepped.Stepped.TheVariants.{Breaks};

use crate::ends::trapped;
use crate::jumps::is_one;
use crate::machine::Machine;
use crate::stacks::{pop_num, pop_width};
use crate::stepped::{Item, Stepped, Writing};
use joint_ops::obj_layout::vault::Vault;
use ps_base::line::Line;
use ps_base::trap::Trap;

/// The greatest width of a write, which is the length of the longest text.
const GREATEST_WIDTH: i32 = 65_535;

// Whether an item can stand in so many places.
#[inline(always)]
fn is_width(width: Option<i32>) -> bool
    ensures { result ≡ is_width_of width }
{
    match width {
        Some(places) => places <= GREATEST_WIDTH,
        None => true,
    }
}

/// Writes an item where its width isn't too great.
#[inline(always)]
pub fn written<V: Vault>(m: &mut Machine, width: Option<i32>, item: Item, line: Line) -> Stepped
    requires sound { IsSound m.old }
    requires item { IsItem m.old.objects item }
    ensures takes { (v : V) → Takes (V.outside v) (V.outside v) (written_of line width (item_text m.old.objects item)) m.old m.new result }
    ensures goes { result ≢ Breaks }
{
    if is_width(width) {
        m.writing = Writing { width, item };
        return Stepped::Writes;
    }
    trapped::<V>(m, Trap::TooLong, line)
}

/// Writes an int, in places where a width was pushed above it.
#[inline(always)]
pub fn write_int<V: Vault>(m: &mut Machine, given: u32, line: Line) -> Stepped
    requires { IsSound m.old }
    ensures takes { (v : V) → Takes (V.outside v) (V.outside v) (write_num_of given line signed_decimal) m.old m.new result }
    ensures goes { result ≢ Breaks }
{
    let Some(width) = pop_width::<V>(m, given) else {
        return Stepped::Damaged;
    };
    let Some(z) = pop_num::<V>(m) else {
        return Stepped::Damaged;
    };
    written::<V>(m, width, Item::Int(z), line)
}

/// Writes a bool, in places where a width was pushed above it.
#[inline(always)]
pub fn write_flag<V: Vault>(m: &mut Machine, given: u32, line: Line) -> Stepped
    requires { IsSound m.old }
    ensures takes { (v : V) → Takes (V.outside v) (V.outside v) (write_num_of given line (λ z. flag_text (is_one_of z))) m.old m.new result }
    ensures goes { result ≢ Breaks }
{
    let Some(width) = pop_width::<V>(m, given) else {
        return Stepped::Damaged;
    };
    let Some(z) = pop_num::<V>(m) else {
        return Stepped::Damaged;
    };
    written::<V>(m, width, Item::Flag(is_one(z)), line)
}

/// Ends the run by the program's own will.
#[inline(always)]
pub fn abort<V: Vault>(m: &mut Machine, line: Line) -> Stepped
    requires { IsSound m.old }
    ensures takes { (v : V) → Takes (V.outside v) (V.outside v) (λ c. Stops (Trapped Abort line) 0) m.old m.new result }
    ensures goes { result ≢ Breaks }
{
    trapped::<V>(m, Trap::Abort, line)
}
