//! The library's functions over the input.
ghost use Rattle.std.specs.Prelude.{◌≢◌};
ghost use Rattle.machine_core.specs.ps_stepping.Library.{read_line as read_line_of, at_end as at_end_of};
ghost use Rattle.machine_core.specs.Failing.{FailsAsReading};
ghost use Rattle.machine_core.specs.Holding.{IsSound};
ghost use Rattle.machine_core.specs.declared.stepped.Stepped.TheVariants.{Breaks};
ghost use Rattle.machine_core.specs.Stepped.{Takes};

use machine_core::ends::trapped;
use machine_core::obj_layout::vault::Vault;
use machine_core::stacks::push_num;
use machine_core::values::number;
use machine_core::{Machine, Stepped};
use machine_operands::gives::give_text;
use ps_base::line::Line;
use ps_base::trap::Trap;

/// Reads the next line of the input, and pushes it as a new text. Trap NoInput where nothing is left, TooLong where the line is longer than a string;
/// it breaks off where the area has no room for the text.
pub fn read_line<V: Vault>(m: &mut Machine, line: Line) -> Stepped
    requires { IsSound m.old }
    ensures takes { (v : V) → Takes (V.outside v) (V.outside v) (read_line_of line) m.old m.new result }
    ensures fails { (v : V) → FailsAsReading (V.outside v) (V.outside v) result m.new }
{
    if m.input.is_at_end() {
        return trapped::<V>(m, Trap::NoInput, line);
    }
    let text = m.input.line();
    let count = text.len();
    let made = m.objects.text_of_bytes::<V>(text);
    m.input.pass_line(count);
    give_text::<V>(m, made, line)
}

/// Pushes whether all of the input was read.
#[inline]
pub fn at_end<V: Vault>(m: &mut Machine) -> Stepped
    requires { IsSound m.old }
    ensures takes { (v : V) → Takes (V.outside v) (V.outside v) at_end_of m.old m.new result }
    ensures goes { result ≢ Breaks }
{
    let ended = m.input.is_at_end();
    push_num::<V>(m, number(ended))
}
