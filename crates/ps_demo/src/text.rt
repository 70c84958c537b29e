ghost use Rattle.std.specs.Prelude.{◌≡◌, ◌+◌, ◌≤◌, ◌++◌, length, decimal, OnOk, IfOk};
ghost use Rattle.ps_demo.specs.Demo.{closing_lines, demo_text as text_of, ended, entry_line, entry_lines, opening_lines, text_of_lines};

use itoa::Buffer;
use std::alloc::{AllocError, Global};

/// The text of the demo program for so many entries. It is shorter than the longest text that a program may have.
pub fn demo_text(alloc: Global, number: u32) -> Result<Vec<u8>, AllocError>
    requires some { 1 ≤ number }
    requires few { number ≤ 10000 }
    ensures text { IfOk result (λ text. text.items ≡ text_of number) }
    ensures short { IfOk result (λ text. length text.items ≤ 1048576) }
{
    let mut text = Vec::new(alloc);
    write_opening(&mut text)?;
    write_entries(&mut text, number)?;
    write_closing(&mut text, number)?;
    Ok(text)
}

// The lines before the entries.
fn write_opening(text: &mut Vec<u8>) -> Result<(), AllocError>
    ensures { OnOk result (text.new.items ≡ text.old.items ++ text_of_lines opening_lines) }
{
    write(
        text,
        br#"structure entry(string town; int code)
let d := open.database("demo", "demo", "write")
if d is error.record do d := create.database("demo", "demo")
"#,
    )
}

// The line of each entry, from the first on.
fn write_entries(text: &mut Vec<u8>, number: u32) -> Result<(), AllocError>
    requires { number ≤ 10000 }
    ensures { OnOk result (text.new.items ≡ text.old.items ++ text_of_lines (entry_lines number)) }
{
    for before in 0..number {
        write_entry(text, number, before + 1)?;
    }
    Ok(())
}

// The line that enters one of the entries: its key, its town and its code.
fn write_entry(text: &mut Vec<u8>, number: u32, place: u32) -> Result<(), AllocError>
    requires few { number ≤ 10000 }
    requires one { place ≤ number }
    ensures { OnOk result (text.new.items ≡ text.old.items ++ ended (entry_line number place)) }
{
    write(text, b"s.enter(\"k")?;
    write_number(text, 1000 * number + place)?;
    write(text, b"\", d, entry(\"town")?;
    write_number(text, place)?;
    write(text, b"\", ")?;
    write_number(text, number + place)?;
    write(text, b"))\n")
}

// The lines behind the entries.
fn write_closing(text: &mut Vec<u8>, number: u32) -> Result<(), AllocError>
    ensures { OnOk result (text.new.items ≡ text.old.items ++ text_of_lines (closing_lines number)) }
{
    write(
        text,
        br#"let sum := 0
let count = s.scan(d, proc(string k; pntr p -> bool); { sum := sum + p(code); true })
let e = commit()
write "#,
    )?;
    write_number(text, number)?;
    write(
        text,
        b", \" \", count, \" \", cardinality(d), \" \", sum, \"'n\"\n",
    )
}

// A number in decimal digits.
fn write_number(text: &mut Vec<u8>, number: u32) -> Result<(), AllocError>
    ensures { OnOk result (text.new.items ≡ text.old.items ++ decimal number) }
{
    let mut buffer = Buffer::new();
    write(text, buffer.format(number).as_bytes())
}

fn write(text: &mut Vec<u8>, bytes: &[u8]) -> Result<(), AllocError>
    ensures { OnOk result (text.new.items ≡ text.old.items ++ bytes.now) }
{
    text.extend_from_slice(bytes)?;
    Ok(())
}
