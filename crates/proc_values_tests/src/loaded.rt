//! What a loaded unit is, and what is read of it.

ghost use Rattle.proc_values.specs.swizzle.Heap.{IsHeld};

use crate::sample::{INNER, OUTER, counts, has, loaded, outer, read, refers_to, worked_out};
use memory_vault::obj_layout::kind::Kind;
use proc_values::load::load_unit;
use proc_values::reading::instr_at;
use proc_values::swizzle::swizzle::Swizzle;
use ps_base::code_unit::CodeUnit;
use ps_base::instr::Instr;
use std::test::Fail;

const OUTER_WORDS: [u64; 5] = [
    0,
    0x0004_0003_0002_0001,
    0x0001_3c00_0000_0004,
    0x3e00_0000_0204_0000,
    0,
];

fn lies_behind_its_constants(sw: &Swizzle) -> bool
    requires { IsHeld sw.now 28 }
{
    sw.top() == 40
        && has(sw, 28, Kind::Code, &OUTER)
        && refers_to(sw, 28, &[1, 13, 21])
        && counts(sw, 28, &OUTER_WORDS)
}

#[test]
fn lays_a_code_object_behind_its_constants(rt: HostRuntime) -> Result<(), Fail> {
    let sw = loaded(rt.alloc(), 50)?;
    assert!(rt; lies_behind_its_constants(&sw));
    Ok(())
}

fn loads_the_formats(sw: &mut Swizzle, unit: &CodeUnit) -> bool {
    load_unit(sw, unit) == Ok(7)
        && sw.header(7).bytes == 10
        && refers_to(sw, 7, &[1])
        && counts(sw, 7, &[0, 0x0001_0000_0002_0001, 0x0000_3e00_0000_0004, 0])
}

#[test]
fn lays_the_object_of_the_formats(rt: HostRuntime) -> Result<(), Fail> {
    let unit = worked_out(rt.alloc())?;
    let mut sw = Swizzle::new(rt.alloc(), 15)?;
    assert!(rt; loads_the_formats(&mut sw, &unit));
    Ok(())
}

fn reads_its_texts(sw: &mut Swizzle) -> bool
    requires { IsHeld sw.old 28 }
{
    read(sw, 28, 0) == Ok(1)
        && has(sw, 1, Kind::Text, b"ab")
        && read(sw, 28, 2) == Ok(21)
        && has(sw, 21, Kind::Text, b"nine long")
}

#[test]
fn reads_each_constant(rt: HostRuntime) -> Result<(), Fail> {
    let mut sw = loaded(rt.alloc(), 50)?;
    assert!(rt; reads_its_texts(&mut sw));
    Ok(())
}

fn reads_its_literal(sw: &mut Swizzle) -> bool
    requires { IsHeld sw.old 28 }
{
    read(sw, 28, 1) == Ok(13)
        && has(sw, 13, Kind::Code, &INNER)
        && counts(sw, 13, &[0, 0xffff_0000_0000_0005, 0x0000_0000_0002_3e05])
        && refers_to(sw, 13, &[7])
        && read(sw, 13, 0) == Ok(7)
        && has(sw, 7, Kind::Text, b"x")
}

#[test]
fn reads_the_constants_of_a_literal(rt: HostRuntime) -> Result<(), Fail> {
    let mut sw = loaded(rt.alloc(), 50)?;
    assert!(rt; reads_its_literal(&mut sw));
    Ok(())
}

fn loads_once_more(sw: &mut Swizzle, unit: &CodeUnit) -> bool {
    load_unit(sw, unit) == Ok(67) && sw.top() == 79 && refers_to(sw, 67, &[40, 52, 60])
}

#[test]
fn loads_behind_what_is_there(rt: HostRuntime) -> Result<(), Fail> {
    let unit = outer(rt.alloc())?;
    let mut sw = loaded(rt.alloc(), 78)?;
    assert!(rt; loads_once_more(&mut sw, &unit));
    Ok(())
}

// The text that an instruction names, and the offset after it.
fn text_named(sw: &Swizzle, code: u32, at: u32) -> Option<(u32, u32)>
    requires { IsHeld sw.now code }
{
    match instr_at(sw, code, at) {
        Ok((Instr::Text { c }, next)) => Some((c, next)),
        _ => None,
    }
}

// The offset after an instruction.
fn next(sw: &Swizzle, code: u32, at: u32) -> Option<u32>
    requires { IsHeld sw.now code }
{
    match instr_at(sw, code, at) {
        Ok((_, next)) => Some(next),
        Err(_) => None,
    }
}

fn decodes_to_its_end(sw: &Swizzle) -> bool
    requires { IsHeld sw.now 28 }
{
    text_named(sw, 28, 0) == Some((0, 5))
        && text_named(sw, 28, 5) == None
        && next(sw, 28, 5) == Some(10)
        && text_named(sw, 28, 10) == Some((2, 15))
        && next(sw, 28, 15) == Some(20)
}

#[test]
fn decodes_one_instruction_after_the_other(rt: HostRuntime) -> Result<(), Fail> {
    let sw = loaded(rt.alloc(), 50)?;
    assert!(rt; decodes_to_its_end(&sw));
    Ok(())
}
