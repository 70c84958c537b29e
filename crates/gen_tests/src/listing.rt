//! The unit of a text, as lines of text: each instruction by its name and its operands, then the constants and the frame.

use crate::buffer::Buffer;
use parsed_texts::ps_base::code_unit::{CodeUnit, Constant};
use parsed_texts::ps_tree::rough::Rough;
use parsed_texts::{TextFault, tree_of};
use ps_check::check::check;
use ps_gen::generate::generate;
use ps_gen::ps_code::decode::decode;
use ps_gen::ps_code::table::rows;
use std::alloc::Global;
use std::test::Fail;

/// The unit of a text that fits the typing rules.
pub fn unit_of(alloc: Global, text: &[u8]) -> Result<CodeUnit, Fail> {
    match tree_of(alloc, text) {
        Ok(rough) => unit_of_tree(alloc, rough),
        Err(TextFault::TooLong) => Err("too long".into()),
        Err(TextFault::Scan(_)) => Err("scan".into()),
        Err(TextFault::Parse(_)) => Err("parse".into()),
    }
}

fn unit_of_tree(alloc: Global, rough: Rough) -> Result<CodeUnit, Fail> {
    let program = check(alloc, rough).map_err(|_| "check")?;
    Ok(generate(alloc, &program).map_err(|_| "generate")?)
}

/// How many instructions the code of a unit has.
pub fn count_of(unit: &CodeUnit) -> Result<usize, Fail> {
    let mut rest = unit.code.as_slice();
    let mut count = 0;
    for place in 0..rest.len() {
        let Some((_, width)) = decode(rest) else {
            break;
        };
        let (_, behind) = rest.split_at(width);
        rest = behind;
        count = place + 1;
    }
    if !rest.is_empty() {
        return Err("no instruction".into());
    }
    Ok(count)
}

/// The most units of a text that is listed.
const MOST_UNITS: usize = 100;

/// What the text of a program returns.
pub fn listed(alloc: Global, text: &[u8]) -> Result<String, Fail> {
    let unit = unit_of(alloc, text)?;
    let mut out = Buffer::new(alloc);
    let mut units = Vec::new(alloc);
    units.push(&unit)?;
    // The literals of a unit are listed after it.
    for _ in 0..MOST_UNITS {
        if units.is_empty() {
            break;
        }
        let next = units.remove(0);
        put_code(&mut out, next.code.as_slice());
        for constant in next.constants.as_slice() {
            match constant {
                Constant::Text(bytes) => put_text(&mut out, bytes.as_slice()),
                Constant::Unit(inner) => {
                    out.put("#");
                    units.push(inner)?;
                }
            }
        }
        put_frame(&mut out, next);
    }
    if !units.is_empty() {
        return Err("too many units".into());
    }
    out.finish()
}

fn put_text(out: &mut Buffer, bytes: &[u8]) {
    out.put("'");
    out.bytes(bytes);
    out.put("'");
}

// The locals of each stack, where there are any, and those of the arguments.
fn put_frame(out: &mut Buffer, unit: &CodeUnit) {
    let frame = unit.frame;
    for (name, count) in [
        (" m", frame.nums),
        (" p", frame.refs),
        (" am", frame.num_params),
        (" ap", frame.ref_params),
    ] {
        if count > 0 {
            out.put(name);
            out.number(u32::from(count));
        }
    }
    out.put("\n");
}

fn put_code(out: &mut Buffer, code: &[u8]) {
    let mut rest = code;
    for _ in 0..code.len() {
        let Some((_, width)) = decode(rest) else {
            break;
        };
        let (spelling, behind) = rest.split_at(width);
        put_instr(out, spelling);
        rest = behind;
    }
    if !rest.is_empty() {
        out.failed = true;
    }
}

fn put_instr(out: &mut Buffer, spelling: &[u8]) {
    let Some((code, words)) = spelling.split_first() else {
        out.failed = true;
        return;
    };
    match rows().get(usize::from(*code).wrapping_sub(1)) {
        Some(row) => out.put(row.name),
        None => out.failed = true,
    }
    for word in words.chunks(4) {
        out.put(" ");
        out.number(little(word));
    }
    out.put("; ");
}

fn little(word: &[u8]) -> u32 {
    let mut made: u32 = 0;
    for byte in word.iter().rev() {
        made = made.wrapping_mul(256).wrapping_add(u32::from(*byte));
    }
    made
}
