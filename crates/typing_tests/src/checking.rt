//! A text checked, and what is answered as a line of text: the tree of a text that fits, or the fault of one that doesn't.

use crate::show::put_shown;
use parsed_texts::ps_base::line::Line;
use parsed_texts::ps_base::ty::Ty;
use parsed_texts::ps_tree::rough::Rough;
use parsed_texts::tree_of;
use ps_check::check::check;
use ps_check::ps_declared::fault::CheckFault;
use ps_program::body::Body;
use ps_type_text::type_text;
use row_words::table_rows::Buffer;

/// What is told of a text that fits the typing rules.
#[derive(Clone, Copy)]
pub enum Telling {
    /// Its typed tree.
    Tree,
    /// That it fits.
    Fits,
}

/// Writes what the check answers on a text.
pub fn put_answer(out: &mut Buffer, text: &[u8], telling: Telling) {
    match tree_of(out.alloc(), text) {
        Ok(rough) => put_checked(out, rough, telling),
        Err(_) => out.fail(),
    }
}

fn put_checked(out: &mut Buffer, rough: Rough, telling: Telling) {
    match check(out.alloc(), rough) {
        Ok(program) => put_program(out, &program.body, telling),
        Err(fault) => put_check_fault(out, &fault),
    }
}

fn put_program(out: &mut Buffer, body: &Body, telling: Telling) {
    match telling {
        Telling::Tree if is_plain(body) => put_shown(out, &body.tree),
        Telling::Tree => out.fail(),
        Telling::Fits => out.put("fits"),
    }
}

// Whether a body is a program's: it has no parameter, gives nothing and keeps no parameter.
fn is_plain(body: &Body) -> bool {
    body.params.len() == 0
        && body.scope.is_none()
        && body.line == Line(1)
        && matches!(&body.gives, Ty::Void)
}

// A fault as its number, `@` and its line, and where it has them the types found and wanted, or the count.
fn put_check_fault(out: &mut Buffer, fault: &CheckFault) {
    let (Some(number), Some(Line(line))) = (fault.number(), fault.line()) else {
        return out.fail();
    };
    out.number(u64::from(number));
    out.put("@");
    out.number(u64::from(line));
    put_detail(out, fault);
}

fn put_detail(out: &mut Buffer, fault: &CheckFault) {
    match fault {
        CheckFault::Mismatch { found, wanted, .. } => {
            put_type(out, " ", found);
            put_type(out, " for ", wanted);
        }
        CheckFault::Limit { count, .. } => put_count(out, *count as u64),
        CheckFault::TooComplex { count, .. } => put_count(out, *count),
        _ => {}
    }
}

fn put_count(out: &mut Buffer, count: u64) {
    out.put(" ");
    out.number(count);
}

/// Writes a type after a word.
pub fn put_type(out: &mut Buffer, word: &str, ty: &Ty) {
    out.put(word);
    match type_text(out.alloc(), ty) {
        Ok(text) => out.bytes(text.as_slice()),
        Err(_) => out.fail(),
    }
}
