//! A text of literals inside one another, which is made with its tree, since each literal has a type as long as those in it.

use crate::patterns::put_pieces;
use row_words::table_rows::Buffer;
use std::alloc::Global;

/// So many literals inside one another, of which the innermost mentions the parameters of all.
pub fn text_of_literals(alloc: Global, count: usize) -> Buffer {
    let mut out = Buffer::new(alloc);
    put_literals(&mut out, count);
    out
}

fn put_literals(out: &mut Buffer, count: usize) {
    out.put("procedure f");
    for depth in 1..count {
        put_literal(out, depth, count);
        out.put("); proc");
    }
    put_literal(out, count, count);
    out.put("); 1");
    put_pieces(out, b" + a#", count);
}

fn put_literal(out: &mut Buffer, depth: usize, count: usize) {
    out.put("(int a");
    out.number(depth as u64);
    out.put(" -> ");
    put_type(out, count.saturating_sub(depth));
}

// The type of so many literals inside one another.
fn put_type(out: &mut Buffer, count: usize) {
    put_pieces(out, b"proc(int->", count);
    out.put("int");
    put_pieces(out, b")", count);
}

/// Writes their tree: a parameter is kept by each literal but the last, which has it in a scope of its own.
pub fn put_literal_trees(out: &mut Buffer, count: usize) {
    out.put("(block (let P0:");
    put_type(out, count);
    for depth in 1..count {
        put_literal_tree(out, depth, count);
    }
    out.put(" (proc@1 P0:int ->int");
    put_sum(out, count);
    put_pieces(out, b")", count);
    out.put("))");
}

fn put_literal_tree(out: &mut Buffer, depth: usize, count: usize) {
    out.put(" (proc[scope(int a");
    out.number(depth as u64);
    out.put(")]@1 K0.0:int ->");
    put_type(out, count.saturating_sub(depth));
}

// Each parameter but the last stands in the scope of its literal, so many scopes outward.
fn put_sum(out: &mut Buffer, count: usize) {
    out.put(" ");
    put_pieces(out, b"(+@1 ", count);
    out.put("1");
    for depth in 1..count {
        out.put(" K");
        out.number(count.saturating_sub(depth).saturating_sub(1) as u64);
        out.put(".0:int)");
    }
    out.put(" P0:int)");
}
