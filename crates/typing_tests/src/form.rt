//! A form of a typed tree as text, but for the clauses in it.

use crate::checking::put_type;
use parsed_texts::ps_base::bytes::Bytes;
use parsed_texts::ps_base::line::Line;
use parsed_texts::ps_base::operator::{Operator, Relation};
use parsed_texts::ps_base::ty::Ty;
use ps_program::body::Body;
use ps_program::form::TreeForm;
use ps_program::place::Place;
use row_words::table_rows::Buffer;

/// Writes a form: its word, and what it has of a scope, a line, a class, numbers, a place and a type.
pub fn put_form(out: &mut Buffer, form: &TreeForm) {
    out.put(word_of(form));
    put_scope(out, scope_of(form));
    put_line(out, line_of(form));
    put_class(out, class_of(form));
    put_numbers(out, form);
    put_place_of(out, place_of(form));
    put_type_of(out, ty_of(form));
}

fn put_scope(out: &mut Buffer, scope: Option<&Bytes>) {
    if let Some(scope) = scope {
        put_bytes(out, "[", scope, "]");
    }
}

fn put_line(out: &mut Buffer, line: Option<Line>) {
    if let Some(Line(line)) = line {
        put_slot(out, "@", line);
    }
}

fn put_class(out: &mut Buffer, class: Option<&Bytes>) {
    if let Some(class) = class {
        put_bytes(out, " ", class, "");
    }
}

fn put_place_of(out: &mut Buffer, place: Option<Place>) {
    if let Some(place) = place {
        put_place(out, place);
    }
}

fn put_type_of(out: &mut Buffer, ty: Option<&Ty>) {
    if let Some(ty) = ty {
        put_type(out, ":", ty);
    }
}

fn put_numbers(out: &mut Buffer, form: &TreeForm) {
    match form {
        TreeForm::Int(value) => out.int(*value),
        TreeForm::Text(bytes) => put_bytes(out, "", bytes, "'"),
        TreeForm::For(counted) => put_control(out, counted.slot, counted.control),
        TreeForm::Field { index, .. } => put_slot(out, " ", *index),
        TreeForm::SetField { index, .. } => put_slot(out, " ", *index),
        TreeForm::Lib { code, .. } => put_slot(out, " ", u32::from(*code)),
        TreeForm::Scan { q, s, .. } => put_slots(out, *q, *s),
        TreeForm::Proc(body) => put_parameters(out, body),
        _ => {}
    }
}

fn put_control(out: &mut Buffer, slot: u32, control: Place) {
    put_slot(out, " ", slot);
    out.put(" ");
    put_place(out, control);
}

fn put_slots(out: &mut Buffer, q: u32, s: u32) {
    put_slot(out, " ", q);
    put_slot(out, " ", s);
}

fn put_parameters(out: &mut Buffer, body: &Body) {
    for param in body.params.as_slice() {
        out.put(" ");
        put_place(out, param.place);
        put_type(out, ":", &param.ty);
    }
    put_type(out, " ->", &body.gives);
}

fn put_place(out: &mut Buffer, place: Place) {
    match place {
        Place::Plain { slot } => put_slot(out, "P", slot),
        Place::Kept { up, slot } => {
            put_slot(out, "K", up);
            put_slot(out, ".", slot);
        }
    }
}

fn put_slot(out: &mut Buffer, word: &str, slot: u32) {
    out.put(word);
    out.number(u64::from(slot));
}

fn put_bytes(out: &mut Buffer, before: &str, bytes: &Bytes, behind: &str) {
    out.put(before);
    out.bytes(bytes.as_slice());
    out.put(behind);
}

/// The word of a form, with a blank where a place follows it.
fn word_of(form: &TreeForm) -> &'static str {
    match form {
        TreeForm::Int(_) => "",
        TreeForm::Flag(true) => "true",
        TreeForm::Flag(false) => "false",
        TreeForm::Text(_) => "'",
        TreeForm::Nil => "nil",
        TreeForm::Name { .. } => "",
        TreeForm::SetName { .. } => "set ",
        TreeForm::Let { .. } => "let ",
        TreeForm::Class => "class",
        TreeForm::Empty => "-",
        TreeForm::Block { .. } => "block",
        TreeForm::IfDo { .. } => "do",
        TreeForm::IfElse { .. } => "if",
        TreeForm::While { .. } => "while",
        TreeForm::Repeat { .. } => "repeat",
        TreeForm::For(_) => "for",
        TreeForm::Case { .. } => "case",
        TreeForm::And { .. } => "and",
        TreeForm::Or { .. } => "or",
        TreeForm::Not(_) => "not",
        TreeForm::Neg { .. } => "neg",
        TreeForm::Plus(_) => "plus",
        TreeForm::Arith { op, .. } => operator_text(*op),
        TreeForm::Compare { op, .. } => relation_text(*op),
        TreeForm::Is { .. } => "is",
        TreeForm::Join { .. } => "++",
        TreeForm::Part { .. } => "part",
        TreeForm::Make { .. } => "make",
        TreeForm::Field { .. } => "field",
        TreeForm::SetField { .. } => "set field",
        TreeForm::Fill { .. } => "fill",
        TreeForm::Elems { .. } => "elems",
        TreeForm::Element { .. } => "element",
        TreeForm::SetElement { .. } => "set element",
        TreeForm::Bound { upper: true, .. } => "upb",
        TreeForm::Bound { upper: false, .. } => "lwb",
        TreeForm::Proc(_) => "proc",
        TreeForm::Call { .. } => "call",
        TreeForm::Lib { .. } => "lib",
        TreeForm::Scan { text: true, .. } => "s.scan",
        TreeForm::Scan { text: false, .. } => "i.scan",
        TreeForm::Write { wide: true, .. } => "wide",
        TreeForm::Write { wide: false, .. } => "write",
        TreeForm::Abort(_) => "abort",
    }
}

fn line_of(form: &TreeForm) -> Option<Line> {
    match form {
        TreeForm::For(counted) => Some(counted.line),
        TreeForm::Proc(body) => Some(body.line),
        TreeForm::Neg { line, .. }
        | TreeForm::Arith { line, .. }
        | TreeForm::Join { line, .. }
        | TreeForm::Part { line, .. }
        | TreeForm::Field { line, .. }
        | TreeForm::SetField { line, .. }
        | TreeForm::Fill { line, .. }
        | TreeForm::Elems { line, .. }
        | TreeForm::Element { line, .. }
        | TreeForm::SetElement { line, .. }
        | TreeForm::Call { line, .. }
        | TreeForm::Lib { line, .. }
        | TreeForm::Scan { line, .. }
        | TreeForm::Write { line, .. }
        | TreeForm::Abort(line) => Some(*line),
        _ => None,
    }
}

fn ty_of(form: &TreeForm) -> Option<&Ty> {
    match form {
        TreeForm::Name { ty, .. }
        | TreeForm::SetName { ty, .. }
        | TreeForm::Let { ty, .. }
        | TreeForm::Compare { ty, .. }
        | TreeForm::Field { ty, .. }
        | TreeForm::SetField { ty, .. }
        | TreeForm::Fill { ty, .. }
        | TreeForm::Element { ty, .. }
        | TreeForm::SetElement { ty, .. }
        | TreeForm::Write { ty, .. } => Some(ty),
        TreeForm::Case { ty, .. } | TreeForm::Elems { ty, .. } => Some(ty),
        _ => None,
    }
}

fn class_of(form: &TreeForm) -> Option<&Bytes> {
    match form {
        TreeForm::Is { class, .. }
        | TreeForm::Make { class, .. }
        | TreeForm::Field { class, .. }
        | TreeForm::SetField { class, .. } => Some(class),
        _ => None,
    }
}

fn scope_of(form: &TreeForm) -> Option<&Bytes> {
    match form {
        TreeForm::Block { scope, .. } => scope.as_deref(),
        TreeForm::For(counted) => counted.scope.as_ref(),
        TreeForm::Proc(body) => body.scope.as_ref(),
        _ => None,
    }
}

fn place_of(form: &TreeForm) -> Option<Place> {
    match form {
        TreeForm::Name { place, .. }
        | TreeForm::SetName { place, .. }
        | TreeForm::Let { place, .. } => Some(*place),
        _ => None,
    }
}

fn relation_text(op: Relation) -> &'static str {
    match op {
        Relation::Equal => "=",
        Relation::NotEqual => "~=",
        Relation::Less => "<",
        Relation::LessEqual => "<=",
        Relation::Greater => ">",
        Relation::GreaterEqual => ">=",
    }
}

fn operator_text(op: Operator) -> &'static str {
    match op {
        Operator::Add => "+",
        Operator::Sub => "-",
        Operator::Mul => "*",
        Operator::Div => "div",
        Operator::Rem => "rem",
    }
}
