//! The tree of a text as a line of text.

use parsed_texts::ps_base::line::Line;
use parsed_texts::ps_base::operator::{Operator, Relation};
use parsed_texts::ps_base::ty::Ty;
use parsed_texts::ps_tree::rough::{Group, Named, Rough, RoughArm, RoughForm, RoughItem};
use parsed_texts::{TextFault, tree_of};
use row_words::table_rows::Buffer;

/// A word or a sign, with its line.
fn mark(out: &mut Buffer, mark: &str, line: Line) {
    out.put(mark);
    out.put("@");
    out.number(u64::from(line.0));
}

fn put_named(out: &mut Buffer, name: &Named) {
    out.bytes(name.name.as_slice());
    mark(out, "", name.line);
}

/// Writes the tree as `form@line` and its parts in brackets, down to the depth.
#[cycle(show)]
fn show(out: &mut Buffer, clause: &Rough, depth: u32) {
    if depth > 0 {
        show_leaf(out, &clause.form);
        mark(out, head(&clause.form), clause.line);
        show_lists(out, &clause.form, depth - 1);
    }
}

/// What stands before the line of a form.
fn head(form: &RoughForm) -> &'static str {
    match form {
        RoughForm::Sequence { .. } => "seq",
        RoughForm::Let { variable, .. } => choice(*variable, "var", "let"),
        RoughForm::Structure { .. } => "structure",
        RoughForm::IfDo { .. } | RoughForm::IfElse { .. } => "if",
        RoughForm::While { .. } => "while",
        RoughForm::Repeat { .. } => "repeat",
        RoughForm::For { .. } => "for",
        RoughForm::Case { .. } => "case",
        RoughForm::Write { .. } => "write",
        RoughForm::Abort => "abort",
        RoughForm::Proc { .. } => "proc",
        RoughForm::Vector { .. } => "vector",
        RoughForm::Assign { .. } => ":=",
        RoughForm::Or { .. } => "or",
        RoughForm::And { .. } => "and",
        RoughForm::Not { .. } => "~",
        RoughForm::Compare { op, .. } => relation_text(*op),
        RoughForm::Is { negated, .. } => choice(*negated, "isnt", "is"),
        RoughForm::Join { .. } => "++",
        RoughForm::Arith { op, .. } => operator_text(*op),
        RoughForm::Plus { .. } => "plus",
        RoughForm::Neg { .. } => "neg",
        RoughForm::Apply { .. } => "apply",
        RoughForm::Part { .. } => "part",
        RoughForm::Flag(value) => choice(*value, "true", "false"),
        RoughForm::Nil => "nil",
        RoughForm::Bound { upper, .. } => choice(*upper, "upb", "lwb"),
        RoughForm::Elems { .. } => "elems",
        RoughForm::Text(_) => "$",
        RoughForm::Name(_) | RoughForm::Int(_) => "",
    }
}

fn choice(test: bool, yes: &'static str, no: &'static str) -> &'static str {
    if test { yes } else { no }
}

/// The parts of the forms that hold lists or names.
#[cycle(show)]
fn show_lists(out: &mut Buffer, form: &RoughForm, depth: u32) {
    match form {
        RoughForm::Sequence { items } => show_all(out, items.as_slice(), depth),
        RoughForm::Let {
            name,
            variable: _,
            e,
        } => {
            put_named(out, name);
            show_one(out, e, depth);
        }
        RoughForm::Structure { name, fields } => {
            put_named(out, name);
            show_groups(out, fields.as_slice());
        }
        RoughForm::For { name, range, s } => {
            put_named(out, name);
            show_two(out, &range.a, &range.b, depth);
            show_maybe(out, &range.c, depth);
            show_one(out, s, depth);
        }
        RoughForm::Case { e, arms, d } => {
            show_one(out, e, depth);
            show_arms(out, arms.as_slice(), depth);
            show_one(out, d, depth);
        }
        RoughForm::Write { items } => show_items(out, items.as_slice(), depth),
        RoughForm::Proc { params, gives, s } => {
            show_groups(out, params.as_slice());
            show_type(out, gives, 200);
            show_one(out, s, depth);
        }
        RoughForm::Is {
            e,
            class,
            negated: _,
        } => {
            show_one(out, e, depth);
            put_named(out, class);
        }
        RoughForm::Apply { f, args } => {
            show_one(out, f, depth);
            show_all(out, args.as_slice(), depth);
        }
        RoughForm::Elems { l, ty, items } => {
            show_one(out, l, depth);
            show_type(out, ty, 200);
            show_all(out, items.as_slice(), depth);
        }
        _ => show_clauses(out, form, depth),
    }
}

/// The parts of the forms that hold clauses alone.
#[cycle(show)]
fn show_clauses(out: &mut Buffer, form: &RoughForm, depth: u32) {
    match form {
        RoughForm::IfElse { c, a, b } => show_three(out, c, a, b, depth),
        RoughForm::Vector { l, u, e } => show_three(out, l, u, e, depth),
        RoughForm::Part { s, i, n } => show_three(out, s, i, n, depth),
        RoughForm::Repeat { a, c, b: None } => {
            show_two(out, a, c, depth);
            out.put("-");
        }
        RoughForm::Repeat { a, c, b: Some(b) } => show_three(out, a, c, b, depth),
        RoughForm::Not { e } => show_one(out, e, depth),
        RoughForm::Plus { e } => show_one(out, e, depth),
        RoughForm::Neg { e } => show_one(out, e, depth),
        RoughForm::Bound { upper: _, e } => show_one(out, e, depth),
        _ => show_pairs(out, form, depth),
    }
}

/// The parts of the forms of two clauses.
#[cycle(show)]
fn show_pairs(out: &mut Buffer, form: &RoughForm, depth: u32) {
    match form {
        RoughForm::IfDo { c, a } => show_two(out, c, a, depth),
        RoughForm::While { c, a } => show_two(out, c, a, depth),
        RoughForm::Assign { x, e } => show_two(out, x, e, depth),
        RoughForm::Or { a, b } => show_two(out, a, b, depth),
        RoughForm::And { a, b } => show_two(out, a, b, depth),
        RoughForm::Join { a, b } => show_two(out, a, b, depth),
        RoughForm::Compare { op: _, a, b } => show_two(out, a, b, depth),
        RoughForm::Arith { op: _, a, b } => show_two(out, a, b, depth),
        _ => {}
    }
}

/// What a name, an int or a string is made of.
fn show_leaf(out: &mut Buffer, form: &RoughForm) {
    match form {
        RoughForm::Name(bytes) => out.bytes(bytes.as_slice()),
        RoughForm::Text(bytes) => out.bytes(bytes.as_slice()),
        RoughForm::Int(value) => out.int(*value),
        _ => {}
    }
}

/// Groups as `[type name@line]`, each name with the type.
fn show_groups(out: &mut Buffer, groups: &[Group]) {
    for group in groups {
        show_group(out, &group.ty, &group.first);
        for name in group.more.as_slice() {
            show_group(out, &group.ty, name);
        }
    }
}

fn show_group(out: &mut Buffer, ty: &Ty, name: &Named) {
    out.put("[");
    show_type(out, ty, 200);
    out.put(" ");
    put_named(out, name);
    out.put("]");
}

/// Writes the type, down to the depth.
#[cycle(show_types)]
fn show_type(out: &mut Buffer, ty: &Ty, depth: u32) {
    if depth == 0 {
        return;
    }
    match ty {
        Ty::Int => out.put("int"),
        Ty::Bool => out.put("bool"),
        Ty::Str => out.put("string"),
        Ty::Pntr => out.put("pntr"),
        Ty::Void => out.put("void"),
        Ty::Vector(element) => {
            out.put("*");
            show_type(out, element, depth - 1);
        }
        Ty::Proc(signature) => {
            out.put("proc(");
            show_types(out, signature.parameters.as_slice(), depth - 1);
            out.put("->");
            show_type(out, &signature.gives, depth - 1);
            out.put(")");
        }
    }
}

#[cycle(show_types)]
fn show_types(out: &mut Buffer, types: &[Ty], depth: u32) {
    for ty in types {
        show_type(out, ty, depth);
        out.put(",");
    }
}

#[cycle(show)]
fn show_one(out: &mut Buffer, e: &Rough, depth: u32) {
    out.put("(");
    show(out, e, depth);
    out.put(")");
}

#[cycle(show)]
fn show_two(out: &mut Buffer, a: &Rough, b: &Rough, depth: u32) {
    show_one(out, a, depth);
    show_one(out, b, depth);
}

#[cycle(show)]
fn show_three(out: &mut Buffer, a: &Rough, b: &Rough, c: &Rough, depth: u32) {
    show_two(out, a, b, depth);
    show_one(out, c, depth);
}

/// A clause that may be left out, as `-` where it is.
#[cycle(show)]
fn show_maybe(out: &mut Buffer, e: &Option<Rough>, depth: u32) {
    match e {
        Some(e) => show_one(out, e, depth),
        None => out.put("-"),
    }
}

#[cycle(show)]
fn show_all(out: &mut Buffer, items: &[Rough], depth: u32) {
    for item in items {
        show_one(out, item, depth);
    }
}

/// Arms as `[labels:clause]`.
#[cycle(show)]
fn show_arms(out: &mut Buffer, arms: &[RoughArm], depth: u32) {
    for arm in arms {
        out.put("[");
        show_all(out, arm.labels.as_slice(), depth);
        out.put(":");
        show_one(out, &arm.a, depth);
        out.put("]");
    }
}

/// Items as `[clause width@line]`.
#[cycle(show)]
fn show_items(out: &mut Buffer, items: &[RoughItem], depth: u32) {
    for item in items {
        out.put("[");
        show_one(out, &item.e, depth);
        show_maybe(out, &item.w, depth);
        mark(out, "", item.line);
        out.put("]");
    }
}

fn relation_text(op: Relation) -> &'static str {
    match op {
        Relation::Equal => "=",
        Relation::NotEqual => "~=",
        Relation::Less => "<",
        Relation::LessEqual => "<=",
        Relation::Greater => ">",
        Relation::GreaterEqual => ">=",
    }
}

fn operator_text(op: Operator) -> &'static str {
    match op {
        Operator::Add => "+",
        Operator::Sub => "-",
        Operator::Mul => "*",
        Operator::Div => "div",
        Operator::Rem => "rem",
    }
}

/// Writes a tree as a line of text: a form's word or sign and `@` and its line, then its parts in brackets.
pub fn put_shown(out: &mut Buffer, clause: &Rough) {
    show(out, clause, 1000);
}

/// Writes the tree of a text, or `?` where it has none.
pub fn put_tree(out: &mut Buffer, text: &[u8]) {
    match tree_of(out.alloc(), text) {
        Ok(clause) => put_shown(out, &clause),
        Err(TextFault::Parse(_)) => out.put("?"),
        Err(TextFault::TooLong | TextFault::Scan(_)) => out.fail(),
    }
}
