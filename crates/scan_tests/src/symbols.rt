//! What tokens are to the grammar, and where the newline rule reads a `;`.

use crate::reading::tokens_of;
use ps_base::LONGEST_TEXT;
use ps_base::operator::{Operator, Relation};
use ps_symbols::kind::{
    Kind, Level, Opening, Operation, Relating, Start, TypeStart, begins_item, begins_type, kind_of,
    opening_of, operation_of, relating_of, start_of, type_start_of,
};
use ps_symbols::newline::{can_continue, can_end};
use ps_symbols::ps_scan::{TokenKind, mark, word};
use ps_symbols::symbol::{Symbol, symbols};
use std::alloc::Global;

const NEWLINES: [(&[u8], &str); 16] = [
    (b"a\n\nb", ".;."),
    (b"a b", ".."),
    (b"a\n+ b", "..."),
    (b"a +\nb", "..."),
    (b"a ! b\n(c)", ".;..."),
    (b"f\n[1]", "...."),
    (b"1\n\"x\"\ntrue\nfalse\nnil", ".;.;.;.;."),
    (b"abort\nabort", ".;."),
    (b"{\n}\n{ }", "..;.."),
    (b"begin\nend\nbegin end", "..;.."),
    (b"(1)\n~ a", "...;.."),
    (b"v(1)\n@1", "....;.."),
    (b"if a\nthen b\nelse c", "......"),
    (b"a\n? b\n| c", "....."),
    (b"while a\ndo b", "...."),
    (b"int\nwrite\na", "..."),
];

// Whether the symbols are shown so: by `;` each that a newline stands for, and by `.` each other one.
fn are_shown(read: &[Symbol], wanted: &[u8]) -> bool {
    for (symbol, wanted) in read.iter().zip(wanted) {
        let implied = symbol.token.from == symbol.token.to;
        let shown = if implied { b';' } else { b'.' };
        if shown != *wanted {
            return false;
        }
    }
    read.len() == wanted.len()
}

// Whether the symbols of a text are shown so.
fn has_symbols(alloc: Global, text: &[u8], wanted: &str) -> bool {
    let Some(tokens) = tokens_of(alloc, text) else {
        return false;
    };
    if tokens.len() > LONGEST_TEXT {
        return false;
    }
    match symbols(alloc, &tokens) {
        Ok(read) => are_shown(&read, wanted.as_bytes()),
        Err(_) => false,
    }
}

#[test]
fn newlines_are_read(rt: HostRuntime) {
    for (place, (text, wanted)) in NEWLINES.iter().enumerate() {
        assert!(rt; has_symbols(rt.alloc(), text, wanted), "row {place}");
    }
}

#[test]
fn kinds_are_told(rt: HostRuntime) {
    assert!(rt;
        kind_of(TokenKind::Word(word::WRITE)) == Kind::Write
            && kind_of(TokenKind::Mark(mark::QUESTION)) == Kind::Question
            && kind_of(TokenKind::Mark(26)) == Kind::Stray
    );
}

fn operations_hold() -> bool {
    matches!(
        operation_of(Level::Product, Kind::Rem),
        Some(Operation::Arith(Operator::Rem))
    ) && operation_of(Level::Sum, Kind::Rem).is_none()
}

fn relatings_hold() -> bool {
    matches!(
        relating_of(Kind::LessEqual),
        Some(Relating::Compares(Relation::LessEqual))
    ) && matches!(
        relating_of(Kind::Isnt),
        Some(Relating::IsOf { negated: true })
    )
}

#[test]
fn operators_are_told(rt: HostRuntime) {
    assert!(rt; operations_hold());
    assert!(rt; relatings_hold());
}

fn starts_hold() -> bool {
    matches!(opening_of(Kind::Case), Some(Opening::Choosing))
        && opening_of(Kind::Let).is_none()
        && matches!(start_of(Kind::Upb), Some(Start::Bound { upper: true }))
        && matches!(start_of(Kind::Begin), Some(Start::Block(Kind::End)))
        && matches!(type_start_of(Kind::Times), Some(TypeStart::Vector))
}

fn beginnings_hold() -> bool {
    begins_type(Kind::Proc)
        && !begins_type(Kind::Procedure)
        && begins_item(Kind::Let)
        && begins_item(Kind::Minus)
        && !begins_item(Kind::End)
}

fn newline_rule_holds() -> bool {
    can_end(Kind::Nil)
        && !can_end(Kind::OpenRound)
        && can_continue(Kind::OpenSquare)
        && !can_continue(Kind::OpenRound)
}

#[test]
fn starts_are_told(rt: HostRuntime) {
    assert!(rt; starts_hold());
    assert!(rt; beginnings_hold());
    assert!(rt; newline_rule_holds());
}
