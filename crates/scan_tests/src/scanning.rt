//! Texts, and the tokens of each or its first fault.

ghost use Rattle.std.specs.Prelude.{All};
ghost use Rattle.ps_symbols.specs.ps_scan.Tokens.{IsToken};

use crate::reading::tokens_of;
use ps_base::LONGEST_TEXT;
use ps_base::line::Line;
use ps_symbols::ps_scan::mark::{self, mark_place, marks};
use ps_symbols::ps_scan::word::{self, word_place, words};
use ps_symbols::ps_scan::{ScanFault, Token, TokenKind, int_of, name_of, scan, spell};
use std::alloc::Global;
use std::test::Fail;

/// A token: what it is, its line, and where it begins and ends.
type Found = (TokenKind, u32, u32, u32);

const TOKENS_OF_TEXTS: [(&[u8], &[Found]); 10] = [
    (b"", &[]),
    (
        b"1a",
        &[(TokenKind::Int, 1, 0, 1), (TokenKind::Name, 1, 1, 2)],
    ),
    (
        b"write 1 + 2, \"'n\" ?",
        &[
            (TokenKind::Word(word::WRITE), 1, 0, 5),
            (TokenKind::Int, 1, 6, 7),
            (TokenKind::Mark(mark::PLUS), 1, 8, 9),
            (TokenKind::Int, 1, 10, 11),
            (TokenKind::Mark(mark::COMMA), 1, 11, 12),
            (TokenKind::Text, 1, 13, 17),
            (TokenKind::Mark(mark::QUESTION), 1, 18, 19),
        ],
    ),
    (
        b"let a := (6);\r\n\ta.b=-c*d",
        &[
            (TokenKind::Word(word::LET), 1, 0, 3),
            (TokenKind::Name, 1, 4, 5),
            (TokenKind::Mark(mark::BECOMES), 1, 6, 8),
            (TokenKind::Mark(mark::OPEN_ROUND), 1, 9, 10),
            (TokenKind::Int, 1, 10, 11),
            (TokenKind::Mark(mark::CLOSE_ROUND), 1, 11, 12),
            (TokenKind::Mark(mark::SEMICOLON), 1, 12, 13),
            (TokenKind::Name, 2, 16, 19),
            (TokenKind::Mark(mark::EQUALS), 2, 19, 20),
            (TokenKind::Mark(mark::MINUS), 2, 20, 21),
            (TokenKind::Name, 2, 21, 22),
            (TokenKind::Mark(mark::TIMES), 2, 22, 23),
            (TokenKind::Name, 2, 23, 24),
        ],
    ),
    (
        b"12ab lets + +",
        &[
            (TokenKind::Int, 1, 0, 2),
            (TokenKind::Name, 1, 2, 4),
            (TokenKind::Name, 1, 5, 9),
            (TokenKind::Mark(mark::PLUS), 1, 10, 11),
            (TokenKind::Mark(mark::PLUS), 1, 12, 13),
        ],
    ),
    (
        b"! \xc8\nwrite 1",
        &[
            (TokenKind::Word(word::WRITE), 2, 4, 9),
            (TokenKind::Int, 2, 10, 11),
        ],
    ),
    (b"1!", &[(TokenKind::Int, 1, 0, 1)]),
    (b"1!!\x00\x7f\"'\r\t", &[(TokenKind::Int, 1, 0, 1)]),
    (
        b"1!\n!\n\n;",
        &[
            (TokenKind::Int, 1, 0, 1),
            (TokenKind::Mark(mark::SEMICOLON), 4, 6, 7),
        ],
    ),
    (b"\"!\"", &[(TokenKind::Text, 1, 0, 3)]),
];

// Whether the tokens are those that are wanted.
fn are_found(tokens: &[Token], wanted: &[Found]) -> bool {
    for (token, (what, line, from, to)) in tokens.iter().zip(wanted) {
        let wanted = Token {
            what: *what,
            line: Line(*line),
            from: *from,
            to: *to,
        };
        if *token != wanted {
            return false;
        }
    }
    tokens.len() == wanted.len()
}

// Whether a text has these tokens.
fn has_tokens(alloc: Global, text: &[u8], wanted: &[Found]) -> bool {
    match tokens_of(alloc, text) {
        Some(tokens) => are_found(&tokens, wanted),
        None => false,
    }
}

#[test]
fn texts_have_their_tokens(rt: HostRuntime) {
    for (place, (text, wanted)) in TOKENS_OF_TEXTS.iter().enumerate() {
        assert!(rt; has_tokens(rt.alloc(), text, wanted), "row {place}");
    }
}

const MARKS_OF_TEXTS: [(&[u8], &[u8]); 13] = [
    (
        b"(){}",
        &[
            mark::OPEN_ROUND,
            mark::CLOSE_ROUND,
            mark::OPEN_CURLY,
            mark::CLOSE_CURLY,
        ],
    ),
    (b"[]", &[mark::OPEN_SQUARE, mark::CLOSE_SQUARE]),
    (b",;", &[mark::COMMA, mark::SEMICOLON]),
    (b":", &[mark::COLON]),
    (b"::", &[mark::DOUBLE_COLON]),
    (b":=", &[mark::BECOMES]),
    (b":::=", &[mark::DOUBLE_COLON, mark::BECOMES]),
    (b"+++", &[mark::CONCATENATE, mark::PLUS]),
    (b"->-", &[mark::ARROW, mark::MINUS]),
    (b"-->", &[mark::MINUS, mark::ARROW]),
    (b"@|*?", &[mark::AT, mark::BAR, mark::TIMES, mark::QUESTION]),
    (b"=~~=", &[mark::EQUALS, mark::TILDE, mark::NOT_EQUALS]),
    (
        b"<<=>>=",
        &[
            mark::LESS,
            mark::LESS_OR_EQUAL,
            mark::GREATER,
            mark::GREATER_OR_EQUAL,
        ],
    ),
];

// Whether the tokens are these marks.
fn are_marks(tokens: &[Token], marks: &[u8]) -> bool {
    for (token, place) in tokens.iter().zip(marks) {
        if token.what != TokenKind::Mark(*place) {
            return false;
        }
    }
    tokens.len() == marks.len()
}

// Whether a text has these marks for its tokens.
fn has_marks(alloc: Global, text: &[u8], marks: &[u8]) -> bool {
    match tokens_of(alloc, text) {
        Some(tokens) => are_marks(&tokens, marks),
        None => false,
    }
}

#[test]
fn longest_mark_is_taken(rt: HostRuntime) {
    for (place, (text, marks)) in MARKS_OF_TEXTS.iter().enumerate() {
        assert!(rt; has_marks(rt.alloc(), text, marks), "row {place}");
    }
}

const WORDS_OF_TEXTS: [(&[u8], u8); 36] = [
    (b"abort", word::ABORT),
    (b"and", word::AND),
    (b"begin", word::BEGIN),
    (b"bool", word::BOOL),
    (b"by", word::BY),
    (b"case", word::CASE),
    (b"default", word::DEFAULT),
    (b"div", word::DIV),
    (b"do", word::DO),
    (b"else", word::ELSE),
    (b"end", word::END),
    (b"false", word::FALSE),
    (b"for", word::FOR),
    (b"if", word::IF),
    (b"int", word::INT),
    (b"is", word::IS),
    (b"isnt", word::ISNT),
    (b"let", word::LET),
    (b"lwb", word::LWB),
    (b"nil", word::NIL),
    (b"of", word::OF),
    (b"or", word::OR),
    (b"pntr", word::PNTR),
    (b"proc", word::PROC),
    (b"procedure", word::PROCEDURE),
    (b"rem", word::REM),
    (b"repeat", word::REPEAT),
    (b"string", word::STRING),
    (b"structure", word::STRUCTURE),
    (b"then", word::THEN),
    (b"to", word::TO),
    (b"true", word::TRUE),
    (b"upb", word::UPB),
    (b"vector", word::VECTOR),
    (b"while", word::WHILE),
    (b"write", word::WRITE),
];

// Whether a text is the word of this place alone.
fn is_word(alloc: Global, text: &[u8], place: u8) -> bool {
    match tokens_of(alloc, text) {
        Some(tokens) => tokens.len() == 1 && tokens[0].what == TokenKind::Word(place),
        None => false,
    }
}

#[test]
fn words_have_their_places(rt: HostRuntime) {
    let mut place = 0u8;
    for (spelling, constant) in &WORDS_OF_TEXTS {
        assert!(rt; is_word(rt.alloc(), spelling, place), "word {place}");
        assert!(rt; word_place(spelling) == Some(place) && *constant == place);
        place = place.wrapping_add(1);
    }
}

// Each word has its own place as its code, and is found by its name.
fn words_are_in_order() -> bool {
    let mut place = 0u8;
    for row in words() {
        if row.code != place || word_place(row.name.as_bytes()) != Some(place) {
            return false;
        }
        place = place.wrapping_add(1);
    }
    true
}

// Each mark has its own place as its code, and is found by its name.
fn marks_are_in_order() -> bool {
    let mut place = 0u8;
    for row in marks() {
        if row.code != place || mark_place(row.name.as_bytes()) != Some(place) {
            return false;
        }
        place = place.wrapping_add(1);
    }
    true
}

#[test]
fn tables_are_in_order(rt: HostRuntime) {
    assert!(rt; words_are_in_order());
    assert!(rt; marks_are_in_order());
}

fn line_of(fault: ScanFault) -> Line {
    match fault {
        ScanFault::BadByte { line, .. } => line,
        ScanFault::OpenString { line } => line,
        ScanFault::IntTooLarge { line } => line,
        ScanFault::BadEscape { line, .. } => line,
        ScanFault::NameTooLong { line, .. } => line,
        ScanFault::StringTooLong { line, .. } => line,
        ScanFault::Memory => Line(0),
    }
}

const LINE: Line = Line(1);

const FAULTS: [(&[u8], ScanFault, u8); 12] = [
    (
        b"! $\n1 $",
        ScanFault::BadByte {
            line: Line(2),
            byte: b'$',
        },
        1,
    ),
    (
        b"\xc8",
        ScanFault::BadByte {
            line: LINE,
            byte: 200,
        },
        1,
    ),
    (
        b"\"\t",
        ScanFault::BadByte {
            line: LINE,
            byte: b'\t',
        },
        1,
    ),
    (
        b"\"\x7f'x",
        ScanFault::BadByte {
            line: LINE,
            byte: 127,
        },
        1,
    ),
    (b"\"ab\n\"", ScanFault::OpenString { line: LINE }, 2),
    (b"\"ab'", ScanFault::OpenString { line: LINE }, 2),
    (
        b"2147483647 2147483648 $",
        ScanFault::IntTooLarge { line: LINE },
        3,
    ),
    (
        b"99999999999999999999",
        ScanFault::IntTooLarge { line: LINE },
        3,
    ),
    (
        b"\n\n\"'\n",
        ScanFault::BadEscape {
            line: Line(3),
            byte: b'\n',
        },
        4,
    ),
    (
        b"\"'x\x7f",
        ScanFault::BadEscape {
            line: LINE,
            byte: b'x',
        },
        4,
    ),
    (
        b"a234567890123456789012345678901234567890123456789012345678901234 \
a2345678901234567890123456789012345678901234567890123456789012345",
        ScanFault::NameTooLong {
            line: LINE,
            length: 65,
        },
        5,
    ),
    (
        b"1 2 $ \"",
        ScanFault::BadByte {
            line: LINE,
            byte: b'$',
        },
        1,
    ),
];

// Whether this is the first fault of a text, with its number and its line.
fn has_fault(alloc: Global, text: &[u8], fault: ScanFault, number: u8) -> bool {
    if text.len() > LONGEST_TEXT {
        return false;
    }
    match scan(alloc, text) {
        Ok(_) => false,
        Err(found) => {
            found == fault && found.number() == Some(number) && found.line() == Some(line_of(fault))
        }
    }
}

#[test]
fn first_fault_is_answered(rt: HostRuntime) {
    for (place, (text, fault, number)) in FAULTS.iter().enumerate() {
        assert!(rt; has_fault(rt.alloc(), text, *fault, *number), "row {place}");
    }
}

// A string of so many letters.
fn quoted(alloc: Global, letters: usize) -> Result<Vec<u8>, Fail> {
    let mut text = vec![in alloc; b'a'; letters]?;
    text.push(b'"').map_err(|_| "memory")?;
    text.insert(0, b'"').map_err(|_| "memory")?;
    Ok(text)
}

#[test]
fn longest_string_is_read(rt: HostRuntime) -> Result<(), Fail> {
    let longest = quoted(rt.alloc(), 65535)?;
    let wanted = [(TokenKind::Text, 1, 0, 65537)];
    assert!(rt; has_tokens(rt.alloc(), &longest, &wanted));
    let longer = quoted(rt.alloc(), 65536)?;
    let too_long = ScanFault::StringTooLong {
        line: LINE,
        length: 65536,
    };
    assert!(rt; has_fault(rt.alloc(), &longer, too_long, 6));
    Ok(())
}

const SPELLED: &[u8] = b"a.b 007 \"x'n't'''\"y\"";

// Whether the first two of three tokens are the name and the int.
fn are_name_and_int(text: &[u8], tokens: &[Token]) -> bool
    requires { All (IsToken text.now) tokens.now }
{
    tokens.len() == 3
        && name_of(text, tokens[0]) == b"a.b".as_slice()
        && tokens[1].what == TokenKind::Int
        && int_of(text, tokens[1]) == 7
}

#[test]
fn names_and_ints_are_read(rt: HostRuntime) -> Result<(), Fail> {
    let tokens = tokens_of(rt.alloc(), SPELLED).ok_or("no tokens")?;
    assert!(rt; are_name_and_int(SPELLED, &tokens));
    Ok(())
}

// Whether the last of three tokens is the string.
fn is_string(alloc: Global, text: &[u8], tokens: &[Token]) -> bool
    requires { All (IsToken text.now) tokens.now }
{
    if tokens.len() != 3 || tokens[2].what != TokenKind::Text {
        return false;
    }
    match spell(alloc, text, tokens[2]) {
        Ok(spelled) => spelled.as_slice() == b"x\n\t'\"y".as_slice(),
        Err(_) => false,
    }
}

#[test]
fn strings_are_read(rt: HostRuntime) -> Result<(), Fail> {
    let tokens = tokens_of(rt.alloc(), SPELLED).ok_or("no tokens")?;
    assert!(rt; is_string(rt.alloc(), SPELLED, &tokens));
    Ok(())
}
