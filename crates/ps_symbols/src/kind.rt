ghost use Rattle.std.specs.Prelude.{◌≡◌, slice_get, unwrap_or};
ghost use Rattle.ps_symbols.specs.declared.kind.Kind.TheVariants.{Stray};
ghost use Rattle.ps_symbols.specs.Kinds.{kind_of, relating_of, operation_of, opening_of, start_of, type_start_of, begins_item, begins_type};

use ps_base::operator::{Operator, Relation};
use ps_scan::TokenKind;

/// What a token is to the grammar: a name, an int, a string, a reserved word or a mark.
#[derive(Clone, Copy, PartialEq)]
pub enum Kind {
    Name,
    Int,
    Text,
    Abort,
    And,
    Begin,
    BoolType,
    By,
    Case,
    Default,
    Div,
    Do,
    Else,
    End,
    False,
    For,
    If,
    IntType,
    Is,
    Isnt,
    Let,
    Lwb,
    Nil,
    Of,
    Or,
    PntrType,
    Proc,
    Procedure,
    Rem,
    Repeat,
    StringType,
    Structure,
    Then,
    To,
    True,
    Upb,
    Vector,
    While,
    Write,
    OpenRound,
    CloseRound,
    OpenSquare,
    CloseSquare,
    OpenCurly,
    CloseCurly,
    Comma,
    Semicolon,
    Colon,
    DoubleColon,
    Becomes,
    Equals,
    Tilde,
    NotEquals,
    Less,
    LessEqual,
    Greater,
    GreaterEqual,
    Plus,
    Minus,
    Concatenate,
    Times,
    Arrow,
    At,
    Question,
    Bar,
    /// A word or a mark of no place: no token of a text is one.
    Stray,
    /// The end of the text, which is no token.
    EndOfText,
}

/// The kinds of the reserved words, each in the place of its word.
pub const WORDS: [Kind; 36] = [
    Kind::Abort,
    Kind::And,
    Kind::Begin,
    Kind::BoolType,
    Kind::By,
    Kind::Case,
    Kind::Default,
    Kind::Div,
    Kind::Do,
    Kind::Else,
    Kind::End,
    Kind::False,
    Kind::For,
    Kind::If,
    Kind::IntType,
    Kind::Is,
    Kind::Isnt,
    Kind::Let,
    Kind::Lwb,
    Kind::Nil,
    Kind::Of,
    Kind::Or,
    Kind::PntrType,
    Kind::Proc,
    Kind::Procedure,
    Kind::Rem,
    Kind::Repeat,
    Kind::StringType,
    Kind::Structure,
    Kind::Then,
    Kind::To,
    Kind::True,
    Kind::Upb,
    Kind::Vector,
    Kind::While,
    Kind::Write,
];

/// The kinds of the marks, each in the place of its mark.
pub const MARKS: [Kind; 26] = [
    Kind::OpenRound,
    Kind::CloseRound,
    Kind::OpenSquare,
    Kind::CloseSquare,
    Kind::OpenCurly,
    Kind::CloseCurly,
    Kind::Comma,
    Kind::Semicolon,
    Kind::Colon,
    Kind::DoubleColon,
    Kind::Becomes,
    Kind::Equals,
    Kind::Tilde,
    Kind::NotEquals,
    Kind::Less,
    Kind::LessEqual,
    Kind::Greater,
    Kind::GreaterEqual,
    Kind::Plus,
    Kind::Minus,
    Kind::Concatenate,
    Kind::Times,
    Kind::Arrow,
    Kind::At,
    Kind::Question,
    Kind::Bar,
];

/// What a token of the scanner is to the grammar.
pub fn kind_of(what: TokenKind) -> Kind
    ensures { result ≡ kind_of what }
{
    match what {
        TokenKind::Name => Kind::Name,
        TokenKind::Int => Kind::Int,
        TokenKind::Text => Kind::Text,
        TokenKind::Word(place) => kind_in(&WORDS, place),
        TokenKind::Mark(place) => kind_in(&MARKS, place),
    }
}

fn kind_in(kinds: &[Kind], place: u8) -> Kind
    ensures { result ≡ unwrap_or (slice_get kinds.now place) Stray }
{
    match kinds.get(place as usize) {
        Some(kind) => *kind,
        None => Kind::Stray,
    }
}

/// The levels of operators that group to the left, loosest first.
#[derive(Clone, Copy)]
pub enum Level {
    Disjunction,
    Conjunction,
    Sum,
    Product,
}

/// What an operator between two operands makes of them.
#[derive(Clone, Copy)]
pub enum Operation {
    Or,
    And,
    Join,
    Arith(Operator),
}

/// The operation of an operator of the level.
pub fn operation_of(level: Level, kind: Kind) -> Option<Operation>
    ensures { result ≡ operation_of level kind }
{
    match (level, kind) {
        (Level::Disjunction, Kind::Or) => Some(Operation::Or),
        (Level::Conjunction, Kind::And) => Some(Operation::And),
        (Level::Sum, Kind::Plus) => Some(Operation::Arith(Operator::Add)),
        (Level::Sum, Kind::Minus) => Some(Operation::Arith(Operator::Sub)),
        (Level::Sum, Kind::Concatenate) => Some(Operation::Join),
        (Level::Product, Kind::Times) => Some(Operation::Arith(Operator::Mul)),
        (Level::Product, Kind::Div) => Some(Operation::Arith(Operator::Div)),
        (Level::Product, Kind::Rem) => Some(Operation::Arith(Operator::Rem)),
        _ => None,
    }
}

/// What stands between a sum and what it is compared with: a comparison with a sum, or `is` or
/// `isnt` before the name of a class.
#[derive(Clone, Copy)]
pub enum Relating {
    Compares(Relation),
    IsOf { negated: bool },
}

/// What a token stands for between a sum and what it is compared with.
pub fn relating_of(kind: Kind) -> Option<Relating>
    ensures { result ≡ relating_of kind }
{
    match kind {
        Kind::Equals => Some(Relating::Compares(Relation::Equal)),
        Kind::NotEquals => Some(Relating::Compares(Relation::NotEqual)),
        Kind::Less => Some(Relating::Compares(Relation::Less)),
        Kind::LessEqual => Some(Relating::Compares(Relation::LessEqual)),
        Kind::Greater => Some(Relating::Compares(Relation::Greater)),
        Kind::GreaterEqual => Some(Relating::Compares(Relation::GreaterEqual)),
        Kind::Is => Some(Relating::IsOf { negated: false }),
        Kind::Isnt => Some(Relating::IsOf { negated: true }),
        _ => None,
    }
}

/// How a clause goes on that begins with a token.
#[derive(Clone, Copy)]
pub enum Opening {
    Condition,
    Repetition,
    Repeating,
    Counting,
    Choosing,
    Writing,
    Aborting,
    Procedure,
    Filling,
    Expression,
}

/// How a clause goes on that begins with a token of the kind.
pub fn opening_of(kind: Kind) -> Option<Opening>
    ensures { result ≡ opening_of kind }
{
    match kind {
        Kind::If => Some(Opening::Condition),
        Kind::While => Some(Opening::Repetition),
        Kind::Repeat => Some(Opening::Repeating),
        Kind::For => Some(Opening::Counting),
        Kind::Case => Some(Opening::Choosing),
        Kind::Write => Some(Opening::Writing),
        Kind::Abort => Some(Opening::Aborting),
        Kind::Proc => Some(Opening::Procedure),
        Kind::Vector => Some(Opening::Filling),
        Kind::Name | Kind::Int | Kind::Text => Some(Opening::Expression),
        Kind::True | Kind::False | Kind::Nil => Some(Opening::Expression),
        Kind::Begin | Kind::OpenRound | Kind::OpenCurly => Some(Opening::Expression),
        Kind::Lwb | Kind::Upb | Kind::At => Some(Opening::Expression),
        Kind::Tilde | Kind::Plus | Kind::Minus => Some(Opening::Expression),
        _ => None,
    }
}

/// What a primary is that begins with a token: a name, an int, a string, a flag, `nil`, a clause in
/// round brackets, items up to a token of a kind, a bound of a vector, or the elements of a vector.
#[derive(Clone, Copy)]
pub enum Start {
    Name,
    Int,
    Text,
    Flag(bool),
    Nil,
    Round,
    Block(Kind),
    Bound { upper: bool },
    Elements,
}

/// What a primary is that begins with a token of the kind.
pub fn start_of(kind: Kind) -> Option<Start>
    ensures { result ≡ start_of kind }
{
    match kind {
        Kind::Name => Some(Start::Name),
        Kind::Int => Some(Start::Int),
        Kind::Text => Some(Start::Text),
        Kind::True => Some(Start::Flag(true)),
        Kind::False => Some(Start::Flag(false)),
        Kind::Nil => Some(Start::Nil),
        Kind::OpenRound => Some(Start::Round),
        Kind::Begin => Some(Start::Block(Kind::End)),
        Kind::OpenCurly => Some(Start::Block(Kind::CloseCurly)),
        Kind::Lwb => Some(Start::Bound { upper: false }),
        Kind::Upb => Some(Start::Bound { upper: true }),
        Kind::At => Some(Start::Elements),
        _ => None,
    }
}

/// Which type begins with a token.
#[derive(Clone, Copy)]
pub enum TypeStart {
    Int,
    Bool,
    Str,
    Pntr,
    Vector,
    Proc,
}

/// Which type begins with a token of the kind.
pub fn type_start_of(kind: Kind) -> Option<TypeStart>
    ensures { result ≡ type_start_of kind }
{
    match kind {
        Kind::IntType => Some(TypeStart::Int),
        Kind::BoolType => Some(TypeStart::Bool),
        Kind::StringType => Some(TypeStart::Str),
        Kind::PntrType => Some(TypeStart::Pntr),
        Kind::Times => Some(TypeStart::Vector),
        Kind::Proc => Some(TypeStart::Proc),
        _ => None,
    }
}

/// Whether a type begins with a token of the kind.
pub fn begins_type(kind: Kind) -> bool
    ensures { result ≡ begins_type kind }
{
    type_start_of(kind).is_some()
}

/// Whether an item begins with a token of the kind.
pub fn begins_item(kind: Kind) -> bool
    ensures { result ≡ begins_item kind }
{
    match kind {
        Kind::Let | Kind::Structure | Kind::Procedure => true,
        _ => opening_of(kind).is_some(),
    }
}
