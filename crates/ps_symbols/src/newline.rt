//! Which tokens can end a clause and which can continue one, for the newline rule.

ghost use Rattle.std.specs.Prelude.{◌≡◌};
ghost use Rattle.ps_symbols.specs.Newline.{can_end, can_continue};

use crate::kind::Kind;

/// Whether a token of the kind can end a clause, for the newline rule of `docs/language.md`.
pub fn can_end(kind: Kind) -> bool
    ensures { result ≡ can_end kind }
{
    match kind {
        Kind::Name | Kind::Int | Kind::Text => true,
        Kind::True | Kind::False | Kind::Nil | Kind::Abort => true,
        Kind::CloseRound | Kind::CloseSquare | Kind::CloseCurly | Kind::End => true,
        _ => false,
    }
}

/// Whether a token of the kind can continue a clause, for the newline rule of `docs/language.md`.
pub fn can_continue(kind: Kind) -> bool
    ensures { result ≡ can_continue kind }
{
    match kind {
        Kind::CloseRound | Kind::CloseSquare | Kind::CloseCurly | Kind::OpenSquare => true,
        Kind::Comma | Kind::Semicolon | Kind::Colon | Kind::DoubleColon => true,
        Kind::Becomes | Kind::Equals | Kind::NotEquals => true,
        Kind::Less | Kind::LessEqual | Kind::Greater | Kind::GreaterEqual => true,
        Kind::Plus | Kind::Minus | Kind::Concatenate | Kind::Times => true,
        Kind::Arrow | Kind::Question | Kind::Bar => true,
        Kind::And | Kind::Or | Kind::Div | Kind::Rem | Kind::Is | Kind::Isnt => true,
        Kind::Then | Kind::Else | Kind::Do | Kind::Of | Kind::To | Kind::By => true,
        Kind::End => true,
        _ => false,
    }
}
