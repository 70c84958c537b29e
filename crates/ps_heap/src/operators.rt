ghost use Rattle.std.specs.Prelude.{◌≡◌};
ghost use Rattle.ps_heap.specs.Operators.{arith_of, relation_of, neg_of, div_of, rem_of};
ghost use Rattle.ps_heap.specs.Answers.{Is};

use ps_base::operator::{Operator, Relation};
use ps_base::trap::Trap;

/// The value of an operator on two ints, or the trap that it ends in (`docs/language.md`).
#[inline]
pub fn arith(op: Operator, a: i32, b: i32) -> Result<i32, Trap>
    ensures { Is (arith_of op a b) result }
{
    match op {
        Operator::Add => a.checked_add(b).ok_or(Trap::Overflow),
        Operator::Sub => a.checked_sub(b).ok_or(Trap::Overflow),
        Operator::Mul => a.checked_mul(b).ok_or(Trap::Overflow),
        Operator::Div => quotient(a, b),
        Operator::Rem => remainder(a, b),
    }
}

// The divisor is tested before the range.
fn quotient(a: i32, b: i32) -> Result<i32, Trap>
    ensures { Is (div_of a b) result }
{
    if b == 0 {
        return Err(Trap::ZeroDivisor);
    }
    a.checked_div(b).ok_or(Trap::Overflow)
}

fn remainder(a: i32, b: i32) -> Result<i32, Trap>
    ensures { Is (rem_of a b) result }
{
    if b == 0 {
        return Err(Trap::ZeroDivisor);
    }
    Ok(a.wrapping_rem(b))
}

/// The int with the other sign, or the trap of an overflow.
#[inline]
pub fn negate(a: i32) -> Result<i32, Trap>
    ensures { Is (neg_of a) result }
{
    a.checked_neg().ok_or(Trap::Overflow)
}

/// Whether two ints, or two bools as 0 and 1, stand in a relation.
#[inline]
pub fn relate(op: Relation, a: i32, b: i32) -> bool
    ensures { result ≡ relation_of op a b }
{
    match op {
        Relation::Equal => a == b,
        Relation::NotEqual => a != b,
        Relation::Less => a < b,
        Relation::LessEqual => a <= b,
        Relation::Greater => a > b,
        Relation::GreaterEqual => a >= b,
    }
}
