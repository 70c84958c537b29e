ghost use Rattle.std.specs.Prelude.{◌≡◌};
ghost use Rattle.ps_base.specs.TyView.{ty_view};
ghost use Rattle.ps_emitter.specs.Choices as choice;
ghost use Rattle.ps_typing.specs.Placing.{is_number as is_number_of};

use ps_base::instr::Instr;
use ps_base::line::Line;
use ps_base::operator::{Operator, Relation};
use ps_base::ty::Ty;
use ps_program::place::Place;

/// Whether values of the type stand on the number stack.
pub fn is_number(ty: &Ty) -> bool
    ensures { result ≡ is_number_of (ty_view ty.now) }
{
    match ty {
        Ty::Int | Ty::Bool => true,
        Ty::Str | Ty::Pntr | Ty::Void | Ty::Vector(_) | Ty::Proc(_) => false,
    }
}

/// The one for numbers, or the one for references.
pub fn by_type(ty: &Ty, m: Instr, p: Instr) -> Instr
    ensures { result ≡ choice.by_type (ty_view ty.now) m p }
{
    if is_number(ty) { m } else { p }
}

/// Pushes a truth value.
pub fn flag(b: bool) -> Instr
    ensures { result ≡ choice.flag b }
{
    if b { Instr::True } else { Instr::False }
}

/// Pushes the value of a place.
pub fn get(place: Place, ty: &Ty) -> Instr
    ensures { result ≡ choice.get place (ty_view ty.now) }
{
    match place {
        Place::Plain { slot } => by_type(ty, Instr::GetM { s: slot }, Instr::GetP { s: slot }),
        Place::Kept { up, slot } => by_type(
            ty,
            Instr::KeptM { u: up, i: slot },
            Instr::KeptP { u: up, i: slot },
        ),
    }
}

/// Pops into a place.
pub fn set(place: Place, ty: &Ty) -> Instr
    ensures { result ≡ choice.set place (ty_view ty.now) }
{
    match place {
        Place::Plain { slot } => by_type(ty, Instr::SetM { s: slot }, Instr::SetP { s: slot }),
        Place::Kept { up, slot } => by_type(
            ty,
            Instr::KeepM { u: up, i: slot },
            Instr::KeepP { u: up, i: slot },
        ),
    }
}

/// An operator between ints.
pub fn arith(op: Operator, line: Line) -> Instr
    ensures { result ≡ choice.arith op line }
{
    match op {
        Operator::Add => Instr::Add { line },
        Operator::Sub => Instr::Sub { line },
        Operator::Mul => Instr::Mul { line },
        Operator::Div => Instr::Div { line },
        Operator::Rem => Instr::Rem { line },
    }
}

fn number_relation(op: Relation) -> Instr
    ensures { result ≡ choice.number_relation op }
{
    match op {
        Relation::Equal => Instr::EqM,
        Relation::NotEqual => Instr::NeM,
        Relation::Less => Instr::LtM,
        Relation::LessEqual => Instr::LeM,
        Relation::Greater => Instr::GtM,
        Relation::GreaterEqual => Instr::GeM,
    }
}

fn text_relation(op: Relation) -> Instr
    ensures { result ≡ choice.text_relation op }
{
    match op {
        Relation::Equal => Instr::EqT,
        Relation::NotEqual => Instr::NeT,
        Relation::Less => Instr::LtT,
        Relation::LessEqual => Instr::LeT,
        Relation::Greater => Instr::GtT,
        Relation::GreaterEqual => Instr::GeT,
    }
}

fn identity(op: Relation) -> Instr
    ensures { result ≡ choice.identity op }
{
    match op {
        Relation::NotEqual => Instr::NeP,
        Relation::Equal
        | Relation::Less
        | Relation::LessEqual
        | Relation::Greater
        | Relation::GreaterEqual => Instr::EqP,
    }
}

/// Compares two values of a type.
pub fn compare(op: Relation, ty: &Ty) -> Instr
    ensures { result ≡ choice.compare op (ty_view ty.now) }
{
    match ty {
        Ty::Int | Ty::Bool => number_relation(op),
        Ty::Str => text_relation(op),
        Ty::Pntr | Ty::Void | Ty::Vector(_) | Ty::Proc(_) => identity(op),
    }
}

fn number_if(wide: bool) -> u32
    ensures { result ≡ choice.number_if wide }
{
    if wide { 1 } else { 0 }
}

/// Writes a value of a type.
pub fn write(ty: &Ty, wide: bool, line: Line) -> Instr
    ensures { result ≡ choice.write (ty_view ty.now) wide line }
{
    let w = number_if(wide);
    match ty {
        Ty::Int => Instr::WriteI { w, line },
        Ty::Bool => Instr::WriteB { w, line },
        Ty::Str | Ty::Pntr | Ty::Void | Ty::Vector(_) | Ty::Proc(_) => Instr::WriteT { w, line },
    }
}

/// The lower or the upper bound of a vector.
pub fn bound(upper: bool) -> Instr
    ensures { result ≡ choice.bound upper }
{
    if upper { Instr::Upb } else { Instr::Lwb }
}

/// What a procedure leaves for its caller.
pub fn kind_of(gives: &Ty) -> u32
    ensures { result ≡ choice.kind_of (ty_view gives.now) }
{
    match gives {
        Ty::Void => 0,
        Ty::Int | Ty::Bool => 1,
        Ty::Str | Ty::Pntr | Ty::Vector(_) | Ty::Proc(_) => 2,
    }
}
