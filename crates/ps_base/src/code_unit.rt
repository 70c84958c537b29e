ghost use Rattle.std.specs.Prelude.{◌≡◌, IfOk};
ghost use Rattle.ps_base.specs.CodeUnit.{constant_view, literal, unit_view};

use crate::bytes::Bytes;
use crate::list::List;
use std::alloc::{AllocError, Global};

/// The code of one procedure body, or of a program: the spelled instructions one after the other,
/// the constants that they name by number from 0, and the locals that they use.
#[cycle(code_unit)]
#[derive(Drop)]
pub struct CodeUnit {
    pub code: Bytes,
    pub constants: List<Constant>,
    pub frame: Frame,
}

/// A constant of a unit: a text, or the code of a procedure literal.
#[cycle(code_unit)]
#[derive(Drop)]
pub enum Constant {
    Text(Bytes),
    Unit(Box<CodeUnit>),
}

/// How many locals a unit has on the number stack and on the reference stack, and how many of
/// these, from the first on, hold its arguments.
#[derive(Clone, Copy, PartialEq, Eq, Debug)]
pub struct Frame {
    pub nums: u16,
    pub refs: u16,
    pub num_params: u16,
    pub ref_params: u16,
}

impl Constant {
    /// The constant of a procedure literal.
    #[tactic(auto, using(crate::proofs::Units::unit_views))]
    pub fn of_unit(alloc: Global, unit: CodeUnit) -> Result<Constant, AllocError>
        ensures { IfOk result (λ c. constant_view c ≡ literal (unit_view unit)) }
    {
        Ok(Constant::Unit(Box::new(alloc, unit)?))
    }
}
