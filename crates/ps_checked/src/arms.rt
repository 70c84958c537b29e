use ps_base::ty::Ty;
use ps_program::form::Arm;

/// The arms of a `case`, and the type of their clauses, where there are any.
#[derive(Drop)]
pub struct Arms {
    pub arms: Vec<Arm>,
    pub given: Option<Ty>,
}
