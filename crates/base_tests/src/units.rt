//! Units of code, and the constants in them.

use ps_base::bytes::Bytes;
use ps_base::code_unit::{CodeUnit, Constant, Frame};
use ps_base::list::List;
use std::alloc::{AllocError, Global};
use std::test::Fail;

const CODE: [u8; 6] = [2, 62, 1, 0, 0, 0];

const FRAME: Frame = Frame {
    nums: 2,
    refs: 1,
    num_params: 1,
    ref_params: 0,
};

fn one_text(alloc: Global) -> Result<List<Constant>, AllocError> {
    let text = Constant::Text(Bytes::new(Vec::new(alloc)));
    Ok(List::new(vec![in alloc; text]?))
}

fn unit(alloc: Global) -> Result<CodeUnit, AllocError> {
    let constants = one_text(alloc)?;
    Ok(CodeUnit {
        code: Bytes::new(CODE.to_vec(alloc)?),
        constants,
        frame: FRAME,
    })
}

// Whether the constant is the unit as it was made.
fn is_unit(constant: &Constant) -> bool {
    match constant {
        Constant::Text(_) => false,
        Constant::Unit(unit) => {
            unit.code.as_slice() == CODE.as_slice()
                && unit.constants.len() == 1
                && unit.frame == FRAME
        }
    }
}

#[test]
fn a_unit_is_a_constant(rt: HostRuntime) -> Result<(), Fail> {
    let constant = Constant::of_unit(rt.alloc(), unit(rt.alloc())?)?;
    assert!(rt; is_unit(&constant));
    Ok(())
}
