//! Types that are made and copied.

use ps_base::ty::{Ty, procedure_of, vector_of};
use std::alloc::{AllocError, Global};
use std::test::Fail;

// Whether the type is `*proc(int, *bool -> pntr)`.
fn is_as_made(ty: &Ty) -> bool {
    let Ty::Vector(element) = ty else {
        return false;
    };
    let Ty::Proc(signature) = &**element else {
        return false;
    };
    let [number, Ty::Vector(bools)] = signature.parameters.as_slice() else {
        return false;
    };
    matches!(number, Ty::Int)
        && matches!(&**bools, Ty::Bool)
        && matches!(&signature.gives, Ty::Pntr)
}

fn parameters(alloc: Global) -> Result<Vec<Ty>, AllocError> {
    let mut types = Vec::with_capacity(alloc, 2)?;
    types.push(Ty::Int)?;
    types.push(vector_of(alloc, Ty::Bool)?)?;
    Ok(types)
}

#[test]
fn types_are_copied(rt: HostRuntime) -> Result<(), Fail> {
    let procedure = procedure_of(rt.alloc(), parameters(rt.alloc())?, Ty::Pntr)?;
    let made = vector_of(rt.alloc(), procedure)?;
    let copy = made.copy()?;
    assert!(rt; is_as_made(&made) && is_as_made(&copy));
    Ok(())
}
