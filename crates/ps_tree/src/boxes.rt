ghost use Rattle.std.specs.Prelude.{◌≡◌, IfOk, IfErr, Some, option_map};
ghost use Rattle.ps_tree.specs.declared.fault.ParseFault.TheVariants.{Memory};

use crate::fault::ParseFault;
use crate::rough::Rough;
use std::alloc::Global;

/// A part of a form, in a box.
pub(crate) fn boxed<T: Drop>(alloc: Global, one: T) -> Result<Box<T>, ParseFault>
    ensures made { IfOk result (λ made. made.value ≡ one) }
    ensures fault { IfErr result (λ fault. fault ≡ Memory) }
{
    match Box::new(alloc, one) {
        Ok(made) => Ok(made),
        Err(_) => Err(ParseFault::Memory),
    }
}

/// A clause that may be left out, in a box.
pub(crate) fn boxed_if_any(
    alloc: Global,
    clause: Option<Rough>,
) -> Result<Option<Box<Rough>>, ParseFault>
    ensures made { IfOk result (λ made. option_map (λ b. b.value) made ≡ clause) }
    ensures fault { IfErr result (λ fault. fault ≡ Memory) }
{
    match clause {
        Some(clause) => some_boxed(alloc, clause),
        None => Ok(None),
    }
}

fn some_boxed(alloc: Global, clause: Rough) -> Result<Option<Box<Rough>>, ParseFault>
    ensures made { IfOk result (λ made. option_map (λ b. b.value) made ≡ Some clause) }
    ensures fault { IfErr result (λ fault. fault ≡ Memory) }
{
    match Box::new(alloc, clause) {
        Ok(made) => Ok(Some(made)),
        Err(_) => Err(ParseFault::Memory),
    }
}
