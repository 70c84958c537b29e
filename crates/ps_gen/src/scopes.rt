ghost use Rattle.std.specs.Prelude.{◌≡◌, option_map, OnOk};
ghost use Rattle.ps_emitter.specs.Pieces.{state_of, Puts};
ghost use Rattle.ps_gen.specs.inside.Clauses.{entering, leaving};

use ps_base::bytes::Bytes;
use ps_base::instr::Instr;
use ps_emitter::emitter::Emitter;
use ps_emitter::naming::Naming;
use std::alloc::AllocError;

/// Makes and enters a scope, where there is one.
pub(crate) fn enter(emitter: &mut Emitter, scope: Option<&[u8]>) -> Result<(), AllocError>
    ensures { OnOk result (Puts (entering (option_map (λ bytes. bytes.now) scope.entry)) (state_of emitter.old) (state_of emitter.new)) }
{
    match scope {
        Some(bytes) => emitter.name(Naming::Scope, bytes),
        None => Ok(()),
    }
}

/// Leaves it.
pub(crate) fn leave(emitter: &mut Emitter, scope: Option<&[u8]>) -> Result<(), AllocError>
    ensures { OnOk result (Puts (leaving (option_map (λ bytes. bytes.now) scope.entry)) (state_of emitter.old) (state_of emitter.new)) }
{
    match scope {
        Some(_) => emitter.put(Instr::Leave),
        None => Ok(()),
    }
}

/// The bytes of a text in a box, where there is one.
pub(crate) fn boxed_text(scope: &Option<Box<Bytes>>) -> Option<&[u8]>
    ensures { option_map (λ bytes. bytes.now) result ≡ option_map (λ bytes. bytes.value) scope.now }
{
    match scope {
        Some(bytes) => Some(bytes.as_slice()),
        None => None,
    }
}

/// The bytes of a text, where there is one.
pub(crate) fn text_in(scope: &Option<Bytes>) -> Option<&[u8]>
    ensures { option_map (λ bytes. bytes.now) result ≡ scope.now }
{
    match scope {
        Some(bytes) => Some(bytes.as_slice()),
        None => None,
    }
}
