ghost use Rattle.std.specs.Prelude.{◌≡◌, IfOk};

use crate::meaning::Meaning;
use ps_base::bytes::Bytes;
use ps_log::Named;
use std::alloc::{AllocError, Global};

/// A name that is declared, and what it means.
#[derive(Drop)]
pub(crate) struct Declaration {
    pub(crate) name: Bytes,
    pub(crate) meaning: Meaning,
}

impl Named for Declaration {
    ghost name = { λ d. d.name };

    fn name(&self) -> &[u8] {
        self.name.as_slice()
    }
}

/// The same bytes once more.
pub(crate) fn bytes_of(alloc: Global, bytes: &[u8]) -> Result<Bytes, AllocError>
    ensures { IfOk result (λ made. made ≡ bytes.now) }
{
    Ok(Bytes::new(Vec::from_slice(alloc, bytes)?))
}
