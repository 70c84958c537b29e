//! Procedures that were called before.
ghost use Rattle.std.specs.Prelude.{◌<◌, ◌≤◌, IfOk, IfSome};
ghost use Rattle.joint_ops.specs.swizzle.Heap.{Heap};
ghost use Rattle.objects.specs.Bodies.{AreSo, HasBody};

use crate::body::Body;
use joint_ops::proc_values::reading::CodePlace;
use ps_base::code_unit::Frame;
use std::alloc::{AllocError, Global};

/// What a procedure was found to be: its object's index in the area, and its body. Index 0 stands for no entry.
#[derive(Clone, Copy)]
pub(crate) struct KnownProcedure {
    pub procedure: u32,
    pub body: Body,
}

/// Procedures that were called before.
#[derive(Drop)]
pub(crate) struct KnownProcedures {
    pub entries: Vec<KnownProcedure>,
}

// How many entries there are. A procedure that is called takes the entry of its index from another one.
const ENTRIES: usize = 64;

const NO_ENTRY: KnownProcedure = KnownProcedure {
    procedure: 0,
    body: Body {
        code: 0,
        place: CodePlace { first: 0, count: 0 },
        frame: Frame {
            nums: 0,
            refs: 0,
            num_params: 0,
            ref_params: 0,
        },
        scope: None,
    },
};

impl KnownProcedures {
    /// Without any procedure. This takes memory for 64 entries, once.
    pub fn new(alloc: Global) -> Result<KnownProcedures, AllocError>
        ensures { IfOk result (λ known. (here : Heap) → AreSo here known.entries.items) }
    {
        let mut entries = Vec::with_capacity(alloc, ENTRIES)?;
        entries.resize(ENTRIES, NO_ENTRY)?;
        Ok(KnownProcedures { entries })
    }

    /// Forgets all procedures.
    pub fn clear(&mut self)
        ensures { (here : Heap) → AreSo here self.new.entries.items }
    {
        self.entries.fill(NO_ENTRY);
    }

    /// The body of a procedure, if its entry stands in its place.
    #[inline(always)]
    pub fn find(&self, procedure: u32) -> Option<Body>
        requires { 1 ≤ procedure }
        ensures { (here : Heap) → AreSo here self.now.entries.items → IfSome result (HasBody here procedure) }
    {
        let index = index_of(procedure);
        if index >= self.entries.len() {
            return None;
        }
        let known = self.entries[index];
        if known.procedure == procedure {
            Some(known.body)
        } else {
            None
        }
    }

    /// Keeps the body of a procedure.
    pub fn keep(&mut self, procedure: u32, body: Body)
        ensures { (here : Heap) → AreSo here self.old.entries.items → HasBody here procedure body → AreSo here self.new.entries.items }
    {
        let index = index_of(procedure);
        if index < self.entries.len() {
            self.entries[index] = KnownProcedure { procedure, body };
        }
    }
}

// Where the entry of a procedure stands.
#[inline(always)]
fn index_of(procedure: u32) -> usize
    ensures { result < 64 }
{
    procedure as usize % 64
}
