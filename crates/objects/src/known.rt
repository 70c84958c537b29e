//! What was looked up of the objects of an area.
ghost use Rattle.std.specs.Prelude.{◌≡◌, IfOk};
ghost use Rattle.joint_ops.specs.swizzle.Heap.{Heap};
ghost use Rattle.objects.specs.Known.{IsRight};
ghost use Rattle.objects.specs.Lasting.{Lasts, UnlessBroken};

use crate::known_fields::KnownFields;
use crate::known_makes::KnownMakes;
use crate::known_procedures::KnownProcedures;
use crate::known_vectors::KnownVectors;
use joint_ops::OpFault;
use joint_ops::heap_ops::layouts::Layouts;
use std::alloc::{AllocError, Global};

/// What was looked up of the objects of an area: places that texts name, fields by the constants that name their classes, what vectors are, bodies of
/// procedures, and classes by which structures are made. All of it says what is so of the area alone, and stays so as long as objects last.
#[derive(Drop)]
pub(crate) struct Known {
    pub layouts: Layouts,
    pub fields: KnownFields,
    pub vectors: KnownVectors,
    pub procedures: KnownProcedures,
    pub makes: KnownMakes,
}

impl Known {
    /// Nothing. This takes memory once.
    pub fn new(alloc: Global) -> Result<Known, AllocError>
        ensures { IfOk result (λ known. (here : Heap) → IsRight here known) }
    {
        let layouts = Layouts::new(alloc)?;
        let fields = KnownFields::new(alloc)?;
        let vectors = KnownVectors::new(alloc)?;
        let procedures = KnownProcedures::new(alloc)?;
        let makes = KnownMakes::new(alloc)?;
        Ok(Known {
            layouts,
            fields,
            vectors,
            procedures,
            makes,
        })
    }

    /// Forgets all of it.
    pub fn clear(&mut self)
        ensures { (here : Heap) → IsRight here self.new }
    {
        self.layouts.clear();
        self.fields.clear();
        self.vectors.clear();
        self.procedures.clear();
        self.makes.clear();
    }

    /// Hands on why an operation gave nothing. Of a trap all that was looked up stays so, if objects last; after a fault nothing is said of the area, and
    /// all of it is forgotten.
    pub fn keep(&mut self, fault: OpFault) -> OpFault
        ensures same { result ≡ fault }
        ensures right { (old new : Heap) → IsRight old self.old → UnlessBroken fault (Lasts old new) → IsRight new self.new }
    {
        match fault {
            OpFault::Trap(trap) => OpFault::Trap(trap),
            OpFault::Swizzle(why) => {
                self.clear();
                OpFault::Swizzle(why)
            }
        }
    }
}
