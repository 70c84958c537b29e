//! Classes with how their fields lie in rows, and structures made of both rows at once.
ghost use Rattle.std.specs.Prelude.{◌≡◌, List, IfOk, length};
ghost use Rattle.joint_ops.specs.obj_layout.declared.reference.Reference.{Reference};
ghost use Rattle.joint_ops.specs.swizzle.Heap.{IsHeld};
ghost use Rattle.joint_ops.specs.swizzle.Text.{text_at};
ghost use Rattle.joint_ops.specs.swizzle.Touch.{Keeps};
ghost use Rattle.joint_ops.specs.text_forms.Forms.{forms_of};
ghost use Rattle.joint_ops.specs.heap_places.Filling.{AreNear};
ghost use Rattle.joint_ops.specs.ps_heap.Objects as meaning;
ghost use Rattle.joint_ops.specs.ps_heap.Texts.{Yields};
ghost use Rattle.joint_ops.specs.ps_heap.Values as meant;
ghost use Rattle.joint_ops.specs.World.{IsWorld};
ghost use Rattle.joint_ops.specs.Made.{Makes, BreaksAsMaking};
ghost use Rattle.structure_rows.specs.Rows.{named};
ghost use Rattle.objects.specs.Makes.{AreRowsFor, HasRows};

use joint_ops::OpFault;
use joint_ops::obj_layout::vault::Vault;
use joint_ops::swizzle::swizzle::Swizzle;
use structure_rows::marks::FieldRows;
use structure_rows::rows::make_rows;

/// A class: the text to which its structures refer, an object of the area, and how many fields it has in each row, with those of the numbers that are
/// bools. It is so as long as objects last.
#[derive(Clone, Copy)]
pub struct ClassRows {
    pub text: u32,
    pub fields: FieldRows,
}

/// Makes a structure of a class, of the numbers and the references of its fields.
#[inline]
pub(crate) fn make_of_rows<V: Vault>(
    sw: &mut Swizzle,
    class: ClassRows,
    nums: &[i32],
    refs: &[u32],
) -> Result<u32, OpFault>
    requires class { HasRows sw.old class }
    requires nums { length nums.now ≡ class.fields.rows.nums }
    requires refs { length refs.now ≡ class.fields.rows.refs }
    requires near { AreNear sw.old (named refs.now) }
    ensures made { (vault : V) (of : meaning.Heap) (names : List Reference) (values : List meant.Value) → IsWorld sw.old (V.outside vault) of names
        → AreRowsFor sw.old (V.outside vault) names (forms_of (text_at sw.old class.text)) nums.now refs.now values
        → Makes sw.old sw.new (V.outside vault) of names meant.Pointer (Yields (meaning.Structure (text_at sw.old class.text) values)) result }
    ensures held { IfOk result (IsHeld sw.new) }
    ensures keeps { Keeps sw.old sw.new }
    ensures fails { BreaksAsMaking sw.old sw.new result }
{
    sw.sound();
    let made = make_rows(sw, class.text, class.fields.flags, nums, refs);
    sw.sound();
    match made {
        Ok(at) => Ok(at),
        Err(fault) => Err(OpFault::Swizzle(fault)),
    }
}
