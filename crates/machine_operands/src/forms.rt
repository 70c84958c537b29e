ghost use Rattle.std.specs.Prelude.{◌≡◌, true, List, Some};
ghost use Rattle.machine_core.specs.obj_layout.declared.reference.Reference.{Reference};
ghost use Rattle.machine_core.specs.swizzle.Heap.{Heap};
ghost use Rattle.machine_core.specs.heap_places.Places.{IsNear};
ghost use Rattle.machine_core.specs.text_forms.Forms.{is_number_form};
ghost use Rattle.machine_core.specs.ps_heap.Values.{Num};
ghost use Rattle.machine_core.specs.ps_heap.Objects.{kept_as as kept_as_of};
ghost use Rattle.machine_core.specs.joint_ops.World.{IsForIn, IsOfForm};

use machine_core::joint_ops::Value;
use machine_core::jumps::is_one;
use machine_core::obj_layout::vault::Vault;
use machine_core::text_forms::forms::Form;

/// The value of a number where a place of this form holds it.
#[inline(always)]
pub fn kept_as<V: Vault>(form: Form, z: i32) -> Value
    ensures form { is_number_form form ≡ true → IsOfForm form result }
    ensures denotes { (v : V) (here : Heap) (names : List Reference) → is_number_form form ≡ true
        → IsForIn here (V.outside v) names result (kept_as_of (Some form) (Num z)) }
    ensures near { (here : Heap) → IsNear here result }
{
    match form {
        Form::Flag => Value::Flag(is_one(z)),
        _ => Value::Num(z),
    }
}
