//! Forms of fields, by the constants that name their classes.
ghost use Rattle.std.specs.Prelude.{ℕ, List, OnOk};
ghost use Rattle.ps_base.specs.CodeUnit.{ConstantsView, unit};
ghost use Rattle.ps_base.specs.declared.code_unit.Frame.{Frame};
ghost use Rattle.joint_ops.specs.obj_layout.Storing.{SameNumbers};
ghost use Rattle.joint_ops.specs.swizzle.Heap.{IsHeld};
ghost use Rattle.joint_ops.specs.swizzle.Reading.{LeavesOutside};
ghost use Rattle.joint_ops.specs.swizzle.Touch.{Keeps};
ghost use Rattle.joint_ops.specs.Code.{StandsBy};
ghost use Rattle.joint_ops.specs.World.{IsUnitIn, FailsAsReading};
ghost use Rattle.objects.specs.Classes.{AnswersForm};
ghost use Rattle.objects.specs.Known.{IsRight};

use super::Objects;
use crate::classes::{class_at, no_field};
use crate::known::Known;
use joint_ops::obj_layout::vault::Vault;
use joint_ops::swizzle::fault::SwizzleFault;
use joint_ops::swizzle::swizzle::Swizzle;
use joint_ops::text_forms::forms::{Form, locate};

impl Objects {
    /// The form of the field of this number of the class whose text is the constant of this number of a code object. Of the code object of a unit it is
    /// damaged exactly where the unit has no such class, or the class no such field. What isn't in the area is fetched.
    pub fn field_form<V: Vault>(
        &mut self,
        vault: &mut V,
        code: u32,
        constant: u32,
        field: u32,
    ) -> Result<Form, SwizzleFault>
        requires alive { V.alive vault.old }
        requires held { IsHeld self.old code }
        ensures given { (bytes : List ℕ) (row : ConstantsView) (frame : Frame) → IsUnitIn self.old (V.outside vault.old) code (unit bytes row frame)
            → AnswersForm self.old self.new (V.outside vault.old) (V.outside vault.new) code row constant field result }
        ensures world { OnOk result (StandsBy self.old self.new (V.outside vault.old) (V.outside vault.new) code) }
        ensures keeps { OnOk result (Keeps self.old self.new) }
        ensures fails { FailsAsReading (V.outside vault.old) (V.outside vault.new) result }
        ensures leaves { LeavesOutside (V.outside vault.old) (V.outside vault.new) }
        ensures numbers { SameNumbers V.used_words V.directory_at V.most_words V.access vault.old vault.new }
        ensures alive { OnOk result (V.alive vault.new) }
    {
        tell_form(&mut self.sw, &mut self.known, vault, code, constant, field)
    }
}

// Tells the form of a field, with what was looked up beside the area.
fn tell_form<V: Vault>(
    sw: &mut Swizzle,
    known: &mut Known,
    vault: &mut V,
    code: u32,
    constant: u32,
    field: u32,
) -> Result<Form, SwizzleFault>
    requires alive { V.alive vault.old }
    requires held { IsHeld sw.old code }
    requires right { IsRight sw.old known.old }
    ensures given { (bytes : List ℕ) (row : ConstantsView) (frame : Frame) → IsUnitIn sw.old (V.outside vault.old) code (unit bytes row frame)
        → AnswersForm sw.old sw.new (V.outside vault.old) (V.outside vault.new) code row constant field result }
    ensures world { OnOk result (StandsBy sw.old sw.new (V.outside vault.old) (V.outside vault.new) code) }
    ensures keeps { OnOk result (Keeps sw.old sw.new) }
    ensures fails { FailsAsReading (V.outside vault.old) (V.outside vault.new) result }
    ensures leaves { LeavesOutside (V.outside vault.old) (V.outside vault.new) }
    ensures numbers { SameNumbers V.used_words V.directory_at V.most_words V.access vault.old vault.new }
    ensures alive { OnOk result (V.alive vault.new) }
    ensures right { IsRight sw.new known.new }
{
    let class = match class_at(sw, vault, code, constant) {
        Ok(class) => class,
        Err(fault) => {
            known.clear();
            return Err(fault);
        }
    };
    sw.sound();
    match locate(sw.text(class), field) {
        Some(located) => Ok(located.place.form),
        None => Err(no_field(sw, code, class, field)),
    }
}
