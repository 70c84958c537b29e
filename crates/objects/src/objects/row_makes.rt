//! Structures made of the rows of their fields, by the constants that name their classes.
ghost use Rattle.std.specs.Prelude.{◌≡◌, ℕ, List, IfOk, IfSome, OnOk, length};
ghost use Rattle.ps_base.specs.CodeUnit.{ConstantsView, unit};
ghost use Rattle.ps_base.specs.declared.code_unit.Frame.{Frame};
ghost use Rattle.joint_ops.specs.obj_layout.declared.reference.Reference.{Reference};
ghost use Rattle.joint_ops.specs.obj_layout.Storing.{SameNumbers};
ghost use Rattle.joint_ops.specs.swizzle.Heap.{IsHeld};
ghost use Rattle.joint_ops.specs.swizzle.Reading.{LeavesOutside};
ghost use Rattle.joint_ops.specs.swizzle.Text.{text_at};
ghost use Rattle.joint_ops.specs.swizzle.Touch.{Keeps};
ghost use Rattle.joint_ops.specs.text_forms.Forms.{forms_of};
ghost use Rattle.joint_ops.specs.heap_places.Filling.{AreNear};
ghost use Rattle.joint_ops.specs.ps_heap.Objects as meaning;
ghost use Rattle.joint_ops.specs.ps_heap.Texts.{Yields};
ghost use Rattle.joint_ops.specs.ps_heap.Values as meant;
ghost use Rattle.joint_ops.specs.Code.{StandsBy};
ghost use Rattle.joint_ops.specs.World.{IsUnitIn, IsWorld, FailsAsReading};
ghost use Rattle.joint_ops.specs.Made.{Makes, BreaksAsMaking};
ghost use Rattle.structure_rows.specs.Rows.{named};
ghost use Rattle.objects.specs.Known.{IsRight};
ghost use Rattle.objects.specs.Makes.{AnswersRows, AreRowsFor, HasRows};

use super::Objects;
use crate::class_rows::{ClassRows, make_of_rows};
use crate::classes::class_at;
use crate::known::Known;
use joint_ops::OpFault;
use joint_ops::obj_layout::vault::Vault;
use joint_ops::swizzle::fault::SwizzleFault;
use joint_ops::swizzle::swizzle::Swizzle;

impl Objects {
    /// The class whose text is the constant of this number of a code object, with how its fields lie in rows. None exactly where more than 64 of them are
    /// numbers, or more than 65,535 references: structures of such a class are made by `make_structure`. Of the code object of a unit it is damaged exactly
    /// where the unit has no text as that constant. What isn't in the area is fetched.
    #[inline(always)]
    pub fn class_rows<V: Vault>(
        &mut self,
        vault: &mut V,
        code: u32,
        constant: u32,
    ) -> Result<Option<ClassRows>, SwizzleFault>
        requires alive { V.alive vault.old }
        requires held { IsHeld self.old code }
        ensures given { (bytes : List ℕ) (row : ConstantsView) (frame : Frame) → IsUnitIn self.old (V.outside vault.old) code (unit bytes row frame)
            → AnswersRows self.old self.new (V.outside vault.old) (V.outside vault.new) code row constant result }
        ensures world { OnOk result (StandsBy self.old self.new (V.outside vault.old) (V.outside vault.new) code) }
        ensures class { IfOk result (λ class. IfSome class (HasRows self.new)) }
        ensures keeps { OnOk result (Keeps self.old self.new) }
        ensures fails { FailsAsReading (V.outside vault.old) (V.outside vault.new) result }
        ensures leaves { LeavesOutside (V.outside vault.old) (V.outside vault.new) }
        ensures numbers { SameNumbers V.used_words V.directory_at V.most_words V.access vault.old vault.new }
        ensures alive { OnOk result (V.alive vault.new) }
    {
        self.sw.sound();
        match self.known.makes.find(code, constant) {
            Some(class) => Ok(Some(class)),
            None => read_rows(&mut self.sw, &mut self.known, vault, code, constant),
        }
    }

    /// Makes a structure of a class, of the numbers and the references of its fields, each row in its order, whatever the vault: of a field that is a bool
    /// a number for whether it is above 0, of a reference the index of an object of the area, or 0 for nil. AreaFull exactly where there is no room for its
    /// words; then the area stays. The text of the class isn't read.
    #[inline]
    pub fn make_from<V: Vault>(
        &mut self,
        class: ClassRows,
        nums: &[i32],
        refs: &[u32],
    ) -> Result<u32, OpFault>
        requires class { HasRows self.old class }
        requires nums { length nums.now ≡ class.fields.rows.nums }
        requires refs { length refs.now ≡ class.fields.rows.refs }
        requires near { AreNear self.old (named refs.now) }
        ensures made { (vault : V) (of : meaning.Heap) (names : List Reference) (values : List meant.Value) → IsWorld self.old (V.outside vault) of names
            → AreRowsFor self.old (V.outside vault) names (forms_of (text_at self.old class.text)) nums.now refs.now values
            → Makes self.old self.new (V.outside vault) of names meant.Pointer (Yields (meaning.Structure (text_at self.old class.text) values)) result }
        ensures held { IfOk result (IsHeld self.new) }
        ensures keeps { Keeps self.old self.new }
        ensures fails { BreaksAsMaking self.old self.new result }
    {
        make_of_rows::<V>(&mut self.sw, class, nums, refs)
    }
}

// The class of another constant, which is read and known from then on.
#[inline(never)]
fn read_rows<V: Vault>(
    sw: &mut Swizzle,
    known: &mut Known,
    vault: &mut V,
    code: u32,
    constant: u32,
) -> Result<Option<ClassRows>, SwizzleFault>
    requires alive { V.alive vault.old }
    requires held { IsHeld sw.old code }
    requires right { IsRight sw.old known.old }
    ensures given { (bytes : List ℕ) (row : ConstantsView) (frame : Frame) → IsUnitIn sw.old (V.outside vault.old) code (unit bytes row frame)
        → AnswersRows sw.old sw.new (V.outside vault.old) (V.outside vault.new) code row constant result }
    ensures world { OnOk result (StandsBy sw.old sw.new (V.outside vault.old) (V.outside vault.new) code) }
    ensures class { IfOk result (λ class. IfSome class (HasRows sw.new)) }
    ensures keeps { OnOk result (Keeps sw.old sw.new) }
    ensures fails { FailsAsReading (V.outside vault.old) (V.outside vault.new) result }
    ensures leaves { LeavesOutside (V.outside vault.old) (V.outside vault.new) }
    ensures numbers { SameNumbers V.used_words V.directory_at V.most_words V.access vault.old vault.new }
    ensures alive { OnOk result (V.alive vault.new) }
    ensures right { IsRight sw.new known.new }
{
    let text = match class_at(sw, vault, code, constant) {
        Ok(text) => text,
        Err(fault) => {
            known.clear();
            return Err(fault);
        }
    };
    sw.sound();
    Ok(known.makes.learn(sw, code, constant, text))
}
