//! Structures: made, and told by their classes.
ghost use Rattle.std.specs.Prelude.{◌≡◌, ℕ, List, IfOk, IfSome};
ghost use Rattle.joint_ops.specs.obj_layout.declared.reference.Reference.{Reference};
ghost use Rattle.joint_ops.specs.obj_layout.Storing.{SameNumbers};
ghost use Rattle.joint_ops.specs.swizzle.Heap.{IsHeld};
ghost use Rattle.joint_ops.specs.swizzle.Reading.{LeavesOutside};
ghost use Rattle.joint_ops.specs.swizzle.Touch.{Keeps};
ghost use Rattle.joint_ops.specs.text_forms.Forms.{forms_of};
ghost use Rattle.joint_ops.specs.heap_places.Filling.{AreNear};
ghost use Rattle.joint_ops.specs.heap_ops.Outcomes.{UnlessFault};
ghost use Rattle.joint_ops.specs.ps_heap.Objects as meaning;
ghost use Rattle.joint_ops.specs.ps_heap.Texts.{Yields};
ghost use Rattle.joint_ops.specs.ps_heap.Values as meant;
ghost use Rattle.joint_ops.specs.World.{IsWorld, DenotesIn, Answers, BreaksAsReading};
ghost use Rattle.joint_ops.specs.Operands.{AreForIn};
ghost use Rattle.objects.specs.Classes.{NamesClass, LacksClass, BreaksByCode, MakesLater};
ghost use Rattle.objects.specs.Known.{IsRight};

use super::Objects;
use crate::classes::class_at;
use crate::known::Known;
use joint_ops::obj_layout::vault::Vault;
use joint_ops::swizzle::swizzle::Swizzle;
use joint_ops::{OpFault, Value, structures};

impl Objects {
    /// Makes a structure of the class whose text is the constant of this number of a code object, with the values of its fields in their order. AreaFull
    /// where there is no room for its words, or for the text of the class, which is fetched where it isn't in the area. Where the constant is no text, the
    /// code object is damaged.
    #[inline]
    pub fn make_structure<V: Vault>(
        &mut self,
        vault: &mut V,
        code: u32,
        constant: u32,
        fields: &[Value],
    ) -> Result<u32, OpFault>
        requires alive { V.alive vault.old }
        requires code { IsHeld self.old code }
        requires near { AreNear self.old fields.now }
        ensures made { (of : meaning.Heap) (names : List Reference) (class : List ℕ) (values : List meant.Value) → IsWorld self.old (V.outside vault.old) of names
            → NamesClass self.old (V.outside vault.old) code constant class
            → AreForIn self.old (V.outside vault.old) names (forms_of class) fields.now values
            → MakesLater self.old self.new (V.outside vault.old) (V.outside vault.new) of names meant.Pointer (Yields (meaning.Structure class values)) result }
        ensures damaged { LacksClass self.old (V.outside vault.old) code constant
            → BreaksByCode self.old self.new (V.outside vault.old) (V.outside vault.new) code result }
        ensures held { IfOk result (IsHeld self.new) }
        ensures keeps { UnlessFault result (Keeps self.old self.new) }
        ensures fails { BreaksAsReading (V.outside vault.old) (V.outside vault.new) result }
        ensures leaves { LeavesOutside (V.outside vault.old) (V.outside vault.new) }
        ensures numbers { SameNumbers V.used_words V.directory_at V.most_words V.access vault.old vault.new }
        ensures alive { UnlessFault result (V.alive vault.new) }
    {
        make_named(&mut self.sw, &mut self.known, vault, code, constant, fields)
    }

    /// Whether a value denotes a structure of the class whose text is the constant of this number of a code object: nil does not. Where the constant is no
    /// text, the code object is damaged. What isn't in the area is fetched.
    #[inline]
    pub fn is_class<V: Vault>(
        &mut self,
        vault: &mut V,
        object: Option<u32>,
        code: u32,
        constant: u32,
    ) -> Result<bool, OpFault>
        requires alive { V.alive vault.old }
        requires held { IfSome object (IsHeld self.old) }
        requires code { IsHeld self.old code }
        ensures got { (of : meaning.Heap) (names : List Reference) (class : List ℕ) (o : meant.Value) → IsWorld self.old (V.outside vault.old) of names
            → NamesClass self.old (V.outside vault.old) code constant class → DenotesIn self.old (V.outside vault.old) names object o
            → Answers self.old self.new (V.outside vault.old) (V.outside vault.new) (λ is wanted. is ≡ wanted) of names (Yields (meaning.is_class of o class)) result }
        ensures damaged { LacksClass self.old (V.outside vault.old) code constant
            → BreaksByCode self.old self.new (V.outside vault.old) (V.outside vault.new) code result }
        ensures keeps { UnlessFault result (Keeps self.old self.new) }
        ensures fails { BreaksAsReading (V.outside vault.old) (V.outside vault.new) result }
        ensures leaves { LeavesOutside (V.outside vault.old) (V.outside vault.new) }
        ensures numbers { SameNumbers V.used_words V.directory_at V.most_words V.access vault.old vault.new }
        ensures alive { UnlessFault result (V.alive vault.new) }
    {
        tell_class(&mut self.sw, &mut self.known, vault, object, code, constant)
    }
}

// Makes a structure, with what was looked up beside the area.
fn make_named<V: Vault>(
    sw: &mut Swizzle,
    known: &mut Known,
    vault: &mut V,
    code: u32,
    constant: u32,
    fields: &[Value],
) -> Result<u32, OpFault>
    requires alive { V.alive vault.old }
    requires code { IsHeld sw.old code }
    requires near { AreNear sw.old fields.now }
    requires right { IsRight sw.old known.old }
    ensures made { (of : meaning.Heap) (names : List Reference) (class : List ℕ) (values : List meant.Value) → IsWorld sw.old (V.outside vault.old) of names
        → NamesClass sw.old (V.outside vault.old) code constant class
        → AreForIn sw.old (V.outside vault.old) names (forms_of class) fields.now values
        → MakesLater sw.old sw.new (V.outside vault.old) (V.outside vault.new) of names meant.Pointer (Yields (meaning.Structure class values)) result }
    ensures damaged { LacksClass sw.old (V.outside vault.old) code constant
        → BreaksByCode sw.old sw.new (V.outside vault.old) (V.outside vault.new) code result }
    ensures held { IfOk result (IsHeld sw.new) }
    ensures keeps { UnlessFault result (Keeps sw.old sw.new) }
    ensures fails { BreaksAsReading (V.outside vault.old) (V.outside vault.new) result }
    ensures leaves { LeavesOutside (V.outside vault.old) (V.outside vault.new) }
    ensures numbers { SameNumbers V.used_words V.directory_at V.most_words V.access vault.old vault.new }
    ensures alive { UnlessFault result (V.alive vault.new) }
    ensures right { IsRight sw.new known.new }
{
    let class = match class_at(sw, vault, code, constant) {
        Ok(class) => class,
        Err(fault) => {
            known.clear();
            return Err(OpFault::Swizzle(fault));
        }
    };
    sw.sound();
    structures::make_structure(sw, vault, class, fields)
}

// Tells the class of a structure, with what was looked up beside the area.
fn tell_class<V: Vault>(
    sw: &mut Swizzle,
    known: &mut Known,
    vault: &mut V,
    object: Option<u32>,
    code: u32,
    constant: u32,
) -> Result<bool, OpFault>
    requires alive { V.alive vault.old }
    requires held { IfSome object (IsHeld sw.old) }
    requires code { IsHeld sw.old code }
    requires right { IsRight sw.old known.old }
    ensures got { (of : meaning.Heap) (names : List Reference) (class : List ℕ) (o : meant.Value) → IsWorld sw.old (V.outside vault.old) of names
        → NamesClass sw.old (V.outside vault.old) code constant class → DenotesIn sw.old (V.outside vault.old) names object o
        → Answers sw.old sw.new (V.outside vault.old) (V.outside vault.new) (λ is wanted. is ≡ wanted) of names (Yields (meaning.is_class of o class)) result }
    ensures damaged { LacksClass sw.old (V.outside vault.old) code constant
        → BreaksByCode sw.old sw.new (V.outside vault.old) (V.outside vault.new) code result }
    ensures keeps { UnlessFault result (Keeps sw.old sw.new) }
    ensures fails { BreaksAsReading (V.outside vault.old) (V.outside vault.new) result }
    ensures leaves { LeavesOutside (V.outside vault.old) (V.outside vault.new) }
    ensures numbers { SameNumbers V.used_words V.directory_at V.most_words V.access vault.old vault.new }
    ensures alive { UnlessFault result (V.alive vault.new) }
    ensures right { IsRight sw.new known.new }
{
    let class = match class_at(sw, vault, code, constant) {
        Ok(class) => class,
        Err(fault) => {
            known.clear();
            return Err(OpFault::Swizzle(fault));
        }
    };
    sw.sound();
    let told = structures::is_class(sw, vault, object, class);
    match told {
        Ok(is) => Ok(is),
        Err(fault) => Err(known.keep(fault)),
    }
}
