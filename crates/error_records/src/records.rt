//! An error record is made.
ghost use Rattle.std.specs.Prelude.{ℕ, List, IfOk, IfErr, Option};
ghost use Rattle.joint_held.specs.joint_ops.obj_area.Words.{AreBytes};
ghost use Rattle.joint_held.specs.joint_ops.obj_layout.declared.reference.Reference.{Reference};
ghost use Rattle.joint_held.specs.joint_ops.swizzle.Heap.{IsHeld};
ghost use Rattle.joint_held.specs.joint_ops.swizzle.Touch.{Keeps};
ghost use Rattle.joint_held.specs.joint_ops.ps_heap.Held.{Held};
ghost use Rattle.joint_held.specs.reach_commit.commit_walk.declared.homes.Source.{Source};
ghost use Rattle.joint_held.specs.Held.{HoldsRun};
ghost use Rattle.error_records.specs.Refusals.{context_of, fault_by};
ghost use Rattle.error_records.specs.Records.{IsNewRecord, LacksRoom, Refuses};
ghost use Rattle.error_records.specs.inside.Texts.{MakesPart, MakesTexts};

use crate::refusals::{Call, Refusal};
use joint_ops::Value;
use joint_ops::heap_ops::structures::make_structure;
use joint_ops::heap_texts::make::make_text;
use joint_ops::obj_layout::vault::Vault;
use joint_ops::swizzle::fault::SwizzleFault;
use joint_ops::swizzle::swizzle::Swizzle;

const CLASS: &[u8] = b"error.record(string error.context;string error.fault;string error.explain)";

// The texts of an error record, by their objects.
#[derive(Clone, Copy)]
struct Texts {
    class: u32,
    context: u32,
    fault: u32,
    explain: u32,
}

// A law: what a slice of bytes holds are bytes.
#[inline]
fn are_bytes(bytes: &[u8])
    ensures { AreBytes bytes.now }
{
    let _ = bytes;
}

// The object of one text.
fn part(sw: &mut Swizzle, bytes: &[u8]) -> Result<u32, SwizzleFault>
    ensures { MakesPart sw.old sw.new bytes.now result }
{
    sw.sound();
    are_bytes(bytes);
    let made = make_text(sw, bytes);
    sw.sound();
    made
}

// The objects of its four texts.
fn make_texts(sw: &mut Swizzle, by: Call, why: Refusal) -> Result<Texts, SwizzleFault>
    ensures { MakesTexts sw.old sw.new (context_of by) (fault_by why) result }
{
    let class = part(sw, CLASS)?;
    let context = part(sw, by.context())?;
    let fault = part(sw, why.fault())?;
    let explain = part(sw, why.explain())?;
    Ok(Texts {
        class,
        context,
        fault,
        explain,
    })
}

/// Makes the error record that a call answers where it is refused: the texts of its class, of the call, of the fault and of what is said of it, and then the
/// structure. AreaFull exactly where there is no room for one of these objects; those before it were made then. The vault is there for the clause alone.
pub fn refuse<V: Vault>(
    sw: &mut Swizzle,
    _vault: &V,
    by: Call,
    why: Refusal,
) -> Result<u32, SwizzleFault>
    ensures run { (names : List Reference) (writing : List Source) (directory : Option ℕ) (h : Held)
        → HoldsRun sw.old (V.outside _vault.now) names writing directory h
        → Refuses sw.old sw.new (V.outside _vault.now) names writing directory h (context_of by) (fault_by why) result }
    ensures held { IfOk result (IsHeld sw.new) }
    ensures made { IfOk result (IsNewRecord sw.old sw.new) }
    ensures keeps { Keeps sw.old sw.new }
    ensures fails { IfErr result (LacksRoom sw.old sw.new (context_of by) (fault_by why)) }
{
    sw.sound();
    let texts = make_texts(sw, by, why)?;
    sw.sound();
    let fields = [
        Value::Ref(Some(texts.context)),
        Value::Ref(Some(texts.fault)),
        Value::Ref(Some(texts.explain)),
    ];
    let made = make_structure(sw, texts.class, &fields);
    sw.sound();
    made
}
