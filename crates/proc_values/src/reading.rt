ghost use Rattle.std.specs.Prelude.{◌≡◌, ◌<◌, ◌^◌, ◌↔◌, true, length, OnOk};
ghost use Rattle.heap_texts.specs.obj_layout.declared.kind.Kind.TheVariants.{Code};
ghost use Rattle.heap_texts.specs.swizzle.Heap.{IsHeld};
ghost use Rattle.heap_texts.specs.swizzle.Heap.{header_at};
ghost use Rattle.heap_texts.specs.swizzle.Text.{text_at};
ghost use Rattle.proc_values.specs.Reading.{HasConstant, GivesConstant, GivesInstr, IsInstrIn, IsPlaceOf, IsDamaged};
ghost use Rattle.heap_texts.specs.obj_layout.declared.vault.VaultFault.TheVariants.{Damaged};
ghost use Rattle.heap_texts.specs.obj_layout.Storing.{SameNumbers};
ghost use Rattle.heap_texts.specs.swizzle.declared.fault.SwizzleFault.TheVariants.{Vault as InVault};

use heap_texts::obj_layout::kind::Kind;
use heap_texts::obj_layout::vault::{Vault, VaultFault};
use heap_texts::swizzle::fault::SwizzleFault;
use heap_texts::swizzle::swizzle::Swizzle;
use ps_base::instr::Instr;
use ps_code::decode::decode;

/// The object of a constant of a code object. It is fetched where it isn't in the area. Damaged, at the code object's PID, exactly where the
/// object is no code (found its kind, wanted 6), has no such constant (found the index, wanted their count), or has nil there (found 0,
/// wanted 1).
pub fn constant<V: Vault>(
    sw: &mut Swizzle,
    vault: &mut V,
    code: u32,
    index: u32,
) -> Result<u32, SwizzleFault>
    requires alive { V.alive vault.old }
    requires held { IsHeld sw.old code }
    ensures given { GivesConstant sw.old sw.new (V.outside vault.old) (V.outside vault.new) code index result }
    ensures still { (HasConstant sw.old code index → ⊥) → vault.new ≡ vault.old }
    ensures numbers { SameNumbers V.used_words V.directory_at V.most_words V.access vault.old vault.new }
    ensures alive { OnOk result (V.alive vault.new) }
{
    if !is_code(sw.kind(code)) {
        return Err(no_code(sw, code));
    }
    let header = sw.header(code);
    if index >= header.refs {
        return Err(damaged(header.pid, u64::from(index), u64::from(header.refs)));
    }
    match sw.touch_slot(vault, code, index) {
        Ok(Some(at)) => Ok(at),
        Ok(None) => Err(damaged(header.pid, 0, 1)),
        Err(fault) => Err(fault),
    }
}

/// The instruction at an offset of a code object, and the offset after it. Damaged, at the object's PID, exactly where the object is no code
/// (found its kind, wanted 6), or no instruction is spelled there (found the offset, wanted how many bytes the code has).
#[inline]
pub fn instr_at(sw: &Swizzle, code: u32, at: u32) -> Result<(Instr, u32), SwizzleFault>
    requires { IsHeld sw.now code }
    ensures { GivesInstr sw.now code at result }
{
    if !is_code(sw.kind(code)) {
        return Err(no_code(sw, code));
    }
    match instr_in(sw.text(code), at) {
        Some(found) => Ok(found),
        None => Err(no_instruction(sw, code, at)),
    }
}

/// Where the bytes of a code object lie: the index of the word at which they begin, and how many they are.
#[derive(Clone, Copy)]
pub struct CodePlace {
    pub first: u32,
    pub count: u32,
}

/// Where the bytes of a code object lie.
pub fn code_place(sw: &Swizzle, code: u32) -> CodePlace
    requires held { IsHeld sw.now code }
    requires kind { (header_at sw.now code).kind ≡ Code }
    ensures { IsPlaceOf sw.now code result }
{
    sw.sound();
    CodePlace {
        first: code + 6 + sw.refs(code),
        count: sw.text(code).len() as u32,
    }
}

/// The instruction at an offset of a code object whose bytes lie in a known place, and the offset after it; None exactly where no instruction is
/// spelled there. The object isn't looked at.
#[inline(always)]
pub fn instr_within(sw: &Swizzle, code: u32, place: CodePlace, at: u32) -> Option<(Instr, u32)>
    requires { IsPlaceOf sw.now code place }
    ensures { IsInstrIn (text_at sw.now code) at result }
{
    instr_in(sw.text_within(code, place.first, place.count), at)
}

// The object is code.
#[inline]
fn is_code(kind: Kind) -> bool
    ensures { (result ≡ true) ↔ (kind ≡ Code) }
{
    kind == Kind::Code
}

// The instruction that is spelled at an offset of the bytes, and the offset after it.
#[inline(always)]
fn instr_in(bytes: &[u8], at: u32) -> Option<(Instr, u32)>
    requires { length bytes.now < 2 ^ 32 }
    ensures { IsInstrIn bytes.now at result }
{
    if at as usize >= bytes.len() {
        return None;
    }
    let (_, rest) = bytes.split_at(at as usize);
    match decode(rest) {
        Some((instr, width)) => Some((instr, at + width as u32)),
        None => None,
    }
}

// The object is no code: its kind, and that of code.
#[inline(never)]
fn no_code(sw: &Swizzle, object: u32) -> SwizzleFault
    requires { IsHeld sw.now object }
    ensures { IsDamaged sw.now object result }
{
    let header = sw.header(object);
    damaged(
        header.pid,
        u64::from(header.kind.number()),
        u64::from(Kind::Code.number()),
    )
}

// No instruction is spelled there: the offset, and how many bytes the code has.
#[inline(never)]
fn no_instruction(sw: &Swizzle, code: u32, at: u32) -> SwizzleFault
    requires { IsHeld sw.now code }
    ensures { IsDamaged sw.now code result }
{
    let header = sw.header(code);
    damaged(header.pid, u64::from(at), u64::from(header.bytes))
}

// The object at this PID is damaged: the number that was tested, and its bound.
fn damaged(at: u64, found: u64, wanted: u64) -> SwizzleFault
    ensures { result ≡ InVault (Damaged at found wanted) }
{
    SwizzleFault::Vault(VaultFault::Damaged { at, found, wanted })
}
