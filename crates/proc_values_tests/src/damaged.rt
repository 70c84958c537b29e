//! What is no code, and what isn't there.

ghost use Rattle.proc_values.specs.swizzle.Heap.{IsHeld};

use crate::sample::{loaded, read, with_code};
use memory_vault::obj_layout::kind::Kind;
use memory_vault::obj_layout::vault::VaultFault;
use proc_values::reading::instr_at;
use proc_values::swizzle::fault::SwizzleFault;
use proc_values::swizzle::swizzle::Swizzle;
use std::test::Fail;

fn damaged(found: u64, wanted: u64) -> SwizzleFault {
    SwizzleFault::Vault(VaultFault::Damaged {
        at: 0,
        found,
        wanted,
    })
}

// The fault of an instruction that isn't there.
fn fault_at(sw: &Swizzle, code: u32, at: u32) -> Option<SwizzleFault>
    requires { IsHeld sw.now code }
{
    match instr_at(sw, code, at) {
        Ok(_) => None,
        Err(fault) => Some(fault),
    }
}

fn names_no_code(sw: &mut Swizzle) -> bool
    requires { IsHeld sw.old 28 }
{
    read(sw, 28, 0) == Ok(1)
        && fault_at(sw, 1, 0) == Some(damaged(1, 6))
        && read(sw, 1, 0) == Err(damaged(1, 6))
}

#[test]
fn a_text_is_no_code(rt: HostRuntime) -> Result<(), Fail> {
    let mut sw = loaded(rt.alloc(), 50)?;
    assert!(rt; names_no_code(&mut sw));
    Ok(())
}

#[test]
fn no_constant_is_behind_the_last(rt: HostRuntime) -> Result<(), Fail> {
    let mut sw = loaded(rt.alloc(), 50)?;
    assert_eq!(rt; read(&mut sw, 28, 3), Err(damaged(3, 3)));
    Ok(())
}

#[test]
fn nil_is_no_constant(rt: HostRuntime) -> Result<(), Fail> {
    let mut sw = Swizzle::new(rt.alloc(), 50)?;
    assert_eq!(rt; sw.make(Kind::Code, 1, 2, 0), Ok(1));
    assert_eq!(rt; read(&mut sw, 1, 0), Err(damaged(0, 1)));
    Ok(())
}

fn ends_at_twenty(sw: &Swizzle) -> bool
    requires { IsHeld sw.now 28 }
{
    fault_at(sw, 28, 20) == Some(damaged(20, 20))
        && fault_at(sw, 28, u32::MAX) == Some(damaged(4_294_967_295, 20))
}

#[test]
fn no_instruction_is_behind_the_last(rt: HostRuntime) -> Result<(), Fail> {
    let sw = loaded(rt.alloc(), 50)?;
    assert!(rt; ends_at_twenty(&sw));
    Ok(())
}

fn has_one_instruction(sw: &Swizzle) -> bool
    requires { IsHeld sw.now 1 }
{
    fault_at(sw, 1, 0) == None && fault_at(sw, 1, 1) == Some(damaged(1, 2))
}

#[test]
fn an_unknown_code_is_no_instruction(rt: HostRuntime) -> Result<(), Fail> {
    let sw = with_code(rt.alloc(), [5, 78].as_slice())?;
    assert!(rt; has_one_instruction(&sw));
    Ok(())
}

#[test]
fn an_instruction_that_is_cut_off_is_none(rt: HostRuntime) -> Result<(), Fail> {
    let sw = with_code(rt.alloc(), [4, 0, 0, 0].as_slice())?;
    assert_eq!(rt; fault_at(&sw, 1, 0), Some(damaged(0, 4)));
    Ok(())
}
