//! A closure as it lies in the area, and what is read of it.
ghost use Rattle.std.specs.Prelude.{◌≤◌, ◌^◌, IfOk};
ghost use Rattle.closures.specs.swizzle.Heap.{IsHeld};

use crate::scene::{Area, Ended, end_of, made};
use closures::closure::{code_of, scope_of};
use memory_vault::obj_layout::kind::Kind;
use memory_vault::obj_layout::reference::Reference;
use memory_vault::silent::SilentVault;
use std::alloc::Global;
use std::test::Fail;

// The code object has words 1 to 6, the scope 7 to 13 and the closure 14 to 20.
fn lies_behind_parts(made: &Area) -> bool
    requires { IfOk made.now.closure (IsHeld made.now.sw) }
{
    let Ok(closure) = made.closure else {
        return false;
    };
    let header = made.sw.header(closure);
    closure == 14
        && made.sw.top() == 21
        && header.kind == Kind::Closure
        && header.refs == 2
        && header.nums == 1
        && header.bytes == 0
        && made.sw.peek(closure, 0) == Reference::Local(1)
        && made.sw.peek(closure, 1) == Reference::Local(7)
        && made.sw.num(closure, 0) == 0
        && made.sw.assigned().is_empty()
}

#[test]
fn lies_behind_its_parts(rt: HostRuntime) -> Result<(), Fail> {
    let made = made(rt.alloc(), 20, true)?;
    assert!(rt; lies_behind_parts(&made));
    Ok(())
}

fn code(made: &mut Area) -> Result<u32, Ended>
    requires { IfOk made.old.closure (IsHeld made.old.sw) }
{
    let closure = made.closure?;
    let mut vault = SilentVault { asked: 0 };
    code_of(&mut made.sw, &mut vault, closure).map_err(end_of)
}

fn scope(made: &mut Area) -> Result<Option<u32>, Ended>
    requires { IfOk made.old.closure (IsHeld made.old.sw) }
{
    let closure = made.closure?;
    let mut vault = SilentVault { asked: 0 };
    scope_of(&mut made.sw, &mut vault, closure).map_err(end_of)
}

#[test]
fn has_its_code(rt: HostRuntime) -> Result<(), Fail> {
    let mut made = made(rt.alloc(), 20, true)?;
    assert_eq!(rt; code(&mut made), Ok(1));
    Ok(())
}

#[test]
fn has_its_scope(rt: HostRuntime) -> Result<(), Fail> {
    let mut made = made(rt.alloc(), 20, true)?;
    assert_eq!(rt; scope(&mut made), Ok(Some(7)));
    Ok(())
}

#[test]
fn has_no_scope_where_it_was_made_in_none(rt: HostRuntime) -> Result<(), Fail> {
    let mut made = made(rt.alloc(), 20, false)?;
    assert!(rt; made.closure == Ok(7) && scope(&mut made) == Ok(None));
    Ok(())
}

fn closure_in(alloc: Global, words: u32) -> Result<Result<u32, Ended>, Fail>
    requires low { 5 ≤ words }
    requires high { words ≤ 2 ^ 25 }
{
    let made = made(alloc, words, false)?;
    Ok(made.closure)
}

#[test]
fn takes_the_last_word(rt: HostRuntime) -> Result<(), Fail> {
    let full = |top: u32, wanted: u32, size: u32| Ended::Full { top, wanted, size };
    for (words, wanted) in [
        (13, Ok(7)),
        (12, Err(full(7, 7, 13))),
        (6, Err(full(7, 7, 7))),
    ] {
        assert_eq!(rt; closure_in(rt.alloc(), words)?, wanted);
    }
    Ok(())
}
