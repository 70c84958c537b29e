//! That objects can be made, read and written, and what a full area answers.

use memory_vault::obj_layout::kind::Kind;
use memory_vault::obj_layout::reference::Reference;
use memory_vault::obj_layout::vault::VaultFault;
use memory_vault::silent::SilentVault;
use std::test::Fail;
use swizzle::fault::SwizzleFault;
use swizzle::swizzle::Swizzle;

#[test]
fn makes_objects_behind_one_another(rt: HostRuntime) -> Result<(), Fail> {
    let mut sw = Swizzle::new(rt.alloc(), 20)?;
    assert_eq!(rt; sw.top(), 1);
    assert_eq!(rt; sw.size(), 21);
    assert_eq!(rt; sw.make(Kind::Structure, 2, 3, 0), Ok(1));
    assert_eq!(rt; sw.make(Kind::Table, 1, 3, 0), Ok(10));
    assert_eq!(rt; sw.top(), 18);
    let header = sw.header(1);
    assert_eq!(rt; header.kind, Kind::Structure);
    assert_eq!(rt; header.refs, 2);
    assert_eq!(rt; header.nums, 3);
    assert_eq!(rt; header.pid, 0);
    assert_eq!(rt; sw.peek(1, 1), Reference::Nil);
    assert_eq!(rt; sw.num(10, 2), 0);
    sw.reset();
    assert_eq!(rt; sw.top(), 1);
    Ok(())
}

#[test]
fn keeps_numbers(rt: HostRuntime) -> Result<(), Fail> {
    let mut sw = Swizzle::new(rt.alloc(), 20)?;
    assert_eq!(rt; sw.make(Kind::Structure, 2, 3, 0), Ok(1));
    sw.set_num(1, 2, u64::MAX);
    assert_eq!(rt; sw.num(1, 2), u64::MAX);
    assert_eq!(rt; sw.num(1, 1), 0);
    Ok(())
}

#[test]
fn answers_a_full_area_by_its_sum(rt: HostRuntime) -> Result<(), Fail> {
    let mut sw = Swizzle::new(rt.alloc(), 12)?;
    assert_eq!(rt; sw.make(Kind::Structure, 1, 1, 0), Ok(1));
    let full = SwizzleFault::AreaFull {
        top: 7,
        wanted: 7,
        size: 13,
    };
    assert_eq!(rt; sw.make(Kind::Structure, 1, 2, 0), Err(full));
    assert_eq!(rt; sw.top(), 7);
    assert_eq!(rt; sw.make(Kind::Structure, 1, 1, 0), Ok(7));
    assert_eq!(rt; sw.top(), 13);
    Ok(())
}

#[test]
fn touches_nil_and_local_slots_without_the_vault(rt: HostRuntime) -> Result<(), Fail> {
    let mut vault = SilentVault { asked: 0 };
    let mut sw = Swizzle::new(rt.alloc(), 20)?;
    assert_eq!(rt; sw.make(Kind::Structure, 2, 1, 0), Ok(1));
    sw.set_ref(1, 1, Some(1));
    assert_eq!(rt; sw.peek(1, 1), Reference::Local(1));
    assert_eq!(rt; sw.touch_slot(&mut vault, 1, 1), Ok(Some(1)));
    assert_eq!(rt; vault.asked, 0);
    Ok(())
}

#[test]
fn answers_what_the_vault_answers(rt: HostRuntime) -> Result<(), Fail> {
    let mut vault = SilentVault { asked: 0 };
    let mut sw = Swizzle::new(rt.alloc(), 20)?;
    let damaged = VaultFault::Damaged {
        at: 9,
        found: 9,
        wanted: 1,
    };
    assert_eq!(rt;
        sw.touch_pid(&mut vault, 9),
        Err(SwizzleFault::Vault(damaged))
    );
    assert_eq!(rt; vault.asked, 1);
    assert_eq!(rt; sw.top(), 1);
    Ok(())
}

#[test]
fn notes_assigned_objects_once(rt: HostRuntime) -> Result<(), Fail> {
    let mut sw = Swizzle::new(rt.alloc(), 20)?;
    assert_eq!(rt; sw.make(Kind::Structure, 0, 1, 0), Ok(1));
    sw.mark(1);
    sw.mark(1);
    assert_eq!(rt; sw.assigned(), [1].as_slice());
    sw.clear_assigned();
    assert!(rt; sw.assigned().is_empty());
    Ok(())
}
