//! Which PID is the greatest of the area.

use memory_vault::memory::MemoryVault;
use memory_vault::obj_layout::kind::Kind;
use std::test::Fail;
use swizzle::swizzle::Swizzle;

// Two texts of three bytes: their PIDs are 1 and 7.
const TEXTS: [u64; 13] = [
    0,
    1,
    0,
    0x0000_0003_0000_0002,
    0,
    0,
    0x63_6261,
    1,
    0,
    0x0000_0003_0000_0002,
    0,
    0,
    0x66_6564,
];

#[test]
fn knows_the_greatest_pid_that_was_fetched(rt: HostRuntime) -> Result<(), Fail> {
    let mut vault = MemoryVault::of_words(rt.alloc(), &TEXTS, 0, 13)?;
    let mut sw = Swizzle::new(rt.alloc(), 40)?;
    assert_eq!(rt; sw.greatest_pid(), 0);
    assert_eq!(rt; sw.touch_pid(&mut vault, 7), Ok(1));
    assert_eq!(rt; sw.greatest_pid(), 7);
    assert_eq!(rt; sw.touch_pid(&mut vault, 1), Ok(7));
    assert_eq!(rt; sw.greatest_pid(), 7);
    assert_eq!(rt; sw.make(Kind::Structure, 0, 1, 0), Ok(13));
    assert_eq!(rt; sw.greatest_pid(), 7);
    sw.reset();
    assert_eq!(rt; sw.greatest_pid(), 0);
    Ok(())
}

#[test]
fn knows_the_greatest_pid_that_was_given(rt: HostRuntime) -> Result<(), Fail> {
    let mut sw = Swizzle::new(rt.alloc(), 20)?;
    assert_eq!(rt; sw.make(Kind::Structure, 0, 1, 0), Ok(1));
    assert_eq!(rt; sw.pid(1), 0);
    assert_eq!(rt; sw.find(9), None);
    sw.give_pid(1, 9);
    assert_eq!(rt; sw.greatest_pid(), 9);
    assert_eq!(rt; sw.make(Kind::Structure, 0, 1, 0), Ok(6));
    assert_eq!(rt; sw.pid(6), 0);
    assert_eq!(rt; sw.find(4), None);
    sw.give_pid(6, 4);
    assert_eq!(rt; sw.greatest_pid(), 9);
    Ok(())
}
