//! That bytes go into texts and code and come out again.

use memory_vault::obj_layout::kind::Kind;
use std::test::Fail;
use swizzle::swizzle::Swizzle;

#[test]
fn writes_the_bytes_of_a_text(rt: HostRuntime) -> Result<(), Fail> {
    let mut sw = Swizzle::new(rt.alloc(), 40)?;
    assert_eq!(rt; sw.make(Kind::Text, 0, 3, 11), Ok(1));
    assert_eq!(rt; sw.text(1).len(), 11);
    sw.write_text(1, 3, b"inside".as_slice());
    assert_eq!(rt; sw.text(1), b"\0\0\0inside\0\0".as_slice());
    Ok(())
}

#[test]
fn copies_within_a_text(rt: HostRuntime) -> Result<(), Fail> {
    let mut sw = Swizzle::new(rt.alloc(), 60)?;
    assert_eq!(rt; sw.make(Kind::Code, 1, 3, 7), Ok(1));
    sw.write_text(1, 0, b"abc".as_slice());
    sw.copy_text(1, 0, 1, 2, 5);
    assert_eq!(rt; sw.text(1), b"ababc\0\0".as_slice());
    Ok(())
}
