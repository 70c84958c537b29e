//! That an area can be made, and what its calls answer at the edges of a small one.

use obj_area::area::Area;
use std::test::Fail;

const WORD: u64 = 0x0807_0605_0403_0201;

#[test]
fn gives_out_words(rt: HostRuntime) -> Result<(), Fail> {
    let mut area = Area::new(rt.alloc(), 5)?;
    assert_eq!(rt; area.size(), 6);
    assert_eq!(rt; area.top(), 1);
    assert_eq!(rt; area.make(6), None);
    assert_eq!(rt; area.make(2), Some(1));
    assert_eq!(rt; area.make(0), Some(3));
    assert_eq!(rt; area.make(3), Some(3));
    assert_eq!(rt; area.make(1), None);
    assert_eq!(rt; area.top(), 6);
    area.reset();
    assert_eq!(rt; area.top(), 1);
    assert_eq!(rt; area.size(), 6);
    Ok(())
}

#[test]
fn takes_the_greatest_size_lazily(rt: HostRuntime) -> Result<(), Fail> {
    let mut area = Area::new(rt.alloc(), 1 << 25)?;
    assert_eq!(rt; area.make(10), Some(1));
    assert_eq!(rt; area.size(), 33_554_433);
    Ok(())
}

#[test]
fn spells_words_low_byte_first(rt: HostRuntime) -> Result<(), Fail> {
    let mut area = Area::new(rt.alloc(), 3)?;
    assert_eq!(rt; area.make(3), Some(1));
    if let Some(_) = area.make(1) {
        return Err("a fourth word".into());
    }
    area.set_word(2, WORD);
    assert_eq!(rt; area.bytes(2, 3), [1, 2, 3].as_slice());
    let bytes = area.bytes_mut(2, 9);
    bytes.copy_from_slice(&[8, 7, 6, 5, 4, 3, 2, 1, 9]);
    assert_eq!(rt; area.top(), 4);
    assert_eq!(rt; area.word(2), 0x0102_0304_0506_0708);
    assert_eq!(rt; area.word(3), 9);
    area.write_words(1, &[WORD, 1]);
    let mut words = [0; 3];
    area.read_words(1, &mut words);
    assert_eq!(rt; words, [WORD, 1, 9]);
    area.reset();
    assert_eq!(rt; area.make(3), Some(1));
    area.read_words(1, &mut words);
    assert_eq!(rt; words, [0, 0, 0]);
    Ok(())
}
