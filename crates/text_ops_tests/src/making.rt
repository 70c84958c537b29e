//! Texts word by word, and what a full area answers.
ghost use Rattle.text_ops.specs.heap_texts.Texts.{HoldsText};

use crate::fixture::{text, word};
use std::alloc::Global;
use std::test::Fail;
use text_ops::heap_texts::make::{make_blank_text, make_text};
use text_ops::obj_layout::kind::Kind;
use text_ops::swizzle::fault::SwizzleFault;
use text_ops::swizzle::swizzle::Swizzle;

// Whether these are the first words of a text, and the area ends after them. The header takes four words.
fn has_words(sw: &Swizzle, at: u32, words: &[u64]) -> bool
    requires { HoldsText sw.now at }
{
    let mut index = 0u32;
    for wanted in words {
        if word(sw, at, index) != Some(*wanted) {
            return false;
        }
        index = index.wrapping_add(1);
    }
    sw.top() == index.wrapping_add(5)
}

// A text as it lies: its home, and its bytes, low byte first, with zeros after them.
fn lies_so(sw: &Swizzle, at: u32, bytes: &[u8], words: &[u64]) -> bool
    requires { HoldsText sw.now at }
{
    let header = sw.header(at);
    at == 1
        && sw.text(at) == bytes
        && header.kind == Kind::Text
        && header.flags == 0
        && header.refs == 0
        && header.nums as usize == words.len()
        && header.bytes as usize == bytes.len()
        && header.pid == 0
        && header.chain == 0
        && has_words(sw, at, words)
}

// The same of the first text of an area.
fn lays_out(alloc: Global, bytes: &[u8], words: &[u64]) -> Result<bool, Fail> {
    let mut sw = Swizzle::new(alloc, 40)?;
    let at = text(&mut sw, bytes)?;
    Ok(lies_so(&sw, at, bytes, words))
}

#[test]
fn lays_out_texts(rt: HostRuntime) -> Result<(), Fail> {
    let rows = [
        (b"".as_slice(), [0].as_slice()),
        (b"a", &[0, 0x61]),
        (b"abcdefg", &[0, 0x0067_6665_6463_6261]),
        (b"abcdefgh", &[0, 0x6867_6665_6463_6261]),
        (b"abcdefghi", &[0, 0x6867_6665_6463_6261, 0x69]),
        (b"\xff\x00\x80", &[0, 0x0080_00ff]),
    ];
    for (bytes, words) in &rows {
        assert!(rt; lays_out(rt.alloc(), bytes, words)?, "{bytes:?}");
    }
    Ok(())
}

// What an area answers whose words are taken up to the top.
fn full(top: u32, wanted: u32, size: u32) -> Result<u32, SwizzleFault> {
    Err(SwizzleFault::AreaFull { top, wanted, size })
}

// Nine bytes want seven words: four, the home, and two for the bytes.
fn fills(sw: &mut Swizzle) -> bool {
    make_text(sw, b"abcdefghi") == Ok(1)
        && make_text(sw, b"ABCDEFGHI") == Ok(8)
        && sw.top() == 15
        && make_text(sw, b"") == full(15, 5, 15)
        && sw.top() == 15
}

#[test]
fn fills_an_area_to_its_last_word(rt: HostRuntime) -> Result<(), Fail> {
    let mut sw = Swizzle::new(rt.alloc(), 14)?;
    assert!(rt; fills(&mut sw));
    Ok(())
}

// That a text of nine bytes is refused after the first, and one of eight is not.
fn lacks_a_word(sw: &mut Swizzle) -> bool {
    make_text(sw, b"abcdefghi") == Ok(1)
        && make_text(sw, b"ABCDEFGHI") == full(8, 7, 14)
        && make_blank_text(sw, 9) == full(8, 7, 14)
        && sw.top() == 8
        && make_text(sw, b"ABCDEFGH") == Ok(8)
        && sw.top() == 14
}

#[test]
fn answers_an_area_that_is_one_word_short(rt: HostRuntime) -> Result<(), Fail> {
    let mut sw = Swizzle::new(rt.alloc(), 13)?;
    assert!(rt; lacks_a_word(&mut sw));
    Ok(())
}

// That a blank text of nine bytes takes seven words, and one of none five.
fn takes_blanks(sw: &mut Swizzle) -> bool {
    make_blank_text(sw, 9) == Ok(1) && make_blank_text(sw, 0) == Ok(8) && sw.top() == 13
}

#[test]
fn makes_blank_texts(rt: HostRuntime) -> Result<(), Fail> {
    let mut sw = Swizzle::new(rt.alloc(), 20)?;
    assert!(rt; takes_blanks(&mut sw));
    Ok(())
}
