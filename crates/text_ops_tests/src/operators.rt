//! The operators on texts, at their edges.
ghost use Rattle.text_ops.specs.heap_texts.Texts.{HoldsText, StillTexts};

use crate::fixture::{TwoTexts, bytes, compared, joined, long, parted, text, told, two_texts};
use std::alloc::Global;
use std::cmp::Ordering;
use std::test::Fail;
use text_ops::heap_texts::fault::OpFault;
use text_ops::swizzle::fault::SwizzleFault;
use text_ops::swizzle::swizzle::Swizzle;

// What an operation that gives a text ended in.
#[derive(Clone, Copy, PartialEq, Eq, Debug)]
enum Ended {
    Trapped(u32),
    Refused(SwizzleFault),
}

const TOO_LONG: Ended = Ended::Trapped(10);

const OUTSIDE: Ended = Ended::Trapped(6);

fn end_of(fault: OpFault) -> Ended {
    match fault {
        OpFault::Trap(trap) => Ended::Trapped(trap as u32),
        OpFault::Swizzle(refused) => Ended::Refused(refused),
    }
}

// Whether a text with another after it is the wanted one.
fn joins(sw: &mut Swizzle, a: u32, b: u32, wanted: &[u8]) -> bool
    requires a { HoldsText sw.old a }
    requires b { HoldsText sw.old b }
    ensures { StillTexts sw.old sw.new }
{
    match joined(sw, a, b) {
        Ok(at) => bytes(sw, at) == wanted,
        Err(_) => false,
    }
}

// The same of two texts of a small area, which both stay.
fn joins_two(alloc: Global, a: &[u8], b: &[u8], wanted: &[u8]) -> Result<bool, Fail> {
    let mut two = two_texts(alloc, 60, a, b)?;
    let right = joins(&mut two.sw, two.a, two.b, wanted);
    Ok(right && bytes(&two.sw, two.a) == a && bytes(&two.sw, two.b) == b)
}

#[test]
fn joins_texts(rt: HostRuntime) -> Result<(), Fail> {
    let rows = [
        (b"ab".as_slice(), b"c".as_slice(), b"abc".as_slice()),
        (b"", b"", b""),
        (b"abc", b"", b"abc"),
        (b"", b"abc", b"abc"),
        (b"1234567", b"8", b"12345678"),
        (b"12345678", b"9", b"123456789"),
        (b"12345", b"6789abcdefghijk", b"123456789abcdefghijk"),
        (b"\xff\x00", b"\x80", b"\xff\x00\x80"),
    ];
    for (a, b, wanted) in &rows {
        assert!(rt; joins_two(rt.alloc(), a, b, wanted)?, "{wanted:?}");
    }
    Ok(())
}

#[test]
fn joins_a_text_with_itself(rt: HostRuntime) -> Result<(), Fail> {
    let mut sw = Swizzle::new(rt.alloc(), 40)?;
    let a = text(&mut sw, b"12345")?;
    assert!(rt; joins(&mut sw, a, a, b"1234512345"));
    Ok(())
}

// What a join of two texts gives: how many bytes, and whether they are the right ones; or what it ended in, and how many words that took.
fn join_of(two: &mut TwoTexts, a: &[u8], b: &[u8]) -> Result<(usize, bool), (Ended, u32)>
    requires a { HoldsText two.old.sw two.old.a }
    requires b { HoldsText two.old.sw two.old.b }
{
    let top = two.sw.top();
    match joined(&mut two.sw, two.a, two.b) {
        Ok(at) => {
            let text = bytes(&two.sw, at);
            Ok((text.len(), text.starts_with(a) && text.ends_with(b)))
        }
        Err(fault) => Err((end_of(fault), two.sw.top().wrapping_sub(top))),
    }
}

// The same of texts of so many bytes.
fn long_join(
    alloc: Global,
    front: u32,
    back: u32,
) -> Result<Result<(usize, bool), (Ended, u32)>, Fail> {
    let a = long(alloc, front)?;
    let b = long(alloc, back)?;
    let mut two = two_texts(alloc, 20_000, &a, &b)?;
    Ok(join_of(&mut two, &a, &b))
}

#[test]
fn joins_to_the_greatest_length(rt: HostRuntime) -> Result<(), Fail> {
    let rows = [
        (32_767, 32_768, Ok((65_535, true))),
        (65_535, 0, Ok((65_535, true))),
        (1, 65_534, Ok((65_535, true))),
        (32_768, 32_768, Err((TOO_LONG, 0))),
        (65_535, 1, Err((TOO_LONG, 0))),
        (0, 65_536, Err((TOO_LONG, 0))),
    ];
    for (front, back, wanted) in &rows {
        assert_eq!(rt; long_join(rt.alloc(), *front, *back)?, *wanted);
    }
    Ok(())
}

// The join wants seven words; the trap comes before the want of room.
#[test]
fn answers_a_join_without_room(rt: HostRuntime) -> Result<(), Fail> {
    let full = SwizzleFault::AreaFull {
        top: 13,
        wanted: 7,
        size: 19,
    };
    let mut two = two_texts(rt.alloc(), 18, b"abcdef", b"ghi")?;
    let found = join_of(&mut two, b"abcdef", b"ghi");
    assert_eq!(rt; found, Err((Ended::Refused(full), 0)));
    assert_eq!(rt; two.sw.top(), 13);
    Ok(())
}

// Whether a part of a text is the wanted one, or outside for None; then the area stays.
fn parts(sw: &mut Swizzle, a: u32, from: i32, count: i32, wanted: Option<&[u8]>) -> bool
    requires { HoldsText sw.old a }
    ensures { StillTexts sw.old sw.new }
{
    let top = sw.top();
    match parted(sw, a, from, count) {
        Ok(at) => wanted == Some(bytes(sw, at)),
        Err(fault) => end_of(fault) == OUTSIDE && wanted.is_none() && sw.top() == top,
    }
}

// The same of a text of a small area, which stays.
fn parts_of(
    alloc: Global,
    whole: &[u8],
    from: i32,
    count: i32,
    wanted: Option<&[u8]>,
) -> Result<bool, Fail> {
    let mut sw = Swizzle::new(alloc, 40)?;
    let a = text(&mut sw, whole)?;
    let right = parts(&mut sw, a, from, count, wanted);
    Ok(right && bytes(&sw, a) == whole)
}

#[test]
fn takes_parts(rt: HostRuntime) -> Result<(), Fail> {
    let rows = [
        (b"abcd".as_slice(), 2, 2, b"bc".as_slice()),
        (b"abcd", 2, 3, b"bcd"),
        (b"abcd", 1, 4, b"abcd"),
        (b"abcd", 1, 1, b"a"),
        (b"abcd", 4, 1, b"d"),
        (b"abcd", 1, 0, b""),
        (b"abcd", 5, 0, b""),
        (b"123456789abcdefghijk", 8, 9, b"89abcdefg"),
        (b"123456789abcdefghijk", 9, 12, b"9abcdefghijk"),
        (b"", 1, 0, b""),
    ];
    for (whole, from, count, wanted) in &rows {
        let right = parts_of(rt.alloc(), whole, *from, *count, Some(*wanted))?;
        assert!(rt; right, "{from}, {count}");
    }
    Ok(())
}

#[test]
fn takes_no_parts_from_outside(rt: HostRuntime) -> Result<(), Fail> {
    let rows = [
        (2, 4),
        (1, 5),
        (5, 1),
        (6, 0),
        (0, 1),
        (0, 0),
        (-1, 1),
        (1, -1),
        (2, i32::MAX),
        (1, i32::MIN),
        (i32::MIN, 1),
        (i32::MIN, i32::MIN),
        (i32::MAX, 0),
        (i32::MAX, i32::MAX),
    ];
    for (from, count) in &rows {
        let right = parts_of(rt.alloc(), b"abcd", *from, *count, None)?;
        assert!(rt; right, "{from}, {count}");
    }
    Ok(())
}

// Whether a part of nine bytes, which wants seven words, is refused so, and one of eight is not.
fn has_room_for_eight(sw: &mut Swizzle, a: u32, full: SwizzleFault) -> bool
    requires { HoldsText sw.old a }
{
    match parted(sw, a, 1, 9) {
        Ok(_) => false,
        Err(fault) => {
            end_of(fault) == Ended::Refused(full)
                && parts(sw, a, 2, 8, Some(b"bcdefghi".as_slice()))
        }
    }
}

#[test]
fn answers_a_part_without_room(rt: HostRuntime) -> Result<(), Fail> {
    let full = SwizzleFault::AreaFull {
        top: 8,
        wanted: 7,
        size: 14,
    };
    let mut sw = Swizzle::new(rt.alloc(), 13)?;
    let a = text(&mut sw, b"abcdefghi")?;
    assert!(rt; has_room_for_eight(&mut sw, a, full));
    Ok(())
}

// Whether two texts compare so, either way round, and the first with itself.
fn compare_so(two: &TwoTexts, wanted: Ordering) -> bool
    requires a { HoldsText two.now.sw two.now.a }
    requires b { HoldsText two.now.sw two.now.b }
{
    compared(&two.sw, two.a, two.b) == wanted
        && compared(&two.sw, two.b, two.a) == wanted.reverse()
        && compared(&two.sw, two.a, two.a) == Ordering::Equal
}

// The same of two texts of a small area.
fn compares(alloc: Global, a: &[u8], b: &[u8], wanted: Ordering) -> Result<bool, Fail> {
    let two = two_texts(alloc, 40, a, b)?;
    Ok(compare_so(&two, wanted))
}

#[test]
fn compares_texts(rt: HostRuntime) -> Result<(), Fail> {
    let rows = [
        (b"".as_slice(), b"".as_slice(), Ordering::Equal),
        (b"", b"a", Ordering::Less),
        (b"ab", b"abc", Ordering::Less),
        (b"abc", b"ab", Ordering::Greater),
        (b"b", b"abc", Ordering::Greater),
        (b"abc", b"abc", Ordering::Equal),
        (b"abcdefgh", b"abcdefgi", Ordering::Less),
        (b"abcdefghi", b"abcdefghh", Ordering::Greater),
        (b"abcdefgh", b"abcdefgh\0", Ordering::Less),
        (b"abcdefghijklmnopq", b"abcdefghijklmnopq", Ordering::Equal),
        (b"\x80", b"\x7f", Ordering::Greater),
        (b"a\xff", b"a\x00", Ordering::Greater),
    ];
    for (a, b, wanted) in &rows {
        assert!(rt; compares(rt.alloc(), a, b, *wanted)?, "{a:?} {b:?}");
    }
    Ok(())
}

// Whether the text of an int is the wanted one.
fn tells(alloc: Global, value: i32, wanted: &[u8]) -> Result<bool, Fail> {
    let mut sw = Swizzle::new(alloc, 40)?;
    match told(&mut sw, value) {
        Ok(at) => Ok(bytes(&sw, at) == wanted),
        Err(_) => Err("no room for the text".into()),
    }
}

#[test]
fn tells_ints(rt: HostRuntime) -> Result<(), Fail> {
    let rows = [
        (0, b"0".as_slice()),
        (7, b"7"),
        (-1, b"-1"),
        (10, b"10"),
        (-120, b"-120"),
        (i32::MAX, b"2147483647"),
        (i32::MIN, b"-2147483648"),
    ];
    for (value, wanted) in &rows {
        assert!(rt; tells(rt.alloc(), *value, wanted)?, "{value}");
    }
    Ok(())
}

// Whether an int whose eleven bytes want seven words is refused so, and one of two bytes is not.
fn has_room_for_two(sw: &mut Swizzle, full: SwizzleFault) -> bool {
    told(sw, i32::MIN) == Err(full) && told(sw, -1) == Ok(1)
}

#[test]
fn answers_an_int_without_room(rt: HostRuntime) -> Result<(), Fail> {
    let full = SwizzleFault::AreaFull {
        top: 1,
        wanted: 7,
        size: 7,
    };
    let mut sw = Swizzle::new(rt.alloc(), 6)?;
    assert!(rt; has_room_for_two(&mut sw, full));
    Ok(())
}
