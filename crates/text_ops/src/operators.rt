ghost use Rattle.std.specs.Prelude.{◌≡◌, length};
ghost use Rattle.std.specs.Fmt.{signed_decimal};
ghost use Rattle.heap_texts.specs.swizzle.Heap.{IsHeld, header_at};
ghost use Rattle.heap_texts.specs.swizzle.Text.{text_at};
ghost use Rattle.heap_texts.specs.ps_heap.Texts.{join_of, part_of, order_of, string_of};
ghost use Rattle.heap_texts.specs.Texts.{GivesText, MakesText};

use crate::span::span_within;
use heap_texts::fault::OpFault;
use heap_texts::make::{make_blank_text, make_text};
use heap_texts::obj_layout::kind::Kind;
use heap_texts::swizzle::fault::SwizzleFault;
use heap_texts::swizzle::swizzle::Swizzle;
use itoa::Buffer;
use ps_base::trap::Trap;
use std::cmp::Ordering;

/// The most bytes that a string may have.
const MOST_BYTES: u64 = 65_535;

/// One text after the other, as a new text. TooLong where together they have more than 65,535 bytes, else AreaFull where there is no room for
/// it; then the area stays.
pub fn join(sw: &mut Swizzle, a: u32, b: u32) -> Result<u32, OpFault>
    requires a_held { IsHeld sw.old a }
    requires a_text { (header_at sw.old a).kind ≡ Kind.Text }
    requires b_held { IsHeld sw.old b }
    requires b_text { (header_at sw.old b).kind ≡ Kind.Text }
    ensures { GivesText sw.old sw.new (join_of (text_at sw.old a) (text_at sw.old b)) result }
{
    let front = text_length(sw, a);
    let back = text_length(sw, b);
    if front as u64 + back as u64 > MOST_BYTES {
        return Err(OpFault::Trap(Trap::TooLong));
    }
    let at = make_blank_text(sw, front + back)?;
    sw.copy_text(a, 0, at, 0, front);
    sw.copy_text(b, 0, at, front, back);
    Ok(at)
}

/// The part of a text that begins at `from`, counted from 1, and has `count` bytes, as a new text. Substring where it doesn't lie within the
/// text (`docs/language.md`), else AreaFull where there is no room for it; then the area stays.
pub fn part(sw: &mut Swizzle, a: u32, from: i32, count: i32) -> Result<u32, OpFault>
    requires held { IsHeld sw.old a }
    requires text { (header_at sw.old a).kind ≡ Kind.Text }
    ensures { GivesText sw.old sw.new (part_of (text_at sw.old a) from count) result }
{
    let Some(span) = span_within(text_length(sw, a), from, count) else {
        return Err(OpFault::Trap(Trap::Substring));
    };
    let at = make_blank_text(sw, span.count)?;
    sw.copy_text(a, span.before, at, 0, span.count);
    Ok(at)
}

/// How two texts compare: byte by byte, the first difference decides, and a proper prefix is less.
pub fn compare(sw: &Swizzle, a: u32, b: u32) -> Ordering
    requires a_held { IsHeld sw.now a }
    requires a_text { (header_at sw.now a).kind ≡ Kind.Text }
    requires b_held { IsHeld sw.now b }
    requires b_text { (header_at sw.now b).kind ≡ Kind.Text }
    ensures { result ≡ order_of (text_at sw.now a) (text_at sw.now b) }
{
    sw.text(a).cmp(&sw.text(b))
}

/// The shortest decimal text of an int, as a new text. AreaFull where there is no room for it; then the area stays.
pub fn int_text(sw: &mut Swizzle, value: i32) -> Result<u32, SwizzleFault>
    ensures { MakesText sw.old sw.new (signed_decimal value) result }
{
    let mut buffer = Buffer::new();
    make_text(sw, buffer.format(value).as_bytes())
}

/// These bytes as a new text. TooLong where they are more than 65,535, else AreaFull where there is no room for it; then the area stays.
pub fn text_of_bytes(sw: &mut Swizzle, bytes: &[u8]) -> Result<u32, OpFault>
    ensures { GivesText sw.old sw.new (string_of bytes.now) result }
{
    if bytes.len() as u64 > MOST_BYTES {
        return Err(OpFault::Trap(Trap::TooLong));
    }
    match make_text(sw, bytes) {
        Ok(at) => Ok(at),
        Err(fault) => Err(OpFault::Swizzle(fault)),
    }
}

// How many bytes a text has.
fn text_length(sw: &Swizzle, text: u32) -> u32
    requires held { IsHeld sw.now text }
    requires kind { (header_at sw.now text).kind ≡ Kind.Text }
    ensures value { result ≡ length (text_at sw.now text) }
    ensures header { result ≡ (header_at sw.now text).bytes }
{
    // What is read tells that its length is the one in the header.
    let _text = sw.text(text);
    sw.header(text).bytes
}
