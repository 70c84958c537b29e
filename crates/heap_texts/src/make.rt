ghost use Rattle.std.specs.Prelude.{◌≡◌, ◌+◌};
ghost use Rattle.heap_texts.specs.Texts.{MakesBlankText, MakesText, text_nums, wanted_of};

use swizzle::fault::SwizzleFault;
use swizzle::obj_layout::kind::Kind;
use swizzle::swizzle::Swizzle;

/// Makes the object of a text. AreaFull exactly where there is no room for its words, five and one for each eight bytes or part of them; then
/// the area stays.
pub fn make_text(sw: &mut Swizzle, from: &[u8]) -> Result<u32, SwizzleFault>
    ensures { MakesText sw.old sw.new from.now result }
{
    sw.sound();
    let Ok(bytes) = u32::try_from(from.len()) else {
        return Err(SwizzleFault::AreaFull {
            top: sw.top(),
            wanted: words_wanted(from.len()),
            size: sw.size(),
        });
    };
    let at = make_blank_text(sw, bytes)?;
    sw.write_text(at, 0, from);
    Ok(at)
}

/// Makes the object of a text of so many bytes, all 0. AreaFull exactly where there is no room for its words; then the area stays.
pub fn make_blank_text(sw: &mut Swizzle, bytes: u32) -> Result<u32, SwizzleFault>
    ensures { MakesBlankText sw.old sw.new bytes result }
{
    sw.make(Kind::Text, 0, 1 + bytes.div_ceil(8), bytes)
}

// How many words the object of a text of so many bytes is said to want.
fn words_wanted(bytes: usize) -> u32
    ensures { result ≡ wanted_of (4 + text_nums bytes) }
{
    match u32::try_from(5 + bytes.div_ceil(8)) {
        Ok(words) => words,
        Err(_) => u32::MAX,
    }
}
