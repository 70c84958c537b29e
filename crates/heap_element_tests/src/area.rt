ghost use Rattle.std.specs.Prelude.{◌≤◌, ◌^◌, IfOk, IfSome};
ghost use Rattle.heap_ops.specs.heap_texts.Texts.{HoldsText, StillTexts};

use heap_ops::heap_texts::make::make_text;
use heap_ops::swizzle::fault::SwizzleFault;
use heap_ops::swizzle::swizzle::Swizzle;
use std::alloc::Global;

/// Room for the type's text and a vector.
pub const WORDS: u32 = 60;

/// An area with one text, which is at index 1.
#[derive(Drop)]
pub struct Area {
    pub sw: Swizzle,
    pub ty: u32,
}

/// A text in an area of so many words, if there is room for it.
pub fn area_with(alloc: Global, words: u32, text: &[u8]) -> Option<Area>
    requires low { 5 ≤ words }
    requires high { words ≤ 2 ^ 25 }
    ensures { IfSome result (λ area. HoldsText area.sw area.ty) }
{
    let Ok(mut sw) = Swizzle::new(alloc, words) else {
        return None;
    };
    match made(&mut sw, text) {
        Ok(ty) => Some(Area { sw, ty }),
        Err(_) => None,
    }
}

// The call that makes a text.
fn made(sw: &mut Swizzle, bytes: &[u8]) -> Result<u32, SwizzleFault>
    ensures there { IfOk result (HoldsText sw.new) }
    ensures stay { StillTexts sw.old sw.new }
{
    make_text(sw, bytes)
}
