ghost use Rattle.std.specs.Prelude.{◌≡◌, ◌+◌, ◌*◌, ◌<◌, ◌^◌, length, IfOk, OnOk};
ghost use Rattle.ps_base.specs.CodeUnit.{constant_view, constants_view, unit_view};
ghost use Rattle.ps_base.specs.List.{items_of};
ghost use Rattle.heap_texts.specs.obj_area.Words.{AreBytes};
ghost use Rattle.heap_texts.specs.swizzle.Heap.{IsHeld, Stands, header_at, object_at, with_object, with_ref};
ghost use Rattle.heap_texts.specs.obj_layout.declared.reference.Reference.TheVariants.{Local};
ghost use Rattle.heap_texts.specs.Texts.{MakesText};
ghost use Rattle.proc_values.specs.Units.{Loads, frame_word, constant_place, constants_places};
ghost use Rattle.proc_values.specs.Units.{constant_words, constants_words};
ghost use Rattle.proc_values.specs.Loaded.{IsFitFrame, IsFitUnit, AreFitConstants, IsFitConstant};
ghost use Rattle.proc_values.specs.inside.Loading.{LoadsConstant, LoadsConstants, AreLoaded, AreHeld, MakesBlank, MakesCode};

use crate::words::{code_nums, words_of_constant, words_of_constants};
use heap_texts::make::make_text;
use heap_texts::obj_layout::kind::Kind;
use heap_texts::swizzle::fault::SwizzleFault;
use heap_texts::swizzle::swizzle::Swizzle;
use ps_base::code_unit::{CodeUnit, Constant, Frame};

/// Makes the objects of a unit, those of its constants first, and answers its code object (`docs/formats.md`). AreaFull exactly where there is
/// no room for the next object, whose words are answered, at most 2^32 - 1; the objects before it stay until `reset`. The recursion is as deep
/// as procedure literals stand inside one another.
#[cycle(loading)]
pub fn load_unit(sw: &mut Swizzle, unit: &CodeUnit) -> Result<u32, SwizzleFault>
    ensures loads { Loads sw.old sw.new (unit_view unit.now) result }
    ensures fit { OnOk result (IsFitUnit (unit_view unit.now)) }
    ensures held { IfOk result (IsHeld sw.new) }
    ensures stands { Stands sw.old sw.new }
{
    is_fit(unit);
    let first = sw.top();
    load_constants(sw, unit.constants.as_slice())?;
    load_code(sw, first, unit)
}

// A law: the code of a unit is bytes, and the numbers of its frame have 16 bits.
fn is_fit(unit: &CodeUnit)
    ensures bytes { AreBytes unit.now.code }
    ensures frame { IsFitFrame unit.now.frame }
{
    are_bytes(unit.code.as_slice());
    is_frame(unit.frame);
}

// A law: bytes are below 256.
fn are_bytes(bytes: &[u8])
    ensures { AreBytes bytes.now }
{}

// A law: the numbers of a frame have 16 bits.
fn is_frame(frame: Frame)
    ensures { IsFitFrame frame }
{
    let _ = frame;
}

// Makes the objects of these constants, one after the other.
#[cycle(loading)]
fn load_constants(sw: &mut Swizzle, constants: &[Constant]) -> Result<(), SwizzleFault>
    ensures loads { LoadsConstants sw.old sw.new (constants_view constants.now) result }
    ensures fit { OnOk result (AreFitConstants (constants_view constants.now)) }
{
    for constant in constants {
        load_constant(sw, constant)?;
    }
    Ok(())
}

// Makes the objects of a constant, and answers its place.
#[cycle(loading)]
fn load_constant(sw: &mut Swizzle, constant: &Constant) -> Result<u32, SwizzleFault>
    ensures loads { LoadsConstant sw.old sw.new (constant_view constant.now) result }
    ensures fit { OnOk result (IsFitConstant (constant_view constant.now)) }
{
    match constant {
        Constant::Text(bytes) => load_text(sw, bytes.as_slice()),
        Constant::Unit(unit) => load_unit(sw, unit),
    }
}

// Makes the object of a text.
fn load_text(sw: &mut Swizzle, bytes: &[u8]) -> Result<u32, SwizzleFault>
    ensures made { MakesText sw.old sw.new bytes.now result }
    ensures fit { AreBytes bytes.now }
{
    make_text(sw, bytes)
}

// Makes the code object of a unit whose constants lie from `first` on.
fn load_code(sw: &mut Swizzle, first: u32, unit: &CodeUnit) -> Result<u32, SwizzleFault>
    requires { AreLoaded sw.old first (constants_view (items_of unit.now.constants)) }
    ensures { MakesCode sw.old sw.new first (unit_view unit.now) result }
{
    sw.sound();
    let constants = unit.constants.as_slice();
    let code = unit.code.as_slice();
    let at = make_blank(sw, constants.len(), code.len())?;
    sw.set_num(at, 1, word_of_frame(unit.frame));
    sw.write_text(at, 0, code);
    link(sw, at, first, constants);
    Ok(at)
}

// The most words that an area has.
const MOST_WORDS: u64 = 1 << 25;

// Makes a code object for so many constants and bytes, its references nil and its bytes 0.
fn make_blank(sw: &mut Swizzle, constants: usize, bytes: usize) -> Result<u32, SwizzleFault>
    requires { constants < 2 ^ 32 }
    ensures { MakesBlank sw.old sw.new constants bytes result }
{
    sw.sound();
    let nums = code_nums(bytes);
    let wanted = 4 + constants as u64 + nums;
    if wanted > MOST_WORDS {
        return Err(SwizzleFault::AreaFull {
            top: sw.top(),
            wanted: wanted.min(u32::MAX as u64) as u32,
            size: sw.size(),
        });
    }
    sw.make(Kind::Code, constants as u32, nums as u32, bytes as u32)
}

// The frame as one word: 16 bits each.
#[tactic(auto, unfolding(crate::specs::Units::frame_word))]
fn word_of_frame(frame: Frame) -> u64
    ensures { result ≡ frame_word frame }
{
    word_of_halves(
        half(frame.nums, frame.refs),
        half(frame.num_params, frame.ref_params),
    )
}

// The word whose bits 0 to 31 are `low` and whose bits 32 to 63 are `high`.
fn word_of_halves(low: u32, high: u32) -> u64
    ensures { result ≡ low + 2 ^ 32 * high }
{
    low as u64 | (high as u64) << 32
}

// The number whose bits 0 to 15 are `low` and whose bits 16 to 31 are `high`.
fn half(low: u16, high: u16) -> u32
    ensures { result ≡ low + 2 ^ 16 * high }
{
    low as u32 | (high as u32) << 16
}

// Makes the slots of a code object refer to these constants, which lie from `first` on.
fn link(sw: &mut Swizzle, code: u32, first: u32, constants: &[Constant])
    requires held { IsHeld sw.old code }
    requires slots { (header_at sw.old code).refs ≡ length constants.now }
    requires fits { first + constants_words (constants_view constants.now) < 2 ^ 32 }
    requires there { AreHeld sw.old (constants_places first (constants_view constants.now)) }
    ensures { sw.new ≡ with_object sw.old code (record (object_at sw.old code) { refs = constants_places first (constants_view constants.now) }) }
{
    sw.sound();
    let mut at = first;
    let mut slot = 0;
    for constant in constants {
        at = link_one(sw, code, slot, at, constant);
        slot += 1;
    }
}

// Makes a slot refer to the constant whose objects lie from an index on, and answers the index after them.
fn link_one(sw: &mut Swizzle, code: u32, slot: u32, at: u32, constant: &Constant) -> u32
    requires held { IsHeld sw.old code }
    requires below { slot < (header_at sw.old code).refs }
    requires fits { at + constant_words (constant_view constant.now) < 2 ^ 32 }
    requires there { IsHeld sw.old (constant_place at (constant_view constant.now)) }
    ensures written { sw.new ≡ with_ref sw.old code slot (Local (constant_place at (constant_view constant.now))) }
    ensures behind { result ≡ at + constant_words (constant_view constant.now) }
{
    sw.set_ref(code, slot, Some(place_of(at, constant)));
    at + words_of_constant(constant) as u32
}

// The place of a constant whose objects lie from an index on.
fn place_of(at: u32, constant: &Constant) -> u32
    requires { at + constant_words (constant_view constant.now) < 2 ^ 32 }
    ensures { result ≡ constant_place at (constant_view constant.now) }
{
    match constant {
        Constant::Text(_) => at,
        Constant::Unit(unit) => at + words_of_constants(unit.constants.as_slice()) as u32,
    }
}
