//! A machine, and a unit in it.
ghost use Rattle.std.specs.Prelude.{◌≡◌, ◌^◌, ◌+◌, ◌≤◌, [], replicate, pos, true, false, IfOk, IfErr};
ghost use Rattle.ps_base.specs.CodeUnit.{unit, unit_view, no_constants};
ghost use Rattle.ps_base.specs.declared.code_unit.Frame.{Frame as Numbers};
ghost use Rattle.machine_core.specs.ps_stepping.Config.{frame_in, frame_words};
ghost use Rattle.machine_core.specs.Waiting.{IsOrderly};
ghost use Rattle.machine_run.specs.Loaded.{IsFrame, IsRoomy, IsNew, Loads, LoadsUnit, no_locals};
ghost use Rattle.machine_run.specs.inside.Beginning.{IsBegun};

use machine_core::frame_stack::FrameStack;
use machine_core::obj_layout::vault::Vault;
use machine_core::objects::objects::Objects;
use machine_core::proc_values::reading::CodePlace;
use machine_core::swizzle::fault::SwizzleFault;
use machine_core::{
    ALL_WORDS, Databases, FRAME_WORDS, Input, Item, MOST_CALLERS, MOST_DATABASES, MOST_VALUES,
    Machine, RunEnd, Writing,
};
use ps_base::bytes::Bytes;
use ps_base::code_unit::{CodeUnit, Frame};
use ps_base::list::List;
use std::alloc::{AllocError, Global};

// A frame without locals.
const NO_LOCALS: Frame = Frame {
    nums: 0,
    refs: 0,
    num_params: 0,
    ref_params: 0,
};

// The place of no code.
const NO_PLACE: CodePlace = CodePlace { first: 0, count: 0 };

// What no write writes.
const NO_WRITING: Writing = Writing {
    width: None,
    item: Item::Int(0),
};

// The fault of no run.
const NO_FAULT: SwizzleFault = SwizzleFault::AreaFull {
    top: 0,
    wanted: 0,
    size: 0,
};

/// A machine without a unit, over an area of so many words. It takes all the memory that its runs will use but for their input: the area, the two stacks
/// with 512 words each for the body that runs and for 2,000 bodies that wait, and room for the values of one object and for 256 databases that are open for
/// writing; of all these no page is touched before it is used.
pub fn machine(alloc: Global, words: u32) -> Result<Machine, AllocError>
    requires low { 5 ≤ words }
    requires high { words ≤ 2 ^ 25 }
    ensures { IfOk result (IsNew (words + 1)) }
{
    let objects = Objects::new(alloc, words)?;
    Ok(Machine {
        objects,
        values: Vec::with_capacity(alloc, MOST_VALUES)?,
        code: 0,
        place: NO_PLACE,
        frame: NO_LOCALS,
        scope: 0,
        at: 0,
        nums: FrameStack::with_capacity(alloc, ALL_WORDS)?,
        refs: FrameStack::with_capacity(alloc, ALL_WORDS)?,
        callers: Vec::with_capacity(alloc, MOST_CALLERS)?,
        input: Input::new(Vec::new(alloc)),
        turns: 0,
        databases: Databases {
            writing: Vec::with_capacity(alloc, MOST_DATABASES)?,
            asked: false,
            directory: None,
        },
        writing: NO_WRITING,
        end: RunEnd::Done,
        fault: NO_FAULT,
    })
}

/// Puts a unit into a machine, at its start beside a vault, with so many turns and this input. For a unit whose frame has more than 512 locals on one
/// stack it is a unit without code, so that the first step is damage. What lay in the area is forgotten in no time that depends on it, and no memory is
/// taken. AreaFull exactly where the area has no room for an object of the unit; the machine takes another unit then.
pub fn load<V: Vault>(
    m: &mut Machine,
    vault: &V,
    unit: &CodeUnit,
    turns: u64,
    input: Vec<u8>,
) -> Result<(), SwizzleFault>
    requires { IsRoomy m.old }
    ensures { Loads (V.outside vault.now) (unit_view unit.now) turns input.items m.old m.new result }
{
    if fits(unit.frame) {
        return load_fitting(m, vault, unit, turns, input);
    }
    let damaged = no_code(*input.allocator());
    load_fitting(m, vault, &damaged, turns, input)
}

// Whether a frame has no more locals on a stack than words.
fn fits(frame: Frame) -> bool
    ensures fits { result ≡ true → IsFrame frame }
    ensures is_too_large { result ≡ false → IsFrame frame → ⊥ }
{
    frame.nums as usize <= FRAME_WORDS && frame.refs as usize <= FRAME_WORDS
}

// A unit without code. Takes no memory.
#[tactic(auto, using(crate::proofs::Loading::empty_unit))]
fn no_code(alloc: Global) -> CodeUnit
    ensures { unit_view result ≡ unit [] no_constants no_locals }
{
    CodeUnit {
        code: Bytes::new(Vec::new(alloc)),
        constants: List::new(Vec::new(alloc)),
        frame: NO_LOCALS,
    }
}

// Puts a unit whose frame fits into a machine.
fn load_fitting<V: Vault>(
    m: &mut Machine,
    vault: &V,
    unit: &CodeUnit,
    turns: u64,
    input: Vec<u8>,
) -> Result<(), SwizzleFault>
    requires roomy { IsRoomy m.old }
    requires frame { IsFrame (frame_in (unit_view unit.now)) }
    ensures { LoadsUnit (V.outside vault.now) (unit_view unit.now) turns input.items m.old m.new result }
{
    m.objects.reset();
    m.input = Input::new(input);
    match m.objects.load(vault, unit) {
        Ok(code) => {
            let place = m.objects.code_place(code);
            begin(m, code, place, unit.frame, turns);
            Ok(())
        }
        Err(fault) => Err(fault),
    }
}

// Stands at the start of a code object with this frame: the locals are 0 and nil, nothing is pushed, nothing was written, and no database was asked for.
fn begin(m: &mut Machine, code: u32, place: CodePlace, frame: Frame, turns: u64)
    requires roomy { IsRoomy m.old }
    requires nums { frame.nums ≤ frame_words }
    requires refs { frame.refs ≤ frame_words }
    ensures { IsBegun code place frame turns m.old m.new }
{
    m.code = code;
    m.place = place;
    m.frame = frame;
    m.scope = 0;
    m.at = 0;
    m.turns = turns;
    m.writing = NO_WRITING;
    m.callers.clear();
    m.databases.writing.clear();
    m.databases.asked = false;
    m.databases.directory = None;
    m.nums.restart(frame.nums as usize, 0);
    m.refs.restart(frame.refs as usize, 0);
}
