//! Structures: what is made, what is told of them, and what is refused.
ghost use Rattle.std.specs.Prelude.{true, OnOk};
ghost use Rattle.heap_ops_tests.specs.World.{IsReady};

use crate::calls::{Class, Of, Seen, To, bend, get, is_of, put_word, refer, set, structure, text};
use crate::world::World;
use heap_ops::heap_places::value::Value;
use heap_ops::swizzle::fault::SwizzleFault;
use heap_ops::swizzle::swizzle::Swizzle;
use memory_vault::obj_layout::kind::Kind;
use memory_vault::obj_layout::reference::Reference;
use memory_vault::obj_layout::vault::VaultFault;
use std::alloc::Global;
use std::process::Abort;
use std::test::Fail;

// A call on a world.
#[derive(Clone, Copy)]
enum Call {
    Get(Of, Class, u32),
    Set(Of, Class, u32, To),
    Is(Of, Class),
    // The objects that were assigned are this one alone, or none for nil.
    Assigned(Of),
    // By hand: the object gets so many references and words, its first reference, a word.
    Bend(u32, u32),
    Refer(Of),
    Put(u32, u64),
}

// A call and what it must answer, or what is found in a damaged object and what is wanted of it.
type Row = (Call, Result<Seen, (u64, u64)>);

const YES: Result<Seen, (u64, u64)> = Ok(Seen::Told(true));

const NO: Result<Seen, (u64, u64)> = Ok(Seen::Told(false));

const DONE: Result<Seen, (u64, u64)> = Ok(Seen::Done);

const MISFIT: Result<Seen, (u64, u64)> = Ok(Seen::Misfit);

// The fault of a damaged object that has no PID.
fn damaged((found, wanted): (u64, u64)) -> SwizzleFault {
    SwizzleFault::Vault(VaultFault::Damaged {
        at: 0,
        found,
        wanted,
    })
}

fn answer(world: &mut World, call: Call) -> Result<Seen, SwizzleFault>
    requires { IsReady world.old }
    ensures { OnOk result (IsReady world.new) }
{
    match call {
        Call::Get(of, class, field) => get(world, of, class, field),
        Call::Set(of, class, field, to) => set(world, of, class, field, to),
        Call::Is(of, class) => match is_of(world, of, class) {
            Ok(told) => Ok(Seen::Told(told)),
            Err(fault) => Err(fault),
        },
        Call::Assigned(of) => Ok(Seen::Told(world.has_assigned(of))),
        Call::Bend(refs, nums) => Ok(Seen::Told(bend(world, refs, nums))),
        Call::Refer(of) => Ok(Seen::Told(refer(world, of))),
        Call::Put(index, word) => Ok(Seen::Told(put_word(world, index, word))),
    }
}

// How many calls, one after the other, answered what they must. A refusal is the last answer.
fn answered(world: &mut World, rows: &[Row]) -> usize
    requires { IsReady world.old }
{
    let mut held = 0usize;
    for (call, wanted) in rows {
        let found = answer(world, *call);
        if found != wanted.map_err(damaged) {
            return held;
        }
        held = held.saturating_add(1);
        if found.is_err() {
            return held;
        }
    }
    held
}

// The same in a world of its own.
fn held(alloc: Global, rows: &[Row]) -> Result<usize, Fail> {
    let mut world = World::new(alloc)?;
    Ok(answered(&mut world, rows))
}

// Ends the test where fewer do.
fn assert_held(rt: &impl Abort, alloc: Global, rows: &[Row]) -> Result<(), Fail> {
    assert_eq!(rt; held(alloc, rows)?, rows.len());
    Ok(())
}

// That the references of the object are its name and nil, after its class.
fn lies_in_references(world: &World) -> bool
    requires { IsReady world.now }
{
    world.sw.refs(world.object) == 3
        && world.slot(0) == Some(Reference::Local(world.own))
        && world.slot(1) == Some(Reference::Local(world.name))
        && world.slot(2) == Some(Reference::Nil)
}

// That its words are its age and its flag, after its home.
fn lies_in_words(world: &World) -> bool
    requires { IsReady world.now }
{
    world.sw.nums(world.object) == 3
        && world.word(0) == Some(0)
        && world.word(1) == Some(0xffff_ffff_ffff_fffb)
        && world.word(2) == Some(1)
}

// That the fields of the object lie in two rows.
fn lies_in_two_rows(world: &World) -> bool
    requires { IsReady world.now }
{
    world.sw.is_kind(world.object, Kind::Structure)
        && lies_in_references(world)
        && lies_in_words(world)
        && world.sw.assigned().is_empty()
}

#[test]
fn lays_fields_in_two_rows(rt: HostRuntime) -> Result<(), Fail> {
    let world = World::new(rt.alloc())?;
    assert!(rt; lies_in_two_rows(&world));
    Ok(())
}

static CLASSES: [Row; 5] = [
    (Call::Is(Of::Object, Class::Own), YES),
    (Call::Is(Of::Object, Class::Equal), YES),
    (Call::Is(Of::Object, Class::Other), NO),
    (Call::Is(Of::Name, Class::Own), NO),
    (Call::Is(Of::Nil, Class::Own), NO),
];

#[test]
fn tells_classes_by_their_texts(rt: HostRuntime) -> Result<(), Fail> {
    assert_held(&rt, rt.alloc(), &CLASSES)
}

static FIELDS: [Row; 5] = [
    (Call::Get(Of::Object, Class::Own, 0), Ok(Seen::Name)),
    (
        Call::Get(Of::Object, Class::Own, 1),
        Ok(Seen::Value(Value::Num(-5))),
    ),
    (
        Call::Get(Of::Object, Class::Equal, 2),
        Ok(Seen::Value(Value::Flag(true))),
    ),
    (
        Call::Get(Of::Object, Class::Own, 3),
        Ok(Seen::Value(Value::Ref(None))),
    ),
    (Call::Get(Of::Object, Class::Own, 4), Ok(Seen::NoField)),
];

#[test]
fn gets_fields_of_each_form(rt: HostRuntime) -> Result<(), Fail> {
    assert_held(&rt, rt.alloc(), &FIELDS)
}

static SETS: [Row; 8] = [
    (
        Call::Set(Of::Object, Class::Own, 3, To::Of(Of::Object)),
        DONE,
    ),
    (Call::Assigned(Of::Object), YES),
    (
        Call::Set(Of::Object, Class::Own, 1, To::Num(i32::MIN)),
        DONE,
    ),
    (
        Call::Set(Of::Object, Class::Equal, 2, To::Flag(false)),
        DONE,
    ),
    (Call::Assigned(Of::Object), YES),
    (Call::Get(Of::Object, Class::Own, 3), Ok(Seen::Object)),
    (
        Call::Get(Of::Object, Class::Own, 1),
        Ok(Seen::Value(Value::Num(i32::MIN))),
    ),
    (
        Call::Get(Of::Object, Class::Own, 2),
        Ok(Seen::Value(Value::Flag(false))),
    ),
];

#[test]
fn sets_fields_of_each_form(rt: HostRuntime) -> Result<(), Fail> {
    assert_held(&rt, rt.alloc(), &SETS)
}

static MISFITS: [Row; 5] = [
    (
        Call::Set(Of::Object, Class::Own, 1, To::Of(Of::Nil)),
        MISFIT,
    ),
    (Call::Set(Of::Object, Class::Own, 0, To::Num(0)), MISFIT),
    (Call::Set(Of::Object, Class::Own, 2, To::Num(2)), MISFIT),
    (Call::Set(Of::Object, Class::Own, 2, To::Num(0)), DONE),
    (
        Call::Get(Of::Object, Class::Own, 2),
        Ok(Seen::Value(Value::Flag(false))),
    ),
];

#[test]
fn refuses_values_of_other_forms(rt: HostRuntime) -> Result<(), Fail> {
    assert_held(&rt, rt.alloc(), &MISFITS)
}

// Trap 4 of nil, and 5 of what is no structure of the class.
static TRAPS: [Row; 7] = [
    (Call::Get(Of::Nil, Class::Own, 0), Ok(Seen::Trap(4))),
    (Call::Get(Of::Name, Class::Own, 0), Ok(Seen::Trap(5))),
    (Call::Get(Of::Object, Class::Other, 0), Ok(Seen::Trap(5))),
    (
        Call::Set(Of::Nil, Class::Own, 1, To::Num(1)),
        Ok(Seen::Trap(4)),
    ),
    (
        Call::Set(Of::Name, Class::Own, 1, To::Num(1)),
        Ok(Seen::Trap(5)),
    ),
    (
        Call::Set(Of::Object, Class::Other, 1, To::Num(1)),
        Ok(Seen::Trap(5)),
    ),
    (Call::Assigned(Of::Nil), YES),
];

#[test]
fn traps(rt: HostRuntime) -> Result<(), Fail> {
    assert_held(&rt, rt.alloc(), &TRAPS)
}

static TOO_FEW: [Row; 5] = [
    (Call::Bend(2, 3), YES),
    (Call::Refer(Of::Class), YES),
    (Call::Is(Of::Object, Class::Own), YES),
    (Call::Get(Of::Object, Class::Other, 1), Ok(Seen::Trap(5))),
    (Call::Get(Of::Object, Class::Own, 1), Err((2, 3))),
];

#[test]
fn refuses_a_reference_too_few(rt: HostRuntime) -> Result<(), Fail> {
    assert_held(&rt, rt.alloc(), &TOO_FEW)
}

static TOO_MANY: [Row; 3] = [
    (Call::Bend(3, 4), YES),
    (Call::Refer(Of::Class), YES),
    (
        Call::Set(Of::Object, Class::Own, 1, To::Num(1)),
        Err((4, 3)),
    ),
];

#[test]
fn refuses_a_word_too_many(rt: HostRuntime) -> Result<(), Fail> {
    assert_held(&rt, rt.alloc(), &TOO_MANY)
}

static NO_BOOL: [Row; 6] = [
    (Call::Bend(3, 3), YES),
    (Call::Refer(Of::Class), YES),
    (Call::Put(2, 1), YES),
    (
        Call::Get(Of::Object, Class::Own, 2),
        Ok(Seen::Value(Value::Flag(true))),
    ),
    (Call::Put(2, 2), YES),
    (Call::Get(Of::Object, Class::Own, 2), Err((2, 2))),
];

#[test]
fn refuses_a_word_that_is_no_bool(rt: HostRuntime) -> Result<(), Fail> {
    assert_held(&rt, rt.alloc(), &NO_BOOL)
}

static NO_INT: [Row; 8] = [
    (Call::Bend(3, 3), YES),
    (Call::Refer(Of::Class), YES),
    (Call::Put(1, 0x7fff_ffff), YES),
    (
        Call::Get(Of::Object, Class::Own, 1),
        Ok(Seen::Value(Value::Num(i32::MAX))),
    ),
    (Call::Put(1, 0xffff_ffff_8000_0000), YES),
    (
        Call::Get(Of::Object, Class::Own, 1),
        Ok(Seen::Value(Value::Num(i32::MIN))),
    ),
    (Call::Put(1, 0x8000_0000), YES),
    (
        Call::Get(Of::Object, Class::Own, 1),
        Err((0x8000_0000, 0x8000_0000)),
    ),
];

#[test]
fn refuses_a_word_that_is_no_int(rt: HostRuntime) -> Result<(), Fail> {
    assert_held(&rt, rt.alloc(), &NO_INT)
}

static NIL_CLASS: [Row; 2] = [
    (Call::Bend(3, 3), YES),
    (Call::Is(Of::Object, Class::Own), Err((0, 1))),
];

static NO_CLASS: [Row; 2] = [
    (Call::Bend(0, 3), YES),
    (Call::Get(Of::Object, Class::Own, 1), Err((0, 1))),
];

#[test]
fn refuses_a_structure_without_a_class(rt: HostRuntime) -> Result<(), Fail> {
    assert_held(&rt, rt.alloc(), &NIL_CLASS)?;
    assert_held(&rt, rt.alloc(), &NO_CLASS)
}

static NO_TEXT: [Row; 3] = [
    (Call::Bend(3, 3), YES),
    (Call::Refer(Of::Object), YES),
    (Call::Get(Of::Object, Class::Own, 1), Err((2, 1))),
];

#[test]
fn refuses_a_class_that_is_no_text(rt: HostRuntime) -> Result<(), Fail> {
    assert_held(&rt, rt.alloc(), &NO_TEXT)
}

// That a text and a structure fill an area of 16 words, so that a second structure is refused and takes nothing.
fn fills(sw: &mut Swizzle) -> bool {
    let full = SwizzleFault::AreaFull {
        top: 17,
        wanted: 10,
        size: 17,
    };
    text(sw, b"Ann") == Ok(1)
        && structure(sw, 1, 1) == Ok(7)
        && sw.top() == 17
        && structure(sw, 1, 1) == Err(full)
        && sw.top() == 17
}

#[test]
fn answers_a_full_area(rt: HostRuntime) -> Result<(), Fail> {
    let mut sw = Swizzle::new(rt.alloc(), 16)?;
    assert!(rt; fills(&mut sw));
    Ok(())
}
