//! The calls on a world.
ghost use Rattle.std.specs.Prelude.{IfOk, IfSome, OnOk};
ghost use Rattle.heap_ops.specs.swizzle.Heap.{IsHeld, Stands};
ghost use Rattle.heap_ops.specs.swizzle.Text.{text_at};
ghost use Rattle.heap_ops.specs.heap_texts.Texts.{HoldsText};
ghost use Rattle.heap_ops.specs.heap_places.Places.{IsNear};
ghost use Rattle.heap_ops.specs.Structures.{IsNamed};
ghost use Rattle.heap_ops.specs.Layouts.{AreSo};
ghost use Rattle.heap_ops_tests.specs.World.{IsReady};

use crate::world::World;
use heap_ops::heap_places::places::find_misfit;
use heap_ops::heap_places::value::Value;
use heap_ops::heap_texts::fault::OpFault;
use heap_ops::heap_texts::make::make_text;
use heap_ops::layouts::Layouts;
use heap_ops::structures::{get_field, is_class, make_structure, set_field};
use heap_ops::swizzle::fault::SwizzleFault;
use heap_ops::swizzle::swizzle::Swizzle;
use heap_ops::text_forms::forms::{Located, Place, locate};
use memory_vault::obj_layout::kind::Kind;
use memory_vault::obj_layout::reference::Reference;
use memory_vault::silent::SilentVault;
use std::alloc::Global;
use std::test::Fail;

/// One of the classes.
#[derive(Clone, Copy)]
pub enum Class {
    Own,
    Equal,
    Other,
}

/// What a field is asked of.
#[derive(Clone, Copy)]
pub enum Of {
    Object,
    Name,
    /// The text of the class `own`.
    Class,
    Nil,
}

/// What a field is set to.
#[derive(Clone, Copy)]
pub enum To {
    Num(i32),
    Flag(bool),
    Of(Of),
}

/// What a call answered.
#[derive(Clone, Copy, PartialEq, Eq)]
pub enum Seen {
    /// The structure of the world.
    Object,
    /// The text that is a field of the structure.
    Name,
    /// Another value.
    Value(Value),
    Told(bool),
    Done,
    Trap(u32),
    NoField,
    Misfit,
}

const PERSON: &[u8] = b"person(string name;int age;bool old;pntr next)";

/// A text more.
pub fn text(sw: &mut Swizzle, bytes: &[u8]) -> Result<u32, SwizzleFault>
    ensures there { IfOk result (HoldsText sw.new) }
    ensures stands { Stands sw.old sw.new }
{
    make_text(sw, bytes)
}

/// A structure of the class `own` more.
pub fn structure(sw: &mut Swizzle, class: u32, name: u32) -> Result<u32, SwizzleFault>
    requires class { IsHeld sw.old class }
    requires name { IsHeld sw.old name }
    ensures there { IfOk result (IsHeld sw.new) }
    ensures stands { Stands sw.old sw.new }
{
    let fields = [
        Value::Ref(Some(name)),
        Value::Num(-5),
        Value::Flag(true),
        Value::Ref(None),
    ];
    make_structure(sw, class, &fields)
}

impl World {
    /// The area as the tests begin with it.
    pub fn new(alloc: Global) -> Result<World, Fail>
        ensures { IfOk result IsReady }
    {
        let mut sw = Swizzle::new(alloc, 200)?;
        match made(&mut sw) {
            Ok(at) => Ok(World {
                sw,
                own: at.0,
                equal: at.1,
                other: at.2,
                name: at.3,
                object: at.4,
            }),
            Err(_) => Err("no room for the objects".into()),
        }
    }

    fn class(&self, class: Class) -> u32
        requires { IsReady self.now }
        ensures { HoldsText self.now.sw result }
    {
        match class {
            Class::Own => self.own,
            Class::Equal => self.equal,
            Class::Other => self.other,
        }
    }

    fn denoted(&self, of: Of) -> Option<u32>
        requires { IsReady self.now }
        ensures { IfSome result (IsHeld self.now.sw) }
    {
        match of {
            Of::Object => Some(self.object),
            Of::Name => Some(self.name),
            Of::Class => Some(self.own),
            Of::Nil => None,
        }
    }

    fn value(&self, to: To) -> Value
        requires { IsReady self.now }
        ensures { IsNear self.now.sw result }
    {
        match to {
            To::Num(value) => Value::Num(value),
            To::Flag(value) => Value::Flag(value),
            To::Of(of) => Value::Ref(self.denoted(of)),
        }
    }

    fn seen(&self, value: Value) -> Seen {
        match value {
            Value::Ref(Some(at)) if at == self.object => Seen::Object,
            Value::Ref(Some(at)) if at == self.name => Seen::Name,
            _ => Seen::Value(value),
        }
    }

    /// Whether this object alone was assigned, or none for nil.
    pub fn has_assigned(&self, of: Of) -> bool
        requires { IsReady self.now }
    {
        match self.denoted(of) {
            Some(object) => self.sw.assigned() == [object].as_slice(),
            None => self.sw.assigned().is_empty(),
        }
    }

    /// A word of the object.
    pub fn word(&self, index: u32) -> Option<u64>
        requires { IsReady self.now }
    {
        if index < self.sw.nums(self.object) {
            Some(self.sw.num(self.object, index))
        } else {
            None
        }
    }

    /// A reference of the object.
    pub fn slot(&self, slot: u32) -> Option<Reference>
        requires { IsReady self.now }
    {
        if slot < self.sw.refs(self.object) {
            Some(self.sw.peek(self.object, slot))
        } else {
            None
        }
    }
}

// The texts and the structure.
fn made(sw: &mut Swizzle) -> Result<(u32, u32, u32, u32, u32), SwizzleFault>
    ensures own { IfOk result (λ at. HoldsText sw.new at.0) }
    ensures equal { IfOk result (λ at. HoldsText sw.new at.1) }
    ensures other { IfOk result (λ at. HoldsText sw.new at.2) }
    ensures name { IfOk result (λ at. HoldsText sw.new at.3) }
    ensures object { IfOk result (λ at. IsHeld sw.new at.4) }
{
    let own = text(sw, PERSON)?;
    let equal = text(sw, PERSON)?;
    let other = text(sw, b"pupil(string name;int age;bool old;pntr next)")?;
    let name = text(sw, b"Ann")?;
    let object = structure(sw, own, name)?;
    Ok((own, equal, other, name, object))
}

/// The value of a field of a class.
pub fn get(world: &mut World, of: Of, class: Class, field: u32) -> Result<Seen, SwizzleFault>
    requires { IsReady world.old }
    ensures { OnOk result (IsReady world.new) }
{
    let class = world.class(class);
    let object = world.denoted(of);
    let Some(located) = place(&world.sw, class, field) else {
        return Ok(Seen::NoField);
    };
    match get_field(
        &mut world.sw,
        &mut SilentVault { asked: 0 },
        object,
        class,
        located,
    ) {
        Ok(value) => Ok(world.seen(value)),
        Err(OpFault::Trap(trap)) => Ok(Seen::Trap(trap as u32)),
        Err(OpFault::Swizzle(fault)) => Err(fault),
    }
}

/// Sets a field of a class.
pub fn set(
    world: &mut World,
    of: Of,
    class: Class,
    field: u32,
    to: To,
) -> Result<Seen, SwizzleFault>
    requires { IsReady world.old }
    ensures { OnOk result (IsReady world.new) }
{
    let class = world.class(class);
    let object = world.denoted(of);
    let value = world.value(to);
    let Some(located) = place(&world.sw, class, field) else {
        return Ok(Seen::NoField);
    };
    if find_misfit(located.place.form, value).is_some() {
        return Ok(Seen::Misfit);
    }
    match set_field(
        &mut world.sw,
        &mut SilentVault { asked: 0 },
        object,
        class,
        located,
        value,
    ) {
        Ok(()) => Ok(Seen::Done),
        Err(OpFault::Trap(trap)) => Ok(Seen::Trap(trap as u32)),
        Err(OpFault::Swizzle(fault)) => Err(fault),
    }
}

/// Whether it is a structure of the class.
pub fn is_of(world: &mut World, of: Of, class: Class) -> Result<bool, SwizzleFault>
    requires { IsReady world.old }
    ensures { OnOk result (IsReady world.new) }
{
    let class = world.class(class);
    let object = world.denoted(of);
    is_class(&mut world.sw, &mut SilentVault { asked: 0 }, object, class)
}

/// Makes the object one of so many references and words, by hand. False where there is no room.
pub fn bend(world: &mut World, refs: u32, nums: u32) -> bool
    requires { IsReady world.old }
    ensures { IsReady world.new }
{
    if refs > 9 || nums > 9 || nums == 0 {
        return false;
    }
    match world.sw.make(Kind::Structure, refs, nums, 0) {
        Ok(object) => {
            world.object = object;
            true
        }
        Err(_) => false,
    }
}

/// Lets the first slot of the object denote something, by hand.
pub fn refer(world: &mut World, of: Of) -> bool
    requires { IsReady world.old }
    ensures { IsReady world.new }
{
    if world.sw.refs(world.object) == 0 {
        return false;
    }
    let to = world.denoted(of);
    world.sw.set_ref(world.object, 0, to);
    true
}

/// Writes a word of the object, by hand.
pub fn put_word(world: &mut World, index: u32, word: u64) -> bool
    requires { IsReady world.old }
    ensures { IsReady world.new }
{
    if index >= world.sw.nums(world.object) {
        return false;
    }
    world.sw.set_num(world.object, index, word);
    true
}

// The place of a field of a class.
fn place(sw: &Swizzle, class: u32, field: u32) -> Option<Located>
    requires { HoldsText sw.now class }
    ensures { IfSome result (IsNamed (text_at sw.now class)) }
{
    sw.sound();
    locate(sw.text(class), field)
}

/// The place of a field of a class, by what was looked up before.
pub fn found(layouts: &mut Layouts, sw: &Swizzle, class: u32, field: u32) -> Option<Place>
    requires so { AreSo sw.now layouts.old.entries.items }
    requires class { HoldsText sw.now class }
    ensures { AreSo sw.now layouts.new.entries.items }
{
    let located = layouts.locate(sw, class, field)?;
    Some(located.place)
}
