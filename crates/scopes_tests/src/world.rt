//! An area with the text of a scope and the scope, or two of them.
ghost use Rattle.std.specs.Prelude.{◌≤◌, ◌^◌, IfOk, IfSome, OnOk};
ghost use Rattle.scopes.specs.swizzle.Heap.{IsHeld, Stands};
ghost use Rattle.scopes.specs.heap_texts.Texts.{HoldsText};
ghost use Rattle.scopes_tests.specs.World.{IsReady};

use crate::ended::Ended;
use memory_vault::silent::SilentVault;
use scopes::heap_ops::layouts::Layouts;
use scopes::heap_places::value::Value;
use scopes::heap_texts::make::make_text;
use scopes::making::make_scope;
use scopes::names::{get_kept, set_kept};
use scopes::swizzle::fault::SwizzleFault;
use scopes::swizzle::swizzle::Swizzle;
use std::alloc::Global;

/// A text at index 1 and a scope of it after.
#[derive(Drop)]
pub struct World {
    pub sw: Swizzle,
    pub layouts: Layouts,
    pub text: u32,
    pub scope: u32,
}

/// An area of so many words with the text alone.
#[derive(Drop)]
pub struct Area {
    pub sw: Swizzle,
    pub text: u32,
}

/// Such an area, if there is room for the text.
pub fn area_with(alloc: Global, words: u32, text: &[u8]) -> Option<Area>
    requires low { 5 ≤ words }
    requires high { words ≤ 2 ^ 25 }
    ensures { IfSome result (λ area. HoldsText area.sw area.text) }
{
    let Ok(mut sw) = Swizzle::new(alloc, words) else {
        return None;
    };
    match made(&mut sw, text) {
        Ok(text) => Some(Area { sw, text }),
        Err(_) => None,
    }
}

// The call that makes a text.
fn made(sw: &mut Swizzle, bytes: &[u8]) -> Result<u32, SwizzleFault>
    ensures { IfOk result (HoldsText sw.new) }
{
    make_text(sw, bytes)
}

/// A scope of a text.
pub fn scoped(sw: &mut Swizzle, text: u32, parent: Option<u32>) -> Result<u32, Ended>
    requires text { HoldsText sw.old text }
    requires parent { IfSome parent (IsHeld sw.old) }
    ensures held { IfOk result (IsHeld sw.new) }
    ensures stands { Stands sw.old sw.new }
{
    match make_scope(sw, text, parent) {
        Ok(scope) => Ok(scope),
        Err(fault) => Err(Some(fault)),
    }
}

impl World {
    /// A scope of a text, if there is room for it.
    pub fn new(alloc: Global, text: &[u8]) -> Option<World>
        ensures { IfSome result IsReady }
    {
        let Ok(layouts) = Layouts::new(alloc) else {
            return None;
        };
        let Area { mut sw, text } = area_with(alloc, 100, text)?;
        match scoped(&mut sw, text, None) {
            Ok(scope) => Some(World {
                sw,
                layouts,
                text,
                scope,
            }),
            Err(_) => None,
        }
    }

    /// What the scope keeps under a name.
    pub fn get(&mut self, name: u32) -> Result<Value, Ended>
        requires { IsReady self.old }
        ensures { OnOk result (IsReady self.new) }
    {
        let mut vault = SilentVault { asked: 0 };
        match get_kept(
            &mut self.sw,
            &mut vault,
            &mut self.layouts,
            self.scope,
            name,
        ) {
            Ok(value) => Ok(value),
            Err(fault) => Err(Some(fault)),
        }
    }

    /// Writes what the scope keeps under a name; of objects only the text may be put.
    pub fn set(&mut self, name: u32, to: Value) -> Result<(), Ended>
        requires { IsReady self.old }
        ensures { OnOk result (IsReady self.new) }
    {
        let to = match to {
            Value::Ref(Some(_)) => Value::Ref(Some(self.text)),
            _ => to,
        };
        let mut vault = SilentVault { asked: 0 };
        match set_kept(
            &mut self.sw,
            &mut vault,
            &mut self.layouts,
            self.scope,
            name,
            to,
        ) {
            Ok(()) => Ok(()),
            Err(fault) => Err(Some(fault)),
        }
    }
}
