//! Values that denote no object but the type's text.
ghost use Rattle.std.specs.Prelude.{IfSome};
ghost use Rattle.heap_ops.specs.heap_texts.Texts.{HoldsText};
ghost use Rattle.heap_ops.specs.heap_places.Places.{IsNear};
ghost use Rattle.heap_ops.specs.heap_places.Filling.{AreNear};

use crate::value::value_of;
use heap_ops::heap_places::value::Value;
use heap_ops::swizzle::swizzle::Swizzle;
use row_words::Words;
use std::alloc::Global;

/// The value that a word spells, where the object that it denotes, if it denotes one, is this text.
pub fn near(sw: &Swizzle, text: u32, word: &[u8]) -> Option<Value>
    requires { HoldsText sw.now text }
    ensures { IfSome result (IsNear sw.now) }
{
    match value_of(word) {
        Some(Value::Ref(Some(at))) if at != text => None,
        value => value,
    }
}

/// Such values, which all words spell that are left.
pub fn all_near(alloc: Global, sw: &Swizzle, text: u32, words: Words<'_>) -> Option<Vec<Value>>
    requires { HoldsText sw.now text }
    ensures { IfSome result (λ list. AreNear sw.now list.items) }
{
    let mut list = Vec::new(alloc);
    for word in words.rest().split(|byte| *byte == b' ') {
        add_near(&mut list, sw, text, word)?;
    }
    Some(list)
}

// Puts such a value after the others.
#[tactic(auto, using(crate::proofs::NearLaws::near_more))]
fn add_near(list: &mut Vec<Value>, sw: &Swizzle, text: u32, word: &[u8]) -> Option<()>
    requires text { HoldsText sw.now text }
    requires near { AreNear sw.now list.old.items }
    ensures { IfSome result (λ _. AreNear sw.now list.new.items) }
{
    let value = near(sw, text, word)?;
    match list.push(value) {
        Ok(()) => Some(()),
        Err(_) => None,
    }
}
