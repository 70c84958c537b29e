//! Places of fields, looked up again and again.
ghost use Rattle.std.specs.Prelude.{◌≡◌, true};
ghost use Rattle.heap_ops.specs.heap_texts.Texts.{HoldsText};
ghost use Rattle.heap_ops.specs.Layouts.{AreSo};

use crate::calls::{found, text};
use heap_ops::layouts::Layouts;
use heap_ops::swizzle::swizzle::Swizzle;
use heap_ops::text_forms::forms::{Form, Place};
use std::test::Fail;

fn place(form: Form, index: u32) -> Option<Place> {
    Some(Place { form, index })
}

// The places of two classes, and of fields that they don't have.
fn are_told(layouts: &mut Layouts, sw: &Swizzle, a: u32, b: u32) -> bool
    requires so { AreSo sw.now layouts.old.entries.items }
    requires a { HoldsText sw.now a }
    requires b { HoldsText sw.now b }
    ensures { AreSo sw.now layouts.new.entries.items }
{
    found(layouts, sw, a, 0) == place(Form::Number, 0)
        && found(layouts, sw, a, 1) == place(Form::Reference, 0)
        && found(layouts, sw, a, 2) == None
        && found(layouts, sw, b, 0) == place(Form::Flag, 0)
        && found(layouts, sw, b, 256) == None
}

// That they are told twice, and once more after all was forgotten.
fn are_told_again(layouts: &mut Layouts, sw: &Swizzle, a: u32, b: u32) -> bool
    requires so { AreSo sw.now layouts.old.entries.items }
    requires a { HoldsText sw.now a }
    requires b { HoldsText sw.now b }
{
    let twice = are_told(layouts, sw, a, b) && are_told(layouts, sw, a, b);
    layouts.clear();
    twice && are_told(layouts, sw, a, b)
}

// Two texts of an area.
#[tactic(auto, using(crate::proofs::Staying::text_stands))]
fn are_made(sw: &mut Swizzle) -> bool
    ensures a { result ≡ true → HoldsText sw.new 1 }
    ensures b { result ≡ true → HoldsText sw.new 9 }
{
    text(sw, b"a(int x;string y)") == Ok(1) && text(sw, b"b(bool x)") == Ok(9)
}

#[test]
fn tells_what_the_texts_tell(rt: HostRuntime) -> Result<(), Fail> {
    let mut sw = Swizzle::new(rt.alloc(), 40)?;
    let mut layouts = Layouts::new(rt.alloc())?;
    assert!(rt; are_made(&mut sw));
    assert!(rt; are_told_again(&mut layouts, &sw, 1, 9));
    Ok(())
}
