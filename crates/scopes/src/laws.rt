//! What was made is read, and the way out is one. The functions here do nothing: each states a law.
ghost use Rattle.std.specs.Prelude.{◌≡◌, ℕ, List, Option, IfSome, None, Some, length};
ghost use Rattle.closures.specs.obj_layout.Stored.{Holds};
ghost use Rattle.closures.specs.obj_layout.declared.reference.Reference.{Reference as Name};
ghost use Rattle.closures.specs.swizzle.Heap.{Heap, IsHeap, IsHeld, IsMade};
ghost use Rattle.closures.specs.swizzle.Joint.{shown_at};
ghost use Rattle.closures.specs.swizzle.Touch.{Denotes};
ghost use Rattle.closures.specs.swizzle.Reading.{joint};
ghost use Rattle.closures.specs.text_forms.Forms.{forms_of, located_in, rows_of};
ghost use Rattle.closures.specs.text_forms.declared.forms.Located.{Located as Found};
ghost use Rattle.closures.specs.heap_places.Shapes.{slot_of};
ghost use Rattle.closures.specs.heap_places.Places.{Holds as HoldsValue};
ghost use Rattle.scopes.specs.Making.{first_value, scope_object};
ghost use Rattle.scopes.specs.Names.{index_of, scope_damage};
ghost use Rattle.scopes.specs.Way.{LeadsOver, way_damage};

use closures::obj_layout::vault::Vault;
use closures::swizzle::swizzle::Swizzle;

/// A scope that was made has the shape that its text tells; its slots denote the text and the parent that it was made of, the way may go through
/// it, and it keeps 0, false or nil under each name.
pub fn scope_is_read()
    ensures shape { (old new : Heap) (at names : ℕ) (parent : Option ℕ) (text : List ℕ) → IsHeap new
        → IsMade old new at (scope_object names parent (rows_of (forms_of text))) → scope_damage (shown_at new at) (rows_of (forms_of text)) ≡ None }
    ensures text { (old new : Heap) (at names : ℕ) (parent : Option ℕ) (text : List ℕ)
        → IsMade old new at (scope_object names parent (rows_of (forms_of text)))
        → IsHeld old names → Denotes new (Some names) (slot_of (shown_at new at) 0) }
    ensures parent { (old new : Heap) (at names : ℕ) (parent : Option ℕ) (text : List ℕ)
        → IsMade old new at (scope_object names parent (rows_of (forms_of text)))
        → IfSome parent (IsHeld old) → Denotes new parent (slot_of (shown_at new at) 1) }
    ensures way { (old new : Heap) (at names : ℕ) (parent : Option ℕ) (text : List ℕ) → IsHeap new
        → IsMade old new at (scope_object names parent (rows_of (forms_of text))) → way_damage (shown_at new at) ≡ None }
    ensures values { (old new : Heap) (at names name : ℕ) (parent : Option ℕ) (text : List ℕ) (located : Found)
        → IsMade old new at (scope_object names parent (rows_of (forms_of text))) → located_in (forms_of text) name ≡ Some located
        → HoldsValue new (shown_at new at) located.place.form (index_of located.place) (first_value located.place.form) }
{}

/// From a scope the way leads over one row of parents of each length, where the store holds at most one object of each PID.
pub fn way_is_one<V: Vault>(sw: &Swizzle, vault: &V)
    ensures { (name : Name) (a b : List Name)
        → ((pid : ℕ) (x y : List ℕ) → Holds (V.outside vault.now) pid x → Holds (V.outside vault.now) pid y → x ≡ y)
        → LeadsOver (joint sw.now (V.outside vault.now)) name a → LeadsOver (joint sw.now (V.outside vault.now)) name b
        → length a ≡ length b → a ≡ b }
{
    let _ = vault;
    sw.sound();
}
