//! What was made is read. The functions here do nothing: each states a law.
ghost use Rattle.std.specs.Prelude.{◌≡◌, ℕ, Option, IfSome, None, Some};
ghost use Rattle.heap_places.specs.swizzle.Heap.{Heap, IsHeld, IsMade};
ghost use Rattle.heap_places.specs.swizzle.Joint.{shown_at};
ghost use Rattle.heap_places.specs.swizzle.Touch.{Denotes};
ghost use Rattle.heap_places.specs.Shapes.{slot_of};
ghost use Rattle.closures.specs.Closures.{closure_damage, closure_of};

/// A closure that was made isn't damaged, and its slots denote the code and the scope that it was made of.
pub fn closure_is_read()
    ensures shape { (old new : Heap) (at code : ℕ) (scope : Option ℕ) → IsMade old new at (closure_of code scope)
        → closure_damage (shown_at new at) ≡ None }
    ensures code { (old new : Heap) (at code : ℕ) (scope : Option ℕ) → IsMade old new at (closure_of code scope) → IsHeld old code
        → Denotes new (Some code) (slot_of (shown_at new at) 0) }
    ensures scope { (old new : Heap) (at code : ℕ) (scope : Option ℕ) → IsMade old new at (closure_of code scope) → IfSome scope (IsHeld old)
        → Denotes new scope (slot_of (shown_at new at) 1) }
{}
