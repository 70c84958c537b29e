//! What was loaded is read, and stays. The functions here do nothing: each states a law.
ghost use Rattle.std.specs.Prelude.{◌≡◌, ℕ, ◌/◌, ◌%◌, ◌^◌, List, Result, Ok, Some};
ghost use Rattle.ps_base.specs.CodeUnit.{UnitView, unit, ConstantView, ConstantsView};
ghost use Rattle.ps_base.specs.declared.code_unit.Frame.{Frame};
ghost use Rattle.heap_texts.specs.swizzle.Heap.{Heap, IsHeap, object_at, ref_at, top_of};
ghost use Rattle.heap_texts.specs.swizzle.Joint.{name_of};
ghost use Rattle.heap_texts.specs.swizzle.Touch.{Denotes, Keeps};
ghost use Rattle.heap_texts.specs.swizzle.declared.fault.SwizzleFault.{SwizzleFault};
ghost use Rattle.proc_values.specs.Units.{Loads, constants_places, frame_word};
ghost use Rattle.proc_values.specs.Reading.{HasConstant};
ghost use Rattle.proc_values.specs.Loaded.{IsUnit, IsConstant, IsFitUnit, IsFitFrame, CodeStays, constant_numbered};

/// The object that was answered for a unit is that of the unit, and its slots hold the places of the unit's constants.
pub fn loaded_is_read()
    ensures unit { (old new : Heap) (u : UnitView) (at : ℕ) → IsFitUnit u → Loads old new u (Ok at) → IsUnit new at u }
    ensures slots { (old new : Heap) (code : List ℕ) (cs : ConstantsView) (frame : Frame) (at : ℕ) →
        Loads old new (unit code cs frame) (Ok at) → (object_at new at).refs ≡ constants_places (top_of old) cs }
{}

/// A unit stays loaded where texts and code objects stay as they are: as objects are touched, and as others are loaded, whether or not there
/// is room for all of them.
pub fn loaded_stays()
    ensures unit { (old new : Heap) (at : ℕ) (u : UnitView) → CodeStays old new → IsUnit old at u → IsUnit new at u }
    ensures constant { (old new : Heap) (at : ℕ) (c : ConstantView) → CodeStays old new → IsConstant old at c → IsConstant new at c }
    ensures kept { (old new : Heap) → Keeps old new → CodeStays old new }
    ensures more { (old new : Heap) (u : UnitView) (result : Result ℕ SwizzleFault) → IsHeap old → Loads old new u result → Keeps old new }
{}

/// The code object of a unit has each constant of the unit, and what `constant` answers is the constant's object.
pub fn constant_is_read()
    ensures has { (heap : Heap) (code index : ℕ) (bytes : List ℕ) (cs : ConstantsView) (frame : Frame) (c : ConstantView) →
        IsUnit heap code (unit bytes cs frame) → constant_numbered cs index ≡ Some c → HasConstant heap code index }
    ensures read { (old new : Heap) (code index at : ℕ) (bytes : List ℕ) (cs : ConstantsView) (frame : Frame) (c : ConstantView) →
        IsHeap new → IsUnit old code (unit bytes cs frame) → constant_numbered cs index ≡ Some c →
        Keeps old new → Denotes new (Some at) (name_of old (ref_at old code index)) → IsConstant new at c }
{}

/// The word of a frame has its four numbers.
pub fn frame_is_read()
    ensures nums { (frame : Frame) → IsFitFrame frame → frame_word frame % 2 ^ 16 ≡ frame.nums }
    ensures refs { (frame : Frame) → IsFitFrame frame → frame_word frame / 2 ^ 16 % 2 ^ 16 ≡ frame.refs }
    ensures num_params { (frame : Frame) → IsFitFrame frame → frame_word frame / 2 ^ 32 % 2 ^ 16 ≡ frame.num_params }
    ensures ref_params { (frame : Frame) → IsFitFrame frame → frame_word frame / 2 ^ 48 ≡ frame.ref_params }
{}
