ghost use Rattle.std.specs.Prelude.{ℕ, List, Some};
ghost use Rattle.ps_meaning.specs.ps_base.TyView.{TyView};
ghost use Rattle.ps_meaning.specs.ps_program.Node.{Node};
ghost use Rattle.ps_type_text.specs.Texts.{Field};
ghost use Rattle.ps_meaning.specs.ps_typing.WellTyped.{Env, Free, IsTyped};
ghost use Rattle.ps_meaning.specs.Meaning.{Frame, State};
ghost use Rattle.ps_meaning.specs.Evaluation.{Context, eval};
ghost use Rattle.ps_meaning.specs.Calls.{context};
ghost use Rattle.ps_soundness.specs.Running.{Runs, RunsIn};
ghost use Rattle.ps_soundness.specs.Shapes.{AreLocals, AreScopes, ComesTo, ComesToInside, IsTypedHeld};
ghost use Rattle.ps_soundness.specs.Free.{AreBelow};

use ps_type_text::{class_texts_tell_classes_apart, type_texts_tell_types_apart};

/// A clause of a type that is evaluated where the heap and the locals in scope are typed yields a value of its type, and leaves them typed.
pub fn values_have_their_types()
    ensures { (c : Context) (env : Env) (free behind : Free) (clause : Node) (ty : TyView) (frame : Frame) (state : State)
        → IsTyped env free clause ty behind → Runs clause → AreBelow env free → IsTypedHeld state.store.held
        → AreLocals state.store.held.objects frame env.locals → ComesTo state.store.held.objects env ty (eval c clause frame state) }
{
    type_texts_tell_types_apart();
    class_texts_tell_classes_apart();
}

/// So does a clause that may also make scopes, name what they keep, make and call procedures and read the input, however many turns may be left and
/// calls are round it, where each scope round it has all the names of its text, and those in scope hold values of their types. These still do after it.
pub fn values_in_scopes_have_their_types()
    ensures { (turns depth : ℕ) (wholes : List (List Field)) (env : Env) (free behind : Free) (clause : Node) (ty : TyView) (frame : Frame) (state : State)
        → IsTyped env free clause ty behind → RunsIn (Some wholes) clause → AreBelow env free → IsTypedHeld state.store.held
        → AreLocals state.store.held.objects frame env.locals → AreScopes state.store.held.objects frame.scope wholes env.scopes
        → ComesToInside state.store.held.objects wholes env ty (eval (context turns depth) clause frame state) }
{
    type_texts_tell_types_apart();
    class_texts_tell_classes_apart();
}
