//! What is so of every type and every class, whatever the calls do.

ghost use Rattle.std.specs.Prelude.{◌≡◌, List, ℕ};
ghost use Rattle.ps_base.specs.TyView.{TyView};
ghost use Rattle.ps_type_text.specs.Texts.{type_text, class_text, Field, IsNamed};

/// Two types with the same text are the same.
pub fn type_texts_tell_types_apart()
    ensures { (a b : TyView) → type_text a ≡ type_text b → a ≡ b }
{}

/// Two classes with the same text have the same name and the same fields, where their names are names of a text.
pub fn class_texts_tell_classes_apart()
    ensures { (name other : List ℕ) (fields others : List Field) → IsNamed name fields → IsNamed other others → class_text name fields ≡ class_text other others → (name ≡ other) × (fields ≡ others) }
{}
