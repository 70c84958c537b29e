//! What is so of every text and of every list of places, whatever the calls do.

ghost use Rattle.std.specs.Prelude.{◌≡◌, ◌≤◌, ◌+◌, ◌↔◌, ℕ, List, length, map, Some, None};
ghost use Rattle.ps_type_text.specs.ps_base.TyView.{TyView, Vector};
ghost use Rattle.ps_type_text.specs.Texts.{type_text, class_text, Field, IsNamed};
ghost use Rattle.text_forms.specs.declared.forms.Form.{Form};
ghost use Rattle.text_forms.specs.declared.forms.Located.{Located};
ghost use Rattle.text_forms.specs.Classes.{form_of_type, form_of_field};
ghost use Rattle.text_forms.specs.Forms.{forms_of, form_in, element_of, rows_of, located_in};
ghost use Rattle.text_forms.specs.Places.{IsPlaceIn, AreOnePlace};
ghost use Rattle.text_forms.specs.Strict.{IsClassText, IsVectorText, IsFormAt};

/// The text of a class tells what its fields hold, each in its order.
pub fn class_text_tells_forms()
    ensures { (name : List ℕ) (fields : List Field) → IsNamed name fields → forms_of (class_text name fields) ≡ map form_of_field fields }
{}

/// The text of a vector's type tells what its elements hold.
pub fn vector_text_tells_form()
    ensures { (element : TyView) → element_of (type_text (Vector element)) ≡ form_of_type element }
{}

/// A text tells of no more places than it has bytes.
pub fn places_are_few()
    ensures { (text : List ℕ) → length (forms_of text) ≤ length text }
{}

/// The place of a number is one of those that the text names, and lies within its row.
pub fn place_lies_in_its_row()
    ensures { (forms : List Form) (number : ℕ) (located : Located) → located_in forms number ≡ Some located → IsPlaceIn forms number located }
{}

/// Exactly the numbers below the count of the places have one.
pub fn numbers_beyond_have_no_place()
    ensures { (forms : List Form) (number : ℕ) → (located_in forms number ≡ None) ↔ (length forms ≤ number) }
{}

/// Each place lies in one of the two rows.
pub fn rows_hold_all_places()
    ensures { (forms : List Form) → length forms ≡ (rows_of forms).refs + (rows_of forms).nums }
{}

/// Two numbers have two places: they lie in different rows, or apart in one.
pub fn places_lie_apart()
    ensures { (forms : List Form) (a b : ℕ) (x y : Located) → located_in forms a ≡ Some x → located_in forms b ≡ Some y → AreOnePlace x.place y.place → a ≡ b }
{}

/// What a place of a class or of a scope holds by the strict reading is what the text tells.
pub fn class_text_holds_forms()
    ensures { (text : List ℕ) (number : ℕ) (form : Form) → IsClassText text → IsFormAt text number form ↔ (form_in (forms_of text) number ≡ Some form) }
{}

/// What the elements of a vector hold by the strict reading, under number 0, is what the text tells.
pub fn vector_text_holds_form()
    ensures { (text : List ℕ) (number : ℕ) (form : Form) → IsVectorText text → IsFormAt text number form ↔ ((number ≡ 0) × (form ≡ element_of text)) }
{}

/// No text of a class is one of a vector's type.
pub fn class_texts_are_no_vector_texts()
    ensures { (text : List ℕ) → IsClassText text → IsVectorText text → ⊥ }
{}

/// A number has one form at most by the strict reading.
pub fn forms_at_a_number_are_one()
    ensures { (text : List ℕ) (number : ℕ) (a b : Form) → IsFormAt text number a → IsFormAt text number b → a ≡ b }
{}
