//! What the text of a class, of a scope or of a vector's type tells of the places of its objects (`docs/formats.md`): `forms` reads
//! what the texts of the language tell, and answers something for any bytes; `strict` refuses all but the texts of the language.
#![tactic(auto)]

pub mod forms;
mod laws;
pub mod steps;
pub mod strict;

pub use laws::{
    class_text_holds_forms, class_text_tells_forms, class_texts_are_no_vector_texts,
    forms_at_a_number_are_one, numbers_beyond_have_no_place, place_lies_in_its_row, places_are_few,
    places_lie_apart, rows_hold_all_places, vector_text_holds_form, vector_text_tells_form,
};
