ghost use Rattle.std.specs.Prelude.{◌≡◌, ◌<◌, ◌^◌, ◌≤◌, ◌↔◌, ℕ, false, length, MatchOption, IsTrue, Some, None, if◌then◌else◌, ◌==◌};
ghost use Rattle.text_forms.specs.Forms.{element_of};
ghost use Rattle.text_forms.specs.Strict.{IsFormAt, IsVectorText, IsClassText, deepest};
ghost use Rattle.text_forms.specs.inside.Reading.{Leaves, AreSame, BeginsWord, BeginsBasic, BeginsType, BeginsParameters, BeginsResult, is_star};
ghost use Rattle.text_forms.specs.inside.Reading.{BeginsName, BeginsField, AreFields, drop_name};
ghost use Rattle.text_forms.specs.declared.forms.Form.{Form};
ghost use Rattle.ps_type_text.specs.Texts.{is_name_byte};

use crate::forms::{Form, element_form, locate};

/// How many types of procedures may stand inside one another.
pub const DEEPEST: u32 = 128;

/// What the place of this number, from 0, holds by the text of a class or of a scope; by that of a vector's type, what each
/// element does, under number 0. None exactly where the text is none of the language's (`docs/formats.md`), where types of
/// procedures stand more than 128 deep inside one another in it, or where it names no such place.
pub fn form_at(text: &[u8], number: u32) -> Option<Form>
    requires { length text.now < 2 ^ 32 }
    ensures { MatchOption result ((form : Form) → IsFormAt text.now number form → ⊥) (IsFormAt text.now number) }
{
    if is_vector_text(text) {
        return element_at(text, number);
    }
    if !is_class_text(text) {
        return None;
    }
    let located = locate(text, number)?;
    Some(located.place.form)
}

// What the elements hold, under number 0.
fn element_at(text: &[u8], number: u32) -> Option<Form>
    ensures { result ≡ (if number == 0 then Some (element_of text.now) else None) }
{
    if number == 0 {
        Some(element_form(text))
    } else {
        None
    }
}

fn is_vector_text(text: &[u8]) -> bool
    ensures { IsTrue result ↔ IsVectorText text.now }
{
    let Some(element) = behind_word(text, b"*") else {
        return false;
    };
    match behind_type(element, DEEPEST) {
        Some(rest) => rest.is_empty(),
        None => false,
    }
}

fn is_class_text(text: &[u8]) -> bool
    ensures { IsTrue result ↔ IsClassText text.now }
{
    let Some(rest) = behind_name(text) else {
        return false;
    };
    match behind_word(rest, b"(") {
        Some(fields) => are_fields(fields),
        None => false,
    }
}

// Whether the fields of a class and the bracket that closes are all that is left.
fn are_fields(rest: &[u8]) -> bool
    ensures { IsTrue result ↔ AreFields deepest rest.now }
{
    let Some(first) = behind_field(rest) else {
        return rest == b")".as_slice();
    };
    let mut left = first;
    while let Some(next) = behind_word(left, b";") {
        let Some(further) = behind_field(next) else {
            return false;
        };
        left = further;
    }
    left == b")".as_slice()
}

// What stands after a field of a class.
fn behind_field(rest: &[u8]) -> Option<&[u8]>
    ensures { Leaves (BeginsField deepest rest.now) result }
{
    let blank = behind_type(rest, DEEPEST)?;
    let name = behind_word(blank, b" ")?;
    behind_name(name)
}

// What stands after a name.
fn behind_name(rest: &[u8]) -> Option<&[u8]>
    ensures { Leaves (BeginsName rest.now) result }
{
    match rest.first() {
        Some(first) if first.is_ascii_alphabetic() => Some(behind_name_bytes(rest)),
        _ => None,
    }
}

// What stands after letters, digits and dots.
fn behind_name_bytes(rest: &[u8]) -> &[u8]
    ensures { result.now ≡ drop_name rest.now }
{
    for (place, byte) in rest.iter().enumerate() {
        if !is_name_byte(*byte) {
            return rest.split_at(place).1;
        }
    }
    &[]
}

#[tactic(auto, unfolding(ps_type_text::specs::Texts::is_name_byte))]
fn is_name_byte(byte: u8) -> bool
    ensures { result ≡ is_name_byte byte }
{
    byte.is_ascii_alphanumeric() || byte == b'.'
}

// What stands after the type of a value. The recursion is as deep as types of procedures may stand inside one another.
#[cycle(reading)]
fn behind_type(rest: &[u8], depth: u32) -> Option<&[u8]>
    ensures { Leaves (BeginsType depth rest.now) result }
{
    let base = behind_stars(rest);
    if let Some(left) = behind_basic(base) {
        return Some(left);
    }
    let inside = behind_word(base, b"proc(")?;
    if depth == 0 {
        return None;
    }
    behind_parameters(inside, depth - 1)
}

// What stands after the parameters of a procedure, what it gives and the bracket that closes.
#[cycle(reading)]
fn behind_parameters(rest: &[u8], depth: u32) -> Option<&[u8]>
    ensures { Leaves (BeginsParameters depth rest.now) result }
{
    let Some(first) = behind_type(rest, depth) else {
        return behind_result(rest, depth);
    };
    let mut left = first;
    while let Some(next) = behind_word(left, b",") {
        left = behind_type(next, depth)?;
    }
    behind_result(left, depth)
}

// What stands after what a procedure gives, if anything, and the bracket that closes.
#[cycle(reading)]
fn behind_result(rest: &[u8], depth: u32) -> Option<&[u8]>
    ensures { Leaves (BeginsResult depth rest.now) result }
{
    if let Some(left) = behind_word(rest, b")") {
        return Some(left);
    }
    let gives = behind_word(rest, b"->")?;
    let left = behind_type(gives, depth)?;
    behind_word(left, b")")
}

// What stands after the stars of vectors' types.
fn behind_stars(rest: &[u8]) -> &[u8]
    ensures same { (depth : ℕ) → AreSame (BeginsType depth rest.now) (BeginsType depth result.now) }
    ensures no_more { is_star result.now ≡ false }
{
    let mut left = rest;
    while let Some(element) = behind_word(left, b"*") {
        left = element;
    }
    left
}

// What stands after a basic type.
fn behind_basic(rest: &[u8]) -> Option<&[u8]>
    ensures { Leaves (BeginsBasic rest.now) result }
{
    if let Some(left) = behind_word(rest, b"int") {
        return Some(left);
    }
    if let Some(left) = behind_word(rest, b"bool") {
        return Some(left);
    }
    if let Some(left) = behind_word(rest, b"string") {
        return Some(left);
    }
    behind_word(rest, b"pntr")
}

// What stands after this word.
fn behind_word<'a>(rest: &'a [u8], word: &[u8]) -> Option<&'a [u8]>
    ensures { Leaves (BeginsWord word.now rest.now) result }
{
    rest.strip_prefix(word)
}
