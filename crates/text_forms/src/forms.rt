ghost use Rattle.std.specs.Prelude.{◌≡◌, ◌<◌, ◌+◌, ◌^◌, ◌==◌, if◌then◌else◌, Some, length, codes};
ghost use Rattle.text_forms.specs.Forms.{is_text, forms_of, rows_of, located_in, element_of, one_more, count_in};
ghost use Rattle.text_forms.specs.inside.Steps.{next_place};

use crate::steps::{first_field, form_here, is_field, next_field};

/// What a place of an object holds.
#[derive(Clone, Copy, PartialEq, Eq, Debug)]
pub enum Form {
    /// An int.
    Number,
    /// A bool.
    Flag,
    /// A string, a structure or a table, a vector, or a procedure.
    Reference,
}

/// Where a place lies: numbers and flags in one row, references in the other, each counted from 0.
#[derive(Clone, Copy, PartialEq, Eq, Debug)]
pub struct Place {
    pub form: Form,
    pub index: u32,
}

/// How many places there are in each row.
#[derive(Clone, Copy, PartialEq, Eq, Debug)]
pub struct Rows {
    pub refs: u32,
    pub nums: u32,
}

/// A place, and how many there are in each row.
#[derive(Clone, Copy, PartialEq, Eq, Debug)]
pub struct Located {
    pub place: Place,
    pub rows: Rows,
}

impl Rows {
    const NONE: Rows = Rows { refs: 0, nums: 0 };

    // With a place more.
    fn with(self, form: Form) -> Rows
        requires { count_in form self + 1 < 2 ^ 32 }
        ensures { result ≡ one_more form self }
    {
        let Rows { refs, nums } = self;
        match form {
            Form::Number | Form::Flag => Rows {
                refs,
                nums: nums + 1,
            },
            Form::Reference => Rows {
                refs: refs + 1,
                nums,
            },
        }
    }

    // Where the next place with this form lies.
    fn next(self, form: Form) -> Place
        ensures { result ≡ next_place form self }
    {
        let index = match form {
            Form::Number | Form::Flag => self.nums,
            Form::Reference => self.refs,
        };
        Place { form, index }
    }
}

/// How many places a class text or a scope text names in each row (`docs/formats.md`).
pub fn count_places(text: &[u8]) -> Rows
    requires { length text.now < 2 ^ 32 }
    ensures { result ≡ rows_of (forms_of text.now) }
{
    let mut rows = Rows::NONE;
    let mut rest = first_field(text);
    while is_field(rest) {
        rows = rows.with(form_here(rest));
        rest = next_field(rest);
    }
    rows
}

/// The place that a class text or a scope text names as the one of this number, from 0. None exactly where it names no such place.
pub fn locate(text: &[u8], number: u32) -> Option<Located>
    requires { length text.now < 2 ^ 32 }
    ensures { result ≡ located_in (forms_of text.now) number }
{
    let mut rows = Rows::NONE;
    let mut found = None;
    let mut rest = first_field(text);
    while is_field(rest) {
        let form = form_here(rest);
        found = found_with(found, rows, form, number);
        rows = rows.with(form);
        rest = next_field(rest);
    }
    let place = found?;
    Some(Located { place, rows })
}

// The place of this number, where one place more stands after those that were passed.
fn found_with(found: Option<Place>, passed: Rows, form: Form, number: u32) -> Option<Place>
    requires { passed.refs + passed.nums < 2 ^ 32 }
    ensures { result ≡ (if passed.refs + passed.nums == number then Some (next_place form passed) else found) }
{
    if passed.refs + passed.nums == number {
        Some(passed.next(form))
    } else {
        found
    }
}

/// What the elements of a vector hold whose type has this text.
#[inline]
#[tactic(auto, unfolding(crate::specs::Forms::element_of))]
pub fn element_form(text: &[u8]) -> Form
    ensures { result ≡ element_of text.now }
{
    if is_ints(text) {
        Form::Number
    } else if is_bools(text) {
        Form::Flag
    } else {
        Form::Reference
    }
}

// Byte by byte, which is quicker here than a comparison of slices.
#[inline]
#[tactic(auto, using(crate::proofs::Bytes::other_length, crate::proofs::Bytes::of_four))]
fn is_ints(text: &[u8]) -> bool
    ensures { result ≡ is_text (codes "*int") text.now }
{
    if text.len() != 4 {
        return false;
    }
    if text[0] != b'*' {
        return false;
    }
    if text[1] != b'i' {
        return false;
    }
    if text[2] != b'n' {
        return false;
    }
    text[3] == b't'
}

#[inline]
#[tactic(auto, using(crate::proofs::Bytes::other_length, crate::proofs::Bytes::of_five))]
fn is_bools(text: &[u8]) -> bool
    ensures { result ≡ is_text (codes "*bool") text.now }
{
    if text.len() != 5 {
        return false;
    }
    if text[0] != b'*' {
        return false;
    }
    if text[1] != b'b' {
        return false;
    }
    if text[2] != b'o' {
        return false;
    }
    if text[3] != b'o' {
        return false;
    }
    text[4] == b'l'
}
