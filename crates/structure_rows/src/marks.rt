//! How many fields a class has in each row, and which of its numbers are bools.
ghost use Rattle.std.specs.Prelude.{◌≡◌, ◌<◌, ◌+◌, ◌^◌, ◌/◌, ◌%◌, ◌==◌, MatchOption, length};
ghost use Rattle.heap_places.specs.text_forms.Forms.{forms_of};
ghost use Rattle.structure_rows.specs.Marks.{AreFew, HasTooMany, TellRows};
ghost use Rattle.structure_rows.specs.inside.Counting.{CountsField, IsFullFor};

use heap_places::text_forms::forms::{Form, Rows};
use heap_places::text_forms::steps::{first_field, form_here, is_field, next_field};

/// Which of the fields of a class that are numbers are bools: a bit for each, the lowest for the first.
#[derive(Clone, Copy)]
pub struct FlagSet {
    pub bits: u64,
}

/// How many fields of a class lie in each row, and which of those among the numbers are bools.
#[derive(Clone, Copy)]
pub struct FieldRows {
    pub rows: Rows,
    pub flags: FlagSet,
}

// How many fields of a class may be numbers, and how many references.
const MOST_NUMS: u32 = 64;

const MOST_REFS: u32 = 65_535;

/// Those of a class without fields.
pub const NO_FIELDS: FieldRows = FieldRows {
    rows: Rows { refs: 0, nums: 0 },
    flags: FlagSet { bits: 0 },
};

impl FlagSet {
    /// Whether the first field is a bool.
    #[inline(always)]
    pub fn is_first(self) -> bool
        ensures { result ≡ (self.bits % 2 == 1) }
    {
        self.bits % 2 == 1
    }

    /// The set of the fields after the first.
    #[inline(always)]
    pub fn behind(self) -> FlagSet
        ensures { result.bits ≡ self.bits / 2 }
    {
        FlagSet {
            bits: self.bits / 2,
        }
    }

    // With the field after so many others.
    fn with(self, count: u32) -> FlagSet
        requires few { count < 64 }
        requires below { self.bits < 2 ^ count }
        ensures { result.bits ≡ self.bits + 2 ^ count }
    {
        FlagSet {
            bits: self.bits + (1 << count),
        }
    }
}

/// How many fields a class text names in each row, and which of the numbers are bools. None exactly where more than 64 are numbers, or more than
/// 65,535 references.
pub fn count_fields(text: &[u8]) -> Option<FieldRows>
    requires { length text.now < 2 ^ 32 }
    ensures { MatchOption result (HasTooMany (forms_of text.now)) (λ fields. TellRows fields (forms_of text.now)) }
{
    let mut fields = NO_FIELDS;
    let mut rest = first_field(text);
    while is_field(rest) {
        fields = match with_field(fields, form_here(rest)) {
            Some(more) => more,
            None => return None,
        };
        rest = next_field(rest);
    }
    Some(fields)
}

// With one field more; None where its row has no room for it.
fn with_field(fields: FieldRows, form: Form) -> Option<FieldRows>
    requires few { AreFew fields.rows }
    requires below { fields.flags.bits < 2 ^ fields.rows.nums }
    ensures { MatchOption result (IsFullFor form fields.rows) (CountsField fields form) }
{
    let Rows { refs, nums } = fields.rows;
    match form {
        Form::Reference => {
            if refs >= MOST_REFS {
                return None;
            }
            Some(FieldRows {
                rows: Rows {
                    refs: refs + 1,
                    nums,
                },
                flags: fields.flags,
            })
        }
        Form::Number => with_number(fields, fields.flags),
        Form::Flag => {
            if nums >= MOST_NUMS {
                return None;
            }
            with_number(fields, fields.flags.with(nums))
        }
    }
}

// With one number more, and these marks; None where there are 64.
fn with_number(fields: FieldRows, flags: FlagSet) -> Option<FieldRows>
    requires few { AreFew fields.rows }
    ensures { MatchOption result (fields.rows.nums ≡ 64) (λ more. (more.rows ≡ record (fields.rows) { nums = fields.rows.nums + 1 }) × (more.flags ≡ flags) × (fields.rows.nums < 64)) }
{
    let Rows { refs, nums } = fields.rows;
    if nums >= MOST_NUMS {
        return None;
    }
    Some(FieldRows {
        rows: Rows {
            refs,
            nums: nums + 1,
        },
        flags,
    })
}
