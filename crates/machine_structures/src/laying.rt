//! The values of a structure's fields, laid out in the order of the fields.
ghost use Rattle.std.specs.Prelude.{◌≡◌, ◌≤◌, ◌+◌, length, vec_capacity};
ghost use Rattle.machine_core.specs.text_forms.Forms.{forms_of, rows_of};
ghost use Rattle.machine_core.specs.Holding.{most_values};
ghost use Rattle.machine_structures.specs.inside.Making.{AreLaid, IsNext, LaysOne};

use machine_core::joint_ops::Value;
use machine_core::jumps::is_one;
use machine_core::stacks::object;
use machine_core::text_forms::forms::{Form, Rows};
use machine_core::text_forms::steps::{first_field, form_here, is_field, next_field};

/// Lays out the value of each field that a class text names, in the order of the fields: of the numbers and of the references of the fields, each row in that
/// order. This takes no memory.
pub(crate) fn lay_fields(text: &[u8], nums: &[i32], refs: &[u32], values: &mut Vec<Value>)
    requires nums { (rows_of (forms_of text.now)).nums ≡ length nums.now }
    requires refs { (rows_of (forms_of text.now)).refs ≡ length refs.now }
    requires few { length nums.now + length refs.now ≤ most_values }
    requires room { most_values ≤ vec_capacity values.old }
    ensures laid { AreLaid (forms_of text.now) nums.now refs.now values.new.items }
    ensures room { most_values ≤ vec_capacity values.new }
{
    values.clear();
    let mut passed = Rows { refs: 0, nums: 0 };
    let mut rest = first_field(text);
    while is_field(rest) {
        passed = lay(values, form_here(rest), nums, refs, passed);
        rest = next_field(rest);
    }
}

// Lays out the value of the next field, which has this form, after so many values of each row.
#[inline(always)]
fn lay(values: &mut Vec<Value>, form: Form, nums: &[i32], refs: &[u32], passed: Rows) -> Rows
    requires next { IsNext form nums.now refs.now passed }
    requires count { length values.old.items ≡ passed.nums + passed.refs }
    requires few { length nums.now + length refs.now ≤ most_values }
    requires room { most_values ≤ vec_capacity values.old }
    ensures lays { LaysOne form nums.now refs.now passed values.old.items values.new.items result }
    ensures room { most_values ≤ vec_capacity values.new }
{
    let Rows {
        refs: place,
        nums: number,
    } = passed;
    match form {
        Form::Number => {
            values.push_reserved(Value::Num(nums[number as usize]));
            Rows {
                refs: place,
                nums: number + 1,
            }
        }
        Form::Flag => {
            values.push_reserved(Value::Flag(is_one(nums[number as usize])));
            Rows {
                refs: place,
                nums: number + 1,
            }
        }
        Form::Reference => {
            values.push_reserved(Value::Ref(object(refs[place as usize])));
            Rows {
                refs: place + 1,
                nums: number,
            }
        }
    }
}
