ghost use Rattle.std.specs.Prelude.{◌≡◌, ◌≢◌, ◌+◌, ◌-◌, ◌<◌, ◌^◌, [], ◌∷◌, length, replicate, MatchResult};
ghost use Rattle.heap_texts.specs.swizzle.Objects.{size_of};
ghost use Rattle.heap_texts.specs.swizzle.Heap.{IsFull, IsHeld, IsMade, Stands};
ghost use Rattle.heap_texts.specs.Texts.{wanted_of};
ghost use Rattle.heap_places.specs.Filling.{AreNear, Fills, first_words};
ghost use Rattle.heap_places.specs.Places.{IsNear, with_value};
ghost use Rattle.heap_places.specs.inside.Laying.{HasRows, behind, index_in, roomy, rows_in, with_values};

use crate::places::lay_value;
use crate::value::Value;
use crate::words::word_of_int;
use heap_texts::obj_layout::kind::Kind;
use heap_texts::swizzle::fault::SwizzleFault;
use heap_texts::swizzle::swizzle::Swizzle;
use heap_texts::text_forms::forms::Rows;

/// Makes an object of a kind that refers to a text first, and then has these values: ints and bools among its number words, after its home and,
/// where there is one, a lower bound; the others among its references; each in their order. AreaFull exactly where there is no room for its
/// words; then the area stays. The cost is in line with its words.
pub fn make_filled(
    sw: &mut Swizzle,
    kind: Kind,
    text: u32,
    low: Option<i32>,
    values: &[Value],
) -> Result<u32, SwizzleFault>
    requires kind { kind ≢ Kind.Code }
    requires text { IsHeld sw.old text }
    requires near { AreNear sw.old values.now }
    ensures filled { Fills sw.old sw.new kind text low values.now result }
    ensures stands { Stands sw.old sw.new }
{
    sw.sound();
    if values.len() >= sw.size() as usize {
        return Err(SwizzleFault::AreaFull {
            top: sw.top(),
            wanted: words_wanted(low, values.len()),
            size: sw.size(),
        });
    }
    let rows = count_rows(values);
    match make_roomy(sw, kind, text, low, rows) {
        Ok(object) => {
            lay_values(sw, object, first_rows(low), values);
            Ok(object)
        }
        Err(fault) => Err(fault),
    }
}

/// The same with one value so many times.
pub fn make_repeated(
    sw: &mut Swizzle,
    kind: Kind,
    text: u32,
    low: Option<i32>,
    count: u32,
    value: Value,
) -> Result<u32, SwizzleFault>
    requires kind { kind ≢ Kind.Code }
    requires text { IsHeld sw.old text }
    requires near { IsNear sw.old value }
    ensures filled { Fills sw.old sw.new kind text low (replicate count value) result }
    ensures stands { Stands sw.old sw.new }
{
    sw.sound();
    if count >= sw.size() {
        return Err(SwizzleFault::AreaFull {
            top: sw.top(),
            wanted: words_wanted(low, count as usize),
            size: sw.size(),
        });
    }
    let rows = repeated_rows(count, value);
    match make_roomy(sw, kind, text, low, rows) {
        Ok(object) => {
            lay_repeated(sw, object, first_rows(low), count, value);
            Ok(object)
        }
        Err(fault) => Err(fault),
    }
}

// How many words an object of so many values is said to want.
fn words_wanted(low: Option<i32>, count: usize) -> u32
    requires { count < 2 ^ 63 }
    ensures { result ≡ wanted_of (5 + length (first_words low) + count) }
{
    match u32::try_from(5 + first_rows(low).nums as usize + count) {
        Ok(words) => words,
        Err(_) => u32::MAX,
    }
}

// Where the first value of each row stands: after the text, and after the home and the lower bound.
fn first_rows(low: Option<i32>) -> Rows
    ensures refs { result.refs ≡ 1 }
    ensures nums { result.nums ≡ length (first_words low) }
{
    match low {
        Some(_) => Rows { refs: 1, nums: 2 },
        None => Rows { refs: 1, nums: 1 },
    }
}

// How many of the values lie in each row.
fn count_rows(values: &[Value]) -> Rows
    requires { length values.now < 2 ^ 32 }
    ensures { result ≡ rows_in values.now }
{
    let mut rows = Rows { refs: 0, nums: 0 };
    for value in values {
        rows = count_value(rows, *value);
    }
    rows
}

// Counts one more value.
#[inline]
fn count_value(rows: Rows, value: Value) -> Rows
    requires refs { rows.refs + 1 < 2 ^ 32 }
    requires nums { rows.nums + 1 < 2 ^ 32 }
    ensures { result ≡ behind rows value }
{
    match value {
        Value::Num(_) => Rows {
            refs: rows.refs,
            nums: 1 + rows.nums,
        },
        Value::Flag(_) => Rows {
            refs: rows.refs,
            nums: 1 + rows.nums,
        },
        Value::Ref(_) => Rows {
            refs: 1 + rows.refs,
            nums: rows.nums,
        },
    }
}

// How many of so many times a value lie in each row.
fn repeated_rows(count: u32, value: Value) -> Rows
    ensures { result ≡ rows_in (replicate count value) }
{
    match value {
        Value::Ref(_) => Rows {
            refs: count,
            nums: 0,
        },
        _ => Rows {
            refs: 0,
            nums: count,
        },
    }
}

// Makes an object that refers to a text, with room for so many values.
fn make_roomy(
    sw: &mut Swizzle,
    kind: Kind,
    text: u32,
    low: Option<i32>,
    rows: Rows,
) -> Result<u32, SwizzleFault>
    requires kind { kind ≢ Kind.Code }
    requires text { IsHeld sw.old text }
    requires few { rows.refs + rows.nums < 2 ^ 26 }
    ensures made { MatchResult result
        (λ object. IsMade sw.old sw.new object (roomy kind text low rows))
        (λ fault. IsFull sw.old sw.new (size_of (roomy kind text low rows)) fault) }
    ensures stands { Stands sw.old sw.new }
{
    let first = first_rows(low);
    let object = match sw.make(kind, first.refs + rows.refs, first.nums + rows.nums, 0) {
        Ok(object) => object,
        Err(fault) => return Err(fault),
    };
    sw.set_ref(object, 0, Some(text));
    if let Some(low) = low {
        sw.set_num(object, 1, word_of_int(low));
    }
    Ok(object)
}

// Lays values into the rows of an object, from these indexes on.
fn lay_values(sw: &mut Swizzle, object: u32, first: Rows, values: &[Value])
    requires held { IsHeld sw.old object }
    requires rows { HasRows sw.old object first values.now }
    requires near { AreNear sw.old values.now }
    ensures { sw.new ≡ with_values sw.old object first values.now }
{
    let mut next = first;
    for value in values {
        next = lay_next(sw, object, next, *value);
    }
}

// Lays one value so many times.
fn lay_repeated(sw: &mut Swizzle, object: u32, first: Rows, count: u32, value: Value)
    requires held { IsHeld sw.old object }
    requires rows { HasRows sw.old object first (replicate count value) }
    requires near { IsNear sw.old value }
    ensures { sw.new ≡ with_values sw.old object first (replicate count value) }
{
    let mut next = first;
    for _ in 0..count {
        next = lay_next(sw, object, next, value);
    }
}

// Lays one value, and tells where the next ones stand.
#[inline]
fn lay_next(sw: &mut Swizzle, object: u32, next: Rows, value: Value) -> Rows
    requires held { IsHeld sw.old object }
    requires rows { HasRows sw.old object next (value ∷ []) }
    requires near { IsNear sw.old value }
    ensures laid { sw.new ≡ with_value sw.old object (index_in next value) value }
    ensures next { result ≡ behind next value }
    ensures stands { Stands sw.old sw.new }
{
    sw.sound();
    match value {
        Value::Ref(_) => {
            lay_value(sw, object, next.refs, value);
            Rows {
                refs: 1 + next.refs,
                nums: next.nums,
            }
        }
        _ => {
            lay_value(sw, object, next.nums, value);
            Rows {
                refs: next.refs,
                nums: 1 + next.nums,
            }
        }
    }
}
