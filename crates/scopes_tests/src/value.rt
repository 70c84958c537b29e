use row_words::table_rows::Buffer;
use row_words::{Words, index_of, int_of};
use scopes::heap_places::value::Value;

/// The value that all words spell that are left, if they spell one.
pub fn value_of(mut words: Words<'_>) -> Option<Value> {
    let word = words.word();
    match (word, words.rest()) {
        (b"num", int) => Some(Value::Num(int_of(int)?)),
        (b"true", b"") => Some(Value::Flag(true)),
        (b"false", b"") => Some(Value::Flag(false)),
        (b"nil", b"") => Some(Value::Ref(None)),
        (b"ref", index) => Some(Value::Ref(Some(index_of(index)?))),
        _ => None,
    }
}

/// Writes a value.
pub fn put_value(out: &mut Buffer, value: Value) {
    out.put("value ");
    match value {
        Value::Num(int) => {
            out.put("num ");
            out.int(int);
        }
        Value::Flag(true) => out.put("true"),
        Value::Flag(false) => out.put("false"),
        Value::Ref(None) => out.put("nil"),
        Value::Ref(Some(index)) => {
            out.put("ref ");
            out.number(u64::from(index));
        }
    }
}
