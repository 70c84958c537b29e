use heap_ops::heap_places::value::Value;
use row_words::int_of;

/// The index of the type's text, which is the first object of the area.
pub const TEXT_AT: u32 = 1;

/// The value that a word spells.
pub fn value_of(word: &[u8]) -> Option<Value> {
    match word {
        b"true" => Some(Value::Flag(true)),
        b"false" => Some(Value::Flag(false)),
        b"nil" => Some(Value::Ref(None)),
        b"text" => Some(Value::Ref(Some(TEXT_AT))),
        _ => Some(Value::Num(int_of(word)?)),
    }
}
