use crate::value::value_of;
use row_words::{Words, index_of};
use scopes::heap_places::value::Value;

/// What is done with a scope that was made.
#[derive(Clone, Copy)]
pub enum Step {
    /// What it keeps under the name of this number.
    Get(u32),
    Set(u32, Value),
}

impl Step {
    /// The step that stands in a line, if one does.
    pub fn of_line(line: &[u8]) -> Option<Step> {
        let mut words = Words::of(line);
        match words.word() {
            b"get" => Some(Step::Get(index_of(words.rest())?)),
            b"set" => Some(Step::Set(words.index()?, value_of(words)?)),
            _ => None,
        }
    }
}
