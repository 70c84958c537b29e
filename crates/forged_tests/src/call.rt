use row_words::{Words, parted};

/// What is done with the object of a PID.
#[derive(Clone, Copy)]
pub enum Operation {
    /// It is fetched.
    Touch,
    /// Whether its bytes are those of the text.
    Text,
    /// Whether it is a structure of the class with the text.
    Class,
    /// Its field of a number, by the class with the text.
    Field,
    SetField,
    Low,
    High,
    /// Its element at a subscript.
    Element,
    SetElement,
    /// Its constant of a number.
    Constant,
    /// Its instruction at an offset in bytes.
    Instr,
}

// The operations by their names.
const OPERATIONS: [(&[u8], Operation); 11] = [
    (b"touch", Operation::Touch),
    (b"text", Operation::Text),
    (b"class", Operation::Class),
    (b"field", Operation::Field),
    (b"set_field", Operation::SetField),
    (b"low", Operation::Low),
    (b"high", Operation::High),
    (b"element", Operation::Element),
    (b"set_element", Operation::SetElement),
    (b"constant", Operation::Constant),
    (b"instruction", Operation::Instr),
];

/// A call: what is done, the PID of the object, which comes first, the words after it, and the text in the next line.
#[derive(Clone, Copy)]
pub struct Call<'a> {
    pub operation: Operation,
    pub pid: u64,
    pub words: Words<'a>,
    pub text: &'a [u8],
}

impl<'a> Call<'a> {
    /// The call that stands in a field, if one does.
    pub fn of_field(field: &'a [u8]) -> Option<Call<'a>> {
        let (line, text) = parted(field, b'\n');
        let mut words = Words::of(line);
        let operation = operation_called(words.word())?;
        let pid = words.number()?;
        Some(Call {
            operation,
            pid,
            words,
            text,
        })
    }
}

fn operation_called(name: &[u8]) -> Option<Operation> {
    for (known, operation) in &OPERATIONS {
        if *known == name {
            return Some(*operation);
        }
    }
    None
}
