/// A row of a table: the number and the name of a token, an instruction or another case, and how
/// many operands it takes.
#[derive(Clone, Copy)]
pub struct Row {
    pub code: u8,
    pub operands: u8,
    pub name: &'static str,
}
