/// An instruction: its code, and the letters of its operands, parted by blanks.
#[derive(Clone, Copy)]
pub struct Instruction<'a> {
    pub code: u8,
    pub operands: &'a [u8],
}
