use crate::lexicon::Lexicon;

/// What holds for a row of a table: the words of its code, and the lines of its constants.
#[derive(Clone, Copy)]
pub struct Table<'a> {
    pub lexicon: Lexicon<'a>,
    pub constants: &'a [u8],
}

impl<'a> Table<'a> {
    /// The table with these instructions, names and constants, each with a line for each.
    pub fn new(instructions: &'a [u8], names: &'a [u8], constants: &'a [u8]) -> Table<'a> {
        let lexicon = Lexicon {
            instructions,
            names,
        };
        Table { lexicon, constants }
    }
}
