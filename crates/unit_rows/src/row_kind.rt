use row_words::table_rows::Row;

/// What a row of a table of units is.
#[derive(Clone, Copy)]
pub enum RowKind {
    /// It names instructions.
    Names,
    /// It says what holds for the rows after it.
    Given,
    /// A program, which is run once.
    Run,
    /// A program, which is run with each of its calls of the host failing.
    Calls,
    /// It says what a store holds for the rows after it.
    Store,
    /// A program, which is run beside the store with each of its calls of the store failing.
    Fetches,
}

impl RowKind {
    /// What a row is, by the first word of its head.
    pub fn of(row: &Row) -> Option<RowKind> {
        match row.word(0) {
            b"names" => Some(RowKind::Names),
            b"given" => Some(RowKind::Given),
            b"run" => Some(RowKind::Run),
            b"calls" => Some(RowKind::Calls),
            b"store" => Some(RowKind::Store),
            b"fetches" => Some(RowKind::Fetches),
            _ => None,
        }
    }
}
