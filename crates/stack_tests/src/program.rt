use crate::calls::{put_calls_found, put_calls_wanted};
use crate::outcome::{put_run, put_told};
use crate::settings::Settings;
use crate::stored::Stored;
use ps_base::code_unit::CodeUnit;
use unit_rows::row_words::number_of;
use unit_rows::table_rows::anyhow::Result;
use unit_rows::table_rows::{Buffer, Row};
use unit_rows::{RowKind, Store, Table, bytes_of, line_at, unit_of, word_at};

/// What the field of an input begins with.
const INPUT: &[u8] = b"input ";

/// A row that is run, and what holds for it.
#[derive(Clone, Copy)]
pub struct Program<'a> {
    table: Table<'a>,
    pub settings: Settings,
    kind: RowKind,
    pub row: &'a Row,
    store: &'a Store,
}

impl<'a> Program<'a> {
    /// The program of a row of this kind, and the store that it may run beside.
    pub fn new(
        table: Table<'a>,
        settings: Settings,
        kind: RowKind,
        row: &'a Row,
        store: &'a Store,
    ) -> Program<'a> {
        Program {
            table,
            settings,
            kind,
            row,
            store,
        }
    }

    /// Writes what the row wants: what its run returns, the calls of the host where they are counted, and what it outputs.
    pub fn put_wanted(self, out: &mut Buffer) {
        let field = self.row.field(1);
        match self.kind {
            RowKind::Calls => put_calls_wanted(out, field),
            RowKind::Fetches => {
                out.bytes(line_at(field, 0));
                out.put("\n");
                out.bytes(line_at(field, 1));
                put_line_told(out, None, line_at(field, 2));
            }
            _ => self.put_run_wanted(out, field),
        }
    }

    // Writes what this field wants of a program that is run once.
    fn put_run_wanted(self, out: &mut Buffer, field: &[u8]) {
        out.bytes(line_at(field, 0));
        match self.settings.failing {
            None => put_line_told(out, None, line_at(field, 1)),
            Some(_) => {
                // a row without the number of its calls wants more than there are
                let calls = number_of(word_at(line_at(field, 1), 1)).unwrap_or(u64::MAX);
                put_line_told(out, Some(calls), line_at(field, 2));
            }
        }
    }

    /// Writes what is found of the row.
    pub fn put_found(self, out: &mut Buffer) -> Result<()> {
        let frame = self.settings.frame();
        let unit = unit_of(out.alloc(), self.table, frame, self.settings.cut, self.row)?;
        self.put_unit(out, &unit);
        Ok(())
    }

    // Writes what is found of its unit.
    fn put_unit(self, out: &mut Buffer, unit: &CodeUnit) {
        match self.kind {
            RowKind::Calls => put_calls_found(out, self.settings, unit, self.row.field(1)),
            _ => self.put_run_found(out, unit),
        }
    }

    // Writes what is found of its unit, which is run with its input.
    fn put_run_found(self, out: &mut Buffer, unit: &CodeUnit) {
        match bytes_of(out.alloc(), self.input()) {
            Ok(input) => match self.settings.scope {
                Some(scope) => self.put_stored(out, unit, &input, scope),
                None => put_run(out, self.settings, unit, &input, self.settings.failing),
            },
            Err(_) => out.fail(),
        }
    }

    // The same beside the store, in the scope that is the object of this place.
    fn put_stored(self, out: &mut Buffer, unit: &CodeUnit, input: &[u8], scope: u64) {
        let stored = Stored {
            unit,
            input,
            settings: self.settings,
            store: self.store,
            // where the store has no such object, there is none of this PID
            scope: self.store.pid(scope).unwrap_or(u64::MAX),
        };
        match self.kind {
            RowKind::Fetches => stored.put_fetches(out),
            _ => stored.put_run(out),
        }
    }

    // The line of its input, or of none.
    fn input(self) -> &'a [u8] {
        for field in &self.row.fields {
            if let Some(line) = field.strip_prefix(INPUT) {
                return line;
            }
        }
        &[]
    }
}

// Writes the calls, where they are counted, and what is output, which a line spells.
fn put_line_told(out: &mut Buffer, calls: Option<u64>, line: &[u8]) {
    match bytes_of(out.alloc(), line) {
        Ok(told) => put_told(out, calls, &told),
        Err(_) => out.fail(),
    }
}
