use crate::program::Program;
use crate::settings::{PLAIN, Settings};
use unit_rows::table_rows::anyhow::{Context, Result};
use unit_rows::table_rows::{Buffer, Row, Tables};
use unit_rows::{RowKind, Store, Table, store_of};

/// Compares each row of a file with what is found of it.
pub fn compare_rows(tables: &mut Tables, instructions: &[u8], file: &str) -> Result<()> {
    let rows = tables.rows(file)?;
    compare_all(tables, instructions, file, &rows)
}

// Compares each of these rows.
fn compare_all(tables: &mut Tables, instructions: &[u8], file: &str, rows: &[Row]) -> Result<()> {
    let mut names: &[u8] = &[];
    let mut constants: &[u8] = &[];
    let mut given = PLAIN;
    let mut store = Store::new(tables.alloc);
    for row in rows {
        match kind_of(file, row)? {
            RowKind::Names => names = row.field(0),
            RowKind::Given => {
                constants = row.field(0);
                given = settings_of(PLAIN, file, row)?;
            }
            RowKind::Store => {
                let table = Table::new(instructions, names, constants);
                store = store_of(tables.alloc, table.lexicon, row.field(0))?;
            }
            kind => {
                let table = Table::new(instructions, names, constants);
                compare_row(tables, file, Program::new(table, given, kind, row, &store))?;
            }
        }
    }
    Ok(())
}

// What a row is.
fn kind_of(file: &str, row: &Row) -> Result<RowKind> {
    RowKind::of(row).context(format_args!("{file}, line {}: no such row", row.line))
}

// The settings of a row, where these hold.
fn settings_of(given: Settings, file: &str, row: &Row) -> Result<Settings> {
    let place = format_args!("{file}, line {}: no such setting", row.line);
    given.changed_by(&row.head).context(place)
}

// Compares a row that is run, with the settings of its head in place of those that are given.
fn compare_row(tables: &mut Tables, file: &str, mut program: Program<'_>) -> Result<()> {
    program.settings = settings_of(program.settings, file, program.row)?;
    compare(tables, file, program)
}

// Compares a row that is run.
fn compare(tables: &mut Tables, file: &str, program: Program<'_>) -> Result<()> {
    let mut found = Buffer::new(tables.alloc);
    let mut wanted = Buffer::new(tables.alloc);
    compare_in(tables, file, program, &mut found, &mut wanted)
}

// The same, where what is found and what is wanted are put together in these.
fn compare_in(
    tables: &mut Tables,
    file: &str,
    program: Program<'_>,
    found: &mut Buffer,
    wanted: &mut Buffer,
) -> Result<()> {
    let row = program.row;
    program.put_wanted(wanted);
    let put = program.put_found(found);
    put.context(format_args!("{file}, line {}", row.line))?;
    let place = format_args!("{file}, line {}: it wants what can't be told", row.line);
    let wanted = wanted.told().context(place)?;
    tables.compare_told(file, row, found, wanted)
}
