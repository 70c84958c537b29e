use crate::buffer::Buffer;
use crate::report::Report;
use crate::row::{Row, rows_of};
use anyhow::{Context, Result, ensure};
use ps_port::{DirShelf, Shelf};
use std::alloc::Global;

/// Where the tables stand, and the report of the rows that were compared.
#[derive(Drop)]
pub struct Tables {
    pub alloc: Global,
    shelf: DirShelf<HostRuntime>,
    report: Report,
}

impl Tables {
    /// The tables of the folder that the program runs in, of which no row was compared yet.
    pub fn new(rt: &HostRuntime) -> Result<Tables> {
        let alloc = rt.alloc();
        Ok(Tables {
            alloc,
            shelf: DirShelf::new(rt, alloc)?,
            report: Report::new(alloc),
        })
    }

    /// The rows of the table in this file, at least one.
    pub fn rows(&mut self, file: &str) -> Result<Vec<Row>> {
        let mut table = Vec::new(self.alloc);
        let read = self.shelf.text(file, &mut table);
        ensure!(read.is_ok(), "{file} can't be read");
        let rows = rows_of(self.alloc, &table)?;
        ensure!(!rows.is_empty(), "{file} has no rows");
        Ok(rows)
    }

    /// Takes down whether what was found of a row is what the row wants. Where nothing could be found, it tells of which row.
    pub fn compare(
        &mut self,
        file: &str,
        row: &Row,
        found: Result<String>,
        wanted: &[u8],
    ) -> Result<()> {
        let found = found.context(format_args!("{file}, line {}", row.line))?;
        Ok(self.report.compare(file, row, found.as_bytes(), wanted)?)
    }

    /// The same, where what was found is bytes.
    pub fn compare_bytes(
        &mut self,
        file: &str,
        row: &Row,
        found: Result<Vec<u8>>,
        wanted: &[u8],
    ) -> Result<()> {
        let found = found.context(format_args!("{file}, line {}", row.line))?;
        Ok(self.report.compare(file, row, &found, wanted)?)
    }

    /// The same, where what was found is put together piece by piece.
    pub fn compare_told(
        &mut self,
        file: &str,
        row: &Row,
        found: &Buffer,
        wanted: &[u8],
    ) -> Result<()> {
        let place = format_args!("{file}, line {}: nothing can be told of it", row.line);
        let found = found.told().context(place)?;
        Ok(self.report.compare(file, row, found, wanted)?)
    }

    /// Prints how many rows hold, and what was found of each other one.
    pub fn tell(&self, rt: &HostRuntime) -> Result<()> {
        Ok(self.report.tell(rt)?)
    }
}
