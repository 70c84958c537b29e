use crate::row::Row;
use std::alloc::{AllocError, Global};
use std::io::Error;

/// What the rows of tables returned: how many hold, and a text that says of each other one what was found in place of what.
#[derive(Drop)]
pub struct Report {
    held: usize,
    others: Vec<u8>,
}

impl Report {
    /// No row yet.
    pub fn new(alloc: Global) -> Report {
        Report {
            held: 0,
            others: Vec::new(alloc),
        }
    }

    /// Takes down whether what was found of a row of this file is what the row wants.
    pub fn compare(
        &mut self,
        file: &str,
        row: &Row,
        found: &[u8],
        wanted: &[u8],
    ) -> Result<(), AllocError> {
        if found == wanted {
            self.held = self.held.saturating_add(1);
            return Ok(());
        }
        self.say(b"== differs: ", file.as_bytes())?;
        self.say(b", the row with these fields:\n", row.field(0))?;
        self.say(b"\n-- found:\n", found)?;
        self.say(b"\n-- wanted:\n", wanted)?;
        self.others.push(b'\n')?;
        Ok(())
    }

    /// Prints how many rows hold, and what was found of each other one.
    pub fn tell(&self, rt: &impl Print) -> Result<(), Error> {
        println!(rt; "{} rows hold", self.held)?;
        if let Ok(others) = str::from_utf8(&self.others) {
            print!(rt; "{}", others)?;
        } else {
            println!(rt; "others don't, and what was found of one is no text")?;
        }
        Ok(())
    }

    /// How many rows hold.
    pub fn held(&self) -> usize {
        self.held
    }

    /// What is said of the rows that don't hold.
    pub fn others(&self) -> &[u8] {
        self.others.as_slice()
    }

    fn say(&mut self, what: &[u8], text: &[u8]) -> Result<(), AllocError> {
        self.others.extend_from_slice(what)?;
        self.others.extend_from_slice(text)
    }
}
