//! Checks the printer on the programs of tables, each with what it is printed as. It prints how many rows hold, and of each other one what
//! was found.
#![tactic(auto)]

mod printing;

use crate::printing::{printed_again, printed_length};
use anyhow::Result;
use table_rows::Tables;

// Programs, each with what it is printed as.
const PROGRAMS: [&str; 2] = ["programs.rows", "database_programs.rows"];

// Chains of so many links, each with the length of what it is printed as.
const CHAINS: &str = "chains.rows";

fn main(rt: HostRuntime) -> Result<()> {
    let mut tables = Tables::new(&rt)?;
    for file in &PROGRAMS {
        compare_programs(&mut tables, file)?;
    }
    compare_chains(&mut tables)?;
    tables.tell(&rt)
}

fn compare_programs(tables: &mut Tables, file: &str) -> Result<()> {
    for row in &tables.rows(file)? {
        let wanted = row.field(1);
        let found = printed_again(tables.alloc, row.field(0), wanted);
        tables.compare_bytes(file, row, found, wanted)?;
    }
    Ok(())
}

fn compare_chains(tables: &mut Tables) -> Result<()> {
    for row in &tables.rows(CHAINS)? {
        let found = printed_length(tables.alloc, row.field(0), row.field(1), row.number(0));
        tables.compare_bytes(CHAINS, row, found, row.field(2))?;
    }
    Ok(())
}
