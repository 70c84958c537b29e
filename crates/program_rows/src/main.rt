//! Programs: what each tells, and its status. Goes through the tables of its files, and tells how many rows hold, and of each other
//! one what was found.
//!
//! The head of a row is the status of each of its programs, and the words of the command before the program's name, which is `x.ps`. Its fields are of each program
//! its text and what is output, and then the input `in`, where there is one. The programs of a row run one after the other over one volume, a new one of 32 pages.
#![tactic(auto)]

mod answer;

use answer::Commands;
use table_rows::Tables;
use table_rows::anyhow::Result;

const FILES: [&str; 42] = [
    "ints.rows",
    "bools.rows",
    "widths.rows",
    "blocks.rows",
    "choices.rows",
    "loops.rows",
    "order.rows",
    "order_of_traps.rows",
    "turns.rows",
    "areas.rows",
    "strings.rows",
    "parts.rows",
    "comparing.rows",
    "made_strings.rows",
    "vectors.rows",
    "elements.rows",
    "structures.rows",
    "classes.rows",
    "shared_objects.rows",
    "calls.rows",
    "recursion.rows",
    "procedure_values.rows",
    "closures.rows",
    "traps_in_calls.rows",
    "turns_of_calls.rows",
    "areas_of_calls.rows",
    "lines.rows",
    "no_input.rows",
    "words_of_inputs.rows",
    "lines_of_bounds.rows",
    "lines_of_pointers.rows",
    "lines_of_strings.rows",
    "lines_of_traps.rows",
    "tables.rows",
    "scans.rows",
    "databases.rows",
    "commits.rows",
    "kept_procedures.rows",
    "kept_tables.rows",
    "refused.rows",
    "refused_procedures.rows",
    "whole_programs.rows",
];

fn main(rt: HostRuntime) -> Result<()> {
    let commands = Commands::new(rt.alloc())?;
    let mut tables = Tables::new(&rt)?;
    for file in &FILES {
        compare_programs(&mut tables, &commands, file)?;
    }
    tables.tell(&rt)
}

fn compare_programs(tables: &mut Tables, commands: &Commands, file: &str) -> Result<()> {
    for row in &tables.rows(file)? {
        let (found, wanted) = (commands.answers(row)?, commands.wanted(row)?);
        tables.compare_bytes(file, row, Ok(found), &wanted)?;
    }
    Ok(())
}
