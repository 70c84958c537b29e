//! What a scope of the world keeps.
ghost use Rattle.std.specs.Prelude.{OnOk};
ghost use Rattle.scopes_tests.specs.World.{IsReady};

use crate::ended::{Ended, put_ended};
use crate::seen::{put_assigned, put_seen};
use crate::step::Step;
use crate::value::put_value;
use crate::world::World;
use row_words::table_rows::{Buffer, Row, Tables};
use scopes::heap_places::value::Value;

/// Compares each row of a file with what its steps give.
pub fn compare(tables: &mut Tables, file: &str) -> row_words::anyhow::Result<()> {
    for row in &tables.rows(file)? {
        let mut found = Buffer::new(tables.alloc);
        put_found(&mut found, row);
        tables.compare_told(file, row, &found, row.field(2))?;
    }
    Ok(())
}

fn put_found(out: &mut Buffer, row: &Row) {
    match World::new(out.alloc(), row.field(0)) {
        Some(mut world) => put_answers(out, &mut world, row.field(1)),
        None => out.fail(),
    }
}

// What each step gives until one is refused, and what is seen of the scope after them.
fn put_answers(out: &mut Buffer, world: &mut World, steps: &[u8])
    requires { IsReady world.old }
{
    for line in steps.split(|byte| *byte == b'\n') {
        let Some(step) = Step::of_line(line) else {
            return out.fail();
        };
        match answer(world, step) {
            Ok(given) => put_given(out, given),
            Err(ended) => {
                put_ended(out, ended);
                return put_assigned(out, &world.sw);
            }
        }
    }
    put_seen(out, &world.sw, world.scope);
}

// A value in a line, or that it is done.
fn put_given(out: &mut Buffer, given: Option<Value>) {
    match given {
        Some(value) => put_value(out, value),
        None => out.put("done"),
    }
    out.put("\n");
}

// Does this with the scope.
fn answer(world: &mut World, step: Step) -> Result<Option<Value>, Ended>
    requires { IsReady world.old }
    ensures { OnOk result (IsReady world.new) }
{
    match step {
        Step::Get(name) => match world.get(name) {
            Ok(value) => Ok(Some(value)),
            Err(ended) => Err(ended),
        },
        Step::Set(name, to) => match world.set(name, to) {
            Ok(()) => Ok(None),
            Err(ended) => Err(ended),
        },
    }
}
