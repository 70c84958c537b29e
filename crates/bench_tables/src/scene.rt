//! A table in the area, and the calls on it.
ghost use Rattle.std.specs.Prelude.{◌≡◌, true, IfOk, IfSome};
ghost use Rattle.bench_tables.specs.Scene.{IsSet};

use anyhow::{Result, bail};
use memory_vault::silent::SilentVault;
use std::alloc::Global;
use std::sync::ledger::Ledger;
use table_lib::enter::{enter_int, enter_text};
use table_lib::lookup::{lookup_int, lookup_text};
use table_lib::table::table_new;
use table_lib::table_nodes::counted_steps::steps::Steps;
use table_lib::table_nodes::heap_places::heap_texts::make::make_text;
use table_lib::table_nodes::heap_places::swizzle::swizzle::Swizzle;

/// The words of an area for a million nodes of 11 words, and as many texts of 8 bytes.
const WORDS: u32 = 18_000_000;

/// A table, a value and a text that is sought, none of which is stored.
#[derive(Drop)]
pub struct Scene {
    pub sw: Swizzle,
    pub table: u32,
    pub value: u32,
    pub sought: u32,
}

/// A table without keys.
pub fn make_scene(alloc: Global) -> Result<Scene>
    ensures { IfOk result IsSet }
{
    let mut sw = Swizzle::new(alloc, WORDS)?;
    let Ok(sought) = make_text(&mut sw, b"00000000") else {
        bail!("no room for a text");
    };
    let Ok(value) = make_text(&mut sw, b"value") else {
        bail!("no room for a value");
    };
    let Ok(table) = table_new(&mut sw) else {
        bail!("no room for a table");
    };
    Ok(Scene {
        sw,
        table,
        value,
        sought,
    })
}

/// Enters the value under an int. False where the call was refused.
#[inline]
pub fn enter_number(scene: &mut Scene, key: i32) -> bool
    requires { IsSet scene.old }
    ensures { result ≡ true → IsSet scene.new }
{
    match enter_int(
        &mut scene.sw,
        &mut SilentVault { asked: 0 },
        key,
        Some(scene.table),
        Some(scene.value),
    ) {
        Ok(()) => true,
        Err(_) => false,
    }
}

/// Enters the value under a string. False where the call was refused.
pub fn enter_string(scene: &mut Scene, key: &[u8; 8]) -> bool
    requires { IsSet scene.old }
    ensures { result ≡ true → IsSet scene.new }
{
    let Ok(text) = make_text(&mut scene.sw, key) else {
        return false;
    };
    match enter_text(
        &mut scene.sw,
        &mut SilentVault { asked: 0 },
        text,
        Some(scene.table),
        Some(scene.value),
    ) {
        Ok(()) => true,
        Err(_) => false,
    }
}

/// Whether an int has a value. None where the call was refused.
#[inline]
pub fn has_number<L: Ledger>(scene: &mut Scene, key: i32, steps: &mut Steps<L>) -> Option<bool>
    requires { IsSet scene.old }
    ensures { IfSome result (λ found. IsSet scene.new) }
{
    match lookup_int(
        &mut scene.sw,
        &mut SilentVault { asked: 0 },
        key,
        Some(scene.table),
        steps,
    ) {
        Ok(found) => Some(found.is_some()),
        Err(_) => None,
    }
}

/// Makes the string that is sought this one.
#[inline]
pub fn write_sought(scene: &mut Scene, key: &[u8; 8])
    requires { IsSet scene.old }
    ensures { IsSet scene.new }
{
    scene.sw.write_text(scene.sought, 0, key);
}

/// Whether the string that is sought has a value. None where the call was refused.
#[inline]
pub fn has_sought<L: Ledger>(scene: &mut Scene, steps: &mut Steps<L>) -> Option<bool>
    requires { IsSet scene.old }
    ensures { IfSome result (λ found. IsSet scene.new) }
{
    match lookup_text(
        &mut scene.sw,
        &mut SilentVault { asked: 0 },
        scene.sought,
        Some(scene.table),
        steps,
    ) {
        Ok(found) => Some(found.is_some()),
        Err(_) => None,
    }
}
