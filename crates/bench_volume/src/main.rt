//! Stores objects in a volume, for `bench/run` to time. The first word of the command line is what is done, the second the file of a volume, the third how many pages it has where it is made, the fourth how often.
#![tactic(auto)]

ghost use Rattle.std.specs.Prelude.{◌≡◌, IfSome, OnOk, true};
ghost use Rattle.obj_store.specs.obj_layout.Stored.{IsHeaded};

use anyhow::{Context, Result, bail};
use obj_store::ObjStore;
use obj_store::obj_layout::vault::{Vault, VaultFault};
use obj_store::paged_volume::format;
use obj_store::paged_volume::volume_parts::FormatFault;
use ps_port::{FileHost, Host};
use std::env;

/// A text of 88 bytes, in sixteen words, of which the last is this.
fn text(last: u64) -> [u64; 16]
    ensures { IsHeaded result }
{
    let mut words = [0u64; 16];
    words[0] = 1;
    words[2] = 0x0000_0058_0000_000c;
    words[15] = last;
    words
}

// Stores so many objects, and settles them at once.
fn stage<H: Host>(store: &mut ObjStore<H>, count: u64) -> Result<(), VaultFault>
    requires { store.old.live ≡ true }
{
    for number in 0..count {
        store.append(&text(number))?;
    }
    store.settle(0)
}

// Stores an object, and then changes it so many times, each time settled.
fn commit<H: Host>(store: &mut ObjStore<H>, count: u64) -> Result<(), VaultFault>
    requires { store.old.live ≡ true }
{
    let pid = store.append(&text(0))?;
    for number in 0..count {
        store.overwrite(pid, &text(number + 1))?;
        store.settle(0)?;
    }
    Ok(())
}

// Does what the word says, and answers how many words are used then.
fn run<H: Host>(store: &mut ObjStore<H>, what: &str, count: u64) -> Result<u64>
    requires { store.old.live ≡ true }
{
    let done = match what {
        "stage" => stage(store, count),
        "commit" => commit(store, count),
        "attach" => Ok(()),
        _ => bail!("stage, commit or attach?"),
    };
    if done.is_err() {
        bail!("the volume failed");
    }
    Ok(store.used())
}

// Makes the volume where there is none.
fn make<H: Host>(host: &mut H, pages: u32) -> Result<()> {
    if !(32..=1_048_576).contains(&pages) {
        bail!("32 to 1,048,576 pages?");
    }
    match format(host, pages) {
        Ok(()) | Err(FormatFault::AlreadyVolume { .. }) => Ok(()),
        Err(FormatFault::Device) => bail!("no volume is made"),
    }
}

fn main(rt: HostRuntime) -> Result<()> {
    let mut words = env::args(&rt)?.skip(1);
    let what = words.next().context("what is done?")?;
    let path = words.next().context("over which volume?")?;
    let pages = words.next().context("of how many pages?")?.parse::<u32>()?;
    let count = words.next().context("how often?")?.parse::<u64>()?;
    let mut host = FileHost::new(&rt, rt.alloc(), path.as_str(), true)?;
    make(&mut host, pages)?;
    match ObjStore::attach(rt.alloc(), host) {
        Ok(store) => {
            let mut store = store;
            println!(rt; "{}", run(&mut store, what.as_str(), count)?)?;
            Ok(())
        }
        Err(_) => bail!("no volume is attached"),
    }
}
