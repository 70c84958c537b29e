//! The calls on a directory, over a store and an area.
ghost use Rattle.std.specs.Prelude.{◌≡◌, ◌≤◌, true, IfOk, IfSome};
ghost use Rattle.db_dir.specs.Directories.{IsShaped};
ghost use Rattle.db_dir.specs.joint_ops.heap_texts.Texts.{HoldsText};
ghost use Rattle.db_dir.specs.joint_ops.swizzle.Heap.{Stands};
ghost use Rattle.dir_tests.specs.Tables.{HoldsTable};

use crate::answers::{put_counted, put_fault, put_refusal, put_root};
use crate::call::{Call, Said};
use db_dir::admit::{Admitted, admit};
use db_dir::create::{Created, create};
use db_dir::find::find;
use db_dir::joint_ops::heap_texts::make::make_text;
use db_dir::joint_ops::obj_layout::kind::Kind;
use db_dir::joint_ops::obj_layout::vault::Vault;
use db_dir::joint_ops::swizzle::fault::SwizzleFault;
use db_dir::joint_ops::swizzle::swizzle::Swizzle;
use db_dir::load::load_directory;
use db_dir::shape::database_count;
use memory_vault::memory::MemoryVault;
use row_words::table_rows::Buffer;

/// Makes a call on a directory, or on none, writes what it answers, and gives the directory that is at hand afterwards: none after a refusal.
pub fn put_called(
    out: &mut Buffer,
    vault: &mut MemoryVault,
    sw: &mut Swizzle,
    at: Option<u32>,
    call: Call<'_>,
) -> Option<u32>
    requires { IfSome at (IsShaped sw.old) }
    ensures { IfSome result (IsShaped sw.new) }
{
    match call {
        Call::Fail(number) => {
            vault.fail_from(number);
            out.put("done");
            at
        }
        Call::Touched => {
            put_counted(out, "calls", vault.calls());
            at
        }
        Call::Many(count) => put_many(out, vault, sw, at, count),
        _ => put_answer(out, vault, sw, at, call),
    }
}

fn put_answer(
    out: &mut Buffer,
    vault: &mut MemoryVault,
    sw: &mut Swizzle,
    at: Option<u32>,
    call: Call<'_>,
) -> Option<u32>
    requires { IfSome at (IsShaped sw.old) }
    ensures { IfSome result (IsShaped sw.new) }
{
    if !vault.is_alive() {
        out.put("dead");
        return at;
    }
    match call {
        Call::Load => put_loaded(out, vault, sw),
        Call::Find(name) => put_found(out, vault, sw, at, name),
        Call::Create(name, password) => put_created(out, vault, sw, at, name, password),
        Call::Open(name, password, mode) => put_opened(out, vault, sw, at, name, password, mode),
        _ => at,
    }
}

// How many databases a directory names, or none.
fn put_databases(out: &mut Buffer, sw: &Swizzle, at: Option<u32>)
    requires { IfSome at (IsShaped sw.now) }
{
    let count = match at {
        Some(at) => database_count(sw, at),
        None => 0,
    };
    put_counted(out, "databases", u64::from(count));
}

fn put_loaded(out: &mut Buffer, vault: &mut MemoryVault, sw: &mut Swizzle) -> Option<u32>
    requires { vault.old.alive ≡ true }
    ensures { IfSome result (IsShaped sw.new) }
{
    match load_directory(sw, vault) {
        Ok(at) => {
            put_databases(out, sw, at);
            at
        }
        Err(fault) => {
            put_refusal(out, fault);
            None
        }
    }
}

// The most letters that a text repeats.
const MOST_LETTERS: usize = 100;

// Makes the text that a call says. All objects stand.
fn say(sw: &mut Swizzle, said: Said<'_>) -> Result<u32, SwizzleFault>
    ensures text { IfOk result (HoldsText sw.new) }
    ensures stands { Stands sw.old sw.new }
{
    match said {
        Said::Bytes(bytes) => make_text(sw, bytes),
        Said::Repeated(count, letter) => {
            let letters = [letter; MOST_LETTERS];
            let (first, _) = letters.split_at(MOST_LETTERS.min(count as usize));
            make_text(sw, first)
        }
    }
}

fn put_found(
    out: &mut Buffer,
    vault: &mut MemoryVault,
    sw: &mut Swizzle,
    at: Option<u32>,
    name: Said<'_>,
) -> Option<u32>
    requires alive { vault.old.alive ≡ true }
    requires shaped { IfSome at (IsShaped sw.old) }
    ensures { IfSome result (IsShaped sw.new) }
{
    let name = match say(sw, name) {
        Ok(name) => name,
        Err(fault) => {
            put_refusal(out, fault);
            return None;
        }
    };
    match find(sw, vault, at, name) {
        Ok(found) => {
            match found {
                Some(number) => put_counted(out, "number", u64::from(number)),
                None => out.put("none"),
            }
            at
        }
        Err(fault) => {
            put_refusal(out, fault);
            None
        }
    }
}

// Two texts, and an object that can be a root.
fn make_parts(
    sw: &mut Swizzle,
    name: Said<'_>,
    password: Said<'_>,
) -> Result<(u32, u32, u32), SwizzleFault>
    ensures parts { IfOk result (λ parts. HoldsText sw.new parts.0 × HoldsText sw.new parts.1 × HoldsTable sw.new parts.2) }
    ensures stands { Stands sw.old sw.new }
{
    let name = say(sw, name)?;
    let password = say(sw, password)?;
    let root = sw.make(Kind::Table, 1, 3, 0)?;
    Ok((name, password, root))
}

fn put_created(
    out: &mut Buffer,
    vault: &mut MemoryVault,
    sw: &mut Swizzle,
    at: Option<u32>,
    name: Said<'_>,
    password: Said<'_>,
) -> Option<u32>
    requires alive { vault.old.alive ≡ true }
    requires shaped { IfSome at (IsShaped sw.old) }
    ensures { IfSome result (IsShaped sw.new) }
{
    let (name, password, root) = match make_parts(sw, name, password) {
        Ok(parts) => parts,
        Err(fault) => {
            put_refusal(out, fault);
            return None;
        }
    };
    match create(sw, vault, at, name, password, root) {
        Ok(Created::Made { directory, number }) => {
            put_counted(out, "made", u64::from(number));
            Some(directory)
        }
        Ok(Created::Fault(fault)) => {
            put_fault(out, fault);
            at
        }
        Err(fault) => {
            put_refusal(out, fault);
            None
        }
    }
}

// Three texts, for a name, a password and a mode.
fn make_words(
    sw: &mut Swizzle,
    name: Said<'_>,
    password: Said<'_>,
    mode: Said<'_>,
) -> Result<(u32, u32, u32), SwizzleFault>
    ensures words { IfOk result (λ words. HoldsText sw.new words.0 × HoldsText sw.new words.1 × HoldsText sw.new words.2) }
    ensures stands { Stands sw.old sw.new }
{
    let name = say(sw, name)?;
    let password = say(sw, password)?;
    let mode = say(sw, mode)?;
    Ok((name, password, mode))
}

fn put_opened(
    out: &mut Buffer,
    vault: &mut MemoryVault,
    sw: &mut Swizzle,
    at: Option<u32>,
    name: Said<'_>,
    password: Said<'_>,
    mode: Said<'_>,
) -> Option<u32>
    requires alive { vault.old.alive ≡ true }
    requires shaped { IfSome at (IsShaped sw.old) }
    ensures { IfSome result (IsShaped sw.new) }
{
    let (name, password, mode) = match make_words(sw, name, password, mode) {
        Ok(words) => words,
        Err(fault) => {
            put_refusal(out, fault);
            return None;
        }
    };
    match admit(sw, vault, at, name, password, mode) {
        Ok(
            Admitted::Root {
                number,
                root,
                writing,
            },
        ) => {
            put_root(out, number, sw.pid(root), writing);
            at
        }
        Ok(Admitted::Fault(fault)) => {
            put_fault(out, fault);
            at
        }
        Err(fault) => {
            put_refusal(out, fault);
            None
        }
    }
}

// The digit of a number in the place of a power of ten.
fn digit_at(number: u32, power: u32) -> u8
    requires { 1 ≤ power }
{
    b'0' + (number / power % 10) as u8
}

// The name of a number below 1,000.
fn name_of(number: u32) -> [u8; 3] {
    [
        digit_at(number, 100),
        digit_at(number, 10),
        digit_at(number, 1),
    ]
}

// Creates so many databases, and writes how many there are then.
fn put_many(
    out: &mut Buffer,
    vault: &mut MemoryVault,
    sw: &mut Swizzle,
    at: Option<u32>,
    count: u32,
) -> Option<u32>
    requires { IfSome at (IsShaped sw.old) }
    ensures { IfSome result (IsShaped sw.new) }
{
    let mut last = at;
    for number in 1..=count.min(999) {
        let mut unheard = Buffer::new(out.alloc());
        let name = name_of(number);
        last = put_answer(
            &mut unheard,
            vault,
            sw,
            last,
            Call::Create(Said::Bytes(&name), Said::Bytes(&[])),
        );
    }
    put_databases(out, sw, last);
    last
}
