//! A database is created.
ghost use Rattle.std.specs.Prelude.{◌≡◌, List, [], ◌∷◌, ◌++◌, take, drop, ◌<◌, ◌≤◌, ◌+◌, ◌*◌, Some, IfOk, IfSome, OnOk, MatchOption, MatchResult};
ghost use Rattle.joint_ops.specs.obj_layout.Storing.{SameNumbers};
ghost use Rattle.joint_ops.specs.obj_layout.declared.reference.Reference.{Reference};
ghost use Rattle.joint_ops.specs.swizzle.Objects.{Object};
ghost use Rattle.joint_ops.specs.swizzle.Heap.{Heap, IsHeld, IsFull, IsMade, header_at, object_at};
ghost use Rattle.joint_ops.specs.swizzle.Text.{text_at};
ghost use Rattle.joint_ops.specs.swizzle.Touch.{Keeps};
ghost use Rattle.joint_ops.specs.swizzle.Reading.{LeavesOutside};
ghost use Rattle.joint_ops.specs.heap_meaning.Paired.{paired};
ghost use Rattle.joint_ops.specs.World.{seen, FailsAsReading};
ghost use Rattle.joint_ops.specs.ps_heap.Databases.{Directory};
ghost use Rattle.db_dir.specs.Directories.{IsShaped, IsDirectoryAt, Counts, directory_of, names_in, refs_in};
ghost use Rattle.db_dir.specs.Entries.{GainsBy};
ghost use Rattle.db_dir.specs.Found.{Adds, AreFit, AreUnfit, Tries};
ghost use Rattle.db_dir.specs.Answers.{Creates, IsShapedIfMade};

use crate::fault::DirFault;
use crate::find::{MOST_NAME_BYTES, find};
use crate::shape::{MOST_DATABASES, database_count};
use joint_ops::obj_layout::kind::Kind;
use joint_ops::obj_layout::vault::Vault;
use joint_ops::swizzle::fault::SwizzleFault;
use joint_ops::swizzle::swizzle::Swizzle;

/// The most bytes of a password.
pub const MOST_PASSWORD_BYTES: u32 = 64;

/// What creating a database answers.
#[derive(Clone, Copy, PartialEq, Eq, Debug)]
pub enum Created {
    /// The object that names this database too, and its number, from 1.
    Made { directory: u32, number: u32 },
    /// Why there is none. The directory stays.
    Fault(DirFault),
}

// What is wrong with the lengths of a name and a password.
fn wrong_lengths(sw: &Swizzle, name: u32, password: u32) -> Option<DirFault>
    requires name { IsHeld sw.now name }
    requires name_text { (header_at sw.now name).kind ≡ Kind.Text }
    requires password { IsHeld sw.now password }
    requires password_text { (header_at sw.now password).kind ≡ Kind.Text }
    ensures { MatchOption result (AreFit (text_at sw.now name) (text_at sw.now password)) (AreUnfit (text_at sw.now name) (text_at sw.now password)) }
{
    let bytes = sw.text(name).len();
    if bytes == 0 || bytes > MOST_NAME_BYTES as usize {
        return Some(DirFault::BadName);
    }
    if sw.text(password).len() > MOST_PASSWORD_BYTES as usize {
        return Some(DirFault::BadPassword);
    }
    None
}

// How many databases there are.
fn count_of(sw: &Swizzle, directory: Option<u32>) -> u32
    requires { IfSome directory (IsShaped sw.now) }
    ensures counts { Counts sw.now directory result }
    ensures few { result ≤ MOST_DATABASES }
{
    match directory {
        Some(at) => database_count(sw, at),
        None => 0,
    }
}

// A new directory that refers to what the old one does, and has three references more, which are nil.
fn grow(sw: &mut Swizzle, directory: Option<u32>, count: u32) -> Result<u32, SwizzleFault>
    requires directory { IfSome directory (IsHeld sw.old) }
    requires counts { Counts sw.old directory count }
    requires few { count < MOST_DATABASES }
    ensures { MatchResult result
        (λ at. IsMade sw.old sw.new at (directory_of (refs_in sw.old directory ++ Reference.Nil ∷ Reference.Nil ∷ Reference.Nil ∷ [])))
        (IsFull sw.old sw.new (3 * count + 8)) }
{
    sw.sound();
    let refs = 3 * count;
    let made = match sw.make(Kind::Directory, refs + 3, 1, 0) {
        Ok(made) => made,
        Err(fault) => return Err(fault),
    };
    if let Some(at) = directory {
        copy_refs(sw, at, made, refs);
    }
    Ok(made)
}

// A new directory that names what the old one does, and one database more.
fn extend(
    sw: &mut Swizzle,
    directory: Option<u32>,
    count: u32,
    name: u32,
    password: u32,
    root: u32,
) -> Result<u32, SwizzleFault>
    requires directory { IfSome directory (IsHeld sw.old) }
    requires counts { Counts sw.old directory count }
    requires few { count < MOST_DATABASES }
    requires name { IsHeld sw.old name }
    requires password { IsHeld sw.old password }
    requires root { IsHeld sw.old root }
    ensures { MatchResult result
        (λ at. IsMade sw.old sw.new at (directory_of (refs_in sw.old directory ++ Reference.Local name ∷ Reference.Local password ∷ Reference.Local root ∷ [])))
        (IsFull sw.old sw.new (3 * count + 8)) }
{
    sw.sound();
    let made = match grow(sw, directory, count) {
        Ok(made) => made,
        Err(fault) => return Err(fault),
    };
    let first = 3 * count;
    sw.set_ref(made, first, Some(name));
    sw.set_ref(made, first + 1, Some(password));
    sw.set_ref(made, first + 2, Some(root));
    Ok(made)
}

// Makes the first slots of a new object denote what those of another denote.
fn copy_refs(sw: &mut Swizzle, from: u32, to: u32, count: u32)
    requires from { IsHeld sw.old from }
    requires from_below { count ≤ (header_at sw.old from).refs }
    requires to { IsHeld sw.old to }
    requires to_below { count ≤ (header_at sw.old to).refs }
    ensures { (base : Heap) (object : Object) → IsMade base sw.old to object → IsHeld base from
        → IsMade base sw.new to (record object { refs = take count (object_at base from).refs ++ drop count object.refs }) }
{
    for slot in 0..count {
        sw.sound();
        sw.copy_ref(from, slot, to, slot);
    }
}

/// Names a database in a new directory, with this name and password, which are texts, and this root, which is a table. The faults are tested in the order in which
/// `DirFault` has them; where one is answered, or no room, the directory was read at most. AreaFull where there is no room for the new directory.
pub fn create<V: Vault>(
    sw: &mut Swizzle,
    vault: &mut V,
    directory: Option<u32>,
    name: u32,
    password: u32,
    root: u32,
) -> Result<Created, SwizzleFault>
    requires alive { V.alive vault.old }
    requires directory { IfSome directory (IsShaped sw.old) }
    requires name { IsHeld sw.old name }
    requires name_text { (header_at sw.old name).kind ≡ Kind.Text }
    requires password { IsHeld sw.old password }
    requires password_text { (header_at sw.old password).kind ≡ Kind.Text }
    requires root { IsHeld sw.old root }
    requires root_table { (header_at sw.old root).kind ≡ Kind.Table }
    ensures created { (databases : Directory) (row : List Reference) → IsDirectoryAt sw.old (seen sw.old (V.outside vault.old)) (paired row) directory databases
        → Creates sw.old sw.new (V.outside vault.old) (V.outside vault.new) row databases (text_at sw.old name) (text_at sw.old password) root result }
    ensures tries { Tries sw.old sw.new (V.outside vault.old) (V.outside vault.new) directory name password root result }
    ensures shaped { IfOk result (IsShapedIfMade sw.new) }
    ensures keeps { OnOk result (Keeps sw.old sw.new) }
    ensures leaves { LeavesOutside (V.outside vault.old) (V.outside vault.new) }
    ensures fails { FailsAsReading (V.outside vault.old) (V.outside vault.new) result }
    ensures numbers { SameNumbers V.used_words V.directory_at V.most_words V.access vault.old vault.new }
    ensures alive { OnOk result (V.alive vault.new) }
{
    sw.sound();
    let created = try_create(sw, vault, directory, name, password, root);
    sw.sound();
    created
}

// The same, whatever the vault holds.
fn try_create<V: Vault>(
    sw: &mut Swizzle,
    vault: &mut V,
    directory: Option<u32>,
    name: u32,
    password: u32,
    root: u32,
) -> Result<Created, SwizzleFault>
    requires alive { V.alive vault.old }
    requires directory { IfSome directory (IsShaped sw.old) }
    requires name { IsHeld sw.old name }
    requires name_text { (header_at sw.old name).kind ≡ Kind.Text }
    requires password { IsHeld sw.old password }
    requires password_text { (header_at sw.old password).kind ≡ Kind.Text }
    requires root { IsHeld sw.old root }
    ensures tries { Tries sw.old sw.new (V.outside vault.old) (V.outside vault.new) directory name password root result }
    ensures gains { OnOk result (GainsBy sw.old sw.new (V.outside vault.old) (V.outside vault.new) (names_in sw.old directory)) }
    ensures fails { FailsAsReading (V.outside vault.old) (V.outside vault.new) result }
    ensures numbers { SameNumbers V.used_words V.directory_at V.most_words V.access vault.old vault.new }
    ensures alive { OnOk result (V.alive vault.new) }
{
    sw.sound();
    if let Some(fault) = wrong_lengths(sw, name, password) {
        return Ok(Created::Fault(fault));
    }
    let found = find(sw, vault, directory, name)?;
    sw.sound();
    match found {
        Some(_) => Ok(Created::Fault(DirFault::Exists)),
        None => {
            let added = add(sw, directory, name, password, root);
            sw.sound();
            added
        }
    }
}

// Names a database of which no fault is known but too many.
fn add(
    sw: &mut Swizzle,
    directory: Option<u32>,
    name: u32,
    password: u32,
    root: u32,
) -> Result<Created, SwizzleFault>
    requires directory { IfSome directory (IsShaped sw.old) }
    requires name { IsHeld sw.old name }
    requires password { IsHeld sw.old password }
    requires root { IsHeld sw.old root }
    ensures { Adds sw.old sw.new directory name password root result }
{
    let count = count_of(sw, directory);
    if count == MOST_DATABASES {
        return Ok(Created::Fault(DirFault::TooMany));
    }
    match extend(sw, directory, count, name, password, root) {
        Ok(made) => Ok(Created::Made {
            directory: made,
            number: count + 1,
        }),
        Err(fault) => Err(fault),
    }
}
