//! A database is opened.
ghost use Rattle.std.specs.Prelude.{◌≡◌, List, ◌+◌, ◌-◌, ◌*◌, ◌<◌, ◌≤◌, Some, IfOk, IfErr, IfSome, OnOk};
ghost use Rattle.joint_ops.specs.obj_layout.Storing.{SameNumbers};
ghost use Rattle.joint_ops.specs.obj_layout.declared.reference.Reference.{Reference};
ghost use Rattle.joint_ops.specs.swizzle.Heap.{IsHeld, header_at};
ghost use Rattle.joint_ops.specs.swizzle.Joint.{shown_at};
ghost use Rattle.joint_ops.specs.swizzle.Text.{text_at};
ghost use Rattle.joint_ops.specs.swizzle.Reading.{FailsReading};
ghost use Rattle.joint_ops.specs.heap_meaning.Paired.{paired};
ghost use Rattle.joint_ops.specs.World.{seen};
ghost use Rattle.joint_ops.specs.ps_heap.Databases.{Directory, mode_named};
ghost use Rattle.db_dir.specs.Directories.{IsShaped, IsDirectoryAt};
ghost use Rattle.db_dir.specs.Entries.{GainsBy, ReadsSome};
ghost use Rattle.db_dir.specs.Found.{Opens, OpensAs, OpensAt, TakesMode};
ghost use Rattle.db_dir.specs.Answers.{Admit, IsRoot};

use crate::create::MOST_PASSWORD_BYTES;
use crate::entry::{has_text, touch_entry};
use crate::fault::DirFault;
use crate::find::find;
use joint_ops::obj_layout::kind::Kind;
use joint_ops::obj_layout::vault::Vault;
use joint_ops::swizzle::fault::SwizzleFault;
use joint_ops::swizzle::swizzle::Swizzle;

/// What opening a database answers.
#[derive(Clone, Copy, PartialEq, Eq, Debug)]
pub enum Admitted {
    /// Its number, from 1, its root, which is a table of the area, and whether it is opened for writing.
    Root {
        number: u32,
        root: u32,
        writing: bool,
    },
    /// Why it isn't opened.
    Fault(DirFault),
}

// How a mode opens: for writing or not; None where it is no mode.
fn mode_of(mode: &[u8]) -> Option<bool>
    ensures { OpensAs (mode_named mode.now) result }
{
    if mode == b"read".as_slice() {
        return Some(false);
    }
    if mode == b"write".as_slice() {
        return Some(true);
    }
    None
}

/// Opens the database of this name with this password and this mode, which are texts. The faults are tested in the order in which `DirFault` has them; the mode is
/// looked at once the password is right, and the root is fetched last. A name that is no text of 1 to 64 bytes, a password that is no text of at most 64, or a root
/// that is no table, is damaged where it is come to.
pub fn admit<V: Vault>(
    sw: &mut Swizzle,
    vault: &mut V,
    directory: Option<u32>,
    name: u32,
    password: u32,
    mode: u32,
) -> Result<Admitted, SwizzleFault>
    requires alive { V.alive vault.old }
    requires directory { IfSome directory (IsShaped sw.old) }
    requires name { IsHeld sw.old name }
    requires name_text { (header_at sw.old name).kind ≡ Kind.Text }
    requires password { IsHeld sw.old password }
    requires password_text { (header_at sw.old password).kind ≡ Kind.Text }
    requires mode { IsHeld sw.old mode }
    requires mode_text { (header_at sw.old mode).kind ≡ Kind.Text }
    ensures admitted { (databases : Directory) (row : List Reference) → IsDirectoryAt sw.old (seen sw.old (V.outside vault.old)) (paired row) directory databases
        → Admit sw.old sw.new (V.outside vault.old) (V.outside vault.new) row databases (text_at sw.old name) (text_at sw.old password) (text_at sw.old mode) result }
    ensures opens { Opens sw.old sw.new (V.outside vault.old) (V.outside vault.new) (text_at sw.old name) (text_at sw.old password) (text_at sw.old mode) directory result }
    ensures root { IfOk result (IsRoot sw.new) }
    ensures reads { OnOk result (ReadsSome sw.old sw.new (V.outside vault.old) (V.outside vault.new)) }
    ensures fails { IfErr result (FailsReading (V.outside vault.old) (V.outside vault.new)) }
    ensures numbers { SameNumbers V.used_words V.directory_at V.most_words V.access vault.old vault.new }
    ensures alive { OnOk result (V.alive vault.new) }
{
    sw.sound();
    let Some(at) = directory else {
        return Ok(Admitted::Fault(DirFault::NoSuchDatabase));
    };
    let admitted = admit_in(sw, vault, at, name, password, mode);
    sw.sound();
    admitted
}

// The same in a directory that there is, whatever the vault holds.
fn admit_in<V: Vault>(
    sw: &mut Swizzle,
    vault: &mut V,
    directory: u32,
    name: u32,
    password: u32,
    mode: u32,
) -> Result<Admitted, SwizzleFault>
    requires alive { V.alive vault.old }
    requires directory { IsShaped sw.old directory }
    requires name { IsHeld sw.old name }
    requires name_text { (header_at sw.old name).kind ≡ Kind.Text }
    requires password { IsHeld sw.old password }
    requires password_text { (header_at sw.old password).kind ≡ Kind.Text }
    requires mode { IsHeld sw.old mode }
    requires mode_text { (header_at sw.old mode).kind ≡ Kind.Text }
    ensures opens { Opens sw.old sw.new (V.outside vault.old) (V.outside vault.new) (text_at sw.old name) (text_at sw.old password) (text_at sw.old mode) (Some directory) result }
    ensures reads { OnOk result (ReadsSome sw.old sw.new (V.outside vault.old) (V.outside vault.new)) }
    ensures gains { OnOk result (GainsBy sw.old sw.new (V.outside vault.old) (V.outside vault.new) (shown_at sw.old directory).refs) }
    ensures fails { IfErr result (FailsReading (V.outside vault.old) (V.outside vault.new)) }
    ensures numbers { SameNumbers V.used_words V.directory_at V.most_words V.access vault.old vault.new }
    ensures alive { OnOk result (V.alive vault.new) }
{
    sw.sound();
    let found = find(sw, vault, Some(directory), name)?;
    sw.sound();
    match found {
        Some(number) => open_at(sw, vault, directory, number, password, mode),
        None => Ok(Admitted::Fault(DirFault::NoSuchDatabase)),
    }
}

// Opens the database with this number.
fn open_at<V: Vault>(
    sw: &mut Swizzle,
    vault: &mut V,
    directory: u32,
    number: u32,
    password: u32,
    mode: u32,
) -> Result<Admitted, SwizzleFault>
    requires alive { V.alive vault.old }
    requires held { IsHeld sw.old directory }
    requires some { 1 ≤ number }
    requires within { 3 * number ≤ (header_at sw.old directory).refs }
    requires password { IsHeld sw.old password }
    requires password_text { (header_at sw.old password).kind ≡ Kind.Text }
    requires mode { IsHeld sw.old mode }
    requires mode_text { (header_at sw.old mode).kind ≡ Kind.Text }
    ensures opens { OpensAt sw.old sw.new (V.outside vault.old) (V.outside vault.new) (text_at sw.old password) (text_at sw.old mode) directory (number - 1) result }
    ensures reads { OnOk result (ReadsSome sw.old sw.new (V.outside vault.old) (V.outside vault.new)) }
    ensures gains { OnOk result (GainsBy sw.old sw.new (V.outside vault.old) (V.outside vault.new) (shown_at sw.old directory).refs) }
    ensures fails { IfErr result (FailsReading (V.outside vault.old) (V.outside vault.new)) }
    ensures numbers { SameNumbers V.used_words V.directory_at V.most_words V.access vault.old vault.new }
    ensures alive { OnOk result (V.alive vault.new) }
{
    sw.sound();
    let place = number - 1;
    let same = has_text(
        sw,
        vault,
        directory,
        3 * place + 1,
        0,
        MOST_PASSWORD_BYTES,
        password,
    );
    sw.sound();
    match same {
        Ok(same) => {
            if same {
                return open_as(sw, vault, directory, place, mode);
            }
            Ok(Admitted::Fault(DirFault::Password))
        }
        Err(fault) => Err(fault),
    }
}

// Opens the database in this place, from 0, of which the password is known.
fn open_as<V: Vault>(
    sw: &mut Swizzle,
    vault: &mut V,
    directory: u32,
    place: u32,
    mode: u32,
) -> Result<Admitted, SwizzleFault>
    requires alive { V.alive vault.old }
    requires held { IsHeld sw.old directory }
    requires within { 3 * place + 2 < (header_at sw.old directory).refs }
    requires mode { IsHeld sw.old mode }
    requires mode_text { (header_at sw.old mode).kind ≡ Kind.Text }
    ensures opens { TakesMode sw.old sw.new (V.outside vault.old) (V.outside vault.new) (text_at sw.old mode) directory place result }
    ensures reads { OnOk result (ReadsSome sw.old sw.new (V.outside vault.old) (V.outside vault.new)) }
    ensures gains { OnOk result (GainsBy sw.old sw.new (V.outside vault.old) (V.outside vault.new) (shown_at sw.old directory).refs) }
    ensures fails { IfErr result (FailsReading (V.outside vault.old) (V.outside vault.new)) }
    ensures numbers { SameNumbers V.used_words V.directory_at V.most_words V.access vault.old vault.new }
    ensures alive { OnOk result (V.alive vault.new) }
{
    sw.sound();
    let Some(writing) = mode_of(sw.text(mode)) else {
        return Ok(Admitted::Fault(DirFault::BadMode));
    };
    match touch_entry(sw, vault, directory, 3 * place + 2, Kind::Table) {
        Ok(root) => Ok(Admitted::Root {
            number: place + 1,
            root,
            writing,
        }),
        Err(fault) => Err(fault),
    }
}
