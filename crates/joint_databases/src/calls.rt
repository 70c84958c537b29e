//! The directory of a run, and the databases that are created and opened in it.
ghost use Rattle.std.specs.Prelude.{◌≡◌, ℕ, List, Some, None, [], true, false, IfOk, IfErr, IfSome, OnOk};
ghost use Rattle.joint_held.specs.joint_ops.obj_layout.Storing.{SameNumbers};
ghost use Rattle.joint_held.specs.joint_ops.obj_layout.declared.reference.Reference.{Reference};
ghost use Rattle.joint_held.specs.joint_ops.swizzle.Heap.{IsHeld, Stands, header_at};
ghost use Rattle.joint_held.specs.joint_ops.swizzle.Reading.{FailsReading, LeavesOutside};
ghost use Rattle.joint_held.specs.joint_ops.ps_heap.Held.{Held};
ghost use Rattle.joint_held.specs.joint_ops.ps_heap.Values.{Text};
ghost use Rattle.joint_held.specs.joint_ops.World.{DenotesIn};
ghost use Rattle.joint_held.specs.db_dir.Answers.{IsRoot};
ghost use Rattle.joint_held.specs.db_dir.Directories.{IsShaped};
ghost use Rattle.joint_held.specs.reach_commit.commit_walk.declared.homes.Source.{Source};
ghost use Rattle.joint_held.specs.Held.{HoldsRun};
ghost use Rattle.joint_databases.specs.Calls.{Creating, HasNoNext, IsCreatedIfMade, Knows, Opening, creation_of};

use joint_held::db_dir::admit::{Admitted, admit};
use joint_held::db_dir::create::{Created, create as create_in};
use joint_held::db_dir::fault::DirFault;
use joint_held::db_dir::load::load_directory;
use joint_held::reach_commit::joint_ops::obj_layout::kind::Kind;
use joint_held::reach_commit::joint_ops::obj_layout::vault::Vault;
use joint_held::reach_commit::joint_ops::swizzle::fault::SwizzleFault;
use joint_held::reach_commit::joint_ops::swizzle::swizzle::Swizzle;
use table_lib::table::table_new;

/// What creating a database answers.
#[derive(Clone, Copy, PartialEq, Eq, Debug)]
pub enum Creation {
    /// Its number, from 1, its root, which is a new table of the area, and the directory that names it too.
    Made {
        number: u32,
        root: u32,
        directory: u32,
    },
    /// Why there is none. The directory stays.
    Fault(DirFault),
}

/// The directory of the vault, in the area; None exactly where it has none. It is fetched where it isn't in the area, and damaged where it hasn't the shape of a
/// directory.
pub fn know<V: Vault>(sw: &mut Swizzle, vault: &mut V) -> Result<Option<u32>, SwizzleFault>
    requires alive { V.alive vault.old }
    ensures run { (names : List Reference) (h : Held) → h.asked ≡ false → HoldsRun sw.old (V.outside vault.old) names [] None h
        → Knows sw.old sw.new (V.outside vault.old) (V.outside vault.new) names h result }
    ensures shaped { IfOk result (λ at. IfSome at (IsShaped sw.new)) }
    ensures none { IfOk result (λ at. (at ≡ None → V.directory_at vault.old ≡ 0) × (V.directory_at vault.old ≡ 0 → at ≡ None)) }
    ensures stands { OnOk result (Stands sw.old sw.new) }
    ensures size { OnOk result (sw.new.size ≡ sw.old.size) }
    ensures leaves { LeavesOutside (V.outside vault.old) (V.outside vault.new) }
    ensures fails { IfErr result (FailsReading (V.outside vault.old) (V.outside vault.new)) }
    ensures numbers { SameNumbers V.used_words V.directory_at V.most_words V.access vault.old vault.new }
    ensures alive { OnOk result (V.alive vault.new) }
{
    sw.sound();
    let known = load_directory(sw, vault);
    sw.sound();
    known
}

// What a call answers that made the root before.
fn answered(root: u32, created: Result<Created, SwizzleFault>) -> Result<Creation, SwizzleFault>
    ensures { result ≡ creation_of root created }
{
    match created {
        Ok(Created::Made { directory, number }) => Ok(Creation::Made {
            number,
            root,
            directory,
        }),
        Ok(Created::Fault(fault)) => Ok(Creation::Fault(fault)),
        Err(fault) => Err(fault),
    }
}

/// Makes a table, and creates a database with this name and password, which are texts, and with the table as its root. The faults are those of the directory, in
/// their order. AreaFull where there is no room for the table or for the new directory.
pub fn create<V: Vault>(
    sw: &mut Swizzle,
    vault: &mut V,
    directory: Option<u32>,
    name: u32,
    password: u32,
) -> Result<Creation, SwizzleFault>
    requires alive { V.alive vault.old }
    requires directory { IfSome directory (IsShaped sw.old) }
    requires name { IsHeld sw.old name }
    requires name_text { (header_at sw.old name).kind ≡ Kind.Text }
    requires password { IsHeld sw.old password }
    requires password_text { (header_at sw.old password).kind ≡ Kind.Text }
    ensures run { (names : List Reference) (writing : List Source) (h : Held) (n p : List ℕ) → h.asked ≡ true → HasNoNext h
        → HoldsRun sw.old (V.outside vault.old) names writing directory h
        → DenotesIn sw.old (V.outside vault.old) names (Some name) (Text n) → DenotesIn sw.old (V.outside vault.old) names (Some password) (Text p)
        → Creating sw.old sw.new (V.outside vault.old) (V.outside vault.new) names writing directory h n p result }
    ensures made { IfOk result (IsCreatedIfMade sw.old sw.new) }
    ensures stands { OnOk result (Stands sw.old sw.new) }
    ensures size { OnOk result (sw.new.size ≡ sw.old.size) }
    ensures leaves { LeavesOutside (V.outside vault.old) (V.outside vault.new) }
    ensures fails { IfErr result (FailsReading (V.outside vault.old) (V.outside vault.new)) }
    ensures numbers { SameNumbers V.used_words V.directory_at V.most_words V.access vault.old vault.new }
    ensures alive { OnOk result (V.alive vault.new) }
{
    sw.sound();
    let root = match table_new(sw) {
        Ok(root) => root,
        Err(fault) => return Err(fault),
    };
    sw.sound();
    let created = create_in(sw, vault, directory, name, password, root);
    sw.sound();
    answered(root, created)
}

/// Opens the database of this name with this password and this mode, which are texts: its root, in the area. The faults are those of the directory, in their order.
pub fn open<V: Vault>(
    sw: &mut Swizzle,
    vault: &mut V,
    directory: Option<u32>,
    name: u32,
    password: u32,
    mode: u32,
) -> Result<Admitted, SwizzleFault>
    requires alive { V.alive vault.old }
    requires directory { IfSome directory (IsShaped sw.old) }
    requires name { IsHeld sw.old name }
    requires name_text { (header_at sw.old name).kind ≡ Kind.Text }
    requires password { IsHeld sw.old password }
    requires password_text { (header_at sw.old password).kind ≡ Kind.Text }
    requires mode { IsHeld sw.old mode }
    requires mode_text { (header_at sw.old mode).kind ≡ Kind.Text }
    ensures run { (names : List Reference) (writing : List Source) (h : Held) (n p m : List ℕ) → h.asked ≡ true
        → HoldsRun sw.old (V.outside vault.old) names writing directory h
        → DenotesIn sw.old (V.outside vault.old) names (Some name) (Text n) → DenotesIn sw.old (V.outside vault.old) names (Some password) (Text p)
        → DenotesIn sw.old (V.outside vault.old) names (Some mode) (Text m)
        → Opening sw.old sw.new (V.outside vault.old) (V.outside vault.new) names writing directory h n p m result }
    ensures root { IfOk result (IsRoot sw.new) }
    ensures stands { OnOk result (Stands sw.old sw.new) }
    ensures size { OnOk result (sw.new.size ≡ sw.old.size) }
    ensures leaves { LeavesOutside (V.outside vault.old) (V.outside vault.new) }
    ensures fails { IfErr result (FailsReading (V.outside vault.old) (V.outside vault.new)) }
    ensures numbers { SameNumbers V.used_words V.directory_at V.most_words V.access vault.old vault.new }
    ensures alive { OnOk result (V.alive vault.new) }
{
    sw.sound();
    let admitted = admit(sw, vault, directory, name, password, mode);
    sw.sound();
    admitted
}
