//! Which database has a name.
ghost use Rattle.std.specs.Prelude.{◌≡◌, ◌*◌, List, Some, IfErr, IfSome, OnOk, MatchResult};
ghost use Rattle.joint_ops.specs.obj_layout.Storing.{SameNumbers};
ghost use Rattle.joint_ops.specs.obj_layout.declared.reference.Reference.{Reference};
ghost use Rattle.joint_ops.specs.swizzle.Heap.{IsHeld, header_at};
ghost use Rattle.joint_ops.specs.swizzle.Joint.{shown_at};
ghost use Rattle.joint_ops.specs.swizzle.Text.{text_at};
ghost use Rattle.joint_ops.specs.swizzle.Reading.{FailsReading};
ghost use Rattle.joint_ops.specs.heap_meaning.Paired.{paired};
ghost use Rattle.joint_ops.specs.Seeing.{Gains};
ghost use Rattle.joint_ops.specs.World.{seen, BreaksOff};
ghost use Rattle.joint_ops.specs.ps_heap.Databases.{Directory, named};
ghost use Rattle.db_dir.specs.Directories.{IsShaped, IsDirectoryAt, names_in};
ghost use Rattle.db_dir.specs.Entries.{GainsBy, ReadsSome};
ghost use Rattle.db_dir.specs.Found.{Finds};
ghost use Rattle.db_dir.specs.Answers.{number_in};

use crate::entry::has_text;
use crate::shape::database_count;
use joint_ops::obj_layout::kind::Kind;
use joint_ops::obj_layout::vault::Vault;
use joint_ops::swizzle::fault::SwizzleFault;
use joint_ops::swizzle::swizzle::Swizzle;

/// The most bytes of a database's name.
pub const MOST_NAME_BYTES: u32 = 64;

/// The number, from 1, of the first database of a directory that has this name, which is a text; None exactly where none has it. The names are fetched where they
/// aren't in the area, each tested before the next is looked at: a name that is no text of 1 to 64 bytes is damaged.
pub fn find<V: Vault>(
    sw: &mut Swizzle,
    vault: &mut V,
    directory: Option<u32>,
    name: u32,
) -> Result<Option<u32>, SwizzleFault>
    requires alive { V.alive vault.old }
    requires directory { IfSome directory (IsShaped sw.old) }
    requires held { IsHeld sw.old name }
    requires text { (header_at sw.old name).kind ≡ Kind.Text }
    ensures found { (databases : Directory) (row : List Reference) → IsDirectoryAt sw.old (seen sw.old (V.outside vault.old)) (paired row) directory databases
        → MatchResult result (λ number. (number ≡ number_in (named databases (text_at sw.old name))) × Gains sw.old sw.new (V.outside vault.old) (V.outside vault.new)) (BreaksOff sw.old sw.new (V.outside vault.old) (V.outside vault.new)) }
    ensures finds { Finds sw.old sw.new (V.outside vault.old) (V.outside vault.new) directory (text_at sw.old name) result }
    ensures reads { OnOk result (ReadsSome sw.old sw.new (V.outside vault.old) (V.outside vault.new)) }
    ensures gains { OnOk result (GainsBy sw.old sw.new (V.outside vault.old) (V.outside vault.new) (names_in sw.old directory)) }
    ensures fails { IfErr result (FailsReading (V.outside vault.old) (V.outside vault.new)) }
    ensures numbers { SameNumbers V.used_words V.directory_at V.most_words V.access vault.old vault.new }
    ensures alive { OnOk result (V.alive vault.new) }
{
    sw.sound();
    let Some(at) = directory else {
        return Ok(None);
    };
    let found = find_in(sw, vault, at, name);
    sw.sound();
    found
}

// The same in a directory that there is.
fn find_in<V: Vault>(
    sw: &mut Swizzle,
    vault: &mut V,
    directory: u32,
    name: u32,
) -> Result<Option<u32>, SwizzleFault>
    requires alive { V.alive vault.old }
    requires directory { IsShaped sw.old directory }
    requires held { IsHeld sw.old name }
    requires text { (header_at sw.old name).kind ≡ Kind.Text }
    ensures finds { Finds sw.old sw.new (V.outside vault.old) (V.outside vault.new) (Some directory) (text_at sw.old name) result }
    ensures reads { OnOk result (ReadsSome sw.old sw.new (V.outside vault.old) (V.outside vault.new)) }
    ensures gains { OnOk result (GainsBy sw.old sw.new (V.outside vault.old) (V.outside vault.new) (shown_at sw.old directory).refs) }
    ensures fails { IfErr result (FailsReading (V.outside vault.old) (V.outside vault.new)) }
    ensures numbers { SameNumbers V.used_words V.directory_at V.most_words V.access vault.old vault.new }
    ensures alive { OnOk result (V.alive vault.new) }
{
    sw.sound();
    let count = database_count(sw, directory);
    for place in 0..count {
        sw.sound();
        match has_text(sw, vault, directory, 3 * place, 1, MOST_NAME_BYTES, name) {
            Ok(same) => {
                if same {
                    return Ok(Some(place + 1));
                }
            }
            Err(fault) => return Err(fault),
        }
    }
    Ok(None)
}
