//! The shape of a directory: three references for each of 1 to 256 databases, and its home.
ghost use Rattle.std.specs.Prelude.{◌≡◌, ℕ, ◌*◌, ◌<◌, MatchOption};
ghost use Rattle.joint_ops.specs.obj_layout.Kind.{kind_number};
ghost use Rattle.joint_ops.specs.heap_places.Places.{misfit_view};
ghost use Rattle.joint_ops.specs.swizzle.Heap.{IsHeld, header_at};
ghost use Rattle.db_dir.specs.Directories.{IsShaped, HasPlaces, refs_damage, shape_damage};

use joint_ops::heap_places::places::Misfit;
use joint_ops::obj_layout::kind::Kind;
use joint_ops::swizzle::swizzle::Swizzle;

/// The most databases of a volume.
pub const MOST_DATABASES: u32 = 256;

/// What isn't so of an object that should be a directory, as two numbers; None exactly where all is. Its kind is tested first, then how many number words it has,
/// which is 1, and then how many references.
pub fn misfit(sw: &Swizzle, object: u32) -> Option<Misfit>
    requires { IsHeld sw.now object }
    ensures tested { misfit_view result ≡ shape_damage (kind_number (header_at sw.now object).kind) (header_at sw.now object).refs (header_at sw.now object).nums }
    ensures shaped { MatchOption result (IsShaped sw.now object) (λ misfit. IsShaped sw.now object → ⊥) }
{
    let header = sw.header(object);
    if !sw.is_kind(object, Kind::Directory) {
        return Some(Misfit {
            found: u64::from(header.kind.number()),
            wanted: u64::from(Kind::Directory.number()),
        });
    }
    if header.nums != 1 {
        return Some(Misfit {
            found: u64::from(header.nums),
            wanted: 1,
        });
    }
    misfit_of_refs(header.refs)
}

// What isn't so of the number of a directory's references.
fn misfit_of_refs(refs: u32) -> Option<Misfit>
    ensures tested { misfit_view result ≡ refs_damage refs }
    ensures shaped { MatchOption result ((count : ℕ) × HasPlaces refs count) (λ misfit. (count : ℕ) → HasPlaces refs count → ⊥) }
{
    if refs < 3 {
        return Some(Misfit {
            found: u64::from(refs),
            wanted: 3,
        });
    }
    if refs > 3 * MOST_DATABASES {
        return Some(Misfit {
            found: u64::from(refs),
            wanted: u64::from(3 * MOST_DATABASES),
        });
    }
    if refs % 3 != 0 {
        return Some(Misfit {
            found: u64::from(refs),
            wanted: u64::from(refs - refs % 3),
        });
    }
    None
}

/// How many databases a directory names.
pub fn database_count(sw: &Swizzle, directory: u32) -> u32
    requires { IsShaped sw.now directory }
    ensures { HasPlaces (header_at sw.now directory).refs result }
{
    sw.refs(directory) / 3
}
