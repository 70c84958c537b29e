//! Where each name stands last.

ghost use Rattle.std.specs.Prelude.{◌≡◌, Some, IsSome, IfOk, OnOk, OnErr};
ghost use Rattle.std.specs.Str.{bytes_eq};
ghost use Rattle.indexmap.specs.IndexMap.{get_by};
ghost use Rattle.ps_log.specs.inside.Kept.{place_in, Replaces, AreAlike};

use indexmap::IndexMap;
use std::alloc::AllocError;

/// The place of each name that was put. A name whose entries were taken back is left without a
/// place.
pub(crate) type Last = IndexMap<Vec<u8>, Option<usize>>;

/// The place of the name.
pub(crate) fn place_of(last: &Last, name: &[u8]) -> Option<usize>
    ensures { result ≡ place_in last.now name.now }
{
    last.get(name).copied().flatten()
}

/// Gives the name its place, and answers the one from before.
pub(crate) fn put_place(
    last: &mut Last,
    name: &[u8],
    place: usize,
) -> Result<Option<usize>, AllocError>
    ensures before { IfOk result (λ before. before ≡ place_in last.old name.now) }
    ensures put { OnOk result (Replaces last.old last.new name.now (Some place)) }
    ensures refused { OnErr result (AreAlike last.old last.new) }
{
    let key = Vec::from_slice(*last.allocator(), name)?;
    let before = last.insert(key, Some(place))?;
    Ok(before.flatten())
}

/// Gives a name that was put the place from before.
pub(crate) fn restore_place(last: &mut Last, name: &[u8], place: Option<usize>)
    ensures { IsSome (get_by (λ k. bytes_eq name.now k.items) last.old) → Replaces last.old last.new name.now place }
{
    if let Some(kept) = last.get_mut(name) {
        *kept = place;
    }
}
