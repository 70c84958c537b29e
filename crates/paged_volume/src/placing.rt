//! The page in which a logical page is staged.

ghost use Rattle.std.specs.Prelude.{◌≡◌, ℕ, ◌<◌, length, MatchOption};
ghost use Rattle.paged_volume.specs.Staging.{IsPlace, IsFull};

use page_map::PageMap;

/// The page in which a logical page is put: the one that it was given since the last commit, or a free one, which is taken. None where it has none and none
/// is free; then the map is as before.
pub fn place_for(map: &mut PageMap, page: u32) -> Option<u32>
    requires { page < length map.old.committed }
    ensures { MatchOption result ((map.new ≡ map.old) × IsFull map.old page) (λ number. IsPlace map.old map.new page number) }
{
    map.sound();
    let staged = map.staged(page);
    if staged != map.committed(page) && staged != 0 {
        return Some(staged);
    }
    map.take_free()
}
