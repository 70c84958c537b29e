//! How many pages a volume can have, that they suffice, and that a new volume is a volume.

ghost use Rattle.std.specs.Prelude.{◌≡◌, ℕ, ◌+◌, ◌*◌, ◌<◌, ◌≤◌, List, false};
ghost use Rattle.volume_parts.specs.Layout.{gate};
ghost use Rattle.volume_parts.specs.Making.{empty_held};
ghost use Rattle.paged_volume.specs.Layout.{capacity_pages, map_pages_of};
ghost use Rattle.paged_volume.specs.Found.{found_in, a_volume};
ghost use Rattle.paged_volume.specs.Making.{IsNew};

/// A law: the pages of what is committed and of what is staged, each with its map pages and its index page, are no more than there are behind
/// the first four.
pub fn the_pages_suffice()
    ensures small { (pages : ℕ) → 32 ≤ pages → pages < 88 → 2 * capacity_pages pages + 2 * map_pages_of (capacity_pages pages) + 4 ≤ pages }
    ensures large { (pages : ℕ) → 88 ≤ pages → pages ≤ 1048576 → 2 * capacity_pages pages + 2 * map_pages_of (capacity_pages pages) + 2 + 4 ≤ pages }
{}

/// A law: the logical pages of the least volume, of two small ones, and of the largest of either format.
pub fn what_volumes_hold()
    ensures least { capacity_pages 32 ≡ 13 }
    ensures small { capacity_pages 64 ≡ 28 }
    ensures indexed { capacity_pages 88 ≡ 40 }
    ensures first { capacity_pages 131072 ≡ 62413 }
    ensures largest { capacity_pages 1048576 ≡ 499320 }
{}

/// A law: what `format` leaves is found as a volume of so many pages, whose first root page is selected, without a database and with one blank page.
pub fn a_new_volume_is_found()
    ensures { (pages : ℕ) (image : List ℕ) → 32 ≤ pages → pages ≤ 1048576 → IsNew pages image → gate image ≡ 1 → found_in image ≡ a_volume pages false empty_held }
{}
