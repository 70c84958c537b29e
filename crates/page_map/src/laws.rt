//! Laws of page maps and map pages.

ghost use Rattle.std.specs.Prelude.{◌≡◌, ℕ, ◌≤◌, List, length, take};
ghost use Rattle.page_map.specs.Numbers.{AreNumbers, bytes_of, first_numbers};
ghost use Rattle.page_map.specs.Rows.{new_volume, put, put_all, switch, pin, unpin, held};

/// How many pages of a small volume are held while it is written, switched and pinned.
pub fn a_small_volume_holds()
    ensures new { held new_volume ≡ 6 }
    ensures switched { held (switch (put_all 13 new_volume)) ≡ 18 }
    ensures again { held (switch (put_all 13 (switch (put_all 13 new_volume)))) ≡ 18 }
    ensures pinned { held (pin 0 (switch (put_all 13 new_volume))) ≡ 18 }
    ensures pinned_and_switched { held (switch (put_all 13 (pin 0 (switch (put_all 13 new_volume))))) ≡ 31 }
    ensures full { held (put 0 (switch (put_all 13 (pin 0 (switch (put_all 13 new_volume)))))) ≡ 32 }
    ensures unpinned { held (put 1 (unpin 0 (put 0 (switch (put_all 13 (pin 0 (switch (put_all 13 new_volume)))))))) ≡ 20 }
{}

/// The numbers that were written into a map page are read from it.
pub fn numbers_are_read_as_they_are_written()
    ensures { (numbers : List ℕ) (count : ℕ) → AreNumbers numbers → count ≤ length numbers → first_numbers (bytes_of numbers) count ≡ take count numbers }
{}
