//! The PIDs and the links of objects, as they stand in the area.
ghost use Rattle.std.specs.Prelude.{◌≡◌, ℕ, ◌+◌, length};
ghost use Rattle.swizzle.specs.Objects.{objects_of};
ghost use Rattle.swizzle.specs.Mapped.{pid_at, link_at, IsPlaceIn};

use obj_area::area::Area;
use pid_map::Links;

/// The headers of an area's objects. The key of an object is its PID, and its link the object that its chain goes on with.
#[derive(Drop)]
pub(crate) struct Headers<'a> {
    pub area: &'a Area,
}

impl Links for Headers<'_> {
    ghost key = { λ headers. pid_at (objects_of headers.area.now.words) };

    ghost next = { λ headers. link_at (objects_of headers.area.now.words) };

    ghost is_place = { λ headers at. IsPlaceIn headers.area.now.words headers.area.now.size at };

    ghost bound = { λ headers. 1 + length headers.area.now.words };

    ghost range = { λ headers at is. (is.from, is.below) };

    fn key_at(&self, at: u32) -> u64 {
        self.area.word(at + 1)
    }

    fn next_at(&self, at: u32) -> u32 {
        self.area.word(at + 3) as u32
    }
}
