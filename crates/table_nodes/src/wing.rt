ghost use Rattle.std.specs.Prelude.{◌≡◌, None};

use crate::sides::Sides;

/// What a turn looks at: the sides of a node, and the sides of these, as far as they were opened.
#[derive(Clone, Copy)]
pub struct Wing {
    pub sides: Option<Sides>,
    pub left: Option<Sides>,
    pub right: Option<Sides>,
}

/// A wing of which nothing was opened.
pub fn unknown() -> Wing
    ensures { result ≡ record { sides = None; left = None; right = None } }
{
    Wing {
        sides: None,
        left: None,
        right: None,
    }
}
