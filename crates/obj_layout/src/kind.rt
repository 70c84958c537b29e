ghost use Rattle.std.specs.Prelude.{◌≡◌};
ghost use Rattle.obj_layout.specs.Kind.{kind_number, kind_numbered};

/// What an object is. Its number is the low byte of its first word (`docs/formats.md`, "Objects").
#[derive(Clone, Copy, PartialEq, Eq, Debug)]
pub enum Kind {
    Text = 1,
    Structure = 2,
    Vector = 3,
    Scope = 4,
    Closure = 5,
    Code = 6,
    Table = 7,
    Node = 8,
    Directory = 9,
}

impl Kind {
    /// The number that stands for this kind, from 1 to 9.
    pub fn number(self) -> u8
        ensures { result ≡ kind_number self }
    {
        self as u8
    }

    /// The kind that a number stands for.
    pub fn numbered(number: u8) -> Option<Kind>
        ensures { result ≡ kind_numbered number }
    {
        Some(match number {
            1 => Kind::Text,
            2 => Kind::Structure,
            3 => Kind::Vector,
            4 => Kind::Scope,
            5 => Kind::Closure,
            6 => Kind::Code,
            7 => Kind::Table,
            8 => Kind::Node,
            9 => Kind::Directory,
            _ => return None,
        })
    }
}
