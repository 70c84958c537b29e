//! Where the bytes of a text and of code lie.
ghost use Rattle.std.specs.Prelude.{◌≡◌, ◌+◌, ◌<◌, ◌^◌};
ghost use Rattle.obj_area.specs.Words.{AreBytes};
ghost use Rattle.swizzle.specs.Objects.{words_before as before};

use obj_layout::header::Header;
use obj_layout::kind::Kind;

// The first word with bytes of an object that has this header.
pub fn place_of_bytes(object: u32, header: &Header) -> u32
    requires { object + header.now.refs + 6 < 2 ^ 32 }
    ensures { result ≡ object + 4 + header.now.refs + before header.now.kind }
{
    object + 4 + header.refs + words_before(header.kind)
}

// The number words of an object of this kind that stand before its bytes.
pub fn words_before(kind: Kind) -> u32
    ensures { result ≡ before kind }
{
    match kind {
        Kind::Text => 1,
        Kind::Code => 2,
        _ => 0,
    }
}

// A law: bytes are below 256.
pub fn are_bytes(bytes: &[u8])
    ensures { AreBytes bytes.now }
{}
