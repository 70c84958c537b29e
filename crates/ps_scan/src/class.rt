ghost use Rattle.std.specs.Prelude.{◌≡◌};
ghost use Rattle.ps_scan.specs.Class.{class_of, is_name_byte, inner_of, escaped};

/// What a byte is outside strings.
#[derive(Clone, Copy)]
pub enum Class {
    Blank,
    Newline,
    Comment,
    Letter,
    Digit,
    Quote,
    Other,
}

/// What a byte is inside a string.
#[derive(Clone, Copy)]
pub enum Inner {
    Plain,
    Apostrophe,
    Quote,
    Newline,
    Other,
}

#[tactic(auto, unfolding(crate::specs::Class::class_of))]
pub fn class_of(byte: u8) -> Class
    ensures { result ≡ class_of byte }
{
    match byte {
        b'\n' => Class::Newline,
        b' ' | b'\t' | b'\r' => Class::Blank,
        b'!' => Class::Comment,
        b'A'..=b'Z' | b'a'..=b'z' => Class::Letter,
        b'0'..=b'9' => Class::Digit,
        b'"' => Class::Quote,
        _ => Class::Other,
    }
}

/// Whether a name goes on with the byte: a letter, a digit or a dot.
#[tactic(auto, unfolding(crate::specs::Class::is_name_byte))]
pub fn is_name_byte(byte: u8) -> bool
    ensures { result ≡ is_name_byte byte }
{
    byte.is_ascii_alphanumeric() || byte == b'.'
}

#[tactic(auto, unfolding(crate::specs::Class::inner_of))]
pub fn inner_of(byte: u8) -> Inner
    ensures { result ≡ inner_of byte }
{
    match byte {
        b'\n' => Inner::Newline,
        b'"' => Inner::Quote,
        b'\'' => Inner::Apostrophe,
        32..=126 => Inner::Plain,
        _ => Inner::Other,
    }
}

/// What `'` and the byte spell in a string, if they are an escape.
#[tactic(auto, unfolding(crate::specs::Class::escaped))]
pub fn escaped(byte: u8) -> Option<u8>
    ensures { result ≡ escaped byte }
{
    match byte {
        b'n' => Some(b'\n'),
        b't' => Some(b'\t'),
        b'\'' => Some(b'\''),
        b'"' => Some(b'"'),
        _ => None,
    }
}
