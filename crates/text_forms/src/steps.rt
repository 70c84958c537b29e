//! The text of a class or of a scope, field by field (`docs/formats.md`).
ghost use Rattle.std.specs.Prelude.{◌≡◌, ◌≤◌, ◌-◌, length};
ghost use Rattle.text_forms.specs.Forms.{form_here};
ghost use Rattle.text_forms.specs.Steps.{behind_first, is_field};

use crate::forms::Form;

// The bytes after the first such mark, none where there is none.
fn behind(bytes: &[u8], mark: u8) -> &[u8]
    ensures found { result.now ≡ behind_first mark bytes.now }
    ensures shorter { length result.now ≤ length bytes.now - 1 }
{
    for (place, byte) in bytes.iter().enumerate() {
        if *byte == mark {
            return bytes.split_at(place + 1).1;
        }
    }
    &[]
}

/// What stands after the opening bracket: the first field, if there is one.
pub fn first_field(text: &[u8]) -> &[u8]
    ensures found { result.now ≡ behind_first 40 text.now }
    ensures shorter { length result.now ≤ length text.now - 1 }
{
    behind(text, b'(')
}

/// What stands after the next semicolon: a further field, if there is one.
pub fn next_field(rest: &[u8]) -> &[u8]
    ensures found { result.now ≡ behind_first 59 rest.now }
    ensures shorter { length result.now ≤ length rest.now - 1 }
{
    behind(rest, b';')
}

/// Whether a field begins here, and not the bracket that closes.
pub fn is_field(rest: &[u8]) -> bool
    ensures { result ≡ is_field rest.now }
{
    !matches!(rest, [] | [b')', ..])
}

/// What the field holds that begins here: its type stands before a blank.
pub fn form_here(rest: &[u8]) -> Form
    ensures { result ≡ form_here rest.now }
{
    if rest.starts_with(b"int ") {
        Form::Number
    } else if rest.starts_with(b"bool ") {
        Form::Flag
    } else {
        Form::Reference
    }
}
