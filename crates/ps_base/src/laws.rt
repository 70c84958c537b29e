ghost use Rattle.std.specs.Prelude.{◌≡◌};
ghost use Rattle.ps_base.specs.Limits.{most_text_bytes};

use crate::LONGEST_TEXT;

/// The code has the limit of a text.
pub fn longest_text_is_the_limit()
    ensures { LONGEST_TEXT ≡ most_text_bytes }
{}
