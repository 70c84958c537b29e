use ps_parse::ps_scan::ScanFault;
use ps_tree::fault::ParseFault;

/// Why a text has no tree. The first fault in it is answered, and those of its tokens before those of its tree. Want of memory may come at either.
#[derive(Clone, Copy)]
pub enum TextFault {
    /// The text has more than `LONGEST_TEXT` bytes.
    TooLong,
    /// The text has no tokens.
    Scan(ScanFault),
    /// The text has tokens, and no tree.
    Parse(ParseFault),
}
