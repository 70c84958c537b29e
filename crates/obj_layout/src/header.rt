ghost use Rattle.std.specs.Prelude.{◌≡◌, ◌+◌, ◌*◌, ◌^◌, Some, None, MatchResult, IfOk};
ghost use Rattle.obj_layout.specs.Header.{HasFitFields, HasFitLengths, header_fault, header_words, length_fault};

use crate::kind::Kind;

/// The four words at the start of each object, as `docs/formats.md` has them under "Objects".
#[derive(Clone, Copy, PartialEq, Eq, Debug)]
pub struct Header {
    pub kind: Kind,
    /// Bit 0: assigned. Bit 1: marked by the walk.
    pub flags: u8,
    /// The number of references.
    pub refs: u32,
    /// The number of number words.
    pub nums: u32,
    /// The length in bytes of what the number words of a text or of code hold.
    pub bytes: u32,
    /// The object's PID, 0 for none.
    pub pid: u64,
    /// The next object in the PID map's chain, 0 for none.
    pub chain: u64,
}

/// Why four words are no header. The first reason in this order is answered.
#[derive(Clone, Copy, PartialEq, Eq, Debug)]
pub enum LayoutFault {
    /// The low byte is the number of no kind.
    UnknownKind { found: u8 },
    /// Bits 16 to 31 of the first word aren't all clear.
    BadBits { found: u16 },
    /// The bytes are more than the number words hold, or the words are more than 2^31.
    BadLength { found: u64, wanted: u64 },
}

const GREATEST_OBJECT: u64 = 1 << 31;

/// Reads a header.
pub fn read_header(words: &[u64; 4]) -> Result<Header, LayoutFault>
    ensures read { IfOk result (λ header. header_words header ≡ words.now) }
    ensures fields { IfOk result HasFitFields }
    ensures lengths { IfOk result HasFitLengths }
    ensures refused { MatchResult result (λ _. header_fault words.now ≡ None) (λ fault. header_fault words.now ≡ Some fault) }
{
    let number = (words[0] & 0xff) as u8;
    let Some(kind) = Kind::numbered(number) else {
        return Err(LayoutFault::UnknownKind { found: number });
    };
    let spare = (words[0] >> 16 & 0xffff) as u16;
    if spare != 0 {
        return Err(LayoutFault::BadBits { found: spare });
    }
    let refs = (words[0] >> 32) as u32;
    let nums = (words[2] & 0xffff_ffff) as u32;
    let bytes = (words[2] >> 32) as u32;
    if let Some(fault) = fault_of_lengths(refs, nums, bytes) {
        return Err(fault);
    }
    Ok(Header {
        kind,
        flags: (words[0] >> 8 & 0xff) as u8,
        refs,
        nums,
        bytes,
        pid: words[1],
        chain: words[3],
    })
}

// What is wrong with the lengths of an object.
fn fault_of_lengths(refs: u32, nums: u32, bytes: u32) -> Option<LayoutFault>
    ensures { result ≡ length_fault refs nums bytes }
{
    let room = 8 * nums as u64;
    if bytes as u64 > room {
        return Some(LayoutFault::BadLength {
            found: bytes as u64,
            wanted: room,
        });
    }
    let words = 4 + refs as u64 + nums as u64;
    if words > GREATEST_OBJECT {
        return Some(LayoutFault::BadLength {
            found: words,
            wanted: GREATEST_OBJECT,
        });
    }
    None
}

// The word whose bits 0 to 31 are `low` and whose bits 32 to 63 are `high`.
fn word_of_halves(low: u32, high: u32) -> u64
    ensures { result ≡ low + 2 ^ 32 * high }
{
    low as u64 | (high as u64) << 32
}

/// Writes a header.
pub fn write_header(header: &Header, into: &mut [u64; 4])
    requires { HasFitLengths header.now }
    ensures { into.new ≡ header_words header.now }
{
    let sort = header.kind.number() as u32 | (header.flags as u32) << 8;
    *into = [
        word_of_halves(sort, header.refs),
        header.pid,
        word_of_halves(header.nums, header.bytes),
        header.chain,
    ];
}
