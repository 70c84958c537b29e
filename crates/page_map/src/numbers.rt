//! The numbers of physical pages that stand in a map page, four bytes each, the low one first.
ghost use Rattle.std.specs.Prelude.{◌≡◌, ◌+◌, ◌*◌, ◌≤◌, ◌++◌, length, take, drop};
ghost use Rattle.byteorder.specs.Endian.{little_bytes};
ghost use Rattle.page_map.specs.Numbers.{number_at};

use byteorder::{ByteOrder, LittleEndian};

/// The numbers that a map page has.
pub(crate) const NUMBERS: usize = 1024;

/// The number at an index.
pub(crate) fn read_number(bytes: &[u8], index: usize) -> u32
    requires { 4 * index + 4 ≤ length bytes.now }
    ensures { result ≡ number_at bytes.now index }
{
    LittleEndian::read_u32(&bytes[4 * index..])
}

/// Writes a number at an index. All other bytes stay.
pub(crate) fn write_number(bytes: &mut [u8], index: usize, number: u32)
    requires { 4 * index + 4 ≤ length bytes.old }
    ensures { bytes.new ≡ take (4 * index) bytes.old ++ (little_bytes 4 number ++ drop (4 * index + 4) bytes.old) }
{
    LittleEndian::write_u32(&mut bytes[4 * index..], number);
}
