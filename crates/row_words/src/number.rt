use table_rows::Buffer;

/// The least number that is spelled in hex.
const LEAST_IN_HEX: u64 = 65_536;

/// Writes a number in decimal where it is small, and else in hex.
pub fn put_number(out: &mut Buffer, number: u64) {
    if number < LEAST_IN_HEX {
        out.number(number);
    } else {
        out.put("0x");
        out.hex(number);
    }
}
