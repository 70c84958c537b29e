//! Instructions and their spellings, one way and the other.

use ps_base::instr::Instr;
use ps_base::line::Line;
use ps_code::decode::decode;
use ps_code::encode::encode;
use ps_code::ps_cases::find::{find_code, find_name};
use ps_code::table::rows;

// Whether the instruction with this spelling stands at the start of the bytes.
fn begins_with(bytes: &[u8], spelling: &[u8]) -> bool {
    let Some((instr, width)) = decode(bytes) else {
        return false;
    };
    let mut again = [0; 17];
    encode(instr, &mut again) == width && width == spelling.len() && again.starts_with(spelling)
}

#[test]
fn instructions_have_their_spelling(rt: HostRuntime) {
    let rows: [(Instr, &[u8]); 8] = [
        (Instr::Int { v: 3 }, b"\x01\x03\x00\x00\x00"),
        (Instr::Int { v: -1 }, b"\x01\xff\xff\xff\xff"),
        (Instr::Int { v: i32::MIN }, b"\x01\x00\x00\x00\x80"),
        (Instr::True, b"\x02"),
        (
            Instr::KeptM {
                u: 1,
                i: 0x0403_0201,
            },
            b"\x0a\x01\x00\x00\x00\x01\x02\x03\x04",
        ),
        (
            Instr::SetFieldM {
                c: 2,
                i: 1,
                line: Line(7),
            },
            b"\x30\x02\x00\x00\x00\x01\x00\x00\x00\x07\x00\x00\x00",
        ),
        (
            Instr::ScanI {
                q: 4,
                s: 5,
                t: 6,
                line: Line(u32::MAX),
            },
            b"\x47\x04\x00\x00\x00\x05\x00\x00\x00\x06\x00\x00\x00\xff\xff\xff\xff",
        ),
        (Instr::JumpTrue { t: 9 }, b"\x4d\x09\x00\x00\x00"),
    ];
    for (instr, spelling) in rows {
        let mut buffer = [0xee; 17];
        let width = encode(instr, &mut buffer);
        assert_eq!(rt; width, spelling.len());
        assert!(rt; buffer.starts_with(spelling));
        assert!(rt; buffer[width.min(17)..].iter().all(|byte| *byte == 0xee));
        assert!(rt; begins_with(&buffer, spelling));
        assert!(rt; begins_with(spelling, spelling));
    }
}

// `int 3`, `dup.m`, `drop.m`, `write.i`, `return`, one after the other.
#[test]
fn a_code_is_read_one_by_one(rt: HostRuntime) {
    let spellings: [&[u8]; 5] = [
        b"\x01\x03\x00\x00\x00",
        b"\x49",
        b"\x4b",
        b"\x40\x00\x00\x00\x00\x01\x00\x00\x00",
        b"\x3e\x00\x00\x00\x00",
    ];
    let mut rest: &[u8] =
        b"\x01\x03\x00\x00\x00\x49\x4b\x40\x00\x00\x00\x00\x01\x00\x00\x00\x3e\x00\x00\x00\x00";
    for spelling in spellings {
        assert!(rt; begins_with(rest, spelling));
        if let Some((_, width)) = decode(rest) {
            rest = &rest[width..];
        }
    }
    assert!(rt; rest.is_empty());
}

#[test]
fn other_bytes_are_no_instruction(rt: HostRuntime) {
    assert!(rt; decode(b"").is_none());
    let mut bytes = [0; 18];
    assert!(rt; decode(&bytes).is_none());
    for code in 78..=255 {
        bytes[0] = code;
        assert!(rt; decode(&bytes).is_none());
    }
}

// Each row with its operands, and cut one byte short.
#[test]
fn each_row_has_its_operands(rt: HostRuntime) {
    let mut bytes = [1; 18];
    for row in rows() {
        let width = 1 + 4 * usize::from(row.operands);
        assert!(rt; width <= 17);
        bytes[0] = row.code;
        assert!(rt; matches!(decode(&bytes), Some((_, found)) if found == width));
        assert!(rt; decode(&bytes[..width]).is_some());
        assert!(rt; decode(&bytes[..width - 1]).is_none());
    }
}

#[test]
fn names_and_codes_have_their_rows(rt: HostRuntime) {
    let names: [(&[u8], Option<usize>); 4] = [
        (b"int", Some(0)),
        (b"set.field.m", Some(47)),
        (b"jump.true", Some(76)),
        (b"jump.never", None),
    ];
    for (name, place) in names {
        assert_eq!(rt; find_name(rows(), name), place);
    }
    for (code, place) in [(48, Some(47)), (0, None)] {
        assert_eq!(rt; find_code(rows(), code), place);
    }
}
