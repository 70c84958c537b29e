//! Headers and references of the layout's own examples, word by word.

use obj_layout::header::{Header, LayoutFault, read_header, write_header};
use obj_layout::kind::Kind;
use obj_layout::reference::{Reference, reference_of, word_of};

const KINDS: [Kind; 9] = [
    Kind::Text,
    Kind::Structure,
    Kind::Vector,
    Kind::Scope,
    Kind::Closure,
    Kind::Code,
    Kind::Table,
    Kind::Node,
    Kind::Directory,
];

#[test]
fn numbers_kinds(rt: HostRuntime) {
    let mut number = 0u8;
    for kind in KINDS {
        number = number.saturating_add(1);
        assert_eq!(rt; kind.number(), number);
        assert_eq!(rt; Kind::numbered(number), Some(kind));
    }
    assert_eq!(rt; number, 9);
    assert_eq!(rt; Kind::numbered(0), None);
    assert_eq!(rt; Kind::numbered(10), None);
}

// The text "hello": its home and one word of bytes, PID 7, assigned, chain 9.
#[test]
fn spells_a_header(rt: HostRuntime) {
    let header = Header {
        kind: Kind::Text,
        flags: 1,
        refs: 0,
        nums: 2,
        bytes: 5,
        pid: 7,
        chain: 9,
    };
    let spelled = [0x0000_0000_0000_0101, 7, 0x0000_0005_0000_0002, 9];
    let mut words = [0; 4];
    write_header(&header, &mut words);
    assert_eq!(rt; words, spelled);
    assert_eq!(rt; read_header(&words), Ok(header));
    let structure = [0x0000_0003_0000_0202, 0, 1, 0];
    let read = read_header(&structure);
    assert_eq!(rt;
        read.map(|h| (h.kind, h.flags, h.refs, h.nums)),
        Ok((Kind::Structure, 2, 3, 1))
    );
}

#[test]
fn refuses_in_order(rt: HostRuntime) {
    let halves = 1 << 32;
    for (words, fault) in [
        // Kinds 0 and 10, whatever else is wrong.
        (
            [0xffff_0000, 0, 17 * halves, 0],
            LayoutFault::UnknownKind { found: 0 },
        ),
        (
            [0xffff_000a, 0, 17 * halves, 0],
            LayoutFault::UnknownKind { found: 10 },
        ),
        // Bit 16, before the lengths.
        (
            [0x0001_0001, 0, 17 * halves + 2, 0],
            LayoutFault::BadBits { found: 1 },
        ),
        (
            [0x8000_0001, 0, 0, 0],
            LayoutFault::BadBits { found: 0x8000 },
        ),
        // 17 bytes with two number words.
        (
            [1, 0, 17 * halves + 2, 0],
            LayoutFault::BadLength {
                found: 17,
                wanted: 16,
            },
        ),
        (
            [9, 0, 17 * halves + 2, 0],
            LayoutFault::BadLength {
                found: 17,
                wanted: 16,
            },
        ),
        // One word more than 2^31.
        (
            [3 + (0x7fff_fffb * halves), 0, 2, 0],
            LayoutFault::BadLength {
                found: 0x8000_0001,
                wanted: 0x8000_0000,
            },
        ),
    ] {
        assert_eq!(rt; read_header(&words), Err(fault));
    }
    for words in [
        [1, 0, 16 * halves + 2, 0],
        [9, 0, 16 * halves + 2, 0],
        [3 + (0x7fff_fffb * halves), 0, 1, 0],
    ] {
        assert!(rt; read_header(&words).is_ok());
    }
}

#[test]
fn spells_references(rt: HostRuntime) {
    let top = 1 << 63;
    for (word, reference) in [
        (0, Reference::Nil),
        (1, Reference::Local(1)),
        (0xffff_ffff, Reference::Local(0xffff_ffff)),
        (top + 5, Reference::Pid(5)),
    ] {
        assert_eq!(rt; reference_of(word), Some(reference));
    }
    assert_eq!(rt; reference_of(1 << 32), None);
    assert_eq!(rt; reference_of(top - 1), None);
    assert_eq!(rt; word_of(Reference::Nil), 0);
    assert_eq!(rt; word_of(Reference::Local(3)), 3);
    assert_eq!(rt; word_of(Reference::Pid(5)), top + 5);
}
