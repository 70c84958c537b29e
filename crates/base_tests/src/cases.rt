//! Rows that are found by their code or by their name.

use ps_cases::find::{find_code, find_name};
use ps_cases::row::Row;

const FRUIT: [Row; 3] = [
    Row {
        code: 7,
        operands: 0,
        name: "fig",
    },
    Row {
        code: 2,
        operands: 1,
        name: "figs",
    },
    Row {
        code: 255,
        operands: 2,
        name: "",
    },
];

fn codes_hold() -> bool {
    find_code(&FRUIT, 7) == Some(0)
        && find_code(&FRUIT, 2) == Some(1)
        && find_code(&FRUIT, 255) == Some(2)
        && find_code(&FRUIT, 0) == None
        && find_code(&[], 7) == None
}

#[test]
fn rows_are_found_by_code(rt: HostRuntime) {
    assert!(rt; codes_hold());
}

fn names_hold() -> bool {
    find_name(&FRUIT, b"fig") == Some(0)
        && find_name(&FRUIT, b"figs") == Some(1)
        && find_name(&FRUIT, b"") == Some(2)
        && find_name(&FRUIT, b"fi") == None
        && find_name(&[], b"fig") == None
}

#[test]
fn rows_are_found_by_name(rt: HostRuntime) {
    assert!(rt; names_hold());
}
