//! Lists of words: what each asks for, and that `clap` itself makes the same of the words behind the volume.
#![tactic(auto)]

mod asked;
mod by_clap;
mod rows;

use asked::Row;
use by_clap::agrees;
use rows::{OTHERS, REFUSED, RUNS, TAKEN};
use std::alloc::Global;

// Whether each row is read as it says.
fn are_read(alloc: Global, rows: &[Row]) -> bool {
    rows.iter().all(|row| row.is_read(alloc))
}

#[test]
fn runs_are_read(rt: HostRuntime) {
    assert!(rt; are_read(rt.alloc(), &RUNS));
}

#[test]
fn what_is_no_run_is_refused(rt: HostRuntime) {
    assert!(rt; are_read(rt.alloc(), &REFUSED));
}

#[test]
fn the_other_words_are_read(rt: HostRuntime) {
    assert!(rt; are_read(rt.alloc(), &OTHERS));
}

// Whether `clap` takes the words though they are no command.
fn is_taken(words: &[&str]) -> bool {
    TAKEN.iter().any(|taken| *taken == words)
}

// Whether `clap` reads the same of each row that it reads.
fn agree(alloc: Global, rows: &[Row]) -> bool {
    rows.iter()
        .all(|row| agrees(alloc, row, is_taken(row.words)))
}

#[test]
fn clap_reads_the_same(rt: HostRuntime) {
    assert!(rt; agree(rt.alloc(), &RUNS));
    assert!(rt; agree(rt.alloc(), &REFUSED));
    assert!(rt; agree(rt.alloc(), &OTHERS));
}
