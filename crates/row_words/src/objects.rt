//! The words of forged objects.

use crate::words::{number_of, parted};
use std::alloc::Global;

/// 1 in the upper half of a word.
const MANY: u64 = 1 << 32;

/// The word of a reference, without the PID.
const PID: u64 = 1 << 63;

/// The most of a word that are put at once.
const MOST_TIMES: u64 = 1 << 21;

/// The words of these objects after word 0: each line has those of one object, or its name. There are none where one is spelled wrong, and
/// where there is no memory.
pub fn words_of(alloc: Global, names: &[u8], objects: &[u8]) -> Option<Vec<u64>> {
    let mut words = Vec::new(alloc);
    if put_times(&mut words, 0, 1) && put_objects(&mut words, names, objects) {
        Some(words)
    } else {
        None
    }
}

// Puts the words of these objects, and answers whether all could be put, as the functions below do.
fn put_objects(words: &mut Vec<u64>, names: &[u8], objects: &[u8]) -> bool {
    for line in objects.split(|byte| *byte == b'\n') {
        if !put_object(words, meaning(names, line).unwrap_or(line)) {
            return false;
        }
    }
    true
}

// What a name stands for by these lines `NAME = WORDS`.
fn meaning<'a>(names: &'a [u8], name: &[u8]) -> Option<&'a [u8]> {
    for line in names.split(|byte| *byte == b'\n') {
        let (known, rest) = parted(line, b' ');
        if known == name {
            return rest.strip_prefix(b"= ");
        }
    }
    None
}

fn put_object(words: &mut Vec<u64>, spelled: &[u8]) -> bool {
    for word in spelled.split(|byte| *byte == b' ') {
        if !word.is_empty() && !put_word(words, word) {
            return false;
        }
    }
    true
}

// Puts a word, or `COUNT:WORD`, which is so many of it.
fn put_word(words: &mut Vec<u64>, spelled: &[u8]) -> bool {
    let (count, word) = match parted(spelled, b':') {
        (word, b"") => (Some(1), sum_of(word)),
        (count, word) => (number_of(count), sum_of(word)),
    };
    match (count, word) {
        (Some(count), Some(word)) => put_times(words, word, count),
        _ => false,
    }
}

fn put_times(words: &mut Vec<u64>, word: u64, times: u64) -> bool {
    if times > MOST_TIMES {
        return false;
    }
    for _ in 0..times {
        if words.push(word).is_err() {
            return false;
        }
    }
    true
}

// The word that a sum spells.
fn sum_of(spelled: &[u8]) -> Option<u64> {
    let mut sum = 0u64;
    for part in spelled.split(|byte| *byte == b'+') {
        sum = sum.checked_add(part_of(part)?)?;
    }
    Some(sum)
}

// The number that a part of a sum spells.
fn part_of(part: &[u8]) -> Option<u64> {
    match part {
        b"many" => Some(MANY),
        b"pid" => Some(PID),
        _ => product_of(part),
    }
}

// A number, or so many times `many`.
fn product_of(part: &[u8]) -> Option<u64> {
    let (number, factor) = parted(part, b'*');
    let number = number_of(number)?;
    match factor {
        b"" => Some(number),
        b"many" => number.checked_mul(MANY),
        _ => None,
    }
}
