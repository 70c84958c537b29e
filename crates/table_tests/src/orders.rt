//! Enters and removals in many orders, each compared with a list.

use crate::call::Orders;
use crate::scene::{
    Refused, count, enter_number, enter_string, next_number, number_value, string_value,
};
use crate::trees::height_of_table;
use memory_vault::memory::MemoryVault;
use table_lib::table_nodes::heap_places::swizzle::swizzle::Swizzle;

/// The most keys of an order test.
const MOST_KEYS: usize = 7;

// The PID of the value of a key. The values lie in the store after the table, each in five words.
fn value_of(key: usize) -> u64 {
    9 + 5 * (key as u64 % 8)
}

// The int of a key.
fn int_of(key: usize) -> i32 {
    match i32::try_from(key) {
        Ok(int) => int,
        Err(_) => i32::MAX,
    }
}

// The keys below `keys` in the order of this number.
fn order_of(number: u32, keys: usize) -> [usize; MOST_KEYS] {
    let mut order = [0; MOST_KEYS];
    let mut rest = number as usize;
    let mut used = [false; MOST_KEYS];
    for place in 0..keys.min(MOST_KEYS) {
        let left = keys.min(MOST_KEYS) - place;
        order[place] = take_unused(&mut used, rest % left);
        rest /= left;
    }
    order
}

// The unused key after so many unused ones; it is used then.
fn take_unused(used: &mut [bool; MOST_KEYS], skip: usize) -> usize {
    let mut left = skip;
    for key in 0..MOST_KEYS {
        if !used[key] {
            if left == 0 {
                used[key] = true;
                return key;
            }
            left -= 1;
        }
    }
    0
}

// Whether the table has exactly the keys that the list has.
fn agrees(vault: &mut MemoryVault, sw: &mut Swizzle, table: u64, has: &[bool; MOST_KEYS]) -> bool {
    let mut last = None;
    let mut pairs = 0u32;
    for key in 0..MOST_KEYS {
        let wanted = if has[key] { Some(value_of(key)) } else { None };
        match number_value(vault, sw, table, int_of(key)) {
            Ok(found) => {
                if found != wanted {
                    return false;
                }
            }
            Err(_) => return false,
        }
        if has[key] {
            pairs = pairs.wrapping_add(1);
            match next_number(vault, sw, table, last) {
                Ok(Some((next, value))) => {
                    if next != int_of(key) || value != value_of(key) {
                        return false;
                    }
                }
                _ => return false,
            }
            last = Some(int_of(key));
        }
    }
    ends_after(vault, sw, table, last) && has_pairs(vault, sw, table, pairs)
}

// Whether the table agrees with the list on a key and on the number of pairs, and its tree is balanced.
fn agrees_on(
    vault: &mut MemoryVault,
    sw: &mut Swizzle,
    table: u64,
    has: &[bool; MOST_KEYS],
    key: usize,
) -> bool {
    let mut pairs = 0u32;
    for other in 0..MOST_KEYS {
        if has[other] {
            pairs = pairs.wrapping_add(1);
        }
    }
    let wanted = match has.get(key) {
        Some(true) => Some(value_of(key)),
        _ => None,
    };
    match number_value(vault, sw, table, int_of(key)) {
        Ok(found) => found == wanted && has_pairs(vault, sw, table, pairs),
        Err(_) => false,
    }
}

// Whether no key is after the last one.
fn ends_after(vault: &mut MemoryVault, sw: &mut Swizzle, table: u64, last: Option<i32>) -> bool {
    match next_number(vault, sw, table, last) {
        Ok(None) => true,
        _ => false,
    }
}

// Whether there are so many pairs, and the tree is balanced with right heights.
fn has_pairs(vault: &mut MemoryVault, sw: &mut Swizzle, table: u64, pairs: u32) -> bool {
    match count(vault, sw, table) {
        Ok(found) => found == pairs && is_balanced(vault, sw, table),
        Err(_) => false,
    }
}

fn is_balanced(vault: &mut MemoryVault, sw: &mut Swizzle, table: u64) -> bool {
    match height_of_table(vault, sw, table) {
        Ok(Some(_)) => true,
        _ => false,
    }
}

// Whether keys are entered in an order, or taken out, and the table agrees with the list after each call.
fn goes_in_order(
    vault: &mut MemoryVault,
    sw: &mut Swizzle,
    table: u64,
    keys: usize,
    number: u32,
    enters: bool,
) -> bool {
    let order = order_of(number, keys);
    let mut has = [!enters; MOST_KEYS];
    for key in keys..MOST_KEYS {
        has[key] = false;
    }
    for place in 0..MOST_KEYS {
        if place >= keys {
            break;
        }
        let key = order[place];
        let value = if enters { Some(value_of(key)) } else { None };
        match enter_number(vault, sw, table, int_of(key), value) {
            Ok(()) => {
                if key < MOST_KEYS {
                    has[key] = enters;
                }
            }
            Err(_) => return false,
        }
        if !agrees_on(vault, sw, table, &has, key) {
            return false;
        }
    }
    agrees(vault, sw, table, &has)
}

/// The number of the first time that the table differed from the list, if it did.
pub fn first_difference(
    vault: &mut MemoryVault,
    sw: &mut Swizzle,
    table: u64,
    orders: Orders,
) -> Option<u32> {
    let keys = (orders.count as usize).min(MOST_KEYS);
    let mut into = orders.first;
    for time in 0..orders.times {
        sw.reset();
        let agreed = goes_in_order(vault, sw, table, keys, into, true)
            && goes_in_order(vault, sw, table, keys, time, false);
        if !agreed {
            return Some(time);
        }
        into = into.wrapping_add(orders.step);
    }
    None
}

/// Enters so many keys, the products of a factor, and looks each up. False where one isn't found.
pub fn has_many(
    vault: &mut MemoryVault,
    sw: &mut Swizzle,
    table: u64,
    keys: u32,
    factor: i32,
) -> Result<bool, Refused> {
    for number in 0..keys {
        match enter_number(
            vault,
            sw,
            table,
            factor.wrapping_mul(number.cast_signed()),
            Some(9),
        ) {
            Ok(()) => {}
            Err(refused) => return Err(refused),
        }
    }
    for number in 0..keys {
        match number_value(vault, sw, table, factor.wrapping_mul(number.cast_signed())) {
            Ok(Some(9)) => {}
            Ok(_) => return Ok(false),
            Err(refused) => return Err(refused),
        }
    }
    Ok(true)
}

/// The most words that come into an empty area where one of the keys below `keys` is looked up, none where a key isn't found.
pub fn most_words(
    vault: &mut MemoryVault,
    sw: &mut Swizzle,
    table: u64,
    keys: u32,
) -> Result<Option<u32>, Refused> {
    let mut most = 0u32;
    for number in 0..keys {
        sw.reset();
        match number_value(vault, sw, table, number.cast_signed()) {
            Ok(Some(_)) => {}
            Ok(None) => return Ok(None),
            Err(refused) => return Err(refused),
        }
        most = most.max(sw.top().saturating_sub(1));
    }
    Ok(Some(most))
}

// The most bytes of a string.
const MOST_BYTES: usize = 65_535;

// Whether the strings of so many bytes that end with these have these values, and the one without the last byte.
fn has_values(
    vault: &mut MemoryVault,
    sw: &mut Swizzle,
    table: u64,
    bytes: &mut [u8; MOST_BYTES],
) -> Result<bool, Refused> {
    let before = match string_value(vault, sw, table, &bytes[..MOST_BYTES - 1]) {
        Ok(found) => found,
        Err(refused) => return Err(refused),
    };
    bytes[MOST_BYTES - 1] = b'a';
    let first = match string_value(vault, sw, table, bytes) {
        Ok(found) => found,
        Err(refused) => return Err(refused),
    };
    bytes[MOST_BYTES - 1] = b'b';
    match string_value(vault, sw, table, bytes) {
        Ok(last) => Ok(before == Some(9) && first == Some(14) && last == Some(19)),
        Err(refused) => Err(refused),
    }
}

/// Enters two strings of the most bytes, which differ in the last one, and the one without it, and looks each up. False where one hasn't its value.
pub fn has_long(vault: &mut MemoryVault, sw: &mut Swizzle, table: u64) -> Result<bool, Refused> {
    let mut bytes = [b'a'; MOST_BYTES];
    match enter_string(vault, sw, table, &bytes, Some(14)) {
        Ok(()) => {}
        Err(refused) => return Err(refused),
    }
    match enter_string(vault, sw, table, &bytes[..MOST_BYTES - 1], Some(9)) {
        Ok(()) => {}
        Err(refused) => return Err(refused),
    }
    bytes[MOST_BYTES - 1] = b'b';
    match enter_string(vault, sw, table, &bytes, Some(19)) {
        Ok(()) => has_values(vault, sw, table, &mut bytes),
        Err(refused) => Err(refused),
    }
}
