//! Calls of a page map and what they answer, one by one.

use page_map::PageMap;

/// A call, or calls, and what is seen.
#[derive(Clone, Copy)]
pub enum Step {
    /// This page is claimed, and whether it is taken.
    Claim(u32, bool),
    /// A free page is taken: this one, the lowest, or none.
    Take(Option<u32>),
    /// This logical page gets this physical one, which is taken where it is free.
    Stage(u32, u32),
    /// This logical page gets none.
    StageNone(u32),
    /// This logical page is put: it gets a free page, if it wasn't staged since the last switch. Whether there is a page for it.
    Put(u32, bool),
    /// All logical pages are put, and there is a page for each.
    PutAll,
    /// It is settled, with these two numbers for map pages.
    Settle(u32, u32),
    /// It is settled, with a free page as map page.
    Switch,
    Pin(u32),
    Unpin(u32),
    /// A logical page, and what is committed, and what is staged for it.
    Lists(u32, u32, u32),
    /// A pin, a logical page, and what the pin has for it.
    Pinned(u32, u32, u32),
    /// So many pages aren't free.
    Held(u32),
}

/// Stages a physical page for a logical one.
pub fn stage(map: &mut PageMap, page: u32, physical: u32) -> bool {
    if page >= map.logical() || physical < 4 || physical >= map.pages() {
        return false;
    }
    map.claim(physical);
    map.replace(page, physical);
    true
}

/// Stages none for a logical page.
pub fn stage_none(map: &mut PageMap, page: u32) -> bool {
    if page >= map.logical() {
        return false;
    }
    map.replace(page, 0);
    true
}

/// Stages a free page for a logical page that isn't staged since the last switch. Whether there is a page for it.
fn put(map: &mut PageMap, page: u32) -> bool {
    if page >= map.logical() {
        return false;
    }
    if map.staged(page) != map.committed(page) {
        return true;
    }
    match map.take_free() {
        Some(physical) => {
            map.replace(page, physical);
            true
        }
        None => false,
    }
}

/// Puts all logical pages. Whether there is a page for each.
pub fn put_all(map: &mut PageMap) -> bool {
    let mut all = true;
    for page in 0..map.logical() {
        all = put(map, page) && all;
    }
    all
}

/// Settles with a free page as map page.
fn switch(map: &mut PageMap) -> bool {
    match map.take_free() {
        Some(map_page) => {
            map.settle(&[map_page]);
            true
        }
        None => false,
    }
}

/// A pin holds what is committed.
pub fn pin(map: &mut PageMap, pin: u32) -> bool {
    if pin as usize >= map.pins() {
        return false;
    }
    map.pin(pin);
    true
}

/// A pin holds nothing.
pub fn unpin(map: &mut PageMap, pin: u32) -> bool {
    if pin as usize >= map.pins() {
        return false;
    }
    map.unpin(pin);
    true
}

/// What is committed and staged for a logical page.
fn lists(map: &PageMap, page: u32) -> Option<(u32, u32)> {
    if page >= map.logical() {
        return None;
    }
    Some((map.committed(page), map.staged(page)))
}

/// What a pin has for a logical page.
pub fn pinned(map: &PageMap, pin: u32, page: u32) -> Option<u32> {
    if pin as usize >= map.pins() || page >= map.logical() {
        return None;
    }
    Some(map.pinned(pin, page))
}

/// Whether a step goes as it says.
fn goes(map: &mut PageMap, step: Step) -> bool {
    match step {
        Step::Claim(page, is_taken) => map.claim(page) == is_taken,
        Step::Take(page) => map.take_free() == page,
        Step::Stage(page, physical) => stage(map, page, physical),
        Step::StageNone(page) => stage_none(map, page),
        Step::Put(page, has_room) => put(map, page) == has_room,
        Step::PutAll => put_all(map),
        Step::Settle(one, other) => {
            map.settle(&[one, other]);
            true
        }
        Step::Switch => switch(map),
        Step::Pin(number) => pin(map, number),
        Step::Unpin(number) => unpin(map, number),
        Step::Lists(page, committed, staged) => lists(map, page) == Some((committed, staged)),
        Step::Pinned(number, page, physical) => pinned(map, number, page) == Some(physical),
        Step::Held(count) => map.held() == count,
    }
}

/// The number of the first step that doesn't go as it says.
pub fn first_wrong(map: &mut PageMap, steps: &[Step]) -> Option<usize> {
    for (number, step) in steps.iter().enumerate() {
        if !goes(map, *step) {
            return Some(number);
        }
    }
    None
}
