//! The numbers that name the pages of a volume: each is read, and its page taken, once.

ghost use Rattle.std.specs.Prelude.{◌≡◌, ℕ, ◌+◌, ◌*◌, ◌<◌, ◌≤◌, List, [], length, take, drop, slice_index, slice_set, false, true, min, None, Some, OnOk, IfErr, IfOk};
ghost use Rattle.ps_port.specs.ps_outside.Outside.{Rose};
ghost use Rattle.page_map.specs.Pages.{is_free};
ghost use Rattle.page_map.specs.Map.{with_taken};
ghost use Rattle.page_map.specs.declared.fault.MapFault.TheVariants.{BadNumber};
ghost use Rattle.volume_parts.specs.Layout.{number_at, root_at};
ghost use Rattle.volume_parts.specs.Calls.{Looks};
ghost use Rattle.paged_volume.specs.Layout.{index_number, maps_at};
ghost use Rattle.paged_volume.specs.Found.{damage, bound_of, name_tests, names_tests, numbers_of};
ghost use Rattle.paged_volume.specs.Standing.{IsFit, HasNames, index_of, maps_of, place_by, logical_of, map_count};
ghost use Rattle.paged_volume.specs.Naming.{IsNaming, FailsBy, names_at, skipped, page_tests};

use crate::committed::Committed;
use crate::damage::{Damage, bound_of};
use crate::layout::{NUMBERS, PAGE_BYTES, logical_pages, map_pages, page_at, root_at};
use crate::table::Table;
use byteorder::{ByteOrder, LittleEndian};
use page_map::{MapFault, PageMap};
use ps_port::Host;
use volume_parts::OpenFault;

/// How many logical pages are committed.
pub fn logical_of(committed: Committed) -> u32
    requires { IsFit committed }
    ensures { result ≡ logical_of committed }
{
    logical_pages(committed.note.used) as u32
}

/// How many map pages are committed.
pub fn map_count(committed: Committed) -> u32
    requires { IsFit committed }
    ensures { result ≡ map_count committed }
{
    map_pages(logical_of(committed))
}

// The number at a place of a page.
fn read_number(page: &[u8], at: usize) -> u32
    requires { at + 4 ≤ length page.now }
    ensures { result ≡ number_at at 4 page.now }
{
    LittleEndian::read_u32(&page[at..])
}

// Takes the page that a number at this place names.
fn take_page(map: &mut PageMap, at: u64, number: u32) -> Result<(), Damage>
    requires { 1 ≤ length map.old.free }
    ensures ok { OnOk result (is_free map.old.free number ≡ true) }
    ensures taken { OnOk result (map.new ≡ with_taken map.old number) }
    ensures err { IfErr result (λ d. (is_free map.old.free number ≡ false) × (d ≡ damage at number (bound_of (length map.old.free) number))) }
{
    if map.claim(number) {
        Ok(())
    } else {
        Err(Damage {
            at,
            found: number as u64,
            wanted: bound_of(map.pages(), number) as u64,
        })
    }
}

// Takes the index page, if there is one, and reads it in place of the root page.
fn take_index<H: Host>(host: &mut H, table: &mut Table, page: &mut [u8]) -> Result<(), OpenFault>
    requires naming { IsNaming table.old 0 0 0 }
    requires long { (bytes : List ℕ) → (H.outside host.old).contents bytes → 4096 * table.old.committed.pages ≤ length bytes }
    requires page { (bytes : List ℕ) → (H.outside host.old).contents bytes → page.old ≡ take 4096 (drop (root_at table.old.committed.second) bytes) }
    requires size { length page.old ≡ 4096 }
    ensures naming { OnOk result (IsNaming table.new table.old.committed.depth 0 0) }
    ensures committed { table.new.committed ≡ table.old.committed }
    ensures next { table.new.next.items ≡ table.old.next.items }
    ensures pins { table.new.pins.items ≡ table.old.pins.items }
    ensures index { OnOk result ((bytes : List ℕ) → (H.outside host.old).contents bytes → (i : ℕ) → i < table.old.committed.depth →
        index_number table.old.committed.second bytes ≡ index_of table.new.named.items i) }
    ensures page { OnOk result ((bytes : List ℕ) → (H.outside host.old).contents bytes →
        page.new ≡ take 4096 (drop (names_at table.old.committed.second table.old.committed.depth (slice_index table.new.named.items 0)) bytes)) }
    ensures size { length page.new ≡ 4096 }
    ensures looks { Looks (H.outside host.old) (H.outside host.new) 1 }
    ensures cause { IfErr result (FailsBy (H.outside host.old) (H.outside host.new)
        (λ bytes. name_tests table.old.committed.pages [] (λ i. root_at table.old.committed.second + 28) (λ i. index_number table.old.committed.second bytes) table.old.committed.depth)) }
{
    if table.committed.depth == 0 {
        return Ok(());
    }
    let number = read_number(page, 28);
    let at = root_at(table.committed.second) + 28;
    match take_page(&mut table.map, at, number) {
        Ok(()) => {}
        Err(damage) => return Err(damage.fault()),
    }
    table.named[0] = number;
    match host.read_at(page_at(number), page) {
        Ok(()) => Ok(()),
        Err(_) => Err(OpenFault::Device),
    }
}

// Where the numbers of the map pages begin in the page that has them.
#[tactic(auto, unfolding(crate::specs::Naming::skipped))]
fn skipped(depth: u32) -> usize
    ensures { result ≡ skipped depth }
{
    if depth == 0 { 28 } else { 0 }
}

// The place in the file of that page.
#[tactic(auto, unfolding(crate::specs::Naming::names_at))]
fn names_at(committed: Committed, index: u32) -> u64
    ensures { result ≡ names_at committed.second committed.depth index }
{
    if committed.depth == 0 {
        root_at(committed.second)
    } else {
        page_at(index)
    }
}

// Takes the page of one more map page.
fn take_map(table: &mut Table, page: &[u8], map_page: u32) -> Result<(), Damage>
    requires naming { IsNaming table.old table.old.committed.depth map_page 0 }
    requires within { map_page < map_count table.old.committed }
    requires size { length page.now ≡ 4096 }
    ensures naming { OnOk result (IsNaming table.new table.old.committed.depth (map_page + 1) 0) }
    ensures committed { table.new.committed ≡ table.old.committed }
    ensures next { table.new.next.items ≡ table.old.next.items }
    ensures pins { table.new.pins.items ≡ table.old.pins.items }
    ensures named { OnOk result (table.new.named.items ≡ slice_set table.old.named.items (1 + map_page) (number_at (skipped table.old.committed.depth + 4 * map_page) 4 page.now)) }
    ensures free { OnOk result (is_free table.old.map.free (number_at (skipped table.old.committed.depth + 4 * map_page) 4 page.now) ≡ true) }
    ensures err { IfErr result (λ d. (is_free table.old.map.free (number_at (skipped table.old.committed.depth + 4 * map_page) 4 page.now) ≡ false)
        × (d ≡ damage (maps_at table.old.committed.second table.old.committed.depth (slice_index table.old.named.items 0) + 4 * map_page) (number_at (skipped table.old.committed.depth + 4 * map_page) 4 page.now)
        (bound_of table.old.committed.pages (number_at (skipped table.old.committed.depth + 4 * map_page) 4 page.now)))) }
{
    let place = skipped(table.committed.depth) + 4 * map_page as usize;
    let number = read_number(page, place);
    let at = names_at(table.committed, table.named[0]) + place as u64;
    match take_page(&mut table.map, at, number) {
        Ok(()) => {}
        Err(damage) => return Err(damage),
    }
    table.named[1 + map_page as usize] = number;
    Ok(())
}

// Takes the map pages, of which the numbers stand in this page.
fn take_maps(table: &mut Table, page: &[u8]) -> Result<(), Damage>
    requires naming { IsNaming table.old table.old.committed.depth 0 0 }
    requires size { length page.now ≡ 4096 }
    ensures naming { OnOk result (IsNaming table.new table.old.committed.depth (map_count table.old.committed) 0) }
    ensures committed { table.new.committed ≡ table.old.committed }
    ensures next { table.new.next.items ≡ table.old.next.items }
    ensures pins { table.new.pins.items ≡ table.old.pins.items }
    ensures first { OnOk result (slice_index table.new.named.items 0 ≡ slice_index table.old.named.items 0) }
    ensures maps { OnOk result ((map_page : ℕ) → map_page < map_count table.old.committed →
        number_at (skipped table.old.committed.depth + 4 * map_page) 4 page.now ≡ maps_of table.new.named.items map_page) }
    ensures err { IfErr result (λ d. name_tests table.old.committed.pages (numbers_of (index_of table.old.named.items) table.old.committed.depth)
        (λ i. maps_at table.old.committed.second table.old.committed.depth (slice_index table.old.named.items 0) + 4 * i)
        (λ i. number_at (skipped table.old.committed.depth + 4 * i) 4 page.now) (map_count table.old.committed) ≡ Some d) }
{
    for map_page in 0..map_count(table.committed) {
        match take_map(table, page, map_page) {
            Ok(()) => {}
            Err(damage) => return Err(damage),
        }
    }
    Ok(())
}

// The index of a bad number in its map page, and that number.
fn bad_number(fault: MapFault) -> (u32, u32)
    ensures { fault ≡ BadNumber result.0 result.1 }
{
    match fault {
        MapFault::BadNumber { index, found } => (index, found),
    }
}

// Reads a map page, and takes the pages that it names.
fn read_map<H: Host>(host: &mut H, table: &mut Table, map_page: u32) -> Result<(), OpenFault>
    requires naming { IsNaming table.old table.old.committed.depth (map_count table.old.committed) (1024 * map_page) }
    requires within { map_page < map_count table.old.committed }
    requires long { (bytes : List ℕ) → (H.outside host.old).contents bytes → 4096 * table.old.committed.pages ≤ length bytes }
    ensures naming { OnOk result (IsNaming table.new table.old.committed.depth (map_count table.old.committed) (min (logical_of table.old.committed) (1024 * (map_page + 1)))) }
    ensures committed { table.new.committed ≡ table.old.committed }
    ensures next { table.new.next.items ≡ table.old.next.items }
    ensures pins { table.new.pins.items ≡ table.old.pins.items }
    ensures named { table.new.named.items ≡ table.old.named.items }
    ensures stays { (page : ℕ) → page < 1024 * map_page → slice_index table.new.map.staged page ≡ slice_index table.old.map.staged page }
    ensures pages { OnOk result ((bytes : List ℕ) → (H.outside host.old).contents bytes → (page : ℕ) → 1024 * map_page ≤ page → page < min (logical_of table.old.committed) (1024 * (map_page + 1)) →
        number_at (place_by table.old.named.items page) 4 bytes ≡ slice_index table.new.map.staged page) }
    ensures looks { Looks (H.outside host.old) (H.outside host.new) 1 }
    ensures cause { IfErr result (λ fault. ((bytes : List ℕ) → (H.outside host.old).contents bytes → (page : ℕ) → page < 1024 * map_page → number_at (place_by table.old.named.items page) 4 bytes ≡ slice_index table.old.map.staged page) →
        FailsBy (H.outside host.old) (H.outside host.new) (page_tests table.old (map_count table.old.committed) (logical_of table.old.committed)) fault) }
{
    let mut page = [0u8; PAGE_BYTES];
    let at = page_at(table.named[1 + map_page as usize]);
    match host.read_at(at, &mut page) {
        Ok(()) => {}
        Err(_) => return Err(OpenFault::Device),
    }
    let count = (logical_of(table.committed) - NUMBERS * map_page).min(NUMBERS);
    match table.map.read_map_page(map_page, count, &page) {
        Ok(()) => Ok(()),
        Err(fault) => {
            let (index, found) = bad_number(fault);
            let damage = Damage {
                at: at + 4 * index as u64,
                found: found as u64,
                wanted: bound_of(table.committed.pages, found) as u64,
            };
            Err(damage.fault())
        }
    }
}

// Reads all map pages, and takes the pages that they name.
fn read_maps<H: Host>(host: &mut H, table: &mut Table) -> Result<(), OpenFault>
    requires naming { IsNaming table.old table.old.committed.depth (map_count table.old.committed) 0 }
    requires long { (bytes : List ℕ) → (H.outside host.old).contents bytes → 4096 * table.old.committed.pages ≤ length bytes }
    ensures naming { OnOk result (IsNaming table.new table.old.committed.depth (map_count table.old.committed) (logical_of table.old.committed)) }
    ensures committed { table.new.committed ≡ table.old.committed }
    ensures next { table.new.next.items ≡ table.old.next.items }
    ensures pins { table.new.pins.items ≡ table.old.pins.items }
    ensures named { table.new.named.items ≡ table.old.named.items }
    ensures pages { OnOk result ((bytes : List ℕ) → (H.outside host.old).contents bytes → (page : ℕ) → page < logical_of table.old.committed →
        number_at (place_by table.old.named.items page) 4 bytes ≡ slice_index table.new.map.staged page) }
    ensures looks { Looks (H.outside host.old) (H.outside host.new) (map_count table.old.committed) }
    ensures cause { IfErr result (FailsBy (H.outside host.old) (H.outside host.new) (page_tests table.old (map_count table.old.committed) (logical_of table.old.committed))) }
{
    for map_page in 0..map_count(table.committed) {
        match read_map(host, table, map_page) {
            Ok(()) => {}
            Err(fault) => return Err(fault),
        }
    }
    Ok(())
}

/// Reads the numbers that name the pages of a volume, of which the root page was read.
pub fn read_names<H: Host>(
    host: &mut H,
    table: &mut Table,
    page: &mut [u8],
) -> Result<(), OpenFault>
    requires naming { IsNaming table.old 0 0 0 }
    requires long { (bytes : List ℕ) → (H.outside host.old).contents bytes → 4096 * table.old.committed.pages ≤ length bytes }
    requires page { (bytes : List ℕ) → (H.outside host.old).contents bytes → page.old ≡ take 4096 (drop (root_at table.old.committed.second) bytes) }
    requires size { length page.old ≡ 4096 }
    ensures naming { OnOk result (IsNaming table.new table.old.committed.depth (map_count table.old.committed) (logical_of table.old.committed)) }
    ensures committed { table.new.committed ≡ table.old.committed }
    ensures next { table.new.next.items ≡ table.old.next.items }
    ensures pins { table.new.pins.items ≡ table.old.pins.items }
    ensures names { OnOk result ((bytes : List ℕ) → (H.outside host.old).contents bytes → HasNames table.old.committed table.new.named.items table.new.map.staged bytes) }
    ensures looks { Looks (H.outside host.old) (H.outside host.new) (map_count table.old.committed + 1) }
    ensures cause { IfErr result (FailsBy (H.outside host.old) (H.outside host.new)
        (names_tests table.old.committed.pages table.old.committed.second table.old.committed.depth (logical_of table.old.committed))) }
{
    match take_index(host, table, page) {
        Ok(()) => {}
        Err(fault) => return Err(fault),
    }
    match take_maps(table, page) {
        Ok(()) => {}
        Err(damage) => return Err(damage.fault()),
    }
    read_maps(host, table)
}
