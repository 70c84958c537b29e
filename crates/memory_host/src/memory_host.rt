ghost use Rattle.std.specs.Prelude.{◌≡◌, ℕ, ◌+◌, ◌*◌, ◌≤◌, ◌<◌, ◌⊎◌, ◌/◌, drop, ◌++◌, [], ◌∷◌, true, false, List, length, take, vec_capacity, vec_len, if◌then◌else◌, OnOk, OnErr, IfOk, is_err, not, ◌&&◌, ◌||◌, sum_by, reverse, nat_lt};
ghost use Rattle.ps_port.specs.ps_outside.Outside.{Outside, After, Leaves, LeavesSame, SameContents, Telling, TellsNothing, Rose, IsDeviceCall, TellsPrefix, ToldAll, IsPutCall, counted};
ghost use Rattle.ps_port.specs.Disk.{Written, Torn, written};
ghost use Rattle.memory_host.specs.Memory.{fresh, is_to_fail, has_room, is_told, after_call, after_counts, contents_of, content_step, outside_of, told_at, told_step, FitsAct, MayLeave, IsDurable, IsImageAt, ImageStep, filled, filled_step, past, after_acting, call_fails, share, is_write, writes_of};
ghost use Rattle.memory_host.specs.MemoryView.{events_of};
ghost use Rattle.memory_host.specs.declared.memory_host.Act.TheVariants.{Looked, Told, Wrote, Synced};
ghost use Rattle.memory_host.specs.MemoryLaw.{is_image};
ghost use Rattle.memory_host.specs.DiskModel.{IsDiskModel};

use ps_port::{Host, HostFailed};
use std::alloc::{AllocError, Global};
use std::cmp::min;
use std::marker::Model;

/// The bytes of the room that the record of a call takes beside those that it wrote or output.
const RECORD_BYTES: u64 = 64;

/// What a call did.
#[derive(Clone, Copy)]
pub enum Act {
    /// It asked for the size or read a range, or it did nothing.
    Looked,
    Told,
    /// It wrote at this place, whole or not.
    Wrote(u64, bool),
    /// It synced, or it failed.
    Synced(bool),
}

/// A call that is kept: its number, what it did, and how many bytes it wrote or output.
#[derive(Clone, Copy)]
pub struct Call {
    number: u64,
    act: Act,
    len: usize,
}

/// A host in memory, for tests: it keeps every call, and its calls fail where it was told to. It takes
/// all its memory when it is made.
pub struct MemoryHost {
    first: Vec<u8>,
    contents: Vec<u8>,
    failing: Vec<u64>,
    calls: u64,
    room: u64,
    told: Vec<u8>,
    kept: Vec<u8>,
    log: Vec<Call>,
    clock: u64,
    device_calls: u64,
    device_faults: u64,
    output_faults: u64,
}

impl Drop for MemoryHost {
    fn drop(self) {
        let MemoryHost {
            first: _,
            contents: _,
            failing: _,
            calls: _,
            room: _,
            told: _,
            kept: _,
            log: _,
            clock: _,
            device_calls: _,
            device_faults: _,
            output_faults: _,
        } = self;
    }
}

impl Model for MemoryHost {
    ghost use Rattle.memory_host.specs.Memory.{Memory};

    ghost Value = { Memory };

    ghost use Rattle.memory_host.specs.MemoryView.{memory_of, IsKeptIn};

    ghost view = { memory_of };

    ghost invariant = { IsKeptIn };
}

impl MemoryHost {
    /// A host with these contents. A call fails where its number, counted from 0, is one of `failing` or
    /// at least `calls`, or where its record passes what is left of the room, which is a number of bytes:
    /// 64 for a call, and those that it writes or outputs.
    pub fn new(
        alloc: Global,
        bytes: &[u8],
        failing: &[u64],
        calls: u64,
        room: u64,
    ) -> Result<MemoryHost, AllocError>
        ensures { IfOk result (λ host. host ≡ fresh bytes.now failing.now calls room) }
    {
        let mut contents = Vec::from_slice(alloc, bytes)?;
        contents.reserve(room as usize)?;
        Ok(MemoryHost {
            first: Vec::from_slice(alloc, bytes)?,
            contents,
            failing: Vec::from_slice(alloc, failing)?,
            calls,
            room,
            told: Vec::with_capacity(alloc, room as usize)?,
            kept: Vec::with_capacity(alloc, room as usize)?,
            log: Vec::with_capacity(alloc, (room / RECORD_BYTES) as usize)?,
            clock: 0,
            device_calls: 0,
            device_faults: 0,
            output_faults: 0,
        })
    }

    /// What a read gives.
    pub fn contents(&self) -> &[u8]
        ensures { result.now ≡ contents_of self.now }
    {
        &self.contents
    }

    /// All the bytes output.
    pub fn told_bytes(&self) -> &[u8]
        ensures { result.now ≡ told_at self.now self.now.clock }
    {
        &self.told
    }

    /// The number of calls of `write_at`, those that failed included but for want of room.
    pub fn writes(&self) -> u64
        ensures { result ≡ writes_of self.now.events }
    {
        let mut count = 0;
        for call in &self.log {
            count += write_count(call.act);
        }
        count
    }

    /// The number of calls.
    pub fn clock(&self) -> u64
        ensures { result ≡ self.now.clock }
    {
        self.clock
    }

    /// What a crash at that moment may leave: of its images the longest, in which every byte that wasn't synced is the filler.
    pub fn crash(&self, alloc: Global, moment: u64, filler: u8) -> Result<Vec<u8>, AllocError>
        ensures filled { IfOk result (λ image. image.items ≡ filled filler self.now.first (past moment self.now.events)) }
        ensures image { IfOk result (λ image. (outside_of self.now).images moment image.items) }
        ensures longest { IfOk result (λ image. (other : List ℕ) → (outside_of self.now).images moment other → length other ≤ length image.items) }
    {
        replay(alloc, &self.first, &self.log, &self.kept, moment, filler)
    }

    fn is_to_fail(&self) -> bool
        ensures { result ≡ is_to_fail self.now }
    {
        self.calls <= self.clock || self.failing.contains(&self.clock)
    }

    fn has_room(&self, count: usize) -> bool
        ensures { result ≡ has_room self.now count }
    {
        let taken = RECORD_BYTES * self.log.len() as u64 + self.kept.len() as u64;
        let left = self.room - taken;
        left >= RECORD_BYTES && left - RECORD_BYTES >= count as u64 && self.clock < u64::MAX
    }

    // Keeps the record of the next call, which did this with these bytes.
    fn keep(&mut self, act: Act, bytes: &[u8], failed: bool)
        requires room { has_room self.old (length bytes.now) ≡ true }
        requires within { FitsAct act (length (contents_of self.old)) }
        ensures after { self.new ≡ after_call self.old act bytes.now failed }
        ensures images { Leaves (outside_of self.old) (outside_of self.new) (MayLeave act (length bytes.now) (IsImageAt self.old self.old.clock)) }
        ensures durable { IsDurable act (outside_of self.new) }
        ensures contents { contents_of self.new ≡ content_step act bytes.now (contents_of self.old) }
        ensures told { Telling (outside_of self.old) (outside_of self.new) (λ told. (told ≡ told_at self.old self.old.clock) ⊎ (told ≡ told_step act bytes.now (told_at self.old self.old.clock))) }
        ensures told_all { told_at self.new self.new.clock ≡ told_step act bytes.now (told_at self.old self.old.clock) }
        ensures images_all { (image : List ℕ) → ImageStep act bytes.now (contents_of self.old) (IsImageAt self.old self.old.clock) image → IsImageAt self.new self.new.clock image }
        ensures moves { Rose self.old.clock self.new.clock }
        ensures device_counts { self.old.device_faults ≤ self.new.device_faults }
        ensures device_rises { failed ≡ true → is_told act ≡ false → Rose self.old.device_faults self.new.device_faults }
        ensures output_counts { self.old.output_faults ≤ self.new.output_faults }
        ensures output_rises { failed ≡ true → is_told act ≡ true → Rose self.old.output_faults self.new.output_faults }
    {
        let call = Call {
            number: self.clock,
            act,
            len: bytes.len(),
        };
        append(&mut self.kept, bytes);
        push_call(&mut self.log, call);
        act_on(act, &mut self.contents, &mut self.told, bytes);
        let device = is_device(act);
        self.clock = self.clock.saturating_add(1);
        self.device_calls = count_if(device, self.device_calls);
        self.device_faults = count_if(both(failed, device), self.device_faults);
        self.output_faults = count_if(both(failed, !device), self.output_faults);
    }

    // The next call does nothing and fails, since there is no room for its record.
    fn refuse(&mut self, act: Act)
        ensures after { self.new ≡ after_counts self.old act true }
        ensures images { LeavesSame (outside_of self.old) (outside_of self.new) }
        ensures contents { contents_of self.new ≡ contents_of self.old }
        ensures told { TellsNothing (outside_of self.old) (outside_of self.new) }
        ensures moves { Rose self.old.clock self.new.clock }
        ensures device_counts { self.old.device_faults ≤ self.new.device_faults }
        ensures device_rises { is_told act ≡ false → Rose self.old.device_faults self.new.device_faults }
        ensures output_counts { self.old.output_faults ≤ self.new.output_faults }
        ensures output_rises { is_told act ≡ true → Rose self.old.output_faults self.new.output_faults }
    {
        let device = is_device(act);
        self.clock = self.clock.saturating_add(1);
        self.device_calls = count_if(device, self.device_calls);
        self.device_faults = count_if(device, self.device_faults);
        self.output_faults = count_if(!device, self.output_faults);
    }

    // The next call does this, or fails.
    fn call(&mut self, act: Act, bytes: &[u8], fails: bool) -> Result<(), HostFailed>
        requires within { FitsAct act (length (contents_of self.old)) }
        requires quiet { fails ≡ true → content_step act bytes.now (contents_of self.old) ≡ contents_of self.old }
        ensures contents_err { OnErr result (contents_of self.new ≡ contents_of self.old) }
        ensures images { Leaves (outside_of self.old) (outside_of self.new) (MayLeave act (length bytes.now) (IsImageAt self.old self.old.clock)) }
        ensures durable { OnOk result (IsDurable act (outside_of self.new)) }
        ensures contents { OnOk result (contents_of self.new ≡ content_step act bytes.now (contents_of self.old)) }
        ensures contents_or { (contents_of self.new ≡ content_step act bytes.now (contents_of self.old)) ⊎ (contents_of self.new ≡ contents_of self.old) }
        ensures told { Telling (outside_of self.old) (outside_of self.new) (λ told. (told ≡ told_at self.old self.old.clock) ⊎ (told ≡ told_step act bytes.now (told_at self.old self.old.clock))) }
        ensures images_all { has_room self.old (length bytes.now) ≡ true → (image : List ℕ) → ImageStep act bytes.now (contents_of self.old) (IsImageAt self.old self.old.clock) image → IsImageAt self.new self.new.clock image }
        ensures told_all { OnOk result (told_at self.new self.new.clock ≡ told_step act bytes.now (told_at self.old self.old.clock)) }
        ensures moves { Rose self.old.clock self.new.clock }
        ensures calls { self.new.device_calls ≡ counted (not (is_told act)) self.old.device_calls }
        ensures device_counts { self.old.device_faults ≤ self.new.device_faults }
        ensures device_cause { OnErr result (is_told act ≡ false → Rose self.old.device_faults self.new.device_faults) }
        ensures device_same { is_told act ≡ true → self.new.device_faults ≡ self.old.device_faults }
        ensures output_counts { self.old.output_faults ≤ self.new.output_faults }
        ensures output_cause { OnErr result (is_told act ≡ true → Rose self.old.output_faults self.new.output_faults) }
        ensures output_same { is_told act ≡ false → self.new.output_faults ≡ self.old.output_faults }
        ensures calm { OnOk result (self.new.output_faults ≡ self.old.output_faults) }
        ensures fails { is_err result ≡ (fails || not (has_room self.old (length bytes.now))) }
        ensures after { self.new ≡ after_acting self.old act bytes.now fails }
    {
        if !self.has_room(bytes.len()) {
            self.refuse(act);
            return Err(HostFailed);
        }
        self.keep(act, bytes, fails);
        if fails { Err(HostFailed) } else { Ok(()) }
    }
}

impl Host for MemoryHost {
    ghost use Rattle.std.proofs.Common.{sym, ◌∙◌};

    ghost outside = { outside_of };

    ghost is_image = { is_image };

    ghost one = { λ host a b is other. is ∙ sym other };

    fn size(&mut self) -> Result<u64, HostFailed>
        ensures size { IfOk result (λ size. (bytes : List ℕ) → (outside_of self.old).contents bytes → size ≡ length bytes) }
        ensures contents { SameContents (outside_of self.old) (outside_of self.new) }
        ensures images { LeavesSame (outside_of self.old) (outside_of self.new) }
        ensures call { IsDeviceCall (outside_of self.old) (outside_of self.new) result }
        ensures fails { is_err result ≡ call_fails self.old 0 }
        ensures after { self.new ≡ after_acting self.old Looked [] (is_to_fail self.old) }
    {
        let size = self.contents().len() as u64;
        let fails = self.is_to_fail();
        self.call(Act::Looked, &[], fails)?;
        Ok(size)
    }

    fn read_at(&mut self, at: u64, into: &mut [u8]) -> Result<(), HostFailed>
        requires { (bytes : List ℕ) → (outside_of self.old).contents bytes → at + length into.old ≤ length bytes }
        ensures read { OnOk result ((bytes : List ℕ) → (outside_of self.old).contents bytes → into.new ≡ take (length into.old) (drop at bytes)) }
        ensures length { length into.new ≡ length into.old }
        ensures contents { SameContents (outside_of self.old) (outside_of self.new) }
        ensures images { LeavesSame (outside_of self.old) (outside_of self.new) }
        ensures call { IsDeviceCall (outside_of self.old) (outside_of self.new) result }
        ensures fails { is_err result ≡ call_fails self.old 0 }
        ensures after { self.new ≡ after_acting self.old Looked [] (is_to_fail self.old) }
        ensures into { OnErr result (into.new ≡ into.old) }
    {
        let fails = self.is_to_fail();
        self.call(Act::Looked, &[], fails)?;
        into.copy_from_slice(&self.contents()[at as usize..at as usize + into.len()]);
        Ok(())
    }

    /// Where its record is kept, failed or not, a crash may leave all that the disk model says; where it
    /// fails, the contents stay.
    fn write_at(&mut self, at: u64, from: &[u8]) -> Result<(), HostFailed>
        requires { (bytes : List ℕ) → (outside_of self.old).contents bytes → at ≤ length bytes }
        ensures contents { OnOk result ((bytes : List ℕ) → (outside_of self.new).contents bytes → After (outside_of self.old).contents (Written at from.now) bytes) }
        ensures written { OnOk result ((bytes : List ℕ) → (outside_of self.old).contents bytes → (outside_of self.new).contents (written at from.now bytes)) }
        ensures images { Leaves (outside_of self.old) (outside_of self.new) (After (IsImageAt self.old self.old.clock) (Torn at (length from.now))) }
        ensures call { IsDeviceCall (outside_of self.old) (outside_of self.new) result }
        ensures fails { is_err result ≡ call_fails self.old (length from.now) }
        ensures after { self.new ≡ after_acting self.old (Wrote at (not (is_to_fail self.old))) from.now (is_to_fail self.old) }
    {
        let fails = self.is_to_fail();
        self.call(Act::Wrote(at, !fails), from, fails)
    }

    fn sync(&mut self) -> Result<(), HostFailed>
        ensures durable { OnOk result ((bytes : List ℕ) → (outside_of self.new).images (outside_of self.new).clock bytes → (outside_of self.new).contents bytes) }
        ensures contents { SameContents (outside_of self.old) (outside_of self.new) }
        ensures images { LeavesSame (outside_of self.old) (outside_of self.new) }
        ensures call { IsDeviceCall (outside_of self.old) (outside_of self.new) result }
        ensures fails { is_err result ≡ call_fails self.old 0 }
        ensures after { self.new ≡ after_acting self.old (Synced (not (is_to_fail self.old))) [] (is_to_fail self.old) }
    {
        let fails = self.is_to_fail();
        self.call(Act::Synced(!fails), &[], fails)
    }

    /// Where it is to fail, it outputs the first half of the bytes, rounded down; where there is no room
    /// for its record, none.
    fn put(&mut self, from: &[u8]) -> Result<(), HostFailed>
        ensures cut { TellsPrefix (outside_of self.old) (outside_of self.new) from.now }
        ensures all { OnOk result (ToldAll (outside_of self.old) (outside_of self.new) from.now) }
        ensures calm { OnOk result (self.new.output_faults ≡ self.old.output_faults) }
        ensures call { IsPutCall (outside_of self.old) (outside_of self.new) result }
        ensures fails { is_err result ≡ call_fails self.old (share self.old (length from.now)) }
        ensures after { self.new ≡ after_acting self.old Told (take (share self.old (length from.now)) from.now) (is_to_fail self.old) }
    {
        let fails = self.is_to_fail();
        let (front, _) = from.split_at(share_of(fails, from.len()));
        self.call(Act::Told, front, fails)
    }
}

// Adds bytes where there is memory for them.
fn append(bytes: &mut Vec<u8>, more: &[u8])
    requires { vec_len bytes.old + length more.now ≤ vec_capacity bytes.old }
    ensures items { bytes.new.items ≡ bytes.old.items ++ more.now }
    ensures capacity { vec_capacity bytes.old ≤ vec_capacity bytes.new }
{
    match bytes.extend_from_slice(more) {
        Ok(()) => {}
        Err(_) => unreachable!(),
    }
}

fn push_call(log: &mut Vec<Call>, call: Call)
    requires { vec_len log.old < vec_capacity log.old }
    ensures items { log.new.items ≡ log.old.items ++ call ∷ [] }
    ensures capacity { vec_capacity log.old ≤ vec_capacity log.new }
{
    match log.push(call) {
        Ok(()) => {}
        Err(_) => unreachable!(),
    }
}

// Puts bytes in the place of those that are there, and after the end, where there is memory for them.
fn overwrite(bytes: &mut Vec<u8>, at: usize, from: &[u8])
    requires within { at ≤ vec_len bytes.old }
    requires taken { vec_len bytes.old + length from.now ≤ vec_capacity bytes.old }
    ensures items { bytes.new.items ≡ written at from.now bytes.old.items }
    ensures capacity { vec_capacity bytes.old ≤ vec_capacity bytes.new }
{
    let count = min(from.len(), bytes.len() - at);
    let (over, past) = from.split_at(count);
    bytes[at..at + count].copy_from_slice(over);
    append(bytes, past);
}

// What the calls before a moment left, where what wasn't synced is the filler.
fn replay(
    alloc: Global,
    first: &[u8],
    log: &[Call],
    kept: &[u8],
    moment: u64,
    filler: u8,
) -> Result<Vec<u8>, AllocError>
    requires { sum_by (λ call. call.len) log.now ≡ length kept.now }
    ensures { IfOk result (λ image. image.items ≡ filled filler first.now (past moment (events_of (reverse log.now) kept.now))) }
{
    let mut contents = Vec::from_slice(alloc, first)?;
    let mut image = Vec::from_slice(alloc, first)?;
    let mut from = 0;
    for call in log {
        let bytes = &kept[from..from + call.len];
        replay_call(
            alloc,
            *call,
            bytes,
            moment,
            filler,
            &mut contents,
            &mut image,
        )?;
        from += call.len;
    }
    Ok(image)
}

// One call more, where it came before the moment.
fn replay_call(
    alloc: Global,
    call: Call,
    bytes: &[u8],
    moment: u64,
    filler: u8,
    contents: &mut Vec<u8>,
    image: &mut Vec<u8>,
) -> Result<(), AllocError>
    ensures image { OnOk result (image.new.items ≡ (if nat_lt call.number moment then filled_step filler call.act bytes.now contents.old.items image.old.items else image.old.items)) }
    ensures contents { OnOk result (contents.new.items ≡ (if nat_lt call.number moment then content_step call.act bytes.now contents.old.items else contents.old.items)) }
{
    if call.number >= moment {
        return Ok(());
    }
    match call.act {
        Act::Looked | Act::Told | Act::Synced(false) => {}
        Act::Wrote(at, done) => {
            let blank = vec![in alloc; filler; bytes.len()]?;
            place(image, at as usize, &blank)?;
            if done {
                place(contents, at as usize, bytes)?;
            }
        }
        Act::Synced(true) => {
            image.clear();
            image.extend_from_slice(contents)?;
        }
    }
    Ok(())
}

// Puts bytes in the place of those that are there, or after the end.
fn place(bytes: &mut Vec<u8>, at: usize, from: &[u8]) -> Result<(), AllocError>
    ensures { OnOk result (bytes.new.items ≡ written at from.now bytes.old.items) }
{
    bytes.reserve(from.len())?;
    let within = min(at, bytes.len());
    overwrite(bytes, within, from);
    Ok(())
}

// What a call does to the contents and to the bytes output.
fn act_on(act: Act, contents: &mut Vec<u8>, told: &mut Vec<u8>, bytes: &[u8])
    requires within { FitsAct act (length contents.old.items) }
    requires contents_taken { vec_len contents.old + length bytes.now ≤ vec_capacity contents.old }
    requires told_taken { vec_len told.old + length bytes.now ≤ vec_capacity told.old }
    ensures contents { contents.new.items ≡ content_step act bytes.now contents.old.items }
    ensures told { told.new.items ≡ told_step act bytes.now told.old.items }
    ensures contents_capacity { vec_capacity contents.old ≤ vec_capacity contents.new }
    ensures told_capacity { vec_capacity told.old ≤ vec_capacity told.new }
{
    match act {
        Act::Looked | Act::Synced(_) | Act::Wrote(_, false) => {}
        Act::Told => append(told, bytes),
        Act::Wrote(at, true) => overwrite(contents, at as usize, bytes),
    }
}

fn is_device(act: Act) -> bool
    ensures { result ≡ not (is_told act) }
{
    match act {
        Act::Told => false,
        Act::Looked | Act::Wrote(_, _) | Act::Synced(_) => true,
    }
}

// 1 of a write, whole or not, and 0 of any other call.
fn write_count(act: Act) -> u64
    ensures is { result ≡ (if is_write act then 1 else 0) }
    ensures most { result ≤ 1 }
{
    match act {
        Act::Wrote(_, _) => 1,
        Act::Looked | Act::Told | Act::Synced(_) => 0,
    }
}

fn both(a: bool, b: bool) -> bool
    ensures { result ≡ (a && b) }
{
    a && b
}

fn count_if(counts: bool, count: u64) -> u64
    ensures { result ≡ counted counts count }
{
    if counts {
        count.saturating_add(1)
    } else {
        count
    }
}

fn share_of(fails: bool, count: usize) -> usize
    ensures { result ≡ (if fails then count / 2 else count) }
{
    if fails { count / 2 } else { count }
}

/// What the steps leave is what the disk model says at once.
pub fn disk_model()
    ensures { IsDiskModel }
{}
