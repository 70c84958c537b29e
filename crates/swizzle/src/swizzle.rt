ghost use Rattle.std.specs.Prelude.{◌≡◌, ◌≢◌, ◌⊎◌, nat_eq, ◌+◌, ◌/◌, ◌%◌, ◌^◌, ◌<◌, ◌≤◌, true, false, ℕ, Option, None, IfOk, IfErr, IfSome, OnOk, OnErr, MatchResult, ◌++◌, Some, length, take, drop, vec_capacity};
ghost use Rattle.obj_layout.specs.Header.{HasFitLengths, object_length};
ghost use Rattle.obj_layout.specs.Kind.{kind_number};
ghost use Rattle.obj_layout.specs.Reference.{IsReference, reference_word};
ghost use Rattle.swizzle.specs.Objects.{HasRoomForBytes, object_words, words_before as before};
ghost use Rattle.swizzle.specs.Heap.{IsHeap, IsHeld, IsMade, IsFull, Stands, local_of, fresh_heap, top_of, header_at, ref_at, num_at, with_num, with_ref, with_mark, with_no_marks, with_reach, with_none_reached, blank, reference_to};
ghost use Rattle.obj_layout.specs.Stored.{Holds};
ghost use Rattle.obj_layout.specs.Storing.{SameNumbers};
ghost use Rattle.swizzle.specs.Joint.{Joint, name_of};
ghost use Rattle.swizzle.specs.Text.{HasBytes, text_at, with_text};
ghost use Rattle.swizzle.specs.Changes.{Touched};
ghost use Rattle.swizzle.specs.Image.{far_object, HasPids};
ghost use Rattle.swizzle.specs.Numbered.{GivesPid};
ghost use Rattle.obj_area.specs.Area.{top_of as area_top};
ghost use Rattle.swizzle.specs.Fetched.{IsLocal};
ghost use Rattle.swizzle.specs.Touch.{Came, Only, Sound, Keeps, Denotes, IsNear, IsTouchCall, IsTouchFault};
ghost use Rattle.swizzle.specs.inside.Clearing.{IsUnmarked, IsUnmarkedAll, IsLeft, AreLeft};

use crate::fault::SwizzleFault;
use crate::fetched::fetch_near;
use crate::headers::Headers;
use crate::texts::{are_bytes, place_of_bytes, words_before};
use obj_area::area::Area;
use obj_layout::header::{Header, read_header, write_header};
use obj_layout::kind::Kind;
use obj_layout::reference::{Reference, reference_of, word_of};
use obj_layout::vault::Vault;
use pid_map::PidMap;
use std::alloc::{AllocError, Global};
use std::marker::Model;

/// The objects of the area. An object is named by the index of its first word.
pub struct Swizzle {
    area: Area,
    // The objects whose flag bit 0 is set, each once, in the order in which they were marked.
    assigned: Vec<u32>,
    // The objects whose flag bit 1 is set, each once, in the order in which a walk reached them.
    reached: Vec<u32>,
    // The PIDs of the objects that have one. Its chains lead through the objects.
    map: PidMap,
    // The greatest PID of the objects, 0 where none has one.
    greatest: u64,
    // Where an object is fetched to before it is laid into the area. Its words are taken as they are needed.
    buffer: Vec<u64>,
}

impl Drop for Swizzle {
    fn drop(self) {
        let Swizzle {
            area: _,
            assigned: _,
            reached: _,
            map: _,
            greatest: _,
            buffer: _,
        } = self;
    }
}

impl Model for Swizzle {
    ghost use Rattle.swizzle.specs.Heap.{Heap};
    ghost use Rattle.swizzle.specs.View.{heap_of, IsKeptIn};

    ghost Value = { Heap };

    ghost view = { heap_of };

    ghost invariant = { IsKeptIn };
}

const ASSIGNED: u64 = 1 << 8;

const REACHED: u64 = 1 << 9;

// The most buckets of the map of PIDs, four bytes each, which are written when the area is taken.
const MOST_BUCKETS: u32 = 1 << 15;

impl Swizzle {
    /// A law: what is so of every heap.
    #[inline]
    pub fn sound(&self)
        ensures { IsHeap self.now }
    {
        let _size = self.area.size();
    }

    /// An empty area that can give out `words` words. No page of it is touched before it is used.
    pub fn new(alloc: Global, words: u32) -> Result<Swizzle, AllocError>
        requires low { 5 ≤ words }
        requires high { words ≤ 2 ^ 25 }
        ensures { IfOk result (λ sw. sw ≡ fresh_heap (words + 1)) }
    {
        let area = Area::new(alloc, words)?;
        let assigned = Vec::with_capacity(alloc, words as usize / 5)?;
        let reached = Vec::with_capacity(alloc, words as usize / 5)?;
        let map = PidMap::new(alloc, (words / 5).min(MOST_BUCKETS))?;
        let buffer = Vec::with_capacity(alloc, words as usize)?;
        Ok(Swizzle {
            area,
            assigned,
            reached,
            map,
            greatest: 0,
            buffer,
        })
    }

    /// Forgets all objects, in no time that depends on their number.
    pub fn reset(&mut self)
        ensures { self.new ≡ fresh_heap self.old.size }
    {
        self.area.reset();
        self.assigned.clear();
        self.reached.clear();
        self.greatest = 0;
        self.map.clear();
    }

    /// The index at which the next object begins.
    pub fn top(&self) -> u32
        ensures { result ≡ top_of self.now }
    {
        self.area.top()
    }

    /// One more than the words that the area has for objects.
    pub fn size(&self) -> u32
        ensures { result ≡ self.now.size }
    {
        self.area.size()
    }

    /// Makes an object: its references are nil and its numbers 0. AreaFull exactly where the top and its words are more than the size; then
    /// the area stays.
    pub fn make(
        &mut self,
        kind: Kind,
        refs: u32,
        nums: u32,
        bytes: u32,
    ) -> Result<u32, SwizzleFault>
        requires home { 1 ≤ nums }
        requires lengths { HasFitLengths (blank kind refs nums bytes).header }
        requires bytes { HasRoomForBytes kind nums bytes }
        ensures made { MatchResult result
            (λ at. IsMade self.old self.new at (blank kind refs nums bytes))
            (λ fault. IsFull self.old self.new (4 + refs + nums) fault) }
        ensures stands { Stands self.old self.new }
    {
        let wanted = 4 + refs + nums;
        let Some(at) = self.area.make(wanted) else {
            return Err(SwizzleFault::AreaFull {
                top: self.area.top(),
                wanted,
                size: self.area.size(),
            });
        };
        let header = Header {
            kind,
            flags: 0,
            refs,
            nums,
            bytes,
            pid: 0,
            chain: 0,
        };
        let mut words = [0; 4];
        write_header(&header, &mut words);
        self.area.write_words(at, &words);
        Ok(at)
    }

    /// The header of the object.
    #[inline]
    pub fn header(&self, object: u32) -> Header
        requires { IsHeld self.now object }
        ensures value { result ≡ header_at self.now object }
        ensures lengths { HasFitLengths result }
    {
        let words = [
            self.area.word(object),
            self.area.word(object + 1),
            self.area.word(object + 2),
            self.area.word(object + 3),
        ];
        match read_header(&words) {
            Ok(header) => header,
            Err(_) => unreachable!(),
        }
    }

    /// Whether the object is of this kind.
    #[inline]
    pub fn is_kind(&self, object: u32, kind: Kind) -> bool
        requires { IsHeld self.now object }
        ensures { result ≡ nat_eq (kind_number (header_at self.now object).kind) (kind_number kind) }
    {
        self.area.word(object) & 0xff == kind as u64
    }

    /// How many references the object has.
    #[inline]
    pub fn refs(&self, object: u32) -> u32
        requires { IsHeld self.now object }
        ensures { result ≡ (header_at self.now object).refs }
    {
        (self.area.word(object) >> 32) as u32
    }

    /// How many number words the object has.
    #[inline]
    pub fn nums(&self, object: u32) -> u32
        requires { IsHeld self.now object }
        ensures { result ≡ (header_at self.now object).nums }
    {
        (self.area.word(object + 2) & 0xffff_ffff) as u32
    }

    /// The PID of the object, 0 for none.
    #[inline]
    pub fn pid(&self, object: u32) -> u64
        requires { IsHeld self.now object }
        ensures { result ≡ (header_at self.now object).pid }
    {
        self.area.word(object + 1)
    }

    /// What the object is. It costs less than the whole header.
    #[inline]
    pub fn kind(&self, object: u32) -> Kind
        requires { IsHeld self.now object }
        ensures { result ≡ (header_at self.now object).kind }
    {
        match Kind::numbered((self.area.word(object) & 0xff) as u8) {
            Some(kind) => kind,
            None => unreachable!(),
        }
    }

    // How many bytes the object has.
    #[inline]
    fn byte_count(&self, object: u32) -> u32
        requires { IsHeld self.now object }
        ensures { result ≡ (header_at self.now object).bytes }
    {
        (self.area.word(object + 2) >> 32) as u32
    }

    // The place of the object's number words.
    #[inline]
    fn first_num(&self, object: u32) -> u32
        requires { IsHeld self.now object }
        ensures { result ≡ object + 4 + (header_at self.now object).refs }
    {
        let first = self.area.word(object);
        object + 4 + (first >> 32) as u32
    }

    /// The number word at `index`.
    #[inline]
    pub fn num(&self, object: u32, index: u32) -> u64
        requires held { IsHeld self.now object }
        requires below { index < (header_at self.now object).nums }
        ensures { result ≡ num_at self.now object index }
    {
        self.area.word(self.first_num(object) + index)
    }

    /// The number word at `index` of an object that is known to have so many references, so that these aren't counted anew.
    #[inline(always)]
    pub fn num_behind(&self, object: u32, refs: u32, index: u32) -> u64
        requires held { IsHeld self.now object }
        requires refs { refs ≡ (header_at self.now object).refs }
        requires below { index < (header_at self.now object).nums }
        ensures { result ≡ num_at self.now object index }
    {
        self.area.word(object + 4 + refs + index)
    }

    /// Writes the number word at `index`.
    #[inline]
    pub fn set_num(&mut self, object: u32, index: u32, value: u64)
        requires held { IsHeld self.old object }
        requires below { index < (header_at self.old object).nums }
        ensures written { self.new ≡ with_num self.old object index value }
        ensures stands { Stands self.old self.new }
    {
        let place = self.first_num(object) + index;
        self.area.set_word(place, value);
    }

    /// Writes the number word at `index` of an object that is known to have so many references.
    #[inline(always)]
    pub fn set_num_behind(&mut self, object: u32, refs: u32, index: u32, value: u64)
        requires held { IsHeld self.old object }
        requires refs { refs ≡ (header_at self.old object).refs }
        requires below { index < (header_at self.old object).nums }
        ensures written { self.new ≡ with_num self.old object index value }
        ensures stands { Stands self.old self.new }
    {
        self.area.set_word(object + 4 + refs + index, value);
    }

    /// The reference in a slot, as it stands. Nothing is fetched.
    #[inline]
    pub fn peek(&self, object: u32, slot: u32) -> Reference
        requires held { IsHeld self.now object }
        requires below { slot < (header_at self.now object).refs }
        ensures value { result ≡ ref_at self.now object slot }
        ensures fits { IsReference result }
    {
        match reference_of(self.area.word(object + 4 + slot)) {
            Some(reference) => reference,
            None => unreachable!(),
        }
    }

    /// Makes a slot denote an object of the area, or none.
    pub fn set_ref(&mut self, object: u32, slot: u32, to: Option<u32>)
        requires held { IsHeld self.old object }
        requires below { slot < (header_at self.old object).refs }
        requires target { IfSome to (IsHeld self.old) }
        ensures written { self.new ≡ with_ref self.old object slot (reference_to to) }
        ensures stands { Stands self.old self.new }
    {
        self.area.set_word(object + 4 + slot, word_of(denoting(to)));
    }

    /// Makes the slot `to_slot` of `to` denote what the slot `from_slot` of `from` denotes. Nothing is fetched.
    pub fn copy_ref(&mut self, from: u32, from_slot: u32, to: u32, to_slot: u32)
        requires from_held { IsHeld self.old from }
        requires from_below { from_slot < (header_at self.old from).refs }
        requires to_held { IsHeld self.old to }
        requires to_below { to_slot < (header_at self.old to).refs }
        ensures written { self.new ≡ with_ref self.old to to_slot (ref_at self.old from from_slot) }
        ensures stands { Stands self.old self.new }
    {
        let word = self.area.word(from + 4 + from_slot);
        self.area.set_word(to + 4 + to_slot, word);
    }

    /// The bytes of a text or of code.
    #[inline]
    pub fn text(&self, object: u32) -> &[u8]
        requires held { IsHeld self.now object }
        requires kind { HasBytes (header_at self.now object).kind }
        ensures value { result.now ≡ text_at self.now object }
        ensures len { length result.now ≡ (header_at self.now object).bytes }
        ensures small { length result.now < 2 ^ 32 }
    {
        let _top = self.area.top();
        let first = self.first_num(object) + words_before(self.kind(object));
        self.text_within(object, first, self.byte_count(object))
    }

    /// The same bytes, where it is known at which word they begin and how many they are, so that the object isn't looked at.
    #[inline(always)]
    pub fn text_within(&self, object: u32, first: u32, count: u32) -> &[u8]
        requires held { IsHeld self.now object }
        requires kind { HasBytes (header_at self.now object).kind }
        requires first { first ≡ object + 4 + (header_at self.now object).refs + before (header_at self.now object).kind }
        requires count { count ≡ (header_at self.now object).bytes }
        ensures value { result.now ≡ text_at self.now object }
        ensures len { length result.now ≡ count }
    {
        let _ = object;
        self.area.bytes(first, count)
    }

    /// Writes `from` over the bytes of a text or of code, after the first `start` ones. All else of it stays.
    pub fn write_text(&mut self, object: u32, start: u32, from: &[u8])
        requires held { IsHeld self.old object }
        requires kind { HasBytes (header_at self.old object).kind }
        requires within { start + length from.now ≤ (header_at self.old object).bytes }
        ensures written { self.new ≡ with_text self.old object start from.now }
        ensures stands { Stands self.old self.new }
    {
        let header = self.header(object);
        let _top = self.area.top();
        are_bytes(from);
        let place = place_of_bytes(object, &header);
        self.area.write_bytes(place, start, from);
    }

    /// Copies `count` bytes of the text or code `from`, after its first `from_start` ones, over those of `to`, after its first `to_start`
    /// ones.
    pub fn copy_text(&mut self, from: u32, from_start: u32, to: u32, to_start: u32, count: u32)
        requires from_held { IsHeld self.old from }
        requires from_kind { HasBytes (header_at self.old from).kind }
        requires from_within { from_start + count ≤ (header_at self.old from).bytes }
        requires to_held { IsHeld self.old to }
        requires to_kind { HasBytes (header_at self.old to).kind }
        requires to_within { to_start + count ≤ (header_at self.old to).bytes }
        ensures written { self.new ≡ with_text self.old to to_start (take count (drop from_start (text_at self.old from))) }
        ensures stands { Stands self.old self.new }
    {
        let source = self.header(from);
        let target = self.header(to);
        let _top = self.area.top();
        let place = place_of_bytes(from, &source);
        let end = place_of_bytes(to, &target);
        self.area
            .copy_bytes(place, from_start, end, to_start, count);
    }

    /// Gives the object a PID, by which it is found from then on. It has none, and no object of the area has that PID.
    pub fn give_pid(&mut self, object: u32, pid: u64)
        requires held { IsHeld self.old object }
        requires none { (header_at self.old object).pid ≡ 0 }
        requires low { 1 ≤ pid }
        requires high { pid < 2 ^ 63 }
        requires fresh { local_of self.old pid ≡ None }
        ensures { GivesPid self.old self.new object pid }
    {
        let link = self.map.head(pid);
        let header = Header {
            pid,
            chain: u64::from(link),
            ..self.header(object)
        };
        let mut words = [0; 4];
        write_header(&header, &mut words);
        self.area.write_words(object, &words);
        self.greatest = self.greatest.max(pid);
        self.map.put(pid, object);
    }

    // The word of a slot as a vault has it.
    fn far_word(&self, object: u32, slot: u32) -> u64
        requires held { IsHeld self.now object }
        requires below { slot < (header_at self.now object).refs }
        requires pids { HasPids self.now object }
        ensures { result ≡ reference_word (name_of self.now (ref_at self.now object slot)) }
    {
        self.sound();
        match self.peek(object, slot) {
            Reference::Nil => 0,
            Reference::Pid(pid) => word_of(Reference::Pid(pid)),
            Reference::Local(to) => word_of(Reference::Pid(self.header(to).pid)),
        }
    }

    /// Writes the object's words as a vault has them: without flags, PID and link, and with a PID for each object that it refers to. Each of those has
    /// one; `into` has as many words as the object.
    pub fn image(&self, object: u32, into: &mut [u64])
        requires held { IsHeld self.now object }
        requires pids { HasPids self.now object }
        requires long { length into.old ≡ object_length (header_at self.now object) }
        ensures { into.new ≡ object_words (far_object self.now object) }
    {
        self.sound();
        let header = self.header(object);
        let far = Header {
            flags: 0,
            pid: 0,
            chain: 0,
            ..header
        };
        let mut words = [0; 4];
        write_header(&far, &mut words);
        into[..4].copy_from_slice(&words);
        for slot in 0..header.refs {
            into[4 + slot as usize] = self.far_word(object, slot);
        }
        self.area.read_words(
            object + 4 + header.refs,
            &mut into[4 + header.refs as usize..],
        );
    }

    /// The object with this PID, where it is in the area. Nothing is fetched.
    pub fn find(&self, pid: u64) -> Option<u32>
        requires { 1 ≤ pid }
        ensures { result ≡ local_of self.now pid }
    {
        self.map.find(&Headers { area: &self.area }, pid)
    }

    /// The greatest PID of an object of the area; 0 where none has one.
    pub fn greatest_pid(&self) -> u64
        ensures all { (x : ℕ) → IsHeld self.now x → (header_at self.now x).pid ≤ result }
        ensures some { (result ≡ 0) ⊎ ((x : ℕ) × IsHeld self.now x × ((header_at self.now x).pid ≡ result)) }
    {
        self.greatest
    }

    /// The one object of the area with this PID. It is fetched where it isn't there. Where the vault's tests refuse it, or its words may not come
    /// into the area, it is damaged, with the numbers of the first test that failed (`docs/formats.md`). Whether there is room is tested after
    /// the vault's tests of its header.
    pub fn touch_pid<V: Vault>(&mut self, vault: &mut V, pid: u64) -> Result<u32, SwizzleFault>
        requires alive { V.alive vault.old }
        requires low { 1 ≤ pid }
        requires high { pid < 2 ^ 63 }
        ensures place { IfOk result (IsLocal self.new pid) }
        ensures keeps { OnOk result (Keeps self.old self.new) }
        ensures joint { OnOk result (Touched (Joint self.old (Holds (V.outside vault.old))) (Joint self.new (Holds (V.outside vault.new))) (Reference.Pid pid)) }
        ensures came { OnOk result (Came self.old self.new (V.outside vault.old) (Reference.Pid pid)) }
        ensures only { OnOk result (Only self.old self.new (Reference.Pid pid)) }
        ensures sound { OnOk result (Sound self.old (V.outside vault.old) (Reference.Pid pid)) }
        ensures near { (at : ℕ) → local_of self.old pid ≡ Some at → (self.new ≡ self.old) × (vault.new ≡ vault.old) }
        ensures refused { OnErr result (self.new ≡ self.old) }
        ensures call { IsTouchCall self.old self.new (V.outside vault.old) (V.outside vault.new) result }
        ensures fault { IfErr result (IsTouchFault self.old (V.outside vault.old) (Reference.Pid pid)) }
        ensures numbers { SameNumbers V.used_words V.directory_at V.most_words V.access vault.old vault.new }
        ensures alive { OnOk result (V.alive vault.new) }
    {
        if let Some(at) = self.find(pid) {
            return Ok(at);
        }
        let count = match vault.length(pid) {
            Ok(count) => count,
            Err(fault) => return Err(SwizzleFault::Vault(fault)),
        };
        let top = self.area.top();
        let size = self.area.size();
        if count > size - top {
            return Err(SwizzleFault::AreaFull {
                top,
                wanted: count,
                size,
            });
        }
        make_room(&mut self.buffer, count);
        let link = self.map.head(pid);
        if let Err(fault) = fetch_near(vault, pid, link, &mut self.buffer) {
            return Err(SwizzleFault::Vault(fault));
        }
        lay(&mut self.area, &self.buffer, count);
        self.greatest = self.greatest.max(pid);
        self.map.put(pid, top);
        Ok(top)
    }

    /// The object that a slot denotes, in the area; None exactly for nil. The slot is local afterwards.
    #[inline]
    pub fn touch_slot<V: Vault>(
        &mut self,
        vault: &mut V,
        object: u32,
        slot: u32,
    ) -> Result<Option<u32>, SwizzleFault>
        requires alive { V.alive vault.old }
        requires held { IsHeld self.old object }
        requires below { slot < (header_at self.old object).refs }
        ensures target { IfOk result (λ to. Denotes self.new to (name_of self.old (ref_at self.old object slot))) }
        ensures local { IfOk result (λ to. ref_at self.new object slot ≡ reference_to to) }
        ensures keeps { OnOk result (Keeps self.old self.new) }
        ensures joint { OnOk result (Touched (Joint self.old (Holds (V.outside vault.old))) (Joint self.new (Holds (V.outside vault.new))) (name_of self.old (ref_at self.old object slot))) }
        ensures came { OnOk result (Came self.old self.new (V.outside vault.old) (ref_at self.old object slot)) }
        ensures only { OnOk result (Only self.old self.new (name_of self.old (ref_at self.old object slot))) }
        ensures sound { OnOk result (Sound self.old (V.outside vault.old) (ref_at self.old object slot)) }
        ensures still { (to : Option ℕ) → ref_at self.old object slot ≡ reference_to to → (self.new ≡ self.old) × (vault.new ≡ vault.old) }
        ensures near { IsNear self.old (name_of self.old (ref_at self.old object slot)) → (top_of self.new ≡ top_of self.old) × (vault.new ≡ vault.old) }
        ensures refused { OnErr result (self.new ≡ self.old) }
        ensures call { IsTouchCall self.old self.new (V.outside vault.old) (V.outside vault.new) result }
        ensures fault { IfErr result (IsTouchFault self.old (V.outside vault.old) (ref_at self.old object slot)) }
        ensures numbers { SameNumbers V.used_words V.directory_at V.most_words V.access vault.old vault.new }
        ensures alive { OnOk result (V.alive vault.new) }
    {
        self.sound();
        match self.peek(object, slot) {
            Reference::Nil => Ok(None),
            Reference::Local(at) => Ok(Some(at)),
            Reference::Pid(pid) => match self.touch_pid(vault, pid) {
                Ok(at) => {
                    self.sound();
                    self.set_ref(object, slot, Some(at));
                    Ok(Some(at))
                }
                Err(fault) => Err(fault),
            },
        }
    }

    /// Notes the object as assigned, once. Where it is already, this reads a word.
    #[inline(always)]
    pub fn mark(&mut self, object: u32)
        requires { IsHeld self.old object }
        ensures written { self.new ≡ with_mark self.old object }
        ensures stands { Stands self.old self.new }
    {
        let first = self.area.word(object);
        if first / ASSIGNED % 2 == 1 {
            return;
        }
        self.note(object);
    }

    // Notes an object as assigned that isn't yet.
    #[inline(never)]
    fn note(&mut self, object: u32)
        requires held { IsHeld self.old object }
        requires plain { (header_at self.old object).flags % 2 ≢ 1 }
        ensures written { self.new ≡ with_mark self.old object }
        ensures stands { Stands self.old self.new }
    {
        let first = self.area.word(object);
        self.area.set_word(object, first + ASSIGNED);
        match self.assigned.push(object) {
            Ok(()) => {}
            Err(_) => unreachable!(),
        }
    }

    /// The objects that were assigned, each once.
    pub fn assigned(&self) -> &[u32]
        ensures { result.now ≡ self.now.assigned }
    {
        &self.assigned
    }

    /// Notes no object as assigned any more, in time that depends on their number alone.
    pub fn clear_assigned(&mut self)
        ensures written { self.new ≡ with_no_marks self.old }
        ensures stands { Stands self.old self.new }
    {
        while self.unmark_last() {}
    }

    // Takes the last object from the list of the assigned. False where there is none.
    fn unmark_last(&mut self) -> bool
        ensures one { result ≡ true → IsUnmarked self.old self.new }
        ensures all { result ≡ false → IsUnmarkedAll self.old self.new }
    {
        let Some(object) = self.assigned.pop() else {
            return false;
        };
        let first = self.area.word(object);
        self.area.set_word(object, first - ASSIGNED);
        true
    }

    /// Notes the object as reached by a walk, once. Where it is already, this reads a word.
    #[inline]
    pub fn reach(&mut self, object: u32)
        requires { IsHeld self.old object }
        ensures written { self.new ≡ with_reach self.old object }
        ensures stands { Stands self.old self.new }
    {
        let first = self.area.word(object);
        if first / REACHED % 2 == 1 {
            return;
        }
        self.note_reached(object);
    }

    // Notes an object as reached that isn't yet.
    fn note_reached(&mut self, object: u32)
        requires held { IsHeld self.old object }
        requires plain { (header_at self.old object).flags / 2 % 2 ≢ 1 }
        ensures written { self.new ≡ with_reach self.old object }
        ensures stands { Stands self.old self.new }
    {
        let first = self.area.word(object);
        self.area.set_word(object, first + REACHED);
        match self.reached.push(object) {
            Ok(()) => {}
            Err(_) => unreachable!(),
        }
    }

    /// The objects that a walk has reached, each once, in the order in which it did.
    pub fn reached(&self) -> &[u32]
        ensures { result.now ≡ self.now.reached }
    {
        &self.reached
    }

    /// Notes no object as reached any more, in time that depends on their number alone.
    pub fn clear_reached(&mut self)
        ensures written { self.new ≡ with_none_reached self.old }
        ensures stands { Stands self.old self.new }
    {
        while self.leave_last() {}
    }

    // Takes the last object from the list of the reached. False where there is none.
    fn leave_last(&mut self) -> bool
        ensures one { result ≡ true → IsLeft self.old self.new }
        ensures all { result ≡ false → AreLeft self.old self.new }
    {
        let Some(object) = self.reached.pop() else {
            return false;
        };
        let first = self.area.word(object);
        self.area.set_word(object, first - REACHED);
        true
    }
}

// The reference to an object of the area, or to none.
fn denoting(to: Option<u32>) -> Reference
    ensures { result ≡ reference_to to }
{
    match to {
        Some(at) => Reference::Local(at),
        None => Reference::Nil,
    }
}

// Makes the buffer so many words long, without memory.
fn make_room(buffer: &mut Vec<u64>, count: u32)
    requires { count ≤ vec_capacity buffer.old }
    ensures long { length buffer.new.items ≡ count }
    ensures capacity { vec_capacity buffer.old ≤ vec_capacity buffer.new }
{
    buffer.clear();
    match buffer.resize(count as usize, 0) {
        Ok(()) => {}
        Err(_) => unreachable!(),
    }
}

// Lays words after those that are given out.
fn lay(area: &mut Area, words: &[u64], count: u32)
    requires long { length words.now ≡ count }
    requires room { area_top area.old + count ≤ area.old.size }
    ensures { area.new ≡ record area.old { words = area.old.words ++ words.now } }
{
    match area.make(count) {
        Some(at) => area.write_words(at, words),
        None => unreachable!(),
    }
}
