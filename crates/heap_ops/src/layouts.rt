//! Places of fields that were looked up before.
ghost use Rattle.std.specs.Prelude.{◌≡◌, ◌<◌, ◌≤◌, IfOk, IfSome, List, Some};
ghost use Rattle.heap_places.specs.swizzle.Heap.{Heap, IsHeld, header_at};
ghost use Rattle.heap_places.specs.swizzle.Reading.{TextsStay};
ghost use Rattle.heap_places.specs.swizzle.Text.{text_at};
ghost use Rattle.heap_places.specs.text_forms.Forms.{forms_of, located_in};
ghost use Rattle.heap_ops.specs.Layouts.{AreSo, IsSo};

use heap_places::obj_layout::kind::Kind;
use heap_places::swizzle::swizzle::Swizzle;
use heap_places::text_forms::forms::{Form, Located, Place, Rows, locate};
use std::alloc::{AllocError, Global};

/// A place of a class that was looked up: the class by the index of its text, and the field by its number. Class 0 stands for no entry.
#[derive(Clone, Copy)]
pub struct Entry {
    class: u32,
    field: u32,
    located: Located,
}

/// Places of fields that were looked up before, so that a class's text isn't walked at each access. Each entry says what is so of the area as
/// long as texts stay; after `reset` of the area the entries are cleared.
#[derive(Drop)]
pub struct Layouts {
    pub entries: Vec<Entry>,
}

// How many entries there are. A place that is looked up takes the entry of its class and its field from another one.
const ENTRIES: usize = 256;

const NO_ENTRY: Entry = Entry {
    class: 0,
    field: 0,
    located: Located {
        place: Place {
            form: Form::Reference,
            index: 0,
        },
        rows: Rows { refs: 0, nums: 0 },
    },
};

/// A law: entries stay so as long as texts stay.
pub fn entries_stay_so()
    ensures { (old new : Heap) (entries : List Entry) → AreSo old entries → TextsStay old new → AreSo new entries }
{}

impl Layouts {
    /// Without any place. This takes memory for 256 entries, once.
    pub fn new(alloc: Global) -> Result<Layouts, AllocError>
        ensures { IfOk result (λ layouts. (heap : Heap) → AreSo heap layouts.entries.items) }
    {
        let mut entries = Vec::with_capacity(alloc, ENTRIES)?;
        entries.resize(ENTRIES, NO_ENTRY)?;
        Ok(Layouts { entries })
    }

    /// Forgets all places.
    pub fn clear(&mut self)
        ensures { (heap : Heap) → AreSo heap self.new.entries.items }
    {
        self.entries.fill(NO_ENTRY);
    }

    /// The place of a field of a class, which is a text. None exactly where the text names no such field. A place that was looked up before is found
    /// by the class and the field, and no text is read.
    #[inline(always)]
    pub fn locate(&mut self, sw: &Swizzle, class: u32, field: u32) -> Option<Located>
        requires so { AreSo sw.now self.old.entries.items }
        requires held { IsHeld sw.now class }
        requires text { (header_at sw.now class).kind ≡ Kind.Text }
        ensures place { result ≡ located_in (forms_of (text_at sw.now class)) field }
        ensures so { AreSo sw.now self.new.entries.items }
    {
        sw.sound();
        let index = index_of(class, field);
        if let Some(located) = self.known(index, class, field) {
            return Some(located);
        }
        self.learn(sw, index, class, field)
    }

    // Looks a place up in the text of its class, and keeps it at an index.
    #[inline(never)]
    fn learn(&mut self, sw: &Swizzle, index: usize, class: u32, field: u32) -> Option<Located>
        requires so { AreSo sw.now self.old.entries.items }
        requires held { IsHeld sw.now class }
        requires text { (header_at sw.now class).kind ≡ Kind.Text }
        ensures place { result ≡ located_in (forms_of (text_at sw.now class)) field }
        ensures so { AreSo sw.now self.new.entries.items }
    {
        sw.sound();
        let located = locate(sw.text(class), field)?;
        self.keep(
            index,
            Entry {
                class,
                field,
                located,
            },
        );
        Some(located)
    }

    // What the entry at an index says of a field of a class.
    #[inline(always)]
    fn known(&self, index: usize, class: u32, field: u32) -> Option<Located>
        requires { 1 ≤ class }
        ensures { (heap : Heap) → AreSo heap self.now.entries.items
            → IfSome result (λ located. located_in (forms_of (text_at heap class)) field ≡ Some located) }
    {
        if index >= self.entries.len() {
            return None;
        }
        let entry = self.entries[index];
        if entry.class == class && entry.field == field {
            Some(entry.located)
        } else {
            None
        }
    }

    // Puts an entry at an index.
    fn keep(&mut self, index: usize, entry: Entry)
        ensures { (heap : Heap) → AreSo heap self.old.entries.items → IsSo heap entry → AreSo heap self.new.entries.items }
    {
        if index < self.entries.len() {
            self.entries[index] = entry;
        }
    }
}

// Where the entry for a field of a class stands.
#[inline(always)]
fn index_of(class: u32, field: u32) -> usize
    ensures { result < 256 }
{
    ((class.wrapping_mul(0x9e37_79b1) >> 24).wrapping_add(field) % 256) as usize
}
