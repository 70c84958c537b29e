//! Classes by which structures were made before.
ghost use Rattle.std.specs.Prelude.{◌≡◌, ◌<◌, IfOk, IfSome, MatchOption};
ghost use Rattle.joint_ops.specs.swizzle.Heap.{Heap, IsHeld, header_at};
ghost use Rattle.joint_ops.specs.swizzle.Text.{text_at};
ghost use Rattle.joint_ops.specs.text_forms.Forms.{forms_of};
ghost use Rattle.structure_rows.specs.Marks.{HasTooMany};
ghost use Rattle.objects.specs.Makes.{AreSo, HasRows, IsMadeBy};

use crate::class_rows::ClassRows;
use crate::known_fields::constant_text;
use joint_ops::obj_layout::kind::Kind;
use joint_ops::swizzle::swizzle::Swizzle;
use std::alloc::{AllocError, Global};
use structure_rows::marks::{NO_FIELDS, count_fields};

/// A class by which structures are made. It is a constant of a code object, by its number. Text 0 stands for no entry.
#[derive(Clone, Copy)]
pub(crate) struct KnownMake {
    pub code: u32,
    pub constant: u32,
    pub class: ClassRows,
}

/// Classes by which structures were made before.
#[derive(Drop)]
pub(crate) struct KnownMakes {
    pub entries: Vec<KnownMake>,
}

// How many entries there are. A class by which a structure is made takes the entry of its constant from another one.
const ENTRIES: usize = 64;

const NO_ENTRY: KnownMake = KnownMake {
    code: 0,
    constant: 0,
    class: ClassRows {
        text: 0,
        fields: NO_FIELDS,
    },
};

impl KnownMakes {
    /// Without any class. This takes memory for 64 entries, once.
    pub fn new(alloc: Global) -> Result<KnownMakes, AllocError>
        ensures { IfOk result (λ known. (here : Heap) → AreSo here known.entries.items) }
    {
        let mut entries = Vec::with_capacity(alloc, ENTRIES)?;
        entries.resize(ENTRIES, NO_ENTRY)?;
        Ok(KnownMakes { entries })
    }

    /// Forgets all classes.
    pub fn clear(&mut self)
        ensures { (here : Heap) → AreSo here self.new.entries.items }
    {
        self.entries.fill(NO_ENTRY);
    }

    /// The class that is the constant of a number of a code object. None where there is no entry of it.
    #[inline(always)]
    pub fn find(&self, code: u32, constant: u32) -> Option<ClassRows>
        ensures { (here : Heap) → AreSo here self.now.entries.items → IfSome result (IsMadeBy here code constant) }
    {
        let index = index_of(code, constant);
        if index >= self.entries.len() {
            return None;
        }
        let known = self.entries[index];
        if known.class.text != 0 && known.code == code && known.constant == constant {
            Some(known.class)
        } else {
            None
        }
    }

    /// Reads the text of the class that is the constant of a number of a code object, and keeps what it tells. None exactly where more than 64 of its fields
    /// are numbers, or more than 65,535 references. The class may have another text with the same bytes.
    pub fn learn(&mut self, sw: &Swizzle, code: u32, constant: u32, text: u32) -> Option<ClassRows>
        requires code { IsHeld sw.now code }
        requires held { IsHeld sw.now text }
        requires text { (header_at sw.now text).kind ≡ Kind.Text }
        requires so { AreSo sw.now self.old.entries.items }
        ensures class { MatchOption result (HasTooMany (forms_of (text_at sw.now text))) (λ class. HasRows sw.now class × (text_at sw.now class.text ≡ text_at sw.now text)) }
        ensures so { AreSo sw.now self.new.entries.items }
    {
        sw.sound();
        let Some(fields) = count_fields(sw.text(text)) else {
            return None;
        };
        let class = ClassRows {
            text: self.like(sw, text),
            fields,
        };
        self.keep_named(sw, code, constant, text, class);
        Some(class)
    }

    // A text with these bytes: that of a class that is known, if one has them, so that structures of one class refer to one text.
    fn like(&self, sw: &Swizzle, text: u32) -> u32
        requires held { IsHeld sw.now text }
        requires text { (header_at sw.now text).kind ≡ Kind.Text }
        requires so { AreSo sw.now self.now.entries.items }
        ensures held { IsHeld sw.now result }
        ensures text { (header_at sw.now result).kind ≡ Kind.Text }
        ensures same { text_at sw.now result ≡ text_at sw.now text }
    {
        for known in &self.entries {
            let other = known.class.text;
            if other != 0 && sw.text(other) == sw.text(text) {
                return other;
            }
        }
        text
    }

    // Keeps a class, if a text with its bytes is the constant of a number of a code object.
    fn keep_named(&mut self, sw: &Swizzle, code: u32, constant: u32, text: u32, class: ClassRows)
        requires code { IsHeld sw.now code }
        requires class { HasRows sw.now class }
        requires same { text_at sw.now class.text ≡ text_at sw.now text }
        requires so { AreSo sw.now self.old.entries.items }
        ensures { AreSo sw.now self.new.entries.items }
    {
        let Some(named) = constant_text(sw, code, constant) else {
            return;
        };
        if named != text {
            return;
        }
        self.keep(KnownMake {
            code,
            constant,
            class,
        });
    }

    // Puts an entry in its place.
    fn keep(&mut self, known: KnownMake)
        ensures { (here : Heap) → AreSo here self.old.entries.items → IsMadeBy here known.code known.constant known.class → AreSo here self.new.entries.items }
    {
        let index = index_of(known.code, known.constant);
        if index < self.entries.len() {
            self.entries[index] = known;
        }
    }
}

// Where the entry of a constant stands. Each instruction that names a class has a constant of its own, and units that run in turn have code objects
// in different places.
#[inline(always)]
fn index_of(code: u32, constant: u32) -> usize
    ensures { result < 64 }
{
    (code as usize + constant as usize) % 64
}
