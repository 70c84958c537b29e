//! Fields of classes that were looked up before.
ghost use Rattle.std.specs.Prelude.{◌≡◌, ◌<◌, ◌≤◌, IfOk, IfSome};
ghost use Rattle.joint_ops.specs.swizzle.Heap.{Heap, IsHeld, header_at};
ghost use Rattle.objects.specs.Fields.{AreSo, IsConstantText, IsKnown, IsSo, RefersTo};

use joint_ops::obj_layout::kind::Kind;
use joint_ops::obj_layout::reference::Reference;
use joint_ops::swizzle::swizzle::Swizzle;
use joint_ops::text_forms::forms::{Form, Located, Place, Rows, locate};
use std::alloc::{AllocError, Global};

/// Where a field of a class lies. The class is a constant of a code object, by its number, and so is the field. The text has the bytes of the
/// class: it is one to which structures of the class refer. Text 0 stands for no entry.
#[derive(Clone, Copy)]
pub(crate) struct KnownField {
    pub text: u32,
    pub code: u32,
    pub constant: u32,
    pub field: u32,
    pub located: Located,
}

/// Fields that were looked up before.
#[derive(Drop)]
pub(crate) struct KnownFields {
    pub entries: Vec<KnownField>,
}

// How many entries there are. A field that is looked up takes its entry from another one.
const ENTRIES: usize = 128;

const NO_ENTRY: KnownField = KnownField {
    text: 0,
    code: 0,
    constant: 0,
    field: 0,
    located: Located {
        place: Place {
            form: Form::Reference,
            index: 0,
        },
        rows: Rows { refs: 0, nums: 0 },
    },
};

impl KnownFields {
    /// Without any field. This takes memory for 128 entries, once.
    pub fn new(alloc: Global) -> Result<KnownFields, AllocError>
        ensures { IfOk result (λ known. (here : Heap) → AreSo here known.entries.items) }
    {
        let mut entries = Vec::with_capacity(alloc, ENTRIES)?;
        entries.resize(ENTRIES, NO_ENTRY)?;
        Ok(KnownFields { entries })
    }

    /// Forgets all fields.
    pub fn clear(&mut self)
        ensures { (here : Heap) → AreSo here self.new.entries.items }
    {
        self.entries.fill(NO_ENTRY);
    }

    /// The entry of a field of the class that is the constant of a number of a code object, of structures that refer to this text. None where there is
    /// none.
    #[inline(always)]
    pub fn entry(&self, code: u32, constant: u32, field: u32, text: u32) -> Option<&KnownField>
        requires { 1 ≤ text }
        ensures { (here : Heap) → AreSo here self.now.entries.items → IfSome result (λ known. IsKnown here code constant field text known.now) }
    {
        let index = index_of(code, constant, text);
        if index >= self.entries.len() {
            return None;
        }
        let known = &self.entries[index];
        if known.text == text
            && known.code == code
            && known.constant == constant
            && known.field == field
        {
            Some(known)
        } else {
            None
        }
    }

    /// Looks up where a field lies of the class to whose text a structure refers, and keeps it, if that is the class that is the constant of a number of a
    /// code object.
    pub fn learn(&mut self, sw: &Swizzle, code: u32, constant: u32, field: u32, object: Option<u32>)
        requires code { IsHeld sw.now code }
        requires object { IfSome object (IsHeld sw.now) }
        requires so { AreSo sw.now self.old.entries.items }
        ensures { AreSo sw.now self.new.entries.items }
    {
        let Some(at) = object else {
            return;
        };
        let Some(named) = constant_text(sw, code, constant) else {
            return;
        };
        let Some(text) = class_text(sw, at) else {
            return;
        };
        sw.sound();
        if sw.text(text) != sw.text(named) {
            return;
        }
        let Some(located) = locate(sw.text(text), field) else {
            return;
        };
        self.keep(KnownField {
            text,
            code,
            constant,
            field,
            located,
        });
    }

    // Puts an entry in its place.
    fn keep(&mut self, known: KnownField)
        ensures { (here : Heap) → AreSo here self.old.entries.items → IsSo here known → AreSo here self.new.entries.items }
    {
        let index = index_of(known.code, known.constant, known.text);
        if index < self.entries.len() {
            self.entries[index] = known;
        }
    }
}

/// The object of the area to which a structure refers first, if it refers to one there.
#[inline(always)]
pub(crate) fn class_of(sw: &Swizzle, object: u32) -> Option<u32>
    requires { IsHeld sw.now object }
    ensures is { IfSome result (RefersTo sw.now object) }
    ensures held { IfSome result (IsHeld sw.now) }
{
    sw.sound();
    if !sw.is_kind(object, Kind::Structure) {
        return None;
    }
    if sw.refs(object) == 0 {
        return None;
    }
    match sw.peek(object, 0) {
        Reference::Local(text) => Some(text),
        _ => None,
    }
}

// The text to which a structure refers first, if it refers to one of the area.
fn class_text(sw: &Swizzle, object: u32) -> Option<u32>
    requires { IsHeld sw.now object }
    ensures held { IfSome result (IsHeld sw.now) }
    ensures text { IfSome result (λ at. (header_at sw.now at).kind ≡ Kind.Text) }
{
    let Some(text) = class_of(sw, object) else {
        return None;
    };
    sw.sound();
    match sw.kind(text) {
        Kind::Text => Some(text),
        _ => None,
    }
}

/// The text that is the constant of a number of a code object, if it lies in the area.
pub(crate) fn constant_text(sw: &Swizzle, code: u32, constant: u32) -> Option<u32>
    requires { IsHeld sw.now code }
    ensures { IfSome result (IsConstantText sw.now code constant) }
{
    sw.sound();
    if !sw.is_kind(code, Kind::Code) {
        return None;
    }
    if constant >= sw.refs(code) {
        return None;
    }
    let Reference::Local(named) = sw.peek(code, constant) else {
        return None;
    };
    match sw.kind(named) {
        Kind::Text => Some(named),
        _ => None,
    }
}

// Where the entry stands of a constant and a text. Each instruction that names a class has a constant of its own, units that run in turn have code
// objects in different places, and so have a text that was made and one that was fetched.
#[inline(always)]
fn index_of(code: u32, constant: u32, text: u32) -> usize
    ensures { result < 128 }
{
    (code as usize + constant as usize + text as usize) % 128
}
