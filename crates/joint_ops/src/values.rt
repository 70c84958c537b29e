//! What an object of the area, or none, denotes.
ghost use Rattle.std.specs.Prelude.{◌≡◌, List, IfSome};
ghost use Rattle.heap_meaning.specs.obj_layout.declared.reference.Reference.{Reference};
ghost use Rattle.heap_meaning.specs.swizzle.Heap.{IsHeld};
ghost use Rattle.heap_meaning.specs.ps_heap.Objects.{is_one_object};
ghost use Rattle.heap_meaning.specs.ps_heap.Objects as meaning;
ghost use Rattle.heap_meaning.specs.ps_heap.Values as meant;
ghost use Rattle.joint_ops.specs.World.{IsWorld, DenotesIn};
ghost use Rattle.joint_ops.specs.Operands.{IsOfSort, IsSorted, IsByObject};

use heap_meaning::obj_layout::kind::Kind;
use heap_meaning::obj_layout::vault::Vault;
use heap_meaning::swizzle::swizzle::Swizzle;

/// What an object is, or none.
#[derive(Clone, Copy, PartialEq, Eq, Debug)]
pub enum Sort {
    /// None.
    Nil,
    Text,
    /// A structure or a table.
    Pointer,
    Vector,
    Procedure,
    /// An object that no value of a clause denotes.
    Other,
}

/// What sort of object this is. Where it denotes a value, it is the sort of that value, and never `Other`. It is so
/// whatever the vault, here and wherever none is lent.
#[inline]
pub fn sort_of<V: Vault>(sw: &Swizzle, to: Option<u32>) -> Sort
    requires held { IfSome to (IsHeld sw.now) }
    ensures kind { IsSorted sw.now to result }
    ensures value { (vault : V) (names : List Reference) (v : meant.Value) → DenotesIn sw.now (V.outside vault) names to v → IsOfSort v result }
{
    sw.sound();
    let Some(at) = to else {
        return Sort::Nil;
    };
    match sw.kind(at) {
        Kind::Text => Sort::Text,
        Kind::Structure | Kind::Table => Sort::Pointer,
        Kind::Vector => Sort::Vector,
        Kind::Closure => Sort::Procedure,
        _ => Sort::Other,
    }
}

/// Whether two values that are neither texts nor procedures are one: nil and nil, or the same object.
#[inline]
pub fn is_one<V: Vault>(sw: &Swizzle, a: Option<u32>, b: Option<u32>) -> bool
    ensures { (vault : V) (of : meaning.Heap) (names : List Reference) (v w : meant.Value) → IsWorld sw.now (V.outside vault) of names
        → DenotesIn sw.now (V.outside vault) names a v → DenotesIn sw.now (V.outside vault) names b w
        → IsByObject v → IsByObject w → result ≡ is_one_object v w }
{
    sw.sound();
    a == b
}
