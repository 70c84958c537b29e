//! An area with a structure and the texts of three classes. `specs/` speaks of it, so it is here outside the tests too.
use heap_ops::swizzle::swizzle::Swizzle;

/// A structure of the class `own`, whose text stands in the area once more as `equal`, another class, and a text that is a field of the structure.
#[derive(Drop)]
pub struct World {
    pub sw: Swizzle,
    pub own: u32,
    pub equal: u32,
    pub other: u32,
    pub name: u32,
    pub object: u32,
}
