/// The sides of a node, in the area.
#[derive(Clone, Copy)]
pub struct Sides {
    pub left: Option<u32>,
    pub right: Option<u32>,
}
