/// What a place holds.
#[derive(Clone, Copy, PartialEq, Eq, Debug)]
pub enum Value {
    /// An int.
    Num(i32),
    /// A bool.
    Flag(bool),
    /// An object of the area by its index, or nil.
    Ref(Option<u32>),
}
