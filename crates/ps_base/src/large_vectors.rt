//! Large vectors that are let go, so that what is taken and let go afterwards stays cheap.

/// Lets a vector go that may be large. The C library takes a large block from the system by itself, and gives it back whole; but the
/// size from which on it does so grows with each such block that is let go, and smaller ones then lie among the small blocks, all of
/// which are gone over where one of them is let go. So the vector is cut first: its block is small by then, and the size stays.
pub fn let_go<T: Drop>(mut items: Vec<T>) {
    items.truncate(1);
    items.shrink_to_fit();
}
