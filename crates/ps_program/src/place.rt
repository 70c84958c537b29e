/// Where the value of a name is kept while a body runs (`docs/meaning.md`).
#[derive(Clone, Copy)]
pub enum Place {
    /// In the local of this number, on the stack of the name's type.
    Plain { slot: u32 },
    /// In the scope so many scopes outward from the current one, at this position among its names.
    Kept { up: u32, slot: u32 },
}
