/// A name, and a place in the code: where it stands as a label, or where the place of that label is wanted.
#[derive(Clone, Copy)]
pub struct Label<'a> {
    pub name: &'a [u8],
    pub place: usize,
}

/// The place of a name among these.
pub fn place_of(name: &[u8], labels: &[Label<'_>]) -> Option<usize> {
    for label in labels {
        if label.name == name {
            return Some(label.place);
        }
    }
    None
}
