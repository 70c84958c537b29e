use crate::keys::Key;

/// Keys between which those of a part of a tree lie: those of the nearest nodes above it on its left and on its right, where there are such.
#[derive(Clone, Copy)]
pub struct Span {
    pub low: Option<Key>,
    pub high: Option<Key>,
}

/// Where a search goes on: a side of a node, and the span of the keys there.
#[derive(Clone, Copy)]
pub struct Way {
    pub side: Option<u32>,
    pub span: Span,
}
