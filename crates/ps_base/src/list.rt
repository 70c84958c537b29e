ghost use Rattle.std.specs.Prelude.{◌≡◌, length};
ghost use Rattle.ps_base.specs.List.{items_of};

/// A list inside a tree or a unit of code, of which contracts see the items.
#[derive(Drop)]
pub struct List<T> {
    vec: Vec<T>,
}

impl<T> List<T> {
    /// The list of these items. Takes no memory.
    pub fn new(items: Vec<T>) -> List<T>
        ensures { items_of result ≡ items.items }
    {
        List { vec: items }
    }

    /// The items of the list.
    pub fn as_slice(&self) -> &[T]
        ensures { result.now ≡ items_of self.now }
    {
        self.vec.as_slice()
    }

    /// How many items the list has.
    pub fn len(&self) -> usize
        ensures { result ≡ length (items_of self.now) }
    {
        self.vec.len()
    }

    /// Gives the items back. Takes no memory.
    pub fn into_vec(self) -> Vec<T>
        ensures { result.items ≡ items_of self }
    {
        let List { vec } = self;
        vec
    }
}
