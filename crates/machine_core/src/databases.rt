use reach_commit::commit_walk::homes::Source;

/// The most databases of a volume, and so of those that are open for writing.
pub const MOST_DATABASES: usize = 256;

/// What a run knows of databases: those that are open for writing, in the order in which they became so, each with its root where it was made since the
/// last commit that saved; whether a database was asked for; and the object of the area that names all databases, where one was asked for and there is one.
pub struct Databases {
    pub writing: Vec<Source>,
    pub asked: bool,
    pub directory: Option<u32>,
}

impl Drop for Databases {
    fn drop(self) {
        let Databases {
            writing: _,
            asked: _,
            directory: _,
        } = self;
    }
}
