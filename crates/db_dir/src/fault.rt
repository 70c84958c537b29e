//! Why a database is neither created nor opened.

/// What an error record says of a call on databases.
#[derive(Clone, Copy, PartialEq, Eq, Debug)]
pub enum DirFault {
    /// A name has 1 to 64 bytes.
    BadName,
    /// A password has at most 64 bytes.
    BadPassword,
    /// A database has this name.
    Exists,
    /// A volume holds 256 databases.
    TooMany,
    /// No database has this name.
    NoSuchDatabase,
    /// The password differs.
    Password,
    /// The mode is read or write.
    BadMode,
}
