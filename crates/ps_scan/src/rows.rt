//! What the rows of names write.

// The table, whose codes are the constants.
macro_rules! each_row {
    (() $($constant:ident $name:literal)*) => {
        [$(Row { code: $constant, operands: 0, name: $name }),*]
    };
}

// The names alone.
macro_rules! each_name {
    (() $($constant:ident $name:literal)*) => {
        [$($name),*]
    };
}

pub(crate) use each_name;
pub(crate) use each_row;
