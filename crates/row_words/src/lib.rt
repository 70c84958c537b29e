//! The words that the fields of rows are made of: numbers, and the words of forged objects.
#![tactic(auto)]

pub mod number;
pub mod objects;
pub mod words;

pub use number::put_number;
pub use objects::words_of;
pub use table_rows;
pub use table_rows::anyhow;
pub use words::{Words, area_of, index_of, int_of, number_of, parted};
