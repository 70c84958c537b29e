//! What the machine does with calls of the library over tables, and with scans of tables, whatever the residence of the objects.
#![tactic(auto)]

mod ends;
mod found;
mod last;
mod scan;
pub mod scans;
pub mod tables;

pub use scan::Scan;
