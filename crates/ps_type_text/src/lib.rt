//! The canonical text of a type and of a class, and when two types are the same. Two types are the same exactly where their
//! texts are, and so are two classes; so a text stands for its type in stored code and stored objects.
#![tactic(auto)]

pub mod classes;
pub mod equality;
mod laws;
pub mod types;

pub use classes::{Member, class_text};
pub use equality::same_type;
pub use laws::{class_texts_tell_classes_apart, type_texts_tell_types_apart};
pub use types::type_text;
