//! Small types over std's collections, which contracts see as plain lists.
//!
//! A struct or an enum whose clauses compare values can't hold a `Vec` or a `String` as it is: two of them with equal
//! elements may differ in capacity and place. [`Listed`] and [`Text`] are those collections with nothing but their
//! elements to see. Each is made from the collection and gives it back without taking memory; clones are equal to what was cloned,
//! and `==` is equality of the lists, at every depth.
#![tactic(auto)]

mod listed;
mod text;

pub use listed::{Bytes, Listed};
pub use text::Text;
