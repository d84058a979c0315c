//! Types of higher-order logic, each kept once under a number.
//!
//! A table's value is the list of its types, by number: two numbers are equal exactly where their types are. A
//! call that makes types keeps every number that was given before, and after a refusal or want of memory the
//! table is as before. A type that is made is within the limits of size and depth, or refused for exactly the
//! limit that it passes. Walks keep a stack of their own and visit a shared part once.
//!
//! ```
//! let mut table = TypeTable::new(alloc);
//! let a = table.var(&Name::single(alloc, b"A")?)?;
//! let endo = table.function(a, a)?;
//! ```
#![tactic(auto)]

mod entries;
mod marks;
mod matching;
mod node;
mod substitution;
mod table;
mod type_map;
mod variables;
mod visits;

pub use table::{TypeId, TypeTable, TypeView};
pub use type_map::TypeMap;
