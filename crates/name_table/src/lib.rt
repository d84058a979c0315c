//! Names by number: each name of a table has one number, and numbers are given in the order in which names come.
//!
//! `number` gives the number of a name, the next one if it is new, and `find` that of a name which has one. A name is kept in a tree, so a name
//! among n costs log n comparisons, whichever names they are; what was lately asked for is mostly found at once.
//!
//! ```
//! let mut table = NameTable::new(alloc);
//! let number = table.number(b"bool")?;
//! let place = table.find(b"bool");
//! ```
#![tactic(auto)]

mod recent;
mod spelling;
mod table;

pub use table::NameTable;
