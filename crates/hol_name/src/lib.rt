//! Names of higher-order logic, read from the lines of an article, and their texts in the names of symbols.
//!
//! - [`Name::parse`] gives the name that a line writes, and refuses exactly the lines that write none.
//! - A [`Name`] is seen as the nonempty list of its components, each a list of bytes. Two names are
//!   equal, by `==` and by [`Name::same`], exactly where these lists are.
//! - [`Name::mangled`] gives the text of a name within the identifier of a symbol, without memory, and [`Name::demangle`]
//!   the name of such a text.
//! - [`one_name`] is the law that a line writes the name read from it and no other, [`one_mangling`] that two names have
//!   two mangled texts.
//!
//! ```text
//! let name = Name::parse(alloc, b"\"Data.Bool.and\"")?;
//! assert_eq!(name.len(), 3);
//! assert!(Name::parse(alloc, b"\"=\"")?.is_single(b"="));
//! ```
#![tactic(auto)]

ghost use Rattle.hol_name.specs.Laws.{OneMangling, OneName};

mod mangling;
mod name;

pub use mangling::Mangled;
pub use name::{Memory, Name, NameFault};

/// The law of reading: a line writes the name that is read from it, and no other.
pub fn one_name()
    ensures { OneName }
{}

/// The law of mangling: two names have two mangled texts.
pub fn one_mangling()
    ensures { OneMangling }
{}
