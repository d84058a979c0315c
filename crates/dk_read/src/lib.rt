//! The reader of modules: the text of a module, in any pieces, becomes the module that it reads as.
//!
//! A text that reads as no module is refused for its fault at the least place, and so is one that is longer than the limit. A word or
//! a sign that the limit cuts shows its fault where whatever it may become can't follow; else the text is too long.
//! Parentheses and binders may nest as deep as memory reaches. A name that is short for a tree is read as that tree, which is kept once.
//! A `SharingReader` reads what comes after the signature's text over a table that is lent to it, in which it finds the trees that stand there.
//!
//! ```
//! let mut reader = Reader::new(alloc, Limit::Bytes(4294967296));
//! reader.feed(piece)?;
//! let module = reader.finish()?;
//! ```
#![tactic(auto)]

mod cut_tokens;
mod declaring;
mod ending;
mod faults;
mod heads;
mod identifiers;
mod names;
mod nesting;
mod parser;
mod reader;
mod sharing;
mod signature_names;
mod stage;
mod terms;
mod text;

pub use faults::DkFault;
pub use lp_spec::DkKind;
pub use reader::{Limit, Reader};
pub use sharing::SharingReader;
