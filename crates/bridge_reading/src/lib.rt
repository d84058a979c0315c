//! Articles read from a shelf, one after another, to the machine at their end.
//!
//! [`read_articles`] reads each file piece by piece and hands its commands to the stack machine before it reads on, so no file is held
//! whole. Its answer is the machine after an accepted run of what was read of the files; or why there is none: the article and the line at
//! which the run is refused, a fault of the shelf, or want of memory. What was read of a file are its bytes, where the shelf tells them.
//! Where the shelf tells, the files are begun in order, each as often as it is named: all where the run is accepted, those up to the refused article where it is
//! refused, and else a front of them.
//!
//! It stands on `article_read` for the commands of a text, and on `stack_machine`, which obeys them.
//!
//! ```text
//! let machine = read_articles(alloc, &files, &mut shelf)?;
//! let theorems = machine.exports();
//! ```
#![tactic(auto)]

mod articles;
mod reading;

pub use crate::articles::{Stop, read_articles};
