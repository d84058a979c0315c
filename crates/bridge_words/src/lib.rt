//! The words of a command line, read by `clap`.
//!
//! - [`form_of`] answers what the words ask for, as a [`Form`], or want of memory. Its contract is `form_in` of `bridge_spec`, for all words.
//!
//! The command has no help and no version, and its texts are printed nowhere. Words that `clap` would take and that no form has,
//! an empty one, `--` and what begins with a single dash, aren't handed to it (`specs/Readable`).
//!
//! | File | What it does |
//! |---|---|
//! | `command` | the command of `clap`: seven subcommands, without help and version |
//! | `form` | the words that are handed to it, and the form that its matches ask for |
//! | `number` | the number that a word says |
//!
//! ```text
//! let form = form_of(alloc, &words)?;
//! ```
#![tactic(auto)]

mod command;
mod form;
mod number;

pub use crate::form::{Form, form_of};
