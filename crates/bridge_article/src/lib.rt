//! The part of the program for the words `article FILE..`: one article that says again what articles export.
//!
//! [`article`] is its one public call. Its contract is that of the program for these words, in the words of `bridge_spec`: it
//! answers Done exactly where the stack machine accepts the articles, one after another, and one article of the version of
//! the last can say what they export, in as many bytes as an article may have; `out` then gains this article. Where the run is
//! accepted and no article can say it, it answers Unwritable, before anything is written.
//!
//! It stands on `bridge_reading` for the run of the articles, on `article_write` for the plan and the text, and on
//! `bridge_answer` for what else is written.
//!
//! ```text
//! let status = article(alloc, &files, &mut shelf, &mut out, &mut note);
//! assert_eq!(status, Status::Done);
//! ```
#![tactic(auto)]

mod delivery;
mod planning;
mod program;

pub use crate::program::article;
pub use bridge_spec::Status;
