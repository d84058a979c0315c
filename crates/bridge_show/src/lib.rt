//! The part of the program for the words `show FILE..`: what articles assume and what they export, as closed sequents.
//!
//! [`show`] is its one public call. Its contract is that of the program for these words, in the words of `bridge_spec`: it
//! answers Done exactly where the stack machine accepts the articles, one after another, and then each line has the closed
//! text of what that step of the run says.
//!
//! It stands on `bridge_reading` for the run of the articles, on `hol_text` for the lines, and on `bridge_answer` for what
//! is written.
//!
//! ```text
//! let status = show(alloc, &files, &mut shelf, &mut out, &mut note);
//! assert_eq!(status, Status::Done);
//! ```
#![tactic(auto)]

mod program;
mod showing;

pub use crate::program::show;
pub use bridge_spec::Status;
