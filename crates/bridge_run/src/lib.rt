//! The program as one call: from the words of a command line to an answer and two texts.
//!
//! - [`run`] is all that a process does: from its command line, as the system gives it, to the number with which it ends. That is
//!   the number of a status that keeps the promise of [`bridge`].
//! - [`bridge`] is all that the program does for words. Its contract is stated in the words of `bridge_spec`: the words decide the
//!   form, each answer comes only by its cause, and the outputs then hold its texts.
//! - [`verify`], [`translate`], [`check`], [`show`], [`decode`], [`trial`] and [`article`] are its parts for the words `verify FILE..`,
//!   `translate FILE..`, `check FILE`, `show FILE..`, `decode FILE`, `trial N` and `article FILE..`, each proved in a crate of its own.
//!
//! `program` has the first, `command_line` what a process does round it.
//!
//! ```text
//! let status = bridge(alloc, &words, &mut shelf, &mut out, &mut note);
//! assert_eq!(status, Status::Done);
//! let number = run(alloc, env::args(&rt), &mut shelf, &mut out, &mut note);
//! assert_eq!(number, 0);
//! ```
#![tactic(auto)]

mod command_line;
mod program;

pub use crate::command_line::run;
pub use crate::program::bridge;
pub use bridge_article::article;
pub use bridge_check::check;
pub use bridge_decode::decode;
pub use bridge_show::show;
pub use bridge_spec::Status;
pub use bridge_translate::translate;
pub use bridge_trial::trial;
pub use bridge_verify::verify;
