//! The part of the program for the words `trial N`: `verify` of the generated article of N blocks.
//!
//! [`trial`] is its one public call. Its contract is that of the program for these words, in the words of `bridge_spec`, over whatever shelf the
//! program was given: the call leaves it alone. The article is written by `vectors` into memory and read from there; its module is checked, and
//! the lines of `verify` then stand on standard output. That nothing of this is refused is proved, so the answer is Done, want of memory, or a
//! write fault where a sink failed; the call does it all the same, and would say what it found.
//!
//! It stands on `article_trial_laws` for the law that the article is accepted, on `bridge_translate` for its module, and on `bridge_verify` for the check.
//!
//! ```text
//! let status = trial(alloc, 1_000, &mut out, &mut note);
//! assert_eq!(status, Status::Done);
//! ```
#![tactic(auto)]

mod article;
mod delivery;
mod program;
mod verification;

pub use crate::program::trial;
pub use bridge_spec::Status;
