//! The part of the program for the words `translate [--share] FILE..`: the module of the run of some articles.
//!
//! [`translate`] is the call of these words. Its contract is that of the program for them, in the words of `bridge_spec`: it answers
//! Done exactly where the stack machine accepts the articles, one after another, and then standard output has the one text of the
//! module of the run, with shared abbreviations or without, and with its bounds, and standard error the counts. [`translation_of`] is
//! the part before anything is written, and [`deliver_translation`] writes: `verify` checks the module in between. [`write_counts`]
//! writes the counts alone, for `trial`.
//!
//! It stands on `bridge_reading` for the run, on `translate_rule` for the module, on `share` for its abbreviations, on `lp_weight` for
//! the bounds and on `dk_write` for the text, which is never held whole.
//!
//! ```text
//! let status = translate(alloc, &files, false, &mut shelf, &mut out, &mut note);
//! assert_eq!(status, Status::Done);
//! ```
#![tactic(auto)]

mod delivery;
mod program;
mod translation;

pub use crate::delivery::{deliver_translation, write_counts};
pub use crate::program::translate;
pub use crate::translation::{Counts, Translation, translation_of};
pub use bridge_spec::Status;
