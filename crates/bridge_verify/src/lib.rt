//! The part of the program for the words `verify [--share] [--fast] FILE..`: the module of the run of some articles, checked before it is
//! written.
//!
//! [`verify`] is the call of these words. Its contract is that of the program for these words, in the words of `bridge_spec`: it answers Done
//! exactly where the stack machine accepts the articles. Before anything is written the text of the module is read again, declaration by
//! declaration, so that the text of one is held at a time, over the table in which the module was made; and the module that it reads as is
//! checked, each declaration within its bound, with rechecks of sorts or, where it is to be fast, without.
//! That the reading refuses nothing, and that the check says yes, is proved; the call does it all the same, would say what it found, and
//! says `verified` by the check's own verdict. [`check_back`] is that part alone, for `trial`.
//!
//! It stands on `bridge_translate` for the module, on `dk_write` and `dk_read` for its text, and on `lp_kernel` for the check.
//!
//! ```text
//! let status = verify(alloc, &files, false, false, &mut shelf, &mut out, &mut note);
//! assert_eq!(status, Status::Done);
//! ```
#![tactic(auto)]

mod checking;
mod fast;
mod program;

pub use crate::checking::check_back;
pub use crate::program::verify;
pub use bridge_spec::Status;
