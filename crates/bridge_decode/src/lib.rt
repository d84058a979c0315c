//! The part of the program for the words `decode FILE`: a module from a file, back to the theorems that its exports say.
//!
//! [`decode`] is its one public call. Its contract is that of the program for these words, in the words of `bridge_spec`: a line
//! for each export, with the closed sequent for which its type stands; or the first export that stands for none. All is judged
//! before anything is written.
//!
//! It stands on `bridge_module` for the module in a file, on `decode_back` for the sequent of a type, on `hol_text` for its
//! text, and on `bridge_answer` for what is written.
//!
//! ```text
//! let status = decode(alloc, "m.dk", &mut shelf, &mut out, &mut note);
//! assert_eq!(status, Status::Done);
//! ```
#![tactic(auto)]

mod decoding;
mod exports;
mod program;

pub use crate::program::decode;
pub use bridge_spec::Status;
