//! The part of the program for the words `check FILE`: a module from a file, read and checked.
//!
//! [`check`] is its one public call. Its contract is that of the program for these words, in the words of `bridge_spec`: among
//! others, a file that it accepts reads as one module, and that module is well typed.
//!
//! It stands on `bridge_module` for the module in a file, on `lp_kernel` for its check, and on `bridge_answer` for what is written.
//!
//! ```text
//! let status = check(alloc, "m.dk", 100_000_000, false, &mut shelf, &mut out, &mut note);
//! assert_eq!(status, Status::Done);
//! ```
#![tactic(auto)]

mod checking;
mod program;

pub use crate::program::check;
pub use bridge_spec::Status;
