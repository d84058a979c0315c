//! The module in a file of a shelf.
//!
//! [`read_module`] is its one public call: it reads the file to its end, and gives the one module that the file reads as; or the
//! byte at which the file is refused, with the fault there; or what failed. What is read are the bytes of the file, where the
//! shelf tells its files, and they are at most 4,294,967,296.
//!
//! It stands on `dk_read`, which is fed the file piece by piece.
//!
//! ```text
//! let module = read_module(alloc, "m.dk", &mut shelf)?;
//! ```
#![tactic(auto)]

mod reading;

pub use crate::reading::{Stop, read_module};
