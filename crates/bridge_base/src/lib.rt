//! The outside: files that are read, sinks that are written, and what is known of them.
//!
//! - `Shelf` and `Sink` are the outside: every failure of theirs shows in a count, and a caller knows of the
//!   bytes what a shelf or a sink tells. `write_all` writes a whole piece, or says that it could not.
//! - `MemShelf` and `MemSink` are in memory and fail at the calls that they are told to fail at, `QuietShelf`
//!   and `QuietSink` never fail, and `FileShelf` and `StdSink` are real files and the standard streams.
//! - What `common` has is here too: `Kind`, `Fault`, `Memory`, `Budget`, `Stack` and `Binding`.
//!
//! ```
//! let mut sink = MemSink::new(Vec::new(alloc), Vec::new(alloc));
//! write_all(&mut sink, b"accepted 3")?;
//! let text = sink.contents();
//! ```
#![tactic(auto)]

mod call_log;
mod folder;
pub mod mem_shelf;
pub mod mem_sink;
pub mod outside;
pub mod quiet;
pub mod real;

pub use common::{Binding, Budget, Fault, Kind, Memory, Stack};
pub use mem_shelf::MemShelf;
pub use mem_sink::MemSink;
pub use outside::{Failed, Shelf, Sink, write_all};
pub use quiet::{QuietShelf, QuietSink};
pub use real::{FileShelf, StdSink};
