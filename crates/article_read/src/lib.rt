//! Reads the lines of an article, in pieces of any size (OpenTheory article format, versions 5 and 6).
//!
//! [`Lines`] takes the bytes of an article piece by piece and gives its commands, each with its line.
//! Whatever the pieces, they are the commands of the whole text, and the first faulty line is that of
//! the whole text: a line is refused when it has ended, or when it has a byte past a limit. Only the
//! line that is still open is kept.
//!
//! ```text
//! let mut lines = Lines::new(alloc);
//! lines.feed(b"\"bool\" typ", &mut commands)?; // from here on any pieces
//! let last_line = lines.finish(&mut commands)?;
//! ```
//!
//! [`read_all`] reads an article that comes in a list of pieces, and gives the reading of the whole.
//! The laws [`one_reading`] and [`one_stop`] say that each text has exactly one reading.
#![tactic(auto)]

ghost use Rattle.article_spec.specs.OneReading.{OneReading, OpensOrStops, OpensFront};

mod content;
mod lines;
mod number;

pub use article_spec::{Command, Item, Word};
pub use lines::{LineFault, Lines, read_all};

/// The law that each text has exactly one reading.
pub fn one_reading()
    ensures { OneReading }
{}

/// The law that no text both opens a line and stops at a faulty one, so that a reader refuses exactly
/// the texts that stop; and that the commands of a text are the front of those of each longer text.
pub fn one_stop()
    ensures apart { OpensOrStops }
    ensures front { OpensFront }
{}
