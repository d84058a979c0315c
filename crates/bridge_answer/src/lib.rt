//! What the program answers, and how an answer is written.
//!
//! An [`Answer`] is made before anything is written, with all the memory that it takes. [`deliver`] writes its texts to the
//! two sinks and gives the status that comes of it: that of the answer, or a write fault where a sink failed.
//!
//! Each command of the program makes an answer and delivers it. What a call then does is told by the causes of its answers, by
//! the files that it began and by what the outside keeps: `specs/Performed` has the law.
//!
//! ```text
//! let status = deliver(Answer::Usage, &mut out, &mut note);
//! assert_eq!(status, Status::Usage);
//! ```
#![tactic(auto)]

mod answer;
mod delivery;

pub use crate::answer::Answer;
pub use crate::delivery::{deliver, write_parts};
