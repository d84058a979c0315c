//! Files of tests in TOML: what is said of a case, texts that are joined of parts, and one call that tries each case.
//!
//! - [`all_hold`] tries each case of a file by a [`Trial`], and tells of each that comes out otherwise (`tests`).
//! - A [`Case`] stands with its test, what is usual in its file and what is in all files: what it doesn't say its test says, what that
//!   doesn't say is usual in the file, and else in all files (`cases`: [`said`], [`word`], [`number`], [`listed`] and others).
//! - [`joined`] and [`text_at`] join a text of its parts (`parts`).
//!
//! A file has a table `usual` and tests; a test has a name, and cases. A key that is none, a file without a test and a test without a
//! case fail.
//!
//! A part is a text; or `$` and the name of a text of `texts`, of the case, its test, what is usual in the file or in all files; or
//! `{ times = 3, part = ".." }`, a part that comes so often; or `{ count = 3, part = "v# " }`, a part that comes for each number below
//! it, which stands for `#`.
#![tactic(auto)]

mod cases;
mod parts;
mod tests;

pub use cases::{
    Case, Wrong, items, listed, number, number_of, numbers, said, value, word, word_of, words_of,
};
pub use parts::{Sort, joined, text_at};
pub use tests::{Trial, all_hold};
