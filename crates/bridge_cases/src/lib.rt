//! Tests of the program that are data: a file of tests in TOML, and one call that runs them.
//!
//! - [`all_hold`] runs each test of a file, and tells of each case that comes out otherwise what came instead (`tests`; a case by
//!   itself in `tries`).
//! - What is said under a key stands in `cases`, joined texts in `parts`, the files on the shelf in `files`, a shelf that
//!   tells which of them were begun in `recorded`, the calls in `answers`, and in `usual` what is usual in all files of tests, with
//!   the texts that all of them have.
//!
//! A file has a table `usual` and tests; a test has a name, and cases, each a call of the program. What a case doesn't
//! say its test says, what that doesn't say is as usual in the file, and else as usual in all files.
//!
//! ```toml
//! [usual]
//! words = ["bridge", "check", "a"]
//! text.a = ["$prelude", "$lines"]
//!
//! [[test]]
//! name = "accepts_what_is_well_typed"
//!
//! [[test.case]]
//! texts.lines = "x : type."
//! out = "accepted 1, unproved 1\n"
//! ```
//!
//! What is given:
//! - `words`, the command line, or a list of command lines, of which each is tried.
//! - `by`, the public call that is made, usually `bridge`. `verify`, `translate`, `show`, `article`, `check` and `decode` have
//!   their files for words, and `check` a `budget` too.
//! - `text.NAME`, a file on the shelf: a text, or a list of parts that are joined. `article.NAME`, a file that is an article:
//!   in its parts a blank stands for the end of a line, and each part ends one.
//! - A part is a text; or `$` and the name of a text of `texts`, of the case, its test, what is usual in the file or in all files;
//!   or `{ times = 3, part = ".." }`, a part that comes so often; or `{ commands = ".." }`, commands of an article, each on a line of its own.
//! - `pieces`, how many bytes the shelf gives at most a read: each number is tried.
//! - `shelf_fails`, `out_fails` and `note_fails`, the calls, counted from 1, at which the shelf, standard output and standard
//!   error fail.
//!
//! What has to come:
//! - `number`, that of the answer.
//! - `out` and `note`, what standard output and standard error hold, as a text or a list of parts.
//! - `cut`, `out` or `note`: that one holds less than this, but from its beginning.
//! - `unsaid`, `out` or `note`: that one may hold anything.
//! - `out_calls`, how often standard output is called, where something is said of it.
//! - `begun`, a list of the files that are begun, in order and each as often as it is, where something is said of them.
#![tactic(auto)]

mod answers;
mod cases;
mod files;
mod parts;
mod recorded;
mod tests;
mod tries;
mod usual;

pub use crate::tests::all_hold;
