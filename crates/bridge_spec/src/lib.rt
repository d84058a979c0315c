//! What the program answers: its status, and the texts that it writes.
//!
//! This crate defines, and has no law. Whoever reads the contract of the program's one call begins with `Promises` (all that a
//! call promises, and what a command does; what follows from a promise stands in `Consequences`) and reads down from there:
//!
//! | File | Notion |
//! |---|---|
//! | `Promises` | what a command does, and all that a call promises |
//! | `Calls`, `Forms` | what a call is given and what the outside did in it; which words are a form |
//! | `Answers` | when each answer comes, form by form |
//! | `FileChecks` | what a file reads as, and how its declarations pass |
//! | `FileExports` | what the exports of the module in a file say |
//! | `Texts` | what is written for each answer |
//! | `Outputs` | what the sinks hold afterwards, and which files were begun |
//! | `Begun` | which files a call begins, in which order |
//! | `Headline` | what the module of an accepted run is good for |
//! | `Articles` | whether one article can say what a run exports, and what it tells |
//! | `Consequences` | what follows from what a call promises |
//!
//! The module of an accepted run, and what it is for it to stand for its run, are defined in `translate_spec`.
#![tactic(auto)]

pub mod status;

pub use crate::status::Status;
