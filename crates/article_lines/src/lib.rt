//! The lines of an article that is written, how long they are, and the keys of what they build.
//!
//! | Module | What it does |
//! |---|---|
//! | `lines` | writes the line of a number, of a name and of a word, without memory |
//! | `lengths` | how long these lines are |
//! | `binders` | the numbers in the names of binders |
//! | `keys` | the keys of types, terms and theorems |
//! | `rules` | the words by which rules are called |
//!
//! It stands on the definition of the article of a run (`article_write_spec`) and on its laws. What counts an article (`article_count`)
//! and what writes it (`article_steps`) stand on it.
#![tactic(auto)]

pub mod binders;
pub mod keys;
pub mod lengths;
pub mod lines;
pub mod rules;
