//! The length of the article of the steps that a run tells, counted without writing it.
//!
//! [`article_length`] counts step by step what these steps add to the text, as it is defined (`ArticleLength` of `article_write_spec`). A length past the
//! greatest `u128` is told as that number. It makes no part of the text, and walks over none: a type, a term without loose numbers and a theorem are
//! counted at their first place as they are built, and later by their key. A part with loose numbers is written anew at each of its places; what it adds
//! there is noted for each number of binders that it stands under, so that however often it stands there it is counted once.
//!
//! | Module | What it does |
//! |---|---|
//! | `tally` | the keys that were given, and the length so far |
//! | `types` | the count of a type |
//! | `loose` | how many binders round each term leave it no loose number |
//! | `memo` | what was found for parts of terms, by a map in order |
//! | `uses` | how often the number that a binder binds stands in its body |
//! | `terms` | the count of a term |
//! | `given` | the count of what a rule was given |
//! | `steps` | the count of a step, and of the whole article |
//!
//! What a count costs, beside a look at each step:
//!
//! | Of | Steps | Memory |
//! |---|---|---|
//! | the table | a look at each term | a number for each type and two for each term, and a number for each step, while the count lasts |
//! | a name | its bytes | none |
//! | a type | its first place, and for each further one a look at its key | what is left to do of the type |
//! | a term | each part once for each number of binders that it stands under, or once where it has no loose number; a look-up among the places that were noted | a note of each place of a part with loose numbers, while the count lasts |
//! | an abstraction | at each place that is counted a walk over its body, which comes to each part that has the bound number once for each number of binders between | the walk's notes |
//!
//! ```
//! let length = article_length(alloc, &proof, Version::Six, &told, &is_export, number)?;
//! ```
#![tactic(auto)]

mod given;
mod loose;
mod memo;
mod steps;
mod tally;
mod terms;
mod types;
mod uses;

pub use steps::article_length;
