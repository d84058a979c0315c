//! Folds modules: an abbreviation for each tree that can be abbreviated and occurs at two places.
//!
//! A fold (`folding`) gives the folded module of `share_spec`. It counts at how many places each tree stands (`places`), and lists the entries of
//! the folded module (`listing`), by the order in which trees are first met (`order`) and the types of abbreviations (`abbreviation`); then it
//! finds the places of the declarations (`placing`), makes the trees with other numbers of symbols (`moving`), and declares what the entries are
//! over these (`declaring`). Each looks at each tree of a table once, however many places it has; for its type a closed tree is asked once, and an open
//! one once in each context.
//!
//! | File | Definitions |
//! |---|---|
//! | `Counts` | counts of places by the numbers of trees |
//! | `NodeParts` | the parts of a node |
//! | `Meetings` | a walk on its way that meets trees |
//! | `Typings`, `Asking` | questions for types, their answers, and those that wait |
//! | `Listings`, `Placings` | entries by numbers, and the places of the declarations among them |
//! | `Moving`, `Declaring` | trees made anew with other numbers of symbols, and declarations over them |
//! | `Foldings` | what a fold begins with |
#![tactic(auto)]

mod abbreviation;
mod declaring;
mod folding;
mod listing;
mod moving;
mod naming;
mod nodes;
mod order;
mod places;
mod placing;
mod questions;
mod typing;

pub use folding::fold;
