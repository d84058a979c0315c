//! The article that says again what a run exports: planned, and written.
//!
//! [`plan`] finds what is told, whether one article of a version can say it, and how long that article is. All memory is taken there.
//! [`write`] then writes the article to a sink, and takes none: the text is that of the definition (`article` of `article_write_spec`).
//!
//! ```
//! let plan = plan(alloc, machine.proof(), version, machine.assumptions(), machine.exports())?;
//! if plan.fits() && plan.len() <= limit {
//!     write(machine.proof(), plan, &mut sink)?;
//! }
//! ```
//!
//! A plan costs one pass over the steps from the last to the first, in which each type and each term of the table is entered once, and
//! one over the told steps, in which each part of a term is counted once for each number of binders that it stands under. Memory grows
//! with the steps and with the table. To write costs the length of the text.
//!
//! | Module | What it does |
//! |---|---|
//! | `pairs` | whether each first law of a type definition is followed by its second |
//! | `fitting` | whether one article can say what is told |
//! | `planning` | `plan` |
//! | `planned` | a plan, and what it tells |
//! | `writing` | `write` |
//! | `gathering` | a sink that gathers what another sink is to get |
#![tactic(auto)]

mod fitting;
mod gathering;
mod pairs;
mod planned;
mod planning;
mod writing;

pub use planned::Plan;
pub use planning::plan;
pub use writing::write;
