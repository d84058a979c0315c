//! Pools of sequents: which step says a sequent, found by a table.
//!
//! A [`Pool`] holds sequents with the steps that say them, in order of adding. A look-up answers with the first that is
//! the same as a sequent: the hypotheses equal as sets, and the conclusions equal. It takes no memory. What was added
//! last can be taken back.
//!
//! The sequents of one conclusion stand in a list in the order of their hypotheses, so a look-up compares with as many
//! of them as their number can be halved, and each time costs the hypotheses of both. An addition moves those behind
//! it in the list by one place.
//!
//! ```text
//! let mut pool = Pool::new(alloc);
//! pool.add(sequent, step)?;
//! let known = pool.find(&stated);
//! ```
//!
//! | Module | What it does |
//! |---|---|
//! | `order` | which set of hypotheses comes before another |
//! | `listing` | the places of sequents of one conclusion, in the order of their hypotheses |
//! | `pool` | the sequents with their steps |
#![tactic(auto)]

mod listing;
mod order;
mod pool;

pub use pool::{Pool, Said};
