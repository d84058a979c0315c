//! Conversion of lambda-Pi trees by directed steps, within a budget.
//!
//! `head_step` makes the one step that the head of a tree allows: beta, the unfolding of a definition with arguments
//! enough, or `term (arr a b)` to `term a -> term b`. `conv` says whether two trees are convertible. Each turn takes one
//! step of its budget, so a call ends, and where the budget is too small it says so.
//!
//! - The answer is that of the directed rules, at their price: `Over` comes only where the price passes the budget.
//! - Where the answer is `Yes`, the trees are convertible.
//! - The module's table may grow, also where memory is wanting: every number keeps its tree, and the declarations stay.
//!
//! ```
//! let mut budget = Budget { left: 1000 };
//! let answer = conv(alloc, &mut module, expected, found, &mut budget)?;
//! ```
#![tactic(auto)]

mod conversion;
mod heads;

pub use conversion::conv;
pub use heads::head_step;

/// Whether two trees are convertible.
#[derive(Clone, Copy, Debug, PartialEq, Eq)]
pub enum Answer {
    Yes,
    No,
    /// The budget was too small to tell.
    Over,
}
