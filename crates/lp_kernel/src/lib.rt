//! Checks modules of the lambda-Pi calculus modulo rewriting, by directed rules and within budgets.
//!
//! `infer` finds the type of a tree in a context, `check_decl` checks a declaration over those before it, and `check_module` each declaration
//! of a module within a budget of its own. `check_fast` does so without rechecks of sorts; what passes costs no more. No turn takes more than one
//! step of a budget, and a measure of what is left falls, so every call ends.
//!
//! - The answers are those of the directed rules. A budget falls by at most their price, and `Over` comes only where they do not end within it.
//! - What is found is typed: a type that `infer` finds is the tree's, a declaration that passes is typed over well-typed ones, and a module
//!   that is accepted is well typed.
//! - The module's table may grow, also where memory is wanting: every number keeps its tree, and the declarations stay.
//!
//! `weight`, `bound` and `bound_fast` are those of `lp_weight`: the bounds are budgets that are enough for what is translated, with rechecks
//! of sorts and without.
//!
//! While a module is checked the types of its applications are kept (`memo`, `noting`), but for those of functions of other applications: of each closed one,
//! and of an open one that of the last contexts in which it stood, which have numbers (`contexts`). So fewer steps than the
//! price may be taken. The arguments of an application are put into a type where it is looked at, all at once, and where it is another
//! at hand nothing is made (`spines`). The product that a type reaches by head steps is remembered too (`products`), and so is what the types of variables
//! were lifted to last (`lifts`). What is kept of open trees stands in a list of bounded length (`latest`). The nodes that the checks make are given up as they go on.
//!
//! Walks keep a stack of their own, so a deep tree costs memory and nothing else.
//!
//! ```
//! let budgets = [4];
//! if let Verdict::Accepted = check_module(alloc, &mut base, &budgets)? {
//!     // the one declaration of the module is typed
//! }
//! ```
#![tactic(auto)]

mod asks;
mod checks;
mod context;
mod contexts;
mod inference;
mod latest;
mod lifts;
mod memo;
mod noting;
mod products;
mod raising;
mod spines;
mod state;
mod tells;

pub use checks::{Verdict, check_decl, check_fast, check_module};
pub use inference::{Inferred, infer};
pub use lp_weight::{bound, bound_fast, weight};
