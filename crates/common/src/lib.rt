//! What both sides stand on: why a call fails, a budget of steps, a stack, amounts in little room, and the laws of binding.
//!
//! - `Kind` is why an article is refused, `Fault` that or want of memory, and `Memory` want of memory alone.
//! - `Budget` counts the steps that a bounded piece of work may still take.
//! - `Stack` is a list that is seen from its top.
//! - `Amounts` keeps amounts in 32 bits each, as long as few are large.
//! - `Binding` is what tables of trees with bound numbers have in common: lifting, putting, and their laws.
#![tactic(auto)]

pub mod amounts;
pub mod binding;
pub mod budget;
pub mod faults;
pub mod stack;

pub use amounts::Amounts;
pub use binding::Binding;
pub use budget::Budget;
pub use faults::{Fault, Kind, Memory};
pub use stack::Stack;
