//! Tests, by public calls, of what all stand on and of what comes in: shelves, sinks and faults (`bridge_base`), names (`hol_name`), names
//! by number (`name_table`), maps and sets in order of coming (`tree_map`), and the lines of an article (`article_read`).
//!
//! They stand apart, since a crate with tests is proved twice. [`uses`] states the calls of `tree_map` as callers of one key type see them.
#![tactic(auto)]

#[cfg(test)]
mod faults;
#[cfg(test)]
mod keys;
#[cfg(test)]
mod line_faults;
#[cfg(test)]
mod mem_shelf;
#[cfg(test)]
mod mem_sink;
#[cfg(test)]
mod names;
#[cfg(test)]
mod names_by_number;
#[cfg(test)]
mod numbers;
#[cfg(test)]
mod outside;
#[cfg(test)]
mod pieces;
#[cfg(test)]
mod quiet;
#[cfg(test)]
mod reading;
#[cfg(test)]
mod real;
pub mod uses;
#[cfg(test)]
mod words;
