//! Tests of the table of terms by its public calls: types and typing, binders, equations, substitution, the order of
//! variables, measures and the limits. A test tells each type and each term by the steps that make it.
//!
//! Each case is tried over a table of its own, which one function owns and lets go ([`trials::comes_out`]).
#![tactic(auto)]

#[cfg(test)]
mod bench;
#[cfg(test)]
mod limits;
#[cfg(test)]
mod makers;
#[cfg(test)]
mod readers;
#[cfg(test)]
mod samples;
#[cfg(test)]
mod trials;
