//! Tests, by public calls, of the tables of modules: nodes (`lp_term`), modules (`holide_sig`), and weights and bounds (`lp_weight`) of trees
//! with more places than any computer counts. Those of texts stand in `dk_tests`.
//!
//! They stand apart, since a crate with tests is proved twice.
#![tactic(auto)]

#[cfg(test)]
mod modules;
#[cfg(test)]
mod shared;
#[cfg(test)]
mod trees;
