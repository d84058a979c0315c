//! Tests, by public calls, of the tables below the rules: types (`hol_type`), sequents (`sequent`), pools of sequents (`compose`) and the
//! symbols of a run (`hol_defs`). Those of terms stand in `hol_term_tests`.
//!
//! Each case is tried over a table of its own, which one function owns and lets go ([`type_trials::comes_out`], [`sequent_trials`],
//! [`cases::tried`]): what is let go at the end of a scope costs more to prove, at each end, than all that is done with it.
#![tactic(auto)]

#[cfg(test)]
mod cases;
#[cfg(test)]
mod closed;
#[cfg(test)]
mod constants;
#[cfg(test)]
mod definitions;
#[cfg(test)]
mod hyps;
#[cfg(test)]
mod made;
#[cfg(test)]
mod many;
#[cfg(test)]
mod operators;
#[cfg(test)]
mod params;
#[cfg(test)]
mod pools;
#[cfg(test)]
mod sample;
#[cfg(test)]
mod sequent_trials;
#[cfg(test)]
mod type_bench;
#[cfg(test)]
mod type_limits;
#[cfg(test)]
mod type_makers;
#[cfg(test)]
mod type_readers;
#[cfg(test)]
mod type_trials;
