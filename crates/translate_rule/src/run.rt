//! A run whose module is made.
use hol_rules::{Proof, StepId};

/// What a run made, with those of its steps that are assumptions and those that are exports.
#[derive(Clone, Copy)]
pub(crate) struct Run<'a> {
    pub(crate) proof: &'a Proof,
    pub(crate) assumptions: &'a [StepId],
    pub(crate) exports: &'a [StepId],
}
