//! What a proof term is made from.
use crate::kept::KeptParams;
use crate::scope::Environment;
use hol_rules::Proof;

/// The steps that a proof term speaks of, with the parameters that are kept of some of them, and the environment in which it stands.
#[derive(Clone, Copy)]
pub struct Ground<'a> {
    pub proof: &'a Proof,
    pub kept: &'a KeptParams,
    pub env: &'a Environment,
}
