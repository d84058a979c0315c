//! What the steps of an article are written from.
use hol_rules::Proof;

/// The steps of a proof, with flags for those that are told and for those that are exports, and the number in the names of binders.
#[derive(Clone, Copy)]
pub struct Source<'p, 't, 'e> {
    /// The proof, whose steps are written.
    pub proof: &'p Proof,
    /// Whether a step is told.
    pub told: &'t [bool],
    /// Whether a step is an export.
    pub is_export: &'e [bool],
    /// The number in the names of binders.
    pub number: u64,
}
