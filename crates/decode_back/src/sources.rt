//! What terms are decoded from.
use crate::places::Place;
use hol_term::TermId;
use holide_sig::Module;
use std::alloc::Global;

/// A module as terms are decoded from it at a place, with the numbers of the terms of the free variables of the sequent and of the variable
/// that the innermost binder binds. It stays the same on the way through a term, but for the binders of the place.
#[derive(Clone, Copy)]
pub struct Source<'a> {
    pub alloc: Global,
    pub base: &'a Module,
    pub place: Place,
    pub variables: &'a [TermId],
    pub innermost: TermId,
}
