//! What walks read.
use crate::scope::{Scope, ScopeTypes};
use hol_term::TermTable;
use hol_type::TypeTable;
use std::alloc::Global;

/// A table of types, with what stands for type variables.
#[derive(Clone, Copy)]
pub(crate) struct TypeSource<'a> {
    pub(crate) alloc: Global,
    pub(crate) table: &'a TypeTable,
    pub(crate) scope: &'a ScopeTypes,
}

/// A table of terms, with what stands for type variables and for free variables.
#[derive(Clone, Copy)]
pub(crate) struct Source<'a> {
    pub(crate) alloc: Global,
    pub(crate) table: &'a TermTable,
    pub(crate) scope: &'a Scope,
}
