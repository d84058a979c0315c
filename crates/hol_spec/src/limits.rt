//! The limits on types, terms and sequents, for the code that judges by them. Their definitions stand in `specs/Limits.antt`, and
//! the contract of whoever judges ties its limit to the definition: with another value here it is not proved.

/// The greatest size of a type, of a term and of a sequent: the number of its nodes.
pub const GREATEST_SIZE: u64 = 1_048_576;

/// The greatest depth of a type, of a term and of a sequent.
pub const GREATEST_DEPTH: u64 = 16_384;

/// The greatest number of parameters of a sequent: its type variables, free variables and hypotheses together.
pub const GREATEST_PARAMETER_COUNT: usize = 16_384;
