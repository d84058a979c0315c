//! Tests of the translation of types and terms by its public calls, against the text of modules: the types of the theorems of three
//! closed sequents, a type and a constant in a scope, some term of a type, and a term that shares its parts.
//!
//! This crate has no code of its own. What each call makes is the tree that a text reads as. The clauses of `translate_term` say
//! which tree that is; the tests show that it is made with ample memory, and that a shared part is made once.
#![tactic(auto)]

#[cfg(test)]
mod inputs;
#[cfg(test)]
mod making;
#[cfg(test)]
mod sequents;
#[cfg(test)]
mod translating;
#[cfg(test)]
mod trees;
#[cfg(test)]
mod wanted;
