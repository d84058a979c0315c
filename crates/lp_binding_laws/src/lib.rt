//! The laws of binding: how lifting, putting, renaming and substituting compose.
//!
//! This crate has no code. It promises laws to proofs, and each file of `specs/` has those of one subject:
//!
//! | File | Laws |
//! |---|---|
//! | `Composition` | renamings and substitutions compose, and lifting and putting are such |
//! | `SubstitutionLaws` | they leave closed trees alone, and pass through putting and lifting |
//! | `Binding` | how lifting and putting compose |
//! | `Closed` | lifting and putting leave a closed tree alone |
//! | `Arguments` | a function at several arguments has its type with them put in |
//! | `LookUps` | items of lists by their numbers |
//! | `TreeEquality` | the test of two trees passes exactly where they are one |
//!
//! A proof cites a law by its path:
//!
//! ```text
//! use Rattle.lp_binding_laws.specs.Binding.{lift-lift}
//! ```
#![tactic(auto)]
