//! The inference rules of higher-order logic: a proof, step by step.
//!
//! [`Proof`] owns the table of its terms and the symbols that are taken, and keeps each step that a rule made. Contracts
//! see its table and the list of what it made, symbols and steps in order of making; that list is always a proof: each
//! step follows by its rule from steps before it. A rule answers exactly as its definition says: with the number of the
//! step that it made, or with the first condition that fails, where the limits of size, of depth and of the number of
//! parameters come last and in this order. After a refusal or want of memory nothing is made, and what had a number keeps
//! it. A definition, of a constant, of a list of constants or of a type operator, takes its symbols and makes its steps, or
//! does neither. The two laws of a type operator are stated by the version of its article: by equations of abstractions in
//! version 6, over free variables in version 5.
//!
//! What a rule costs, beside the trees that it makes and the step that it keeps (its premises, its sequent and what it was
//! given): terms are compared by their numbers, whatever their size, and a walk comes once to each part of a term, with a
//! note of each part while it lasts.
//!
//! | Rule | Steps | Memory |
//! |---|---|---|
//! | each | a look-up for each hypothesis of its premises and of its sequent; a note of each type and each term that is new in the table, at a look-up for each variable of its parts; to count the parameters, a look-up for each variable of each hypothesis and of the conclusion | what is noted of each type and each term, which the proof keeps; while it counts, the variables of the sequent |
//! | `abs_thm` | a comparison with each free variable of each hypothesis, and a walk over each side of the equation | the walks' notes |
//! | `beta_conv` | a walk over the body | the walk's notes |
//! | `define_const` | two walks over the term | the walks' notes; two copies of the name, which the proof keeps |
//! | `define_const_list` | four walks over each defining term and two over the conclusion; one walk more over the conclusion, as that of `subst` with a pair for each constant | the walks' notes; two copies of each name and one of its variable's, which the proof keeps |
//! | `subst` | what `prepared` and `subst_prepared` cost | what they cost |
//! | `prepared` | a comparison of the types of each pair; where there are more than eight, a look-up for each | a copy of the pairs, and an index of them, which the steps by it share |
//! | `subst_prepared` | one walk over the hypotheses and the conclusion together; at each variable a look-up among the pairs, and at each variable, constant and binder a walk over its type | the walk's notes; at most two more trees for each hypothesis, which the table keeps |
//! | `define_type_op` | five walks over the predicate | the walks' notes; copies of the names, which the proof keeps |
//!
//! The parameters of a term are found once, from those of its parts, and noted (`hol_variables`): so a step over terms that share
//! their parts costs its new nodes, and no walk over the old ones. More than 1,024 type variables or free variables of one
//! term are not noted: a sequent with such a term is counted by two walks over each hypothesis and over the conclusion, and
//! `abs_thm` walks over such a hypothesis.
//!
//! A walk under binders comes to a part once for each number of binders that it stands under. Trees that were made before
//! a refusal stay in the table.
//!
//! ```
//! let mut proof = Proof::new(alloc)?;
//! let p = proof.free(&Name::single(alloc, b"p")?, truth)?;
//! let step = proof.refl(p)?;
//! ```
#![tactic(auto)]

mod beta;
mod conclude;
mod const_lists;
mod definitions;
mod functions;
mod hypotheses;
mod inference;
mod laws;
mod limits;
mod made;
mod premises;
mod proof;
mod rules;
mod stating;
mod substitution;
mod terms;
mod type_definitions;

pub use made::{GivenOperator, Made, NewOperator, Parameters, Put, StepId, Substitution};
pub use proof::Proof;
