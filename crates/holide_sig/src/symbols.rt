//! The numbers of the signature's symbols, in its order, and of the two lemmas that come after them in every module of a run.

use crate::signature::SIGNATURE;

/// `type`, the type of simple types.
pub const TYPE: usize = 0;

/// `bool`, the simple type of truth values.
pub const BOOL: usize = 1;

/// `ind`, the simple type of individuals.
pub const IND: usize = 2;

/// `arr`, the simple type of functions.
pub const ARR: usize = 3;

/// `term`, the type of the terms of a simple type.
pub const TERM: usize = 4;

/// `eq`, equality at a simple type.
pub const EQ: usize = 5;

/// `select`, choice at a simple type.
pub const SELECT: usize = 6;

/// `proof`, the type of the proofs of a truth value.
pub const PROOF: usize = 7;

/// `refl`, the proof that a term is equal to itself.
pub const REFL: usize = 8;

/// `fun_ext`, the proof that functions with equal values are equal.
pub const FUN_EXT: usize = 9;

/// `app_thm`, the proof that equal functions have equal values at equal arguments.
pub const APP_THM: usize = 10;

/// `prop_ext`, the proof that truth values that follow from each other are equal.
pub const PROP_EXT: usize = 11;

/// `eq_mp`, the proof of what is equal to what is proved.
pub const EQ_MP: usize = 12;

/// `sub`, the part of a type in which a predicate holds.
pub const SUB: usize = 13;

/// `sub_abs`, from a type to its part.
pub const SUB_ABS: usize = 14;

/// `sub_rep`, from the part of a type to it.
pub const SUB_REP: usize = 15;

/// `sub_abs_rep`, the proof that to the type and back is nothing done.
pub const SUB_ABS_REP: usize = 16;

/// `sub_rep_abs`, the proof that from the type and back is nothing done exactly where the predicate holds.
pub const SUB_REP_ABS: usize = 17;

/// The lemma that an equation may be turned.
pub const SYM: usize = SIGNATURE;

/// The lemma that two equations may be joined.
pub const TRANS: usize = SIGNATURE + 1;
