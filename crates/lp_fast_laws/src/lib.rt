//! The check without rechecks of sorts, and why its yes may be believed too.
//!
//! A check by the directed rules infers a sort for each product that head steps reach, and for each expected type that is not the found
//! one. Over well-typed declarations each of these has a sort: a step keeps the type, and the domain of a function's type has the sort of types.
//! So a check may leave them out, and what passes costs no more. The check itself is defined in `lp_spec` (`FastCheck`). There is no code; each function here does nothing, and has a law for its contract.
//!
//! | File | What it has |
//! |---|---|
//! | `FastTyping` | what is found without rechecks is typed |
//! | `FastModules` | what passes without rechecks, declaration by declaration, is well typed |
//! | `FastPrices` | a check without rechecks costs no more, and has one answer at one price |
//! | `FastStatements` | the statements of the functions below |
#![tactic(auto)]

ghost use Rattle.lp_fast_laws.specs.FastStatements.{CheckerLawBy, FastPasses, OneCheck, ShapedFast};

/// The checker's law, with rechecks or without: a module whose declarations pass, each over those before it, is well typed.
pub fn checker_law_by()
    ensures { CheckerLawBy }
{}

/// A declaration that passes passes without rechecks, at no greater price.
pub fn fast_passes()
    ensures { FastPasses }
{}

/// The check of a declaration has one reply, at one price, with rechecks or without.
pub fn one_check()
    ensures { OneCheck }
{}

/// The check without rechecks of a declaration of a shaped module says yes, at a price of at most 64 times the square of its weight.
pub fn shaped_fast()
    ensures { ShapedFast }
{}
