//! The module of every accepted run fits the limits of the text and of the bound: no type and no body is deeper than a text allows, and no
//! declaration weighs so much that the bound on its check is cut off, so each check ends within the bound that is written.
//!
//! There is no code: what is shown beyond lemmas is a function that does nothing, whose contract is the law.
//!
//! | File | Laws of |
//! |---|---|
//! | `Sums` | sums of a measure over lists |
//! | `FewVariables`, `TermMeasures`, `TermSizes` | parts of terms: their type variables, depths and sizes, those of their types and of what a substitution puts |
//! | `SymbolLimits` | what it is for a symbol or a step to be within the limits |
//! | `WithinDefining`, `WithinRuns` | every accepted run takes, defines and makes only what is within the limits |
//! | `FittingItems` | so are the items of a run, and those that are kept for its module |
//! | `Depths`, `ShallowScopes`, `ShallowRows`, `ShallowRuns` | depths of trees, of translated terms, of each row's proof, and of the module of a run |
//! | `Costs`, `SmallScopes`, `SmallTheorems` | sizes with spreads: of trees, of translated terms, and of a theorem in a scope |
//! | `HeadCosts`, `SmallPremises`, `SmallRows`, `SmallProofs` | of each inference at its arguments, and of each row's proof |
//! | `SmallParts` | of what a type definition gives: a symbol of parts at its arguments, and the proofs of the two laws |
//! | `SmallRuns` | no declaration of the module of a run weighs more than 2^40, and each is checked within its bound |
#![tactic(auto)]

ghost use Rattle.image_bound_laws.specs.ShallowRuns.{RunsAreShallow};
ghost use Rattle.image_bound_laws.specs.SmallRuns.{RunsAreBounded, RunsAreWithinBounds};

/// Each type and each body of the module of an accepted run is no deeper than a text allows.
pub fn runs_are_shallow()
    ensures { RunsAreShallow }
{}

/// 64 times the cube of the weight of each declaration is a u128, so that its bound isn't cut off.
pub fn runs_are_bounded()
    ensures { RunsAreBounded }
{}

/// The check of each declaration finds its type, at a price of at most its bound.
pub fn runs_are_within_bounds()
    ensures { RunsAreWithinBounds }
{}
