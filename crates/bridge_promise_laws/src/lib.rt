//! What follows from the promise of a call.
//!
//! There is no code: what is shown beyond lemmas is a function that does nothing, whose contract is the law.
//!
//! | File | Laws of |
//! |---|---|
//! | `OneDue` | a check of a file that is told has at most one answer that is due |
//! | `OneDecoding` | so has a decoding |
//! | `OneRun` | so has an article of what files export |
//! | `Consequent` | what follows from the promise of a call comes of its outputs |
#![tactic(auto)]

ghost use Rattle.bridge_spec.specs.Consequences.{EachPromiseBears};

/// A call that keeps its promise gives the answer that is due, where the shelf tells its files and doesn't fail; and the
/// other consequences of what it promises.
pub fn each_promise_bears()
    ensures { EachPromiseBears }
{}
