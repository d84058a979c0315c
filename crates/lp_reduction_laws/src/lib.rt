//! The theory of the lambda-Pi calculus modulo over well-typed modules.
//!
//! This crate promises three laws to a checker of modules, each as the contract of a function that does nothing: reduction is
//! confluent, products are injective, and a step keeps the type. They ask nothing but that the module is well typed. That
//! reduction ends is not among them. A proof has a law by a call, and a contract cites its statement:
//!
//! ```text
//! ghost use Rattle.lp_spec.specs.CalculusLaws.{TypingKept};
//! lp_reduction_laws::kept();
//! ```
#![tactic(auto)]

ghost use Rattle.lp_spec.specs.CalculusLaws.{Confluence, InjectiveProducts, TypingKept};

/// The law of confluence: where a tree goes by steps to two, both go by steps to one.
pub fn confluent()
    ensures { Confluence }
{}

/// The law of products: those that are convertible have convertible domains and convertible bodies.
pub fn products()
    ensures { InjectiveProducts }
{}

/// The law of subject reduction: a step keeps the type, in a context whose entries are types.
pub fn kept()
    ensures { TypingKept }
{}
