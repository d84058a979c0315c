//! What is meant by lambda-Pi trees, by the modules that they make, by their conversion and typing, and by their text.
//!
//! This crate has no code but the types `Form`, `Ident` and `DkKind`: it holds the definitions that the contracts of other crates cite, and what the laws
//! say. It has no proof but worked examples, in `proofs/`, and that trees have a code, without which no struct is seen as one.
//!
//! | File | Notion |
//! |---|---|
//! | `Trees` | trees with numbers for bound variables, and what lifting and putting make of them |
//! | `Substitution` | renamings and substitutions as functions of the variable |
//! | `Modules`, `ModuleOrder` | the signature and the declarations after it, and what makes them a module |
//! | `Lemmas` | the two theorems with which each module begins |
//! | `Conversion` | the steps of reduction and their chains |
//! | `Typing` | the rules of typing, and when a module is well typed |
//! | `Numerals`, `ShortNames` | how names write numbers; definitions whose names stand, in texts, for their bodies |
//! | `Text` | the one text of a module |
//! | `HeadSteps`, `Check` | the directed rules of typing as plans of questions, how they end, and at which price |
//! | `FastCheck` | the check without rechecks of sorts, the check by a flag, and the bound on its price |
//! | `Shaped` | the shapes of types, terms and proofs that come from higher-order logic |
//! | `Tokens`, `Reading`, `ReadingFaults`, `FaultKinds` | which module a text reads as, and why it is refused |
//! | `Weight` | the bound on the steps of a declaration's check |
//! | `CalculusLaws`, `TextLaws` | what typing and texts obey, as statements |
//! | `TreeCode` | the code of trees |
//!
//! The laws are proved in the crates above: of binding in `lp_binding_laws`, of typing in `lp_typing_laws`, of the check in `lp_check_laws` and
//! `lp_fast_laws`, of reduction in `lp_reduction_laws` and of texts in `dk_laws`. A contract cites a definition by its path:
//!
//! ```text
//! ghost use Rattle.lp_spec.specs.Trees.{Tree, lift};
//! ensures lifted { IfOk result (λ id. slice_get self.new id.0 ≡ Some (lift k (tree_at self.old id.0))) }
//! ```
#![tactic(auto)]

mod fault_kind;
mod form;
mod ident;

pub use fault_kind::DkKind;
pub use form::Form;
pub use ident::Ident;
