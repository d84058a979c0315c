//! The laws of typing that need no confluence, and that the signature and the two lemmas are well typed.
//!
//! The functions here do nothing, and each has a law for its contract. Each file of `specs/` has the laws of one subject:
//!
//! | File | Laws |
//! |---|---|
//! | `ConversionLaws` | chains of steps are joined and reversed, and renamings, substitutions and declarations keep them |
//! | `TypingLaws` | the same of typing; weakening |
//! | `Inversion` | what the parts of a typed tree are |
//! | `Soundness`, `Regularity` | over a sound module what has a type has Kind or a type that has a sort |
//! | `WellTypedLaws` | a well-typed module is sound, and grows by typed declarations |
//! | `Telescopes` | products and abstractions over several domains |
//! | `SignatureForms`, `SignatureCalls` | how the symbols and the rules of the signature are typed at typed arguments |
//! | `SignatureLaws`, `LemmasLaws` | the signature and the two lemmas are typed |
//!
//! A proof has a law by a call, or cites one by its path:
//!
//! ```text
//! lp_typing_laws::lemmas_typed();
//! use Rattle.lp_typing_laws.specs.TypingLaws.{Typed-sub}
//! ```
#![tactic(auto)]

ghost use Rattle.lp_spec.specs.CalculusLaws.{LemmasTyped, SignatureTyped};

/// The law of the signature: it is well typed as far as it has types, since each of its declared types has a sort.
pub fn signature_typed()
    ensures { SignatureTyped }
{}

/// The law of lemmas: the two theorems with which every module begins are a well-typed module.
pub fn lemmas_typed()
    ensures { LemmasTyped }
{}
