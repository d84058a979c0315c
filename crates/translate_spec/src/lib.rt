//! What a module says of proofs, as definitions: the translation of higher-order logic to lambda-Pi trees (Assaf and Burel,
//! "Translating HOL to Dedukti"), what a symbol of a module stands for, the module of what a run made, and what that module is good for.
//!
//! The crate stands on `hol_spec` and `lp_spec` alone and knows nothing of articles. It has no code and no law. To be read in this
//! order:
//!
//! | File | Notion |
//! |---|---|
//! | `Scopes` | types, terms, sequents and theorems as trees, in a scope: what stands for each variable and each hypothesis |
//! | `ProofTrees`, `Rows` | the proof of a step, by its rule, and what a type definition defines |
//! | `Items` | what a module is made of, each with its declaration |
//! | `MadeItems` | the items of what a run made, in order of making |
//! | `Reach` | what the exports reach, through types and bodies |
//! | `Image` | the names of declarations, and the module of an accepted run |
//! | `OperatorMeaning`, `TypeEnc`, `ConstantMeaning`, `Enc` | which operators, types, constants and sequents the symbols and types of any module stand for |
//! | `Stands` | what a module says for its run: well typed, nothing unproved but its inputs and assumptions, the exports of the run |
//!
//! ```text
//! ghost use Rattle.translate_spec.specs.Image.{image};
//! ensures module { IfOk result (λ declarations. declarations_of declarations ≡ image run) }
//! ```
#![tactic(auto)]
