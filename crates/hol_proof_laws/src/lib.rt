//! Laws of the inference rules and of proofs, over the definitions of `hol_spec`.
//!
//! The crates of runs and of modules prove with them. There is no code: what is shown beyond lemmas is a function that does nothing,
//! whose contract is the law.
//!
//! | File | Laws of |
//! |---|---|
//! | `EquationLaws`, `DefinitionListLaws` | the sides of an equation; what an accepted list of definitions has |
//! | `RuleSequents` | every rule gives a sequent: hypotheses without repeats and a conclusion, all truth values |
//! | `SymbolGrowth`, `TakenTerms`, `RuleTaken` | what is built of symbols that are taken stays so, and rules keep to them |
//! | `ProofLaws`, `ProofGrowth`, `StepsDerive` | what is made one after another; each step of a proof derives |
//! | `ProofCodes` | codes of sequents, symbols and steps, for models whose values have them |
#![tactic(auto)]

ghost use Rattle.hol_spec.specs.ProofStatements.{ProofsDerive, RulesGiveSequents};

/// The law of rules: each makes sequents of sequents.
pub fn rules_give_sequents()
    ensures { RulesGiveSequents }
{}

/// The law of proofs: what each step says derives from the proof's definitions and assumptions.
pub fn proofs_derive()
    ensures { ProofsDerive }
{}
