//! What higher-order logic means here, as definitions: its names, types, terms and sequents, its inference
//! rules, and what derives from what.
//!
//! There is no code beyond the types `StepKind` and `Version`, of which definitions speak, and the limits as numbers that code compares with
//! (`limits.rt`), and no law: whoever wants to trust what stands above reads this crate and meets no proof. The definitions stand in `specs/`, one notion a file, to be read in this order:
//!
//! | File | Notion |
//! |---|---|
//! | `Names`, `NameOf`, `NameEquality` | a name, the lines of an article that write one, and the name that a line writes |
//! | `Mangling` | the text that stands for a name in the name of a symbol |
//! | `Lists`, `Repeats` | lists that are read as sets |
//! | `Types`, `Substitution` | types as trees, their variables; substitution for type variables, instances |
//! | `Primitives` | the primitive type operators and constants |
//! | `Terms`, `Equations` | terms as locally nameless trees, and their types; the sides of an equation |
//! | `TermBinding` | lifting, putting and closing: what binders do |
//! | `TermSubstitution` | substitution in terms: types, then terms for free variables |
//! | `Sequents` | sequents: sameness, and their parameters |
//! | `Limits`, `Measures` | size and depth, the limits on them, and what is judged of one thing |
//! | `ClosedForm`, `Renamings` | a sequent up to the names of its parameters; when a renaming takes one to another |
//! | `Definitions`, `NewTypes`, `Defining`, `DefinitionLists`, `TypeDefinitions` | what defines a constant, a list of constants, a type operator |
//! | `Symbols`, `Taking` | which constants and operators are taken, at which generic types and arities, and when one may be taken |
//! | `Rules`, `Derivations` | the inference rules, and what they derive |
//! | `Proofs` | what a proof keeps: symbols and steps in order of making, each on what was made before it |
//! | `Taken`, `Over` | what is built of the symbols that are taken |
//! | `BindingStatements`, `ProofStatements` | what is shown of binding, substitution, rules and proofs, as statements |
//!
//! Laws stand in the crates above: `hol_laws` has those of names, lists, types, terms, binding and typing, `hol_proof_laws` those of rules
//! and proofs. A clause cites a definition by its path:
//!
//! ```text
//! ghost use Rattle.hol_spec.specs.Terms.{type_of};
//! ensures typed { IfOk result (λ id. type_of (tree_at self.new id) ≡ Some bool) }
//! ```
#![tactic(auto)]

mod limits;

pub use limits::{GREATEST_DEPTH, GREATEST_PARAMETER_COUNT, GREATEST_SIZE};

/// The version of an article.
#[derive(Clone, Copy, Debug, PartialEq, Eq)]
pub enum Version {
    /// Version 5, in which the laws of a type definition are about free variables.
    Five,
    /// Version 6, in which they are equations of abstractions.
    Six,
}

/// The inference rule by which a step of a proof was made.
#[derive(Clone, Copy, Debug, PartialEq, Eq)]
pub enum StepKind {
    /// Reflexivity of a term.
    Refl,
    /// A truth value under itself as the hypothesis.
    Assume,
    /// From an equation of truth values and its left side, the right one.
    EqMp,
    /// Both sides of an equation under an abstraction.
    AbsThm,
    /// Equal functions applied to equal arguments.
    AppThm,
    /// Two truth values, each derived from the other, are equal.
    DeductAntisym,
    /// One beta step at the root of a term.
    BetaConv,
    /// An equation turned round.
    Sym,
    /// Two equations in a row.
    Trans,
    /// A hypothesis that another theorem proves is left out.
    ProveHyp,
    /// Types put for type variables, then terms for free variables.
    Subst,
    /// An assumption of the article.
    Axiom,
    /// An earlier sequent again, with its hypotheses in another order or with further ones.
    Restate,
    /// A constant equals its definition.
    DefineConst,
    /// A theorem about variables, of the constants that the variables' equations define.
    DefineConstList,
    /// The new type is a part of the old one: abstraction undoes representation.
    FirstLaw,
    /// The part is where the predicate holds.
    SecondLaw,
}
