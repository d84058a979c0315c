//! The proofs of steps, as trees of the lambda-Pi calculus made in the table of a module (Assaf and Burel, "Translating HOL to Dedukti").
//!
//! An environment tells what stands for type variables, free variables and hypotheses: at first the binders of a sequent's parameters, by
//! their numbers. In it a premise is its symbol, applied to what stands for its own parameters; where nothing stands for one, it is filled
//! as translation fills. A row makes the proof of a step by its rule, of the premises and of what their sequents say. What is made is the tree
//! that the definitions give in each scope that the environment stands for, for whatever symbols the module tells; the declarations stay, and
//! so does the tree of each number. A premise comes with the number of its step and with its symbol. The parameters of a sequent are found by
//! a walk of its terms: `KeptParams` keeps those of the steps that were noted lately, and the rows find only others anew. A row is given its
//! `Ground`: the steps of a proof, the parameters that are kept of them, and the environment.
//!
//! ```
//! let env = Environment::of(alloc, &mut module, &params, sequent.hyps.ids(), 0)?;
//! let ground = Ground { proof: &proof, kept: &kept, env: &env };
//! let inner = eq_mp(&mut module, ground, one, two)?;
//! ```
//!
//! | Rule | Call |
//! |---|---|
//! | `refl`, `betaConv`, `defineConst` | `refl`, by the conclusion of the step |
//! | `assume` | `Environment::hypothesis` |
//! | `eqMp`, `sym`, `trans`, `appThm` | the call of that name |
//! | `absThm` | `abs_thm`, with the environment of `Environment::under_variable` |
//! | `deductAntisym` | `deduct_antisym`, with two environments of `Environment::under_proof` |
//! | `proveHyp` | `prove_hyp`; where the first premise proves no hypothesis of the second, `Environment::theorem` at the second |
//! | `subst` | `subst`, with what the step's parameters put |
//! | `restate` | `Environment::theorem` |
//! | `defineConstList` | `constant_list`, with the pairs of the step's parameters |
//! | the laws of `defineTypeOp` | `first_law` and `second_law`, with the environment of `Environment::of` under one binder more; in version 5 `first_law_free` and `second_law_free`, with that of `Environment::of_types` |
//!
//! Under a substitution the images of the premise's own parameters stand for them. Which of the step's variables and hypotheses they are is
//! told by comparing trees part by part: nothing is made in the proof's table.
//!
//! `step_name` gives the name under which a module declares a step, and `abstracted` puts a proof under the binders of its type. `type_part`
//! gives what the operator or a constant of a type definition stands for, in the environment of `Environment::of_types`. `place_types` lets
//! binders stand for type variables in a scope of translations.
#![tactic(auto)]

mod constants;
mod ground;
mod images;
mod kept;
mod matching;
mod names;
mod parts;
mod premise;
mod rows;
mod scope;
mod trees;

pub use constants::constant_list;
pub use ground::Ground;
pub use images::subst;
pub use kept::{KeptParams, LentParams};
pub use names::step_name;
pub use parts::{Part, first_law, first_law_free, second_law, second_law_free, type_part};
pub use premise::Premise;
pub use rows::{abs_thm, app_thm, deduct_antisym, eq_mp, prove_hyp, refl, sym, trans};
pub use scope::{Environment, place_types};
pub use trees::abstracted;
