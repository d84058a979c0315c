//! The module of a run, and the declarations of its steps (Assaf and Burel, "Translating HOL to Dedukti").
//!
//! [`module`] makes the module of what a proof made and its exports reach: the two lemmas, and then, in order of making, a declaration for
//! each symbol and each step that an export reaches through types and bodies. It is the module that the definitions give of an accepted
//! run (`image`).
//!
//! [`step`] makes the declaration of one step in the table of a module.
//! A step becomes a theorem, whose type is what its sequent says and whose body is the proof by its rule under the binders of its
//! parameters. An assumption becomes a symbol without a body. The declaration is the one that the definitions give of the step, for whatever
//! symbols the module tells; the module's own declarations stay, and so does the tree of each number.
//!
//! ```
//! let module = module(alloc, machine.proof(), machine.assumptions(), machine.exports())?;
//! ```
//!
//! | File | |
//! |---|---|
//! | `declaration` | `step`: the name, the type and the body of a declaration |
//! | `statement` | the type: the product over the binders of a sequent's parameters |
//! | `proof_term` | the proof term of a step, by its rule; a function for each rule that was given more than premises or has binders of its own |
//! | `premises` | the premises of a step, with the symbols of their declarations; whether the first of `proveHyp` proves nothing |
//! | `own` | a step in the environment of its own binders, and that environment, also under one binder more |
//! | `builder` | `module`: the module of a run, item by item |
//! | `run` | a run: its proof with its assumptions and exports |
//! | `items` | an item of what was made, and its declaration |
//! | `parts` | the declarations of a type definition's operator and constants, by the theorem from which it is made |
//! | `generics` | types and definitions of constants, over the type variables of their types |
//! | `lemmas` | the two lemmas with which each module begins, by the nodes of their trees |
#![tactic(auto)]

mod builder;
mod declaration;
mod generics;
mod items;
mod lemmas;
mod own;
mod parts;
mod premises;
mod proof_term;
mod run;
mod statement;

pub use builder::module;
pub use declaration::step;
