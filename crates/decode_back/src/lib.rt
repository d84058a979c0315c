//! Decoding: from the trees of a module back to the types and constants that they stand for.
//!
//! `decode_type` finds the type that a tree stands for at a place among the binders of a sequent's product, and `constant_at` the constant
//! that a symbol stands for, with its generic type. What is read is judged before anything is built of it: a generic type of too many
//! nodes or too many variables is refused by what its table notes, and each type that is made is within the limits. Types and terms are
//! decoded on stacks of their own, so no function recurses with its input.
//!
//! A tree is decoded into a table of terms, in which the parameters have names that are made up here, and the sequent is closed again at the
//! end: the table types each term, and notes its size and its depth. So none of these is counted once more over terms that are closed, and the
//! closed form has one definition, that of `sequent`.
//!
//! | Module | What it does |
//! |---|---|
//! | `places`, `sources`, `names` | the binders round a part; what terms are decoded from; the name of a parameter in the table of terms |
//! | `made`, `budgets` | what a walk has made and not yet taken up; how many nodes a term may still have |
//! | `symbols`, `types` | the operators of symbols, and the types of trees |
//! | `constants` | the constants of symbols, with their generic types |
//! | `terms`, `heads`, `compounds` | the walk through a term; the terms of variables and constants; applications and abstractions |
//! | `products`, `judging` | the parts of a product; whether what they make is a closed sequent |
//! | `sequents` | the closed sequent that the parts stand for |
//!
//! ```
//! let place = Place { type_variables: 1, free_variables: 0, hypotheses: 0, binders: 0 };
//! let found = decode_type(alloc, &module, place, &mut table, GREATEST_DEPTH, id)?;
//! ```
#![tactic(auto)]

ghost use Rattle.std.specs.Prelude.{◌≡◌, ◌<◌, length, slice_get, Some, IfOk};
ghost use Rattle.lp_spec.specs.Modules.{Declaration};
ghost use Rattle.holide_sig.specs.Modules.{declarations_of, IsHeld};
ghost use Rattle.decode_back.specs.SequentWalks.{IsStated};

mod budgets;
mod compounds;
mod constants;
mod heads;
mod judging;
mod made;
mod names;
mod places;
mod products;
mod sequents;
mod sources;
mod symbols;
mod terms;
mod types;

use crate::sequents::sequent_of;
use common::Memory;
pub use constants::{Constant, constant_at};
use holide_sig::Module;
pub use places::Place;
use sequent::Closed;
pub use sources::Source;
use std::alloc::Global;
pub use terms::decode_term;
pub use types::decode_type;

/// The closed sequent that the type of a declaration stands for, or `None` exactly where it stands for none.
pub fn decode(alloc: Global, source: &Module, i: usize) -> Result<Option<Closed>, Memory>
    requires held { IsHeld source.now }
    requires declared { i < length source.now.decls }
    ensures found { IfOk result (λ found. (d : Declaration)
        → slice_get (declarations_of source.now) i ≡ Some d → IsStated (declarations_of source.now) d.ty found) }
{
    sequent_of(alloc, source, source.decls.get(i).ty)
}
