//! The stack machine of articles (OpenTheory article format, versions 5 and 6).
//!
//! [`Machine`] obeys the commands of one article after another. Contracts see its state, the `State` of `article_spec`:
//! the objects on the stack from the top, the dictionary as a finite map from numbers to objects, how far the article
//! is, and what the run made: symbols and steps in order, and which steps are assumptions and exports. A call answers
//! exactly as that crate's `step` and `finish` do: the next state, or the first kind of refusal in the order of the
//! definition. After a refusal or want of memory the state is as before. Constants and operators that are neither
//! primitive nor defined become inputs where they are first used. A word that defines takes its symbols with its
//! theorems, or does nothing. What an article assumes is met by what an earlier one exports, or by an earlier assumption.
//!
//! An article whose first two commands are the number 6 and `version` is of version 6, and any other of version 5. They
//! differ in the two laws that `defineTypeOp` makes: by equations of abstractions in version 6, over free variables in
//! version 5. The word `version` at any other place is refused.
//!
//! The machine owns a `Proof` of `hol_rules`, which has the types and terms, the symbols and the steps. What stands on
//! the stack are numbers of what the machine keeps once: types, terms and steps of the proof, names, and lists by their
//! cells. So to keep an object, or to give it back, copies one number, however large it is, and lists may nest without
//! limit. Names and cells that neither the stack nor the dictionary holds any more are given up while an article runs.
//!
//! What `subst` puts is read from two lists, judged and copied where these are put first. Where there are more than eight
//! pairs for terms it is remembered by the numbers of the lists, so that the same lists are put again in a time that
//! doesn't depend on how many pairs they have; it is forgotten where names and cells are given up, and at the end of an
//! article.
//!
//! ```text
//! let mut machine = Machine::new(alloc)?;
//! machine.step(&Command { line: 1, item: Item::Number(6) })?;
//! machine.step(&Command { line: 2, item: Item::Word(Word::Version) })?;
//! machine.finish();
//! let theorems = machine.exports();
//! ```
#![tactic(auto)]

mod collect;
mod commands;
mod defining;
mod definitions;
mod inference;
mod machine;
mod making;
mod object;
mod operands;
mod pairs;
mod remembered;
mod stack;
mod stating;
mod store;

pub use machine::Machine;
