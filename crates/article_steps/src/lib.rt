//! What writes the steps of an article to a sink, line by line.
//!
//! Which steps are told and which are exports is given by flags, and so are the keys of what is written and the room to write in:
//! [`write_article`] takes no memory. What it writes is the text of the article's commands, to the byte: a type, a term without loose
//! bound numbers and a theorem are built at their first place, get the next key, and are told by it from then on; a binder under so many
//! others is a variable with a name of its own. Where the sink fails, what it got is a front of that text.
//!
//! ```
//! let mut keys = Keys::new(alloc, types, terms, proof.len())?;
//! let mut room = Room::new(alloc, proof.terms())?;
//! let source = Source { proof: &proof, told: &told, is_export: &is_export, number };
//! write_article(Version::Six, source, &mut keys, &mut room, &mut sink)?;
//! ```
//!
//! | Module | What it does |
//! |---|---|
//! | `room` | what is left to write of a type or a term, and the binders round it |
//! | `walk` | writes what is left, with an agenda in the place of a recursion |
//! | `trees` | a type, a variable and a term, each once |
//! | `given` | what a rule is given beside its premises |
//! | `sources` | what the steps of an article are written from |
//! | `steps` | a step: what its rule was given, its premises, the word of the rule, and the keys of its theorems |
//! | `article` | what an article begins with, and its steps in order |
//!
//! | What | Steps | Memory |
//! |---|---|---|
//! | `Room::new` | a look at each type and each term of the table | twelve jobs and twelve binders for each level of the deepest tree |
//! | `write_article` | those of the text, which is written in one pass: a look at a key before each type, closed term and premise, and a look at each step's flag | none |
//!
//! A term with loose bound numbers is built anew at each place where it stands, as the definition of the article says, so the text may be
//! longer than the table by more than a constant.
#![tactic(auto)]

mod article;
mod given;
mod room;
mod sources;
mod steps;
mod trees;
mod walk;

pub use article::write_article;
pub use room::Room;
pub use sources::Source;
