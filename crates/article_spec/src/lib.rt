//! What an article says and does, as definitions (OpenTheory article format, versions 5 and 6): its lines and
//! their commands, the stack machine that obeys them, and a run over a list of articles.
//!
//! The crate has the types of commands and no other code, and no law. Its `specs/` hold the definitions that the contracts of
//! other crates cite, one notion a file, to be read in this order:
//!
//! | File | Notion |
//! |---|---|
//! | `Numbers`, `Words` | the number and the word that a line writes |
//! | `Contents`, `Lines` | what one line says; the commands of a whole text, or its first faulty line |
//! | `State` | the objects and the state of the stack machine |
//! | `Results`, `Conditions` | answers and refusals in order; the conditions of commands, each with the kind that refuses |
//! | `RuleSteps` | the step that each rule makes of its premises and of what else it is given, or why it makes none |
//! | `Operands`, `Changes` | what a command takes from the stack, and what it changes in a state |
//! | `Building`, `Inference`, `DefiningWords`, `Stating` | each word: those that build, those that infer, the definitions, assumptions and exports |
//! | `Step` | what one command does, or why it is refused |
//! | `Run` | the outcome of a list of articles |
//! | `Trial` | the article that is generated for a trial |
//! | `OneReading`, `Outcomes`, `Ascending`, `SoundRuns` | what is shown of texts and of runs, as statements; `article_laws` proves them |
//!
//! ```text
//! ghost use Rattle.article_spec.specs.Lines.{Lines, ended};
//! ensures read { IfOk result (λ line. Lines text.now commands.new.items (ended line)) }
//! ```
#![tactic(auto)]

mod commands;

pub use commands::{Command, Item, Word};
