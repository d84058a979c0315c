//! The article that says again what a run exports, as a definition: which steps the exports reach, what is written for each, and the
//! text of the whole.
//!
//! The crate has no code and no law. Its `specs/` are to be read in this order:
//!
//! | File | Notion |
//! |---|---|
//! | `Versions` | the version of an article, and that of a type definition |
//! | `ItemTexts` | the line that writes a number, a name, a word; the text of commands |
//! | `Mentions`, `ReachedSteps` | which symbols and steps a step needs, and the steps that the exports reach |
//! | `BinderNames` | the names of binders, which no variable that is written has |
//! | `Drafts` | what is written so far, and what its keys stand for |
//! | `WrittenTypes`, `WrittenTerms` | a type and a term: each once, and then by its key |
//! | `WrittenSteps` | a step: what its command is given, its word, and what is kept of what it made |
//! | `Article` | the article of a run in a version |
//! | `Retold` | what it tells, as a statement; `article_write_laws` proves it |
//! | `Lengths`, `TermLengths`, `ArticleLength` | the length of the article, counted without its text; that it is that of the text, as a statement |
//!
//! ```text
//! ghost use Rattle.article_write_spec.specs.Article.{article};
//! ensures written { OnOk result (Gains out.old (article version run) out.new) }
//! ```
#![tactic(auto)]
