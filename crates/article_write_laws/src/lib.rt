//! Laws of the article that says again what a run exports.
//!
//! There is no code: what is shown beyond lemmas is a function that does nothing, whose contract is the law.
//!
//! | File | Laws of |
//! |---|---|
//! | `NumberTextLaws`, `NameTextLaws`, `ItemLaws`, `TextLaws` | the text of commands reads back as these commands |
//! | `SymbolUses`, `SymbolsGrown` | symbols of the article are among those of the run |
//! | `Opened`, `Built` | parts of terms under binders, with variables in place of their loose numbers |
//! | `Scenes`, `Listings` | what is known of an article that is half written |
//! | `Beginnings` | what an article begins with, in either version |
//! | `TypeWriting`, `TermWriting`, `GivenWriting` | what is written of a type, a term, of what a rule is given, pushes just that |
//! | `RuleWords`, `InferenceWords`, `DefiningSteps` | each rule's word makes its step |
//! | `DefinitionsMade` | the definition of a type operator, among what was made |
//! | `Flags`, `BuiltSteps`, `Tales` | the told steps of a run, and what is asked of them |
//! | `Retelling`, `ToldSteps`, `StatedSteps`, `DefinedSteps`, `RetoldRuns` | each command that is told makes its step, so the article does |
//! | `RetoldArticles` | the text is an article that is accepted |
//! | `ReachLaws`, `ClosedTales` | the reached steps are closed under what they need |
//! | `RenumberedDrafts`, `FixedPoint` | the article of the article is the same |
//! | `ArticleLaws` | the article of a run that can be told: accepted, with the reached steps, and its own article |
//! | `WritableDrafts`, `FreshNames` | all that is written can stand on lines; no variable has the name of a binder |
//! | `LawPairs`, `Prefixes`, `Histories`, `HistoryTales` | how what a run made came about, and that it can be told where one article can say it |
//! | `CloseBuilt`, `GoodStates`, `GoodBuilding`, `GoodWords`, `GoodNames`, `GoodRuns` | every accepted run has such a history |
//! | `RunsRetold` | the whole law |
//! | `LengthLaws`, `CountLaws`, `CountedTerms`, `CountedArticles` | what is counted is the length of the text |
//! | `KeptOnce`, `CountedOnce` | for code that holds keys by node: each thing is kept once, and a part of a term is counted once for each number of binders |
#![tactic(auto)]

ghost use Rattle.article_write_spec.specs.ArticleLength.{LengthsAreCounted};
ghost use Rattle.article_write_spec.specs.Retold.{RunsAreRetold};

/// The law of articles: what the exports of an accepted run reach can be told by one article of a version, where one can say it and it
/// isn't too long. It is accepted and of that version, its steps are exactly the reached ones, its definitions, assumptions
/// and exports are those of the run that are reached, in order, and its own article is the same text.
pub fn runs_are_retold()
    ensures { RunsAreRetold }
{}

/// The law of lengths: what is counted of the article of a proof, up to a greatest number, is the length of its text.
pub fn lengths_are_counted()
    ensures { LengthsAreCounted }
{}
