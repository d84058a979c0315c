//! The headline: what the module of every accepted run of articles is good for, and what its article tells.
//!
//! There is no code: what is shown beyond lemmas is a function that does nothing, whose contract is the law.
//!
//! | File | Laws of |
//! |---|---|
//! | `PlainNames` | the names that a run's module declares are identifiers, unlike key words and binders |
//! | `TrialBytes` | the text of a generated article is of bytes, as the headline asks of articles |
//! | `Headlines` | the module's text reads as it alone; it is well typed and stands for its run, each check ends within its bound; what the run made is a proof, and its exports derive |
//! | `RuleVariables` | a rule brings no variable of its own |
//! | `WrittenNames` | the name of each variable that a step is given stands in the article |
//! | `ArticleHeadlines` | so the names of variables are few, and the article of a run tells it again |
//! | `FormPromises` | what a call promises comes of what it does: the headline and the law of articles hold of the run that its form asks for |
#![tactic(auto)]

ghost use Rattle.bridge_spec.specs.Articles.{EachRunIsRetold};
ghost use Rattle.bridge_spec.specs.Headline.{EachRunCarries};

/// The module of every accepted run over articles of bytes reads back from its text, is well typed and faithful to its run,
/// and each of its declarations is accepted within its bound. What the run made is a proof, and its exports derive.
pub fn each_run_carries()
    ensures { EachRunCarries }
{}

/// The law of articles: the article of an accepted run in a version, where one can say it and it is no longer than an article may be, is accepted
/// and of that version. Its steps are exactly the reached ones, its definitions, assumptions and exports are those of the run that are
/// reached, in order, and its own article is the same text.
pub fn each_run_is_retold()
    ensures { EachRunIsRetold }
{}
