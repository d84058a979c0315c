//! The law of the generated articles: the stack machine accepts each of them, from one block up to 100,000.
//!
//! There is no code: what is shown beyond lemmas is a function that does nothing, whose contract is the law.
//!
//! | File | Laws of |
//! |---|---|
//! | `Trials` | what a generated article takes and exports, and that it is accepted: the statement |
//! | `TrialLines` | the lines of words, and the commands that they give |
//! | `TrialNames` | the names of the constants: the lines that write them, and that no two are one |
//! | `TrialSymbols` | which names are taken after some blocks |
//! | `TrialSteps` | what the machine does with commands in a row, and what stays known of the steps that were made |
//! | `TrialBlocks` | the parts of a block |
//! | `TrialRuns` | what is known before a block, and that the block keeps it |
//! | `TrialEnds` | what stands before the blocks and behind them |
//! | `TrialArticles` | the whole article |
#![tactic(auto)]

ghost use Rattle.article_trial_laws.specs.Trials.{TrialsAreAccepted};

/// The law of trials: there is an accepted run of the generated article of n blocks, for each n from 1 to 100,000. It assumes nothing and
/// exports that the last constant is `f` at `p`; each constant is defined by the one before it.
pub fn trials_are_accepted()
    ensures { TrialsAreAccepted }
{}
