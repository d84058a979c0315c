//! Laws of articles and of runs, over the definitions of `article_spec`.
//!
//! There is no code: what is shown beyond lemmas is a function that does nothing, whose contract is the law.
//!
//! | File | Laws of |
//! |---|---|
//! | `LineLaws`, `ReadingLaws` | each text has exactly one reading as the lines of an article |
//! | `RunLaws` | each list of articles has exactly one outcome, by whatever way they are obeyed |
//! | `Parts`, `OperandParts`, `PartsLaws` | what is true of objects where it is said of their parts, so of the operands of a command, and of weaker parts |
//! | `Moves`, `Inferred` | what is true of every state of a run, and the moves that keep it: an object is made of parts, a symbol is taken or defined, a step is concluded, assumed or exported |
//! | `KeptWords`, `KeptRuns` | each word, each command and each end of an article keeps what the moves keep, so it is true of every run |
//! | `GrownRuns` | the moves where nothing is asked of objects but of their names, and each thing that is made has a property of its own |
//! | `Binds` | what answered before the last answer of a row, and what is within the limits |
//! | `Soundness` | what is true of every state of a run |
//! | `SoundStates`, `SoundInputs`, `SoundBuilding`, `SoundInference`, `SoundDefining`, `SoundStating`, `SoundSteps` | each move keeps it, so that all that a run says derives |
//! | `SecondWords` | a word as the second command is `version`, or stands in the body of an article of version 5 |
//! | `PlacesKept` | a word of the body leaves the place of the machine |
//! | `NoPhantoms` | the refusal of a term without a type never comes |
//! | `StateLaws` | the codes of objects and states, for models whose values they are |
#![tactic(auto)]

ghost use Rattle.article_spec.specs.Outcomes.{OneOutcome, RefusalsStay};
ghost use Rattle.article_spec.specs.SoundRuns.{RunsAreSound};

/// The law of outcomes: whatever way articles are obeyed, every list of them has exactly one outcome.
pub fn one_outcome()
    ensures { OneOutcome }
{}

/// The law of refusals: one depends on the articles up to the refused one alone.
pub fn refusals_stay()
    ensures { RefusalsStay }
{}

/// The law of runs: what an accepted run made is a proof over what is taken and within the limits, and all that it says derives.
pub fn runs_are_sound()
    ensures { RunsAreSound }
{}
