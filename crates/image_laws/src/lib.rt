//! What the module of every accepted run says: it is a well-typed module that stands for its run.
//!
//! There is no code: what is shown beyond lemmas is a function that does nothing, whose contract is the law.
//!
//! | File | Laws of |
//! |---|---|
//! | `AcceptedRuns`, `ExportsKept` | the items of a run: made in order, so shaped, well typed and priced; each export is kept |
//! | `Origins`, `Named`, `NewNames` | where each item comes from, what its name is, and that no two have one name |
//! | `RunModules` | the module of a run is a module |
//! | `ExportOrder`, `ExportSteps` | its exports are the run's in order, and each restates a theorem |
//! | `Meanings`, `Standing` | its symbols mean what they stand for, and its theorems stand for what they say |
//! | `Givens`, `FaithfulRuns` | what has no body was given, what is defined the run defined: the module is faithful to its run |
//! | `Reaching`, `Uses`, `PremiseUses` | what is kept is reached, and what trees use |
#![tactic(auto)]

ghost use Rattle.image_laws.specs.AcceptedRuns.{RunsAreCarried};
ghost use Rattle.image_laws.specs.RunModules.{RunsAreModules};
ghost use Rattle.image_laws.specs.FaithfulRuns.{RunsAreFaithful};

/// The module of an accepted run is well typed, shaped and priced, and each export is said.
pub fn runs_are_carried()
    ensures { RunsAreCarried }
{}

/// The module of an accepted run whose names are bytes is a module: each name is new, and each tree is over what is declared before.
pub fn runs_are_modules()
    ensures { RunsAreModules }
{}

/// The module of an accepted run is faithful to it: what has no body was given, what is defined the run defined, and its
/// exports are the run's.
pub fn runs_are_faithful()
    ensures { RunsAreFaithful }
{}
