//! The module of every accepted run stands for its run: beside what is shown of every run's module, each of its declarations is reached by an export.
//!
//! There is no code: what is shown beyond lemmas is a function that does nothing, whose contract is the law.
//!
//! | File | Laws of |
//! |---|---|
//! | `Keys` | what types, terms and sequents mention: operators and constants |
//! | `ModuleItems` | where each item of a module is declared, what it asks of those before it, and which item a constant is |
//! | `ListedVariables` | the variables of a list of constants: each is free in the premise, and its constant is put for it |
//! | `ItemUses` | the declaration of an item uses what the item needs, or a constant whose generic type mentions it |
//! | `NeededItems` | each step needs its premises, and a kept item needs what it needed |
//! | `RootItems` | what gives a root is named as an export |
//! | `StandingRuns` | what is kept is reached, so the module of an accepted run with names stands for it |
//! | `ByteNames` | a line of bytes writes a name of bytes, and so do the name items of a text of bytes |
//! | `TypedBodies` | the bodies of a run's module are typed over what is declared before, and its theorems are those of steps |
//! | `PlaceCounts`, `LackingTrees`, `ParameterCounts` | to how many arguments a tree applies a symbol, what lacks the symbols of theorems, and how many domains the type of a theorem has |
//! | `CountedRows`, `CountedModules` | each proof applies its premises, and so each body a theorem, to as many arguments as the theorem has parameters |
//! | `NamedRuns` | every accepted run over articles of bytes has names, so its module stands for it |
#![tactic(auto)]

ghost use Rattle.image_reach_laws.specs.NamedRuns.{RunsOfBytesStand};
ghost use Rattle.image_reach_laws.specs.StandingRuns.{RunsStand};
ghost use Rattle.image_reach_laws.specs.TypedBodies.{BodiesTyped};
ghost use Rattle.image_reach_laws.specs.CountedModules.{FilledAndMerged};

/// The module of an accepted run that has names stands for it.
pub fn runs_stand()
    ensures { RunsStand }
{}

/// The module of every accepted run over articles of bytes stands for it.
pub fn runs_of_bytes_stand()
    ensures { RunsOfBytesStand }
{}

/// In the module of an accepted run each body is typed at its declared type over the declarations before it; and where the run has names,
/// each theorem after the two lemmas is named by a step and has a type that stands for the closed form of the step's sequent.
pub fn bodies_typed()
    ensures { BodiesTyped }
{}

/// In the module of an accepted run each body applies a theorem, wherever it uses it, to exactly as many arguments as the
/// theorem's closed form has parameters: what vanishes is filled, and a hypothesis is passed for each that became it.
pub fn filled_and_merged()
    ensures { FilledAndMerged }
{}
