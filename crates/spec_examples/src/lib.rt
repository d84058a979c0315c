//! Worked examples of what is meant, where they need the definitions of several crates, or of a crate that much stands on. Nothing stands on them; each is computed, or built of the parts of the definition.
//!
//! | File of `proofs/` | Examples |
//! |---|---|
//! | `SmallRules` | the words of the rules, on small articles |
//! | `Parameters` | what counts as a parameter of a sequent, and the limit |
//! | `WeakenedRun` | a run with an assumption and an export: its module, why its assumption may stand without a body, and that its export reaches it |
//! | `DefinedConstant` | a definition that is the run's |
//! | `SmallRuns` | what the runs below make, why each thing that they make follows, and the lines of a module |
//! | `ApartNames` | the names of symbols tell components apart |
//! | `VanishedVariable` | a free variable and its type variable that vanish by `trans` |
//! | `TypesFirst`, `MergedHypotheses`, `NoCapture` | substitution: types before terms, hypotheses that become one, and no capture |
//! | `RenamedHypothesis` | a hypothesis that is removed up to renaming |
//! | `HeadStep` | one step at the head of a redex |
//! | `NewerConstant`, `ListedConstants` | a constant that stands for an older one, and a list of constants |
//! | `TypeDefinition` | a type definition: its operator and its constants as parts of its type, and its first law with its proof |
//! | `ProofRows` | two runs as proofs, and what their steps say derives |
//! | `FreeDefinition` | the same type definition in an article of version 5 |
//! | `Reasons` | why the other declarations may have no body: inputs |
//! | `WhatWasRead` | what was read of a shelf that tells its files, and of one that doesn't, and how an answer comes of it |
//! | `ClosedTexts` | small sequents as `show` prints them |
//! | `WordForms` | which words are a form of the program, and the lines of a check |
#![tactic(auto)]
