//! The laws of texts: every text has one answer, the prelude says the types of the signature, and what is written of a module reads
//! as that module alone.
//!
//! The functions here do nothing, and each has a law for its contract. Each file of `specs/` has the laws of one subject:
//!
//! | File | Laws |
//! |---|---|
//! | `ReadingSound`, `ReadingComplete`, `TermEnds` | what is not refused is of the grammar, and what is of the grammar is not refused; how the tokens behind a term begin |
//! | `ReadingLaws` | so every text has one answer |
//! | `FaultNames`, `FaultContexts`, `FaultMoves`, `FaultReach`, `FaultStands`, `FaultFollows`, `FaultPlaces`, `FaultLeast`, `FaultLaws` | a text is refused for a fault that it shows, the one at the least place |
//! | `CutTokens`, `CutScans`, `CutGoesOn`, `FaultLimits` | and so it is under a limit of its bytes, whether or not it cuts a token |
//! | `ReadingOrder` | what has been read so far can come in a module |
//! | `AnswerPlaces`, `LeastWithin` | a text is refused at a place within it, and under a limit for its least fault, within the limit |
//! | `ReadTrees` | no tree that is read names a definition with a short name, and short names are short for closed trees |
//! | `PreludeLaws` | each line of the prelude says the type of its symbol |
//! | `ShortenedTrees` | a tree as it is written, by short names, is read as the tree |
//! | `WrittenTokens`, `WrittenReads`, `WrittenModules` | the tokens, the trees and the module that are read of what is written |
//!
//! A proof has a law by a call, or cites one by its path:
//!
//! ```text
//! dk_laws::one_answer();
//! use Rattle.dk_laws.specs.ReadingLaws.{answer-Reads}
//! ```
#![tactic(auto)]

ghost use Rattle.lp_spec.specs.TextLaws.{EachFaultTold, EachLimitTold, OneAnswer, PreludeReads, ReadsLong, WrittenReads};

/// The law of readings: every text reads as exactly one module, or is refused for exactly one fault.
pub fn one_answer()
    ensures { OneAnswer }
{}

/// The law of faults: a text is refused for a fault that it shows, the one at the least place, and it reads as a module
/// exactly where it shows none.
pub fn faults_told()
    ensures { EachFaultTold }
{}

/// The law of limits: under a limit of its bytes a text is refused for a fault that it shows under it, the one at the least
/// place, and for each such fault; and a text that reads as a module under it shows none.
pub fn limits_told()
    ensures { EachLimitTold }
{}

/// The law of the prelude: its lines declare the symbols of the signature in order, each by its name and its type, and its
/// rewriting rule is that of conversion.
pub fn prelude_reads()
    ensures { PreludeReads }
{}

/// The law of texts: what is written of a module reads as that module and no other, where its names are identifiers
/// unlike those of binders, and its trees are not too deep.
pub fn written_reads()
    ensures { WrittenReads }
{}

/// The law of short names: no tree that is read names a definition with a short name, since such a name is read as the tree for
/// which it is short.
pub fn reads_long()
    ensures { ReadsLong }
{}
