//! Laws of folded modules: with abbreviations of what occurs at two places.
//!
//! The functions here do nothing, and each has a law for its contract.
//!
//! | File | Laws |
//! |---|---|
//! | `AbbreviationLaws` | what can be abbreviated is a simple type or a term of one, so an abbreviation is shaped |
//! | `AbbreviationsKept` | what can be abbreviated over some declarations can be over more, with the same type |
//! | `MovedLaws`, `MovedSteps`, `MovedShapes`, `MovedMeanings` | trees whose symbols have other numbers are lifted, stepped, shaped and meant as before |
//! | `FoldedShapes`, `FoldedModules`, `FoldedWeights` | a folded module is shaped, a module, and weighs little more |
//! | `FoldedTexts` | its text reads as it |
//! | `FoldedStandsLaws` | it stands for the run for which the module stands |
//! | `AbbreviationsKept`, `FoldedAbbreviations` | what can be abbreviated over the declarations before a tree can be over the whole module, and the other way round |
//! | `WrittenOnceLaws` | no tree that is shared is written out twice |
//! | `PlacesByNodes`, `NumberedTrees` | one pass over the numbers of a table, downwards, counts places up to two |
//! | `FirstsByNodes` | a walk that enters no tree that it has met meets the trees that are first met, in order |
//! | `FoldStatements` | the statements of the functions below |
#![tactic(auto)]

ghost use Rattle.share_laws.specs.FoldStatements.{FoldedReadsBack, FoldedShaped, FoldedStand};
ghost use Rattle.share_spec.specs.WrittenOnce.{WrittenOnce};

/// The folded module of a module of shaped declarations is one, and its declarations pass within 64 times the squares of their weights.
pub fn folded_shaped()
    ensures { FoldedShaped }
{}

/// The text of a folded module, by its short names, reads as it and as no other.
pub fn folded_reads_back()
    ensures { FoldedReadsBack }
{}

/// A folded module stands for the run for which the module stands.
pub fn folded_stand()
    ensures { FoldedStand }
{}

/// No tree that is shared is written out more than once after the lemmas, the types of abbreviations aside.
pub fn written_once()
    ensures { WrittenOnce }
{}
