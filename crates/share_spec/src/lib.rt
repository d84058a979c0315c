//! What is meant by a folded module: one with abbreviations of what occurs in it at two places.
//!
//! There is no code. `Abbreviations` has the trees that can be abbreviated, `MovedTrees` trees whose symbols have other numbers, `Folded` the
//! folded module, `FoldedStands` what it says for its run, and `WrittenOnce` what of its text is written out.
#![tactic(auto)]
