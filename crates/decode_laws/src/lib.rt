//! Laws of decoding: what is decoded is exactly what a type stands for, and the exports of a module that stands for a run are decoded to
//! those of the run.
//!
//! There is no code: what is shown beyond lemmas is a function that does nothing, whose contract is the law.
//!
//! | File | Laws of |
//! |---|---|
//! | `OptionLaws` | what is joined, tried or tested |
//! | `OpenedLaws`, `ClosedFormTestLaws` | the closed form opened with names of one's own, and that the test tells closed forms |
//! | `DemangledLaws` | mangled texts and their names |
//! | `SymbolLaws`, `TypeLaws`, `ConstantLaws`, `TermLaws` | operators, types, constants and terms are found exactly where trees stand for them |
//! | `DecodingLaws` | a type is decoded exactly to what it stands for, and so stands for one closed sequent at most |
//! | `ExportLaws` | the exports of a module that stands for a run |
//! | `SizeLaws`, `SizeBound` | a type that stands for a closed sequent has at most 4,196,353 nodes |
//! | `GenericLaws` | generic types with names for their variables |
//! | `WalkLaws`, `TermWalkLaws` | what a walk over a type or a term may leave out: where a part passes the limits, the whole does |
#![tactic(auto)]

ghost use Rattle.translate_spec.specs.Enc.{OneEncoding};
ghost use Rattle.decode_spec.specs.DecodeStatements.{ClosedFormsTold, DecodedExactly, ExportsDecoded};

/// The test passes exactly the closed forms of sequents within the limits.
pub fn closed_forms_told()
    ensures { ClosedFormsTold }
{}

/// What is decoded is exactly what a type stands for.
pub fn decoded_exactly()
    ensures { DecodedExactly }
{}

/// A type of a module stands for at most one closed sequent: the one that it is decoded to.
pub fn one_encoding()
    ensures { OneEncoding }
{}

/// The exports of a module that stands for a run are decoded, in order, to the closed forms of the run's exports.
pub fn exports_decoded()
    ensures { ExportsDecoded }
{}
