//! Closed sequents as texts, and decoding as a definition: the closed sequent that a type of a module stands for, as a function of the
//! module's declarations and the type.
//!
//! The crate has no code and no law; `decode_laws` shows that the function finds exactly what `Enc` says. To be read in this order:
//!
//! | File | Notion |
//! |---|---|
//! | `Options` | what may be lacking: joining, falling back, a test |
//! | `Opened` | a closed sequent with a name for each parameter, as a sequent |
//! | `ClosedFormTest` | the test whether a closed sequent is the closed form of a sequent within the limits |
//! | `Demangled` | the name that has a mangled text |
//! | `ClosedText` | the text of a closed sequent, as the program prints it |
//! | `Decode` | operators, types, constants, terms and sequents that the symbols and trees of a module stand for |
//! | `DecodeStatements` | what is shown of these |
//!
//! ```text
//! ghost use Rattle.decode_spec.specs.Decode.{decode};
//! ensures sequent { IfOk result (λ found. MatchOption found (..) (λ closed. decode declarations A ≡ Some closed)) }
//! ```
#![tactic(auto)]
