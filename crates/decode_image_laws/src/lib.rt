//! What the module of every accepted run is decoded to: its exports to the closed forms of the run's exports, in order.
//!
//! There is no code: what is shown beyond lemmas is a function that does nothing, whose contract is the law. It stands apart from
//! `decode_laws`, whose laws speak of any module, so that code that decodes needs no law of runs.
//!
//! | File | Laws of |
//! |---|---|
//! | `RunExports` | the exports of the module of an accepted run |
#![tactic(auto)]

ghost use Rattle.decode_image_laws.specs.RunExports.{RunsDecoded, RunsOfBytesDecoded};

/// The exports of the module of an accepted run that has names are decoded, in order, to the closed forms of the run's exports.
pub fn runs_decoded()
    ensures { RunsDecoded }
{}

/// So are those of the module of every accepted run over articles of bytes.
pub fn runs_of_bytes_decoded()
    ensures { RunsOfBytesDecoded }
{}
