//! The first steps, of no premises, and what a proof keeps.
use crate::turns::{Case, Rule, Turn};
use common::Kind;
use hol_defs::SymbolKind;
use hol_spec::StepKind;

/// The cases.
pub(crate) const CASES: [Case; 6] = [
    Case {
        name: "refl",
        turns: &[
            Turn::Makes(0, Rule::Refl("p")),
            Turn::By(0, StepKind::Refl, &[]),
            Turn::Term(0, "p"),
            Turn::Steps(1),
            Turn::Says(0, &[], "p p ="),
        ],
    },
    Case {
        name: "assume",
        turns: &[
            Turn::Makes(0, Rule::Assume("p")),
            Turn::Refused(Rule::Assume("f"), Kind::NotBool),
            Turn::Steps(1),
            Turn::Says(0, &["p"], "p"),
        ],
    },
    // What two rules were given: two steps, and a variable.
    Case {
        name: "given",
        turns: &[
            Turn::Makes(0, Rule::Refl("p")),
            Turn::Makes(1, Rule::Refl("p")),
            Turn::Makes(2, Rule::Trans(1, 0)),
            Turn::Makes(3, Rule::AbsThm(b'q', 2)),
            Turn::Variable(3, b'q'),
            Turn::By(2, StepKind::Trans, &[1, 0]),
            Turn::Nothing(2),
            Turn::By(3, StepKind::AbsThm, &[2]),
        ],
    },
    // An axiom keeps the sequent that it was given.
    Case {
        name: "given_sequent",
        turns: &[
            Turn::Makes(0, Rule::Axiom("p", "q", "p")),
            Turn::By(0, StepKind::Axiom, &[]),
            Turn::Sequent(0, &["p", "q"], "p"),
        ],
    },
    // An operator and a constant are taken once each, and stand before the step.
    Case {
        name: "made",
        turns: &[
            Turn::UsesOp(b"list", 1),
            Turn::UsesConst(b"c"),
            Turn::Makes(0, Rule::Refl("p")),
            Turn::UsesOp(b"list", 1),
            Turn::UsesConst(b"c"),
            Turn::Operator(0, b"list", 1),
            Turn::Constant(1, b"c"),
            Turn::StepAt(2, 0),
            Turn::Things(3),
        ],
    },
    // The symbols that are taken, and what takes none.
    Case {
        name: "symbols",
        turns: &[
            Turn::UsesOp(b"list", 1),
            Turn::UsesConst(b"c"),
            Turn::OpRefused(b"->", 1, Kind::BadArity),
            Turn::ConstRefused(b"select", Kind::BadConstType),
            Turn::Taken(b"list", Some(SymbolKind::Input), None),
            Turn::Taken(b"c", None, Some(SymbolKind::Input)),
            Turn::Symbols(2),
        ],
    },
];
