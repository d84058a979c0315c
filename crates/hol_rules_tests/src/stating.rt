//! The rules that state a sequent.
use crate::turns::{Case, Rule, Turn};
use common::Kind;

/// The cases.
pub(crate) const CASES: [Case; 4] = [
    Case {
        name: "axiom",
        turns: &[
            Turn::Makes(0, Rule::Axiom("p", "p", "q")),
            Turn::Says(0, &["p"], "q"),
        ],
    },
    // A hypothesis, or the conclusion, that is no truth value.
    Case {
        name: "axiom_refused",
        turns: &[
            Turn::Refused(Rule::Axiom("p", "f", "p"), Kind::NotBool),
            Turn::Refused(Rule::Axiom("p", "p", "f"), Kind::NotBool),
            Turn::Steps(0),
        ],
    },
    // p under p, with q before it.
    Case {
        name: "restate",
        turns: &[
            Turn::Makes(0, Rule::Assume("p")),
            Turn::Makes(1, Rule::Restate(0, "q", "p", "p")),
            Turn::Says(1, &["q", "p"], "p"),
        ],
    },
    // p under p: another hypothesis in its place, another conclusion, and no truth value beside another conclusion.
    Case {
        name: "restate_refused",
        turns: &[
            Turn::Makes(0, Rule::Assume("p")),
            Turn::Refused(Rule::Restate(0, "q", "q", "p"), Kind::NotTheSequent),
            Turn::Refused(Rule::Restate(0, "p", "q", "q"), Kind::NotTheSequent),
            Turn::Refused(Rule::Restate(0, "f", "q", "q"), Kind::NotBool),
            Turn::Steps(1),
        ],
    },
];
