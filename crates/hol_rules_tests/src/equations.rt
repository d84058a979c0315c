//! The rules of equations.
use crate::turns::{Case, Rule, Turn};
use common::Kind;

/// The cases.
pub(crate) const CASES: [Case; 6] = [
    // From p = q and p, q.
    Case {
        name: "eq_mp",
        turns: &[
            Turn::Makes(0, Rule::Assume("p q =")),
            Turn::Makes(1, Rule::Assume("p")),
            Turn::Makes(2, Rule::EqMp(0, 1)),
            Turn::Says(2, &["p q =", "p"], "q"),
        ],
    },
    // p = p and q.
    Case {
        name: "eq_mp_refused",
        turns: &[
            Turn::Makes(0, Rule::Refl("p")),
            Turn::Makes(1, Rule::Assume("q")),
            Turn::Refused(Rule::EqMp(1, 0), Kind::NotEquation),
            Turn::Refused(Rule::EqMp(0, 1), Kind::NotAlike),
            Turn::Steps(2),
        ],
    },
    // From p = q, q = p.
    Case {
        name: "sym",
        turns: &[
            Turn::Makes(0, Rule::Assume("p q =")),
            Turn::Makes(1, Rule::Sym(0)),
            Turn::Equates(1, &["p q ="], "q", "p"),
        ],
    },
    Case {
        name: "sym_refused",
        turns: &[
            Turn::Makes(0, Rule::Assume("p")),
            Turn::Refused(Rule::Sym(0), Kind::NotEquation),
            Turn::Steps(1),
        ],
    },
    // From p = q and q = p, p = p.
    Case {
        name: "trans",
        turns: &[
            Turn::Makes(0, Rule::Assume("p q =")),
            Turn::Makes(1, Rule::Sym(0)),
            Turn::Makes(2, Rule::Trans(0, 1)),
            Turn::Equates(2, &["p q ="], "p", "p"),
        ],
    },
    // p = q twice, and what is no equation on either side.
    Case {
        name: "trans_refused",
        turns: &[
            Turn::Makes(0, Rule::Given("p q =")),
            Turn::Makes(1, Rule::Assume("p")),
            Turn::Refused(Rule::Trans(0, 0), Kind::NotAlike),
            Turn::Refused(Rule::Trans(1, 0), Kind::NotEquation),
            Turn::Refused(Rule::Trans(0, 1), Kind::NotEquation),
            Turn::Steps(2),
        ],
    },
];
