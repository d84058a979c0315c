//! Substitution.
use crate::turns::{Case, Rule, Turn};
use common::Kind;
use hol_spec::StepKind;

/// The cases.
pub(crate) const CASES: [Case; 6] = [
    // q for p in p = r.
    Case {
        name: "subst",
        turns: &[
            Turn::Makes(0, Rule::Given("p r =")),
            Turn::Makes(1, Rule::Subst(b'p', "q", 0)),
            Turn::By(1, StepKind::Subst, &[0]),
            Turn::Equates(1, &[], "q", "r"),
        ],
    },
    // Of {p, q} and r, p for q: one hypothesis is left.
    Case {
        name: "hypotheses_merge",
        turns: &[
            Turn::Makes(0, Rule::Axiom("p", "q", "r")),
            Turn::Makes(1, Rule::Subst(b'q', "p", 0)),
            Turn::Says(1, &["p"], "r"),
        ],
    },
    // Of u (\y. x), the free y for x: the binder does not bind it.
    Case {
        name: "capture",
        turns: &[
            Turn::Makes(0, Rule::Given("x \\y U")),
            Turn::Makes(1, Rule::Subst(b'x', "y", 0)),
            Turn::Says(1, &[], "y \\z U"),
        ],
    },
    // Of k x x', where x has the type a and x' the same name and is a truth value: truth values for a, then q for x'. By then
    // both are one variable.
    Case {
        name: "types_first",
        turns: &[
            Turn::Makes(0, Rule::Given(":x x K")),
            Turn::Makes(1, Rule::SubstAfterTypes(b'x', "q", 0)),
            Turn::Says(1, &[], "q q K"),
        ],
    },
    // Of p = q, q for p and p for q at once; and q for p, where r for p stands behind it.
    Case {
        name: "at_once",
        turns: &[
            Turn::Makes(0, Rule::Given("p q =")),
            Turn::Makes(1, Rule::SubstTwo((b'p', "q"), (b'q', "p"), 0)),
            Turn::Makes(2, Rule::SubstTwo((b'p', "q"), (b'p', "r"), 0)),
            Turn::Equates(1, &[], "q", "p"),
            Turn::Equates(2, &[], "q", "q"),
        ],
    },
    // A function for a truth value, also where the variable does not occur, and beside a term that makes too much.
    Case {
        name: "subst_refused",
        turns: &[
            Turn::Makes(0, Rule::Refl("p")),
            Turn::Refused(Rule::Subst(b'p', "f", 0), Kind::BadSubst),
            Turn::Refused(Rule::Subst(b'q', "f", 0), Kind::BadSubst),
            Turn::Refused(
                Rule::SubstTwo((b'p', "q *16"), (b'q', "f"), 0),
                Kind::BadSubst,
            ),
            Turn::Refused(Rule::Subst(b'p', "q *16", 0), Kind::TooLarge),
            Turn::Steps(1),
        ],
    },
];
