//! The rules of functions.
use crate::turns::{Case, Rule, Turn};
use common::Kind;

/// The cases.
pub(crate) const CASES: [Case; 6] = [
    // From p = p, (\p. p) = (\p. p).
    Case {
        name: "abs_thm",
        turns: &[
            Turn::Makes(0, Rule::Refl("p")),
            Turn::Makes(1, Rule::AbsThm(b'p', 0)),
            Turn::Equates(1, &[], "p \\p", "p \\p"),
        ],
    },
    // A variable of the hypotheses, and of the hypotheses of what is no equation.
    Case {
        name: "abs_thm_refused",
        turns: &[
            Turn::Makes(0, Rule::Assume("p p =")),
            Turn::Makes(1, Rule::Assume("p")),
            Turn::Refused(Rule::AbsThm(b'p', 0), Kind::VarInHyps),
            Turn::Refused(Rule::AbsThm(b'p', 1), Kind::NotEquation),
            Turn::Steps(2),
            Turn::Makes(2, Rule::AbsThm(b'q', 0)),
        ],
    },
    // From f = f and p = p, f p = f p.
    Case {
        name: "app_thm",
        turns: &[
            Turn::Makes(0, Rule::Refl("f")),
            Turn::Makes(1, Rule::Refl("p")),
            Turn::Makes(2, Rule::AppThm(0, 1)),
            Turn::Equates(2, &[], "f p .", "f p ."),
        ],
    },
    // p = p at p = p, and what is no equation on either side.
    Case {
        name: "app_thm_refused",
        turns: &[
            Turn::Makes(0, Rule::Refl("p")),
            Turn::Makes(1, Rule::Assume("p")),
            Turn::Refused(Rule::AppThm(0, 0), Kind::TypeMismatch),
            Turn::Refused(Rule::AppThm(1, 0), Kind::NotEquation),
            Turn::Refused(Rule::AppThm(0, 1), Kind::NotEquation),
            Turn::Steps(2),
        ],
    },
    // (\p. p) p = p
    Case {
        name: "beta_conv",
        turns: &[
            Turn::Makes(0, Rule::BetaConv("p \\p p .")),
            Turn::Refused(Rule::BetaConv("p"), Kind::NotRedex),
            Turn::Equates(0, &[], "p \\p p .", "p"),
        ],
    },
    // Of (\x. (\y. y) x) p, one step: the redex inside stays.
    Case {
        name: "one_head_step",
        turns: &[
            Turn::Makes(0, Rule::BetaConv("y \\y x . \\x p .")),
            Turn::Equates(0, &[], "y \\y x . \\x p .", "y \\y p ."),
        ],
    },
];
