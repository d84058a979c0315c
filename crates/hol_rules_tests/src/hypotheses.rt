//! The rules that change hypotheses.
use crate::turns::{Case, Rule, Turn};

/// The cases.
pub(crate) const CASES: [Case; 4] = [
    // Of p under p and q under q, and of p under p twice.
    Case {
        name: "deduct_antisym",
        turns: &[
            Turn::Makes(0, Rule::Assume("p")),
            Turn::Makes(1, Rule::Assume("q")),
            Turn::Makes(2, Rule::DeductAntisym(0, 1)),
            Turn::Makes(3, Rule::DeductAntisym(0, 0)),
            Turn::Equates(2, &["p", "q"], "p", "q"),
            Turn::Equates(3, &[], "p", "p"),
        ],
    },
    // Of p under u (\y. y), and u (\z. z): the hypothesis goes, since the two are one tree.
    Case {
        name: "removal_up_to_renaming",
        turns: &[
            Turn::Makes(0, Rule::Axiom("y \\y U", "y \\y U", "p")),
            Turn::Makes(1, Rule::Given("z \\z U")),
            Turn::Makes(2, Rule::DeductAntisym(0, 1)),
            Turn::Equates(2, &[], "p", "z \\z U"),
        ],
    },
    // p = p under itself, without the hypothesis.
    Case {
        name: "prove_hyp",
        turns: &[
            Turn::Makes(0, Rule::Refl("p")),
            Turn::Makes(1, Rule::Assume("p p =")),
            Turn::Makes(2, Rule::ProveHyp(0, 1)),
            Turn::Says(1, &["p p ="], "p p ="),
            Turn::Says(2, &[], "p p ="),
        ],
    },
    // Of p under r, and q under p and r: r once, and before it nothing that was left of p.
    Case {
        name: "prove_hyp_merged",
        turns: &[
            Turn::Makes(0, Rule::Axiom("r", "r", "p")),
            Turn::Makes(1, Rule::Axiom("p", "r", "q")),
            Turn::Makes(2, Rule::ProveHyp(0, 1)),
            Turn::Says(2, &["r"], "q"),
        ],
    },
];
