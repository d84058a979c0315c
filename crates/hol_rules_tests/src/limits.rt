//! The limits on what rules conclude: 1,048,576 of size, 16,384 of depth, and 16,384 parameters.
//!
//! A variable of truth values has size 2 and depth 2, an equation of two 8 more than their sizes; f adds 5 to the size and
//! 1 to the depth.
use crate::turns::{Case, Rule, Turn};
use common::Kind;

/// The cases.
pub(crate) const CASES: [Case; 14] = [
    // As many variables as there may be; with f one more, once as deep as an equation's sides may be, and once large too.
    Case {
        name: "refl_many",
        turns: &[
            Turn::Keep("#16"),
            Turn::Makes(0, Rule::Refl("&0")),
            Turn::Refused(Rule::Refl("&0 ^1"), Kind::TooManyParams),
            Turn::Refused(Rule::Refl("&0 ^16296"), Kind::TooManyParams),
            Turn::Refused(Rule::Refl("&0 *1 ^16294"), Kind::TooManyParams),
            Turn::Steps(1),
        ],
    },
    // One deeper than these: depth is judged before the number of parameters.
    Case {
        name: "refl_deep",
        turns: &[
            Turn::Keep("#16"),
            Turn::Refused(Rule::Refl("&0 ^16297"), Kind::TooDeep),
            Turn::Refused(Rule::Refl("&0 *1 ^16295"), Kind::TooDeep),
            Turn::Steps(0),
        ],
    },
    // Too large; and with that too deep, and of too many variables: size is judged first.
    Case {
        name: "refl_large",
        turns: &[
            Turn::Keep("#16"),
            Turn::Refused(Rule::Refl("&0 *2"), Kind::TooLarge),
            Turn::Refused(Rule::Refl("&0 *2 ^16294"), Kind::TooLarge),
            Turn::Steps(0),
        ],
    },
    // Two of 655,352.
    Case {
        name: "assume_large",
        turns: &[
            Turn::Refused(Rule::Assume("p *16"), Kind::TooLarge),
            Turn::Refused(Rule::Assume("p *16 \\p"), Kind::NotBool),
            Turn::Steps(0),
        ],
    },
    // Both sides large, once with a middle that fits.
    Case {
        name: "trans_large",
        turns: &[
            Turn::Makes(0, Rule::Given("p *16 r =")),
            Turn::Makes(1, Rule::Given("r q *16 =")),
            Turn::Makes(2, Rule::Given("s q *16 =")),
            Turn::Refused(Rule::Trans(0, 1), Kind::TooLarge),
            Turn::Refused(Rule::Trans(0, 2), Kind::NotAlike),
            Turn::Steps(3),
        ],
    },
    Case {
        name: "deduct_antisym_large",
        turns: &[
            Turn::Makes(0, Rule::Given("p *16")),
            Turn::Makes(1, Rule::Given("q *16")),
            Turn::Refused(Rule::DeductAntisym(0, 1), Kind::TooLarge),
            Turn::Steps(2),
        ],
    },
    // The redex has 327,672 and the term that it becomes more than four times as much, while each fits alone.
    Case {
        name: "beta_conv_large",
        turns: &[
            Turn::Refused(Rule::BetaConv("p *1 p = \\p p *15 ."), Kind::TooLarge),
            Turn::Steps(0),
        ],
    },
    // Large hypotheses, once beside what is no truth value.
    Case {
        name: "axiom_large",
        turns: &[
            Turn::Refused(Rule::Axiom("p *16", "q *16", "q *16"), Kind::TooLarge),
            Turn::Refused(Rule::Axiom("p *16", "q *16", "f"), Kind::NotBool),
            Turn::Steps(0),
        ],
    },
    // A large hypothesis more, once beside another conclusion.
    Case {
        name: "restate_large",
        turns: &[
            Turn::Makes(0, Rule::Given("p *16")),
            Turn::Refused(Rule::Restate(0, "q *16", "q *16", "p *16"), Kind::TooLarge),
            Turn::Refused(
                Rule::Restate(0, "p *16", "q *16", "q *16"),
                Kind::NotTheSequent,
            ),
            Turn::Steps(1),
        ],
    },
    // The left side of an equation lies one deeper than the right one.
    Case {
        name: "sym_deep",
        turns: &[
            Turn::Makes(0, Rule::Given("p q ^16379 =")),
            Turn::Refused(Rule::Sym(0), Kind::TooDeep),
            Turn::Steps(1),
        ],
    },
    // Sides of depth 16,383, once where the function takes no argument.
    Case {
        name: "app_thm_deep",
        turns: &[
            Turn::Makes(0, Rule::Refl("f")),
            Turn::Makes(1, Rule::Refl("p ^16378")),
            Turn::Makes(2, Rule::Refl("q")),
            Turn::Refused(Rule::AppThm(0, 1), Kind::TooDeep),
            Turn::Refused(Rule::AppThm(2, 1), Kind::TypeMismatch),
            Turn::Steps(3),
        ],
    },
    // Sides of depth 16,383, once over a variable of the hypotheses.
    Case {
        name: "abs_thm_deep",
        turns: &[
            Turn::Makes(0, Rule::Axiom("q", "q", "p ^16378 p ^16378 =")),
            Turn::Refused(Rule::AbsThm(b'p', 0), Kind::TooDeep),
            Turn::Refused(Rule::AbsThm(b'q', 0), Kind::VarInHyps),
            Turn::Steps(1),
        ],
    },
    // Hypotheses of 8,192 variables each, with p and q, once where the second says q and not p.
    Case {
        name: "eq_mp_many",
        turns: &[
            Turn::Keep("#8"),
            Turn::Keep("$8"),
            Turn::Makes(0, Rule::Axiom("&0", "&0", "p q =")),
            Turn::Makes(1, Rule::Axiom("&1", "&1", "p")),
            Turn::Makes(2, Rule::Axiom("&1", "&1", "q")),
            Turn::Refused(Rule::EqMp(0, 1), Kind::TooManyParams),
            Turn::Refused(Rule::EqMp(0, 2), Kind::NotAlike),
            Turn::Steps(3),
        ],
    },
    // 16,384 variables, which fit, with the hypotheses of both.
    Case {
        name: "prove_hyp_many",
        turns: &[
            Turn::Keep("#8"),
            Turn::Keep("$8"),
            Turn::Makes(0, Rule::Axiom("&0", "&0", "p")),
            Turn::Makes(1, Rule::Axiom("&1", "p", "p")),
            Turn::Refused(Rule::ProveHyp(0, 1), Kind::TooManyParams),
            Turn::Steps(2),
        ],
    },
];
