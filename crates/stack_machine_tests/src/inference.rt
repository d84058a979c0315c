//! The words of inference: each makes its theorem, which the article then states and exports.
use crate::trials::{Case, Turn};
use common::Kind;
use hol_spec::StepKind;

/// The cases.
pub(crate) const CASES: [Case; 27] = [
    // p = p.
    Case {
        name: "refl",
        turns: &[
            Turn::Obey(b"1 ref refl nil 8 ref thm"),
            Turn::End,
            Turn::Made(&[], &[1], 2),
            Turn::By(0, StepKind::Refl, &[], 0),
        ],
    },
    // p under p.
    Case {
        name: "assume",
        turns: &[
            Turn::Obey(b"1 ref assume 1 ref nil cons 1 ref thm"),
            Turn::End,
            Turn::Made(&[], &[1], 2),
            Turn::By(0, StepKind::Assume, &[], 1),
        ],
    },
    Case {
        name: "assume_refused",
        turns: &[Turn::Refused(b"3 ref assume", Kind::NotBool)],
    },
    // q under p = q and p.
    Case {
        name: "eq_mp",
        turns: &[
            Turn::Obey(b"7 ref assume 1 ref assume eqMp 7 ref 1 ref nil cons cons 2 ref thm"),
            Turn::End,
            Turn::Made(&[], &[3], 4),
            Turn::By(2, StepKind::EqMp, &[0, 1], 2),
        ],
    },
    // p = q and q.
    Case {
        name: "eq_mp_refused",
        turns: &[Turn::Refused(b"7 ref assume 2 ref assume eqMp", Kind::NotAlike)],
    },
    // One theorem alone.
    Case {
        name: "eq_mp_short",
        turns: &[Turn::Refused(b"1 ref assume eqMp", Kind::StackShort)],
    },
    // The identity is itself.
    Case {
        name: "abs_thm",
        turns: &[
            Turn::Obey(b"4 ref 1 ref refl absThm nil 5 ref 9 ref appTerm 9 ref appTerm thm"),
            Turn::End,
            Turn::Made(&[], &[2], 3),
            Turn::By(1, StepKind::AbsThm, &[0], 0),
        ],
    },
    // A variable of a hypothesis.
    Case {
        name: "abs_thm_refused",
        turns: &[Turn::Refused(b"4 ref 8 ref assume absThm", Kind::VarInHyps)],
    },
    // The identity of p is itself.
    Case {
        name: "app_thm",
        turns: &[
            Turn::Obey(b"9 ref refl 1 ref refl appThm nil 3 ref 9 ref 1 ref appTerm appTerm"),
            Turn::Obey(b"9 ref 1 ref appTerm appTerm thm"),
            Turn::End,
            Turn::Made(&[], &[3], 4),
            Turn::By(2, StepKind::AppThm, &[0, 1], 0),
        ],
    },
    // What is no function.
    Case {
        name: "app_thm_refused",
        turns: &[Turn::Refused(b"1 ref refl 1 ref refl appThm", Kind::TypeMismatch)],
    },
    // p = q under p and q.
    Case {
        name: "deduct_antisym",
        turns: &[
            Turn::Obey(
                b"1 ref assume 2 ref assume deductAntisym 1 ref 2 ref nil cons cons 7 ref thm",
            ),
            Turn::End,
            Turn::Made(&[], &[3], 4),
            Turn::By(2, StepKind::DeductAntisym, &[0, 1], 2),
        ],
    },
    // The identity of p is p.
    Case {
        name: "beta_conv",
        turns: &[
            Turn::Obey(b"9 ref 1 ref appTerm betaConv nil 3 ref 9 ref 1 ref appTerm appTerm"),
            Turn::Obey(b"1 ref appTerm thm"),
            Turn::End,
            Turn::Made(&[], &[1], 2),
            Turn::By(0, StepKind::BetaConv, &[], 0),
        ],
    },
    Case {
        name: "beta_conv_refused",
        turns: &[Turn::Refused(b"1 ref betaConv", Kind::NotRedex)],
    },
    // q = p under p = q.
    Case {
        name: "sym",
        turns: &[
            Turn::Obey(b"7 ref assume sym 7 ref nil cons 3 ref 2 ref appTerm 1 ref appTerm thm"),
            Turn::End,
            Turn::Made(&[], &[2], 3),
            Turn::By(1, StepKind::Sym, &[0], 1),
        ],
    },
    Case {
        name: "sym_refused",
        turns: &[Turn::Refused(b"1 ref assume sym", Kind::NotEquation)],
    },
    // A term where a theorem must be.
    Case {
        name: "sym_of_a_term",
        turns: &[Turn::Refused(b"1 ref sym", Kind::WrongKind)],
    },
    // p = p under p = q, from p = q and q = p.
    Case {
        name: "trans",
        turns: &[
            Turn::Obey(b"7 ref assume 7 ref assume sym trans 7 ref nil cons 8 ref thm"),
            Turn::End,
            Turn::Made(&[], &[4], 5),
            Turn::By(3, StepKind::Trans, &[0, 2], 1),
        ],
    },
    // p = q twice.
    Case {
        name: "trans_refused",
        turns: &[Turn::Refused(b"7 ref assume 7 ref assume trans", Kind::NotAlike)],
    },
    // q under p and p = q, where p is proved from itself.
    Case {
        name: "prove_hyp",
        turns: &[
            Turn::Obey(b"1 ref assume 7 ref assume 1 ref assume eqMp proveHyp"),
            Turn::Obey(b"1 ref 7 ref nil cons cons 2 ref thm"),
            Turn::End,
            Turn::Made(&[], &[5], 6),
            Turn::By(4, StepKind::ProveHyp, &[0, 3], 2),
        ],
    },
    // q under q, from p under p.
    Case {
        name: "subst",
        turns: &[
            Turn::Obey(b"nil 4 ref 2 ref nil cons cons nil cons nil cons cons 1 ref assume subst"),
            Turn::Obey(b"2 ref nil cons 2 ref thm"),
            Turn::End,
            Turn::Made(&[], &[2], 3),
            Turn::By(1, StepKind::Subst, &[0], 1),
        ],
    },
    // x = x at truth values, from x = x at a type variable.
    Case {
        name: "subst_of_types",
        turns: &[
            Turn::Obey(b"\"a\" 0 ref nil cons cons nil cons nil nil cons cons"),
            Turn::Obey(b"\"x\" \"a\" varType var varTerm refl subst"),
            Turn::Obey(
                b"nil 3 ref \"x\" 0 ref var varTerm appTerm \"x\" 0 ref var varTerm appTerm thm",
            ),
            Turn::End,
            Turn::Made(&[], &[2], 3),
            Turn::By(1, StepKind::Subst, &[0], 0),
        ],
    },
    // A term of another type than the variable.
    Case {
        name: "subst_refused",
        turns: &[Turn::Refused(
            b"nil 4 ref 3 ref nil cons cons nil cons nil cons cons 1 ref assume subst",
            Kind::BadSubst,
        )],
    },
    // The same lists put again: q under q, and then q = q under itself.
    Case {
        name: "subst_again",
        turns: &[
            Turn::Obey(b"nil 4 ref 2 ref nil cons cons nil cons nil cons cons 10 def"),
            Turn::Obey(b"1 ref assume subst 2 ref nil cons 2 ref thm"),
            Turn::Obey(b"10 ref 7 ref assume subst 3 ref 2 ref appTerm 2 ref appTerm 11 def"),
            Turn::Obey(b"nil cons 11 ref thm"),
            Turn::End,
            Turn::Made(&[], &[2, 5], 6),
            Turn::By(1, StepKind::Subst, &[0], 1),
            Turn::By(4, StepKind::Subst, &[3], 1),
        ],
    },
    // q for p and p = p for p by turns: q under q; p = p under itself; q = q under itself; and (p = p) = q under itself.
    Case {
        name: "subst_by_turns",
        turns: &[
            Turn::Obey(b"nil 4 ref 2 ref nil cons cons nil cons nil cons cons 10 def pop"),
            Turn::Obey(b"nil 4 ref 8 ref nil cons cons nil cons nil cons cons 11 def pop"),
            Turn::Obey(b"10 ref 1 ref assume subst 2 ref nil cons 2 ref thm"),
            Turn::Obey(b"11 ref 1 ref assume subst 8 ref nil cons 8 ref thm"),
            Turn::Obey(b"10 ref 8 ref assume subst 3 ref 2 ref appTerm 2 ref appTerm 12 def"),
            Turn::Obey(b"nil cons 12 ref thm"),
            Turn::Obey(b"11 ref 7 ref assume subst 3 ref 8 ref appTerm 2 ref appTerm 13 def"),
            Turn::Obey(b"nil cons 13 ref thm"),
            Turn::End,
            Turn::Made(&[], &[2, 5, 8, 11], 12),
            Turn::By(7, StepKind::Subst, &[6], 1),
            Turn::By(10, StepKind::Subst, &[9], 1),
        ],
    },
    // p and q for each other, and then the tail of the same list alone, q for p: q = p and q = q, from p = q.
    Case {
        name: "subst_by_a_tail",
        turns: &[
            Turn::Obey(b"4 ref 2 ref nil cons cons nil cons 10 def pop"),
            Turn::Obey(b"\"q\" 0 ref var 1 ref nil cons cons 10 ref cons 11 def pop"),
            Turn::Obey(b"nil 11 ref nil cons cons 7 ref assume subst"),
            Turn::Obey(b"3 ref 2 ref appTerm 1 ref appTerm 12 def nil cons 12 ref thm"),
            Turn::Obey(b"nil 10 ref nil cons cons 7 ref assume subst"),
            Turn::Obey(b"3 ref 2 ref appTerm 2 ref appTerm 13 def nil cons 13 ref thm"),
            Turn::End,
            Turn::Made(&[], &[2, 5], 6),
            Turn::By(1, StepKind::Subst, &[0], 1),
            Turn::By(4, StepKind::Subst, &[3], 1),
        ],
    },
    // A term of another type than the variable, put twice.
    Case {
        name: "subst_refused_again",
        turns: &[
            Turn::Refused(
                b"nil 4 ref 3 ref nil cons cons nil cons nil cons cons 1 ref assume subst",
                Kind::BadSubst,
            ),
            Turn::Refused(b"subst", Kind::BadSubst),
        ],
    },
    // A list that is no pair of lists.
    Case {
        name: "subst_of_no_pairs",
        turns: &[Turn::Refused(b"nil 1 ref assume subst", Kind::WrongKind)],
    },
];
