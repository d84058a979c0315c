//! What articles assume and export: what is known is met, and what is new is recorded.
use crate::trials::{Case, Turn};
use common::Kind;
use hol_spec::StepKind;

/// The cases.
pub(crate) const CASES: [Case; 11] = [
    // p under q, assumed and exported.
    Case {
        name: "axiom",
        turns: &[
            Turn::Obey(b"2 ref nil cons 1 ref axiom 2 ref nil cons 1 ref thm"),
            Turn::End,
            Turn::Made(&[0], &[1], 2),
            Turn::By(0, StepKind::Axiom, &[], 1),
        ],
    },
    Case {
        name: "axiom_refused",
        turns: &[Turn::Refused(b"nil 3 ref axiom", Kind::NotBool)],
    },
    // q under p and q, and again under q and p.
    Case {
        name: "axiom_met",
        turns: &[
            Turn::Obey(
                b"1 ref 2 ref nil cons cons 2 ref axiom 2 ref 1 ref nil cons cons 2 ref axiom",
            ),
            Turn::End,
            Turn::Made(&[0], &[], 2),
            Turn::By(1, StepKind::Restate, &[0], 2),
        ],
    },
    // p, and then p under q: what says more doesn't meet it.
    Case {
        name: "axiom_of_more_hypotheses",
        turns: &[
            Turn::Obey(b"nil 1 ref axiom 2 ref nil cons 1 ref axiom"),
            Turn::End,
            Turn::Made(&[0, 1], &[], 2),
            Turn::By(1, StepKind::Axiom, &[], 1),
        ],
    },
    // p = p twice: the second is no export.
    Case {
        name: "exported_again",
        turns: &[
            Turn::Obey(b"1 ref refl nil 8 ref thm 1 ref refl nil 8 ref thm"),
            Turn::End,
            Turn::Made(&[], &[1], 3),
            Turn::By(2, StepKind::Refl, &[], 0),
        ],
    },
    // p = p, and then under q.
    Case {
        name: "exported_with_a_hypothesis",
        turns: &[
            Turn::Obey(b"1 ref refl nil 8 ref thm 1 ref refl 2 ref nil cons 8 ref thm"),
            Turn::End,
            Turn::Made(&[], &[1, 3], 4),
            Turn::By(3, StepKind::Restate, &[2], 1),
        ],
    },
    // p under p, without its hypothesis.
    Case {
        name: "export_refused",
        turns: &[Turn::Refused(b"1 ref assume nil 1 ref thm", Kind::NotTheSequent)],
    },
    // q = q as p = p, which is exported already.
    Case {
        name: "export_of_another",
        turns: &[Turn::Refused(
            b"1 ref refl nil 8 ref thm 2 ref refl nil 8 ref thm",
            Kind::NotTheSequent,
        )],
    },
    // What an article exports, the next assumes, with its hypotheses in another order: it is met.
    Case {
        name: "export_meets",
        turns: &[
            Turn::Obey(b"1 ref assume 1 ref 2 ref nil cons cons 1 ref thm"),
            Turn::End,
            Turn::Begin,
            Turn::Obey(b"2 ref 1 ref nil cons cons 1 ref axiom"),
            Turn::End,
            Turn::Made(&[], &[1], 3),
            Turn::By(2, StepKind::Restate, &[1], 2),
        ],
    },
    // The same articles the other way round: what is assumed first is recorded.
    Case {
        name: "assumed_before_the_export",
        turns: &[
            Turn::Obey(b"2 ref 1 ref nil cons cons 1 ref axiom"),
            Turn::End,
            Turn::Begin,
            Turn::Obey(b"1 ref assume 1 ref 2 ref nil cons cons 1 ref thm"),
            Turn::End,
            Turn::Made(&[0], &[2], 3),
            Turn::By(2, StepKind::Restate, &[1], 2),
        ],
    },
    // An article doesn't meet its own assumption by its export.
    Case {
        name: "own_export",
        turns: &[
            Turn::Obey(b"1 ref refl nil 8 ref thm nil 8 ref axiom"),
            Turn::End,
            Turn::Made(&[2], &[1], 3),
            Turn::By(2, StepKind::Axiom, &[], 0),
        ],
    },
];
