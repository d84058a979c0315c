//! Definitions of constants and of type operators.
use crate::turns::{Case, Rule, Turn};
use common::Kind;
use hol_spec::{StepKind, Version};

/// The cases.
pub(crate) const CASES: [Case; 4] = [
    // c for \x. x, and then d for c.
    Case {
        name: "newer_constant",
        turns: &[
            Turn::Makes(0, Rule::DefineConst(b"c", "x \\x")),
            Turn::Makes(1, Rule::DefineConst(b"d", "x \\x !c")),
            Turn::Defined(0, b"c"),
            Turn::Defined(2, b"d"),
            Turn::StepAt(1, 0),
            Turn::StepAt(3, 1),
            Turn::By(0, StepKind::DefineConst, &[]),
            Turn::Equates(0, &[], "x \\x !c", "x \\x"),
            Turn::Equates(1, &[], "x \\x !c !d", "x \\x !c"),
        ],
    },
    // An input n, a free variable, and the type variable of (\z. z) = (\z. z), each alone.
    Case {
        name: "constant_refused",
        turns: &[
            Turn::UsesConst(b"n"),
            Turn::Refused(Rule::DefineConst(b"n", "p \\p"), Kind::NameTaken),
            Turn::Refused(Rule::DefineConst(b"m", "p"), Kind::NotClosed),
            Turn::Refused(
                Rule::DefineConst(b"m", ":z /z :z /z ~"),
                Kind::ExtraTypeVars,
            ),
            Turn::Steps(0),
            Turn::Things(1),
        ],
    },
    // n for the functions that are equal to \x. x: it is noted with the second step, from which it and its laws are made.
    Case {
        name: "type_operator",
        turns: &[
            Turn::Makes(0, Rule::Refl("x")),
            Turn::Makes(1, Rule::Refl("x \\x")),
            Turn::Makes(2, Rule::DefineTypeOp(1, Version::Six)),
            Turn::DefinedFrom(2, b"n", 1),
            Turn::StepAt(3, 2),
            Turn::StepAt(4, 3),
            Turn::By(2, StepKind::FirstLaw, &[1]),
            Turn::By(3, StepKind::SecondLaw, &[1]),
            Turn::Version(2, Version::Six),
            Turn::Version(3, Version::Six),
            Turn::Things(5),
        ],
    },
    // The same in an article of version 5: the laws are `abs (rep a) = a` and `(\x. x) = r = (rep (abs r) = r)`, over free
    // variables.
    Case {
        name: "free_type_operator",
        turns: &[
            Turn::Makes(0, Rule::Refl("x \\x")),
            Turn::Makes(1, Rule::DefineTypeOp(0, Version::Five)),
            Turn::Version(1, Version::Five),
            Turn::Version(2, Version::Five),
            Turn::By(1, StepKind::FirstLaw, &[0]),
            Turn::By(2, StepKind::SecondLaw, &[0]),
            Turn::Equates(1, &[], "%a x \\x ?r > %a <", "%a"),
            Turn::Equates(
                2,
                &[],
                "x \\x x \\x ?r ~",
                "x \\x ?r %a < x \\x ?r > x \\x ?r ~",
            ),
            Turn::Things(4),
        ],
    },
];
