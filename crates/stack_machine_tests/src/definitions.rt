//! The words that define: each takes its symbols, and makes theorems that the article then states; or it is refused.
use crate::trials::{Case, Turn};
use common::Kind;
use hol_defs::SymbolKind;
use hol_spec::StepKind;

// The equations of two variables, v under 20 and w under 21, with the identity, under 22 and 23.
const EQUATIONS: &[u8] =
    b"\"v\" 6 ref var 20 def pop \"w\" 6 ref var 21 def pop 5 ref 20 ref varTerm appTerm 9 ref appTerm 22 def pop 5 ref 21 ref varTerm appTerm 9 ref appTerm 23 def pop";

// After the definition of a new type of truth values: the type under 20, its constants under 21 and 22, a truth value r under
// 23, the predicate under 24, equality of the new type under 25, and a variable a of it under 26.
const OF_THE_NEW_TYPE: &[u8] =
    b"\"two\" typeOp nil opType 20 def pop \"mk\" const \"->\" typeOp 0 ref 20 ref nil cons cons opType constTerm 21 def pop \"dest\" const \"->\" typeOp 20 ref 0 ref nil cons cons opType constTerm 22 def pop \"r\" 0 ref var varTerm 23 def pop 4 ref 8 ref absTerm 24 def pop \"=\" const \"->\" typeOp 20 ref \"->\" typeOp 20 ref 0 ref nil cons cons opType nil cons cons opType constTerm 25 def pop \"a\" 20 ref var varTerm 26 def pop";

// The laws over free variables, the second first: it is on top of the stack.
const SECOND_OVER_R: &[u8] =
    b"nil 3 ref 24 ref 23 ref appTerm appTerm 3 ref 22 ref 21 ref 23 ref appTerm appTerm appTerm 23 ref appTerm appTerm thm";

const FIRST_OVER_A: &[u8] =
    b"nil 25 ref 21 ref 22 ref 26 ref appTerm appTerm appTerm 26 ref appTerm thm";

/// The cases.
pub(crate) const CASES: [Case; 15] = [
    // c as the identity.
    Case {
        name: "definition",
        turns: &[
            Turn::Obey(b"\"c\" 9 ref defineConst"),
            Turn::Obey(b"nil 5 ref \"c\" const 6 ref constTerm appTerm 9 ref appTerm thm"),
            Turn::End,
            Turn::Made(&[], &[1], 2),
            Turn::By(0, StepKind::DefineConst, &[], 0),
            Turn::Taken(b"c", Some(SymbolKind::Defined), None),
        ],
    },
    // c as the identity, and then d as c.
    Case {
        name: "newer_constant",
        turns: &[
            Turn::Obey(
                b"\"c\" 9 ref defineConst \"d\" \"c\" const 6 ref constTerm 20 def defineConst",
            ),
            Turn::Obey(b"nil 5 ref \"d\" const 6 ref constTerm appTerm 20 ref appTerm thm"),
            Turn::End,
            Turn::Made(&[], &[2], 3),
            Turn::By(1, StepKind::DefineConst, &[], 0),
            Turn::Taken(b"d", Some(SymbolKind::Defined), None),
        ],
    },
    // A name that is taken by an input.
    Case {
        name: "definition_of_a_taken_name",
        turns: &[Turn::Refused(
            b"\"n\" const 0 ref constTerm pop \"n\" 9 ref defineConst",
            Kind::NameTaken,
        )],
    },
    // n as the variable p.
    Case {
        name: "definition_not_closed",
        turns: &[Turn::Refused(b"\"n\" 1 ref defineConst", Kind::NotClosed)],
    },
    // n as the equation of an identity at a type variable with itself.
    Case {
        name: "definition_with_a_type_variable",
        turns: &[
            Turn::Obey(
                b"\"a\" varType 20 def pop \"->\" typeOp 20 ref 20 ref nil cons cons opType 21 def",
            ),
            Turn::Obey(
                b"\"=\" const \"->\" typeOp 21 ref \"->\" typeOp 21 ref 0 ref nil cons cons opType",
            ),
            Turn::Obey(
                b"nil cons cons opType constTerm 22 def \"z\" 20 ref var 23 def 23 ref varTerm",
            ),
            Turn::Obey(b"absTerm 24 def"),
            Turn::Refused(
                b"\"n\" 22 ref 24 ref appTerm 24 ref appTerm defineConst",
                Kind::ExtraTypeVars,
            ),
        ],
    },
    // A theorem in place of a term.
    Case {
        name: "definition_of_a_theorem",
        turns: &[Turn::Refused(b"\"n\" 1 ref refl defineConst", Kind::WrongKind)],
    },
    // A term alone.
    Case {
        name: "definition_without_a_name",
        turns: &[Turn::Refused(b"9 ref defineConst", Kind::StackShort)],
    },
    // c for v and d for w, where both are the identity. The first of the constants is c.
    Case {
        name: "constant_list",
        turns: &[
            Turn::Obey(EQUATIONS),
            Turn::Obey(b"\"c\" 20 ref nil cons cons \"d\" 21 ref nil cons cons nil cons cons"),
            Turn::Obey(b"22 ref 23 ref nil cons cons 22 ref axiom defineConstList 24 def pop"),
            Turn::Obey(
                b"hdTl pop 6 ref constTerm 25 def 24 ref nil 5 ref 25 ref appTerm 9 ref appTerm thm",
            ),
            Turn::End,
            Turn::Made(&[0], &[2], 3),
            Turn::By(1, StepKind::DefineConstList, &[0], 0),
            Turn::Taken(b"c", Some(SymbolKind::Defined), None),
            Turn::Taken(b"d", Some(SymbolKind::Defined), None),
        ],
    },
    // c for v, and nothing for w.
    Case {
        name: "constant_list_too_short",
        turns: &[
            Turn::Obey(EQUATIONS),
            Turn::Obey(b"\"c\" 20 ref nil cons cons nil cons"),
            Turn::Refused(
                b"22 ref 23 ref nil cons cons 22 ref axiom defineConstList",
                Kind::BadDefinitionList,
            ),
        ],
    },
    // No constants, for a theorem without variables.
    Case {
        name: "no_constants",
        turns: &[
            Turn::Obey(b"nil 9 ref refl defineConstList nil 5 ref 9 ref appTerm 9 ref appTerm thm"),
            Turn::End,
            Turn::Made(&[], &[2], 3),
            Turn::By(1, StepKind::DefineConstList, &[0], 0),
        ],
    },
    // A type with an element for each truth value that is itself.
    Case {
        name: "new_type",
        turns: &[
            Turn::Obey(b"\"two\" \"mk\" \"dest\" nil nil 4 ref 8 ref absTerm 1 ref appTerm axiom"),
            Turn::Obey(b"defineTypeOp"),
            Turn::End,
            Turn::Made(&[0], &[], 3),
            Turn::By(1, StepKind::FirstLaw, &[0], 0),
            Turn::By(2, StepKind::SecondLaw, &[0], 0),
            Turn::Taken(b"two", None, Some(SymbolKind::Defined)),
            Turn::Taken(b"mk", Some(SymbolKind::Defined), None),
            Turn::Taken(b"dest", Some(SymbolKind::Defined), None),
        ],
    },
    // The same type in a further article, of version 5, which states its laws over free variables.
    Case {
        name: "new_type_in_version_5",
        turns: &[
            Turn::End,
            Turn::BeginBody,
            Turn::Obey(b"\"two\" \"mk\" \"dest\" nil nil 4 ref 8 ref absTerm 1 ref appTerm axiom"),
            Turn::Obey(b"defineTypeOp"),
            Turn::Obey(OF_THE_NEW_TYPE),
            Turn::Obey(SECOND_OVER_R),
            Turn::Obey(FIRST_OVER_A),
            Turn::End,
            Turn::Made(&[0], &[3, 4], 5),
            Turn::By(1, StepKind::FirstLaw, &[0], 0),
            Turn::By(2, StepKind::SecondLaw, &[0], 0),
        ],
    },
    // A type variable that the predicate lacks.
    Case {
        name: "new_type_with_a_type_variable",
        turns: &[
            Turn::Obey(b"\"two\" \"mk\" \"dest\" \"a\" nil cons"),
            Turn::Refused(
                b"nil 4 ref 8 ref absTerm 1 ref appTerm axiom defineTypeOp",
                Kind::BadTypeVars,
            ),
        ],
    },
    // One name for both constants.
    Case {
        name: "new_type_of_twice_a_name",
        turns: &[
            Turn::Obey(b"\"two\" \"mk\" \"mk\" nil"),
            Turn::Refused(
                b"nil 4 ref 8 ref absTerm 1 ref appTerm axiom defineTypeOp",
                Kind::NameTaken,
            ),
        ],
    },
    // A theorem under a hypothesis.
    Case {
        name: "new_type_under_a_hypothesis",
        turns: &[
            Turn::Obey(b"\"two\" \"mk\" \"dest\" nil"),
            Turn::Refused(
                b"2 ref nil cons 4 ref 8 ref absTerm 1 ref appTerm axiom defineTypeOp",
                Kind::NotTheSequent,
            ),
        ],
    },
];
