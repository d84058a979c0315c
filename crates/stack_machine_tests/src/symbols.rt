//! Constants and operators that an article uses are taken.
use crate::trials::{Case, Turn};
use hol_defs::SymbolKind;

/// The cases.
pub(crate) const CASES: [Case; 4] = [
    // The constant f, an input.
    Case {
        name: "constant",
        turns: &[
            Turn::Taken(b"f", None, None),
            Turn::Obey(b"\"f\" const 6 ref constTerm"),
            Turn::Taken(b"f", Some(SymbolKind::Input), None),
        ],
    },
    // The operator list, an input.
    Case {
        name: "operator",
        turns: &[
            Turn::Taken(b"list", None, None),
            Turn::Obey(b"\"list\" typeOp 0 ref nil cons opType"),
            Turn::Taken(b"list", None, Some(SymbolKind::Input)),
        ],
    },
    // The operator bool, a primitive.
    Case {
        name: "primitive",
        turns: &[Turn::Taken(b"bool", None, Some(SymbolKind::Primitive))],
    },
    // The variable p, which is no symbol.
    Case {
        name: "variable",
        turns: &[Turn::Taken(b"p", None, None)],
    },
];
