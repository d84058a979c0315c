//! Types and terms have at most 1,048,576 nodes and a depth of at most 16,384, whatever command makes them.
use crate::bench::Part;
use crate::trials::{Trial, comes_out};
use article_read::LineFault;
use common::Kind;
use std::alloc::Global;
use std::test::Fail;

// The beginning of an article.
const BEGIN: Part = (1, b"6\nversion\n");
// The type `bool`.
const BOOL: Part = (1, b"\"bool\"\ntypeOp\nnil\nopType\n");
// The type on the stack goes under the key 0.
const KEEP: Part = (1, b"0\ndef\npop\n");

const KEPT: Part = (1, b"0\nref\n");
// The type under the key 0, of size 1, becomes one of size 1,048,575.
const GROW: Part = (
    19,
    b"\"->\"\ntypeOp\n0\nref\n0\nref\nnil\ncons\ncons\nopType\n0\ndef\npop\n",
);
// Between these, a type becomes `list` over it, or so many times that.
const OPEN: Part = (1, b"\"list\"\ntypeOp\n");

const CLOSE: Part = (1, b"nil\ncons\nopType\n");

const OPEN_ALL: Part = (16383, b"\"list\"\ntypeOp\n");

const CLOSE_ALL: Part = (16383, b"nil\ncons\nopType\n");

const NAME: Part = (1, b"\"x\"\n");

const CONST: Part = (1, b"\"c\"\nconst\n");

const VAR: Part = (1, b"var\n");

const VAR_TERM: Part = (1, b"var\nvarTerm\n");

const CONST_TERM: Part = (1, b"constTerm\n");

const ABS_TERM: Part = (1, b"absTerm\n");
// `f : bool -> bool` goes under the key 1.
const UNARY: Part = (
    1,
    b"\"f\"\nconst\n\"->\"\ntypeOp\n0\nref\n0\nref\nnil\ncons\ncons\nopType\n1\ndef\nconstTerm\n1\ndef\npop\n",
);
// `g : bool -> bool -> bool` goes under the key 2.
const BINARY: Part = (
    1,
    b"\"g\"\nconst\n\"->\"\ntypeOp\n0\nref\n\"->\"\ntypeOp\n0\nref\n0\nref\nnil\ncons\ncons\nopType\nnil\ncons\ncons\nopType\nconstTerm\n2\ndef\npop\n",
);
// `p : bool` goes under the key 3.
const ATOM: Part = (1, b"\"p\"\n0\nref\nvar\nvarTerm\n3\ndef\npop\n");

const ATOM_KEPT: Part = (1, b"3\nref\n");
// The term under the key 3 becomes `g` over it and itself: first of size 655,352, and then of 1,310,712.
const GROW_TERM: Part = (
    16,
    b"2\nref\n3\nref\nappTerm\n3\nref\nappTerm\n3\ndef\npop\n",
);

const TWICE: Part = (1, b"2\nref\n3\nref\nappTerm\n3\nref\nappTerm\n");

/// An article of these parts, and why its last line is refused, if it is.
#[derive(Clone, Copy)]
struct Limit {
    name: &'static str,
    parts: &'static [Part<'static>],
    refused: Option<Kind>,
}

// The largest and the deepest.
const WITHIN: [Limit; 3] = [
    Limit {
        name: "largest_type",
        parts: &[BEGIN, BOOL, KEEP, GROW, OPEN, KEPT, CLOSE],
        refused: None,
    },
    Limit {
        name: "deepest_type",
        parts: &[BEGIN, OPEN_ALL, BOOL, CLOSE_ALL],
        refused: None,
    },
    Limit {
        name: "deepest_term",
        parts: &[
            BEGIN,
            BOOL,
            KEEP,
            UNARY,
            ATOM,
            (16380, b"1\nref\n"),
            ATOM_KEPT,
            (16380, b"appTerm\n"),
        ],
        refused: None,
    },
];

// Types past a limit.
const TYPES: [Limit; 6] = [
    Limit {
        name: "large_type",
        parts: &[BEGIN, BOOL, KEEP, GROW, OPEN, OPEN, KEPT, CLOSE, CLOSE],
        refused: Some(Kind::TooLarge),
    },
    Limit {
        name: "deep_type",
        parts: &[BEGIN, OPEN, OPEN_ALL, BOOL, CLOSE_ALL, CLOSE],
        refused: Some(Kind::TooDeep),
    },
    Limit {
        name: "large_constant",
        parts: &[
            BEGIN, BOOL, KEEP, GROW, CONST, OPEN, KEPT, CLOSE, CONST_TERM,
        ],
        refused: Some(Kind::TooLarge),
    },
    Limit {
        name: "deep_constant",
        parts: &[BEGIN, CONST, OPEN_ALL, BOOL, CLOSE_ALL, CONST_TERM],
        refused: Some(Kind::TooDeep),
    },
    Limit {
        name: "large_variable",
        parts: &[BEGIN, BOOL, KEEP, GROW, NAME, OPEN, KEPT, CLOSE, VAR_TERM],
        refused: Some(Kind::TooLarge),
    },
    Limit {
        name: "deep_variable",
        parts: &[BEGIN, NAME, OPEN_ALL, BOOL, CLOSE_ALL, VAR_TERM],
        refused: Some(Kind::TooDeep),
    },
];

// Terms past a limit.
const TERMS: [Limit; 4] = [
    Limit {
        name: "large_abstraction",
        parts: &[
            BEGIN, BOOL, KEEP, GROW, NAME, KEPT, VAR, NAME, BOOL, VAR_TERM, ABS_TERM,
        ],
        refused: Some(Kind::TooLarge),
    },
    Limit {
        name: "deep_abstraction",
        parts: &[
            BEGIN, NAME, OPEN_ALL, BOOL, CLOSE_ALL, VAR, NAME, BOOL, VAR_TERM, ABS_TERM,
        ],
        refused: Some(Kind::TooDeep),
    },
    Limit {
        name: "large_application",
        parts: &[BEGIN, BOOL, KEEP, BINARY, ATOM, GROW_TERM, TWICE],
        refused: Some(Kind::TooLarge),
    },
    Limit {
        name: "deep_application",
        parts: &[
            BEGIN,
            BOOL,
            KEEP,
            UNARY,
            ATOM,
            (16381, b"1\nref\n"),
            ATOM_KEPT,
            (16381, b"appTerm\n"),
        ],
        refused: Some(Kind::TooDeep),
    },
];

// What is tried of an article.
fn trial(limit: Limit) -> Trial<'static> {
    match limit.refused {
        Some(kind) => Trial::Ends(limit.parts, kind),
        None => Trial::Passes(limit.parts),
    }
}

// The name of the first article that comes out otherwise.
fn first_wrong(alloc: Global, limits: &[Limit]) -> Result<Option<&'static str>, LineFault> {
    for limit in limits {
        if !comes_out(alloc, trial(*limit))? {
            return Ok(Some(limit.name));
        }
    }
    Ok(None)
}

#[test]
fn the_largest_and_the_deepest_are_made(rt: HostRuntime) -> Result<(), Fail> {
    assert_eq!(rt; first_wrong(rt.alloc(), &WITHIN)?, None);
    Ok(())
}

#[test]
fn types_past_a_limit_are_refused(rt: HostRuntime) -> Result<(), Fail> {
    assert_eq!(rt; first_wrong(rt.alloc(), &TYPES)?, None);
    Ok(())
}

#[test]
fn terms_past_a_limit_are_refused(rt: HostRuntime) -> Result<(), Fail> {
    assert_eq!(rt; first_wrong(rt.alloc(), &TERMS)?, None);
    Ok(())
}
