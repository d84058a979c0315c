//! Each refusal names a line and a kind.
use crate::trials::{Trial, comes_out};
use common::Kind;
use std::test::Fail;

// Articles by name, the line at which each is refused, and for what reason.
const REFUSED: [(&str, &[u8], u64, Kind); 20] = [
    // `version` elsewhere than after the number 6 as the first command.
    ("beginnings_first", b"version\n", 1, Kind::VersionPlace),
    (
        "beginnings_other_number",
        b"5\nversion\n",
        2,
        Kind::VersionPlace,
    ),
    (
        "beginnings_third",
        b"6\n6\nversion\n",
        3,
        Kind::VersionPlace,
    ),
    (
        "beginnings_again",
        b"6\nversion\nversion\n",
        3,
        Kind::VersionPlace,
    ),
    // What is read.
    (
        "lines_number",
        b"6\nversion\n9223372036854775808\n",
        3,
        Kind::NumberRange,
    ),
    ("lines_line", b"6\nversion\n-\n", 3, Kind::BadLine),
    // A stack without the operands.
    (
        "short_stacks_key",
        b"6\nversion\nref\n",
        3,
        Kind::StackShort,
    ),
    (
        "short_stacks_popped",
        b"6\nversion\nnil\n0\ndef\npop\npop\n",
        7,
        Kind::StackShort,
    ),
    (
        "short_stacks_pragma",
        b"6\nversion\nnil\npragma\npragma\n",
        5,
        Kind::StackShort,
    ),
    (
        "short_stacks_head",
        b"6\nversion\nnil\ncons\n",
        4,
        Kind::StackShort,
    ),
    // Operands of another kind.
    (
        "other_kinds_key",
        b"6\nversion\nnil\nref\n",
        4,
        Kind::WrongKind,
    ),
    (
        "other_kinds_argument",
        b"6\nversion\n\"list\"\ntypeOp\nnil\nnil\ncons\nopType\n",
        8,
        Kind::WrongKind,
    ),
    (
        "other_kinds_body",
        b"6\nversion\nnil\n\"x\"\nabsTerm\n",
        5,
        Kind::WrongKind,
    ),
    // Numbers under which nothing is kept, and lists without a head.
    (
        "keys_and_lists_never",
        b"6\nversion\n7\nref\n",
        4,
        Kind::NoSuchKey,
    ),
    (
        "keys_and_lists_removed",
        b"6\nversion\nnil\n0\ndef\n0\nremove\n0\nref\n",
        9,
        Kind::NoSuchKey,
    ),
    (
        "keys_and_lists_empty",
        b"6\nversion\nnil\nhdTl\n",
        4,
        Kind::EmptyList,
    ),
    (
        "keys_and_lists_tail",
        b"6\nversion\n1\nnil\ncons\nhdTl\nhdTl\n",
        7,
        Kind::EmptyList,
    ),
    // Types and terms that are none.
    (
        "typing_arity",
        b"6\nversion\n\"bool\"\ntypeOp\n\"a\"\nvarType\nnil\ncons\nopType\n",
        9,
        Kind::BadArity,
    ),
    (
        "typing_constant",
        b"6\nversion\n\"=\"\nconst\n\"bool\"\ntypeOp\nnil\nopType\nconstTerm\n",
        9,
        Kind::BadConstType,
    ),
    (
        "typing_application",
        b"6\nversion\n\"p\"\n\"bool\"\ntypeOp\nnil\nopType\nvar\nvarTerm\n0\ndef\n0\nref\nappTerm\n",
        14,
        Kind::TypeMismatch,
    ),
];

#[test]
fn articles_are_refused_at_a_line(rt: HostRuntime) -> Result<(), Fail> {
    for (name, text, line, kind) in REFUSED {
        let right = comes_out(rt.alloc(), Trial::Stops(text, line, kind))?;
        assert!(rt; right, "{name}");
    }
    Ok(())
}
