//! Articles that a machine reads and obeys.
use crate::trials::{Trial, comes_out};
use std::test::Fail;

// An article of every command that builds.
const BUILDING: &[u8] =
    b"6\nversion\n\"bool\"\ntypeOp\nnil\nopType\n0\ndef\npop\n\"x\"\n0\nref\nvar\n1\ndef\n1\nref\nvarTerm\nabsTerm\n\"x\"\n0\nref\nvar\nvarTerm\nappTerm\npop\n\"->\"\ntypeOp\n0\nref\n0\nref\nnil\ncons\ncons\nopType\n2\ndef\npop\n\"f\"\nconst\n2\nref\nconstTerm\npop\n\"list\"\ntypeOp\n\"a\"\nvarType\nnil\ncons\nopType\npop\n7\nnil\ncons\nhdTl\npop\npragma\n1\nremove\npop\n";

#[test]
fn every_command_is_obeyed(rt: HostRuntime) -> Result<(), Fail> {
    for size in [1, 2, 3, 4096] {
        assert!(rt;
            comes_out(rt.alloc(), Trial::Twice(BUILDING, size))?,
            "pieces of {size}"
        );
    }
    Ok(())
}

// An article whose first command is the number 6, which a list takes; and one that begins with a name.
const SIX_LISTED: &[u8] = b"6\nnil\ncons\nhdTl\npop\npop\n";

const NAME_FIRST: &[u8] = b"\"bool\"\ntypeOp\nnil\nopType\n0\ndef\npop\n";

// Each is obeyed twice, so the second begins where the first did.
#[test]
fn an_article_of_version_5_needs_no_version(rt: HostRuntime) -> Result<(), Fail> {
    let alloc = rt.alloc();
    assert!(rt; comes_out(alloc, Trial::Twice(b"", 1))?);
    assert!(rt; comes_out(alloc, Trial::Twice(b"6\n", 1))?);
    assert!(rt; comes_out(alloc, Trial::Twice(SIX_LISTED, 1))?);
    assert!(rt; comes_out(alloc, Trial::Twice(NAME_FIRST, 1))?);
    Ok(())
}
