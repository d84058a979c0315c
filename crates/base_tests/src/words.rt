//! Thirty-four words are read, and no other.
use crate::reading::{read, refused};
use article_read::{Item, Word};
use common::Kind;
use std::test::Fail;

#[test]
fn all_words_are_read(rt: HostRuntime) -> Result<(), Fail> {
    let text =
        b"version\nnil\ncons\nhdTl\ntypeOp\nvarType\nopType\nconst\nconstTerm\nvar\nvarTerm\nappTerm\nabsTerm\ndef\nref\nremove\npop\npragma\nrefl\nassume\neqMp\nabsThm\nappThm\ndeductAntisym\nbetaConv\nsym\ntrans\nproveHyp\nsubst\ndefineConst\ndefineConstList\ndefineTypeOp\naxiom\nthm".as_slice();
    let words = [
        Word::Version,
        Word::Nil,
        Word::Cons,
        Word::HdTl,
        Word::TypeOp,
        Word::VarType,
        Word::OpType,
        Word::Const,
        Word::ConstTerm,
        Word::Var,
        Word::VarTerm,
        Word::AppTerm,
        Word::AbsTerm,
        Word::Def,
        Word::Ref,
        Word::Remove,
        Word::Pop,
        Word::Pragma,
        Word::Refl,
        Word::Assume,
        Word::EqMp,
        Word::AbsThm,
        Word::AppThm,
        Word::DeductAntisym,
        Word::BetaConv,
        Word::Sym,
        Word::Trans,
        Word::ProveHyp,
        Word::Subst,
        Word::DefineConst,
        Word::DefineConstList,
        Word::DefineTypeOp,
        Word::Axiom,
        Word::Thm,
    ];
    let mut commands = Vec::new(rt.alloc());
    assert_eq!(rt; read(rt.alloc(), text, 4096, &mut commands), Ok(34));
    assert_eq!(rt; commands.len(), 34);
    for (command, word) in commands.iter().zip(words) {
        assert!(rt; command.item == Item::Word(word), "at {word:?}");
    }
    Ok(())
}

#[test]
fn no_other_word_is_read(rt: HostRuntime) -> Result<(), Fail> {
    let text =
        b"Assume axioms trans0 symm eqmp substs betaconv absThms appthm deductAntiSym defineConsts defineTypeOps prove hdtl VarType absTer pops \"p".as_slice();
    for word in text.split(|byte| *byte == b' ') {
        let mut commands = Vec::new(rt.alloc());
        assert_eq!(rt;
            read(rt.alloc(), word, 4096, &mut commands),
            Err(refused(1, Kind::BadLine)),
            "at {word:?}"
        );
        assert!(rt; commands.is_empty(), "at {word:?}");
    }
    Ok(())
}
