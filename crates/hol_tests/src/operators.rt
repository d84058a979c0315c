//! Type operators, each with its number of arguments.
use crate::cases::{Answer, Case, comes};
use crate::made::name;
use common::{Fault, Kind};
use hol_defs::{SymbolKind, Symbols};
use std::alloc::Global;
use std::test::Fail;

/// Uses an operator of this name with so many arguments, and counts the symbols that are taken.
pub(crate) fn use_operator(
    symbols: &mut Symbols,
    alloc: Global,
    text: &[u8],
    arity: usize,
) -> Result<Answer, Fault> {
    symbols.use_op(&name(alloc, text)?, arity)?;
    Ok(Answer::Count(symbols.count()))
}

#[test]
fn primitive_operators_have_an_arity(rt: HostRuntime) -> Result<(), Fail> {
    let alloc = rt.alloc();
    let refused = Err(Fault::Refused(Kind::BadArity));
    let none = Ok(Answer::Count(0));
    assert!(rt; comes(alloc, Case::Operator(b"->", 2), none));
    assert!(rt; comes(alloc, Case::Operator(b"->", 1), refused));
    assert!(rt; comes(alloc, Case::Operator(b"bool", 0), none));
    assert!(rt; comes(alloc, Case::Operator(b"bool", 1), refused));
    assert!(rt; comes(alloc, Case::Operator(b"ind", 0), none));
    assert!(rt; comes(alloc, Case::Operator(b"=", 1), Ok(Answer::Count(1))));
    Ok(())
}

/// The kinds of a name as an operator and as a constant, once it is used as an operator.
pub(crate) fn kinds_of_used(
    symbols: &mut Symbols,
    alloc: Global,
    text: &[u8],
) -> Result<Answer, Fault> {
    let name = name(alloc, text)?;
    symbols.use_op(&name, 1)?;
    Ok(Answer::Kinds(symbols.op_kind(&name), symbols.const_kind(&name)))
}

#[test]
fn operators_have_names_of_their_own(rt: HostRuntime) -> Result<(), Fail> {
    let alloc = rt.alloc();
    let input = Some(SymbolKind::Input);
    let primitive = Some(SymbolKind::Primitive);
    assert!(rt;
        comes(
            alloc,
            Case::KindsOfUsed(b"="),
            Ok(Answer::Kinds(input, primitive))
        )
    );
    assert!(rt;
        comes(
            alloc,
            Case::KindsOfUsed(b"list"),
            Ok(Answer::Kinds(input, None))
        )
    );
    Ok(())
}

/// How many symbols are taken after uses of one operator with none, with two and again with two arguments.
pub(crate) fn use_thrice(symbols: &mut Symbols, alloc: Global) -> Result<Answer, Fault> {
    use_operator(symbols, alloc, b"list", 0)?;
    use_operator(symbols, alloc, b"list", 2)?;
    use_operator(symbols, alloc, b"list", 2)
}

#[test]
fn an_operator_is_taken_once_for_each_arity(rt: HostRuntime) -> Result<(), Fail> {
    assert!(rt; comes(rt.alloc(), Case::Thrice, Ok(Answer::Count(2))));
    Ok(())
}
