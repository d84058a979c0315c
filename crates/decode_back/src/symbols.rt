//! Which operators symbols stand for.
ghost use Rattle.std.specs.Prelude.{◌≡◌, ◌<◌, ◌++◌, ◌∷◌, [], length, replicate, not, IfOk, Some, codes, decimal};
ghost use Rattle.std.specs.Option.{option_map};
ghost use Rattle.hol_spec.specs.Primitives.{primitive_arity};
ghost use Rattle.lp_spec.specs.Trees.{tree_eq};
ghost use Rattle.lp_spec.specs.Modules.{signature, symbol_name, symbol_type, products, types};
ghost use Rattle.lp_term.specs.Tables.{tree_at};
ghost use Rattle.holide_sig.specs.Modules.{declarations_of, IsHeld};
ghost use Rattle.lp_spec.specs.Numerals.{numeral};
ghost use Rattle.decode_back.specs.Symbols.{own_operator};
ghost use Rattle.decode_spec.specs.Decode.{behind, name_behind as name_told, is_lacking, named_operator, operator_at as operator_meant};

use common::Memory;
use hol_name::Name;
use holide_sig::Module;
use itoa::Buffer;
use lp_term::{LpId, LpNode, LpTable};
use std::alloc::Global;

// What stands behind a front of a text.
fn rest_behind<'a>(front: &[u8], text: &'a [u8]) -> Option<&'a [u8]>
    ensures { option_map (λ rest. rest.now) result ≡ behind front.now text.now }
{
    let mut rest = text;
    for byte in front {
        let [first, more @ ..] = rest else {
            return None;
        };
        if byte != first {
            return None;
        }
        rest = more;
    }
    Some(rest)
}

/// The name behind a front of a symbol's name.
pub(crate) fn name_behind(
    alloc: Global,
    source: &Module,
    symbol: usize,
    front: &[u8],
) -> Result<Option<Name>, Memory>
    requires declared { symbol < length (signature ++ declarations_of source.now) }
    ensures { IfOk result (λ found. found ≡ name_told (declarations_of source.now) symbol front.now) }
{
    let Some(text) = rest_behind(front, source.symbol_name(symbol)) else {
        return Ok(None);
    };
    let Ok(found) = Name::demangle(alloc, text) else {
        return Err(Memory);
    };
    let Some(name) = found else {
        return Ok(None);
    };
    let _text = name.mangled();
    Ok(Some(name))
}

// Whether a tree is `type -> .. -> type` with so many arguments.
fn is_operator_type(table: &LpTable, id: LpId, arity: usize) -> bool
    requires { id.0 < length table.now }
    ensures { result ≡ tree_eq (tree_at table.now id.0) (products (replicate arity types) types) }
{
    let mut rest = id;
    for _ in 0..arity {
        let LpNode::Pi(domain, body) = table.view(rest) else {
            return false;
        };
        if !is_type(table, domain) {
            return false;
        }
        rest = body;
    }
    is_type(table, rest)
}

/// Whether a tree is the symbol `type`.
pub(crate) fn is_type(table: &LpTable, id: LpId) -> bool
    requires { id.0 < length table.now }
    ensures { result ≡ tree_eq (tree_at table.now id.0) types }
{
    match table.view(id) {
        LpNode::Sym(symbol) => symbol == 0,
        LpNode::SortType
        | LpNode::SortKind
        | LpNode::Var(_)
        | LpNode::App(_, _)
        | LpNode::Lam(_, _)
        | LpNode::Pi(_, _) => false,
    }
}

// Whether a name is that of a primitive operator.
fn is_primitive(name: &Name) -> bool
    ensures { result ≡ not (is_lacking (primitive_arity name.now)) }
{
    if name.is_single(b"->") {
        return true;
    }
    if name.is_single(b"bool") {
        return true;
    }
    name.is_single(b"ind")
}

// The operator that a symbol's name and type tell, where its name has this front.
fn named(
    alloc: Global,
    source: &Module,
    symbol: usize,
    front: &[u8],
    arity: usize,
) -> Result<Option<Name>, Memory>
    requires held { IsHeld source.now }
    requires declared { symbol < length (signature ++ declarations_of source.now) }
    ensures { IfOk result (λ found. found ≡ named_operator (declarations_of source.now) symbol front.now arity) }
{
    let Some(name) = name_behind(alloc, source, symbol, front)? else {
        return Ok(None);
    };
    if is_primitive(&name) {
        return Ok(None);
    }
    if !is_operator_type(&source.table, source.symbol_type(symbol), arity) {
        return Ok(None);
    }
    Ok(Some(name))
}

/// The operator that a symbol stands for at so many arguments.
pub(crate) fn operator_at(
    alloc: Global,
    source: &Module,
    symbol: usize,
    count: usize,
) -> Result<Option<Name>, Memory>
    requires held { IsHeld source.now }
    requires declared { symbol < length (signature ++ declarations_of source.now) }
    ensures { IfOk result (λ found. found ≡ operator_meant (declarations_of source.now) symbol count) }
{
    match (symbol, count) {
        (3, 2) => primitive(alloc, b"->"),
        (1, 0) => primitive(alloc, b"bool"),
        (2, 0) => primitive(alloc, b"ind"),
        _ => input_or_defined(alloc, source, symbol, count),
    }
}

// The operator with this name of one component.
fn primitive(alloc: Global, text: &[u8]) -> Result<Option<Name>, Memory>
    ensures { IfOk result (λ found. found ≡ Some (text.now ∷ [])) }
{
    match Name::single(alloc, text) {
        Ok(name) => Ok(Some(name)),
        Err(_) => Err(Memory),
    }
}

// The input or defined operator that a symbol stands for.
fn input_or_defined(
    alloc: Global,
    source: &Module,
    symbol: usize,
    count: usize,
) -> Result<Option<Name>, Memory>
    requires held { IsHeld source.now }
    requires declared { symbol < length (signature ++ declarations_of source.now) }
    ensures { IfOk result (λ found. found ≡ own_operator (declarations_of source.now) symbol count) }
{
    let front = input_front(alloc, count)?;
    match named(alloc, source, symbol, &front, count)? {
        Some(name) => Ok(Some(name)),
        None => named(alloc, source, symbol, b"o_", count),
    }
}

// The front of the name of an input operator of so many arguments.
fn input_front(alloc: Global, count: usize) -> Result<Vec<u8>, Memory>
    ensures { IfOk result (λ front. front.items ≡ codes "t" ++ numeral count ++ codes "_") }
{
    let front = decimal_front(alloc, count)?;
    Ok(front)
}

// The same, by the digits that a number is written with.
fn decimal_front(alloc: Global, count: usize) -> Result<Vec<u8>, Memory>
    ensures { IfOk result (λ front. front.items ≡ codes "t" ++ decimal count ++ codes "_") }
{
    let mut buffer = Buffer::new();
    let digits = buffer.format(count).as_bytes();
    let mut front = Vec::new(alloc);
    front.extend_from_slice(b"t")?;
    front.extend_from_slice(digits)?;
    front.extend_from_slice(b"_")?;
    Ok(front)
}
