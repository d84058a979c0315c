//! Which constants symbols stand for, each with its generic type.
ghost use Rattle.std.specs.Prelude.{◌≡◌, ◌<◌, ◌≤◌, ◌++◌, ◌∷◌, [], ℕ, length, map, not, IfOk, IfSome, Some};
ghost use Rattle.std.specs.Bool.{Decides};
ghost use Rattle.std.specs.Option.{option_map};
ghost use Rattle.hol_spec.specs.Limits.{greatest_size};
ghost use Rattle.hol_spec.specs.Primitives.{primitive_type};
ghost use Rattle.lp_spec.specs.Trees.{Tree, Pi, Sym, Var, tree_eq};
ghost use Rattle.lp_spec.specs.Modules.{signature, types, term_of};
ghost use Rattle.lp_term.specs.Tables.{tree_at};
ghost use Rattle.holide_sig.specs.Modules.{declarations_of, IsHeld};
ghost use Rattle.hol_term.specs.Tables.{Keeps};
ghost use Rattle.translate_spec.specs.ConstantMeaning.{numbers};
ghost use Rattle.decode_spec.specs.Decode.{constant_at as constant_meant, defined_constant, generic_of as generic_told, is_lacking};
ghost use Rattle.decode_spec.specs.Decode.{peel_types as peeled, symbol_argument as argument_told};
ghost use Rattle.decode_back.specs.Symbols.{constant_of, own_name, IsInputFound};
ghost use Rattle.decode_back.specs.Walks.{greatest_number, numbered_from, parameter_name as the_name, IsConstantFound, IsGenericFound};

use crate::names::{GREATEST_NUMBER, parameter_name};
use crate::places::Place;
use crate::symbols::{is_type, name_behind};
use crate::types::decode_type;
use common::Memory;
use hol_name::Name;
use hol_term::TermTable;
use hol_type::TypeId;
use holide_sig::Module;
use holide_sig::symbols::TERM;
use lp_term::{LpId, LpNode, LpTable};
use std::alloc::Global;

// The greatest depth of a type, as the count of a walk.
pub(crate) const GREATEST_DEPTH: usize = hol_spec::GREATEST_DEPTH as usize;

/// A constant: its name, how many variables its generic type has, and that type, in which they have the names of parameters.
#[derive(Drop)]
pub struct Constant {
    pub name: Name,
    pub variables: usize,
    pub generic: TypeId,
}

/// The constant that a symbol stands for, where its generic type is no larger than the limit.
pub fn constant_at(
    alloc: Global,
    source: &Module,
    table: &mut TermTable,
    symbol: usize,
    limit: u64,
) -> Result<Option<Constant>, Memory>
    requires held { IsHeld source.now }
    requires declared { symbol < length (signature ++ declarations_of source.now) }
    requires limit { limit ≤ greatest_size }
    ensures found { IfOk result (λ found. IsConstantFound limit (constant_meant (declarations_of source.now) symbol) table.new found) }
    ensures few { IfOk result (λ found. IfSome found (λ constant. constant.variables ≤ greatest_number)) }
    ensures keeps { Keeps table.old table.new }
{
    if symbol == 5 {
        return primitive(alloc, source, table, symbol, b"=", limit);
    }
    if symbol == 6 {
        return primitive(alloc, source, table, symbol, b"select", limit);
    }
    match input(alloc, source, table, symbol)? {
        Some(constant) => Ok(Some(constant)),
        None => defined(alloc, source, table, symbol, limit),
    }
}

// The constant of this name with the generic type that its symbol's type tells.
fn primitive(
    alloc: Global,
    source: &Module,
    table: &mut TermTable,
    symbol: usize,
    text: &[u8],
    limit: u64,
) -> Result<Option<Constant>, Memory>
    requires held { IsHeld source.now }
    requires declared { symbol < length (signature ++ declarations_of source.now) }
    requires limit { limit ≤ greatest_size }
    ensures found { IfOk result (IsConstantFound limit (constant_of (declarations_of source.now) symbol (text.now ∷ [])) table.new) }
    ensures few { IfOk result (λ found. IfSome found (λ constant. constant.variables ≤ greatest_number)) }
    ensures keeps { Keeps table.old table.new }
{
    let Some((variables, generic)) = generic_of(
        alloc,
        source,
        table,
        source.symbol_type(symbol),
        limit,
    )?
    else {
        return Ok(None);
    };
    let Ok(name) = Name::single(alloc, text) else {
        return Err(Memory);
    };
    Ok(Some(Constant {
        name,
        variables,
        generic,
    }))
}

// The input constant that a symbol stands for. Its generic type is a variable.
fn input(
    alloc: Global,
    source: &Module,
    table: &mut TermTable,
    symbol: usize,
) -> Result<Option<Constant>, Memory>
    requires held { IsHeld source.now }
    requires declared { symbol < length (signature ++ declarations_of source.now) }
    ensures found { IfOk result (IsInputFound (declarations_of source.now) symbol table.new) }
    ensures few { IfOk result (λ found. IfSome found (λ constant. constant.variables ≤ greatest_number)) }
    ensures keeps { Keeps table.old table.new }
{
    let Some(name) = constant_named(alloc, source, symbol, b"i_")? else {
        return Ok(None);
    };
    if !is_input_type(&source.table, source.symbol_type(symbol)) {
        return Ok(None);
    }
    let variable = parameter_name(alloc, 0)?;
    match table.ty_var(&variable) {
        Ok(generic) => Ok(Some(Constant {
            name,
            variables: 1,
            generic,
        })),
        Err(_) => Err(Memory),
    }
}

// The defined constant that a symbol stands for.
fn defined(
    alloc: Global,
    source: &Module,
    table: &mut TermTable,
    symbol: usize,
    limit: u64,
) -> Result<Option<Constant>, Memory>
    requires held { IsHeld source.now }
    requires declared { symbol < length (signature ++ declarations_of source.now) }
    requires limit { limit ≤ greatest_size }
    ensures found { IfOk result (λ found. IsConstantFound limit (defined_constant (declarations_of source.now) symbol) table.new found) }
    ensures few { IfOk result (λ found. IfSome found (λ constant. constant.variables ≤ greatest_number)) }
    ensures keeps { Keeps table.old table.new }
{
    let Some(name) = constant_named(alloc, source, symbol, b"c_")? else {
        return Ok(None);
    };
    let Some((variables, generic)) = generic_of(
        alloc,
        source,
        table,
        source.symbol_type(symbol),
        limit,
    )?
    else {
        return Ok(None);
    };
    Ok(Some(Constant {
        name,
        variables,
        generic,
    }))
}

// The name behind a front of a symbol's name, unless it is that of a primitive constant.
fn constant_named(
    alloc: Global,
    source: &Module,
    symbol: usize,
    front: &[u8],
) -> Result<Option<Name>, Memory>
    requires declared { symbol < length (signature ++ declarations_of source.now) }
    ensures { IfOk result (λ found. found ≡ own_name (declarations_of source.now) symbol front.now) }
{
    let Some(name) = name_behind(alloc, source, symbol, front)? else {
        return Ok(None);
    };
    if is_primitive(&name) {
        return Ok(None);
    }
    Ok(Some(name))
}

// Whether a name is that of a primitive constant.
fn is_primitive(name: &Name) -> bool
    ensures { result ≡ not (is_lacking (primitive_type name.now)) }
{
    if name.is_single(b"=") {
        return true;
    }
    name.is_single(b"select")
}

// Whether a tree is the type of an input constant, the product over a type of its terms.
fn is_input_type(table: &LpTable, id: LpId) -> bool
    requires { id.0 < length table.now }
    ensures { result ≡ tree_eq (tree_at table.now id.0) (Pi types (term_of (Var 0))) }
{
    let LpNode::Pi(domain, body) = table.view(id) else {
        return false;
    };
    if !is_type(table, domain) {
        return false;
    }
    let LpNode::App(head, argument) = table.view(body) else {
        return false;
    };
    is_symbol(table, head, TERM) && is_innermost(table, argument)
}

// Whether a tree is a symbol.
fn is_symbol(table: &LpTable, id: LpId, wanted: usize) -> bool
    requires { id.0 < length table.now }
    ensures { result ≡ tree_eq (tree_at table.now id.0) (Sym wanted) }
{
    match table.view(id) {
        LpNode::Sym(symbol) => symbol == wanted,
        LpNode::SortType
        | LpNode::SortKind
        | LpNode::Var(_)
        | LpNode::App(_, _)
        | LpNode::Lam(_, _)
        | LpNode::Pi(_, _) => false,
    }
}

// Whether a tree is the variable of the innermost binder.
fn is_innermost(table: &LpTable, id: LpId) -> bool
    requires { id.0 < length table.now }
    ensures { result ≡ tree_eq (tree_at table.now id.0) (Var 0) }
{
    match table.view(id) {
        LpNode::Var(variable) => variable == 0,
        LpNode::SortType
        | LpNode::SortKind
        | LpNode::Sym(_)
        | LpNode::App(_, _)
        | LpNode::Lam(_, _)
        | LpNode::Pi(_, _) => false,
    }
}

// The number of variables and the generic type that a declared type tells, where it is no larger than the limit.
fn generic_of(
    alloc: Global,
    source: &Module,
    table: &mut TermTable,
    id: LpId,
    limit: u64,
) -> Result<Option<(usize, TypeId)>, Memory>
    requires held { IsHeld source.now }
    requires known { id.0 < length source.now.table }
    requires limit { limit ≤ greatest_size }
    ensures found { IfOk result (IsGenericFound limit (generic_told (declarations_of source.now) (Some (tree_at source.now.table id.0))) table.new) }
    ensures few { IfOk result (λ found. IfSome found (λ generic. generic.0 ≤ greatest_number)) }
    ensures keeps { Keeps table.old table.new }
{
    let (count, rest) = peel_types(&source.table, id);
    if count > GREATEST_NUMBER {
        return Ok(None);
    }
    let Some(tree) = symbol_argument(&source.table, TERM, rest) else {
        return Ok(None);
    };
    if source.table.size(tree) > 2 * limit as u128 {
        return Ok(None);
    }
    let place = Place {
        type_variables: count,
        free_variables: 0,
        hypotheses: 0,
        binders: 0,
    };
    let Some(ty) = decode_type(alloc, source, place, table, GREATEST_DEPTH, tree)? else {
        return Ok(None);
    };
    let names = table.types().vars(ty)?;
    let in_order = are_numbered(alloc, &names, count)?;
    if !in_order {
        return Ok(None);
    }
    Ok(Some((count, ty)))
}

// How many products over `type` a tree begins with, and what they end in.
pub(crate) fn peel_types(table: &LpTable, id: LpId) -> (usize, LpId)
    requires { id.0 < length table.now }
    ensures peeled { ◌≡◌ {A = ℕ × Tree} (peeled (tree_at table.now id.0)) (result.0, tree_at table.now result.1.0) }
    ensures known { result.1.0 < length table.now }
{
    let mut count = 0;
    let mut rest = id;
    while let LpNode::Pi(domain, body) = table.view(rest) {
        if !is_type(table, domain) {
            return (count, rest);
        }
        count += 1;
        rest = body;
    }
    (count, rest)
}

// The argument of a symbol, where the tree is the symbol applied to one.
pub(crate) fn symbol_argument(table: &LpTable, symbol: usize, id: LpId) -> Option<LpId>
    requires { id.0 < length table.now }
    ensures argument { option_map (λ r. tree_at table.now r.0) result ≡ argument_told symbol (tree_at table.now id.0) }
    ensures known { IfSome result (λ r. r.0 < id.0) }
{
    let LpNode::App(head, argument) = table.view(id) else {
        return None;
    };
    if !is_symbol(table, head, symbol) {
        return None;
    }
    Some(argument)
}

// Whether names are those of the parameters from 0 on, so many.
pub(crate) fn are_numbered(alloc: Global, names: &[Name], count: usize) -> Result<bool, Memory>
    requires few { count ≤ greatest_number }
    ensures { IfOk result (λ told. Decides told (names.now ≡ map the_name (numbers 0 count))) }
{
    if names.len() != count {
        return Ok(false);
    }
    let told = are_in_order(alloc, names)?;
    Ok(told)
}

// Whether names are those of the parameters from 0 on.
fn are_in_order(alloc: Global, names: &[Name]) -> Result<bool, Memory>
    requires few { length names.now ≤ greatest_number }
    ensures { IfOk result (λ told. told ≡ numbered_from 0 names.now) }
{
    for (number, name) in names.iter().enumerate() {
        let own = parameter_name(alloc, number)?;
        if *name != own {
            return Ok(false);
        }
    }
    Ok(true)
}
