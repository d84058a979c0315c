//! The types of abbreviations: each question for a type is answered once.
ghost use Rattle.std.specs.Prelude.{◌≡◌, ◌<◌, [], List, length, nat_eq, false, true, Some, IfOk, IfSome, IfNone};
ghost use Rattle.indexmap.specs.IndexMap.{get};
ghost use Rattle.lp_spec.specs.Trees.{tree_eq, App, Lam, Sym};
ghost use Rattle.lp_spec.specs.Modules.{arr_of as arr_tree, types, Declaration};
ghost use Rattle.lp_term.specs.Tables.{tree_at, Holds, Keeps};
ghost use Rattle.share_spec.specs.Abbreviations.{at_a_type as type_left, constant_type, is_simple, simple_part as part_of_type, term_type, type_of_terms, value_type as type_of_values};
ghost use Rattle.share.specs.Typings.{constant_part as part_of_constant, context as context_of, entry as entry_of, is_application, is_from_type, value_of, values_of, AreAnswers, IsAsked, IsContext, Tells, Turns, CanTurnUnder, IsSameContext, TellsNoted, TurnsBy, TurnsIn, TurnsUnder};

use common::{Memory, Stack};
use holide_sig::symbols::{ARR, TERM, TYPE};
use holide_sig::{Module, SIGNATURE};
use indexmap::IndexMap;
use lp_term::{LpId, LpNode, LpTable};

/// The answers to questions, by their numbers.
pub(crate) type Answers = IndexMap<usize, Option<LpId>>;

/// The answer to a question, or a question that comes first.
#[derive(Clone, Copy)]
pub(crate) enum Turn {
    Known(Option<LpId>),
    Needs(LpId),
}

/// Whether the tree is a symbol of that number.
pub(crate) fn is_symbol(table: &LpTable, id: LpId, symbol: usize) -> bool
    requires { id.0 < length table.now }
    ensures { result ≡ tree_eq (tree_at table.now id.0) (Sym symbol) }
{
    match table.view(id) {
        LpNode::Sym(other) => other == symbol,
        _ => false,
    }
}

// The function and the argument of an application.
fn application(table: &LpTable, id: LpId) -> Option<(LpId, LpId)>
    requires { id.0 < length table.now }
    ensures is { IfSome result (λ r. Holds table.now id.0 (App (tree_at table.now r.0.0) (tree_at table.now r.1.0))) }
    ensures lower { IfSome result (λ r. (r.0.0 < id.0) × (r.1.0 < id.0)) }
    ensures none { IfNone result (is_application (tree_at table.now id.0) ≡ false) }
{
    match table.view(id) {
        LpNode::App(function, argument) => Some((function, argument)),
        _ => None,
    }
}

// The type of whose terms the tree is the type.
fn terms_of(table: &LpTable, id: LpId) -> Option<LpId>
    requires { id.0 < length table.now }
    ensures { Tells table.now result (type_of_terms (tree_at table.now id.0)) }
{
    let (function, argument) = application(table, id)?;
    if is_symbol(table, function, TERM) {
        Some(argument)
    } else {
        None
    }
}

// What is left of the type of a constant, or `None` where that is not answered yet.
fn constant(table: &LpTable, answers: &Answers, id: LpId) -> Option<Option<LpId>>
    requires known { id.0 < length table.now }
    requires answers { (m : List Declaration) × AreAnswers m table.now (get nat_eq answers.now) }
    ensures told { TellsNoted table.now (get nat_eq answers.now) id result }
    ensures asked { IfNone result ((m : List Declaration) → IsAsked m (tree_at table.now id.0)) }
{
    match table.view(id) {
        LpNode::Pi(..) => Some(None),
        _ => answers.get(&id.0).copied(),
    }
}

// Whether the tree is a simple type, or `None` where that is not answered yet.
fn simple(table: &LpTable, answers: &Answers, id: LpId) -> Option<bool>
    requires known { id.0 < length table.now }
    requires answers { (m : List Declaration) × AreAnswers m table.now (get nat_eq answers.now) }
    ensures told { (m : List Declaration) → AreAnswers m table.now (get nat_eq answers.now) → IfSome result (λ b. b ≡ is_simple m [] (tree_at table.now id.0)) }
    ensures asked { IfNone result ((m : List Declaration) → IsAsked m (tree_at table.now id.0)) }
{
    match constant(table, answers, id) {
        None => None,
        Some(None) => Some(false),
        Some(Some(ty)) => Some(is_symbol(table, ty, TYPE)),
    }
}

// The simple type of whose terms the tree is the type.
fn simple_part(table: &LpTable, answers: &Answers, id: LpId) -> Turn
    requires known { id.0 < length table.now }
    requires answers { (m : List Declaration) × AreAnswers m table.now (get nat_eq answers.now) }
    ensures { (m : List Declaration) → AreAnswers m table.now (get nat_eq answers.now) → Turns m table.now result (part_of_type m [] (tree_at table.now id.0)) }
{
    match terms_of(table, id) {
        None => Turn::Known(None),
        Some(terms) => match simple(table, answers, terms) {
            None => Turn::Needs(terms),
            Some(true) => Turn::Known(Some(terms)),
            Some(false) => Turn::Known(None),
        },
    }
}

// The simple type of whose terms a constant is one.
fn constant_part(table: &LpTable, answers: &Answers, id: LpId) -> Turn
    requires known { id.0 < length table.now }
    requires answers { (m : List Declaration) × AreAnswers m table.now (get nat_eq answers.now) }
    ensures { (m : List Declaration) → AreAnswers m table.now (get nat_eq answers.now) → Turns m table.now result (part_of_constant m (tree_at table.now id.0)) }
{
    match constant(table, answers, id) {
        None => Turn::Needs(id),
        Some(None) => Turn::Known(None),
        Some(Some(ty)) => simple_part(table, answers, ty),
    }
}

// What is left of a product over types at a type.
fn at_a_type(table: &mut LpTable, ty: LpId, argument: LpId) -> Result<Option<LpId>, Memory>
    requires ty { ty.0 < length table.old }
    requires argument { argument.0 < length table.old }
    ensures keeps { Keeps table.old table.new }
    ensures told { IfOk result (λ r. Tells table.new r (type_left (Some (tree_at table.old ty.0)) (tree_at table.old argument.0))) }
{
    match table.view(ty) {
        LpNode::Pi(domain, body) if is_symbol(table, domain, TYPE) => {
            let left = table.put(argument, body)?;
            Ok(Some(left))
        }
        _ => Ok(None),
    }
}

/// What is left of the type of a constant at one more argument.
pub(crate) fn constant_call(
    table: &mut LpTable,
    answers: &Answers,
    function: LpId,
    argument: LpId,
) -> Result<Turn, Memory>
    requires function { function.0 < length table.old }
    requires argument { argument.0 < length table.old }
    requires answers { (m : List Declaration) × AreAnswers m table.old (get nat_eq answers.now) }
    ensures keeps { Keeps table.old table.new }
    ensures turn { IfOk result (TurnsBy table.old table.new (get nat_eq answers.now)
        (λ m. constant_type m [] (App (tree_at table.old function.0) (tree_at table.old argument.0)))) }
{
    match simple(table, answers, argument) {
        None => Ok(Turn::Needs(argument)),
        Some(false) => Ok(Turn::Known(None)),
        Some(true) => match constant(table, answers, function) {
            None => Ok(Turn::Needs(function)),
            Some(None) => Ok(Turn::Known(None)),
            Some(Some(ty)) => {
                let left = at_a_type(table, ty, argument)?;
                Ok(Turn::Known(left))
            }
        },
    }
}

// The type whose terms a variable stands for in a context.
fn entry(table: &LpTable, context: LpId, variable: u128) -> Option<LpId>
    requires { context.0 < length table.now }
    ensures { Tells table.now result (entry_of (tree_at table.now context.0) variable) }
{
    let mut left = variable;
    let mut rest = context;
    while let LpNode::Pi(ty, outer) = table.view(rest) {
        if left == 0 {
            return Some(ty);
        }
        left -= 1;
        rest = outer;
    }
    None
}

// The context in which a tree is asked for: none, where it is closed.
fn context_for(table: &mut LpTable, context: LpId, tree: LpId) -> Result<LpId, Memory>
    requires context { context.0 < length table.old }
    requires tree { tree.0 < length table.old }
    ensures keeps { Keeps table.old table.new }
    ensures known { IfOk result (λ c. c.0 < length table.new) }
    ensures same { IfOk result (IsSameContext table.old table.new context tree) }
{
    if table.is_closed_under(tree, 0) {
        table.node(LpNode::SortType)
    } else {
        Ok(context)
    }
}

// The type of a tree as a term in a context.
fn term(table: &mut LpTable, answers: &Answers, context: LpId, tree: LpId) -> Result<Turn, Memory>
    requires context { context.0 < length table.old }
    requires tree { tree.0 < length table.old }
    requires answers { (m : List Declaration) × IsContext m (tree_at table.old context.0) × AreAnswers m table.old (get nat_eq answers.now) }
    ensures keeps { Keeps table.old table.new }
    ensures turn { IfOk result (TurnsIn table.old table.new (get nat_eq answers.now) context (λ m c. term_type m (context_of c) (tree_at table.old tree.0))) }
{
    let around = context_for(table, context, tree)?;
    let question = table.node(LpNode::Pi(around, tree))?;
    match answers.get(&question.0).copied() {
        Some(told) => Ok(Turn::Known(told)),
        None => Ok(Turn::Needs(question)),
    }
}

// The type of functions between two types.
fn arr_of(table: &mut LpTable, domain: LpId, values: LpId) -> Result<LpId, Memory>
    requires domain { domain.0 < length table.old }
    requires values { values.0 < length table.old }
    ensures keeps { Keeps table.old table.new }
    ensures made { IfOk result (λ r. Holds table.new r.0 (arr_tree (tree_at table.old domain.0) (tree_at table.old values.0))) }
{
    let arr = table.node(LpNode::Sym(ARR))?;
    let from = table.node(LpNode::App(arr, domain))?;
    table.node(LpNode::App(from, values))
}

// Whether two numbers are of one tree.
fn is_same(table: &LpTable, one: LpId, other: LpId) -> bool
    requires one { one.0 < length table.now }
    requires other { other.0 < length table.now }
    ensures { result ≡ tree_eq (tree_at table.now one.0) (tree_at table.now other.0) }
{
    // The table tells that no tree has two numbers.
    let _ = table.view(one);
    one == other
}

// Whether the tree is that of functions, without the type of their values, from the second.
fn is_from(table: &LpTable, from: LpId, domain: LpId) -> bool
    requires from { from.0 < length table.now }
    requires domain { domain.0 < length table.now }
    ensures { result ≡ is_from_type (tree_at table.now from.0) (tree_at table.now domain.0) }
{
    match application(table, from) {
        Some((arr, other)) => is_symbol(table, arr, ARR) && is_same(table, other, domain),
        None => false,
    }
}

// The type of the values of functions from the second type, where the first is that of such functions.
fn value_type(table: &LpTable, functions: LpId, argument: LpId) -> Option<LpId>
    requires functions { functions.0 < length table.now }
    requires argument { argument.0 < length table.now }
    ensures { Tells table.now result (type_of_values (tree_at table.now functions.0) (tree_at table.now argument.0)) }
{
    let (from, values) = application(table, functions)?;
    if is_from(table, from, argument) {
        Some(values)
    } else {
        None
    }
}

// The type of the value of functions of a type at an argument.
fn value_call(
    table: &mut LpTable,
    answers: &Answers,
    context: LpId,
    functions: LpId,
    argument: LpId,
) -> Result<Turn, Memory>
    requires context { context.0 < length table.old }
    requires functions { functions.0 < length table.old }
    requires argument { argument.0 < length table.old }
    requires answers { (m : List Declaration) × IsContext m (tree_at table.old context.0) × AreAnswers m table.old (get nat_eq answers.now) }
    ensures keeps { Keeps table.old table.new }
    ensures turn { IfOk result (TurnsIn table.old table.new (get nat_eq answers.now) context
        (λ m c. value_of m c (tree_at table.old functions.0) (tree_at table.old argument.0))) }
{
    match term(table, answers, context, argument)? {
        Turn::Known(Some(ty)) => Ok(Turn::Known(value_type(table, functions, ty))),
        Turn::Known(None) => Ok(Turn::Known(None)),
        Turn::Needs(question) => Ok(Turn::Needs(question)),
    }
}

// The type of an application as a term, where it is no constant.
fn function_call(
    table: &mut LpTable,
    answers: &Answers,
    context: LpId,
    function: LpId,
    argument: LpId,
) -> Result<Turn, Memory>
    requires context { context.0 < length table.old }
    requires function { function.0 < length table.old }
    requires argument { argument.0 < length table.old }
    requires answers { (m : List Declaration) × IsContext m (tree_at table.old context.0) × AreAnswers m table.old (get nat_eq answers.now) }
    ensures keeps { Keeps table.old table.new }
    ensures turn { IfOk result (TurnsIn table.old table.new (get nat_eq answers.now) context
        (λ m c. values_of m c (tree_at table.old function.0) (tree_at table.old argument.0))) }
{
    match term(table, answers, context, function)? {
        Turn::Known(Some(functions)) => value_call(table, answers, context, functions, argument),
        Turn::Known(None) => Ok(Turn::Known(None)),
        Turn::Needs(question) => Ok(Turn::Needs(question)),
    }
}

// The type of an application as a term.
fn term_call(
    table: &mut LpTable,
    answers: &Answers,
    context: LpId,
    tree: LpId,
    function: LpId,
    argument: LpId,
) -> Result<Turn, Memory>
    requires context { context.0 < length table.old }
    requires tree { Holds table.old tree.0 (App (tree_at table.old function.0) (tree_at table.old argument.0)) }
    requires function { function.0 < length table.old }
    requires argument { argument.0 < length table.old }
    requires answers { (m : List Declaration) × IsContext m (tree_at table.old context.0) × AreAnswers m table.old (get nat_eq answers.now) }
    ensures keeps { Keeps table.old table.new }
    ensures turn { IfOk result (TurnsIn table.old table.new (get nat_eq answers.now) context (λ m c. term_type m (context_of c) (tree_at table.old tree.0))) }
{
    match constant_part(table, answers, tree) {
        Turn::Known(Some(ty)) => Ok(Turn::Known(Some(ty))),
        Turn::Known(None) => function_call(table, answers, context, function, argument),
        Turn::Needs(question) => Ok(Turn::Needs(question)),
    }
}

// The type of functions from a type whose values are what a tree is under a binder of it.
fn under(
    table: &mut LpTable,
    answers: &Answers,
    context: LpId,
    ty: LpId,
    body: LpId,
) -> Result<Turn, Memory>
    requires context { context.0 < length table.old }
    requires ty { ty.0 < length table.old }
    requires body { body.0 < length table.old }
    requires answers { CanTurnUnder table.old (get nat_eq answers.now) ty context }
    ensures keeps { Keeps table.old table.new }
    ensures turn { IfOk result (TurnsUnder table.old table.new (get nat_eq answers.now) ty context body) }
{
    let inner = table.node(LpNode::Pi(ty, context))?;
    match term(table, answers, inner, body)? {
        Turn::Known(Some(values)) => {
            let functions = arr_of(table, ty, values)?;
            Ok(Turn::Known(Some(functions)))
        }
        Turn::Known(None) => Ok(Turn::Known(None)),
        Turn::Needs(question) => Ok(Turn::Needs(question)),
    }
}

// The type of an abstraction as a term.
fn abstraction(
    table: &mut LpTable,
    answers: &Answers,
    context: LpId,
    domain: LpId,
    body: LpId,
) -> Result<Turn, Memory>
    requires context { context.0 < length table.old }
    requires domain { domain.0 < length table.old }
    requires body { body.0 < length table.old }
    requires answers { (m : List Declaration) × IsContext m (tree_at table.old context.0) × AreAnswers m table.old (get nat_eq answers.now) }
    ensures keeps { Keeps table.old table.new }
    ensures turn { IfOk result (TurnsIn table.old table.new (get nat_eq answers.now) context
        (λ m c. term_type m (context_of c) (Lam (tree_at table.old domain.0) (tree_at table.old body.0)))) }
{
    match simple_part(table, answers, domain) {
        Turn::Known(Some(ty)) => under(table, answers, context, ty, body),
        Turn::Known(None) => Ok(Turn::Known(None)),
        Turn::Needs(question) => Ok(Turn::Needs(question)),
    }
}

/// One turn towards the type of a tree as a term in a context.
pub(crate) fn term_turn(
    table: &mut LpTable,
    answers: &Answers,
    context: LpId,
    tree: LpId,
) -> Result<Turn, Memory>
    requires context { context.0 < length table.old }
    requires tree { tree.0 < length table.old }
    requires answers { (m : List Declaration) × IsContext m (tree_at table.old context.0) × AreAnswers m table.old (get nat_eq answers.now) }
    ensures keeps { Keeps table.old table.new }
    ensures turn { IfOk result (TurnsIn table.old table.new (get nat_eq answers.now) context (λ m c. term_type m (context_of c) (tree_at table.old tree.0))) }
{
    match table.view(tree) {
        LpNode::Var(variable) => Ok(Turn::Known(entry(table, context, variable))),
        LpNode::Sym(_) => Ok(constant_part(table, answers, tree)),
        LpNode::App(function, argument) => {
            term_call(table, answers, context, tree, function, argument)
        }
        LpNode::Lam(domain, body) => abstraction(table, answers, context, domain, body),
        LpNode::SortType | LpNode::SortKind | LpNode::Pi(..) => Ok(Turn::Known(None)),
    }
}
