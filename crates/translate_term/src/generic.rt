//! A constant of the tree of its type: its symbol at what the variables of its generic type have there. The generic type is read
//! back from the declared type of the symbol, which is a product over its variables.
ghost use Rattle.std.specs.Prelude.{◌≡◌, ◌<◌, [], ◌∷◌, ◌++◌, ℕ, length, IfOk, IfSome, OnOk};
ghost use Rattle.hol_spec.specs.Types.{HolType};
ghost use Rattle.lp_spec.specs.Trees.{Tree};
ghost use Rattle.lp_spec.specs.Modules.{signature};
ghost use Rattle.lp_term.specs.Tables.{tree_at, AreKnown};
ghost use Rattle.holide_sig.specs.Modules.{declarations_of, IsHeld};
ghost use Rattle.translate_spec.specs.Scopes.{SymbolMap, TypeScope};
ghost use Rattle.translate_term.specs.Patterns.{AreArguments, FindsWanted, Fits, IsGenericType, IsInstance, IsMatching, IsPart, IsTypeTree, IsWanted, MakesInstance, MatchingGoesOn, Mentions, binder, work};
ghost use Rattle.translate_term.specs.Keys.{binder_exact};
ghost use Rattle.translate_term.specs.Tasks.{IsDone};
ghost use Rattle.translate_term.specs.Walks.{Grows};

use crate::symbols;
use common::{Memory, Stack};
use hol_name::Name;
use holide_sig::{Module, call};
use lp_term::{LpId, LpNode, LpTable};
use std::alloc::Global;
use tree_map::{Key, Memo};

/// A part of a generic type's tree, and the tree that it is to become.
#[derive(Clone, Copy)]
pub(crate) struct Meeting {
    pub(crate) pattern: LpId,
    pub(crate) instance: LpId,
}

/// The number of a variable of a pattern.
#[derive(Clone, Copy, PartialEq, Eq, PartialOrd, Ord)]
pub(crate) struct Binder(u128);

impl Key for Binder {
    ghost exact = { binder_exact };
}

/// The tree for each number of a variable that was met.
type Found = Memo<Binder, LpId>;

// A constant of the tree of its type.
pub(crate) fn constant_of(
    alloc: Global,
    target: &mut Module,
    name: &Name,
    ty: LpId,
    text: &mut Vec<u8>,
) -> Result<LpId, Memory>
    requires { (symbols : SymbolMap) × (scope : TypeScope) × (t : HolType) × IsTypeTree symbols scope t target.old name.now ty }
    ensures made { IfOk result (MakesInstance target.old name.now ty target.new) }
    ensures grows { Grows target.old target.new }
{
    let symbol = symbols::constant(target, name, text)?.unwrap();
    if let Some(tree) = sole_argument(target, symbol, ty) {
        return call(&mut target.table, symbol, &[tree]);
    }
    let args = type_arguments(alloc, target, symbol, ty)?;
    call(&mut target.table, symbol, &args)
}

// The tree that the variable of the generic type of a symbol has in the tree of an instance, where it has one variable, found on one
// way down.
fn sole_argument(source: &Module, symbol: usize, ty: LpId) -> Option<LpId>
    requires held { IsHeld source.now }
    requires instance { IsInstance source.now symbol ty }
    ensures argument { IfSome result (λ tree. AreArguments source.now symbol ty (tree ∷ [])) }
    ensures known { IfSome result (λ tree. tree.0 < length source.now.table) }
{
    let (count, pattern) = generic_type(source, symbol);
    if count == 1 {
        sole(&source.table, pattern, ty)
    } else {
        None
    }
}

// The trees that the variables of the generic type of a symbol have in the tree of an instance, in order of first occurrence.
fn type_arguments(
    alloc: Global,
    source: &Module,
    symbol: usize,
    ty: LpId,
) -> Result<Vec<LpId>, Memory>
    requires held { IsHeld source.now }
    requires instance { IsInstance source.now symbol ty }
    ensures arguments { IfOk result (λ args. AreArguments source.now symbol ty args.items) }
    ensures known { IfOk result (λ args. AreKnown source.now.table args.items) }
{
    let (count, pattern) = generic_type(source, symbol);
    if count == 0 {
        return Ok(Vec::new(alloc));
    }
    let found = matched(alloc, &source.table, pattern, ty)?;
    let mut args = Vec::new(alloc);
    let mut left = count;
    while left > 0 {
        left -= 1;
        args.push(found.find(Binder(left)).unwrap())?;
    }
    Ok(args)
}

// The tree that the first variable of a pattern has in its instance, sought on one way down: beside a head without variables it is
// in the argument.
fn sole(trees: &LpTable, pattern: LpId, instance: LpId) -> Option<LpId>
    requires pattern { pattern.0 < length trees.now }
    requires instance { instance.0 < length trees.now }
    ensures wanted { IfSome result (IsWanted trees.now 0 pattern instance) }
    ensures known { IfSome result (λ id. id.0 < length trees.now) }
{
    let mut at = meet(pattern, instance);
    while let Some(next) = part_of(trees, at) {
        at = next;
    }
    match trees.view(at.pattern) {
        LpNode::Var(number) if number == 0 => Some(at.instance),
        LpNode::Var(_)
        | LpNode::App(..)
        | LpNode::SortType
        | LpNode::SortKind
        | LpNode::Sym(_)
        | LpNode::Lam(..)
        | LpNode::Pi(..) => None,
    }
}

// A part of an application that meets one, with a variable in it if there is one.
fn part_of(trees: &LpTable, task: Meeting) -> Option<Meeting>
    requires pattern { task.pattern.0 < length trees.now }
    requires instance { task.instance.0 < length trees.now }
    ensures part { IfSome result (IsPart trees.now task) }
    ensures less { IfSome result (λ part. part.pattern.0 < task.pattern.0) }
{
    let LpNode::App(head, argument) = trees.view(task.pattern) else {
        return None;
    };
    let LpNode::App(function, part) = trees.view(task.instance) else {
        return None;
    };
    if trees.is_closed_under(head, 0) {
        Some(meet(argument, part))
    } else {
        Some(meet(head, function))
    }
}

// How many variables the generic type of a symbol has, and its tree under them.
fn generic_type(source: &Module, symbol: usize) -> (u128, LpId)
    requires held { IsHeld source.now }
    requires declared { symbol < length (signature ++ declarations_of source.now) }
    ensures is { IsGenericType source.now symbol result.0 result.1 }
    ensures known { result.1.0 < length source.now.table }
{
    let mut count = 0;
    let mut id = source.symbol_type(symbol);
    loop {
        match source.table.view(id) {
            LpNode::Pi(_, body) => {
                count += 1;
                id = body;
            }
            LpNode::App(_, pattern) => return (count, pattern),
            LpNode::SortType
            | LpNode::SortKind
            | LpNode::Var(_)
            | LpNode::Sym(_)
            | LpNode::Lam(..) => return (count, id),
        }
    }
}

// The trees that the variables of a generic type's tree have in the tree of an instance.
fn matched(alloc: Global, trees: &LpTable, pattern: LpId, instance: LpId) -> Result<Found, Memory>
    requires pattern { pattern.0 < length trees.now }
    requires instance { instance.0 < length trees.now }
    requires fits { (want : ℕ → Tree) × Fits want trees.now pattern instance }
    ensures noted { IfOk result (FindsWanted trees.now pattern instance) }
    ensures all { IfOk result (λ found. (k : ℕ) → Mentions k (tree_at trees.now pattern.0) → IsDone found (binder k)) }
{
    let mut found = Found::new(alloc);
    let mut tasks = Stack::new(alloc);
    let ended = met(trees, meet(pattern, instance), &mut tasks, &mut found);
    drop(tasks);
    match ended {
        Ok(()) => Ok(found),
        Err(Memory) => {
            drop(found);
            Err(Memory)
        }
    }
}

// Finds what the variables of a pattern have in its instance.
fn met(
    trees: &LpTable,
    task: Meeting,
    tasks: &mut Stack<Meeting>,
    found: &mut Found,
) -> Result<(), Memory>
    requires { (want : ℕ → Tree) × (root : Tree) × IsMatching want root trees.now (task ∷ tasks.old) found.old }
    ensures { OnOk result (MatchingGoesOn trees.now (task ∷ tasks.old) found.old [] found.new) }
{
    tasks.push(task)?;
    while let Some(next) = tasks.pop() {
        turn(trees, next, tasks, found)?;
    }
    Ok(())
}

fn meet(pattern: LpId, instance: LpId) -> Meeting
    ensures { result ≡ record { pattern = pattern; instance = instance } }
{
    Meeting { pattern, instance }
}

// Puts two tasks on those that are left.
fn set_out(tasks: &mut Stack<Meeting>, first: Meeting, second: Meeting) -> Result<(), Memory>
    ensures { OnOk result (tasks.new ≡ first ∷ second ∷ tasks.old) }
{
    tasks.push(second)?;
    tasks.push(first)?;
    Ok(())
}

// Notes the tree of a variable, or sets out to meet the two parts of an application.
fn turn(
    trees: &LpTable,
    task: Meeting,
    tasks: &mut Stack<Meeting>,
    found: &mut Found,
) -> Result<(), Memory>
    requires { (want : ℕ → Tree) × (root : Tree) × IsMatching want root trees.now (task ∷ tasks.old) found.old }
    ensures matching { OnOk result (MatchingGoesOn trees.now (task ∷ tasks.old) found.old tasks.new found.new) }
    ensures less { OnOk result (work trees.now tasks.new < work trees.now (task ∷ tasks.old)) }
{
    match trees.view(task.pattern) {
        LpNode::Var(number) => found.note(Binder(number), task.instance),
        LpNode::App(head, argument) => {
            let LpNode::App(function, part) = trees.view(task.instance) else {
                return Ok(());
            };
            set_out(tasks, meet(argument, part), meet(head, function))
        }
        LpNode::SortType | LpNode::SortKind | LpNode::Sym(_) | LpNode::Lam(..) | LpNode::Pi(..) =>
            Ok(()),
    }
}
