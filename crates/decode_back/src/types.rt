//! The types that trees stand for.
ghost use Rattle.std.specs.Prelude.{true, false, ◌≡◌, ◌<◌, ◌≤◌, ◌∷◌, ◌++◌, ℕ, List, Option, length, IfOk, IfSome, OnOk};
ghost use Rattle.hol_spec.specs.ClosedForm.{ClosedType, ClosedTypes};
ghost use Rattle.hol_spec.specs.Limits.{greatest_depth};
ghost use Rattle.lp_spec.specs.Trees.{Sym, Var};
ghost use Rattle.lp_spec.specs.Modules.{Declaration};
ghost use Rattle.translate_spec.specs.TypeEnc.{Place as APlace};
ghost use Rattle.hol_type.specs.Tables.{AreKnown};
ghost use Rattle.hol_term.specs.Tables.{Keeps};
ghost use Rattle.lp_term.specs.Tables.{tree_at};
ghost use Rattle.holide_sig.specs.Modules.{declarations_of, IsHeld};
ghost use Rattle.decode_spec.specs.Decode.{type_from, type_of_tree};
ghost use Rattle.decode_back.specs.Walks.{at_place, greatest_number, AreArguments, IsTypeFound};
ghost use Rattle.decode_back.specs.TypeTasks.{with_type_task, ComesTo, IsTypeTurned, type_work};

use crate::made::{keep, take};
use crate::names::parameter_name;
use crate::places::Place;
use crate::symbols::operator_at;
use common::{Fault, Memory, Stack};
use hol_term::TermTable;
use hol_type::TypeId;
use holide_sig::{Module, SIGNATURE};
use lp_term::{LpId, LpNode};
use std::alloc::Global;

/// What is still to be done on the way through a type: to decode this tree, applied to so many of the types that were made
/// last, the first of them last, into a type no deeper than the level.
#[derive(Clone, Copy)]
struct TypeTask {
    head: LpId,
    arguments: usize,
    level: usize,
}

/// The way through a type: what is still to be done, and the types that were made and not yet taken up.
#[derive(Drop)]
struct TypeWalk {
    tasks: Stack<TypeTask>,
    made: Stack<TypeId>,
}

/// The type that a tree stands for at a place, no larger than the greatest size and no deeper than the level.
pub fn decode_type(
    alloc: Global,
    source: &Module,
    place: Place,
    table: &mut TermTable,
    level: usize,
    id: LpId,
) -> Result<Option<TypeId>, Memory>
    requires held { IsHeld source.now }
    requires few { place.type_variables ≤ greatest_number }
    requires level { level ≤ greatest_depth }
    requires known { id.0 < length source.now.table }
    ensures decoded { IfOk result (IsTypeFound level (type_of_tree (declarations_of source.now) (at_place place) (tree_at source.now.table id.0)) table.new) }
    ensures known { IfOk result (λ found. IfSome found (λ t. t.0 < length table.new.types)) }
    ensures keeps { Keeps table.old table.new }
{
    let tasks = Stack::new(alloc);
    let made = Stack::new(alloc);
    let mut walk = TypeWalk { tasks, made };
    walk.tasks.push(TypeTask {
        head: id,
        arguments: 0,
        level,
    })?;
    while let Some(task) = walk.tasks.pop() {
        if !turn(alloc, source, place, table, task, &mut walk)? {
            return Ok(None);
        }
    }
    Ok(walk.made.pop())
}

// One turn of decoding a type, and whether it goes on.
fn turn(
    alloc: Global,
    source: &Module,
    place: Place,
    table: &mut TermTable,
    task: TypeTask,
    walk: &mut TypeWalk,
) -> Result<bool, Memory>
    requires held { IsHeld source.now }
    requires few { place.type_variables ≤ greatest_number }
    requires walk { (limit : ℕ) × (root : Option ClosedType) × ComesTo source.now place limit root table.old (with_type_task task walk.old) }
    ensures turned { IfOk result (IsTypeTurned source.now place table.old (with_type_task task walk.old) table.new walk.new) }
    ensures less { OnOk result (type_work source.now.table walk.new.tasks < type_work source.now.table (task ∷ walk.old.tasks)) }
    ensures keeps { Keeps table.old table.new }
{
    if task.level == 0 {
        return Ok(false);
    }
    match source.table.view(task.head) {
        LpNode::App(function, argument) => {
            walk.tasks.push(TypeTask {
                head: function,
                arguments: task.arguments + 1,
                level: task.level,
            })?;
            walk.tasks.push(TypeTask {
                head: argument,
                arguments: 0,
                level: task.level - 1,
            })?;
            Ok(true)
        }
        LpNode::Sym(symbol) => {
            let args = gathered(alloc, task.arguments, &mut walk.made)?;
            let found = operator(alloc, source, table, task.level, symbol, args)?;
            keep(found, &mut walk.made)
        }
        LpNode::Var(variable) => {
            if task.arguments > 0 {
                return Ok(false);
            }
            let found = parameter(alloc, place, table, task.level, variable)?;
            keep(found, &mut walk.made)
        }
        LpNode::SortType | LpNode::SortKind | LpNode::Lam(_, _) | LpNode::Pi(_, _) => Ok(false),
    }
}

// Takes up so many of the types that were made last.
fn gathered(alloc: Global, count: usize, made: &mut Stack<TypeId>) -> Result<Vec<TypeId>, Memory>
    requires { count ≤ length made.old }
    ensures parts { IfOk result (λ args. made.old ≡ args.items ++ made.new) }
    ensures count { IfOk result (λ args. length args.items ≡ count) }
{
    let mut args = Vec::new(alloc);
    for _ in 0..count {
        args.push(take(made))?;
    }
    Ok(args)
}

// The operator that a symbol stands for over these arguments.
fn operator(
    alloc: Global,
    source: &Module,
    table: &mut TermTable,
    level: usize,
    symbol: usize,
    args: Vec<TypeId>,
) -> Result<Option<TypeId>, Memory>
    requires held { IsHeld source.now }
    requires level { level ≤ greatest_depth }
    requires args { AreKnown table.old.types args.items }
    ensures decoded { IfOk result (λ found. (at : APlace) (acc : ClosedTypes) → AreArguments table.old args.items acc
        → IsTypeFound level (type_from (declarations_of source.now) at (Sym symbol) acc) table.new found) }
    ensures known { IfOk result (λ found. IfSome found (λ t. t.0 < length table.new.types)) }
    ensures keeps { Keeps table.old table.new }
{
    if symbol >= SIGNATURE + source.decls.len() {
        return Ok(None);
    }
    let Some(name) = operator_at(alloc, source, symbol, args.len())? else {
        return Ok(None);
    };
    match table.ty_op(&name, &args) {
        Ok(made) => Ok(Some(made)),
        Err(Fault::Memory) => Err(Memory),
        Err(Fault::Refused(_)) => Ok(None),
    }
}

// The type variable of a binder.
fn parameter(
    alloc: Global,
    place: Place,
    table: &mut TermTable,
    level: usize,
    variable: u128,
) -> Result<Option<TypeId>, Memory>
    requires few { place.type_variables ≤ greatest_number }
    ensures decoded { IfOk result (λ found. (d : List Declaration) → IsTypeFound level (type_of_tree d (at_place place) (Var variable)) table.new found) }
    ensures known { IfOk result (λ found. IfSome found (λ t. t.0 < length table.new.types)) }
    ensures keeps { Keeps table.old table.new }
{
    let depth = place.depth();
    if variable >= depth {
        return Ok(None);
    }
    let number = depth - 1 - variable;
    if number >= place.type_variables as u128 {
        return Ok(None);
    }
    let name = parameter_name(alloc, number as usize)?;
    match table.ty_var(&name) {
        Ok(made) => Ok(Some(made)),
        Err(_) => Err(Memory),
    }
}
