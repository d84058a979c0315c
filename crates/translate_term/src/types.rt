//! The walk that makes the tree of a type.
ghost use Rattle.std.specs.Prelude.{◌≡◌, ◌<◌, [], ◌∷◌, List, IsSome, IfOk, OnOk};
ghost use Rattle.lp_term.specs.Tables as lp;
ghost use Rattle.holide_sig.specs.Modules.{declarations_of};
ghost use Rattle.translate_laws.specs.ListedScopes.{told_types};
ghost use Rattle.translate_term.specs.declared.tasks.Task.TheVariants as task;
ghost use Rattle.translate_term.specs.Sources.{AppliesTold, GoesOnFromJoin, IsAtJoin, IsOnTypes, MakesType, MayBegin, NotesTypes, TypesEnd, TypesGoOn};
ghost use Rattle.translate_term.specs.Tasks.{AreAll, IsDone, work};
ghost use Rattle.translate_term.specs.Told.{told_operator};
ghost use Rattle.translate_term.specs.Walks.{AreNoted, Given, Grows, IsGiven, size_at};

use crate::memo::TypeMemo;
use crate::scope::ScopeTypes;
use crate::sources::TypeSource;
use crate::symbols::operator;
use crate::tasks::{Task, set_out};
use common::{Memory, Stack};
use hol_name::Name;
use hol_type::{TypeId, TypeView};
use holide_sig::symbols::BOOL;
use holide_sig::{Module, call};
use lp_term::{LpId, LpNode};
use std::alloc::Global;

// The tree of a type. What was made is noted in the memo.
pub(crate) fn type_of(
    source: TypeSource<'_>,
    target: &mut Module,
    memo: &mut TypeMemo,
    root: TypeId,
) -> Result<LpId, Memory>
    requires { MayBegin source.table.now source.scope.now root target.old memo.old }
    ensures made { IfOk result (MakesType source.entry.table.now source.entry.scope.now root target.old memo.old target.new) }
    ensures noted { OnOk result (NotesTypes source.entry.table.now source.entry.scope.now root target.old memo.old target.new memo.new) }
    ensures grows { Grows target.old target.new }
{
    match memo.find(root) {
        Some(tree) => Ok(tree),
        None => {
            make(source, target, memo, root)?;
            Ok(memo.find(root).unwrap())
        }
    }
}

// Makes the tree of a type and notes it: at once where it has no arguments, and else by a walk.
fn make(
    source: TypeSource<'_>,
    target: &mut Module,
    memo: &mut TypeMemo,
    root: TypeId,
) -> Result<(), Memory>
    requires { MayBegin source.table.now source.scope.now root target.old memo.old }
    ensures ends { OnOk result (TypesEnd source.entry root target.old memo.old target.new memo.new) }
    ensures grows { Grows target.old target.new }
{
    match source.table.view(root) {
        TypeView::Var(name) => {
            let tree = variable(target, source.scope, name)?;
            memo.note(root, tree)
        }
        TypeView::Op(_, []) => join(source, target, root, memo),
        TypeView::Op(..) => {
            let mut tasks = Stack::new(source.alloc);
            let ended = walked(source, target, root, &mut tasks, memo);
            drop(tasks);
            ended
        }
    }
}

// Makes the tree of a type by a walk that has nothing else to do.
fn walked(
    source: TypeSource<'_>,
    target: &mut Module,
    root: TypeId,
    tasks: &mut Stack<Task<TypeId>>,
    memo: &mut TypeMemo,
) -> Result<(), Memory>
    requires nothing_else { tasks.old ≡ [] }
    requires begins { MayBegin source.table.now source.scope.now root target.old memo.old }
    ensures ends { OnOk result (TypesEnd source.entry root target.old memo.old target.new memo.new) }
    ensures grows { Grows target.old target.new }
{
    tasks.push(Task::Visit(root))?;
    while let Some(task) = tasks.pop() {
        turn(source, target, task, tasks, memo)?;
    }
    Ok(())
}

// One turn of the walk.
fn turn(
    source: TypeSource<'_>,
    target: &mut Module,
    task: Task<TypeId>,
    tasks: &mut Stack<Task<TypeId>>,
    memo: &mut TypeMemo,
) -> Result<(), Memory>
    requires { IsOnTypes source target.old (task ∷ tasks.old) memo.old }
    ensures grows { Grows target.old target.new }
    ensures walk { OnOk result (TypesGoOn source.entry target.old (task ∷ tasks.old) memo.old target.new tasks.new memo.new) }
    ensures less { OnOk result (work (size_at source.entry.table.now) tasks.new < work (size_at source.entry.table.now) (task ∷ tasks.old)) }
{
    match task {
        Task::Visit(id) => visit(source, target, id, tasks, memo),
        Task::Join(id) => join(source, target, id, memo),
    }
}

// Makes what stands for a variable, or sets out to make an operator's arguments.
fn visit(
    source: TypeSource<'_>,
    target: &mut Module,
    id: TypeId,
    tasks: &mut Stack<Task<TypeId>>,
    memo: &mut TypeMemo,
) -> Result<(), Memory>
    requires { IsOnTypes source target.old (task.Visit id ∷ tasks.old) memo.old }
    ensures grows { Grows target.old target.new }
    ensures walk { OnOk result (TypesGoOn source.entry target.old (task.Visit id ∷ tasks.old) memo.old target.new tasks.new memo.new) }
    ensures less { OnOk result (work (size_at source.entry.table.now) tasks.new < work (size_at source.entry.table.now) (task.Visit id ∷ tasks.old)) }
{
    match memo.find(id) {
        Some(_) => Ok(()),
        None => match source.table.view(id) {
            TypeView::Var(name) => {
                let tree = variable(target, source.scope, name)?;
                memo.note(id, tree)
            }
            TypeView::Op(_, args) => set_out(tasks, id, args),
        },
    }
}

// What stands for a type variable: `bool` where nothing is told.
fn variable(target: &mut Module, scope: &ScopeTypes, name: &Name) -> Result<LpId, Memory>
    requires { (given : Given) × IsGiven given target.old scope.now }
    ensures made { IfOk result (λ r. (given : Given) → IsGiven given target.old scope.now → lp.Holds target.new.table r.0 (told_types given.types name.now)) }
    ensures grows { Grows target.old target.new }
{
    match scope.find(name) {
        Some(tree) => Ok(tree),
        None => target.table.node(LpNode::Sym(BOOL)),
    }
}

// Makes an operator of what was made of its arguments.
fn join(
    source: TypeSource<'_>,
    target: &mut Module,
    id: TypeId,
    memo: &mut TypeMemo,
) -> Result<(), Memory>
    requires { IsAtJoin source target.old id memo.old }
    ensures grows { Grows target.old target.new }
    ensures walk { OnOk result (GoesOnFromJoin source.entry target.old id memo.old target.new memo.new) }
{
    let TypeView::Op(name, args) = source.table.view(id) else {
        return Ok(());
    };
    let parts = parts(source.alloc, memo, args)?;
    let made = applied_to(source.alloc, target, name, args.len(), &parts);
    drop(parts);
    let tree = made?;
    memo.note(id, tree)
}

// The symbol of an operator with so many arguments, applied to trees.
fn applied_to(
    alloc: Global,
    target: &mut Module,
    name: &Name,
    arity: usize,
    trees: &[LpId],
) -> Result<LpId, Memory>
    requires found { IsSome (told_operator (declarations_of target.old) name.now arity) }
    requires known { lp.AreKnown target.old.table trees.now }
    ensures made { IfOk result (AppliesTold target.old name.now arity trees.now target.new) }
    ensures grows { Grows target.old target.new }
{
    let mut text = Vec::new(alloc);
    let found = operator(target, name, arity, &mut text);
    drop(text);
    let symbol = found?.unwrap();
    call(&mut target.table, symbol, trees)
}

// What was made of some types.
fn parts(alloc: Global, memo: &TypeMemo, ids: &[TypeId]) -> Result<Vec<LpId>, Memory>
    requires { AreAll (IsDone memo.now) ids.now }
    ensures { IfOk result (λ parts. AreNoted memo.now ids.now parts.items) }
{
    let mut parts = Vec::new(alloc);
    for id in ids {
        parts.push(memo.find(*id).unwrap())?;
    }
    Ok(parts)
}
