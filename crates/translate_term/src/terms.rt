//! The walk that makes the tree of a term.
ghost use Rattle.std.specs.Prelude.{◌≡◌, ◌+◌, ◌<◌, ◌^◌, ◌∷◌, length, IfOk, OnOk};
ghost use Rattle.lp_term.specs.Tables as lp;
ghost use Rattle.translate_term.specs.declared.tasks.Task.TheVariants as task;
ghost use Rattle.translate_term.specs.Sources.{at_root, part_at, with_task, works_left, Begins, HoldsTerm, IsConstantTold, IsOnTerms, IsOver, IsStart, MakesConstant, MakesDomain, MakesFiller, MakesFree, MakesTerm, MakesType, MayBegin, NotesTypes, TermsGoOn};
ghost use Rattle.translate_term.specs.Walks.{AreGiven, Given, Grows, IsLeafAt, IsLeafMade, IsMadeAt};

use crate::generic::constant_of;
use crate::memo::{Place, TermMemo, TypeMemo};
use crate::nodes::filling;
use crate::sources::{Source, TypeSource};
use crate::tasks::Task;
use crate::types::type_of;
use common::{Memory, Stack};
use hol_name::Name;
use hol_term::{TermId, TermView, Variable};
use hol_type::TypeId;
use holide_sig::symbols::TERM;
use holide_sig::{Module, call};
use lp_term::{LpId, LpNode};

/// A walk on its way: what it is still to do, what it has made of terms and of types, and a text to spell names into.
#[derive(Drop)]
pub(crate) struct Walk {
    tasks: Stack<Task<Place>>,
    made: TermMemo,
    types: TypeMemo,
    text: Vec<u8>,
}

// The tree of a term under no binder.
pub(crate) fn term_tree(source: Source<'_>, target: &mut Module, id: TermId) -> Result<LpId, Memory>
    requires { (given : Given) × IsStart given id source target.old }
    ensures made { IfOk result (λ r. (given : Given) → IsStart given id source.entry target.old → HoldsTerm given (at_root id) source.entry target.new r) }
    ensures grows { Grows target.old target.new }
{
    let root = Place { id, depth: 0 };
    let mut walk = Walk {
        tasks: Stack::new(source.alloc),
        made: TermMemo::new(source.alloc),
        types: TypeMemo::new(source.alloc),
        text: Vec::new(source.alloc),
    };
    let tree = walked(source, target, root, &mut walk);
    drop(walk);
    tree
}

// The tree of the term at a place that a walk is to visit next.
fn walked(
    source: Source<'_>,
    target: &mut Module,
    root: Place,
    walk: &mut Walk,
) -> Result<LpId, Memory>
    requires { (given : Given) × IsOver given root source target.old (with_task (task.Visit root) walk.old) }
    ensures made { IfOk result (MakesTerm root source.entry target.old (with_task (task.Visit root) walk.old) target.new) }
    ensures grows { Grows target.old target.new }
{
    walk.tasks.push(Task::Visit(root))?;
    while let Some(task) = walk.tasks.pop() {
        turn(source, target, task, walk)?;
    }
    Ok(walk.made.find(root).unwrap())
}

// One turn of the walk.
fn turn(
    source: Source<'_>,
    target: &mut Module,
    task: Task<Place>,
    walk: &mut Walk,
) -> Result<(), Memory>
    requires { IsOnTerms source target.old (with_task task walk.old) }
    ensures grows { Grows target.old target.new }
    ensures walk { OnOk result (TermsGoOn source.entry target.old (with_task task walk.old) target.new walk.new) }
    ensures less { OnOk result (works_left source.entry walk.new < works_left source.entry (with_task task walk.old)) }
{
    match task {
        Task::Visit(place) => visit(source, target, place, walk),
        Task::Join(place) => join(source, target, place, walk),
    }
}

// Makes a term without parts, or sets out to make the parts.
fn visit(
    source: Source<'_>,
    target: &mut Module,
    place: Place,
    walk: &mut Walk,
) -> Result<(), Memory>
    requires { IsOnTerms source target.old (with_task (task.Visit place) walk.old) }
    ensures grows { Grows target.old target.new }
    ensures walk { OnOk result (TermsGoOn source.entry target.old (with_task (task.Visit place) walk.old) target.new walk.new) }
    ensures less { OnOk result (works_left source.entry walk.new < works_left source.entry (with_task (task.Visit place) walk.old)) }
{
    match walk.made.find(place) {
        Some(_) => Ok(()),
        None => match source.table.view(place.id) {
            TermView::App(f, x) => set_out_two(walk, place, f, x),
            TermView::Lam(_, body) => set_out_one(walk, place, body),
            TermView::Bound(k) => note_node(target, LpNode::Var(k), place, &mut walk.made),
            TermView::Free(..) | TermView::Const(..) => visit_leaf(source, target, place, walk),
        },
    }
}

// Lifts what is noted for a free variable or a constant under no binder, or makes it.
fn visit_leaf(
    source: Source<'_>,
    target: &mut Module,
    place: Place,
    walk: &mut Walk,
) -> Result<(), Memory>
    requires leaf { IsLeafAt source.table.now place.id }
    requires walk { IsOnTerms source target.old (with_task (task.Visit place) walk.old) }
    ensures grows { Grows target.old target.new }
    ensures walk { OnOk result (TermsGoOn source.entry target.old (with_task (task.Visit place) walk.old) target.new walk.new) }
    ensures tasks { walk.new.tasks ≡ walk.old.tasks }
{
    match walk.made.find(at(place.id, 0)) {
        Some(tree) => note_lifted(target, tree, place, &mut walk.made),
        None => make_leaf(source, target, place, walk),
    }
}

// Makes what stands for a free variable or a constant under no binder, and lifts it to its place.
fn make_leaf(
    source: Source<'_>,
    target: &mut Module,
    place: Place,
    walk: &mut Walk,
) -> Result<(), Memory>
    requires leaf { IsLeafAt source.table.now place.id }
    requires walk { IsOnTerms source target.old (with_task (task.Visit place) walk.old) }
    ensures grows { Grows target.old target.new }
    ensures walk { OnOk result (TermsGoOn source.entry target.old (with_task (task.Visit place) walk.old) target.new walk.new) }
    ensures tasks { walk.new.tasks ≡ walk.old.tasks }
{
    match source.table.view(place.id) {
        TermView::Free(name, ty) => {
            let tree = variable(source, target, &mut walk.types, name, ty)?;
            note_leaf(target, tree, place, &mut walk.made)
        }
        TermView::Const(name, ty) => {
            let tree = constant(source, target, &mut walk.types, &mut walk.text, name, ty)?;
            note_leaf(target, tree, place, &mut walk.made)
        }
        TermView::App(..) | TermView::Lam(..) | TermView::Bound(_) => Ok(()),
    }
}

// Makes a node, and notes it for a place.
fn note_node(
    target: &mut Module,
    node: LpNode,
    place: Place,
    made: &mut TermMemo,
) -> Result<(), Memory>
    requires { lp.PartsBelow (length target.old.table) node }
    ensures made { OnOk result (IsMadeAt place made.old made.new target.new.table (lp.tree_of_node target.old.table node)) }
    ensures grows { Grows target.old target.new }
{
    let tree = target.table.node(node)?;
    made.note(place, tree)
}

// Lifts a tree over the binders round a place, and notes it there.
fn note_lifted(
    target: &mut Module,
    tree: LpId,
    place: Place,
    made: &mut TermMemo,
) -> Result<(), Memory>
    requires { tree.0 < length target.old.table }
    ensures made { OnOk result (IsLeafMade place made.old made.new target.new.table (lp.tree_at target.old.table tree.0)) }
    ensures grows { Grows target.old target.new }
{
    let lifted = target.table.lift(place.depth, tree)?;
    made.note(place, lifted)
}

// Notes a tree for a term under no binder, and lifts it over the binders round its place.
fn note_leaf(
    target: &mut Module,
    tree: LpId,
    place: Place,
    made: &mut TermMemo,
) -> Result<(), Memory>
    requires { tree.0 < length target.old.table }
    ensures made { OnOk result (IsLeafMade place made.old made.new target.new.table (lp.tree_at target.old.table tree.0)) }
    ensures grows { Grows target.old target.new }
{
    if place.depth == 0 {
        return made.note(place, tree);
    }
    made.note(at(place.id, 0), tree)?;
    note_lifted(target, tree, place, made)
}

// Sets out to make both parts of an application, and then to come back to it.
fn set_out_two(walk: &mut Walk, place: Place, f: TermId, x: TermId) -> Result<(), Memory>
    ensures tasks { OnOk result (walk.new.tasks ≡ task.Visit (part_at place f) ∷ task.Visit (part_at place x) ∷ task.Join place ∷ walk.old.tasks) }
    ensures made { walk.new.made ≡ walk.old.made }
    ensures types { walk.new.types ≡ walk.old.types }
{
    walk.tasks.push(Task::Join(place))?;
    walk.tasks.push(Task::Visit(at(x, place.depth)))?;
    walk.tasks.push(Task::Visit(at(f, place.depth)))?;
    Ok(())
}

// Sets out to make the body of an abstraction, and then to come back to it.
fn set_out_one(walk: &mut Walk, place: Place, body: TermId) -> Result<(), Memory>
    requires { place.depth + 1 < 2 ^ 128 }
    ensures tasks { OnOk result (walk.new.tasks ≡ task.Visit (record { id = body; depth = place.depth + 1 }) ∷ task.Join place ∷ walk.old.tasks) }
    ensures made { walk.new.made ≡ walk.old.made }
    ensures types { walk.new.types ≡ walk.old.types }
{
    walk.tasks.push(Task::Join(place))?;
    walk.tasks.push(Task::Visit(at(body, place.depth + 1)))?;
    Ok(())
}

fn at(id: TermId, depth: u128) -> Place
    ensures { result ≡ record { id = id; depth = depth } }
{
    Place { id, depth }
}

// What stands for a free variable under no binder: some term of its type where nothing is told.
fn variable(
    source: Source<'_>,
    target: &mut Module,
    memo: &mut TypeMemo,
    name: &Name,
    ty: TypeId,
) -> Result<LpId, Memory>
    requires { (given : Given) × Begins given ty source target.old memo.old × AreGiven given target.old source.table.now.types source.scope.now.terms }
    ensures made { IfOk result (MakesFree name.now source.entry ty target.old memo.old target.new) }
    ensures noted { OnOk result (NotesTypes source.entry.table.now.types source.entry.scope.now.types ty target.old memo.old target.new memo.new) }
    ensures grows { Grows target.old target.new }
{
    // No type has two numbers, so a number tells the type.
    let _count = source.table.types().count();
    let wanted = Variable {
        name: name.clone()?,
        ty,
    };
    let told = source.scope.terms.find(&wanted);
    drop(wanted);
    match told {
        Some(tree) => Ok(tree),
        None => some_term(source, target, memo, ty),
    }
}

// Some term of a type, under no binder.
fn some_term(
    source: Source<'_>,
    target: &mut Module,
    memo: &mut TypeMemo,
    ty: TypeId,
) -> Result<LpId, Memory>
    requires { (given : Given) × Begins given ty source target.old memo.old }
    ensures made { IfOk result (MakesFiller source.entry ty target.old memo.old target.new) }
    ensures noted { OnOk result (NotesTypes source.entry.table.now.types source.entry.scope.now.types ty target.old memo.old target.new memo.new) }
    ensures grows { Grows target.old target.new }
{
    let filled = type_in(source, target, memo, ty)?;
    filling(&mut target.table, filled)
}

// A constant under no binder: its symbol at what the variables of its generic type have in its type.
fn constant(
    source: Source<'_>,
    target: &mut Module,
    memo: &mut TypeMemo,
    text: &mut Vec<u8>,
    name: &Name,
    ty: TypeId,
) -> Result<LpId, Memory>
    requires { (given : Given) × Begins given ty source target.old memo.old × IsConstantTold given name.now ty source }
    ensures made { IfOk result (MakesConstant name.now source.entry ty target.old memo.old target.new) }
    ensures noted { OnOk result (NotesTypes source.entry.table.now.types source.entry.scope.now.types ty target.old memo.old target.new memo.new) }
    ensures grows { Grows target.old target.new }
{
    let tree = type_in(source, target, memo, ty)?;
    constant_of(source.alloc, target, name, tree, text)
}

// The tree of a type of a source of terms.
fn type_in(
    source: Source<'_>,
    target: &mut Module,
    memo: &mut TypeMemo,
    ty: TypeId,
) -> Result<LpId, Memory>
    requires { MayBegin source.table.now.types source.scope.now.types ty target.old memo.old }
    ensures made { IfOk result (MakesType source.entry.table.now.types source.entry.scope.now.types ty target.old memo.old target.new) }
    ensures noted { OnOk result (NotesTypes source.entry.table.now.types source.entry.scope.now.types ty target.old memo.old target.new memo.new) }
    ensures grows { Grows target.old target.new }
{
    let types = TypeSource {
        alloc: source.alloc,
        table: source.table.types(),
        scope: &source.scope.types,
    };
    type_of(types, target, memo, ty)
}

// Makes a term of what was made of its parts.
fn join(
    source: Source<'_>,
    target: &mut Module,
    place: Place,
    walk: &mut Walk,
) -> Result<(), Memory>
    requires { IsOnTerms source target.old (with_task (task.Join place) walk.old) }
    ensures grows { Grows target.old target.new }
    ensures walk { OnOk result (TermsGoOn source.entry target.old (with_task (task.Join place) walk.old) target.new walk.new) }
    ensures less { OnOk result (works_left source.entry walk.new < works_left source.entry (with_task (task.Join place) walk.old)) }
{
    match source.table.view(place.id) {
        TermView::App(f, x) => {
            let function = walk.made.find(at(f, place.depth)).unwrap();
            let argument = walk.made.find(at(x, place.depth)).unwrap();
            note_node(
                target,
                LpNode::App(function, argument),
                place,
                &mut walk.made,
            )
        }
        TermView::Lam(ty, body) => {
            let inside = walk.made.find(at(body, place.depth + 1)).unwrap();
            let domain = domain(source, target, &mut walk.types, ty, place.depth)?;
            note_node(target, LpNode::Lam(domain, inside), place, &mut walk.made)
        }
        TermView::Free(..) | TermView::Bound(_) | TermView::Const(..) => Ok(()),
    }
}

// The terms of a type, under so many binders.
fn domain(
    source: Source<'_>,
    target: &mut Module,
    memo: &mut TypeMemo,
    ty: TypeId,
    depth: u128,
) -> Result<LpId, Memory>
    requires { (given : Given) × Begins given ty source target.old memo.old }
    ensures made { IfOk result (MakesDomain depth source.entry ty target.old memo.old target.new) }
    ensures noted { OnOk result (NotesTypes source.entry.table.now.types source.entry.scope.now.types ty target.old memo.old target.new memo.new) }
    ensures grows { Grows target.old target.new }
{
    let tree = type_in(source, target, memo, ty)?;
    let lifted = target.table.lift(depth, tree)?;
    call(&mut target.table, TERM, &[lifted])
}
