//! The walks over the nodes of a closed sequent, and the products over its parameters.
ghost use Rattle.std.specs.Prelude.{◌≡◌, ◌+◌, ◌-◌, ◌<◌, ◌≤◌, ◌^◌, [], ◌∷◌, List, length, map, replicate, IsSome, IfOk, OnOk};
ghost use Rattle.hol_spec.specs.Sequents.{Sequent};
ghost use Rattle.hol_spec.specs.Terms.{Term as ATerm};
ghost use Rattle.hol_spec.specs.Types.{HolType};
ghost use Rattle.lp_spec.specs.Modules.{products, term_of, types as sorts};
ghost use Rattle.lp_spec.specs.Trees.{App, Lam, Pi, Sym, Var};
ghost use Rattle.lp_term.specs.Tables.{tree_at, tree_of_node, Holds, PartsBelow};
ghost use Rattle.holide_sig.specs.Modules.{declarations_of, IsHeld};
ghost use Rattle.translate_spec.specs.Scopes.{SymbolMap, TypeScope};
ghost use Rattle.sequent.specs.Closed.{closed_term_view, closed_type_view, closed_view};
ghost use Rattle.translate_term.specs.declared.closed.TermWork.TheVariants as term_work;
ghost use Rattle.translate_term.specs.declared.closed.TypeWork.TheVariants as type_work;
ghost use Rattle.translate_term.specs.Closed.{AreHypotheses, AreVariables, IsPut, IsTermToMake, IsTypeToMake, Numbered, nodes_work, works_of};
ghost use Rattle.translate_term.specs.ClosedWalks.{terms_work, with_term_work, with_type_work, IsOverTerms, IsOverTypes, IsTermVisit, IsTypeVisit, MakesHypotheses, MakesSequent, MakesStatement, MakesTermOf, MakesTermRoot, MakesTypeOf, MakesTypeRoot, MakesVariables, PutsConstant, PutsOperator, TermsGoOn, TermsVisit, TypesGoOn, TypesVisit, WorksGoOn};
ghost use Rattle.translate_term.specs.Patterns.{IsTypeTree};
ghost use Rattle.translate_term.specs.Told.{TellsClosed, told_operator};
ghost use Rattle.translate_term.specs.Walks.{Grows};

use crate::generic::constant_of;
use crate::symbols::operator;
use common::{Memory, Stack};
use hol_name::Name;
use holide_sig::symbols::{PROOF, TERM, TYPE};
use holide_sig::{Module, call};
use lp_term::{LpId, LpNode};
use sequent::{Closed, ClosedTerm, ClosedType, TermNode, TypeNode};
use std::alloc::Global;

/// What is still to be done for a type. What was made lies on a stack.
#[derive(Clone, Copy)]
pub(crate) enum TypeWork {
    /// To make the tree of the next type.
    Next,
    /// To apply a function to its argument, which was made after it.
    Apply,
    /// To apply what was made last to so many types.
    ApplyTo(usize),
}

/// What is still to be done for a term. What was made lies on a stack.
#[derive(Clone, Copy)]
pub(crate) enum TermWork {
    /// To make the tree of the next term, under so many binders.
    Next(u128),
    /// To apply a function to its argument, which was made after it.
    Apply,
    /// To make an abstraction of its variable's type and its body, which was made after it.
    Bind,
}

/// A walk over the nodes of a type: what it is still to do, the trees that it made and did not take up yet, and a text to spell names into.
#[derive(Drop)]
pub(crate) struct TypeWalk {
    works: Stack<TypeWork>,
    made: Stack<LpId>,
    text: Vec<u8>,
}

/// Such a walk over the nodes of a term.
#[derive(Drop)]
pub(crate) struct TermWalk {
    works: Stack<TermWork>,
    made: Stack<LpId>,
    text: Vec<u8>,
}

// The type of the theorems of a closed sequent: the product over its parameters.
pub(crate) fn closed_type(
    alloc: Global,
    target: &mut Module,
    closed: &Closed,
) -> Result<LpId, Memory>
    requires held { IsHeld target.old }
    requires told { (symbols : SymbolMap) × (s : Sequent) × TellsClosed (declarations_of target.old) symbols s (closed_view closed.now) }
    ensures made { IfOk result (MakesSequent target.old (closed_view closed.now) target.new) }
    ensures grows { Grows target.old target.new }
{
    let under_terms = statement(alloc, target, closed)?;
    let under_types = over_variables(
        alloc,
        target,
        closed.type_vars,
        &closed.free_vars,
        under_terms,
    )?;
    over_types(target, closed.type_vars, under_types)
}

// The product over the hypotheses of a closed sequent, which ends in the proofs of its conclusion.
fn statement(alloc: Global, target: &mut Module, closed: &Closed) -> Result<LpId, Memory>
    requires held { IsHeld target.old }
    requires told { (symbols : SymbolMap) × (s : Sequent) × TellsClosed (declarations_of target.old) symbols s (closed_view closed.now) }
    ensures made { IfOk result (MakesStatement target.old (closed_view closed.now) target.new) }
    ensures grows { Grows target.old target.new }
{
    let terms = closed.type_vars as u128 + closed.free_vars.len() as u128;
    let proofs = terms + closed.hyps.len() as u128;
    let conclusion = tree_of_term(alloc, target, closed.type_vars, &closed.concl, proofs)?;
    let proof = call(&mut target.table, PROOF, &[conclusion])?;
    over_hypotheses(alloc, target, closed.type_vars, terms, &closed.hyps, proof)
}

// The product over hypotheses, the first of which stands under so many binders.
fn over_hypotheses(
    alloc: Global,
    target: &mut Module,
    type_vars: usize,
    outside: u128,
    hyps: &[ClosedTerm],
    inside: LpId,
) -> Result<LpId, Memory>
    requires are { (given : Numbered) × (hs : List ATerm) × AreHypotheses given hs target.old type_vars outside (map closed_term_view hyps.now) inside }
    requires small { outside < 2 ^ 65 }
    ensures made { IfOk result (MakesHypotheses target.old type_vars outside (map closed_term_view hyps.now) inside target.new) }
    ensures grows { Grows target.old target.new }
{
    let mut product = inside;
    let mut rest = hyps;
    while let [front @ .., last] = rest {
        let depth = outside + front.len() as u128;
        let formula = tree_of_term(alloc, target, type_vars, last, depth)?;
        product = product_over(target, PROOF, formula, product)?;
        rest = front;
    }
    Ok(product)
}

// The product over free variables of these types, the first under the binders of the type variables.
fn over_variables(
    alloc: Global,
    target: &mut Module,
    type_vars: usize,
    types: &[ClosedType],
    inside: LpId,
) -> Result<LpId, Memory>
    requires { (given : Numbered) × (ts : List HolType) × AreVariables given ts target.old type_vars (map closed_type_view types.now) inside }
    ensures made { IfOk result (MakesVariables target.old type_vars (map closed_type_view types.now) inside target.new) }
    ensures grows { Grows target.old target.new }
{
    let mut product = inside;
    let mut rest = types;
    while let [front @ .., last] = rest {
        let depth = type_vars as u128 + front.len() as u128;
        let ty = tree_of_type(alloc, target, last, depth)?;
        product = product_over(target, TERM, ty, product)?;
        rest = front;
    }
    Ok(product)
}

// The product over what a symbol makes of a tree.
fn product_over(
    target: &mut Module,
    symbol: usize,
    tree: LpId,
    inside: LpId,
) -> Result<LpId, Memory>
    requires { (tree.0 < length target.old.table) × (inside.0 < length target.old.table) }
    ensures made { IfOk result (λ r. Holds target.new.table r.0 (Pi (App (Sym symbol) (tree_at target.old.table tree.0)) (tree_at target.old.table inside.0))) }
    ensures grows { Grows target.old target.new }
{
    let domain = call(&mut target.table, symbol, &[tree])?;
    target.table.node(LpNode::Pi(domain, inside))
}

// The product over so many type variables.
fn over_types(target: &mut Module, type_vars: usize, inside: LpId) -> Result<LpId, Memory>
    requires { inside.0 < length target.old.table }
    ensures made { IfOk result (λ r. Holds target.new.table r.0 (products (replicate type_vars sorts) (tree_at target.old.table inside.0))) }
    ensures grows { Grows target.old target.new }
{
    let mut product = inside;
    let mut left = type_vars;
    while left > 0 {
        left -= 1;
        let domain = target.table.node(LpNode::Sym(TYPE))?;
        product = target.table.node(LpNode::Pi(domain, product))?;
    }
    Ok(product)
}

// The tree of a type of a closed sequent, under so many binders.
fn tree_of_type(
    alloc: Global,
    target: &mut Module,
    ty: &ClosedType,
    depth: u128,
) -> Result<LpId, Memory>
    requires { (given : Numbered) × (t : HolType) × IsTypeToMake given t target.old (closed_type_view ty.now) }
    ensures made { IfOk result (MakesTypeOf target.old (closed_type_view ty.now) depth target.new) }
    ensures grows { Grows target.old target.new }
{
    let mut walk = TypeWalk {
        works: Stack::new(alloc),
        made: Stack::new(alloc),
        text: Vec::new(alloc),
    };
    let tree = type_made(target, &ty.nodes, depth, &mut walk);
    drop(walk);
    tree
}

// The tree of the type that nodes spell, by a walk that has nothing else to do.
fn type_made(
    target: &mut Module,
    nodes: &[TypeNode],
    depth: u128,
    walk: &mut TypeWalk,
) -> Result<LpId, Memory>
    requires { IsOverTypes target.old depth nodes.now (with_type_work type_work.Next walk.old) }
    ensures made { IfOk result (MakesTypeRoot target.old depth nodes.now (with_type_work type_work.Next walk.old) target.new) }
    ensures grows { Grows target.old target.new }
{
    walk.works.push(TypeWork::Next)?;
    let mut left = nodes;
    while let Some(work) = walk.works.pop() {
        left = turn_type(target, left, depth, work, walk)?;
    }
    Ok(one(&mut walk.made))
}

// One turn of the walk over the nodes of a type: those that are left.
fn turn_type<'a>(
    target: &mut Module,
    nodes: &'a [TypeNode],
    depth: u128,
    work: TypeWork,
    walk: &mut TypeWalk,
) -> Result<&'a [TypeNode], Memory>
    requires { IsOverTypes target.old depth nodes.now (with_type_work work walk.old) }
    ensures grows { Grows target.old target.new }
    ensures walk { IfOk result (λ left. TypesGoOn target.old depth nodes.now (with_type_work work walk.old) target.new left.now walk.new) }
    ensures less { IfOk result (λ left. works_of walk.new.works + nodes_work left.now < works_of (work ∷ walk.old.works) + nodes_work nodes.now) }
{
    match work {
        TypeWork::Next => begin_type(target, nodes, depth, walk),
        TypeWork::Apply => {
            let (function, argument) = two(&mut walk.made);
            put_node(target, LpNode::App(function, argument), &mut walk.made)?;
            Ok(nodes)
        }
        TypeWork::ApplyTo(count) => {
            set_out_to_apply(count, &mut walk.works)?;
            Ok(nodes)
        }
    }
}

// The next type as far as its arguments. What nodes lack is the first type variable.
fn begin_type<'a>(
    target: &mut Module,
    nodes: &'a [TypeNode],
    depth: u128,
    walk: &mut TypeWalk,
) -> Result<&'a [TypeNode], Memory>
    requires { IsOverTypes target.old depth nodes.now (with_type_work type_work.Next walk.old) }
    ensures grows { Grows target.old target.new }
    ensures walk { IfOk result (λ left. TypesGoOn target.old depth nodes.now (with_type_work type_work.Next walk.old) target.new left.now walk.new) }
    ensures less { IfOk result (λ left. works_of walk.new.works + nodes_work left.now ≤ works_of walk.old.works + nodes_work nodes.now) }
{
    match nodes {
        [] => {
            put_type_variable(target, 0, depth, &mut walk.made)?;
            Ok(nodes)
        }
        [node, left @ ..] => {
            visit_type(target, node, depth, walk)?;
            Ok(left)
        }
    }
}

// Makes the binder of a type variable, or an operator's symbol, which is to be applied to its arguments.
fn visit_type(
    target: &mut Module,
    node: &TypeNode,
    depth: u128,
    walk: &mut TypeWalk,
) -> Result<(), Memory>
    requires { IsTypeVisit target.old depth node.now walk.old }
    ensures grows { Grows target.old target.new }
    ensures walk { OnOk result (TypesVisit target.old depth node.now walk.old target.new walk.new) }
    ensures less { OnOk result (works_of walk.new.works ≤ works_of walk.old.works + nodes_work (node.now ∷ [])) }
{
    match node {
        TypeNode::Parameter(place) => put_type_variable(target, *place, depth, &mut walk.made),
        TypeNode::Operator(name, arity) => {
            put_operator(target, name, *arity, &mut walk.text, &mut walk.made)?;
            walk.works.push(TypeWork::ApplyTo(*arity))
        }
    }
}

// Sets out to apply what was made to so many types, the first innermost.
fn set_out_to_apply(count: usize, works: &mut Stack<TypeWork>) -> Result<(), Memory>
    ensures makes { OnOk result (WorksGoOn (type_work.ApplyTo count ∷ works.old) works.new) }
    ensures less { OnOk result (works_of works.new < works_of (type_work.ApplyTo count ∷ works.old)) }
{
    let Some(others) = count.checked_sub(1) else {
        return Ok(());
    };
    works.push(TypeWork::ApplyTo(others))?;
    works.push(TypeWork::Apply)?;
    works.push(TypeWork::Next)
}

// The tree of a term of a closed sequent with so many type variables, under so many binders.
fn tree_of_term(
    alloc: Global,
    target: &mut Module,
    type_vars: usize,
    term: &ClosedTerm,
    depth: u128,
) -> Result<LpId, Memory>
    requires { (given : Numbered) × (t : ATerm) × IsTermToMake given t target.old type_vars (closed_term_view term.now) depth }
    ensures made { IfOk result (MakesTermOf target.old type_vars (closed_term_view term.now) depth target.new) }
    ensures grows { Grows target.old target.new }
{
    let mut walk = TermWalk {
        works: Stack::new(alloc),
        made: Stack::new(alloc),
        text: Vec::new(alloc),
    };
    let tree = term_made(alloc, target, type_vars, &term.nodes, depth, &mut walk);
    drop(walk);
    tree
}

// The tree of the term that nodes spell, by a walk that has nothing else to do.
fn term_made(
    alloc: Global,
    target: &mut Module,
    type_vars: usize,
    nodes: &[TermNode],
    depth: u128,
    walk: &mut TermWalk,
) -> Result<LpId, Memory>
    requires { IsOverTerms target.old type_vars nodes.now (with_term_work (term_work.Next depth) walk.old) }
    ensures made { IfOk result (MakesTermRoot target.old type_vars nodes.now (with_term_work (term_work.Next depth) walk.old) target.new) }
    ensures grows { Grows target.old target.new }
{
    walk.works.push(TermWork::Next(depth))?;
    let mut left = nodes;
    while let Some(work) = walk.works.pop() {
        left = turn_term(alloc, target, type_vars, left, work, walk)?;
    }
    Ok(one(&mut walk.made))
}

// One turn of the walk over the nodes of a term: those that are left.
fn turn_term<'a>(
    alloc: Global,
    target: &mut Module,
    type_vars: usize,
    nodes: &'a [TermNode],
    work: TermWork,
    walk: &mut TermWalk,
) -> Result<&'a [TermNode], Memory>
    requires { IsOverTerms target.old type_vars nodes.now (with_term_work work walk.old) }
    ensures grows { Grows target.old target.new }
    ensures walk { IfOk result (λ left. TermsGoOn target.old type_vars nodes.now (with_term_work work walk.old) target.new left.now walk.new) }
    ensures less { IfOk result (λ left. terms_work walk.new.works left.now < terms_work (work ∷ walk.old.works) nodes.now) }
{
    match work {
        TermWork::Next(depth) => begin_term(alloc, target, type_vars, nodes, depth, walk),
        TermWork::Apply => {
            let (function, argument) = two(&mut walk.made);
            put_node(target, LpNode::App(function, argument), &mut walk.made)?;
            Ok(nodes)
        }
        TermWork::Bind => {
            let (ty, body) = two(&mut walk.made);
            put_abstraction(target, ty, body, &mut walk.made)?;
            Ok(nodes)
        }
    }
}

// The next term as far as its parts. What nodes lack is the first free variable.
fn begin_term<'a>(
    alloc: Global,
    target: &mut Module,
    type_vars: usize,
    nodes: &'a [TermNode],
    depth: u128,
    walk: &mut TermWalk,
) -> Result<&'a [TermNode], Memory>
    requires { IsOverTerms target.old type_vars nodes.now (with_term_work (term_work.Next depth) walk.old) }
    ensures grows { Grows target.old target.new }
    ensures walk { IfOk result (λ left. TermsGoOn target.old type_vars nodes.now (with_term_work (term_work.Next depth) walk.old)
        target.new left.now walk.new) }
    ensures less { IfOk result (λ left. terms_work walk.new.works left.now ≤ terms_work walk.old.works nodes.now) }
{
    match nodes {
        [] => {
            put_variable(target, type_vars, 0, depth, &mut walk.made)?;
            Ok(nodes)
        }
        [node, left @ ..] => {
            visit_term(alloc, target, type_vars, node, depth, walk)?;
            Ok(left)
        }
    }
}

// Makes the binder of a variable or a constant, or sets out to make the parts of a term.
fn visit_term(
    alloc: Global,
    target: &mut Module,
    type_vars: usize,
    node: &TermNode,
    depth: u128,
    walk: &mut TermWalk,
) -> Result<(), Memory>
    requires { IsTermVisit target.old type_vars depth node.now walk.old }
    ensures grows { Grows target.old target.new }
    ensures walk { OnOk result (TermsVisit target.old type_vars depth node.now walk.old target.new walk.new) }
    ensures less { OnOk result (length walk.new.works ≤ length walk.old.works + 3) }
{
    match node {
        TermNode::Parameter(place) => {
            put_variable(target, type_vars, *place, depth, &mut walk.made)
        }
        TermNode::Bound(number) => put_node(target, LpNode::Var(*number), &mut walk.made),
        TermNode::Constant(name, ty) => {
            let ty = tree_of_type(alloc, target, ty, depth)?;
            put_constant(alloc, target, name, ty, &mut walk.text, &mut walk.made)
        }
        TermNode::App => {
            walk.works.push(TermWork::Apply)?;
            walk.works.push(TermWork::Next(depth))?;
            walk.works.push(TermWork::Next(depth))
        }
        TermNode::Lam(ty) => {
            // No memory holds so many binders.
            let Some(inside) = depth.checked_add(1) else {
                return Err(Memory);
            };
            let ty = tree_of_type(alloc, target, ty, depth)?;
            walk.made.push(ty)?;
            walk.works.push(TermWork::Bind)?;
            walk.works.push(TermWork::Next(inside))
        }
    }
}

// What was made last.
fn one(made: &mut Stack<LpId>) -> LpId
    requires { 0 < length made.old }
    ensures { made.old ≡ result ∷ made.new }
{
    made.pop().unwrap()
}

// What was made last, after what was made before it.
fn two(made: &mut Stack<LpId>) -> (LpId, LpId)
    requires { 1 < length made.old }
    ensures { made.old ≡ result.1 ∷ result.0 ∷ made.new }
{
    let second = made.pop().unwrap();
    let first = made.pop().unwrap();
    (first, second)
}

// The number of the variable of the parameter at a place, under so many binders.
fn binder(depth: u128, place: u128) -> u128
    ensures { result ≡ depth - place - 1 }
{
    depth.saturating_sub(place).saturating_sub(1)
}

// Makes the binder of the type variable at a place, and puts it on what was made.
fn put_type_variable(
    target: &mut Module,
    place: usize,
    depth: u128,
    made: &mut Stack<LpId>,
) -> Result<(), Memory>
    ensures made { OnOk result (IsPut made.old made.new target.new.table (Var (depth - place - 1))) }
    ensures grows { Grows target.old target.new }
{
    let number = binder(depth, place as u128);
    put_node(target, LpNode::Var(number), made)
}

// Makes the binder of the free variable at a place, and puts it on what was made.
fn put_variable(
    target: &mut Module,
    type_vars: usize,
    place: usize,
    depth: u128,
    made: &mut Stack<LpId>,
) -> Result<(), Memory>
    ensures made { OnOk result (IsPut made.old made.new target.new.table (Var (depth - (type_vars + place) - 1))) }
    ensures grows { Grows target.old target.new }
{
    let number = binder(depth, type_vars as u128 + place as u128);
    put_node(target, LpNode::Var(number), made)
}

// Makes a node, and puts it on what was made.
fn put_node(target: &mut Module, node: LpNode, made: &mut Stack<LpId>) -> Result<(), Memory>
    requires { PartsBelow (length target.old.table) node }
    ensures made { OnOk result (IsPut made.old made.new target.new.table (tree_of_node target.old.table node)) }
    ensures grows { Grows target.old target.new }
{
    let tree = target.table.node(node)?;
    made.push(tree)
}

// Makes the symbol of an operator, and puts it on what was made.
fn put_operator(
    target: &mut Module,
    name: &Name,
    arity: usize,
    text: &mut Vec<u8>,
    made: &mut Stack<LpId>,
) -> Result<(), Memory>
    requires { IsSome (told_operator (declarations_of target.old) name.now arity) }
    ensures made { OnOk result (PutsOperator target.old name.now arity made.old target.new made.new) }
    ensures grows { Grows target.old target.new }
{
    let symbol = operator(target, name, arity, text)?.unwrap();
    put_node(target, LpNode::Sym(symbol), made)
}

// Makes a constant of the tree of its type, and puts it on what was made.
fn put_constant(
    alloc: Global,
    target: &mut Module,
    name: &Name,
    ty: LpId,
    text: &mut Vec<u8>,
    made: &mut Stack<LpId>,
) -> Result<(), Memory>
    requires { (symbols : SymbolMap) × (scope : TypeScope) × (t : HolType) × IsTypeTree symbols scope t target.old name.now ty }
    ensures made { OnOk result (PutsConstant target.old name.now ty made.old target.new made.new) }
    ensures grows { Grows target.old target.new }
{
    let tree = constant_of(alloc, target, name, ty, text)?;
    made.push(tree)
}

// Makes the abstraction of a body over the terms of a type, and puts it on what was made.
fn put_abstraction(
    target: &mut Module,
    ty: LpId,
    body: LpId,
    made: &mut Stack<LpId>,
) -> Result<(), Memory>
    requires { (ty.0 < length target.old.table) × (body.0 < length target.old.table) }
    ensures made { OnOk result (IsPut made.old made.new target.new.table (Lam (term_of (tree_at target.old.table ty.0)) (tree_at target.old.table body.0))) }
    ensures grows { Grows target.old target.new }
{
    let domain = call(&mut target.table, TERM, &[ty])?;
    put_node(target, LpNode::Lam(domain, body), made)
}
