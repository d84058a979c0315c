//! The walks over the nodes of a type and of a term, which write their text in one pass.
ghost use Rattle.std.specs.Prelude.{◌≡◌, [], ◌+◌, ◌*◌, ◌++◌, ◌<◌, ◌≤◌, ◌∷◌, List, codes, length, IfOk, OnOk};
ghost use Rattle.hol_spec.specs.ClosedForm as form;
ghost use Rattle.decode_spec.specs.ClosedText.{is_function as is_function_of, term_text, type_text, types_text};
ghost use Rattle.sequent.specs.Closed.{behind, closed_term_view, closed_type_view, closed_types_of, first as first_of, firsts, no_term, no_type, others as others_of, spelled_terms, spelled_types, term_step, type_step};
ghost use Rattle.hol_text.specs.Works.{nodes_work, terms_left_text, type_works, types_left_text};

use crate::names::{add_name, add_numbered};
use common::{Memory, Stack};
use hol_name::Name;
use sequent::{ClosedTerm, ClosedType, TermNode, TypeNode};
use std::alloc::Global;

/// What is still to be written of a type.
#[derive(Clone, Copy)]
enum TypeWork {
    /// These bytes.
    Bytes(&'static [u8]),
    /// The next type.
    Next,
    /// So many types, each after a blank.
    Several(usize),
}

/// What is still to be written of a term.
#[derive(Clone, Copy)]
enum TermWork {
    /// These bytes.
    Bytes(&'static [u8]),
    /// The next term, under so many binders of its own.
    Next(u128),
}

// Adds the text of a type.
pub(crate) fn add_type(alloc: Global, text: &mut Vec<u8>, ty: &ClosedType) -> Result<(), Memory>
    ensures { OnOk result (text.new.items ≡ text.old.items ++ type_text (closed_type_view ty.now)) }
{
    let mut works = Stack::new(alloc);
    works.push(TypeWork::Next)?;
    let mut nodes = ty.nodes.as_slice();
    while let Some(work) = works.pop() {
        nodes = turn_type(text, nodes, work, &mut works)?;
    }
    Ok(())
}

// One turn of the walk over the nodes of a type: those that are left.
fn turn_type<'a>(
    text: &mut Vec<u8>,
    nodes: &'a [TypeNode],
    work: TypeWork,
    works: &mut Stack<TypeWork>,
) -> Result<&'a [TypeNode], Memory>
    ensures added { IfOk result (λ left. text.new.items ++ types_left_text works.new (spelled_types left.now) ≡ text.old.items ++ types_left_text
        (work ∷ works.old) (spelled_types nodes.now)) }
    ensures less { IfOk result (λ left. type_works works.new + nodes_work left.now < type_works (work ∷ works.old) + nodes_work nodes.now) }
{
    match work {
        TypeWork::Bytes(piece) => {
            text.extend_from_slice(piece)?;
            Ok(nodes)
        }
        TypeWork::Next => begin_type(text, nodes, works),
        TypeWork::Several(count) => {
            set_out_several(text, count, works)?;
            Ok(nodes)
        }
    }
}

// So many types, each after a blank.
fn set_out_several(
    text: &mut Vec<u8>,
    count: usize,
    works: &mut Stack<TypeWork>,
) -> Result<(), Memory>
    ensures added { OnOk result ((ts : List form.ClosedType)
        → text.new.items ++ types_left_text works.new ts ≡ text.old.items ++
        (types_text (closed_types_of (firsts no_type count ts)) ++ types_left_text works.old (behind count ts))) }
    ensures less { OnOk result (type_works works.new ≤ 2 * count + type_works works.old) }
{
    let Some(others) = count.checked_sub(1) else {
        return Ok(());
    };
    text.extend_from_slice(b" ")?;
    works.push(TypeWork::Several(others))?;
    works.push(TypeWork::Next)
}

// The next type as far as its arguments. What nodes lack is the first type variable.
fn begin_type<'a>(
    text: &mut Vec<u8>,
    nodes: &'a [TypeNode],
    works: &mut Stack<TypeWork>,
) -> Result<&'a [TypeNode], Memory>
    ensures added { IfOk result (λ left. text.new.items ++ types_left_text works.new (spelled_types left.now) ≡ text.old.items ++
        (type_text (first_of no_type (spelled_types nodes.now)) ++ types_left_text works.old (others_of (spelled_types nodes.now)))) }
    ensures less { IfOk result (λ left. type_works works.new + nodes_work left.now ≤ type_works works.old + nodes_work nodes.now) }
{
    match nodes {
        [] => {
            add_numbered(text, b"a", 0)?;
            Ok(nodes)
        }
        [first, left @ ..] => {
            add_type_node(text, first, works)?;
            Ok(left)
        }
    }
}

// A type variable, or an operator as far as its arguments.
fn add_type_node(
    text: &mut Vec<u8>,
    node: &TypeNode,
    works: &mut Stack<TypeWork>,
) -> Result<(), Memory>
    ensures added { OnOk result ((ts : List form.ClosedType)
        → text.new.items ++ types_left_text works.new ts ≡ text.old.items ++
        (type_text (first_of no_type (type_step node.now ts)) ++ types_left_text works.old (others_of (type_step node.now ts)))) }
    ensures less { OnOk result (type_works works.new ≤ type_works works.old + nodes_work (node.now ∷ [])) }
{
    match node {
        TypeNode::Parameter(place) => add_numbered(text, b"a", *place as u128),
        TypeNode::Operator(name, count) => begin_operator(text, name, *count, works),
    }
}

// An operator as far as its arguments.
fn begin_operator(
    text: &mut Vec<u8>,
    name: &Name,
    count: usize,
    works: &mut Stack<TypeWork>,
) -> Result<(), Memory>
    ensures added { OnOk result ((ts : List form.ClosedType)
        → text.new.items ++ types_left_text works.new ts ≡ text.old.items ++
        (type_text (form.ClosedType.operator name.now (closed_types_of (firsts no_type count ts))) ++ types_left_text works.old (behind count ts))) }
    ensures less { OnOk result (type_works works.new ≤ 2 + 2 * count + type_works works.old) }
{
    let Some(others) = count.checked_sub(1) else {
        return add_name(text, name);
    };
    text.extend_from_slice(b"(")?;
    if is_function(name, count) {
        set_out(works, b" ->", others)
    } else {
        add_name(text, name)?;
        text.extend_from_slice(b" ")?;
        set_out(works, b"", others)
    }
}

// Whether an operator with so many arguments makes the type of functions.
fn is_function(name: &Name, count: usize) -> bool
    ensures { (ts : List form.ClosedType) → result ≡ is_function_of name.now (closed_types_of (firsts no_type count ts)) }
{
    count == 2 && name.is_single(b"->")
}

// Sets out to write a type, some bytes, so many further types, and the bracket that closes them.
fn set_out(works: &mut Stack<TypeWork>, between: &'static [u8], others: usize) -> Result<(), Memory>
    ensures added { OnOk result ((ts : List form.ClosedType)
        → types_left_text works.new ts ≡ type_text (first_of no_type ts) ++
        (between.now ++ (types_text (closed_types_of (firsts no_type others (others_of ts))) ++ (codes ")" ++ types_left_text works.old
        (behind others (others_of ts)))))) }
    ensures work { OnOk result (type_works works.new ≡ 4 + 2 * others + type_works works.old) }
{
    works.push(TypeWork::Bytes(b")"))?;
    works.push(TypeWork::Several(others))?;
    works.push(TypeWork::Bytes(between))?;
    works.push(TypeWork::Next)
}

// Adds the text of a term under no binder.
pub(crate) fn add_term(alloc: Global, text: &mut Vec<u8>, term: &ClosedTerm) -> Result<(), Memory>
    ensures { OnOk result (text.new.items ≡ text.old.items ++ term_text (closed_term_view term.now) 0) }
{
    let mut works = Stack::new(alloc);
    works.push(TermWork::Next(0))?;
    let mut nodes = term.nodes.as_slice();
    while let Some(work) = works.pop() {
        nodes = turn_term(alloc, text, nodes, work, &mut works)?;
    }
    Ok(())
}

// One turn of the walk over the nodes of a term: those that are left.
fn turn_term<'a>(
    alloc: Global,
    text: &mut Vec<u8>,
    nodes: &'a [TermNode],
    work: TermWork,
    works: &mut Stack<TermWork>,
) -> Result<&'a [TermNode], Memory>
    ensures added { IfOk result (λ left. text.new.items ++ terms_left_text works.new (spelled_terms left.now) ≡ text.old.items ++ terms_left_text
        (work ∷ works.old) (spelled_terms nodes.now)) }
    ensures less { IfOk result (λ left. length works.new + 4 * length left.now < length (work ∷ works.old) + 4 * length nodes.now) }
{
    match work {
        TermWork::Bytes(piece) => {
            text.extend_from_slice(piece)?;
            Ok(nodes)
        }
        TermWork::Next(depth) => begin_term(alloc, text, nodes, depth, works),
    }
}

// The next term as far as its parts. What nodes lack is the first free variable.
fn begin_term<'a>(
    alloc: Global,
    text: &mut Vec<u8>,
    nodes: &'a [TermNode],
    depth: u128,
    works: &mut Stack<TermWork>,
) -> Result<&'a [TermNode], Memory>
    ensures added { IfOk result (λ left. text.new.items ++ terms_left_text works.new (spelled_terms left.now) ≡ text.old.items ++
        (term_text (first_of no_term (spelled_terms nodes.now)) depth ++ terms_left_text works.old (others_of (spelled_terms nodes.now)))) }
    ensures less { IfOk result (λ left. length works.new + 4 * length left.now ≤ length works.old + 4 * length nodes.now) }
{
    match nodes {
        [] => {
            add_numbered(text, b"x", 0)?;
            Ok(nodes)
        }
        [first, left @ ..] => {
            add_term_node(alloc, text, first, depth, works)?;
            Ok(left)
        }
    }
}

// A variable, a constant, or another term as far as its parts.
fn add_term_node(
    alloc: Global,
    text: &mut Vec<u8>,
    node: &TermNode,
    depth: u128,
    works: &mut Stack<TermWork>,
) -> Result<(), Memory>
    ensures added { OnOk result ((ts : List form.ClosedTerm)
        → text.new.items ++ terms_left_text works.new ts ≡ text.old.items ++
        (term_text (first_of no_term (term_step node.now ts)) depth ++ terms_left_text works.old (others_of (term_step node.now ts)))) }
    ensures less { OnOk result (length works.new ≤ length works.old + 4) }
{
    match node {
        TermNode::Parameter(place) => add_numbered(text, b"x", *place as u128),
        TermNode::Bound(number) => {
            let binder = depth.saturating_sub(*number).saturating_sub(1);
            add_numbered(text, b"b", binder)
        }
        TermNode::Constant(name, ty) => add_constant(alloc, text, name, ty),
        TermNode::App => begin_application(text, depth, works),
        TermNode::Lam(ty) => begin_abstraction(alloc, text, ty, depth, works),
    }
}

// A constant with its type.
fn add_constant(
    alloc: Global,
    text: &mut Vec<u8>,
    name: &Name,
    ty: &ClosedType,
) -> Result<(), Memory>
    ensures { OnOk result (text.new.items ≡ text.old.items ++ term_text (form.ClosedTerm.constant name.now (closed_type_view ty.now)) 0) }
{
    text.extend_from_slice(b"(")?;
    add_name(text, name)?;
    text.extend_from_slice(b":")?;
    add_type(alloc, text, ty)?;
    text.extend_from_slice(b")")?;
    Ok(())
}

// An application as far as its function.
fn begin_application(
    text: &mut Vec<u8>,
    depth: u128,
    works: &mut Stack<TermWork>,
) -> Result<(), Memory>
    ensures added { OnOk result ((ts : List form.ClosedTerm)
        → text.new.items ++ terms_left_text works.new ts ≡ text.old.items ++
        (term_text (form.ClosedTerm.app (first_of no_term ts) (first_of no_term (others_of ts))) depth ++ terms_left_text works.old
        (others_of (others_of ts)))) }
    ensures work { OnOk result (length works.new ≡ 4 + length works.old) }
{
    text.extend_from_slice(b"(")?;
    works.push(TermWork::Bytes(b")"))?;
    works.push(TermWork::Next(depth))?;
    works.push(TermWork::Bytes(b" "))?;
    works.push(TermWork::Next(depth))
}

// An abstraction as far as its body: the number of its binder and its variable's type.
fn begin_abstraction(
    alloc: Global,
    text: &mut Vec<u8>,
    ty: &ClosedType,
    depth: u128,
    works: &mut Stack<TermWork>,
) -> Result<(), Memory>
    ensures added { OnOk result ((ts : List form.ClosedTerm)
        → text.new.items ++ terms_left_text works.new ts ≡ text.old.items ++
        (term_text (form.ClosedTerm.lam (closed_type_view ty.now) (first_of no_term ts)) depth ++ terms_left_text works.old (others_of ts))) }
    ensures work { OnOk result (length works.new ≡ 2 + length works.old) }
{
    // No memory holds so many binders.
    let Some(inside) = depth.checked_add(1) else {
        return Err(Memory);
    };
    add_numbered(text, b"(\\b", depth)?;
    text.extend_from_slice(b":")?;
    add_type(alloc, text, ty)?;
    text.extend_from_slice(b". ")?;
    works.push(TermWork::Bytes(b")"))?;
    works.push(TermWork::Next(inside))
}
