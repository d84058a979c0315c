//! Head steps.
ghost use Rattle.std.specs.Prelude.{◌≡◌, ◌<◌, [], IfOk, length};
ghost use Rattle.lp_spec.specs.Conversion.{symbol_definition};
ghost use Rattle.lp_spec.specs.Modules.{applied as applied_tree, term_symbol};
ghost use Rattle.lp_term.specs.Tables.{tree_at, trees_at, AreKnown};
ghost use Rattle.holide_sig.specs.Modules.{declarations_of, IsHeld};
ghost use Rattle.lp_spec.specs.HeadSteps.{given, symbol_step as symbol_step_of};
ghost use Rattle.lp_conv.specs.Growth.{Grows};
ghost use Rattle.lp_conv.specs.HeadSteps.{IsKnownIf, tree_if, IsHeadStep, StepsTo};
ghost use Rattle.lp_conv.specs.Heads.{beta_of, IsUnderType, IsArrow, functions_of};

use common::{Memory, Stack};
use holide_sig::symbols::{ARR, TERM, TYPE};
use holide_sig::{Form, Module, SIGNATURE};
use lp_term::{LpId, LpNode};
use std::alloc::Global;

/// The head step of a tree, if it has one: beta where the head is an abstraction with an argument, unfolding where it is
/// a definition with an argument for each leading abstraction over `type`, and `term (arr a b)` to `term a -> term b`.
pub fn head_step(alloc: Global, base: &mut Module, id: LpId) -> Result<Option<LpId>, Memory>
    requires held { IsHeld base.old }
    requires id { id.0 < length base.old.table }
    ensures grows { Grows base.old base.new }
    ensures known { IfOk result (IsKnownIf base.new.table) }
    ensures step { IfOk result (IsHeadStep base.old id base.new) }
    ensures chain { IfOk result (StepsTo base.old id base.new) }
{
    let mut args = Stack::new(alloc);
    let mut head = id;
    loop {
        match base.table.view(head) {
            LpNode::App(f, x) => {
                args.push(x)?;
                head = f;
            }
            LpNode::Lam(_, body) => return beta(base, body, args),
            LpNode::Sym(s) => return symbol_step(alloc, base, s, args),
            _ => return Ok(None),
        }
    }
}

// An abstraction at arguments.
fn beta(base: &mut Module, body: LpId, args: Stack<LpId>) -> Result<Option<LpId>, Memory>
    requires held { IsHeld base.old }
    requires body { body.0 < length base.old.table }
    requires args { AreKnown base.old.table args }
    ensures grows { Grows base.old base.new }
    ensures known { IfOk result (IsKnownIf base.new.table) }
    ensures is { IfOk result (λ r. tree_if base.new.table r ≡ beta_of (tree_at base.old.table body.0) (trees_at base.old.table args)) }
{
    let mut rest = args;
    match rest.pop() {
        None => Ok(None),
        Some(x) => {
            let made = base.table.put(x, body)?;
            let whole = applied(base, made, rest)?;
            Ok(Some(whole))
        }
    }
}

// A tree at arguments.
fn applied(base: &mut Module, f: LpId, args: Stack<LpId>) -> Result<LpId, Memory>
    requires held { IsHeld base.old }
    requires f { f.0 < length base.old.table }
    requires args { AreKnown base.old.table args }
    ensures grows { Grows base.old base.new }
    ensures known { IfOk result (λ r. r.0 < length base.new.table) }
    ensures is { IfOk result (λ r. tree_at base.new.table r.0 ≡ applied_tree (tree_at base.old.table f.0) (trees_at base.old.table args)) }
{
    let mut rest = args;
    let mut made = f;
    while let Some(x) = rest.pop() {
        made = base.table.node(LpNode::App(made, x))?;
    }
    Ok(made)
}

// A symbol at arguments.
fn symbol_step(
    alloc: Global,
    base: &mut Module,
    s: usize,
    args: Stack<LpId>,
) -> Result<Option<LpId>, Memory>
    requires held { IsHeld base.old }
    requires args { AreKnown base.old.table args }
    ensures grows { Grows base.old base.new }
    ensures known { IfOk result (IsKnownIf base.new.table) }
    ensures is { IfOk result (λ r. tree_if base.new.table r ≡ symbol_step_of (declarations_of base.old) s (trees_at base.old.table args)) }
{
    if s == TERM {
        return rule(base, args);
    }
    match definition(base, s) {
        None => Ok(None),
        Some(body) => unfold(alloc, base, body, args),
    }
}

// The body for which a symbol stands.
fn definition(base: &Module, s: usize) -> Option<LpId>
    requires held { IsHeld base.now }
    ensures known { IsKnownIf base.now.table result }
    ensures is { tree_if base.now.table result ≡ symbol_definition (declarations_of base.now) s }
{
    if s < SIGNATURE || base.decls.len() <= s - SIGNATURE {
        return None;
    }
    let decl = base.decls.get(s - SIGNATURE);
    match decl.form {
        Form::Def => decl.body,
        _ => None,
    }
}

// A definition's body at arguments, which are put in for all its leading abstractions over `type` at once.
fn unfold(
    alloc: Global,
    base: &mut Module,
    id: LpId,
    args: Stack<LpId>,
) -> Result<Option<LpId>, Memory>
    requires held { IsHeld base.old }
    requires id { id.0 < length base.old.table }
    requires args { AreKnown base.old.table args }
    ensures grows { Grows base.old base.new }
    ensures known { IfOk result (IsKnownIf base.new.table) }
    ensures is { IfOk result (λ r. tree_if base.new.table r ≡ given [] (tree_at base.old.table id.0) (trees_at base.old.table args)) }
{
    let mut rest = args;
    let mut before = Vec::new(alloc);
    let mut body = id;
    while let Some(inner) = under_type(base, body) {
        match rest.pop() {
            None => return Ok(None),
            Some(x) => {
                before.push(x)?;
                body = inner;
            }
        }
    }
    let made = base.table.put_all(&before, body)?;
    let whole = applied(base, made, rest)?;
    Ok(Some(whole))
}

// The body of an abstraction over `type`.
fn under_type(base: &Module, id: LpId) -> Option<LpId>
    requires id { id.0 < length base.now.table }
    ensures { IsUnderType base.now.table id result }
{
    let LpNode::Lam(domain, body) = base.table.view(id) else {
        return None;
    };
    match base.table.view(domain) {
        LpNode::Sym(TYPE) => Some(body),
        _ => None,
    }
}

// `term (arr a b)` becomes `term a -> term b`.
fn rule(base: &mut Module, args: Stack<LpId>) -> Result<Option<LpId>, Memory>
    requires held { IsHeld base.old }
    requires args { AreKnown base.old.table args }
    ensures grows { Grows base.old base.new }
    ensures known { IfOk result (IsKnownIf base.new.table) }
    ensures is { IfOk result (λ r. tree_if base.new.table r ≡ symbol_step_of (declarations_of base.old) term_symbol (trees_at base.old.table args)) }
{
    let mut rest = args;
    let Some(of) = rest.pop() else {
        return Ok(None);
    };
    if let Some(_further) = rest.pop() {
        return Ok(None);
    }
    match arrow(base, of) {
        None => Ok(None),
        Some((a, b)) => {
            let product = functions(base, a, b)?;
            Ok(Some(product))
        }
    }
}

// The parts of a type of functions.
fn arrow(base: &Module, id: LpId) -> Option<(LpId, LpId)>
    requires { id.0 < length base.now.table }
    ensures { IsArrow base.now.table (tree_at base.now.table id.0) result }
{
    let LpNode::App(half, b) = base.table.view(id) else {
        return None;
    };
    let LpNode::App(head, a) = base.table.view(half) else {
        return None;
    };
    match base.table.view(head) {
        LpNode::Sym(ARR) => Some((a, b)),
        _ => None,
    }
}

// `term a -> term b`
fn functions(base: &mut Module, a: LpId, b: LpId) -> Result<LpId, Memory>
    requires a { a.0 < length base.old.table }
    requires b { b.0 < length base.old.table }
    ensures grows { Grows base.old base.new }
    ensures known { IfOk result (λ r. r.0 < length base.new.table) }
    ensures is { IfOk result (λ r. tree_at base.new.table r.0 ≡ functions_of (tree_at base.old.table a.0) (tree_at base.old.table b.0)) }
{
    let term = base.table.node(LpNode::Sym(TERM))?;
    let domain = base.table.node(LpNode::App(term, a))?;
    let body = base.table.node(LpNode::App(term, b))?;
    let lifted = base.table.lift(1, body)?;
    base.table.node(LpNode::Pi(domain, lifted))
}
