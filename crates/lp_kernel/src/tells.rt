//! Turns that go on with a type that was found.
ghost use Rattle.std.specs.Prelude.{◌≡◌, ℕ, Bool, ◌<◌, ◌≤◌, IfOk, length};
ghost use Rattle.holide_sig.specs.Modules.{declarations_of, IsHeld};
ghost use Rattle.lp_conv.specs.Growth.{Grows};
ghost use Rattle.lp_kernel.specs.declared.state.Frame.TheVariants as frame;
ghost use Rattle.lp_kernel.specs.Pending.{IsKnownState, IsKnownNext, IsKnownFrame, IsApplication, IsTold, IsApplied, IsConverted, IsFewer};
ghost use Rattle.lp_kernel.specs.Keys.{AreMore, IsKeyed, IsSamePlace};
ghost use Rattle.lp_kernel.specs.Noted.{AreProducts};

use crate::contexts::Contexts;
use crate::inference::Inferred;
use crate::memo::Turns;
use crate::products::reach_noted;
use crate::spines::filled_as;
use crate::state::{Application, Argument, Expected, Frame, Next, State};
use common::{Budget, Memory};
use holide_sig::Module;
use lp_conv::{Answer, conv};
use lp_term::{LpId, LpNode};
use std::alloc::Global;

/// Goes on with a type that was found.
pub(crate) fn tell(
    turns: &mut Turns,
    base: &mut Module,
    state: &mut State,
    frame: Frame,
    found: LpId,
    budget: &mut Budget,
) -> Result<Next, Memory>
    requires held { IsHeld base.old }
    requires known { IsKnownState base.old.table state.old }
    requires frame { IsKnownFrame base.old.table frame }
    requires found { found.0 < length base.old.table }
    requires products { AreProducts (declarations_of base.old) base.old.table turns.old.products }
    ensures grows { Grows base.old base.new }
    ensures known { IfOk result (λ n. IsKnownState base.new.table state.new) }
    ensures next { IfOk result (IsKnownNext base.new.table) }
    ensures less { budget.new.left ≤ budget.old.left }
    ensures turned { IfOk result (IsTold turns.old.rechecks base.new frame state.old found budget.old.left budget.new.left state.new) }
    ensures fewer { IfOk result (IsFewer state.old budget.old.left budget.new.left state.new) }
    ensures products { IfOk result (λ n. AreProducts (declarations_of base.new) base.new.table turns.new.products) }
    ensures rechecks { turns.new.rechecks ≡ turns.old.rechecks }
    ensures more { AreMore turns.old.contexts turns.new.contexts }
    ensures keyed { IfOk result (λ n. IsKeyed turns.old.contexts state.old → IsKeyed turns.new.contexts state.new) }
{
    match frame {
        Frame::Function(app) => tell_function(turns, base, state, app, found, budget),
        Frame::Reached(product, app) => tell_reached(base, state, product, app, found),
        Frame::Argument(argument) => tell_argument(turns, base, state, argument, found, budget),
        Frame::Expected(expected) => tell_expected(
            turns.alloc,
            base,
            state,
            expected,
            found,
            budget,
        ),
        Frame::Domain(a, b) => tell_domain(base, &mut turns.contexts, state, a, b, found),
        Frame::Body(a) => tell_body(base, &turns.contexts, state, a, found),
        Frame::ProductDomain(a, b) => tell_product_domain(
            base,
            &mut turns.contexts,
            state,
            a,
            b,
            found,
        ),
        Frame::ProductBody => tell_product_body(base, &turns.contexts, state, found),
    }
}

// With the type of a function.
fn tell_function(
    turns: &mut Turns,
    base: &mut Module,
    state: &mut State,
    app: Application,
    found: LpId,
    budget: &mut Budget,
) -> Result<Next, Memory>
    requires held { IsHeld base.old }
    requires known { IsKnownState base.old.table state.old }
    requires application { IsApplication base.old.table app }
    requires found { found.0 < length base.old.table }
    requires products { AreProducts (declarations_of base.old) base.old.table turns.old.products }
    ensures grows { Grows base.old base.new }
    ensures known { IfOk result (λ n. IsKnownState base.new.table state.new) }
    ensures next { IfOk result (IsKnownNext base.new.table) }
    ensures less { budget.new.left ≤ budget.old.left }
    ensures turned { IfOk result (IsTold turns.old.rechecks base.new (frame.Function app) state.old found budget.old.left budget.new.left state.new) }
    ensures fewer { IfOk result (IsFewer state.old budget.old.left budget.new.left state.new) }
    ensures products { IfOk result (λ n. AreProducts (declarations_of base.new) base.new.table turns.new.products) }
    ensures rechecks { turns.new.rechecks ≡ turns.old.rechecks }
    ensures contexts { turns.new.contexts ≡ turns.old.contexts }
    ensures same { IsSamePlace state.old state.new }
{
    if let LpNode::Pi(a, b) = base.table.view(found) {
        state.frames.push(Frame::Argument(Argument {
            domain: a,
            body: b,
            count: 0,
            app,
        }))?;
        return Ok(Next::Ask(app.argument));
    }
    match reach_noted(turns.alloc, base, &mut turns.products, found, budget)? {
        Inferred::Found(product) => {
            if !turns.rechecks {
                return to_argument(base, state, product, app);
            }
            state.frames.push(Frame::Reached(product, app))?;
            Ok(Next::Ask(product))
        }
        Inferred::No => Ok(Next::No),
        Inferred::Over => Ok(Next::Over),
    }
}

// With the sort of a product that was reached.
fn tell_reached(
    base: &mut Module,
    state: &mut State,
    product: LpId,
    app: Application,
    found: LpId,
) -> Result<Next, Memory>
    requires held { IsHeld base.old }
    requires known { IsKnownState base.old.table state.old }
    requires product { product.0 < length base.old.table }
    requires application { IsApplication base.old.table app }
    requires found { found.0 < length base.old.table }
    ensures grows { Grows base.old base.new }
    ensures known { IfOk result (λ n. IsKnownState base.new.table state.new) }
    ensures next { IfOk result (IsKnownNext base.new.table) }
    ensures turned { IfOk result (λ n. (rechecks : Bool) (left : ℕ) → IsTold rechecks base.new (frame.Reached product app) state.old found left left state.new n) }
    ensures fewer { IfOk result (λ n. (left : ℕ) → IsFewer state.old left left state.new n) }
    ensures same { IsSamePlace state.old state.new }
{
    match base.table.view(found) {
        LpNode::SortType | LpNode::SortKind => to_argument(base, state, product, app),
        _ => Ok(Next::No),
    }
}

// From a product that the type of a function reaches to the argument.
fn to_argument(
    base: &Module,
    state: &mut State,
    product: LpId,
    app: Application,
) -> Result<Next, Memory>
    requires held { IsHeld base.now }
    requires known { IsKnownState base.now.table state.old }
    requires product { product.0 < length base.now.table }
    requires application { IsApplication base.now.table app }
    ensures known { IfOk result (λ n. IsKnownState base.now.table state.new) }
    ensures next { IfOk result (IsKnownNext base.now.table) }
    ensures turned { IfOk result (λ n. (rechecks : Bool) (left : ℕ) → IsApplied rechecks base.now state.old product app.argument left state.new n) }
    ensures fewer { IfOk result (λ n. (left : ℕ) → IsFewer state.old left left state.new n) }
    ensures same { IsSamePlace state.old state.new }
{
    match base.table.view(product) {
        LpNode::Pi(a, b) => {
            state.frames.push(Frame::Argument(Argument {
                domain: a,
                body: b,
                count: 0,
                app,
            }))?;
            Ok(Next::Ask(app.argument))
        }
        _ => Ok(Next::No),
    }
}

// With the type of an argument.
fn tell_argument(
    turns: &Turns,
    base: &mut Module,
    state: &mut State,
    argument: Argument,
    found: LpId,
    budget: &mut Budget,
) -> Result<Next, Memory>
    requires held { IsHeld base.old }
    requires known { IsKnownState base.old.table state.old }
    requires frame { IsKnownFrame base.old.table (frame.Argument argument) }
    requires found { found.0 < length base.old.table }
    ensures grows { Grows base.old base.new }
    ensures known { IfOk result (λ n. IsKnownState base.new.table state.new) }
    ensures next { IfOk result (IsKnownNext base.new.table) }
    ensures less { budget.new.left ≤ budget.old.left }
    ensures turned { IfOk result (IsTold turns.now.rechecks base.new (frame.Argument argument) state.old found budget.old.left budget.new.left state.new) }
    ensures fewer { IfOk result (IsFewer state.old budget.old.left budget.new.left state.new) }
    ensures same { IsSamePlace state.old state.new }
{
    if !budget.tick() {
        return Ok(Next::Over);
    }
    // A spine of 2^64 arguments is want of memory.
    let Some(count) = argument.count.checked_add(1) else {
        return Err(Memory);
    };
    let domain = filled_as(
        turns.alloc,
        base,
        argument.domain,
        argument.count,
        argument.app.function,
        found,
    )?;
    if domain == found {
        return Ok(Next::Under(argument.body, count, argument.app.whole));
    }
    let expected = Expected {
        domain,
        body: argument.body,
        count,
        whole: argument.app.whole,
        found,
    };
    if !turns.rechecks {
        return convert(turns.alloc, base, state, expected, budget);
    }
    state.frames.push(Frame::Expected(expected))?;
    Ok(Next::Ask(domain))
}

// With the sort of the type that is expected.
fn tell_expected(
    alloc: Global,
    base: &mut Module,
    state: &mut State,
    expected: Expected,
    found: LpId,
    budget: &mut Budget,
) -> Result<Next, Memory>
    requires held { IsHeld base.old }
    requires known { IsKnownState base.old.table state.old }
    requires frame { IsKnownFrame base.old.table (frame.Expected expected) }
    requires found { found.0 < length base.old.table }
    ensures grows { Grows base.old base.new }
    ensures known { IfOk result (λ n. IsKnownState base.new.table state.new) }
    ensures next { IfOk result (IsKnownNext base.new.table) }
    ensures less { budget.new.left ≤ budget.old.left }
    ensures turned { IfOk result (λ n. (r : Bool) → IsTold r base.new (frame.Expected expected) state.old found budget.old.left budget.new.left state.new n) }
    ensures fewer { IfOk result (IsFewer state.old budget.old.left budget.new.left state.new) }
    ensures same { IsSamePlace state.old state.new }
{
    match base.table.view(found) {
        LpNode::SortType | LpNode::SortKind => convert(alloc, base, state, expected, budget),
        _ => Ok(Next::No),
    }
}

// Whether the type of an argument converts to the expected one; the type of the application is to be made if it does.
fn convert(
    alloc: Global,
    base: &mut Module,
    state: &State,
    expected: Expected,
    budget: &mut Budget,
) -> Result<Next, Memory>
    requires held { IsHeld base.old }
    requires known { IsKnownState base.old.table state.now }
    requires frame { IsKnownFrame base.old.table (frame.Expected expected) }
    ensures grows { Grows base.old base.new }
    ensures known { IfOk result (λ n. IsKnownState base.new.table state.now) }
    ensures next { IfOk result (IsKnownNext base.new.table) }
    ensures less { budget.new.left ≤ budget.old.left }
    ensures turned { IfOk result (λ n. (rechecks : Bool) → IsConverted rechecks base.new expected budget.old.left budget.new.left state.now n) }
    ensures fewer { IfOk result (IsFewer state.now budget.old.left budget.new.left state.now) }
{
    match conv(alloc, base, expected.domain, expected.found, budget)? {
        Answer::Yes => Ok(Next::Under(expected.body, expected.count, expected.whole)),
        Answer::No => Ok(Next::No),
        Answer::Over => Ok(Next::Over),
    }
}

// With the sort of an abstraction's domain.
fn tell_domain(
    base: &mut Module,
    contexts: &mut Contexts,
    state: &mut State,
    a: LpId,
    b: LpId,
    found: LpId,
) -> Result<Next, Memory>
    requires held { IsHeld base.old }
    requires known { IsKnownState base.old.table state.old }
    requires frame { IsKnownFrame base.old.table (frame.Domain a b) }
    requires found { found.0 < length base.old.table }
    ensures grows { Grows base.old base.new }
    ensures known { IfOk result (λ n. IsKnownState base.new.table state.new) }
    ensures next { IfOk result (IsKnownNext base.new.table) }
    ensures turned { IfOk result (λ n. (rechecks : Bool) (left : ℕ) → IsTold rechecks base.new (frame.Domain a b) state.old found left left state.new n) }
    ensures fewer { IfOk result (λ n. (left : ℕ) → IsFewer state.old left left state.new n) }
    ensures more { AreMore contexts.old contexts.new }
    ensures keyed { IfOk result (λ n. IsKeyed contexts.old state.old → IsKeyed contexts.new state.new) }
{
    match base.table.view(found) {
        LpNode::SortType => {
            state.context.push(a)?;
            state.key = contexts.inner(state.key, a)?;
            state.frames.push(Frame::Body(a))?;
            Ok(Next::Ask(b))
        }
        _ => Ok(Next::No),
    }
}

// With the type of an abstraction's body.
fn tell_body(
    base: &mut Module,
    contexts: &Contexts,
    state: &mut State,
    a: LpId,
    found: LpId,
) -> Result<Next, Memory>
    requires held { IsHeld base.old }
    requires known { IsKnownState base.old.table state.old }
    requires frame { IsKnownFrame base.old.table (frame.Body a) }
    requires found { found.0 < length base.old.table }
    ensures grows { Grows base.old base.new }
    ensures known { IfOk result (λ n. IsKnownState base.new.table state.new) }
    ensures next { IfOk result (IsKnownNext base.new.table) }
    ensures turned { IfOk result (λ n. (rechecks : Bool) (left : ℕ) → IsTold rechecks base.new (frame.Body a) state.old found left left state.new n) }
    ensures fewer { IfOk result (λ n. (left : ℕ) → IsFewer state.old left left state.new n) }
    ensures keyed { IfOk result (λ n. IsKeyed contexts.now state.old → IsKeyed contexts.now state.new) }
{
    state.context.pop();
    state.key = contexts.outer(state.key);
    match base.table.view(found) {
        LpNode::SortKind => Ok(Next::No),
        _ => {
            let product = base.table.node(LpNode::Pi(a, found))?;
            Ok(Next::Tell(product))
        }
    }
}

// With the sort of a product's domain.
fn tell_product_domain(
    base: &mut Module,
    contexts: &mut Contexts,
    state: &mut State,
    a: LpId,
    b: LpId,
    found: LpId,
) -> Result<Next, Memory>
    requires held { IsHeld base.old }
    requires known { IsKnownState base.old.table state.old }
    requires frame { IsKnownFrame base.old.table (frame.ProductDomain a b) }
    requires found { found.0 < length base.old.table }
    ensures grows { Grows base.old base.new }
    ensures known { IfOk result (λ n. IsKnownState base.new.table state.new) }
    ensures next { IfOk result (IsKnownNext base.new.table) }
    ensures turned { IfOk result (λ n. (rechecks : Bool) (left : ℕ) → IsTold rechecks base.new (frame.ProductDomain a b) state.old found left left state.new n) }
    ensures fewer { IfOk result (λ n. (left : ℕ) → IsFewer state.old left left state.new n) }
    ensures more { AreMore contexts.old contexts.new }
    ensures keyed { IfOk result (λ n. IsKeyed contexts.old state.old → IsKeyed contexts.new state.new) }
{
    match base.table.view(found) {
        LpNode::SortType => {
            state.context.push(a)?;
            state.key = contexts.inner(state.key, a)?;
            state.frames.push(Frame::ProductBody)?;
            Ok(Next::Ask(b))
        }
        _ => Ok(Next::No),
    }
}

// With the sort of a product's body.
fn tell_product_body(
    base: &mut Module,
    contexts: &Contexts,
    state: &mut State,
    found: LpId,
) -> Result<Next, Memory>
    requires held { IsHeld base.old }
    requires known { IsKnownState base.old.table state.old }
    requires frame { IsKnownFrame base.old.table frame.ProductBody }
    requires found { found.0 < length base.old.table }
    ensures grows { Grows base.old base.new }
    ensures known { IfOk result (λ n. IsKnownState base.new.table state.new) }
    ensures next { IfOk result (IsKnownNext base.new.table) }
    ensures turned { IfOk result (λ n. (rechecks : Bool) (left : ℕ) → IsTold rechecks base.new frame.ProductBody state.old found left left state.new n) }
    ensures fewer { IfOk result (λ n. (left : ℕ) → IsFewer state.old left left state.new n) }
    ensures keyed { IfOk result (λ n. IsKeyed contexts.now state.old → IsKeyed contexts.now state.new) }
{
    state.context.pop();
    state.key = contexts.outer(state.key);
    match base.table.view(found) {
        LpNode::SortType | LpNode::SortKind => Ok(Next::Tell(found)),
        _ => Ok(Next::No),
    }
}
