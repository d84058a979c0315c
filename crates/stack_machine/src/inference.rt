//! The words of inference: each takes theorems and what else its rule is given from the stack, and puts its theorem
//! there.
ghost use Rattle.std.specs.Prelude.{IfOk, IfErr};
ghost use Rattle.article_spec.specs.declared.commands.Word.TheVariants as word;
ghost use Rattle.article_spec.specs.Operands.{as_terms};
ghost use Rattle.article_spec.specs.Results.{Fails};
ghost use Rattle.hol_term.specs.Tables.{terms_at};
ghost use Rattle.hol_rules.specs.Premises.{AreTermsAt};
ghost use Rattle.stack_machine.specs.Obeying.{Obeys};
ghost use Rattle.stack_machine.specs.Putting.{as_lists, lists_fit, lists_view, AreListsKnown, AreRemembered, IsPutBy};
ghost use Rattle.stack_machine.specs.Reading.{Operand};
ghost use Rattle.stack_machine.specs.Stored.{AreKnown};

use crate::object::Object;
use crate::operands::{list_on, term_on, theorem_on, variable_on};
use crate::remembered::{Lists, Remembered};
use crate::stack::Stack;
use crate::store::Store;
use common::{Fault, Kind};
use hol_rules::Put;
use hol_term::TermId;
use std::alloc::Global;

/// The list of terms at a depth of the stack.
fn terms_on(alloc: Global, store: &Store, stack: &Stack, depth: usize) -> Result<Vec<TermId>, Fault>
    requires { AreKnown store.now stack.now }
    ensures { Operand store.now as_terms (λ ids. terms_at store.now.trees ids.items) (λ ids. AreTermsAt store.now.trees ids.items) stack.now depth result }
{
    let list = list_on(stack, depth)?;
    store.terms_in(alloc, list)
}

/// The equation of a term and itself.
pub(crate) fn refl(store: &mut Store, stack: &mut Stack) -> Result<(), Fault>
    requires { AreKnown store.old stack.old }
    ensures { Obeys word.Refl store.old stack.old store.new stack.new result }
{
    let term = term_on(stack, 0)?;
    let step = store.proof.refl(term);
    stack.conclude(1, step)
}

/// A truth value under itself.
pub(crate) fn assume(store: &mut Store, stack: &mut Stack) -> Result<(), Fault>
    requires { AreKnown store.old stack.old }
    ensures { Obeys word.Assume store.old stack.old store.new stack.new result }
{
    let term = term_on(stack, 0)?;
    let step = store.proof.assume(term);
    stack.conclude(1, step)
}

/// From an equation and its left side, the right one.
pub(crate) fn eq_mp(store: &mut Store, stack: &mut Stack) -> Result<(), Fault>
    requires { AreKnown store.old stack.old }
    ensures { Obeys word.EqMp store.old stack.old store.new stack.new result }
{
    let two = theorem_on(stack, 0)?;
    let one = theorem_on(stack, 1)?;
    let step = store.proof.eq_mp(one, two);
    stack.conclude(2, step)
}

/// Both sides of an equation under an abstraction.
pub(crate) fn abs_thm(store: &mut Store, stack: &mut Stack) -> Result<(), Fault>
    requires { AreKnown store.old stack.old }
    ensures { Obeys word.AbsThm store.old stack.old store.new stack.new result }
{
    let one = theorem_on(stack, 0)?;
    let (name, ty) = variable_on(stack, 1)?;
    let variable = store.variable(name, ty)?;
    let step = store.proof.abs_thm(&variable, one);
    drop(variable);
    stack.conclude(2, step)
}

/// Equal functions applied to equal arguments.
pub(crate) fn app_thm(store: &mut Store, stack: &mut Stack) -> Result<(), Fault>
    requires { AreKnown store.old stack.old }
    ensures { Obeys word.AppThm store.old stack.old store.new stack.new result }
{
    let two = theorem_on(stack, 0)?;
    let one = theorem_on(stack, 1)?;
    let step = store.proof.app_thm(one, two);
    stack.conclude(2, step)
}

/// Two truth values, each derived from the other, are equal.
pub(crate) fn deduct_antisym(store: &mut Store, stack: &mut Stack) -> Result<(), Fault>
    requires { AreKnown store.old stack.old }
    ensures { Obeys word.DeductAntisym store.old stack.old store.new stack.new result }
{
    let two = theorem_on(stack, 0)?;
    let one = theorem_on(stack, 1)?;
    let step = store.proof.deduct_antisym(one, two);
    stack.conclude(2, step)
}

/// One beta step at the root of a term.
pub(crate) fn beta_conv(store: &mut Store, stack: &mut Stack) -> Result<(), Fault>
    requires { AreKnown store.old stack.old }
    ensures { Obeys word.BetaConv store.old stack.old store.new stack.new result }
{
    let term = term_on(stack, 0)?;
    let step = store.proof.beta_conv(term);
    stack.conclude(1, step)
}

/// An equation turned round.
pub(crate) fn sym(store: &mut Store, stack: &mut Stack) -> Result<(), Fault>
    requires { AreKnown store.old stack.old }
    ensures { Obeys word.Sym store.old stack.old store.new stack.new result }
{
    let one = theorem_on(stack, 0)?;
    let step = store.proof.sym(one);
    stack.conclude(1, step)
}

/// Two equations in a row.
pub(crate) fn trans(store: &mut Store, stack: &mut Stack) -> Result<(), Fault>
    requires { AreKnown store.old stack.old }
    ensures { Obeys word.Trans store.old stack.old store.new stack.new result }
{
    let two = theorem_on(stack, 0)?;
    let one = theorem_on(stack, 1)?;
    let step = store.proof.trans(one, two);
    stack.conclude(2, step)
}

/// A theorem without the hypothesis that another one proves.
pub(crate) fn prove_hyp(store: &mut Store, stack: &mut Stack) -> Result<(), Fault>
    requires { AreKnown store.old stack.old }
    ensures { Obeys word.ProveHyp store.old stack.old store.new stack.new result }
{
    let two = theorem_on(stack, 0)?;
    let one = theorem_on(stack, 1)?;
    let step = store.proof.prove_hyp(one, two);
    stack.conclude(2, step)
}

/// The two lists of a substitution at a depth of the stack.
fn lists_on(store: &Store, stack: &Stack, depth: usize) -> Result<Lists, Fault>
    requires { AreKnown store.now stack.now }
    ensures { Operand store.now as_lists (lists_view store.now) (AreListsKnown store.now) stack.now depth result }
{
    match stack.at(depth) {
        Some(object) => store.lists_in(object),
        None => Err(Fault::Refused(Kind::StackShort)),
    }
}

/// What two lists put: what is remembered of them, or what is read, and then remembered where it is long.
fn put_by(
    alloc: Global,
    store: &Store,
    remembered: &mut Remembered,
    lists: Lists,
) -> Result<Put, Fault>
    requires lists { AreListsKnown store.now lists }
    requires remembered { AreRemembered store.now remembered.old }
    ensures put { IfOk result (λ put. IsPutBy store.now lists put) }
    ensures refused { IfErr result (λ fault. Fails fault (lists_fit (lists_view store.now lists))) }
    ensures remembered { AreRemembered store.now remembered.new }
{
    if let Some(put) = remembered.find(lists) {
        return Ok(put.again()?);
    }
    let put = store.put_in(alloc, lists)?;
    remembered.keep(lists, &put)?;
    Ok(put)
}

/// A theorem under a substitution. What its lists put is remembered.
pub(crate) fn subst(
    alloc: Global,
    store: &mut Store,
    stack: &mut Stack,
    remembered: &mut Remembered,
) -> Result<(), Fault>
    requires stack { AreKnown store.old stack.old }
    requires remembered { AreRemembered store.old remembered.old }
    ensures obeys { Obeys word.Subst store.old stack.old store.new stack.new result }
    ensures remembered { AreRemembered store.new remembered.new }
{
    let one = theorem_on(stack, 0)?;
    let lists = lists_on(store, stack, 1)?;
    let put = put_by(alloc, store, remembered, lists)?;
    let step = store.proof.subst_prepared(&put, one);
    drop(put);
    stack.conclude(2, step)
}

/// What an article assumes, unless it is known.
pub(crate) fn axiom(alloc: Global, store: &mut Store, stack: &mut Stack) -> Result<(), Fault>
    requires { AreKnown store.old stack.old }
    ensures { Obeys word.Axiom store.old stack.old store.new stack.new result }
{
    let concl = term_on(stack, 0)?;
    let hyps = terms_on(alloc, store, stack, 1)?;
    let step = store.assume_or_meet(alloc, &hyps, concl)?;
    stack.put(2, Object::Theorem(step));
    Ok(())
}

/// What an article exports.
pub(crate) fn thm(alloc: Global, store: &mut Store, stack: &mut Stack) -> Result<(), Fault>
    requires { AreKnown store.old stack.old }
    ensures { Obeys word.Thm store.old stack.old store.new stack.new result }
{
    let concl = term_on(stack, 0)?;
    let hyps = terms_on(alloc, store, stack, 1)?;
    let one = theorem_on(stack, 2)?;
    store.export(alloc, one, &hyps, concl)?;
    stack.drop_top(3);
    Ok(())
}
