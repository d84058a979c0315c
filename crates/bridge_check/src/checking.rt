//! The check of the module in a file, as an answer.
ghost use Rattle.std.specs.Prelude.{◌≡◌, ◌<◌, ◌≤◌, [], ◌∷◌, IfOk, length, count_by, is_none};
ghost use Rattle.bridge_base.specs.Outside.{Begins};
ghost use Rattle.lp_spec.specs.ModuleOrder.{IsModule};
ghost use Rattle.holide_sig.specs.Modules.{declarations_of, IsHeld};
ghost use Rattle.bridge_spec.specs.Calls.{shelved};
ghost use Rattle.bridge_spec.specs.Answers.{AnswersCheck};
ghost use Rattle.bridge_spec.specs.Texts.{checked_of, accepted_line};
ghost use Rattle.bridge_answer.specs.AnswerTexts.{status_of, text_of, note_of};
ghost use Rattle.lp_spec.specs.Typing.{WellTyped};
ghost use Rattle.lp_conv.specs.Growth.{Grows};
ghost use Rattle.lp_kernel.specs.Checks.{IsJudged as is_judged_by};
ghost use Rattle.lp_kernel.specs.declared.checks.Verdict.TheVariants as verdict;
ghost use Rattle.bridge_check.specs.Verdicts.{IsAnswer, IsJudged};

use bridge_answer::Answer;
use bridge_base::Shelf;
use bridge_module::{Stop, read_module};
use common::Memory;
use holide_sig::Module;
use itoa::Buffer;
use lp_kernel::{Verdict, check_fast, check_module};
use std::alloc::Global;

/// What is to be answered for the module in a file, each declaration of which has the budget, with rechecks of sorts or without.
pub fn checked<H: Shelf>(
    alloc: Global,
    file: &str,
    budget: u64,
    rechecks: bool,
    shelf: &mut H,
) -> Answer
    ensures answers { AnswersCheck rechecks file.now budget (shelved H.told H.faults H.begun shelf.old shelf.new) (status_of result) (text_of result)
        (note_of result) }
    ensures told_kept { H.told shelf.new ≡ H.told shelf.old }
    ensures begun { Begins (H.begun shelf.old) (file.now ∷ []) (H.begun shelf.new) }
    ensures count { H.faults shelf.old ≤ H.faults shelf.new }
{
    match read_module(alloc, file, shelf) {
        Ok(mut source) => {
            let answer = answered(alloc, &mut source, budget, rechecks);
            drop(source);
            answer
        }
        Err(Stop::Refused(place, kind)) => Answer::DkRefused(place, kind),
        Err(Stop::ReadFault) => Answer::ReadFault,
        Err(Stop::Memory) => Answer::Memory,
    }
}

/// What is to be answered for a module, each declaration of which has the budget.
fn answered(alloc: Global, source: &mut Module, budget: u64, rechecks: bool) -> Answer
    requires held { IsHeld source.old }
    requires is_module { IsModule (declarations_of source.old) }
    ensures { IsAnswer rechecks (declarations_of source.old) budget result }
{
    match judged(alloc, source, budget, rechecks) {
        Ok(Verdict::Accepted) => match counts(alloc, source) {
            Ok(text) => Answer::Told(text),
            Err(Memory) => Answer::Memory,
        },
        Ok(Verdict::IllTyped(i)) => Answer::IllTyped(i as u64),
        Ok(Verdict::OverBudget(i)) => Answer::OverBudget(i as u64),
        Err(Memory) => Answer::Memory,
    }
}

/// The verdict on a module under one budget for each declaration.
fn judged(
    alloc: Global,
    source: &mut Module,
    budget: u64,
    rechecks: bool,
) -> Result<Verdict, Memory>
    requires held { IsHeld source.old }
    requires is_module { IsModule (declarations_of source.old) }
    ensures same { declarations_of source.new ≡ declarations_of source.old }
    ensures judged { IfOk result (IsJudged rechecks (declarations_of source.old) budget) }
{
    let budgets = vec![in alloc; u128::from(budget); source.decls.len()]?;
    verdict_on(alloc, source, &budgets, rechecks)
}

/// The verdict of the kernel, with rechecks of sorts or without.
fn verdict_on(
    alloc: Global,
    source: &mut Module,
    budgets: &[u128],
    rechecks: bool,
) -> Result<Verdict, Memory>
    requires held { IsHeld source.old }
    requires is_module { IsModule (declarations_of source.old) }
    requires budgets { length budgets.now ≡ length source.old.decls }
    ensures grows { Grows source.old source.new }
    ensures judged { IfOk result (is_judged_by rechecks (declarations_of source.old) budgets.now) }
    ensures well_typed { IfOk result (λ v. v ≡ verdict.Accepted → WellTyped (declarations_of source.old)) }
{
    if rechecks {
        check_module(alloc, source, budgets)
    } else {
        check_fast(alloc, source, budgets)
    }
}

/// The line that counts the declarations of a module, and those without a body.
fn counts(alloc: Global, source: &Module) -> Result<Vec<u8>, Memory>
    ensures { IfOk result (λ text. text.items ≡ accepted_line (checked_of (declarations_of source.now))) }
{
    let mut declarations = Buffer::new();
    let mut unproved = Buffer::new();
    let mut text = Vec::new(alloc);
    text.extend_from_slice(b"accepted ")?;
    text.extend_from_slice(declarations.format(source.decls.len()).as_bytes())?;
    text.extend_from_slice(b", unproved ")?;
    text.extend_from_slice(unproved.format(unproved_count(source)).as_bytes())?;
    text.extend_from_slice(b"\n")?;
    Ok(text)
}

/// How many declarations have no body.
fn unproved_count(source: &Module) -> usize
    ensures { result ≡ count_by (λ d. is_none d.body) (declarations_of source.now) }
{
    let mut count = 0;
    for i in 0..source.decls.len() {
        if source.decls.get(i).body.is_none() {
            count += 1;
        }
    }
    count
}
