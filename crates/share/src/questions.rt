//! Questions for types, asked one after another, each once. Those that wait for others stand on a stack.
ghost use Rattle.std.specs.Prelude.{◌≡◌, ℕ, ◌<◌, [], ◌∷◌, length, nat_eq, if◌then◌else◌, Some, IfOk, OnOk};
ghost use Rattle.indexmap.specs.IndexMap.{get};
ghost use Rattle.lp_spec.specs.Trees.{Sym};
ghost use Rattle.lp_term.specs.Tables.{tree_at, Keeps};
ghost use Rattle.holide_sig.specs.Modules.{declarations_of, IsHeld};
ghost use Rattle.share_spec.specs.Abbreviations.{constant_type, is_solid as solid};
ghost use Rattle.share.specs.Typings.{answer, AreAnswers, IsQuestion, Tells, AreAskedAgain};
ghost use Rattle.share.specs.Asking.{IsAsking, TurnsTo};

use crate::typing::{Answers, Turn, constant_call, term_turn};
use common::{Memory, Stack};
use holide_sig::{Module, SIGNATURE};
use lp_term::{LpId, LpNode, LpTable};

// Whether what a type ends in, after its products, is no variable.
fn is_solid(table: &LpTable, id: LpId) -> bool
    requires { id.0 < length table.now }
    ensures { result ≡ solid (tree_at table.now id.0) }
{
    let mut rest = id;
    loop {
        match table.view(rest) {
            LpNode::Pi(_, values) => rest = values,
            LpNode::Var(_) => return false,
            LpNode::SortType
            | LpNode::SortKind
            | LpNode::Sym(_)
            | LpNode::App(..)
            | LpNode::Lam(..) => return true,
        }
    }
}

// The type of a symbol, where it can be that of a constant.
fn symbol(source: &Module, symbol: usize) -> Option<LpId>
    requires { IsHeld source.now }
    ensures { Tells source.now.table result (constant_type (declarations_of source.now) [] (Sym symbol)) }
{
    if symbol >= SIGNATURE + source.decls.len() {
        return None;
    }
    let ty = source.symbol_type(symbol);
    if is_solid(&source.table, ty) {
        Some(ty)
    } else {
        None
    }
}

// One turn towards the answer to a question.
fn turn(source: &mut Module, answers: &Answers, question: LpId) -> Result<Turn, Memory>
    requires held { IsHeld source.old }
    requires answers { AreAnswers (declarations_of source.old) source.old.table (get nat_eq answers.now) }
    requires question { IsQuestion (declarations_of source.old) source.old.table question }
    ensures decls { source.new.decls ≡ source.old.decls }
    ensures keeps { Keeps source.old.table source.new.table }
    ensures turn { IfOk result (TurnsTo source.old source.new question) }
{
    match source.table.view(question) {
        LpNode::Pi(context, tree) => term_turn(&mut source.table, answers, context, tree),
        LpNode::Sym(number) => Ok(Turn::Known(symbol(source, number))),
        LpNode::App(function, argument) => {
            constant_call(&mut source.table, answers, function, argument)
        }
        LpNode::SortType | LpNode::SortKind | LpNode::Var(_) | LpNode::Lam(..) => {
            Ok(Turn::Known(None))
        }
    }
}

// The question on top of those that wait, or else this one.
fn next(waiting: &mut Stack<LpId>, question: LpId) -> LpId
    ensures { AreAskedAgain question waiting.old result waiting.new }
{
    match waiting.pop() {
        Some(top) => top,
        None => question,
    }
}

// Notes the answer to a question.
fn note(answers: &mut Answers, question: LpId, told: Option<LpId>) -> Result<(), Memory>
    ensures { OnOk result ((n : ℕ) → get nat_eq answers.new n ≡ (if nat_eq question.0 n then Some told else get nat_eq answers.old n)) }
{
    answers.insert(question.0, told)?;
    Ok(())
}

// Puts a question that waits below the one that comes first.
fn wait_for(waiting: &mut Stack<LpId>, question: LpId, first: LpId) -> Result<(), Memory>
    ensures { OnOk result (waiting.new ≡ first ∷ question ∷ waiting.old) }
{
    waiting.push(question)?;
    waiting.push(first)?;
    Ok(())
}

// One turn towards the answer to the topmost question, or else to this one.
fn step(
    source: &mut Module,
    answers: &mut Answers,
    waiting: &mut Stack<LpId>,
    question: LpId,
) -> Result<(), Memory>
    requires asking { IsAsking source.old (get nat_eq answers.old) waiting.old }
    requires question { IsQuestion (declarations_of source.old) source.old.table question }
    ensures decls { source.new.decls ≡ source.old.decls }
    ensures keeps { Keeps source.old.table source.new.table }
    ensures asking { OnOk result (IsAsking source.new (get nat_eq answers.new) waiting.new) }
{
    let top = next(waiting, question);
    match turn(source, answers, top)? {
        Turn::Known(told) => note(answers, top, told),
        Turn::Needs(first) => wait_for(waiting, top, first),
    }
}

/// The answer to a question.
pub(crate) fn ask(
    source: &mut Module,
    answers: &mut Answers,
    waiting: &mut Stack<LpId>,
    question: LpId,
) -> Result<Option<LpId>, Memory>
    requires asking { IsAsking source.old (get nat_eq answers.old) waiting.old }
    requires question { IsQuestion (declarations_of source.old) source.old.table question }
    ensures decls { source.new.decls ≡ source.old.decls }
    ensures keeps { Keeps source.old.table source.new.table }
    ensures asking { OnOk result (IsAsking source.new (get nat_eq answers.new) waiting.new) }
    ensures told { IfOk result (λ r. Tells source.new.table r (answer (declarations_of source.old) (tree_at source.old.table question.0))) }
{
    // No question takes so many steps.
    for _step in 0..u64::MAX {
        if let Some(told) = answers.get(&question.0).copied() {
            return Ok(told);
        }
        step(source, answers, waiting, question)?;
    }
    Err(Memory)
}
