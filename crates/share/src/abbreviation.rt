//! The types of abbreviations.
ghost use Rattle.std.specs.Prelude.{◌≡◌, ◌<◌, false, [], length, nat_eq, option_map, IfOk, OnOk};
ghost use Rattle.indexmap.specs.IndexMap.{get};
ghost use Rattle.lp_spec.specs.Trees.{Pi, SortType};
ghost use Rattle.lp_spec.specs.Modules.{term_of as term_tree};
ghost use Rattle.lp_term.specs.Tables.{tree_at, Holds, Keeps};
ghost use Rattle.holide_sig.specs.Modules.{declarations_of, IsBodyKnown};
ghost use Rattle.share_spec.specs.Abbreviations.{abbreviation as abbreviation_of, term_type, type_of_abbreviation, written_type};
ghost use Rattle.share.specs.Typings.{is_product, is_types_told, told, Tells};
ghost use Rattle.share.specs.Asking.{IsAsking};

use crate::questions::ask;
use crate::typing::{Answers, is_symbol};
use common::{Memory, Stack};
use holide_sig::Module;
use holide_sig::symbols::{TERM, TYPE};
use lp_term::{LpId, LpNode, LpTable};

// The greatest depth of a type that can be written.
const MAX_DEPTH: u64 = 262_144;

// The type, where a declaration can have it.
fn written(table: &LpTable, ty: Option<LpId>) -> Option<LpId>
    requires { IsBodyKnown table.now ty }
    ensures { Tells table.now result (written_type (told table.now ty)) }
{
    match ty {
        Some(id) if table.depth(id) <= MAX_DEPTH => Some(id),
        _ => None,
    }
}

// The type of the terms of a type.
fn term_of(table: &mut LpTable, ty: LpId) -> Result<LpId, Memory>
    requires { ty.0 < length table.old }
    ensures keeps { Keeps table.old table.new }
    ensures made { IfOk result (λ r. Holds table.new r.0 (term_tree (tree_at table.old ty.0))) }
{
    let term = table.node(LpNode::Sym(TERM))?;
    table.node(LpNode::App(term, ty))
}

// The question for the type of a closed tree as a term.
fn term_question(table: &mut LpTable, id: LpId) -> Result<LpId, Memory>
    requires { id.0 < length table.old }
    ensures keeps { Keeps table.old table.new }
    ensures made { IfOk result (λ r. Holds table.new r.0 (Pi SortType (tree_at table.old id.0))) }
{
    let empty = table.node(LpNode::SortType)?;
    table.node(LpNode::Pi(empty, id))
}

// The type of an abbreviation of a tree as a term.
fn type_of_term(
    source: &mut Module,
    answers: &mut Answers,
    waiting: &mut Stack<LpId>,
    id: LpId,
) -> Result<Option<LpId>, Memory>
    requires asking { IsAsking source.old (get nat_eq answers.old) waiting.old }
    requires known { id.0 < length source.old.table }
    ensures decls { source.new.decls ≡ source.old.decls }
    ensures keeps { Keeps source.old.table source.new.table }
    ensures asking { OnOk result (IsAsking source.new (get nat_eq answers.new) waiting.new) }
    ensures told { IfOk result (λ r. Tells source.new.table r (option_map term_tree (term_type (declarations_of source.old) [] (tree_at source.old.table id.0)))) }
{
    let question = term_question(&mut source.table, id)?;
    let told = ask(source, answers, waiting, question)?;
    match told {
        Some(ty) => {
            let terms = term_of(&mut source.table, ty)?;
            Ok(Some(terms))
        }
        None => Ok(None),
    }
}

// Whether a type is told, and is the symbol of types.
fn is_types(table: &LpTable, ty: Option<LpId>) -> bool
    requires { IsBodyKnown table.now ty }
    ensures { result ≡ is_types_told (told table.now ty) }
{
    match ty {
        Some(id) => is_symbol(table, id, TYPE),
        None => false,
    }
}

// The type of an abbreviation of a tree.
fn type_of(
    source: &mut Module,
    answers: &mut Answers,
    waiting: &mut Stack<LpId>,
    id: LpId,
) -> Result<Option<LpId>, Memory>
    requires asking { IsAsking source.old (get nat_eq answers.old) waiting.old }
    requires known { id.0 < length source.old.table }
    requires constant { is_product (tree_at source.old.table id.0) ≡ false }
    ensures decls { source.new.decls ≡ source.old.decls }
    ensures keeps { Keeps source.old.table source.new.table }
    ensures asking { OnOk result (IsAsking source.new (get nat_eq answers.new) waiting.new) }
    ensures told { IfOk result (λ r. Tells source.new.table r (type_of_abbreviation (declarations_of source.old) (tree_at source.old.table id.0))) }
{
    let constant = ask(source, answers, waiting, id)?;
    if is_types(&source.table, constant) {
        Ok(constant)
    } else {
        type_of_term(source, answers, waiting, id)
    }
}

/// The type of an abbreviation of a tree, if it can be abbreviated.
pub(crate) fn abbreviation(
    source: &mut Module,
    answers: &mut Answers,
    waiting: &mut Stack<LpId>,
    id: LpId,
) -> Result<Option<LpId>, Memory>
    requires asking { IsAsking source.old (get nat_eq answers.old) waiting.old }
    requires known { id.0 < length source.old.table }
    ensures decls { source.new.decls ≡ source.old.decls }
    ensures keeps { Keeps source.old.table source.new.table }
    ensures asking { OnOk result (IsAsking source.new (get nat_eq answers.new) waiting.new) }
    ensures told { IfOk result (λ r. Tells source.new.table r (abbreviation_of (declarations_of source.old) (tree_at source.old.table id.0))) }
{
    match source.table.view(id) {
        LpNode::App(..) | LpNode::Lam(..) => {
            let ty = type_of(source, answers, waiting, id)?;
            Ok(written(&source.table, ty))
        }
        LpNode::SortType | LpNode::SortKind | LpNode::Var(_) | LpNode::Sym(_) | LpNode::Pi(..) => {
            Ok(None)
        }
    }
}
