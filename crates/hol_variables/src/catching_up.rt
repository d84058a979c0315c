//! What is noted of each type and term: the lists of its variables.
ghost use Rattle.std.specs.Prelude.{◌≡◌, ◌<◌, ◌≤◌, length, IfOk, OnOk};
ghost use Rattle.std.specs.List.{flat_map};
ghost use Rattle.hol_spec.specs.Types.{variable_places};
ghost use Rattle.hol_type.specs.Tables.{tree_at, types_at};
ghost use Rattle.hol_type.specs.Views.{AreBelow};
ghost use Rattle.hol_variables.specs.Lists.{KeepsLists, Tells};
ghost use Rattle.hol_variables.specs.Noted.{AreNoted, AreTypesNoted, IsOwn};
ghost use Rattle.hol_variables.specs.Variables.{AreNames};

use crate::lists::{ListId, Lists};
use crate::packed::Packed;
use crate::{Own, ParamMemo};
use common::Memory;
use hol_term::{TermId, TermTable, TermView};
use hol_type::{TypeId, TypeTable, TypeView};

impl ParamMemo {
    // Notes all types and terms that are not noted.
    pub(crate) fn catch_up(&mut self, terms: &TermTable) -> Result<(), Memory>
        requires noted { AreNoted terms.now self.old }
        ensures noted { AreNoted terms.now self.new }
        ensures all_types { OnOk result (length self.new.types.items ≡ length terms.now.types) }
        ensures all_terms { OnOk result (length self.new.terms.items ≡ length terms.now.terms) }
    {
        self.note_types(terms)?;
        self.note_terms(terms)
    }

    // Notes the types that are not noted.
    fn note_types(&mut self, terms: &TermTable) -> Result<(), Memory>
        requires noted { AreNoted terms.now self.old }
        ensures noted { AreNoted terms.now self.new }
        ensures all_types { OnOk result (length self.new.types.items ≡ length terms.now.types) }
    {
        let types = terms.types();
        while self.types.len() < types.count() {
            let id = TypeId(self.types.len());
            let list = names_of(types, &mut self.names, &self.types, id)?;
            self.types.push(list)?;
        }
        Ok(())
    }

    // Notes the terms that are not noted, where all types are.
    fn note_terms(&mut self, terms: &TermTable) -> Result<(), Memory>
        requires noted { AreNoted terms.now self.old }
        requires all_types { length self.old.types.items ≡ length terms.now.types }
        ensures noted { AreNoted terms.now self.new }
        ensures all_types { length self.new.types.items ≡ length terms.now.types }
        ensures all_terms { OnOk result (length self.new.terms.items ≡ length terms.now.terms) }
    {
        while self.terms.len() < terms.count() {
            let id = TermId(self.terms.len());
            let own = self.own(terms, id)?;
            let packed = Packed::of(own)?;
            self.terms.push(packed)?;
        }
        Ok(())
    }

    // The lists of a term's variables, where its parts are noted.
    fn own(&mut self, terms: &TermTable, id: TermId) -> Result<Own, Memory>
        requires noted { AreNoted terms.now self.old }
        requires all_types { length self.old.types.items ≡ length terms.now.types }
        requires known { id.0 < length terms.now.terms }
        requires next { id.0 ≡ length self.old.terms.items }
        ensures own { IfOk result (λ own. IsOwn terms.now self.new.names self.new.variables id.0 own) }
        ensures names { KeepsLists self.old.names self.new.names }
        ensures variables { KeepsLists self.old.variables self.new.variables }
        ensures types { self.new.types.items ≡ self.old.types.items }
        ensures terms { self.new.terms.items ≡ self.old.terms.items }
    {
        let _count = terms.types().count();
        match terms.view(id) {
            TermView::Free(_, ty) => Ok(Own {
                names: self.types[ty.0],
                variables: Some(self.variables.single(id.0)?),
            }),
            TermView::Const(_, ty) => Ok(Own {
                names: self.types[ty.0],
                variables: Some(self.variables.nothing()),
            }),
            TermView::Bound(_) => Ok(Own {
                names: Some(self.names.nothing()),
                variables: Some(self.variables.nothing()),
            }),
            TermView::App(f, x) => {
                let f = self.terms[f.0].own();
                let x = self.terms[x.0].own();
                let names = self.names.unite(f.names, x.names)?;
                let variables = self.variables.unite(f.variables, x.variables)?;
                Ok(Own { names, variables })
            }
            TermView::Lam(ty, body) => {
                let body = self.terms[body.0].own();
                let names = self.names.unite(self.types[ty.0], body.names)?;
                Ok(Own {
                    names,
                    variables: body.variables,
                })
            }
        }
    }
}

// The list of a type's variables, where its arguments are noted.
fn names_of(
    types: &TypeTable,
    lists: &mut Lists,
    noted: &[Option<ListId>],
    id: TypeId,
) -> Result<Option<ListId>, Memory>
    requires noted { AreTypesNoted types.now lists.old noted.now }
    requires known { id.0 < length types.now }
    requires next { id.0 ≡ length noted.now }
    ensures names { IfOk result (λ list. Tells (AreNames types.now (variable_places (tree_at types.now id.0))) lists.new list) }
    ensures keeps { KeepsLists lists.old lists.new }
{
    match types.view(id) {
        TypeView::Var(_) => Ok(Some(lists.single(id.0)?)),
        TypeView::Op(_, args) => names_of_all(types, lists, noted, args),
    }
}

// The list of the variables of some types, which are noted.
fn names_of_all(
    types: &TypeTable,
    lists: &mut Lists,
    noted: &[Option<ListId>],
    args: &[TypeId],
) -> Result<Option<ListId>, Memory>
    requires noted { AreTypesNoted types.now lists.old noted.now }
    requires args { AreBelow (length noted.now) args.now }
    ensures names { IfOk result (λ list. Tells (AreNames types.now (flat_map variable_places (types_at types.now args.now))) lists.new list) }
    ensures keeps { KeepsLists lists.old lists.new }
{
    let _count = types.count();
    let mut list = Some(lists.nothing());
    for arg in args {
        list = lists.unite(list, noted[arg.0])?;
    }
    Ok(list)
}
