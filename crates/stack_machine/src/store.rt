//! What the machine keeps: a proof, names and lists by number, and which steps of the proof are assumptions and exports.
ghost use Rattle.std.specs.Prelude.{◌≡◌, ◌<◌, ◌≤◌, ◌++◌, [], length, slice_get, unwrap_or, Ok, Some, IfOk, IfErr, OnOk, OnErr};
ghost use Rattle.std.specs.List.{AllByRecursion};
ghost use Rattle.hol_spec.specs.Derivations.{Derives};
ghost use Rattle.hol_spec.specs.Proofs.{assumptions_of, definitions_of, sequents_of};
ghost use Rattle.hol_spec.specs.Types.{operator, types_of, variable};
ghost use Rattle.hol_spec.specs.Terms.{free, constant, app};
ghost use Rattle.hol_spec.specs.Symbols.{new_constant, new_operator};
ghost use Rattle.hol_spec.specs.Rules.{abstraction};
ghost use Rattle.hol_type.specs.Tables.{AreKnown as AreTypes, types_at};
ghost use Rattle.hol_term.specs.Tables.{term_at, terms_at, type_at};
ghost use Rattle.hol_rules.specs.Premises.{AreTermsAt};
ghost use Rattle.common.specs.declared.faults.Fault.TheVariants as the_fault;
ghost use Rattle.article_spec.specs.Conditions.{term_in_limits};
ghost use Rattle.article_spec.specs.Operands.{as_term, as_type, each};
ghost use Rattle.article_spec.specs.Results.{Fails};
ghost use Rattle.article_spec.specs.State as state;
ghost use Rattle.stack_machine.specs.Making.{taking, AreSteps};
ghost use Rattle.stack_machine.specs.Refusals.{application_fits, constant_fits, operator_fits};
ghost use Rattle.stack_machine.specs.Stored.{Grows, rank, IsKnown, IsListKnown, IsName, IsTerm, IsType, cell_view, list_view, name_at, object_view, taken_symbols};

use crate::making::{make_constant, make_operator};
use crate::object::{Cell, CellId, List, NameId, Object};
use crate::operands::{term_in, type_in};
use common::{Fault, Memory};
use compose::Pool;
use hol_name::Name;
use hol_rules::{Proof, StepId};
use hol_term::{TermId, Variable};
use hol_type::TypeId;
use std::alloc::Global;
use std::marker::Model;

// The number's name.
fn name_in(names: &Vec<Name>, id: NameId) -> &Name
    requires { id.0 < length names.now.items }
    ensures { result.now ≡ unwrap_or (slice_get names.now.items id.0) [] }
{
    &names[id.0]
}

// The number's cell.
fn cell_in(cells: &Vec<Cell>, id: CellId) -> Cell
    requires { id.0 < length cells.now.items }
    ensures { slice_get cells.now.items id.0 ≡ Some result }
{
    cells[id.0]
}

/// What the machine keeps. What has a number keeps it, until names and cells are given up.
#[derive(Drop)]
pub(crate) struct Store {
    pub(crate) proof: Proof,
    pub(crate) names: Vec<Name>,
    pub(crate) cells: Vec<Cell>,
    pub(crate) assumptions: Pool,
    pub(crate) exports: Pool,
    // how many exports earlier articles made
    pub(crate) pool: usize,
}

impl Model for Store {
    ghost use Rattle.stack_machine.specs.Stored.{Stored, IsStore, coded_stored, store_view};

    ghost Value = { Stored };

    ghost coded = { coded_stored };

    ghost invariant = { λ s. IsStore s.proof s.names.items s.cells.items s.assumptions s.exports s.pool };

    ghost view = { λ s. store_view s.proof s.names.items s.cells.items s.assumptions s.exports s.pool };
}

impl Store {
    pub(crate) fn new(alloc: Global) -> Result<Store, Memory>
        ensures empty { IfOk result (λ s. s.run ≡ record { made = []; assumptions = []; exports = []; pool = [] }) }
    {
        Ok(Store {
            proof: Proof::new(alloc)?,
            names: Vec::new(alloc),
            cells: Vec::new(alloc),
            assumptions: Pool::new(alloc),
            exports: Pool::new(alloc),
            pool: 0,
        })
    }

    // The proof that the articles made.
    pub(crate) fn proof(&self) -> &Proof
        ensures trees { result.now.trees ≡ self.now.trees }
        ensures made { result.now.made ≡ self.now.run.made }
    {
        &self.proof
    }

    // The steps that are assumptions, in order.
    pub(crate) fn assumptions(&self) -> &[StepId]
        ensures numbers { result.now ≡ self.now.run.assumptions }
        ensures steps { AreSteps self.now.run.made result.now }
    {
        self.assumptions.steps()
    }

    // The steps that are exports, in order.
    pub(crate) fn exports(&self) -> &[StepId]
        ensures numbers { result.now ≡ self.now.run.exports }
        ensures steps { AreSteps self.now.run.made result.now }
    {
        self.exports.steps()
    }

    // What each step says derives from the definitions and the assumptions.
    pub(crate) fn derives(&self)
        ensures { AllByRecursion (Derives (definitions_of self.now.run.made) (assumptions_of self.now.run.made)) (sequents_of self.now.run.made) }
    {
        self.proof.derives();
    }

    // Gives up all names and lists at the end of an article, whose exports are there for the next.
    pub(crate) fn end_article(&mut self)
        ensures trees { self.new.trees ≡ self.old.trees }
        ensures run { self.new.run ≡ record self.old.run { pool = self.old.run.exports } }
    {
        self.names.clear();
        self.cells.clear();
        self.pool = self.exports.len();
    }

    // Keeps a name.
    pub(crate) fn keep_name(&mut self, name: &Name) -> Result<NameId, Memory>
        ensures known { IfOk result (λ id. IsName self.new id.0) }
        ensures kept { IfOk result (λ id. name_at self.new id.0 ≡ name.now) }
        ensures grows { Grows self.old self.new }
        ensures run { self.new.run ≡ self.old.run }
    {
        let id = NameId(self.names.len());
        self.names.push(name.clone()?)?;
        Ok(id)
    }

    // The list of an element and a list.
    pub(crate) fn cons(&mut self, head: Object, tail: List) -> Result<List, Memory>
        requires head { IsKnown self.old head }
        requires tail { IsListKnown self.old tail }
        ensures known { IfOk result (λ xs. IsListKnown self.new xs) }
        ensures made { IfOk result (λ xs. list_view self.new xs ≡ state.Objects.more (object_view self.old head) (list_view self.old tail)) }
        ensures grows { Grows self.old self.new }
        ensures run { self.new.run ≡ self.old.run }
    {
        let id = CellId(self.cells.len());
        self.cells.push(Cell { head, tail })?;
        Ok(List::Cell(id))
    }

    // The first element of a list, and the rest of it.
    pub(crate) fn cell(&self, id: CellId) -> Cell
        requires { IsListKnown self.now (List.Cell id) }
        ensures is { list_view self.now (List.Cell id) ≡ cell_view self.now result }
        ensures head { IsKnown self.now result.head }
        ensures tail { IsListKnown self.now result.tail }
        ensures lower { rank result.tail ≤ id.0 }
    {
        cell_in(&self.cells, id)
    }

    // The type variable of a name.
    pub(crate) fn type_variable(&mut self, name: NameId) -> Result<TypeId, Fault>
        requires { IsName self.old name.0 }
        ensures known { IfOk result (λ id. IsType self.new id.0) }
        ensures made { IfOk result (λ id. type_at self.new.trees id.0 ≡ variable (name_at self.old name.0)) }
        ensures refused { IfErr result (λ fault. fault ≡ the_fault.Memory) }
        ensures grows { Grows self.old self.new }
        ensures run { self.new.run ≡ self.old.run }
    {
        let name = name_in(&self.names, name);
        self.proof.ty_var(name)
    }

    // The free variable of a name and a type.
    pub(crate) fn free_variable(&mut self, name: NameId, ty: TypeId) -> Result<TermId, Fault>
        requires name { IsName self.old name.0 }
        requires ty { IsType self.old ty.0 }
        ensures known { IfOk result (λ id. IsTerm self.new id.0) }
        ensures made { IfOk result (λ id. term_at self.new.trees id.0 ≡ free (name_at self.old name.0) (type_at self.old.trees ty.0)) }
        ensures fits { OnOk result (term_in_limits (free (name_at self.old name.0) (type_at self.old.trees ty.0)) ≡ Ok tt) }
        ensures refused { IfErr result (λ fault. Fails fault (term_in_limits (free (name_at self.old name.0) (type_at self.old.trees ty.0)))) }
        ensures grows { Grows self.old self.new }
        ensures run { self.new.run ≡ self.old.run }
    {
        let name = name_in(&self.names, name);
        self.proof.free(name, ty)
    }

    // The application of a term to a term.
    pub(crate) fn application(&mut self, f: TermId, x: TermId) -> Result<TermId, Fault>
        requires function { IsTerm self.old f.0 }
        requires argument { IsTerm self.old x.0 }
        ensures known { IfOk result (λ id. IsTerm self.new id.0) }
        ensures made { IfOk result (λ id. term_at self.new.trees id.0 ≡ app (term_at self.old.trees f.0) (term_at self.old.trees x.0)) }
        ensures fits { OnOk result (application_fits (app (term_at self.old.trees f.0) (term_at self.old.trees x.0)) ≡ Ok tt) }
        ensures refused { IfErr result (λ fault. Fails fault (application_fits (app (term_at self.old.trees f.0) (term_at self.old.trees x.0)))) }
        ensures grows { Grows self.old self.new }
        ensures run { self.new.run ≡ self.old.run }
    {
        self.proof.app(f, x)
    }

    // The abstraction of a term over the variable of a name and a type.
    pub(crate) fn abstraction(
        &mut self,
        name: NameId,
        ty: TypeId,
        body: TermId,
    ) -> Result<TermId, Fault>
        requires name { IsName self.old name.0 }
        requires ty { IsType self.old ty.0 }
        requires body { IsTerm self.old body.0 }
        ensures known { IfOk result (λ id. IsTerm self.new id.0) }
        ensures made { IfOk result (λ id. term_at self.new.trees id.0 ≡ abstraction (name_at self.old name.0, type_at self.old.trees ty.0)
            (term_at self.old.trees body.0)) }
        ensures fits { OnOk result (term_in_limits (abstraction (name_at self.old name.0, type_at self.old.trees ty.0) (term_at self.old.trees body.0)) ≡ Ok tt) }
        ensures refused { IfErr result (λ fault. Fails fault
            (term_in_limits (abstraction (name_at self.old name.0, type_at self.old.trees ty.0) (term_at self.old.trees body.0)))) }
        ensures grows { Grows self.old self.new }
        ensures run { self.new.run ≡ self.old.run }
    {
        let variable = self.variable(name, ty)?;
        self.abstraction_over(&variable, body)
    }

    // The name.
    pub(crate) fn name(&self, name: NameId) -> Result<Name, Memory>
        requires { IsName self.now name.0 }
        ensures { IfOk result (λ own. own ≡ name_at self.now name.0) }
    {
        let own = name_in(&self.names, name).clone()?;
        Ok(own)
    }

    // The variable of a name and a type.
    pub(crate) fn variable(&self, name: NameId, ty: TypeId) -> Result<Variable, Memory>
        requires name { IsName self.now name.0 }
        ensures name { IfOk result (λ variable. variable.name ≡ name_at self.now name.0) }
        ensures ty { IfOk result (λ variable. variable.ty ≡ ty) }
    {
        let name = name_in(&self.names, name).clone()?;
        Ok(Variable { name, ty })
    }

    // The abstraction of a term over a variable.
    fn abstraction_over(&mut self, variable: &Variable, body: TermId) -> Result<TermId, Fault>
        requires ty { IsType self.old variable.now.ty.0 }
        requires body { IsTerm self.old body.0 }
        ensures known { IfOk result (λ id. IsTerm self.new id.0) }
        ensures made { IfOk result (λ id. term_at self.new.trees id.0 ≡ abstraction (variable.now.name, type_at self.old.trees variable.now.ty.0)
            (term_at self.old.trees body.0)) }
        ensures fits { OnOk result (term_in_limits
            (abstraction (variable.now.name, type_at self.old.trees variable.now.ty.0) (term_at self.old.trees body.0)) ≡ Ok tt) }
        ensures refused { IfErr result (λ fault. Fails fault
            (term_in_limits (abstraction (variable.now.name, type_at self.old.trees variable.now.ty.0) (term_at self.old.trees body.0)))) }
        ensures grows { Grows self.old self.new }
        ensures run { self.new.run ≡ self.old.run }
    {
        self.proof.abs(variable, body)
    }

    // The type of an operator with these arguments.
    pub(crate) fn operator_type(&mut self, name: NameId, args: &[TypeId]) -> Result<TypeId, Fault>
        requires name { IsName self.old name.0 }
        requires args { AreTypes self.old.trees.types args.now }
        ensures known { IfOk result (λ id. IsType self.new id.0) }
        ensures made { IfOk result (λ id. type_at self.new.trees id.0 ≡ operator (name_at self.old name.0) (types_of (types_at self.old.trees.types args.now))) }
        ensures fits { OnOk result (operator_fits (taken_symbols self.old) (name_at self.old name.0) (types_at self.old.trees.types args.now) ≡ Ok tt) }
        ensures takes { OnOk result (self.new.run ≡ taking self.old.run
            (new_operator (taken_symbols self.old) (name_at self.old name.0) (length (types_at self.old.trees.types args.now)))) }
        ensures refused { IfErr result (λ fault. Fails fault
            (operator_fits (taken_symbols self.old) (name_at self.old name.0) (types_at self.old.trees.types args.now))) }
        ensures unchanged { OnErr result (self.new.run ≡ self.old.run) }
        ensures grows { Grows self.old self.new }
    {
        let name = name_in(&self.names, name);
        make_operator(&mut self.proof, name, args)
    }

    // The constant of a name at a type.
    pub(crate) fn constant_term(&mut self, name: NameId, ty: TypeId) -> Result<TermId, Fault>
        requires name { IsName self.old name.0 }
        requires ty { IsType self.old ty.0 }
        ensures known { IfOk result (λ id. IsTerm self.new id.0) }
        ensures made { IfOk result (λ id. term_at self.new.trees id.0 ≡ constant (name_at self.old name.0) (type_at self.old.trees ty.0)) }
        ensures fits { OnOk result (constant_fits (taken_symbols self.old) (name_at self.old name.0) (type_at self.old.trees ty.0) ≡ Ok tt) }
        ensures takes { OnOk result (self.new.run ≡ taking self.old.run (new_constant (taken_symbols self.old) (name_at self.old name.0))) }
        ensures refused { IfErr result (λ fault. Fails fault (constant_fits (taken_symbols self.old) (name_at self.old name.0) (type_at self.old.trees ty.0))) }
        ensures unchanged { OnErr result (self.new.run ≡ self.old.run) }
        ensures grows { Grows self.old self.new }
    {
        let name = name_in(&self.names, name);
        make_constant(&mut self.proof, name, ty)
    }

    // The elements of a list as types, in their order.
    pub(crate) fn types_in(&self, alloc: Global, list: List) -> Result<Vec<TypeId>, Fault>
        requires { IsListKnown self.now list }
        ensures types { IfOk result (λ ids. each as_type (list_view self.now list) ≡ Ok (types_at self.now.trees.types ids.items)) }
        ensures known { IfOk result (λ ids. AreTypes self.now.trees.types ids.items) }
        ensures refused { IfErr result (λ fault. Fails fault (each as_type (list_view self.now list))) }
    {
        let mut types = Vec::new(alloc);
        let mut rest = list;
        while let List::Cell(id) = rest {
            let cell = self.cell(id);
            types.push(type_in(cell.head)?)?;
            rest = cell.tail;
        }
        Ok(types)
    }

    // The elements of a list as terms, in their order.
    pub(crate) fn terms_in(&self, alloc: Global, list: List) -> Result<Vec<TermId>, Fault>
        requires { IsListKnown self.now list }
        ensures terms { IfOk result (λ ids. each as_term (list_view self.now list) ≡ Ok (terms_at self.now.trees ids.items)) }
        ensures known { IfOk result (λ ids. AreTermsAt self.now.trees ids.items) }
        ensures refused { IfErr result (λ fault. Fails fault (each as_term (list_view self.now list))) }
    {
        let mut terms = Vec::new(alloc);
        let mut rest = list;
        while let List::Cell(id) = rest {
            let cell = self.cell(id);
            terms.push(term_in(cell.head)?)?;
            rest = cell.tail;
        }
        Ok(terms)
    }
}
