//! A table of terms with two stacks, and the steps that make types and terms on them.
ghost use Rattle.std.specs.Prelude.{◌≡◌, ◌<◌, [], length, IfOk, OnOk, IsTrue};
ghost use Rattle.hol_term.specs.Substitutions.{AreTermPairs};
ghost use Rattle.hol_type.specs.Tables as type;
ghost use Rattle.hol_term.specs.Tables.{IsTermAt};

use common::{Fault, Kind, Stack};
use hol_name::Name;
use hol_term::{TermId, TermTable, TermView, Variable};
use hol_type::TypeId;
use std::alloc::Global;

/// A step of making a type or a term. It takes its parts from their stacks, the last from the top.
#[derive(Clone, Copy)]
pub(crate) enum Step {
    Type(TypeStep),
    Term(TermStep),
}

/// What makes a type.
#[derive(Clone, Copy)]
pub(crate) enum TypeStep {
    /// The type variable of this letter.
    Variable(u8),
    /// The type of truth values.
    Bool,
    /// The type of individuals.
    Individuals,
    /// The type of functions from one type to another.
    Function,
    /// So many times `list` over a type.
    Lists(u32),
    /// So many times the type of functions from a type to itself.
    Doubled(u32),
    /// The second type with the first one for the variable A.
    Put,
}

/// What makes a term, or a part of one.
#[derive(Clone, Copy)]
pub(crate) enum TermStep {
    /// The free variable of this letter, of a type from its stack.
    Free(u8),
    /// The constant of this letter, of a type from its stack.
    Constant(u8),
    /// A function applied to an argument.
    App,
    /// A term over the variable of this letter, of a type from its stack.
    Abs(u8),
    /// The equation of two terms.
    Equation,
    /// So many times a function of one argument over a term.
    Applied(u32),
    /// So many times a function of two arguments over a term and itself.
    Doubled(u32),
    /// The body of an abstraction.
    Body,
    /// The body of an abstraction with an argument for its variable.
    Inst,
    /// A tree with its loose numbers raised by so many.
    Lift(u128),
    /// A body, the last, with an argument for its variable.
    Put,
    /// A body of two binders, the last, with two arguments for their variables.
    PutBoth,
    /// A term, the last, with a type from its stack for the variable A, and then with two terms for two variables: a
    /// variable stands before what is put for it.
    Subst,
    /// A term, the last, with two terms for two variables: a variable stands before what is put for it.
    PutTwo,
    /// The same with ten terms: between the two, for the variables of the first eight letters what is put for the second.
    PutTen,
}

/// A table, and the types and the trees that were made and not taken yet.
#[derive(Drop)]
pub(crate) struct Bench {
    pub(crate) table: TermTable,
    types: Stack<TypeId>,
    terms: Stack<TermId>,
    alloc: Global,
}

impl Bench {
    pub(crate) fn new(alloc: Global) -> Self {
        Bench {
            table: TermTable::new(alloc),
            types: Stack::new(alloc),
            terms: Stack::new(alloc),
            alloc,
        }
    }

    /// The type that the steps make.
    pub(crate) fn make_type(&mut self, parts: &[&[Step]]) -> Result<TypeId, Fault>
        ensures { IfOk result (λ id. id.0 < length self.new.table.types) }
    {
        self.set_out(parts)?;
        self.take_type()
    }

    /// The tree that the steps make.
    pub(crate) fn make(&mut self, parts: &[&[Step]]) -> Result<TermId, Fault>
        ensures { IfOk result (λ id. id.0 < length self.new.table.terms) }
    {
        self.set_out(parts)?;
        self.take_tree()
    }

    /// The term that the steps make.
    pub(crate) fn make_term(&mut self, parts: &[&[Step]]) -> Result<TermId, Fault>
        ensures { IfOk result (λ id. IsTermAt self.new.table id.0) }
    {
        self.set_out(parts)?;
        self.take_term()
    }

    /// Makes what the steps make, and leaves it on the stacks.
    pub(crate) fn set_out(&mut self, parts: &[&[Step]]) -> Result<(), Fault> {
        for steps in parts {
            self.obey(steps)?;
        }
        Ok(())
    }

    /// Makes what the steps make, and leaves it on the stacks.
    pub(crate) fn obey(&mut self, steps: &[Step]) -> Result<(), Fault> {
        for step in steps {
            match step {
                Step::Type(step) => self.obey_type(*step)?,
                Step::Term(step) => self.obey_term(*step)?,
            }
        }
        Ok(())
    }

    fn obey_type(&mut self, step: TypeStep) -> Result<(), Fault> {
        let made = match step {
            TypeStep::Variable(letter) => self.type_variable(letter)?,
            TypeStep::Bool => self.base(b"bool")?,
            TypeStep::Individuals => self.base(b"ind")?,
            TypeStep::Function => self.function()?,
            TypeStep::Lists(times) => self.lists(times)?,
            TypeStep::Doubled(times) => self.doubled_type(times)?,
            TypeStep::Put => self.put_type()?,
        };
        self.types.push(made)?;
        Ok(())
    }

    fn obey_term(&mut self, step: TermStep) -> Result<(), Fault> {
        let made = match step {
            TermStep::Free(letter) => self.free(letter)?,
            TermStep::Constant(letter) => self.constant(letter)?,
            TermStep::App => self.app()?,
            TermStep::Abs(letter) => self.abs(letter)?,
            TermStep::Equation => self.equation()?,
            TermStep::Applied(times) => self.applied(times)?,
            TermStep::Doubled(times) => self.doubled(times)?,
            TermStep::Body => self.body()?,
            TermStep::Inst => self.inst()?,
            TermStep::Lift(k) => self.lift(k)?,
            TermStep::Put => self.put()?,
            TermStep::PutBoth => self.put_both()?,
            TermStep::Subst => self.subst()?,
            TermStep::PutTwo => self.put_terms(b"")?,
            TermStep::PutTen => self.put_terms(b"abcdefgh")?,
        };
        self.terms.push(made)?;
        Ok(())
    }

    fn name(&self, text: &[u8]) -> Result<Name, Fault> {
        match Name::single(self.alloc, text) {
            Ok(name) => Ok(name),
            Err(_) => Err(Fault::Memory),
        }
    }

    /// How many types and trees there are.
    pub(crate) fn counts(&self) -> (usize, usize) {
        (self.table.types().count(), self.table.count())
    }

    fn has_type(&self, ty: TypeId) -> bool
        ensures { IsTrue result → ty.0 < length self.now.table.types }
    {
        ty.0 < self.table.types().count()
    }

    fn has_tree(&self, id: TermId) -> bool
        ensures { IsTrue result → id.0 < length self.now.table.terms }
    {
        id.0 < self.table.count()
    }

    fn is_term(&self, id: TermId) -> bool
        ensures { IsTrue result → IsTermAt self.now.table id.0 }
    {
        if !self.has_tree(id) {
            return false;
        }
        match self.table.ty(id) {
            Some(_) => true,
            None => false,
        }
    }

    // The type on top of its stack.
    fn take_type(&mut self) -> Result<TypeId, Fault>
        ensures known { IfOk result (λ id. id.0 < length self.new.table.types) }
        ensures table { self.new.table ≡ self.old.table }
    {
        match self.types.pop() {
            Some(id) => {
                if self.has_type(id) {
                    Ok(id)
                } else {
                    Err(Fault::Refused(Kind::WrongKind))
                }
            }
            None => Err(Fault::Refused(Kind::StackShort)),
        }
    }

    // The tree on top of its stack.
    fn take_tree(&mut self) -> Result<TermId, Fault>
        ensures known { IfOk result (λ id. id.0 < length self.new.table.terms) }
        ensures table { self.new.table ≡ self.old.table }
    {
        match self.terms.pop() {
            Some(id) => {
                if self.has_tree(id) {
                    Ok(id)
                } else {
                    Err(Fault::Refused(Kind::WrongKind))
                }
            }
            None => Err(Fault::Refused(Kind::StackShort)),
        }
    }

    // The term on top of its stack.
    fn take_term(&mut self) -> Result<TermId, Fault>
        ensures term { IfOk result (λ id. IsTermAt self.new.table id.0) }
        ensures table { self.new.table ≡ self.old.table }
    {
        match self.terms.pop() {
            Some(id) => {
                if self.is_term(id) {
                    Ok(id)
                } else {
                    Err(Fault::Refused(Kind::WrongKind))
                }
            }
            None => Err(Fault::Refused(Kind::StackShort)),
        }
    }

    // The two types on top of their stack, the top one last.
    fn take_two_types(&mut self) -> Result<(TypeId, TypeId), Fault>
        ensures first { IfOk result (λ ids. ids.0.0 < length self.new.table.types) }
        ensures second { IfOk result (λ ids. ids.1.0 < length self.new.table.types) }
        ensures table { self.new.table ≡ self.old.table }
    {
        let second = self.take_type()?;
        let first = self.take_type()?;
        Ok((first, second))
    }

    // The two trees on top of their stack, the top one last.
    fn take_two_trees(&mut self) -> Result<(TermId, TermId), Fault>
        ensures first { IfOk result (λ ids. ids.0.0 < length self.new.table.terms) }
        ensures second { IfOk result (λ ids. ids.1.0 < length self.new.table.terms) }
        ensures table { self.new.table ≡ self.old.table }
    {
        let second = self.take_tree()?;
        let first = self.take_tree()?;
        Ok((first, second))
    }

    // The two terms on top of their stack, the top one last.
    fn take_two_terms(&mut self) -> Result<(TermId, TermId), Fault>
        ensures first { IfOk result (λ ids. IsTermAt self.new.table ids.0.0) }
        ensures second { IfOk result (λ ids. IsTermAt self.new.table ids.1.0) }
        ensures table { self.new.table ≡ self.old.table }
    {
        let second = self.take_term()?;
        let first = self.take_term()?;
        Ok((first, second))
    }

    fn type_variable(&mut self, letter: u8) -> Result<TypeId, Fault> {
        let name = self.name(&[letter])?;
        let made = self.table.ty_var(&name);
        drop(name);
        made
    }

    // The type of an operator over these types.
    fn operator(&mut self, text: &[u8], args: &[TypeId]) -> Result<TypeId, Fault>
        requires { type.AreKnown self.old.table.types args.now }
        ensures { IfOk result (λ id. id.0 < length self.new.table.types) }
    {
        let name = self.name(text)?;
        let made = self.table.ty_op(&name, args);
        drop(name);
        made
    }

    fn base(&mut self, text: &[u8]) -> Result<TypeId, Fault> {
        self.operator(text, &[])
    }

    fn function(&mut self) -> Result<TypeId, Fault> {
        let (domain, codomain) = self.take_two_types()?;
        self.function_of(domain, codomain)
    }

    fn function_of(&mut self, domain: TypeId, codomain: TypeId) -> Result<TypeId, Fault>
        requires domain { domain.0 < length self.old.table.types }
        requires codomain { codomain.0 < length self.old.table.types }
        ensures { IfOk result (λ id. id.0 < length self.new.table.types) }
    {
        self.operator(b"->", &[domain, codomain])
    }

    fn list_of(&mut self, element: TypeId) -> Result<TypeId, Fault>
        requires { element.0 < length self.old.table.types }
        ensures { IfOk result (λ id. id.0 < length self.new.table.types) }
    {
        self.operator(b"list", &[element])
    }

    fn lists(&mut self, times: u32) -> Result<TypeId, Fault> {
        let mut id = self.take_type()?;
        for _ in 0..times {
            id = self.list_of(id)?;
        }
        Ok(id)
    }

    fn doubled_type(&mut self, times: u32) -> Result<TypeId, Fault> {
        let mut id = self.take_type()?;
        for _ in 0..times {
            id = self.function_of(id, id)?;
        }
        Ok(id)
    }

    fn put_type(&mut self) -> Result<TypeId, Fault> {
        let (by, id) = self.take_two_types()?;
        let pairs = [(self.name(b"A")?, by)];
        let made = self.table.ty_subst(&pairs, id);
        drop(pairs);
        made
    }

    fn free(&mut self, letter: u8) -> Result<TermId, Fault> {
        let ty = self.take_type()?;
        let name = self.name(&[letter])?;
        let made = self.table.free(&name, ty);
        drop(name);
        made
    }

    fn constant(&mut self, letter: u8) -> Result<TermId, Fault> {
        let ty = self.take_type()?;
        let name = self.name(&[letter])?;
        let made = self.table.constant(&name, ty);
        drop(name);
        made
    }

    fn app(&mut self) -> Result<TermId, Fault> {
        let (f, x) = self.take_two_terms()?;
        self.table.app(f, x)
    }

    fn app_of(&mut self, f: TermId, x: TermId) -> Result<TermId, Fault> {
        if self.is_term(f) && self.is_term(x) {
            self.table.app(f, x)
        } else {
            Err(Fault::Refused(Kind::WrongKind))
        }
    }

    fn abs(&mut self, letter: u8) -> Result<TermId, Fault> {
        let ty = self.take_type()?;
        let id = self.take_term()?;
        let name = self.name(&[letter])?;
        let variable = Variable { name, ty };
        let made = self.table.abs(&variable, id);
        drop(variable);
        made
    }

    fn equation(&mut self) -> Result<TermId, Fault> {
        let (l, r) = self.take_two_terms()?;
        self.table.mk_eq(l, r)
    }

    fn applied(&mut self, times: u32) -> Result<TermId, Fault> {
        let (f, innermost) = self.take_two_terms()?;
        let mut id = innermost;
        for _ in 0..times {
            id = self.app_of(f, id)?;
        }
        Ok(id)
    }

    fn doubled(&mut self, times: u32) -> Result<TermId, Fault> {
        let (f, innermost) = self.take_two_terms()?;
        let mut id = innermost;
        for _ in 0..times {
            let half = self.app_of(f, id)?;
            id = self.app_of(half, id)?;
        }
        Ok(id)
    }

    fn body(&mut self) -> Result<TermId, Fault> {
        let id = self.take_tree()?;
        match self.table.view(id) {
            TermView::Lam(_, body) => Ok(body),
            TermView::Free(..) | TermView::Bound(_) | TermView::Const(..) | TermView::App(..) => {
                Err(Fault::Refused(Kind::WrongKind))
            }
        }
    }

    fn inst(&mut self) -> Result<TermId, Fault> {
        let (abstraction, arg) = self.take_two_terms()?;
        self.applied_to(abstraction, arg)
    }

    // The body of an abstraction with an argument of its type for its variable.
    fn applied_to(&mut self, abstraction: TermId, arg: TermId) -> Result<TermId, Fault>
        requires abstraction { IsTermAt self.old.table abstraction.0 }
        requires arg { IsTermAt self.old.table arg.0 }
    {
        let (ty, body) = match self.table.view(abstraction) {
            TermView::Lam(ty, body) => (ty, body),
            TermView::Free(..) | TermView::Bound(_) | TermView::Const(..) | TermView::App(..) => {
                return Err(Fault::Refused(Kind::WrongKind));
            }
        };
        if self.table.type_of(arg) == ty {
            self.table.inst(body, arg)
        } else {
            Err(Fault::Refused(Kind::WrongKind))
        }
    }

    fn lift(&mut self, k: u128) -> Result<TermId, Fault> {
        let id = self.take_tree()?;
        self.table.lift(k, id)
    }

    fn put(&mut self) -> Result<TermId, Fault> {
        let (arg, body) = self.take_two_trees()?;
        self.table.put(arg, body)
    }

    fn put_both(&mut self) -> Result<TermId, Fault> {
        let body = self.take_tree()?;
        let (first, second) = self.take_two_trees()?;
        self.table.put_all(&[first, second], body)
    }

    fn subst(&mut self) -> Result<TermId, Fault> {
        let ty = self.take_type()?;
        let id = self.take_term()?;
        let second = self.take_put()?;
        let first = self.take_put()?;
        self.substituted(ty, id, first, second)
    }

    // A variable's tree and the term that is put for it, from the top of the stack.
    fn take_put(&mut self) -> Result<(TermId, TermId), Fault>
        ensures variable { IfOk result (λ ids. ids.0.0 < length self.new.table.terms) }
        ensures term { IfOk result (λ ids. IsTermAt self.new.table ids.1.0) }
        ensures table { self.new.table ≡ self.old.table }
    {
        let by = self.take_term()?;
        let id = self.take_tree()?;
        Ok((id, by))
    }

    // A term with a type for the variable A, and then with two terms for two variables.
    fn substituted(
        &mut self,
        ty: TypeId,
        id: TermId,
        first: (TermId, TermId),
        second: (TermId, TermId),
    ) -> Result<TermId, Fault>
        requires ty { ty.0 < length self.old.table.types }
        requires id { IsTermAt self.old.table id.0 }
        requires first { first.0.0 < length self.old.table.terms }
        requires first_by { IsTermAt self.old.table first.1.0 }
        requires second { second.0.0 < length self.old.table.terms }
        requires second_by { IsTermAt self.old.table second.1.0 }
    {
        let types = [(self.name(b"A")?, ty)];
        let made = self.substituted_by(&types, id, first, second);
        drop(types);
        made
    }

    // The same, with a name for the variable A.
    fn substituted_by(
        &mut self,
        types: &[(Name, TypeId)],
        id: TermId,
        first: (TermId, TermId),
        second: (TermId, TermId),
    ) -> Result<TermId, Fault>
        requires types { type.ArePairsKnown self.old.table.types types.now }
        requires id { IsTermAt self.old.table id.0 }
        requires first { first.0.0 < length self.old.table.terms }
        requires first_by { IsTermAt self.old.table first.1.0 }
        requires second { second.0.0 < length self.old.table.terms }
        requires second_by { IsTermAt self.old.table second.1.0 }
    {
        let front = self.variable(first.0)?;
        match self.variable(second.0) {
            Ok(back) => {
                let pairs = [(front, first.1), (back, second.1)];
                let made = self.table.subst(types, &pairs, id);
                drop(pairs);
                made
            }
            Err(fault) => {
                drop(front);
                Err(fault)
            }
        }
    }

    // A term with two terms for two variables, and between them for those of these letters what is put for the second.
    fn put_terms(&mut self, letters: &[u8]) -> Result<TermId, Fault> {
        let id = self.take_term()?;
        let second = self.take_put()?;
        let first = self.take_put()?;
        let mut pairs = Vec::new(self.alloc);
        let made = match self.push_pairs(&mut pairs, letters, first, second) {
            Ok(()) => self.table.subst(&[], &pairs, id),
            Err(fault) => Err(fault),
        };
        drop(pairs);
        made
    }

    // The pairs of what is put for two variables, and between them those of these letters.
    fn push_pairs(
        &self,
        pairs: &mut Vec<(Variable, TermId)>,
        letters: &[u8],
        first: (TermId, TermId),
        second: (TermId, TermId),
    ) -> Result<(), Fault>
        requires none { pairs.old.items ≡ [] }
        requires first { first.0.0 < length self.now.table.terms }
        requires first_by { IsTermAt self.now.table first.1.0 }
        requires second { second.0.0 < length self.now.table.terms }
        requires second_by { IsTermAt self.now.table second.1.0 }
        ensures { OnOk result (AreTermPairs self.now.table pairs.new.items) }
    {
        self.push_put(pairs, first)?;
        for letter in letters {
            let name = self.name(&[*letter])?;
            let ty = self.table.type_of(second.1);
            self.push_pair(pairs, Variable { name, ty }, second.1)?;
        }
        self.push_put(pairs, second)
    }

    // The pair of what is put for the variable of a tree.
    fn push_put(
        &self,
        pairs: &mut Vec<(Variable, TermId)>,
        put: (TermId, TermId),
    ) -> Result<(), Fault>
        requires pairs { AreTermPairs self.now.table pairs.old.items }
        requires variable { put.0.0 < length self.now.table.terms }
        requires term { IsTermAt self.now.table put.1.0 }
        ensures { OnOk result (AreTermPairs self.now.table pairs.new.items) }
    {
        let variable = self.variable(put.0)?;
        self.push_pair(pairs, variable, put.1)
    }

    // One pair more.
    fn push_pair(
        &self,
        pairs: &mut Vec<(Variable, TermId)>,
        variable: Variable,
        by: TermId,
    ) -> Result<(), Fault>
        requires pairs { AreTermPairs self.now.table pairs.old.items }
        requires ty { variable.ty.0 < length self.now.table.types }
        requires term { IsTermAt self.now.table by.0 }
        ensures { OnOk result (AreTermPairs self.now.table pairs.new.items) }
    {
        match pairs.reserve(1) {
            Ok(()) => {
                pairs.push_reserved((variable, by));
                Ok(())
            }
            Err(_) => {
                drop(variable);
                Err(Fault::Memory)
            }
        }
    }

    // The name and the type of a free variable.
    fn variable(&self, id: TermId) -> Result<Variable, Fault>
        requires { id.0 < length self.now.table.terms }
        ensures { IfOk result (λ variable. variable.ty.0 < length self.now.table.types) }
    {
        match self.table.view(id) {
            TermView::Free(name, ty) => {
                let name = name.clone()?;
                Ok(Variable { name, ty })
            }
            TermView::Bound(_) | TermView::Const(..) | TermView::App(..) | TermView::Lam(..) => {
                Err(Fault::Refused(Kind::WrongKind))
            }
        }
    }

    /// Whether the type of the first steps may become that of the second ones.
    pub(crate) fn is_instance(
        &mut self,
        general: &[&[Step]],
        instance: &[&[Step]],
    ) -> Result<bool, Fault> {
        self.set_out(general)?;
        self.set_out(instance)?;
        let (general, instance) = self.take_two_types()?;
        let found = self.table.ty_match(general, instance)?;
        let right = found.is_some();
        drop(found);
        Ok(right)
    }

    /// The type of the term that the steps make.
    pub(crate) fn type_of(&mut self, parts: &[&[Step]]) -> Result<TypeId, Fault> {
        let id = self.make_term(parts)?;
        Ok(self.table.type_of(id))
    }

    /// The size and the depth of the tree that the steps make.
    pub(crate) fn measures(&mut self, parts: &[&[Step]]) -> Result<(u64, u64), Fault> {
        let id = self.make(parts)?;
        Ok((self.table.size(id), self.table.depth(id)))
    }

    /// The sides of the equation that the steps make, if it is one.
    pub(crate) fn sides(&mut self, parts: &[&[Step]]) -> Result<Option<(TermId, TermId)>, Fault> {
        let id = self.make_term(parts)?;
        Ok(self.table.dest_eq(id))
    }

    /// Whether the steps make an abstraction applied to an argument.
    pub(crate) fn is_redex(&mut self, parts: &[&[Step]]) -> Result<bool, Fault> {
        let id = self.make_term(parts)?;
        Ok(self.table.is_redex(id))
    }

    /// Whether the free variables of the tree that the steps make are these in this order.
    pub(crate) fn has_variables(
        &mut self,
        parts: &[&[Step]],
        wanted: &[&[Step]],
    ) -> Result<bool, Fault> {
        let id = self.make(parts)?;
        let variables = self.table.free_vars(id)?;
        let right = self.are_variables(&variables, wanted);
        drop(variables);
        right
    }

    fn are_variables(&mut self, variables: &[Variable], wanted: &[&[Step]]) -> Result<bool, Fault> {
        if variables.len() != wanted.len() {
            return Ok(false);
        }
        for (variable, steps) in variables.iter().zip(wanted) {
            if !self.is_variable(variable, steps)? {
                return Ok(false);
            }
        }
        Ok(true)
    }

    fn is_variable(&mut self, variable: &Variable, steps: &[Step]) -> Result<bool, Fault> {
        self.obey(steps)?;
        let id = self.take_tree()?;
        let wanted = self.variable(id)?;
        let right = wanted == *variable;
        drop(wanted);
        Ok(right)
    }

    /// Whether the type variables of the tree that the steps make are these in this order.
    pub(crate) fn has_type_variables(
        &mut self,
        parts: &[&[Step]],
        letters: &[u8],
    ) -> Result<bool, Fault> {
        let id = self.make(parts)?;
        let names = self.table.type_vars(id)?;
        let right = are_letters(&names, letters);
        drop(names);
        Ok(right)
    }
}

// Whether the names are these letters.
fn are_letters(names: &[Name], letters: &[u8]) -> bool {
    names.len() == letters.len()
        && names
            .iter()
            .zip(letters)
            .all(|(name, letter)| name.is_single(&[*letter]))
}
