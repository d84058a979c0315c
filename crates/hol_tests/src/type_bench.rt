//! A table of types with a stack, and the steps that make types on it.
ghost use Rattle.std.specs.Prelude.{◌≡◌, ◌<◌, length, IfOk, OnOk};

use common::{Fault, Kind, Stack};
use hol_name::Name;
use hol_type::{TypeId, TypeTable, TypeView};
use std::alloc::Global;

/// A step of making a type. It takes its parts from the stack, the last from the top, and puts there what it makes.
#[derive(Clone, Copy)]
pub(crate) enum Step {
    /// The type variable of this letter.
    Variable(u8),
    /// The type of truth values.
    Bool,
    /// The operator `list` over a type.
    List,
    /// The type of functions from one type to another.
    Function,
    /// So many times `list` over a type.
    Lists(u32),
    /// So many times the type of functions from a type to itself.
    Doubled(u32),
    /// The second type with the first one for the variable A.
    Put,
    /// The type with A and B each put for the other, and a later pair for A.
    Swap,
    /// The first type with the types for its variables that make it the second.
    Match,
}

/// A table, and the types that were made and not taken yet.
#[derive(Drop)]
pub(crate) struct Bench {
    pub(crate) table: TypeTable,
    stack: Stack<TypeId>,
    alloc: Global,
}

impl Bench {
    pub(crate) fn new(alloc: Global) -> Self {
        Bench {
            table: TypeTable::new(alloc),
            stack: Stack::new(alloc),
            alloc,
        }
    }

    /// The type that the steps make.
    pub(crate) fn make(&mut self, steps: &[Step]) -> Result<TypeId, Fault>
        ensures { IfOk result (λ id. id.0 < length self.new.table) }
    {
        for step in steps {
            self.obey(*step)?;
        }
        self.take()
    }

    /// Makes what the steps make, and leaves it on the stack.
    pub(crate) fn set_out(&mut self, steps: &[Step]) -> Result<(), Fault> {
        for step in steps {
            self.obey(*step)?;
        }
        Ok(())
    }

    /// Makes what a step makes.
    pub(crate) fn obey(&mut self, step: Step) -> Result<(), Fault> {
        let made = match step {
            Step::Variable(letter) => self.variable(letter)?,
            Step::Bool => self.table.bool()?,
            Step::List => self.list()?,
            Step::Function => self.function()?,
            Step::Lists(times) => self.lists(times)?,
            Step::Doubled(times) => self.doubled(times)?,
            Step::Put => self.put()?,
            Step::Swap => self.swap()?,
            Step::Match => self.matched()?,
        };
        self.stack.push(made)?;
        Ok(())
    }

    fn name(&self, text: &[u8]) -> Result<Name, Fault> {
        match Name::single(self.alloc, text) {
            Ok(name) => Ok(name),
            Err(_) => Err(Fault::Memory),
        }
    }

    // The type on top of the stack.
    fn take(&mut self) -> Result<TypeId, Fault>
        ensures known { IfOk result (λ id. id.0 < length self.new.table) }
        ensures table { self.new.table ≡ self.old.table }
    {
        match self.stack.pop() {
            Some(id) => {
                if id.0 < self.table.count() {
                    Ok(id)
                } else {
                    Err(Fault::Refused(Kind::StackShort))
                }
            }
            None => Err(Fault::Refused(Kind::StackShort)),
        }
    }

    // The two types on top of the stack, the top one last.
    fn take_two(&mut self) -> Result<(TypeId, TypeId), Fault>
        ensures first { IfOk result (λ ids. ids.0.0 < length self.new.table) }
        ensures second { IfOk result (λ ids. ids.1.0 < length self.new.table) }
    {
        let second = self.take()?;
        let first = self.take()?;
        Ok((first, second))
    }

    fn variable(&mut self, letter: u8) -> Result<TypeId, Fault> {
        let name = self.name(&[letter])?;
        self.table.var(&name)
    }

    fn list(&mut self) -> Result<TypeId, Fault> {
        let element = self.take()?;
        self.list_of(element)
    }

    fn list_of(&mut self, element: TypeId) -> Result<TypeId, Fault> {
        let name = self.name(b"list")?;
        if element.0 < self.table.count() {
            self.table.op(&name, &[element])
        } else {
            Err(Fault::Refused(Kind::StackShort))
        }
    }

    fn function(&mut self) -> Result<TypeId, Fault> {
        let (domain, codomain) = self.take_two()?;
        let made = self.table.function(domain, codomain)?;
        Ok(made)
    }

    fn endo(&mut self, id: TypeId) -> Result<TypeId, Fault> {
        if id.0 < self.table.count() {
            let made = self.table.function(id, id)?;
            Ok(made)
        } else {
            Err(Fault::Refused(Kind::StackShort))
        }
    }

    fn lists(&mut self, times: u32) -> Result<TypeId, Fault> {
        let mut id = self.take()?;
        for _ in 0..times {
            id = self.list_of(id)?;
        }
        Ok(id)
    }

    fn doubled(&mut self, times: u32) -> Result<TypeId, Fault> {
        let mut id = self.take()?;
        for _ in 0..times {
            id = self.endo(id)?;
        }
        Ok(id)
    }

    fn put(&mut self) -> Result<TypeId, Fault> {
        let (by, id) = self.take_two()?;
        let pairs = [(self.name(b"A")?, by)];
        let made = self.table.subst(&pairs, id);
        drop(pairs);
        made
    }

    fn swap(&mut self) -> Result<TypeId, Fault> {
        let a = self.variable(b'A')?;
        let b = self.variable(b'B')?;
        let id = self.take()?;
        self.swapped(a, b, id)
    }

    // The type with two variables replaced at once, the first by what another pair gives for it too.
    fn swapped(&mut self, a: TypeId, b: TypeId, id: TypeId) -> Result<TypeId, Fault> {
        let first = self.name(b"A")?;
        let second = self.name(b"B")?;
        let again = self.name(b"A")?;
        let count = self.table.count();
        if a.0 < count && b.0 < count && id.0 < count {
            self.table
                .subst(&[(first, b), (second, a), (again, id)], id)
        } else {
            Err(Fault::Refused(Kind::StackShort))
        }
    }

    fn matched(&mut self) -> Result<TypeId, Fault> {
        let (general, instance) = self.take_two()?;
        match self.table.match_to(general, instance)? {
            Some(map) => {
                let made = self.table.raw_subst(map.pairs(), general);
                drop(map);
                Ok(made?)
            }
            None => Err(Fault::Refused(Kind::NotAlike)),
        }
    }

    /// The size and the depth of the type that the steps make.
    pub(crate) fn measures(&mut self, steps: &[Step]) -> Result<(u64, u64), Fault> {
        let id = self.make(steps)?;
        Ok((self.table.size(id), self.table.depth(id)))
    }

    /// Whether the type that the steps make has the variables of these letters in this order.
    pub(crate) fn has_variables(&mut self, steps: &[Step], letters: &[u8]) -> Result<bool, Fault> {
        let id = self.make(steps)?;
        let names = self.table.vars(id)?;
        let right = are_letters(&names, letters);
        drop(names);
        Ok(right)
    }

    /// The argument's and the result's type of the type that the steps make, as its head and as its parts show them.
    pub(crate) fn sides(&mut self, steps: &[Step]) -> Result<Option<(TypeId, TypeId)>, Fault> {
        let id = self.make(steps)?;
        let sides = self.table.function_parts(id);
        match self.table.view(id) {
            TypeView::Op(name, [domain, codomain]) if name.is_single(b"->") => {
                if sides == Some((*domain, *codomain)) {
                    Ok(sides)
                } else {
                    Err(Fault::Refused(Kind::NotAlike))
                }
            }
            TypeView::Op(..) | TypeView::Var(_) => Ok(sides),
        }
    }
}

// Whether the names are these letters.
fn are_letters(names: &[Name], letters: &[u8]) -> bool {
    names.len() == letters.len()
        && names
            .iter()
            .zip(letters)
            .all(|(name, letter)| name.is_single(&[*letter]))
}
