//! Which item gives a constant or an operator.
ghost use Rattle.std.specs.Prelude.{◌≡◌, None, Some, IfOk, OnOk, if◌then◌else◌};
ghost use Rattle.translate_spec.specs.Reach.{Key, constant_key, operator_key, key_eq};
ghost use Rattle.translate_reach.specs.Indexes.{found};

use common::Memory;
use hol_name::Name;
use std::alloc::Global;
use std::collections::BTreeMap;

/// The items of constants, by name, and those of operators, by name and number of arguments.
#[derive(Drop)]
pub(crate) struct Index {
    constants: BTreeMap<Name, usize>,
    operators: BTreeMap<(Name, usize), usize>,
}

impl Index {
    pub(crate) fn new(alloc: Global) -> Index
        ensures empty { (q : Key) → found result q ≡ None }
    {
        Index {
            constants: BTreeMap::new(alloc),
            operators: BTreeMap::new(alloc),
        }
    }

    // The item that gives a constant.
    pub(crate) fn constant(&self, name: &Name) -> Option<usize>
        ensures { result ≡ found self.now (constant_key name.now) }
    {
        self.constants.get(name).copied()
    }

    // The item that gives an operator with so many arguments.
    pub(crate) fn operator(&self, name: &Name, arity: usize) -> Result<Option<usize>, Memory>
        ensures { IfOk result (λ item. item ≡ found self.now (operator_key name.now arity)) }
    {
        let operator = (name.clone()?, arity);
        Ok(self.operators.get(&operator).copied())
    }

    // Notes the item that gives a constant.
    pub(crate) fn add_constant(&mut self, name: &Name, item: usize) -> Result<(), Memory>
        ensures { OnOk result ((q : Key) → found self.new q ≡ (if key_eq (constant_key name.now) q then Some item else found self.old q)) }
    {
        self.constants.insert(name.clone()?, item)?;
        Ok(())
    }

    // Notes the item that gives an operator.
    pub(crate) fn add_operator(
        &mut self,
        name: &Name,
        arity: usize,
        item: usize,
    ) -> Result<(), Memory>
        ensures { OnOk result ((q : Key) → found self.new q ≡ (if key_eq (operator_key name.now arity) q then Some item else found self.old q)) }
    {
        self.operators.insert((name.clone()?, arity), item)?;
        Ok(())
    }
}
