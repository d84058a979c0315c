//! The words that define constants and type operators: each takes what its definition is given from the stack, and puts there
//! what it made, its theorems on top. The theorems of a type operator are stated by the version of the article.
ghost use Rattle.article_spec.specs.declared.commands.Word.TheVariants as word;
ghost use Rattle.article_spec.specs.Operands.{as_constant_pairs, as_names};
ghost use Rattle.hol_defs.specs.Lists.{pairs_at as constant_pairs_at, ArePairsKnown as AreConstantPairsKnown};
ghost use Rattle.stack_machine.specs.Obeying.{Obeys, ObeysIn};
ghost use Rattle.stack_machine.specs.Reading.{Operand};
ghost use Rattle.stack_machine.specs.Stored.{AreKnown};

use crate::defining::TypeNames;
use crate::object::Object;
use crate::operands::{list_on, name_on, term_on, theorem_on};
use crate::stack::Stack;
use crate::store::Store;
use common::Fault;
use hol_name::Name;
use hol_spec::Version;
use hol_term::Variable;
use std::alloc::Global;

/// The list of names at a depth of the stack.
fn names_on(alloc: Global, store: &Store, stack: &Stack, depth: usize) -> Result<Vec<Name>, Fault>
    requires { AreKnown store.now stack.now }
    ensures { Operand store.now as_names (λ names. names.items) (λ names. Unit {0}) stack.now depth result }
{
    let list = list_on(stack, depth)?;
    store.names_in(alloc, list)
}

/// The list of constants with their variables at a depth of the stack.
fn constant_pairs_on(
    alloc: Global,
    store: &Store,
    stack: &Stack,
    depth: usize,
) -> Result<Vec<(Name, Variable)>, Fault>
    requires { AreKnown store.now stack.now }
    ensures { Operand store.now as_constant_pairs (λ pairs. constant_pairs_at store.now.trees pairs.items)
        (λ pairs. AreConstantPairsKnown store.now.trees pairs.items) stack.now depth result }
{
    let list = list_on(stack, depth)?;
    store.constant_pairs_in(alloc, list)
}

/// A constant by the term that it stands for.
pub(crate) fn define_const(store: &mut Store, stack: &mut Stack) -> Result<(), Fault>
    requires { AreKnown store.old stack.old }
    ensures { Obeys word.DefineConst store.old stack.old store.new stack.new result }
{
    let term = term_on(stack, 0)?;
    let name = name_on(stack, 1)?;
    let step = store.define_const(name, term)?;
    stack.put_two(2, Object::Constant(name), Object::Theorem(step));
    Ok(())
}

/// A list of constants by the hypotheses of a theorem.
pub(crate) fn define_const_list(
    alloc: Global,
    store: &mut Store,
    stack: &mut Stack,
) -> Result<(), Fault>
    requires { AreKnown store.old stack.old }
    ensures { Obeys word.DefineConstList store.old stack.old store.new stack.new result }
{
    let one = theorem_on(stack, 0)?;
    let pairs = constant_pairs_on(alloc, store, stack, 1)?;
    let constants = store.constants_of(&pairs)?;
    let step = store.define_const_list(&pairs, one)?;
    stack.put_two(2, Object::List(constants), Object::Theorem(step));
    Ok(())
}

/// A type operator by the predicate and the witness of a theorem.
pub(crate) fn define_type_op(
    alloc: Global,
    store: &mut Store,
    stack: &mut Stack,
    version: Version,
) -> Result<(), Fault>
    requires { AreKnown store.old stack.old }
    ensures { ObeysIn version word.DefineTypeOp store.old stack.old store.new stack.new result }
{
    let one = theorem_on(stack, 0)?;
    let names = names_on(alloc, store, stack, 1)?;
    let rep = name_on(stack, 2)?;
    let abs = name_on(stack, 3)?;
    let op = name_on(stack, 4)?;
    let ids = TypeNames { op, abs, rep };
    let (first, second) = store.define_type_op(ids, &names, one, version)?;
    stack.put_five(
        Object::TypeOperator(op),
        Object::Constant(abs),
        Object::Constant(rep),
        Object::Theorem(first),
        Object::Theorem(second),
    );
    Ok(())
}
