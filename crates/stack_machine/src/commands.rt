//! The words that work on the stack alone.
ghost use Rattle.std.specs.Prelude.{◌≡◌};
ghost use Rattle.article_spec.specs.declared.commands.Word.TheVariants as word;
ghost use Rattle.article_spec.specs.Operands.{as_types};
ghost use Rattle.hol_type.specs.Tables.{AreKnown as AreTypes, types_at};
ghost use Rattle.stack_machine.specs.Obeying.{Obeys};
ghost use Rattle.stack_machine.specs.Reading.{Operand};
ghost use Rattle.stack_machine.specs.Stored.{AreKnown};

use crate::object::{List, Object};
use crate::operands::{
    constant_on, list_on, name_on, object_on, term_on, type_on, type_operator_on, variable_on,
};
use crate::stack::Stack;
use crate::store::Store;
use common::{Fault, Kind};
use hol_type::TypeId;
use std::alloc::Global;

/// The list of types at a depth of the stack.
fn types_on(alloc: Global, store: &Store, stack: &Stack, depth: usize) -> Result<Vec<TypeId>, Fault>
    requires { AreKnown store.now stack.now }
    ensures { Operand store.now as_types (λ ids. types_at store.now.trees.types ids.items)
        (λ ids. AreTypes store.now.trees.types ids.items) stack.now depth result }
{
    let list = list_on(stack, depth)?;
    store.types_in(alloc, list)
}

/// The empty list.
pub(crate) fn nil(store: &Store, stack: &mut Stack) -> Result<(), Fault>
    requires { AreKnown store.now stack.old }
    ensures { Obeys word.Nil store.now stack.old store.now stack.new result }
{
    stack.push(Object::List(List::Empty))?;
    Ok(())
}

/// The list of an object and a list.
pub(crate) fn cons(store: &mut Store, stack: &mut Stack) -> Result<(), Fault>
    requires { AreKnown store.old stack.old }
    ensures { Obeys word.Cons store.old stack.old store.new stack.new result }
{
    let tail = list_on(stack, 0)?;
    let head = object_on(stack, 1)?;
    let list = store.cons(head, tail)?;
    stack.put(2, Object::List(list));
    Ok(())
}

/// The first element of a list, and on it the rest.
pub(crate) fn head_and_tail(store: &Store, stack: &mut Stack) -> Result<(), Fault>
    requires { AreKnown store.now stack.old }
    ensures { Obeys word.HdTl store.now stack.old store.now stack.new result }
{
    let list = list_on(stack, 0)?;
    let List::Cell(id) = list else {
        return Err(Fault::Refused(Kind::EmptyList));
    };
    let cell = store.cell(id);
    stack.push(Object::List(cell.tail))?;
    stack.set(1, cell.head);
    Ok(())
}

/// The type operator of a name.
pub(crate) fn type_operator(store: &Store, stack: &mut Stack) -> Result<(), Fault>
    requires { AreKnown store.now stack.old }
    ensures { Obeys word.TypeOp store.now stack.old store.now stack.new result }
{
    let name = name_on(stack, 0)?;
    stack.put(1, Object::TypeOperator(name));
    Ok(())
}

/// The type variable of a name.
pub(crate) fn type_variable(store: &mut Store, stack: &mut Stack) -> Result<(), Fault>
    requires { AreKnown store.old stack.old }
    ensures { Obeys word.VarType store.old stack.old store.new stack.new result }
{
    let name = name_on(stack, 0)?;
    let ty = store.type_variable(name)?;
    stack.put(1, Object::Type(ty));
    Ok(())
}

/// The type of an operator and a list of types.
pub(crate) fn operator_type(
    alloc: Global,
    store: &mut Store,
    stack: &mut Stack,
) -> Result<(), Fault>
    requires { AreKnown store.old stack.old }
    ensures { Obeys word.OpType store.old stack.old store.new stack.new result }
{
    let args = types_on(alloc, store, stack, 0)?;
    let name = type_operator_on(stack, 1)?;
    let ty = store.operator_type(name, &args)?;
    stack.put(2, Object::Type(ty));
    Ok(())
}

/// The constant of a name.
pub(crate) fn constant(store: &Store, stack: &mut Stack) -> Result<(), Fault>
    requires { AreKnown store.now stack.old }
    ensures { Obeys word.Const store.now stack.old store.now stack.new result }
{
    let name = name_on(stack, 0)?;
    stack.put(1, Object::Constant(name));
    Ok(())
}

/// The term of a constant at a type.
pub(crate) fn constant_term(store: &mut Store, stack: &mut Stack) -> Result<(), Fault>
    requires { AreKnown store.old stack.old }
    ensures { Obeys word.ConstTerm store.old stack.old store.new stack.new result }
{
    let ty = type_on(stack, 0)?;
    let name = constant_on(stack, 1)?;
    let term = store.constant_term(name, ty)?;
    stack.put(2, Object::Term(term));
    Ok(())
}

/// The variable of a name and a type.
pub(crate) fn variable(store: &Store, stack: &mut Stack) -> Result<(), Fault>
    requires { AreKnown store.now stack.old }
    ensures { Obeys word.Var store.now stack.old store.now stack.new result }
{
    let ty = type_on(stack, 0)?;
    let name = name_on(stack, 1)?;
    stack.put(2, Object::Variable(name, ty));
    Ok(())
}

/// The term of a variable.
pub(crate) fn variable_term(store: &mut Store, stack: &mut Stack) -> Result<(), Fault>
    requires { AreKnown store.old stack.old }
    ensures { Obeys word.VarTerm store.old stack.old store.new stack.new result }
{
    let (name, ty) = variable_on(stack, 0)?;
    let term = store.free_variable(name, ty)?;
    stack.put(1, Object::Term(term));
    Ok(())
}

/// The application of a term to a term.
pub(crate) fn application_term(store: &mut Store, stack: &mut Stack) -> Result<(), Fault>
    requires { AreKnown store.old stack.old }
    ensures { Obeys word.AppTerm store.old stack.old store.new stack.new result }
{
    let argument = term_on(stack, 0)?;
    let function = term_on(stack, 1)?;
    let term = store.application(function, argument)?;
    stack.put(2, Object::Term(term));
    Ok(())
}

/// The abstraction of a term over a variable.
pub(crate) fn abstraction_term(store: &mut Store, stack: &mut Stack) -> Result<(), Fault>
    requires { AreKnown store.old stack.old }
    ensures { Obeys word.AbsTerm store.old stack.old store.new stack.new result }
{
    let body = term_on(stack, 0)?;
    let (name, ty) = variable_on(stack, 1)?;
    let term = store.abstraction(name, ty, body)?;
    stack.put(2, Object::Term(term));
    Ok(())
}

/// Takes an object off.
pub(crate) fn drop_object(store: &Store, stack: &mut Stack) -> Result<(), Fault>
    requires { AreKnown store.now stack.old }
    ensures { Obeys word.Pop store.now stack.old store.now stack.new result }
{
    let _object = object_on(stack, 0)?;
    stack.drop_top(1);
    Ok(())
}
