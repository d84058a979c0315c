//! What a command takes from the stack.
ghost use Rattle.std.specs.Prelude.{◌≡◌};
ghost use Rattle.hol_term.specs.Tables.{term_at, type_at};
ghost use Rattle.article_spec.specs.Operands.{any_object, as_constant, as_list, as_name, as_number, as_term, as_theorem, as_type, as_type_operator, as_variable};
ghost use Rattle.stack_machine.specs.Reading.{Operand, Reads};
ghost use Rattle.stack_machine.specs.Stored.{Stored, IsKnown, IsListKnown, IsName, IsStep, IsTerm, IsType, list_view, name_at, object_view};

use crate::object::{List, NameId, Object};
use crate::stack::Stack;
use common::{Fault, Kind};
use hol_rules::StepId;
use hol_term::TermId;
use hol_type::TypeId;

/// The object at a depth of the stack.
pub(crate) fn object_on(stack: &Stack, depth: usize) -> Result<Object, Fault>
    ensures { (m : Stored) → Operand m any_object (object_view m) (IsKnown m) stack.now depth result }
{
    match stack.at(depth) {
        Some(object) => Ok(object),
        None => Err(Fault::Refused(Kind::StackShort)),
    }
}

/// The object as a number.
pub(crate) fn number_in(object: Object) -> Result<i64, Fault>
    ensures { (m : Stored) → Reads m as_number (λ z. z) (λ z. Unit {0}) object result }
{
    match object {
        Object::Number(number) => Ok(number),
        _ => Err(Fault::Refused(Kind::WrongKind)),
    }
}

/// The object as a name.
pub(crate) fn name_in(object: Object) -> Result<NameId, Fault>
    ensures { (m : Stored) → Reads m as_name (λ n. name_at m n.0) (λ n. IsName m n.0) object result }
{
    match object {
        Object::Name(name) => Ok(name),
        _ => Err(Fault::Refused(Kind::WrongKind)),
    }
}

/// The object as a list.
pub(crate) fn list_in(object: Object) -> Result<List, Fault>
    ensures { (m : Stored) → Reads m as_list (list_view m) (IsListKnown m) object result }
{
    match object {
        Object::List(list) => Ok(list),
        _ => Err(Fault::Refused(Kind::WrongKind)),
    }
}

/// The object as a type operator.
pub(crate) fn type_operator_in(object: Object) -> Result<NameId, Fault>
    ensures { (m : Stored) → Reads m as_type_operator (λ n. name_at m n.0) (λ n. IsName m n.0) object result }
{
    match object {
        Object::TypeOperator(name) => Ok(name),
        _ => Err(Fault::Refused(Kind::WrongKind)),
    }
}

/// The object as a type.
pub(crate) fn type_in(object: Object) -> Result<TypeId, Fault>
    ensures { (m : Stored) → Reads m as_type (λ ty. type_at m.trees ty.0) (λ ty. IsType m ty.0) object result }
{
    match object {
        Object::Type(ty) => Ok(ty),
        _ => Err(Fault::Refused(Kind::WrongKind)),
    }
}

/// The object as a constant.
pub(crate) fn constant_in(object: Object) -> Result<NameId, Fault>
    ensures { (m : Stored) → Reads m as_constant (λ n. name_at m n.0) (λ n. IsName m n.0) object result }
{
    match object {
        Object::Constant(name) => Ok(name),
        _ => Err(Fault::Refused(Kind::WrongKind)),
    }
}

/// The object as a variable.
pub(crate) fn variable_in(object: Object) -> Result<(NameId, TypeId), Fault>
    ensures { (m : Stored) → Reads m as_variable (λ v. (name_at m v.0.0, type_at m.trees v.1.0)) (λ v. IsName m v.0.0 × IsType m v.1.0) object result }
{
    match object {
        Object::Variable(name, ty) => Ok((name, ty)),
        _ => Err(Fault::Refused(Kind::WrongKind)),
    }
}

/// The object as a term.
pub(crate) fn term_in(object: Object) -> Result<TermId, Fault>
    ensures { (m : Stored) → Reads m as_term (λ t. term_at m.trees t.0) (λ t. IsTerm m t.0) object result }
{
    match object {
        Object::Term(term) => Ok(term),
        _ => Err(Fault::Refused(Kind::WrongKind)),
    }
}

/// The object as a theorem.
pub(crate) fn theorem_in(object: Object) -> Result<StepId, Fault>
    ensures { (m : Stored) → Reads m as_theorem (λ i. i) (λ i. IsStep m i) object result }
{
    match object {
        Object::Theorem(step) => Ok(step),
        _ => Err(Fault::Refused(Kind::WrongKind)),
    }
}

/// The number at a depth of the stack.
pub(crate) fn number_on(stack: &Stack, depth: usize) -> Result<i64, Fault>
    ensures { (m : Stored) → Operand m as_number (λ z. z) (λ z. Unit {0}) stack.now depth result }
{
    match stack.at(depth) {
        Some(object) => number_in(object),
        None => Err(Fault::Refused(Kind::StackShort)),
    }
}

/// The name at a depth of the stack.
pub(crate) fn name_on(stack: &Stack, depth: usize) -> Result<NameId, Fault>
    ensures { (m : Stored) → Operand m as_name (λ n. name_at m n.0) (λ n. IsName m n.0) stack.now depth result }
{
    match stack.at(depth) {
        Some(object) => name_in(object),
        None => Err(Fault::Refused(Kind::StackShort)),
    }
}

/// The list at a depth of the stack.
pub(crate) fn list_on(stack: &Stack, depth: usize) -> Result<List, Fault>
    ensures { (m : Stored) → Operand m as_list (list_view m) (IsListKnown m) stack.now depth result }
{
    match stack.at(depth) {
        Some(object) => list_in(object),
        None => Err(Fault::Refused(Kind::StackShort)),
    }
}

/// The type operator at a depth of the stack.
pub(crate) fn type_operator_on(stack: &Stack, depth: usize) -> Result<NameId, Fault>
    ensures { (m : Stored) → Operand m as_type_operator (λ n. name_at m n.0) (λ n. IsName m n.0) stack.now depth result }
{
    match stack.at(depth) {
        Some(object) => type_operator_in(object),
        None => Err(Fault::Refused(Kind::StackShort)),
    }
}

/// The type at a depth of the stack.
pub(crate) fn type_on(stack: &Stack, depth: usize) -> Result<TypeId, Fault>
    ensures { (m : Stored) → Operand m as_type (λ ty. type_at m.trees ty.0) (λ ty. IsType m ty.0) stack.now depth result }
{
    match stack.at(depth) {
        Some(object) => type_in(object),
        None => Err(Fault::Refused(Kind::StackShort)),
    }
}

/// The constant at a depth of the stack.
pub(crate) fn constant_on(stack: &Stack, depth: usize) -> Result<NameId, Fault>
    ensures { (m : Stored) → Operand m as_constant (λ n. name_at m n.0) (λ n. IsName m n.0) stack.now depth result }
{
    match stack.at(depth) {
        Some(object) => constant_in(object),
        None => Err(Fault::Refused(Kind::StackShort)),
    }
}

/// The variable at a depth of the stack.
pub(crate) fn variable_on(stack: &Stack, depth: usize) -> Result<(NameId, TypeId), Fault>
    ensures { (m : Stored) → Operand m as_variable (λ v. (name_at m v.0.0, type_at m.trees v.1.0)) (λ v. IsName m v.0.0 × IsType m v.1.0) stack.now depth result }
{
    match stack.at(depth) {
        Some(object) => variable_in(object),
        None => Err(Fault::Refused(Kind::StackShort)),
    }
}

/// The term at a depth of the stack.
pub(crate) fn term_on(stack: &Stack, depth: usize) -> Result<TermId, Fault>
    ensures { (m : Stored) → Operand m as_term (λ t. term_at m.trees t.0) (λ t. IsTerm m t.0) stack.now depth result }
{
    match stack.at(depth) {
        Some(object) => term_in(object),
        None => Err(Fault::Refused(Kind::StackShort)),
    }
}

/// The theorem at a depth of the stack.
pub(crate) fn theorem_on(stack: &Stack, depth: usize) -> Result<StepId, Fault>
    ensures { (m : Stored) → Operand m as_theorem (λ i. i) (λ i. IsStep m i) stack.now depth result }
{
    match stack.at(depth) {
        Some(object) => theorem_in(object),
        None => Err(Fault::Refused(Kind::StackShort)),
    }
}
