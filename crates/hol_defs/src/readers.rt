//! The call that reads a symbol.
ghost use Rattle.std.specs.Prelude.{◌≡◌, ◌<◌, Some, length, slice_get};
ghost use Rattle.hol_defs.specs.Views.{taken_of_view};

use crate::Symbols;
use crate::entry::Entry;
use hol_name::Name;
use hol_term::TermId;
use hol_type::TypeId;

/// A type operator that is defined, with its two constants.
#[derive(Clone, Copy)]
pub struct TypeOpView<'a> {
    /// The operator.
    pub op: &'a Name,
    /// The constant from the type of which it is a part.
    pub abs: &'a Name,
    /// The constant to that type.
    pub rep: &'a Name,
    /// The type variables that are its arguments, in their order.
    pub names: &'a [Name],
    /// The type of which it is a part.
    pub whole: TypeId,
    /// The predicate that holds in the part.
    pub predicate: TermId,
    /// The generic type of `abs`.
    pub abs_type: TypeId,
    /// The generic type of `rep`.
    pub rep_type: TypeId,
}

/// A symbol that is taken.
#[derive(Clone, Copy)]
pub enum SymbolView<'a> {
    /// A constant without a definition, which may be used at any type.
    InputConst(&'a Name),
    /// An operator without a definition, with so many arguments.
    InputOp(&'a Name, usize),
    /// A constant, the term that it stands for, and its generic type.
    Const(&'a Name, TermId, TypeId),
    /// A type operator with its two constants.
    TypeOp(TypeOpView<'a>),
}

impl Symbols {
    /// The symbol that was taken at this place, counted from 0.
    pub fn view(&self, place: usize) -> SymbolView<'_>
        requires { place < length self.now }
        ensures { slice_get self.now place ≡ Some (taken_of_view result) }
    {
        match &self.taken[place] {
            Entry::InputConst(name) => SymbolView::InputConst(name),
            Entry::InputOp(name, arity) => SymbolView::InputOp(name, *arity),
            Entry::Const(name, term, ty) => SymbolView::Const(name, *term, *ty),
            Entry::TypeOp(x) => SymbolView::TypeOp(TypeOpView {
                op: &x.op,
                abs: &x.abs,
                rep: &x.rep,
                names: &x.names,
                whole: x.whole,
                predicate: x.predicate,
                abs_type: x.abs_type,
                rep_type: x.rep_type,
            }),
        }
    }
}
