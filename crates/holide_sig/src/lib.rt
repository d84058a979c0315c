//! Modules of the lambda-Pi calculus as values: a table of trees and the declarations over it.
//!
//! Every module begins with the signature of higher-order logic, whose text is `PRELUDE`. Its symbols are numbered
//! from 0, the declarations after them, and the trees of its types stand at the same numbers in every module's table. `push` takes a declaration
//! whose name is new and whose trees are closed over earlier names, so a module stays one; `find` gives the symbol of a name.
//!
//! `symbols` has the numbers of the signature's symbols; `call` applies a symbol to arguments, and `apply` a tree.
//!
//! A definition called `X` and a number is short for its body: `short_body` gives that tree, and `short` the first symbol whose name is short for a
//! tree. Neither takes memory.
//!
//! ```
//! let mut module = Module::new(alloc)?;
//! let ty = module.table.node(LpNode::Sym(0))?;
//! module.push(Decl { name: Ident::new(name), form: Form::Symbol, ty, body: None })?;
//! ```
#![tactic(auto)]

mod calls;
mod decls;
mod module;
mod shorts;
mod signature;
pub mod symbols;

pub use calls::{apply, call};
pub use decls::{Decl, Decls};
pub use lp_spec::{Form, Ident};
pub use module::Module;
pub use signature::{PRELUDE, SIGNATURE};
