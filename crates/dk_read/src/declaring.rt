//! The ends of a declaration and of its type.
ghost use Rattle.std.specs.Prelude.{◌≡◌, ◌<◌, [], length, Some, OnOk};
ghost use Rattle.lp_spec.specs.ModuleOrder.{MayFollow};
ghost use Rattle.lp_spec.specs.ReadingFaults as reading;
ghost use Rattle.dk_laws.specs.ReadingOrder.{IsState};
ghost use Rattle.lp_term.specs.Tables.{Keeps};
ghost use Rattle.holide_sig.specs.Modules.{declaration_in, IsKnown};
ghost use Rattle.dk_read.specs.declared.terms.State.TheVariants as state;
ghost use Rattle.dk_read.specs.Names.{name_at};
ghost use Rattle.dk_read.specs.States.{tree_of, whole_of, goes_after, state_in, head_of, declared, IsSound, IsReady, Becomes, before};

use crate::faults::Stop;
use crate::parser::Parser;
use crate::terms::{Head, Meaning, State};
use holide_sig::{Decl, Form, SIGNATURE};
use lp_term::LpId;

const MAX_DEPTH: u64 = 262_144;

impl Parser {
    // A declaration whose last tree has been read.
    fn push(&mut self, name: usize, decl: Decl, tree: LpId, place: u64) -> Result<(), Stop>
        requires sound { IsSound self.old }
        requires closed { self.old.frames.items ≡ [] }
        requires name { (name < length self.old.names) × (decl.name ≡ name_at self.old.names name) }
        requires known { IsKnown self.old.module.table decl }
        requires tree { tree.0 < length self.old.module.table }
        requires follows { MayFollow (declared self.old) (declaration_in self.old.module.table decl) }
        ensures becomes { Becomes (reading.unless_deep (tree_of self.old tree) place (goes_after self.old decl)) self.new result }
        ensures ready { OnOk result (IsReady self.new) }
        ensures keeps { OnOk result (Keeps self.old.module.table self.new.module.table) }
    {
        if self.module.table.depth(tree) > MAX_DEPTH {
            return Err(Stop::TooDeep(place));
        }
        let symbol = SIGNATURE + self.module.decls.len();
        self.module.push(decl)?;
        self.names.put(name, Meaning::Symbol(symbol));
        self.atoms.make_place()?;
        self.state = State::Between;
        Ok(())
    }

    /// A declaration that ends.
    pub(crate) fn declare(&mut self, body: LpId, place: u64) -> Result<(), Stop>
        requires sound { IsSound self.old }
        requires body { body.0 < length self.old.module.table }
        requires ordered { IsState (before self.old) (state_in self.old (state.InApplication (Some body))) }
        ensures becomes { Becomes (reading.declares (before self.old) (head_of self.old) (whole_of self.old body) place) self.new result }
        ensures ready { OnOk result (IsReady self.new) }
        ensures keeps { OnOk result (Keeps self.old.module.table self.new.module.table) }
    {
        let Some(tree) = self.whole(body)? else {
            return Err(Stop::BadText(place));
        };
        match self.head {
            Head::TypeOf(form, number) => match form {
                Form::Symbol => {
                    let name = self.ident(number)?;
                    let decl = Decl {
                        name,
                        form: Form::Symbol,
                        ty: tree,
                        body: None,
                    };
                    self.push(number, decl, tree, place)
                }
                Form::Def | Form::Thm => Err(Stop::BadText(place)),
            },
            Head::BodyOf(form, number, ty) => {
                let name = self.ident(number)?;
                let decl = Decl {
                    name,
                    form,
                    ty,
                    body: Some(tree),
                };
                self.push(number, decl, tree, place)
            }
        }
    }

    /// A type that ends, after which a body comes.
    pub(crate) fn assign(&mut self, body: LpId, place: u64) -> Result<(), Stop>
        requires sound { IsSound self.old }
        requires body { body.0 < length self.old.module.table }
        ensures becomes { Becomes (reading.assigns (before self.old) (head_of self.old) (whole_of self.old body) place) self.new result }
        ensures ready { OnOk result (IsReady self.new) }
        ensures keeps { OnOk result (Keeps self.old.module.table self.new.module.table) }
    {
        let Some(tree) = self.whole(body)? else {
            return Err(Stop::BadText(place));
        };
        match self.head {
            Head::TypeOf(Form::Symbol, _) | Head::BodyOf(_, _, _) => Err(Stop::BadText(place)),
            Head::TypeOf(form, name) => {
                if self.module.table.depth(tree) > MAX_DEPTH {
                    Err(Stop::TooDeep(place))
                } else {
                    self.head = Head::BodyOf(form, name, tree);
                    self.state = State::AtTerm;
                    Ok(())
                }
            }
        }
    }
}
