//! Sequents of higher-order logic over a table of terms.
//!
//! A sequent has hypotheses and a conclusion, terms of a table by their numbers. Hypotheses are read as a set: each
//! stands once, in order of coming. The calls compare numbers alone, and their contracts speak of the trees: over any
//! table in which no tree has two numbers, they unite, remove and compare as HOL Light's kernel does with its `thm`.
//! What compares takes no memory. The parameters of a sequent come in order of first occurrence, each once; `closed`
//! gives the sequent with their numbers in their places, which needs no table.
//!
//! ```
//! let hyps = Hyps::of(alloc, &[p, q])?;
//! let rest = Sequent::without(alloc, &hyps, p)?;
//! let sequent = Sequent { hyps: rest, concl: r };
//! ```
#![tactic(auto)]

ghost use Rattle.std.specs.Prelude.{◌≡◌, ◌<◌, length, IfOk};
ghost use Rattle.hol_spec.specs.ClosedForm.{closed_form};
ghost use Rattle.hol_spec.specs.Lists.{union as united, without as all_but};
ghost use Rattle.hol_spec.specs.Sequents.{free_variables_of, type_variables_of, same as is_same, within as is_within};
ghost use Rattle.hol_spec.specs.Terms.{term_eq};
ghost use Rattle.hol_type.specs.Tables as type;
ghost use Rattle.hol_term.specs.Subterms.{HaveTypes, variables_of};
ghost use Rattle.hol_term.specs.Tables.{Trees, term_at, AreKnown, IsDistinct};
ghost use Rattle.sequent.specs.Closed.{closed_view};
ghost use Rattle.sequent.specs.Sequents.{hyps_at, same_id, sequent_at, IsKnown};

mod closed;
mod hyps;
mod ids;
mod params;

pub use closed::{Closed, ClosedTerm, ClosedType, TermNode, TypeNode};
use closed::{close_term, close_terms, close_variables};
use common::Memory;
use hol_term::{TermId, TermTable};
pub use hyps::Hyps;
pub use params::{Params, Variables};
use std::alloc::Global;

/// Hypotheses and a conclusion (HOL Light's kernel, `thm`).
#[derive(Drop)]
pub struct Sequent {
    pub hyps: Hyps,
    pub concl: TermId,
}

impl Sequent {
    /// The hypotheses `a`, followed by what is new of `b` (HOL Light's kernel, `term_union`).
    pub fn union(alloc: Global, a: &Hyps, b: &Hyps) -> Result<Hyps, Memory>
        ensures numbers { IfOk result (λ hyps. hyps ≡ united same_id a.now b.now) }
        ensures terms { IfOk result (λ hyps. (trees : Trees) → IsDistinct trees.terms → AreKnown trees a.now → AreKnown trees b.now
            → hyps_at trees hyps ≡ united term_eq (hyps_at trees a.now) (hyps_at trees b.now)) }
        ensures known { IfOk result (λ hyps. (trees : Trees) → AreKnown trees a.now → AreKnown trees b.now → AreKnown trees hyps) }
    {
        a.united(alloc, b)
    }

    /// The hypotheses `a` without `p`; the rest keeps its order (HOL Light's kernel, `term_remove`).
    pub fn without(alloc: Global, a: &Hyps, p: TermId) -> Result<Hyps, Memory>
        ensures numbers { IfOk result (λ hyps. hyps ≡ all_but same_id a.now p) }
        ensures terms { IfOk result (λ hyps. (trees : Trees) → IsDistinct trees.terms → AreKnown trees a.now → p.0 < length trees.terms
            → hyps_at trees hyps ≡ all_but term_eq (hyps_at trees a.now) (term_at trees p.0)) }
        ensures known { IfOk result (λ hyps. (trees : Trees) → AreKnown trees a.now → AreKnown trees hyps) }
    {
        a.without(alloc, p)
    }

    /// Whether the hypotheses are equal as sets and the conclusions are equal. It takes no memory.
    pub fn same(a: &Sequent, b: &Sequent) -> bool
        ensures { (trees : Trees) → IsDistinct trees.terms → IsKnown trees a.now → IsKnown trees b.now
            → result ≡ is_same (sequent_at trees a.now) (sequent_at trees b.now) }
    {
        Sequent::within(a, b) && Sequent::within(b, a)
    }

    /// Whether the hypotheses of `a` are among those of `b` and the conclusions are equal. It takes no memory.
    pub fn within(a: &Sequent, b: &Sequent) -> bool
        ensures { (trees : Trees) → IsDistinct trees.terms → IsKnown trees a.now → IsKnown trees b.now
            → result ≡ is_within (sequent_at trees a.now) (sequent_at trees b.now) }
    {
        a.hyps.are_among(&b.hyps) && a.concl == b.concl
    }

    /// The type variables and the free variables, each in order of first occurrence in the hypotheses in order, and
    /// then in the conclusion.
    pub fn params(&self, alloc: Global, table: &TermTable) -> Result<Params, Memory>
        requires { IsKnown table.now self.now }
        ensures type_vars { IfOk result (λ params. params.type_vars ≡ type_variables_of (sequent_at table.now self.now)) }
        ensures free_vars { IfOk result (λ params. variables_of table.now params.free_vars ≡ free_variables_of (sequent_at table.now self.now)) }
        ensures known { IfOk result (λ params. HaveTypes table.now params.free_vars) }
        ensures one_each { IfOk result (λ params. type.IsDistinct table.now.types) }
    {
        let mut params = Params::new(alloc);
        for id in self.hyps.ids() {
            params.visit(table, *id)?;
        }
        params.visit(table, self.concl)?;
        Ok(params)
    }

    /// The closed form. Each part of a term is copied as often as it occurs: what is closed is within the limits of a
    /// sequent where the sequent is.
    pub fn closed(&self, alloc: Global, table: &TermTable) -> Result<Closed, Memory>
        requires { IsKnown table.now self.now }
        ensures { IfOk result (λ closed. closed_view closed ≡ closed_form (sequent_at table.now self.now)) }
    {
        let params = self.params(alloc, table)?;
        let free_vars = close_variables(alloc, &params, table)?;
        let hyps = close_terms(alloc, &params, table, self.hyps.ids())?;
        let concl = close_term(alloc, &params, table, self.concl)?;
        Ok(Closed {
            type_vars: params.type_vars.names().len(),
            free_vars,
            hyps,
            concl,
        })
    }
}
