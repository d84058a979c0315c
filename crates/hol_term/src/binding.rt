//! A table of terms as a table of trees with numbers for bound variables.
ghost use Rattle.std.specs.Prelude.{◌≡◌, ◌<◌, length, IfOk, IfErr, OnErr};
ghost use Rattle.hol_spec.specs.Limits.{TermWithin};
ghost use Rattle.hol_spec.specs.TermBinding.{lift as lift_tree, put as put_tree, put_at, put_all as put_all_trees};
ghost use Rattle.hol_laws.specs.TermBindingLaws as laws;
ghost use Rattle.hol_spec.specs.Terms.{Term};
ghost use Rattle.hol_term.specs.BindingLaws.{put_list_puts as puts_law, one_tree as one_tree_law};
ghost use Rattle.hol_term.specs.Refusals.{RefusesTerm};
ghost use Rattle.hol_term.specs.Tables.{term_at, terms_at, AreKnown, Holds, IsDistinct, Keeps};

use crate::memo::Change;
use crate::{TermId, TermTable};
use common::{Binding, Fault};

impl TermTable {
    /// The tree with its loose numbers raised by `k`. A number that does not fit its type is want of memory.
    pub fn lift(&mut self, k: u128, id: TermId) -> Result<TermId, Fault>
        requires { id.0 < length self.old.terms }
        ensures known { IfOk result (λ r. r.0 < length self.new.terms) }
        ensures made { IfOk result (λ r. Holds self.new r.0 (lift_tree k (term_at self.old id.0))) }
        ensures within { IfOk result (λ r. TermWithin (lift_tree k (term_at self.old id.0))) }
        ensures keeps { Keeps self.old self.new }
        ensures distinct { IsDistinct self.new.terms }
        ensures refusal { IfErr result (λ fault. RefusesTerm fault (lift_tree k (term_at self.old id.0))) }
        ensures unchanged { OnErr result (self.new ≡ self.old) }
    {
        let mark = self.mark();
        let made = self.changed(&[], Change::Raise(k), id);
        self.settle(mark, made)
    }

    /// The body of as many binders as there are arguments, with each argument put for its variable. They stand in the
    /// order of an application: the last is put for the innermost. It is refused where it passes the limit of size, and
    /// else where it passes that of depth.
    pub fn put_all(&mut self, args: &[TermId], body: TermId) -> Result<TermId, Fault>
        requires args { AreKnown self.old args.now }
        requires body { body.0 < length self.old.terms }
        ensures known { IfOk result (λ r. r.0 < length self.new.terms) }
        ensures made { IfOk result (λ r. Holds self.new r.0 (put_all_trees (terms_at self.old args.now) (term_at self.old body.0))) }
        ensures within { IfOk result (λ r. TermWithin (put_all_trees (terms_at self.old args.now) (term_at self.old body.0))) }
        ensures keeps { Keeps self.old self.new }
        ensures distinct { IsDistinct self.new.terms }
        ensures refusal { IfErr result (λ fault. RefusesTerm fault (put_all_trees (terms_at self.old args.now) (term_at self.old body.0))) }
        ensures unchanged { OnErr result (self.new ≡ self.old) }
    {
        let mark = self.mark();
        let made = self.changed(args, Change::Replace, body);
        self.settle(mark, made)
    }

    /// The body of a binder with `arg` put for its variable: the greater loose numbers are lowered. It is refused where
    /// it passes the limit of size, and else where it passes that of depth.
    pub fn put(&mut self, arg: TermId, body: TermId) -> Result<TermId, Fault>
        requires arg { arg.0 < length self.old.terms }
        requires body { body.0 < length self.old.terms }
        ensures known { IfOk result (λ r. r.0 < length self.new.terms) }
        ensures made { IfOk result (λ r. Holds self.new r.0 (put_tree (term_at self.old arg.0) (term_at self.old body.0))) }
        ensures within { IfOk result (λ r. TermWithin (put_tree (term_at self.old arg.0) (term_at self.old body.0))) }
        ensures keeps { Keeps self.old self.new }
        ensures distinct { IsDistinct self.new.terms }
        ensures refusal { IfErr result (λ fault. RefusesTerm fault (put_tree (term_at self.old arg.0) (term_at self.old body.0))) }
        ensures unchanged { OnErr result (self.new ≡ self.old) }
    {
        let mark = self.mark();
        let made = self.raw_instance(body, arg);
        self.settle(mark, made)
    }
}

impl Binding for TermTable {
    type Id = TermId;

    type Fault = Fault;

    ghost Tree = { Term };

    ghost holds = { λ table id t. Holds table id.0 t };

    ghost lifted = { lift_tree };

    ghost put_under = { put_at };

    ghost put_list = { put_all_trees };

    fn lift(&mut self, k: u128, id: TermId) -> Result<TermId, Fault> {
        TermTable::lift(self, k, id)
    }

    fn put(&mut self, arg: TermId, body: TermId) -> Result<TermId, Fault> {
        TermTable::put(self, arg, body)
    }

    fn put_all(&mut self, args: &[TermId], body: TermId) -> Result<TermId, Fault> {
        TermTable::put_all(self, args, body)
    }

    ghost lift_twice = { laws.lift-lift };

    ghost put_into_lifted = { laws.put-lift };

    ghost put_into_put = { laws.put_at-put };

    ghost put_list_puts = { puts_law };

    ghost one_tree = { one_tree_law };
}
