//! The rule of substitution.
ghost use Rattle.std.specs.Prelude.{◌≡◌, ◌<◌, length, IfOk, IfErr, OnOk};
ghost use Rattle.article_spec.specs.Results.{Fails};
ghost use Rattle.hol_spec.specs.Proofs.{sequent_at};
ghost use Rattle.hol_type.specs.Tables as type;
ghost use Rattle.hol_term.specs.Substitutions.{term_pairs_at, AreKnownPairs, ArePairsFitting, AreTermPairs};
ghost use Rattle.hol_term.specs.Substitutions as tree;
ghost use Rattle.hol_term.specs.Tables.{term_at, terms_at, AreKnown, Holds, IsDistinct, Keeps};
ghost use Rattle.sequent.specs.Sequents as numbers;
ghost use Rattle.hol_rules.specs.Chains.{chain, AreLinks};
ghost use Rattle.hol_rules.specs.Conclusions.{Concludes};
ghost use Rattle.hol_rules.specs.Kept.{step_count, Grows};
ghost use Rattle.hol_rules.specs.Premises.{IsNumberOf, IsStated};
ghost use Rattle.article_spec.specs.RuleSteps.{pairs_fit, subst_step, substituted};

use crate::functions::own_variable;
use crate::made::{Parameters, Put, StepId, Substitution};
use crate::proof::Proof;
use common::{Fault, Kind, Memory};
use hol_name::Name;
use hol_spec::StepKind;
use hol_term::{TermId, TermTable, TermView, Variable};
use hol_type::TypeId;
use sequent::Sequent;
use std::alloc::Global;

/// Terms that stood in one tree, and what is left of it.
#[derive(Drop)]
pub(crate) struct Links {
    pub(crate) terms: Vec<TermId>,
    pub(crate) rest: TermId,
}

impl Proof {
    /// A theorem under a substitution: types are put for type variables, and then terms for free variables, each list
    /// all at once; of pairs with one key the first counts. A variable of `term_pairs` is looked up by its name and its
    /// type after the types are put. Hypotheses that become equal are one, the first. It is refused with `BadSubst`
    /// where some pair's variable and term differ in type, whether or not the pair counts. (Source: HOL Light's kernel,
    /// INST_TYPE and INST; the OpenTheory article format, `subst`.)
    pub fn subst(
        &mut self,
        type_pairs: &[(Name, TypeId)],
        term_pairs: &[(Variable, TermId)],
        one: StepId,
    ) -> Result<StepId, Fault>
        requires type_pairs { type.ArePairsKnown self.old.trees.types type_pairs.now }
        requires term_pairs { AreTermPairs self.old.trees term_pairs.now }
        requires one { one < step_count self.old }
        ensures { Concludes self.old (subst_step self.old.made (type.pairs_at self.old.trees.types type_pairs.now)
            (term_pairs_at self.old.trees term_pairs.now) one) self.new result }
    {
        let put = self.prepared(type_pairs, term_pairs)?;
        let step = self.subst_prepared(&put, one);
        drop(put);
        step
    }

    /// What is put, made ready for any number of steps. It is refused with `BadSubst` where some pair's variable and term
    /// differ in type, whether or not the pair counts.
    pub fn prepared(
        &self,
        type_pairs: &[(Name, TypeId)],
        term_pairs: &[(Variable, TermId)],
    ) -> Result<Put, Fault>
        requires type_pairs { type.ArePairsKnown self.now.trees.types type_pairs.now }
        requires term_pairs { AreTermPairs self.now.trees term_pairs.now }
        ensures types { IfOk result (λ put. put.types.items ≡ type_pairs.now) }
        ensures terms { IfOk result (λ put. put.terms.items ≡ term_pairs.now) }
        ensures fits { OnOk result (ArePairsFitting self.now.trees term_pairs.now) }
        ensures refused { IfErr result (λ fault. Fails fault (pairs_fit (term_pairs_at self.now.trees term_pairs.now))) }
    {
        if !self.terms().fits(term_pairs) {
            return Err(Fault::Refused(Kind::BadSubst));
        }
        Ok(ready(self.alloc, type_pairs, term_pairs)?)
    }

    /// A theorem under a substitution that is ready, as by `subst`: types are put for type variables, and then terms for
    /// free variables, each list all at once; of pairs with one key the first counts. What is put is shared with the step.
    pub fn subst_prepared(&mut self, put: &Put, one: StepId) -> Result<StepId, Fault>
        requires types { type.ArePairsKnown self.old.trees.types put.now.types.items }
        requires terms { AreTermPairs self.old.trees put.now.terms.items }
        requires fits { ArePairsFitting self.old.trees put.now.terms.items }
        requires one { one < step_count self.old }
        ensures { Concludes self.old (subst_step self.old.made (type.pairs_at self.old.trees.types put.now.types.items)
            (term_pairs_at self.old.trees put.now.terms.items) one) self.new result }
    {
        let sequent = self.image(put, one)?;
        let given = put.again()?;
        self.conclude(StepKind::Subst, &[one], Parameters::Subst(given), sequent)
    }

    // What the pairs make of a step's sequent.
    fn image(&mut self, put: &Put, one: StepId) -> Result<Sequent, Memory>
        requires pairs { AreKnownPairs self.old.trees put.now.types.items put.now.terms.items }
        requires one { one < step_count self.old }
        ensures made { IfOk result (λ image. IsStated self.new.trees image
            (substituted (type.pairs_at self.old.trees.types put.now.types.items) (term_pairs_at self.old.trees put.now.terms.items)
            (sequent_at self.old.made one))) }
        ensures grows { Grows self.old self.new }
    {
        let sequent = &self.steps[one].sequent;
        image_of(self.alloc, &mut self.terms, put, sequent)
    }
}

// What the pairs make of a sequent. On the way its terms are one tree, so that the walk comes once to each part that
// they share.
fn image_of(
    alloc: Global,
    terms: &mut TermTable,
    put: &Put,
    sequent: &Sequent,
) -> Result<Sequent, Memory>
    requires pairs { AreKnownPairs terms.old put.now.types.items put.now.terms.items }
    requires sequent { numbers.IsKnown terms.old sequent.now }
    requires distinct { IsDistinct terms.old.terms }
    ensures made { IfOk result (λ image. IsStated terms.new image
        (substituted (type.pairs_at terms.old.types put.now.types.items) (term_pairs_at terms.old put.now.terms.items)
        (numbers.sequent_at terms.old sequent.now))) }
    ensures keeps { Keeps terms.old terms.new }
{
    let ids = sequent.hyps.ids();
    let whole = linked(terms, ids, sequent.concl)?;
    let image = tree_image(terms, put, whole)?;
    let links = unlinked(alloc, terms, image, ids.len())?;
    let hyps = sequent.hyps.again(alloc, &links.terms)?;
    Ok(Sequent {
        hyps,
        concl: links.rest,
    })
}

// What the pairs make of a tree.
fn tree_image(terms: &mut TermTable, put: &Put, id: TermId) -> Result<TermId, Memory>
    requires pairs { AreKnownPairs terms.old put.now.types.items put.now.terms.items }
    requires id { id.0 < length terms.old.terms }
    ensures known { IfOk result (λ r. r.0 < length terms.new.terms) }
    ensures made { IfOk result (λ r. Holds terms.new r.0 (tree.image_of terms.old put.now.types.items put.now.terms.items (term_at terms.old id.0))) }
    ensures keeps { Keeps terms.old terms.new }
{
    let pairs = put.get();
    terms.image(&pairs.types, &pairs.terms, put.index(), id)
}

// The chain of some terms before a last one.
fn linked(terms: &mut TermTable, ids: &[TermId], last: TermId) -> Result<TermId, Memory>
    requires ids { AreKnown terms.old ids.now }
    requires last { last.0 < length terms.old.terms }
    ensures made { IfOk result (λ id. IsNumberOf terms.new id (chain (terms_at terms.old ids.now) (term_at terms.old last.0))) }
    ensures keeps { Keeps terms.old terms.new }
{
    let mut whole = last;
    let mut rest = ids;
    while let [front @ .., id] = rest {
        whole = terms.raw_application(*id, whole)?;
        rest = front;
    }
    Ok(whole)
}

// The first terms of a chain, as many as `count`, and what is left of it.
fn unlinked(alloc: Global, terms: &TermTable, whole: TermId, count: usize) -> Result<Links, Memory>
    requires { whole.0 < length terms.now.terms }
    ensures { IfOk result (λ links. AreLinks terms.now count (term_at terms.now whole.0) links) }
{
    let mut links = Vec::new(alloc);
    let mut rest = whole;
    for _place in 0..count {
        let TermView::App(link, next) = terms.view(rest) else {
            return Ok(Links { terms: links, rest });
        };
        links.push(link)?;
        rest = next;
    }
    Ok(Links { terms: links, rest })
}

// What is put, copied and made ready.
fn ready(
    alloc: Global,
    type_pairs: &[(Name, TypeId)],
    term_pairs: &[(Variable, TermId)],
) -> Result<Put, Memory>
    ensures types { IfOk result (λ put. put.types.items ≡ type_pairs.now) }
    ensures terms { IfOk result (λ put. put.terms.items ≡ term_pairs.now) }
{
    Put::new(alloc, own_substitution(alloc, type_pairs, term_pairs)?)
}

// What is put, copied.
fn own_substitution(
    alloc: Global,
    type_pairs: &[(Name, TypeId)],
    term_pairs: &[(Variable, TermId)],
) -> Result<Substitution, Memory>
    ensures types { IfOk result (λ put. put.types.items ≡ type_pairs.now) }
    ensures terms { IfOk result (λ put. put.terms.items ≡ term_pairs.now) }
{
    let types = copied_types(alloc, type_pairs)?;
    let terms = copied_terms(alloc, term_pairs)?;
    Ok(Substitution { types, terms })
}

// The types that are put, each copied with its variable.
fn copied_types(alloc: Global, pairs: &[(Name, TypeId)]) -> Result<Vec<(Name, TypeId)>, Memory>
    ensures { IfOk result (λ copy. copy.items ≡ pairs.now) }
{
    let mut copy = Vec::new(alloc);
    for (name, ty) in pairs {
        copy.reserve(1)?;
        copy.push_reserved((name.clone()?, *ty));
    }
    Ok(copy)
}

// The terms that are put, each copied with its variable.
fn copied_terms(
    alloc: Global,
    pairs: &[(Variable, TermId)],
) -> Result<Vec<(Variable, TermId)>, Memory>
    ensures { IfOk result (λ copy. copy.items ≡ pairs.now) }
{
    let mut copy = Vec::new(alloc);
    for (variable, id) in pairs {
        copy.reserve(1)?;
        let own = own_variable(variable)?;
        copy.push_reserved((own, *id));
    }
    Ok(copy)
}
