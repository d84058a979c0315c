//! The length of an article, counted step by step.
ghost use Rattle.std.specs.Prelude.{◌≡◌, ◌<◌, ◌-◌, ◌^◌, List, length, IfOk, OnOk, ℕ};
ghost use Rattle.std.specs.List.{AllByRecursion};
ghost use Rattle.hol_spec.specs.Proofs.{steps_of};
ghost use Rattle.hol_term.specs.Tables.{Trees};
ghost use Rattle.hol_rules.specs.Kept.{step_count};
ghost use Rattle.hol_rules.specs.Views.{step_at};
ghost use Rattle.article_spec.specs.declared.commands.Word.TheVariants as word;
ghost use Rattle.article_write_spec.specs.Article.{version_items};
ghost use Rattle.article_write_spec.specs.ArticleLength.{count_assumption as count_of_assumption, count_export as count_of_export, count_given as count_of_given, count_inferred as count_of_inferred, count_made as count_of_made, count_premise, count_restated as count_of_restated};
ghost use Rattle.article_write_spec.specs.Lengths.{count_each, items_length, word_length as word_length_of};
ghost use Rattle.article_lines.specs.declared.keys.Thing.TheVariants as thing;
ghost use Rattle.article_lines.specs.Flagged.{AreExports, ArePairs};
ghost use Rattle.article_lines.specs.NewSteps.{IsNew, IsNewStep};
ghost use Rattle.article_count.specs.Counts.{added, noted, Counts};
ghost use Rattle.article_count.specs.StepCounts.{count_one, tally_begun, told_count, IsNewMade};
ghost use Rattle.article_count.specs.TermTasks.{CanCountTerms, CountsTerms, IsTermTally};

use crate::loose::loose_numbers;
use crate::memo::Memo;
use crate::tally::Count;
use crate::terms::TermCount;
use article_lines::keys::{Keys, Thing, are_distinct};
use article_lines::lengths::word_length;
use article_lines::rules::word_of;
use article_spec::Word;
use common::Memory;
use hol_rules::{Proof, StepId};
use hol_spec::{StepKind, Version};
use std::alloc::Global;

/// The length of the article of the steps that are told, up to the greatest number, with this number in the names of binders.
pub fn article_length(
    alloc: Global,
    proof: &Proof,
    version: Version,
    told: &[bool],
    is_export: &[bool],
    number: u64,
) -> Result<u128, Memory>
    requires told { length told.now ≡ step_count proof.now }
    requires exports { length is_export.now ≡ step_count proof.now }
    requires pairs { ArePairs (steps_of proof.now.made) }
    ensures { IfOk result (λ n. (exports : List ℕ) → AreExports is_export.now exports
        → n ≡ told_count version number exports told.now (steps_of proof.now.made)) }
{
    let mut counted = TermCount::begun(alloc, proof, version, number)?;
    for id in 0..proof.len() {
        if told[id] {
            counted.count_step(proof, id, is_export[id])?;
        }
    }
    Ok(counted.count.length)
}

// The length of what an article of a version begins with.
fn version_length(version: Version) -> u128
    ensures { result ≡ items_length (version_items version) }
{
    match version {
        Version::Five => 0,
        Version::Six => 2 + word_length(Word::Version),
    }
}

impl TermCount {
    // What an article of a version begins with is counted, and nothing has a key.
    fn begun(
        alloc: Global,
        proof: &Proof,
        version: Version,
        number: u64,
    ) -> Result<TermCount, Memory>
        ensures { IfOk result (λ c. IsTermTally proof.now.trees (step_count proof.now) number c (tally_begun version)) }
    {
        let terms = proof.terms();
        are_distinct(terms);
        let keys = Keys::new(alloc, terms.types().count(), terms.count(), proof.len())?;
        let loose = loose_numbers(alloc, terms)?;
        let length = version_length(version);
        Ok(TermCount {
            alloc,
            loose,
            number,
            count: Count { keys, length },
            places: Memo::new(alloc),
        })
    }

    // Counts a step.
    fn count_step(&mut self, proof: &Proof, id: StepId, is_export: bool) -> Result<(), Memory>
        requires count { CanCountTerms proof.now.trees self.old }
        requires room { self.old.count.keys.theorems ≡ step_count proof.now }
        requires id { id < step_count proof.now }
        requires new { IsNewStep self.old.count.keys (step_at proof.now.made id).kind id }
        ensures { OnOk result (CountsTerms proof.now.trees self.old self.new
            (λ q. count_one q is_export id (step_at proof.now.made id))) }
    {
        match proof.kind(id) {
            StepKind::SecondLaw => Ok(()),
            StepKind::Axiom => self.count_assumption(proof, id),
            StepKind::Restate => self.count_restated(proof, id, is_export),
            kind => self.count_inferred(proof, id, kind),
        }
    }

    // Counts an export, or an assumption that was met again.
    fn count_restated(&mut self, proof: &Proof, id: StepId, is_export: bool) -> Result<(), Memory>
        requires count { CanCountTerms proof.now.trees self.old }
        requires room { self.old.count.keys.theorems ≡ step_count proof.now }
        requires id { id < step_count proof.now }
        requires new { IsNew self.old.count.keys id }
        ensures { OnOk result (CountsTerms proof.now.trees self.old self.new (λ q. count_of_restated q is_export id (step_at proof.now.made id))) }
    {
        if is_export {
            self.count_export(proof, id)
        } else {
            self.count_assumption(proof, id)
        }
    }

    // Counts an export.
    fn count_export(&mut self, proof: &Proof, id: StepId) -> Result<(), Memory>
        requires count { CanCountTerms proof.now.trees self.old }
        requires room { self.old.count.keys.theorems ≡ step_count proof.now }
        requires id { id < step_count proof.now }
        ensures { OnOk result (CountsTerms proof.now.trees self.old self.new (λ q. count_of_export q (step_at proof.now.made id))) }
    {
        self.count_premises(proof, id);
        self.count_parameters(proof, id)?;
        self.count.add(word_length(Word::Thm));
        Ok(())
    }

    // Counts an assumption.
    fn count_assumption(&mut self, proof: &Proof, id: StepId) -> Result<(), Memory>
        requires count { CanCountTerms proof.now.trees self.old }
        requires room { self.old.count.keys.theorems ≡ step_count proof.now }
        requires id { id < step_count proof.now }
        requires new { IsNew self.old.count.keys id }
        ensures { OnOk result (CountsTerms proof.now.trees self.old self.new (λ q. count_of_assumption q id (step_at proof.now.made id))) }
    {
        self.count_parameters(proof, id)?;
        self.count.add(word_length(Word::Axiom));
        self.count.count_theorem(id);
        Ok(())
    }

    // Counts a step that infers or defines.
    fn count_inferred(&mut self, proof: &Proof, id: StepId, kind: StepKind) -> Result<(), Memory>
        requires count { CanCountTerms proof.now.trees self.old }
        requires room { self.old.count.keys.theorems ≡ step_count proof.now }
        requires id { id < step_count proof.now }
        requires kind { kind ≡ (step_at proof.now.made id).kind }
        requires new { IsNewMade self.old.count.keys kind id }
        ensures { OnOk result (CountsTerms proof.now.trees self.old self.new (λ q. count_of_inferred q id (step_at proof.now.made id))) }
    {
        let _count = proof.len();
        self.count_parameters(proof, id)?;
        self.count_premises(proof, id);
        self.count.add(word_length(word_of(kind)));
        self.count.count_made(id, kind);
        Ok(())
    }

    // Counts what the rule of a step was given.
    fn count_parameters(&mut self, proof: &Proof, id: StepId) -> Result<(), Memory>
        requires count { CanCountTerms proof.now.trees self.old }
        requires id { id < step_count proof.now }
        ensures { OnOk result (CountsTerms proof.now.trees self.old self.new (λ q. count_of_given q (step_at proof.now.made id).parameters)) }
    {
        self.count_given(proof.terms(), proof.params(id))
    }

    // Counts the premises of a step.
    fn count_premises(&mut self, proof: &Proof, id: StepId)
        requires room { self.old.count.keys.theorems ≡ step_count proof.now }
        requires id { id < step_count proof.now }
        ensures { (trees : Trees) → CountsTerms trees self.old self.new (λ q. count_each count_premise (step_at proof.now.made id).premises) }
    {
        proof.is_proof();
        self.count_theorems(proof.premises(id));
    }

    // Counts theorems, by their keys.
    fn count_theorems(&mut self, ids: &[StepId])
        requires { AllByRecursion (λ i. i < self.old.count.keys.theorems) ids.now }
        ensures { (trees : Trees) → CountsTerms trees self.old self.new (λ q. count_each count_premise ids.now) }
    {
        for id in ids {
            let length = self.count.key_length(Thing::Theorem(*id));
            self.count.add(length);
        }
    }
}

impl Count {
    // Counts a theorem that is kept and taken away.
    fn count_theorem(&mut self, id: StepId)
        requires room { id < self.old.keys.theorems }
        requires new { IsNew self.old.keys id }
        ensures theorem { self.new ≡ added (word_length_of word.Pop) (noted (thing.Theorem id) self.old) }
    {
        self.note(Thing::Theorem(id));
        self.add(word_length(Word::Pop));
    }

    // Counts what a command leaves on the stack.
    fn count_made(&mut self, id: StepId, kind: StepKind)
        requires small { id < 2 ^ 64 - 1 }
        requires room { id < self.old.keys.theorems }
        requires new { IsNewMade self.old.keys kind id }
        ensures { (trees : Trees) → Counts trees self.old self.new (count_of_made kind id) }
    {
        match kind {
            StepKind::FirstLaw => {
                self.count_theorem(id + 1);
                self.count_theorem(id);
                self.add(3 * word_length(Word::Pop));
            }
            StepKind::DefineConst | StepKind::DefineConstList => {
                self.count_theorem(id);
                self.add(word_length(Word::Pop));
            }
            _ => self.count_theorem(id),
        }
    }
}
