//! The module of the run of the generated article, checked.
ghost use Rattle.std.specs.Prelude.{◌≡◌, ◌<◌, ◌≤◌, [], ◌∷◌, IfOk, IfErr, OnOk, length, true, false};
ghost use Rattle.hol_spec.specs.Proofs.{Accepted};
ghost use Rattle.lp_kernel.specs.Checks.{PassBelow};
ghost use Rattle.translate_spec.specs.Image.{image};
ghost use Rattle.bridge_spec.specs.Answers.{IsRunOfTrial};
ghost use Rattle.bridge_spec.specs.Calls.{names_in};
ghost use Rattle.bridge_spec.specs.Forms.{greatest_trial};
ghost use Rattle.bridge_spec.specs.Texts.{counts_of};
ghost use Rattle.bridge_translate.specs.Translations.{counts_in, IsTranslationOf};
ghost use Rattle.bridge_trial.specs.Articles.{article_name, article_files};

use crate::article::{article_shelf, article_words};
use bridge_answer::Answer;
use bridge_base::QuietShelf;
use bridge_translate::{Counts, Translation, translation_of};
use bridge_verify::check_back;
use common::Memory;
use std::alloc::Global;

/// The counts of the run of the article of `n` blocks, once the check accepted its module. Only want of memory is answered in their place.
pub(crate) fn verified(alloc: Global, n: u64) -> Result<Counts, Answer>
    requires some { 0 < n }
    requires within { n ≤ greatest_trial }
    ensures counts { IfOk result (λ counts. (run : Accepted) × IsRunOfTrial n run × (counts_in counts ≡ counts_of false 1 run)) }
    ensures accepted { OnOk result ((run : Accepted) × IsRunOfTrial n run × PassBelow true (image run) (length (image run))) }
    ensures memory { IfErr result (λ answer. answer ≡ Answer.Memory) }
{
    let mut translation = translated(alloc, n)?;
    let counts = translation.counts;
    let checked = check_back(alloc, &mut translation, false);
    drop(translation);
    match checked {
        Ok(()) => Ok(counts),
        Err(answer) => Err(answer),
    }
}

// The module of the run of the article of `n` blocks.
fn translated(alloc: Global, n: u64) -> Result<Translation, Answer>
    requires some { 0 < n }
    requires within { n ≤ greatest_trial }
    ensures translated { IfOk result (λ translation. (run : Accepted) × IsRunOfTrial n run × IsTranslationOf false 1 run translation) }
    ensures memory { IfErr result (λ answer. answer ≡ Answer.Memory) }
{
    match article_words(alloc) {
        Ok(words) => {
            let made = translated_under(alloc, n, &words);
            drop(words);
            made
        }
        Err(Memory) => Err(Answer::Memory),
    }
}

// The same, where these words name the file.
fn translated_under(alloc: Global, n: u64, words: &[String]) -> Result<Translation, Answer>
    requires some { 0 < n }
    requires within { n ≤ greatest_trial }
    requires name { names_in words.now ≡ article_name ∷ [] }
    ensures translated { IfOk result (λ translation. (run : Accepted) × IsRunOfTrial n run × IsTranslationOf false 1 run translation) }
    ensures memory { IfErr result (λ answer. answer ≡ Answer.Memory) }
{
    match article_shelf(alloc, n) {
        Ok(mut shelf) => {
            let made = translated_from(alloc, n, words, &mut shelf);
            drop(shelf);
            made
        }
        Err(Memory) => Err(Answer::Memory),
    }
}

// The module of the run of the article of `n` blocks, which stands on the shelf under this name.
fn translated_from(
    alloc: Global,
    n: u64,
    words: &[String],
    shelf: &mut QuietShelf,
) -> Result<Translation, Answer>
    requires some { 0 < n }
    requires within { n ≤ greatest_trial }
    requires name { names_in words.now ≡ article_name ∷ [] }
    requires files { shelf.old.files ≡ article_files n }
    ensures translated { IfOk result (λ translation. (run : Accepted) × IsRunOfTrial n run × IsTranslationOf false 1 run translation) }
    ensures memory { IfErr result (λ answer. answer ≡ Answer.Memory) }
{
    match translation_of(alloc, words, false, shelf) {
        Ok(translation) => Ok(translation),
        Err(stop) => Err(stop.into_answer()),
    }
}
