//! The generated article, as the one file of a shelf in memory.
ghost use Rattle.std.specs.Prelude.{◌≡◌, [], ◌∷◌, IfOk};
ghost use Rattle.bridge_spec.specs.Calls.{names_in};
ghost use Rattle.bridge_trial.specs.Articles.{article_name, article_files};
ghost use Rattle.article_spec.specs.Trial.{trial_text};

use bridge_base::{Failed, MemSink, QuietShelf};
use common::Memory;
use std::alloc::Global;

/// The name of the file.
const NAME: &str = "trial";

/// The words that name the file.
pub(crate) fn article_words(alloc: Global) -> Result<Vec<String>, Memory>
    ensures { IfOk result (λ words. names_in words.items ≡ article_name ∷ []) }
{
    let mut words = Vec::new(alloc);
    words.push(String::from_str(alloc, NAME)?)?;
    Ok(words)
}

/// A shelf of the article of `n` blocks alone.
pub(crate) fn article_shelf(alloc: Global, n: u64) -> Result<QuietShelf, Memory>
    ensures { IfOk result (λ shelf. shelf.files ≡ article_files n) }
{
    let text = article_text(alloc, n)?;
    let mut files = Vec::new(alloc);
    files.push((String::from_str(alloc, NAME)?, text))?;
    Ok(QuietShelf::new(files))
}

// The text of the article of `n` blocks.
fn article_text(alloc: Global, n: u64) -> Result<Vec<u8>, Memory>
    ensures { IfOk result (λ text. text.items ≡ trial_text n) }
{
    let mut sink = MemSink::new(Vec::new(alloc), Vec::new(alloc));
    match vectors::trial(n, &mut sink) {
        Ok(()) => Ok(sink.contents().to_vec(alloc)?),
        Err(Failed) => Err(Memory),
    }
}
