//! How many binders round each term leave it no loose number.
ghost use Rattle.std.specs.Prelude.{◌<◌, length, IfOk};
ghost use Rattle.hol_term.specs.Tables.{term_at};
ghost use Rattle.article_count.specs.LooseNumbers.{AreLoose, AreLooseTo, IsLoose};

use common::Memory;
use hol_term::{TermId, TermTable, TermView};
use std::alloc::Global;

/// Of each term how many binders round it leave it no loose number, as far as a number tells it.
pub(crate) fn loose_numbers(alloc: Global, terms: &TermTable) -> Result<Vec<u64>, Memory>
    ensures { IfOk result (λ numbers. AreLoose terms.now.terms numbers.items) }
{
    let mut numbers = Vec::new(alloc);
    for id in 0..terms.count() {
        numbers.push(loose_number(terms, &numbers, TermId(id)))?;
    }
    Ok(numbers)
}

// That of a term, by those of the terms before it.
fn loose_number(terms: &TermTable, numbers: &[u64], id: TermId) -> u64
    requires id { id.0 < length terms.now.terms }
    requires before { AreLooseTo terms.now.terms id.0 numbers.now }
    ensures { IsLoose id.0 (term_at terms.now id.0) result }
{
    match terms.view(id) {
        TermView::Free(..) | TermView::Const(..) => 0,
        TermView::Bound(number) => match u64::try_from(number) {
            Ok(number) => number.saturating_add(1),
            Err(_) => u64::MAX,
        },
        TermView::App(f, x) => numbers[f.0].max(numbers[x.0]),
        TermView::Lam(_, body) => numbers[body.0].saturating_sub(1),
    }
}
