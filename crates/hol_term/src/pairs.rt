//! The pairs of a substitution, made ready to be put: the bits of their names, and the first of each variable, to be found fast where there are
//! many.
ghost use Rattle.std.specs.Prelude.{◌≡◌, ◌<◌, [], length, IfOk, OnOk};
ghost use Rattle.std.specs.Map.{lookup};
ghost use Rattle.hol_term.specs.declared.Variable.{Variable as AVariable};
ghost use Rattle.hol_term.specs.PutIndexes.{same_variable, IsIndexOf};

use crate::masks::pairs_mask;
use crate::{TermId, Variable};
use common::Memory;
use hol_name::Name;
use hol_type::TypeId;
use std::alloc::Global;
use tree_map::TreeMap;

// How many pairs are looked through in order. Where there are more, the first of each variable is found by the index.
pub(crate) const FEW: usize = 8;

/// The pairs of a substitution made ready to be put: the bits of their names, and where they are many the first of each
/// variable, to be found without going through them.
#[derive(Drop)]
pub struct PutIndex {
    pub(crate) mask: u64,
    // The first pair of each variable, where there are more than a few pairs; else none.
    firsts: TreeMap<Variable, TermId>,
}

impl PutIndex {
    /// The index of these pairs. It takes memory in proportion to their number, and none where there are at most eight.
    pub fn new(alloc: Global, pairs: &[(Variable, TermId)]) -> Result<PutIndex, Memory>
        ensures { IfOk result (λ index. IsIndexOf index pairs.now) }
    {
        let mut firsts = TreeMap::new(alloc);
        match note_firsts(pairs, &mut firsts) {
            Ok(()) => Ok(PutIndex {
                mask: pairs_mask(pairs),
                firsts,
            }),
            Err(memory) => {
                drop(firsts);
                Err(memory)
            }
        }
    }
}

/// What a substitution puts: types, terms, and the index of the terms.
#[derive(Clone, Copy)]
pub(crate) struct Putting<'a> {
    pub(crate) types: &'a [(Name, TypeId)],
    pub(crate) terms: &'a [(Variable, TermId)],
    pub(crate) index: &'a PutIndex,
}

impl Putting<'_> {
    // The term that the first pair of a variable puts.
    pub(crate) fn find(&self, variable: &Variable) -> Option<TermId>
        requires { IsIndexOf self.now.index.now self.now.terms.now }
        ensures { result ≡ lookup (same_variable variable.now) self.now.terms.now }
    {
        if self.terms.len() <= FEW {
            put_for(self.terms, variable)
        } else {
            self.index.firsts.get(variable)
        }
    }
}

// Notes the first pair of each variable, where there are more than a few.
fn note_firsts(
    pairs: &[(Variable, TermId)],
    firsts: &mut TreeMap<Variable, TermId>,
) -> Result<(), Memory>
    requires none { firsts.old ≡ [] }
    ensures { OnOk result (8 < length pairs.now → (v : AVariable) → lookup (same_variable v) firsts.new ≡ lookup (same_variable v) pairs.now) }
{
    if pairs.len() <= FEW {
        Ok(())
    } else {
        note_each(pairs, firsts)
    }
}

// Notes the pairs, from the last to the first. What comes later replaces what came.
fn note_each(
    pairs: &[(Variable, TermId)],
    firsts: &mut TreeMap<Variable, TermId>,
) -> Result<(), Memory>
    requires none { firsts.old ≡ [] }
    ensures { OnOk result ((v : AVariable) → lookup (same_variable v) firsts.new ≡ lookup (same_variable v) pairs.now) }
{
    let mut rest = pairs;
    while let [front @ .., last] = rest {
        firsts.insert(last.0.clone()?, last.1)?;
        rest = front;
    }
    Ok(())
}

// The term that the first pair of a variable puts, looked for from the first to the last.
fn put_for(pairs: &[(Variable, TermId)], variable: &Variable) -> Option<TermId>
    ensures { result ≡ lookup (same_variable variable.now) pairs.now }
{
    for (of, id) in pairs {
        if *variable == *of {
            return Some(*id);
        }
    }
    None
}
