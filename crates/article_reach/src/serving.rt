//! Whether something that a step serves is marked.
ghost use Rattle.std.specs.Prelude.{◌≡◌, ◌<◌, length};
ghost use Rattle.std.specs.List.{list_any};
ghost use Rattle.hol_defs.specs.Lists.{pairs_at as pairs_view};
ghost use Rattle.hol_rules.specs.Kept.{step_count};
ghost use Rattle.hol_rules.specs.Views.{parameters_view, step_at};
ghost use Rattle.hol_spec.specs.Rules as rule;
ghost use Rattle.hol_term.specs.Tables.{Trees};
ghost use Rattle.article_write_spec.specs.ReachedSteps.{defines, serves, together};
ghost use Rattle.article_reach.specs.Found.{need};
ghost use Rattle.article_reach.specs.Looked.{IsWalkOf};
ghost use Rattle.article_reach.specs.Walks.{is_marked};

use crate::flags::flag_of;
use crate::walk::Walk;
use hol_name::Name;
use hol_rules::{Parameters, Proof, StepId};
use hol_spec::StepKind;
use hol_term::Variable;

impl Walk {
    // Whether something that a step serves is marked.
    pub(crate) fn is_wanted(&self, proof: &Proof, id: StepId) -> bool
        requires walk { IsWalkOf proof.now self.now }
        requires id { id < step_count proof.now }
        ensures { result ≡ list_any (λ n. is_marked self.now (need n)) (serves (record { number = id; step = step_at proof.now.made id })) }
    {
        flag_of(&self.steps, id)
            || self.is_law_wanted(proof.kind(id), id)
            || self.is_definition_wanted(proof.params(id))
    }

    // Whether the other law of a type definition is marked.
    fn is_law_wanted(&self, kind: StepKind, id: StepId) -> bool
        requires { id < length self.now.steps.items }
        ensures { result ≡ list_any (λ n. is_marked self.now (need n)) (together id kind) }
    {
        match kind {
            StepKind::FirstLaw => flag_of(&self.steps, id + 1),
            StepKind::SecondLaw => flag_of(&self.steps, id.saturating_sub(1)),
            _ => false,
        }
    }

    // Whether a symbol that a step defines is marked.
    fn is_definition_wanted(&self, given: &Parameters) -> bool
        ensures { (trees : Trees) → result ≡ list_any (λ n. is_marked self.now (need n)) (defines (parameters_view trees given.now)) }
    {
        match given {
            Parameters::Const(name, _) => self.constants.has(name),
            Parameters::List(pairs) => self.is_constant_wanted(pairs),
            Parameters::TypeOp(given) => {
                let new = given.get();
                self.operators.has(&new.op)
                    || self.constants.has(&new.abs)
                    || self.constants.has(&new.rep)
            }
            _ => false,
        }
    }

    // Whether one of some constants is marked.
    fn is_constant_wanted(&self, pairs: &[(Name, Variable)]) -> bool
        ensures { (trees : Trees) → result ≡ list_any (λ n. is_marked self.now (need n)) (defines (rule.Parameters.constants (pairs_view trees pairs.now))) }
    {
        for pair in pairs {
            if self.constants.has(&pair.0) {
                return true;
            }
        }
        false
    }
}
