//! By which rule a step was made, and from which steps.
ghost use Rattle.std.specs.Prelude.{◌≡◌, ◌≤◌, length};

use crate::made::StepId;
use hol_spec::StepKind;
use std::marker::Model;

/// The rule of a step and the numbers of its premises, of which no rule has more than two: they lie in place, without
/// memory of their own. Contracts see the rule and the list of the numbers.
#[derive(Drop)]
pub(crate) struct Inference {
    kind: StepKind,
    count: u8,
    numbers: [StepId; 2],
}

impl Model for Inference {
    ghost use Rattle.std.specs.Prelude.{◌≤◌, take};
    ghost use Rattle.hol_rules.specs.Inferences.{Inferred};

    ghost Value = { Inferred };

    ghost view = { λ i. record { kind = i.kind; premises = take i.count i.numbers } };

    ghost invariant = { λ i. i.count ≤ 2 };
}

impl Inference {
    // The rule with these premises.
    pub(crate) fn new(kind: StepKind, premises: &[StepId]) -> Inference
        requires few { length premises.now ≤ 2 }
        ensures { result ≡ record { kind = kind; premises = premises.now } }
    {
        match premises {
            [] => Inference {
                kind,
                count: 0,
                numbers: [0, 0],
            },
            [one] => Inference {
                kind,
                count: 1,
                numbers: [*one, 0],
            },
            [one, two, ..] => Inference {
                kind,
                count: 2,
                numbers: [*one, *two],
            },
        }
    }

    // The rule.
    pub(crate) fn kind(&self) -> StepKind
        ensures { result ≡ self.now.kind }
    {
        self.kind
    }

    // The numbers of the premises, in their order.
    pub(crate) fn premises(&self) -> &[StepId]
        ensures { result.now ≡ self.now.premises }
    {
        &self.numbers[..self.count as usize]
    }
}
