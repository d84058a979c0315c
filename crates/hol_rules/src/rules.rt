//! The rules. Each takes its premises apart, judges its conditions in their order, makes its sequent and concludes it.
ghost use Rattle.std.specs.Prelude.{◌<◌};
ghost use Rattle.hol_term.specs.Tables.{term_at, IsTermAt};
ghost use Rattle.hol_rules.specs.Conclusions.{Concludes};
ghost use Rattle.hol_rules.specs.Kept.{step_count};
ghost use Rattle.article_spec.specs.RuleSteps.{refl_step, assume_step, eq_mp_step, sym_step, trans_step};

use crate::made::{Parameters, StepId};
use crate::proof::Proof;
use common::{Fault, Kind};
use hol_spec::StepKind;
use hol_term::TermId;
use sequent::Sequent;

impl Proof {
    /// The equation of a term and itself.
    pub fn refl(&mut self, t: TermId) -> Result<StepId, Fault>
        requires { IsTermAt self.old.trees t.0 }
        ensures { Concludes self.old (refl_step (term_at self.old.trees t.0)) self.new result }
    {
        let concl = self.equation(t, t)?;
        let hyps = self.hyps_of(&[])?;
        self.conclude(
            StepKind::Refl,
            &[],
            Parameters::Term(t),
            Sequent { hyps, concl },
        )
    }

    /// A truth value under itself as the hypothesis.
    pub fn assume(&mut self, p: TermId) -> Result<StepId, Fault>
        requires { IsTermAt self.old.trees p.0 }
        ensures { Concludes self.old (assume_step (term_at self.old.trees p.0)) self.new result }
    {
        if !self.is_truth_value(p) {
            return Err(Fault::Refused(Kind::NotBool));
        }
        let hyps = self.hyps_of(&[p])?;
        self.conclude(
            StepKind::Assume,
            &[],
            Parameters::Term(p),
            Sequent { hyps, concl: p },
        )
    }

    /// From an equation and its left side, the right one.
    pub fn eq_mp(&mut self, one: StepId, two: StepId) -> Result<StepId, Fault>
        requires one { one < step_count self.old }
        requires two { two < step_count self.old }
        ensures { Concludes self.old (eq_mp_step self.old.made one two) self.new result }
    {
        self.is_proof();
        let sides = self.sides(one)?;
        if self.concl(two) != sides.left {
            return Err(Fault::Refused(Kind::NotAlike));
        }
        let hyps = self.joined(one, two)?;
        self.conclude(
            StepKind::EqMp,
            &[one, two],
            Parameters::Nothing,
            Sequent {
                hyps,
                concl: sides.right,
            },
        )
    }

    /// An equation turned round.
    pub fn sym(&mut self, one: StepId) -> Result<StepId, Fault>
        requires { one < step_count self.old }
        ensures { Concludes self.old (sym_step self.old.made one) self.new result }
    {
        self.is_proof();
        let sides = self.sides(one)?;
        let concl = self.equation(sides.right, sides.left)?;
        let hyps = self.hyps(one)?;
        self.conclude(
            StepKind::Sym,
            &[one],
            Parameters::Nothing,
            Sequent { hyps, concl },
        )
    }

    /// Two equations in a row.
    pub fn trans(&mut self, one: StepId, two: StepId) -> Result<StepId, Fault>
        requires one { one < step_count self.old }
        requires two { two < step_count self.old }
        ensures { Concludes self.old (trans_step self.old.made one two) self.new result }
    {
        self.is_proof();
        let first = self.sides(one)?;
        let second = self.sides(two)?;
        if second.left != first.right {
            return Err(Fault::Refused(Kind::NotAlike));
        }
        let concl = self.equation(first.left, second.right)?;
        let hyps = self.joined(one, two)?;
        self.conclude(
            StepKind::Trans,
            &[one, two],
            Parameters::Nothing,
            Sequent { hyps, concl },
        )
    }
}
