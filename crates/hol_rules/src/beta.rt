//! Beta steps.
ghost use Rattle.std.specs.Prelude.{◌≡◌, ◌<◌, None, length, IfOk, IfSome, IfNone};
ghost use Rattle.article_spec.specs.RuleSteps.{contracted, beta_conv_step};
ghost use Rattle.hol_spec.specs.TermBinding.{put as put_term};
ghost use Rattle.hol_term.specs.Tables.{term_at, IsTermAt};
ghost use Rattle.hol_rules.specs.Conclusions.{Concludes};
ghost use Rattle.hol_rules.specs.Kept.{Grows};
ghost use Rattle.hol_rules.specs.Premises.{AreRedexParts, IsNumberOf};

use crate::made::{Parameters, StepId};
use crate::proof::Proof;
use common::{Fault, Kind, Memory};
use hol_spec::StepKind;
use hol_term::{TermId, TermView};
use sequent::Sequent;

/// The body of an abstraction, and what it is applied to.
#[derive(Clone, Copy)]
pub(crate) struct Redex {
    pub(crate) body: TermId,
    pub(crate) arg: TermId,
}

impl Proof {
    /// One beta step at the root of a term.
    pub fn beta_conv(&mut self, t: TermId) -> Result<StepId, Fault>
        requires { IsTermAt self.old.trees t.0 }
        ensures { Concludes self.old (beta_conv_step (term_at self.old.trees t.0)) self.new result }
    {
        let Some(redex) = self.redex(t) else {
            return Err(Fault::Refused(Kind::NotRedex));
        };
        let reduced = self.instance(redex)?;
        let concl = self.equation(t, reduced)?;
        let hyps = self.hyps_of(&[])?;
        self.conclude(
            StepKind::BetaConv,
            &[],
            Parameters::Term(t),
            Sequent { hyps, concl },
        )
    }

    // What a redex is made of.
    fn redex(&self, t: TermId) -> Option<Redex>
        requires { IsTermAt self.now.trees t.0 }
        ensures parts { IfSome result (λ redex. AreRedexParts self.now.trees t redex) }
        ensures none { IfNone result (contracted (term_at self.now.trees t.0) ≡ None) }
    {
        let terms = self.terms();
        let _ty = terms.type_of(t);
        let TermView::App(f, arg) = terms.view(t) else {
            return None;
        };
        let TermView::Lam(_, body) = terms.view(f) else {
            return None;
        };
        Some(Redex { body, arg })
    }

    // What a redex becomes.
    fn instance(&mut self, redex: Redex) -> Result<TermId, Memory>
        requires body { redex.body.0 < length self.old.trees.terms }
        requires arg { redex.arg.0 < length self.old.trees.terms }
        ensures made { IfOk result (λ id. IsNumberOf self.new.trees id (put_term (term_at self.old.trees redex.arg.0) (term_at self.old.trees redex.body.0))) }
        ensures grows { Grows self.old self.new }
    {
        self.terms.raw_instance(redex.body, redex.arg)
    }
}
