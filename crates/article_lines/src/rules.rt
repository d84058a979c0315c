//! The words by which rules are called.
ghost use Rattle.std.specs.Prelude.{◌≡◌};
ghost use Rattle.article_write_spec.specs.WrittenSteps.{word_of as word_of_kind};

use article_spec::Word;
use hol_spec::StepKind;

/// The word by which a rule is called, beside those that state a sequent.
pub fn word_of(kind: StepKind) -> Word
    ensures { result ≡ word_of_kind kind }
{
    match kind {
        StepKind::Refl => Word::Refl,
        StepKind::Assume => Word::Assume,
        StepKind::EqMp => Word::EqMp,
        StepKind::AbsThm => Word::AbsThm,
        StepKind::AppThm => Word::AppThm,
        StepKind::DeductAntisym => Word::DeductAntisym,
        StepKind::BetaConv => Word::BetaConv,
        StepKind::Sym => Word::Sym,
        StepKind::Trans => Word::Trans,
        StepKind::ProveHyp => Word::ProveHyp,
        StepKind::Subst => Word::Subst,
        StepKind::Axiom => Word::Axiom,
        StepKind::Restate => Word::Thm,
        StepKind::DefineConst => Word::DefineConst,
        StepKind::DefineConstList => Word::DefineConstList,
        StepKind::FirstLaw => Word::DefineTypeOp,
        StepKind::SecondLaw => Word::DefineTypeOp,
    }
}
