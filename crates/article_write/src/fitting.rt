//! Whether one article can say what is told.
ghost use Rattle.std.specs.Prelude.{◌≡◌, ◌<◌, ◌&&◌, ◌||◌, ◌==◌, ℕ, List, not, length};
ghost use Rattle.std.specs.List.{AllByRecursion, list_all, list_any};
ghost use Rattle.hol_rules.specs.Kept.{step_count};
ghost use Rattle.hol_rules.specs.Views.{parameters_view, step_at};
ghost use Rattle.hol_spec.specs.Proofs.{steps_of};
ghost use Rattle.hol_term.specs.Tables.{Trees};
ghost use Rattle.article_write_spec.specs.Article.{meets_none as meets_none_of};
ghost use Rattle.article_write_spec.specs.Versions.{is_of_version as is_of_version_by};
ghost use Rattle.article_write_laws.specs.Flags.{selected};
ghost use Rattle.article_lines.specs.Flagged.{flag, AreExports};
ghost use Rattle.article_write.specs.Fitting.{fits_step};

use hol_rules::{Parameters, Proof, StepId};
use hol_spec::Version;

// Whether one article of a version can say the told steps.
pub(crate) fn is_fitting(proof: &Proof, version: Version, told: &[bool], is_export: &[bool]) -> bool
    requires told { length told.now ≡ step_count proof.now }
    requires exports { length is_export.now ≡ step_count proof.now }
    ensures { (exports : List ℕ) → AreExports is_export.now exports
        → result ≡ list_all (fits_step version exports) (selected (flag told.now) 0 (steps_of proof.now.made)) }
{
    for step in 0..proof.len() {
        if !is_passed(proof, version, told, is_export, step) {
            return false;
        }
    }
    true
}

// Whether a step isn't told, or an article can say it.
fn is_passed(
    proof: &Proof,
    version: Version,
    told: &[bool],
    is_export: &[bool],
    step: StepId,
) -> bool
    requires step { step < step_count proof.now }
    requires told { length told.now ≡ step_count proof.now }
    requires exports { length is_export.now ≡ step_count proof.now }
    ensures { (exports : List ℕ) → AreExports is_export.now exports
        → result ≡ (not (flag told.now step) || fits_step version exports (record { number = step; step = step_at proof.now.made step })) }
{
    !told[step] || is_sayable(proof, version, is_export, step)
}

// Whether a step has no export as a premise, and was made under this version if it is a law of a type definition.
fn is_sayable(proof: &Proof, version: Version, is_export: &[bool], step: StepId) -> bool
    requires step { step < step_count proof.now }
    requires exports { length is_export.now ≡ step_count proof.now }
    ensures { (exports : List ℕ) → AreExports is_export.now exports
        → result ≡ (meets_none_of exports (step_at proof.now.made step) && is_of_version_by version (step_at proof.now.made step).parameters) }
{
    proof.is_proof();
    meets_none(is_export, proof.premises(step)) && is_of_version(version, proof.params(step))
}

// Whether none of these steps is an export.
fn meets_none(is_export: &[bool], premises: &[StepId]) -> bool
    requires { AllByRecursion (λ i. i < length is_export.now) premises.now }
    ensures { (exports : List ℕ) → AreExports is_export.now exports → result ≡ list_all (λ i. not (list_any (λ e. i == e) exports)) premises.now }
{
    for premise in premises {
        if is_export[*premise] {
            return false;
        }
    }
    true
}

// Whether the laws of a type definition, if they are given, are those of this version.
fn is_of_version(version: Version, given: &Parameters) -> bool
    ensures { (trees : Trees) → result ≡ is_of_version_by version (parameters_view trees given.now) }
{
    match given {
        Parameters::TypeOp(given) => given.get().version == version,
        _ => true,
    }
}
