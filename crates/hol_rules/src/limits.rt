//! The limits on what a rule concludes.
ghost use Rattle.std.specs.Prelude.{◌≡◌, ◌-◌, ◌^◌, min, Ok, IfErr, OnOk};
ghost use Rattle.article_spec.specs.Conditions.{sequent_in_limits};
ghost use Rattle.article_spec.specs.Results.{Fails};
ghost use Rattle.hol_spec.specs.Limits.{sequent_size, sequent_depth};
ghost use Rattle.hol_variables.specs.Noted.{AreNoted};
ghost use Rattle.sequent.specs.Sequents.{sequent_at, IsKnown};

use common::{Fault, Kind};
use hol_spec::{GREATEST_DEPTH, GREATEST_PARAMETER_COUNT, GREATEST_SIZE};
use hol_term::TermTable;
use hol_variables::ParamMemo;
use sequent::Sequent;

// Refuses what passes a limit: that of size, or else that of depth, or else that of the number of parameters.
pub(crate) fn check_limits(
    terms: &TermTable,
    params: &mut ParamMemo,
    sequent: &Sequent,
) -> Result<(), Fault>
    requires known { IsKnown terms.now sequent.now }
    requires noted { AreNoted terms.now params.old }
    ensures within { OnOk result (sequent_in_limits (sequent_at terms.now sequent.now) ≡ Ok tt) }
    ensures refused { IfErr result (λ fault. Fails fault (sequent_in_limits (sequent_at terms.now sequent.now))) }
    ensures noted { AreNoted terms.now params.new }
{
    if size_of(terms, sequent) > GREATEST_SIZE {
        return Err(Fault::Refused(Kind::TooLarge));
    }
    if depth_of(terms, sequent) > GREATEST_DEPTH {
        return Err(Fault::Refused(Kind::TooDeep));
    }
    if params.count(terms, sequent)? > GREATEST_PARAMETER_COUNT {
        return Err(Fault::Refused(Kind::TooManyParams));
    }
    Ok(())
}

// The sum of the sizes of the sequent's terms, or the greatest number of the type if it is more.
fn size_of(terms: &TermTable, sequent: &Sequent) -> u64
    requires { IsKnown terms.now sequent.now }
    ensures { result ≡ min (sequent_size (sequent_at terms.now sequent.now)) (2 ^ 64 - 1) }
{
    let mut size = terms.size(sequent.concl);
    for id in sequent.hyps.ids() {
        size = size.saturating_add(terms.size(*id));
    }
    size
}

// The greatest depth of the sequent's terms, or the greatest number of the type if it is more.
fn depth_of(terms: &TermTable, sequent: &Sequent) -> u64
    requires { IsKnown terms.now sequent.now }
    ensures { result ≡ min (sequent_depth (sequent_at terms.now sequent.now)) (2 ^ 64 - 1) }
{
    let mut depth = terms.depth(sequent.concl);
    for id in sequent.hyps.ids() {
        depth = depth.max(terms.depth(*id));
    }
    depth
}
