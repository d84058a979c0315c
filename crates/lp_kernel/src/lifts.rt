//! The types of variables, lifted to where they stand, as far as they are kept.
ghost use Rattle.std.specs.Prelude.{◌≡◌, ◌<◌, length, Ok, IfOk};
ghost use Rattle.lp_spec.specs.Trees.{lift};
ghost use Rattle.lp_term.specs.declared.LpId.{LpId as AnId};
ghost use Rattle.lp_term.specs.Tables.{tree_at};
ghost use Rattle.lp_conv.specs.Growth.{Grows};
ghost use Rattle.lp_kernel.specs.Latest.{IsKept};
ghost use Rattle.lp_kernel.specs.Lifted.{AreLifts};

use crate::latest::{Finding, Latest};
use crate::raising::raised;
use common::Memory;
use holide_sig::Module;
use lp_term::LpId;

/// The type with its loose variables raised by a number, made anew only where that isn't kept.
pub(crate) fn lifted(
    base: &mut Module,
    lifts: &mut Latest,
    entry: LpId,
    by: u128,
) -> Result<LpId, Memory>
    requires entry { entry.0 < length base.old.table }
    requires lifts { AreLifts base.old.table lifts.old }
    ensures grows { Grows base.old base.new }
    ensures known { IfOk result (λ r. r.0 < length base.new.table) }
    ensures is { IfOk result (λ r. tree_at base.new.table r.0 ≡ lift by (tree_at base.old.table entry.0)) }
    ensures again { (r : AnId) → IsKept lifts.old entry by r → result ≡ Ok r }
    ensures kept { IfOk result (λ r. IsKept lifts.new entry by r) }
    ensures lifts { IfOk result (λ r. AreLifts base.new.table lifts.new) }
{
    if let Some(found) = lifts.find(entry, by) {
        return Ok(found);
    }
    let made = raised(base, entry, by)?;
    lifts.keep(Finding {
        id: entry,
        by,
        found: made,
    })?;
    Ok(made)
}
