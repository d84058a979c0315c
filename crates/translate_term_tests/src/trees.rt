//! What the translation makes, against texts.
ghost use Rattle.holide_sig.specs.Modules.{declarations_of, IsHeld};
ghost use Rattle.std.specs.Prelude.{◌≡◌};
ghost use Rattle.translate_term_tests.specs.Inputs.{input_module};

use crate::inputs::with_input;
use crate::sequents::Given;
use crate::translating::{Case, made, node};
use crate::wanted::{Place, is_wanted};
use common::Fault;
use holide_sig::Module;
use lp_term::LpNode;
use std::alloc::Global;
use std::test::Fail;

/// What is translated, and a text of which the last declaration has the tree at a place.
#[derive(Clone, Copy)]
struct Row {
    name: &'static str,
    case: Case,
    text: &'static [u8],
    place: Place,
}

const ROWS: [Row; 7] = [
    Row {
        name: "an_assumption_stands_under_its_variables",
        case: Case::Theorem(Given::One),
        text: b"A0 : v0 : term bool -> v1 : term bool -> v2 : proof v0 -> proof v1.\n",
        place: Place::Whole,
    },
    Row {
        name: "assumptions_stand_each_under_those_before",
        case: Case::Theorem(Given::Two),
        text: b"A0 : v0 : term bool -> v1 : term bool -> v2 : term bool -> v3 : proof v0 -> v4 : proof v1 -> proof v2.\n",
        place: Place::Whole,
    },
    Row {
        name: "no_binder_captures_a_free_variable",
        case: Case::Theorem(Given::Quantified),
        text: b"T0 : v0 : term bool -> proof (i_u (arr (arr bool bool) bool) (v1 : term bool => v0)).\n",
        place: Place::Whole,
    },
    Row {
        name: "a_type_is_made_of_what_stands_for_its_variables",
        case: Case::Type,
        text: b"t : v0 : type -> arr v0 bool.\n",
        place: Place::Inside,
    },
    Row {
        name: "a_constant_stands_at_what_its_type_has",
        case: Case::Constant,
        text: b"t : v0 : type -> i_u (arr v0 bool).\n",
        place: Place::Inside,
    },
    Row {
        name: "some_truth_value_equals_itself",
        case: Case::Filler,
        text: b"t : v0 : type -> select bool (v1 : term bool => eq bool v1 v1).\n",
        place: Place::Inside,
    },
    Row {
        name: "a_variable_is_what_stands_for_it_or_some_term",
        case: Case::Doubled(1),
        text: b"t : v0 : type -> v0 (select bool (v1 : term bool => eq bool v1 v1)) (select bool (v1 : term bool => eq bool v1 v1)).\n",
        place: Place::Inside,
    },
];

// Whether the tree of a row's case is that of its text.
fn is_made_in(base: &mut Module, alloc: Global, row: Row) -> Result<bool, Fault>
    requires held { IsHeld base.old }
    requires declared { declarations_of base.old ≡ input_module }
{
    let id = made(base, alloc, row.case)?;
    Ok(is_wanted(alloc, &base.table, id, row.text, row.place))
}

// The same, in a module of its own.
fn is_made(alloc: Global, row: Row) -> Result<bool, Fault> {
    let mut base = with_input(alloc)?;
    let found = is_made_in(&mut base, alloc, row);
    drop(base);
    found
}

// The name of the first row whose tree is another.
fn first_wrong(alloc: Global) -> Result<Option<&'static str>, Fault> {
    for row in &ROWS {
        if !is_made(alloc, *row)? {
            return Ok(Some(row.name));
        }
    }
    Ok(None)
}

#[test]
fn trees_are_those_of_texts(rt: HostRuntime) -> Result<(), Fail> {
    let wrong = first_wrong(rt.alloc())?;
    assert!(rt; wrong.is_none(), "{wrong:?}");
    Ok(())
}

// How many nodes are new in the module's table, and how many the tree of a case has.
fn measured_in(base: &mut Module, alloc: Global, case: Case) -> Result<(usize, u128), Fault>
    requires held { IsHeld base.old }
    requires declared { declarations_of base.old ≡ input_module }
{
    // Trees that the translation doesn't make: each gets the next number.
    let before = node(base, LpNode::Var(98))?;
    let id = made(base, alloc, case)?;
    let size = base.table.size(id);
    let after = node(base, LpNode::Var(99))?;
    Ok((after.0.saturating_sub(before.0), size))
}

// The same, in a module of its own.
fn measured(alloc: Global, case: Case) -> Result<(usize, u128), Fault> {
    let mut base = with_input(alloc)?;
    let found = measured_in(&mut base, alloc, case);
    drop(base);
    found
}

// Some truth value has 15 nodes, and a doubling 3 more than two of what is doubled.
#[test]
fn a_shared_term_is_translated_once(rt: HostRuntime) -> Result<(), Fail> {
    let (added, size) = measured(rt.alloc(), Case::Doubled(16))?;
    assert!(rt; added < 200 && size == 1_179_645, "{added}, {size}");
    Ok(())
}
