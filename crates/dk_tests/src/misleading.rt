//! Types that stand for no sequent, most of which are close to one that does.
use dk_cases::all_hold;

const TESTS: &str = r##"
[usual]
by = "decode"
comes = "none"

[[test]]
name = "a_sort_is_no_sequent"

[[test.case]]
texts.after = "E0 : type."

[[test.case]]
texts.after = "E0 : v0 : type -> type."

[[test.case]]
texts.after = "E0 : term bool."

[[test]]
name = "parameters_occur_and_stand_in_order"

[[test.case]]
# one that doesn't occur
texts.after = "E0 : v0 : term bool -> v1 : term bool -> proof v0."

[[test.case]]
# in the other order
texts.after = "E0 : v0 : term bool -> v1 : term bool -> proof (eq bool v1 v0)."

[[test.case]]
# a type variable that doesn't occur
texts.after = "E0 : v0 : type -> v1 : term bool -> proof v1."

[[test]]
name = "hypotheses_are_formulas_without_repeats"

[[test.case]]
texts.after = "E0 : v0 : term bool -> v1 : proof v0 -> v2 : proof v0 -> proof v0."

[[test.case]]
texts.after = "E0 : v0 : type -> v1 : term v0 -> proof v1."

[[test.case]]
# two names of symbols that are one name
texts.after = "i_x : v0 : type -> term v0. c_x : term bool. E0 : proof c_x -> proof (i_x bool) -> proof c_x."

[[test]]
name = "terms_under_binders_of_hypotheses"

[[test.case]]
# a proof is no term
texts.after = "E0 : v0 : term bool -> v1 : proof v0 -> proof v1."

[[test.case]]
# a product where the type of a function should be
texts.after = "E0 : v0 : (v1 : term bool -> term bool) -> proof (v0 (eq bool (eq bool) (eq bool)))."

[[test.case]]
# a hypothesis after the conclusion's own variables
texts.after = "E0 : v0 : term bool -> v1 : proof v0 -> v2 : term bool -> proof v2."

[[test]]
name = "names_of_primitives_are_theirs_alone"

[[test.case]]
texts.after = "i_select : v0 : type -> term v0. E0 : proof (i_select bool)."

[[test.case]]
texts.after = "c_select : term bool. E0 : proof c_select."

[[test.case]]
texts.after = "o_bool : type. E0 : v0 : term o_bool -> proof (eq o_bool v0 v0)."

[[test.case]]
# no name is mangled so
texts.after = "c_x_ : term bool. E0 : proof c_x_."

[[test]]
name = "as_many_types_as_a_constant_has_variables"

[[test.case]]
# one too few, and one that stands for no type
texts.after = "E0 : v0 : term bool -> proof (eq v0 v0)."

[[test.case]]
texts.after = "E0 : v0 : term bool -> proof (eq v0 v0 v0)."

[[test.case]]
# a variable of the generic type that doesn't occur in it
texts.after = "c_k : v0 : type -> term bool. E0 : proof (c_k bool)."
"##;

#[test]
fn misleading(rt: HostRuntime) {
    assert!(rt; all_hold(&rt, TESTS));
}
