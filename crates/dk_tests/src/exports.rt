//! Types of exports, and the sequents that they stand for.
use dk_cases::all_hold;

const TESTS: &str = r#"
[usual]
by = "decode"

[[test]]
name = "a_truth_value_is_itself"

[[test.case]]
texts.after = "E0 : v0 : term bool -> proof (eq bool v0 v0)."
comes = "[] [x0:bool] {} |- (((=:(bool -> (bool -> bool))) x0) x0)"

[[test]]
name = "hypotheses_stand_in_their_order"

[[test.case]]
texts.after = "E0 : v0 : term bool -> v1 : term bool -> v2 : term bool -> v3 : proof v0 -> v4 : proof v1 -> proof v2."
comes = "[] [x0:bool x1:bool x2:bool] {x0, x1} |- x2"

[[test]]
name = "an_assumption_is_decoded_too"

[[test.case]]
texts.after = "A0 : v0 : term bool -> v1 : term bool -> v2 : proof v0 -> proof v1."
comes = "[] [x0:bool x1:bool] {x0} |- x1"

[[test]]
name = "variables_and_types_are_numbered_under_binders"

[[test.case]]
texts.after = "i_f : v0 : type -> term v0. E0 : v0 : type -> v1 : term v0 -> proof (i_f (arr (arr v0 v0) bool) (v2 : term v0 => v1))."
comes = "[a0] [x0:a0] {} |- ((f:((a0 -> a0) -> bool)) (\\b0:a0. x0))"

[[test]]
name = "a_variable_of_an_outer_binder_counts_the_binders_between"

[[test.case]]
texts.after = "i_f : v0 : type -> term v0. E0 : proof (i_f (arr (arr bool (arr bool bool)) bool) (v0 : term bool => v1 : term bool => v0))."
comes = "[] [] {} |- ((f:((bool -> (bool -> bool)) -> bool)) (\\b0:bool. (\\b1:bool. b0)))"

[[test]]
name = "a_definition_of_a_part_is_an_operator_and_the_part_itself_is_none"
texts.part = "p : term (arr bool bool). w : term bool. A0 : proof (p w). def o_t : type := sub bool p w A0. "
text = ["$prelude", "$part", "$after"]

[[test.case]]
texts.after = "E0 : v0 : term o_t -> proof (eq o_t v0 v0)."
comes = "[] [x0:t] {} |- (((=:(t -> (t -> bool))) x0) x0)"

[[test.case]]
texts.after = "E0 : v0 : term (sub bool p w A0) -> proof (eq (sub bool p w A0) v0 v0)."
comes = "none"
"#;

#[test]
fn exports(rt: HostRuntime) {
    assert!(rt; all_hold(&rt, TESTS));
}
