//! Parts of types: the symbols that make them, what is defined as one, and what is none.
use dk_cases::all_hold;

const TESTS: &str = r#"
[usual]
by = "verdict"
text = ["$prelude", "$part", "$after"]
texts.part = '''
a : type.
p : term (arr a bool).
w : term a.
A0 : proof (p w).
def o : type := sub a p w A0.
def c_abs : term (arr a o) := sub_abs a p w A0.
def c_rep : term (arr o a) := sub_rep a p w A0.
'''
budgets = [1_000, 1_000, 1_000, 1_000, 1_000, 1_000, 1_000, 1_000]

[[test]]
name = "each_symbol_of_parts_has_its_type"
texts.part = ""
budgets = [1_000]
comes = "Accepted"

[[test.case]]
texts.after = "def s : a : type -> p : term (arr a bool) -> w : term a -> proof (p w) -> type := sub."

[[test.case]]
texts.after = "def s : a : type -> p : term (arr a bool) -> w : term a -> h : proof (p w) -> term (arr a (sub a p w h)) := sub_abs."

[[test.case]]
texts.after = "def s : a : type -> p : term (arr a bool) -> w : term a -> h : proof (p w) -> term (arr (sub a p w h) a) := sub_rep."

[[test.case]]
texts.after = "thm s : a : type -> p : term (arr a bool) -> w : term a -> h : proof (p w) -> x : term (sub a p w h) -> proof (eq (sub a p w h) (sub_abs a p w h (sub_rep a p w h x)) x) := sub_abs_rep."

[[test.case]]
texts.after = "thm s : a : type -> p : term (arr a bool) -> w : term a -> h : proof (p w) -> x : term a -> proof (eq bool (eq a (sub_rep a p w h (sub_abs a p w h x)) x) (p x)) := sub_rep_abs."

[[test]]
name = "no_symbol_of_parts_has_another_type"
texts.part = ""
budgets = [1_000]
comes = "IllTyped 0"

[[test.case]]
texts.after = "def s : a : type -> p : term (arr a bool) -> w : term a -> h : proof (p w) -> term (arr (sub a p w h) a) := sub_abs."

[[test.case]]
# the two sides exchanged
texts.after = "thm s : a : type -> p : term (arr a bool) -> w : term a -> h : proof (p w) -> x : term a -> proof (eq bool (p x) (eq a (sub_rep a p w h (sub_abs a p w h x)) x)) := sub_rep_abs."

[[test]]
name = "a_definition_as_a_part_stands_for_it"
comes = "Accepted"

[[test.case]]
texts.after = "thm L1 : x : term o -> proof (eq o (c_abs (c_rep x)) x) := x : term o => sub_abs_rep a p w A0 x."

[[test.case]]
texts.after = "thm L2 : x : term a -> proof (eq bool (eq a (c_rep (c_abs x)) x) (p x)) := x : term a => sub_rep_abs a p w A0 x."

[[test.case]]
texts.after = "thm L1 : proof (eq o (c_abs (c_rep (c_abs w))) (c_abs w)) := sub_abs_rep a p w A0 (c_abs w)."

[[test]]
name = "an_element_of_a_type_is_none_of_its_part_nor_the_reverse"
comes = "IllTyped 7"

[[test.case]]
texts.after = "thm L1 : proof (eq o (c_abs (c_rep (c_abs w))) (c_abs w)) := sub_abs_rep a p w A0 w."

[[test.case]]
texts.after = "thm L2 : proof (eq bool (eq a (c_rep (c_abs w)) w) (p w)) := sub_rep_abs a p w A0 (c_abs w)."

[[test.case]]
texts.after = "def c : term o := w."

[[test]]
name = "a_part_takes_a_proof_that_its_predicate_holds_of_its_witness"
budgets = [1_000, 1_000, 1_000, 1_000, 1_000, 1_000]
comes = "IllTyped 5"

[[test.case]]
texts.part = "a : type. p : term (arr a bool). q : term (arr a bool). w : term a. A0 : proof (q w). "
texts.after = "def o : type := sub a p w A0."

[[test.case]]
texts.part = "a : type. p : term (arr a bool). w : term a. v : term a. A0 : proof (p v). "
texts.after = "def o : type := sub a p w A0."

[[test.case]]
texts.part = "a : type. b : type. p : term (arr b bool). w : term b. A0 : proof (p w). "
texts.after = "def o : type := sub a p w A0."

[[test]]
name = "parts_by_two_proofs_are_two_types"
budgets = [1_000, 1_000, 1_000, 1_000, 1_000, 1_000, 1_000]
texts.part = "a : type. p : term (arr a bool). w : term a. A0 : proof (p w). A1 : proof (p w). y : term (sub a p w A0). "

[[test.case]]
texts.after = "def z : term (sub a p w A0) := y."
comes = "Accepted"

[[test.case]]
texts.after = "def z : term (sub a p w A1) := y."
comes = "IllTyped 6"

# Three steps an argument, and three for the symbol, the declared type and the conversion.
[[test]]
name = "a_part_has_this_price"
by = "check"
budgets = [15, 22, 14]
comes = "Yes 0, Yes 7, Over 0"

[[test.case]]
texts.part = "a : type. p : term (arr a bool). w : term a. A0 : proof (p w). "
texts.after = "def o : type := sub a p w A0."
"#;

#[test]
fn parts(rt: HostRuntime) {
    assert!(rt; all_hold(&rt, TESTS));
}
