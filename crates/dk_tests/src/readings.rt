//! Texts that are read.
use dk_cases::all_hold;

const TESTS: &str = r#"
[usual]
by = "read"
pieces = [1, 2, 3, 4096]

[[test]]
name = "reads_a_definition_after_comments_in_any_pieces"

[[test.case]]
texts.after = "(; a (; b ;) def q : type := bool."
comes = "def q"

[[test]]
name = "reads_each_form_of_declaration_in_order"
limits = [4294967296]
pieces = [7]
texts.after = "c : term bool. def d : term bool := c. thm e : x : term bool -> proof (eq bool x x) := x : term bool => refl bool x."

[[test.case]]
comes = "symbol c, def d, thm e"

[[test.case]]
by = "find"
names = ["c"]
comes = "18"

[[test]]
name = "reads_several_declarations_and_comments_in_any_pieces"
limits = [4294967296]
texts.after = "(; one ;)(;;)first_name:type.\ndef second : type -> type := v0 : type => first_name.(;;;)\nthm third:(a : type -> x : term a -> proof (eq a x x)):=a : type => x : term a => refl a x."

[[test.case]]
comes = "symbol first_name, def second, thm third"

[[test.case]]
by = "find"
names = ["first_name", "x"]
comes = "18, none"

[[test]]
name = "a_text_makes_no_tree_over_the_table_of_its_module"
by = "again"
pieces = [4096]
limits = [4294967296]

[[test.case]]
texts.after = "c : term bool. def d : term bool := c. thm e : x : term bool -> proof (eq bool x x) := x : term bool => refl bool x."
comes = "0, symbol c, def d, thm e"

[[test.case]]
texts.after = ""
comes = "0"

[[test]]
name = "the_signature_alone_reads_as_no_declaration"
pieces = [1]

[[test.case]]
comes = ""
"#;

#[test]
fn readings(rt: HostRuntime) {
    assert!(rt; all_hold(&rt, TESTS));
}
