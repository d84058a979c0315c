//! What `show` writes for an article that is accepted: the lines of its assumptions and of its exports.
use bridge_cases::all_hold;

const TESTS: &str = r#"
[usual]
words = ["bridge", "show", "a"]

[[test]]
name = "shows_reflexivity_in_any_pieces"
pieces = [1, 7, 4096]

[[test.case]]
by = "show"
words = ["a"]
article.a = ["$reflexivity"]
out = "export 0: [] [x0:bool] {} |- (((=:(bool -> (bool -> bool))) x0) x0)\n"

[[test]]
name = "shows_nothing_where_nothing_is_exported"

[[test.case]]
article.a = ["$version"]
out = ""

[[test.case]]
text.a = ""
out = ""

[[test.case]]
text.a = "6\n"
out = ""

[[test.case]]
article.a = ["$version", "9223372036854775807"]
out = ""

[[test]]
name = "shows_assumptions_before_exports"

[[test.case]]
article.a = ["$version", "$q", "nil cons", "$p", "axiom", "$q", "$r", "nil cons cons", "$p", "thm"]
out = '''
assumption 0: [] [x0:bool x1:bool] {x0} |- x1
export 0: [] [x0:bool x1:bool x2:bool] {x0, x1} |- x2
'''

[[test]]
name = "shows_binders_from_outside"

[[test.case]]
article.a = [
    "$version", 'nil "u" const "->" typeOp', "$binary_type", '"bool" typeOp nil opType nil cons cons opType constTerm', "$var_p",
    "$var_q", "$p", "absTerm absTerm appTerm axiom",
]
out = '''
assumption 0: [] [] {} |- ((u:((bool -> (bool -> bool)) -> bool)) (\b0:bool. (\b1:bool. b0)))
'''

[[test]]
name = "shows_names_mangled_and_type_variables"

[[test.case]]
article.a = [
    "$version", 'nil "f.g" const "->" typeOp "a_b" typeOp "t" varType nil cons opType',
    '"bool" typeOp nil opType nil cons cons opType constTerm',
    '"x" "a_b" typeOp "t" varType nil cons opType var varTerm appTerm axiom',
]
out = "assumption 0: [a0] [x0:(a_5fb a0)] {} |- ((f__g:((a_5fb a0) -> bool)) x0)\n"
"#;

#[test]
fn shows(rt: HostRuntime) {
    assert!(rt; all_hold(&rt, TESTS));
}
