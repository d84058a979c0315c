//! Articles that define constants, lists of constants and type operators: what is shown of them, and which are refused.
use bridge_cases::all_hold;

const TESTS: &str = r#"
[usual]
words = ["bridge", "show", "a"]
# Under 0 and 1 equality of functions of truth values, as a constant, and their type.
texts.equality = '1 def pop "=" const "->" typeOp 1 ref "->" typeOp 1 ref "bool" typeOp nil opType nil cons cons opType nil cons cons opType constTerm 0 def pop'
# The equations of v and of w with the identity, under 2 and 3; and the first equation under both.
texts.equations = '4 def pop 0 ref "v" 1 ref var varTerm appTerm 4 ref appTerm 2 def pop 0 ref "w" 1 ref var varTerm appTerm 4 ref appTerm 3 def pop'
texts.premise = "2 ref 3 ref nil cons cons 2 ref axiom defineConstList"
# The type a -> b, and |- (\r. r = r) g over it, with the names of a new operator below, and then its type variables.
texts.function_type = '"->" typeOp "a" varType "b" varType nil cons cons opType'
texts.names = '"two" "mk" "dest"'
texts.witness = 'nil "r" 1 ref var 0 ref "r" 1 ref var varTerm appTerm "r" 1 ref var varTerm appTerm absTerm "g" 1 ref var varTerm appTerm axiom defineTypeOp'
# The new type under 2, its equality under 3, and the first law: mk after dest is the identity.
texts.new_type = 'pop "two" typeOp "b" varType "a" varType nil cons cons opType 2 def pop'
texts.new_function = '"=" const "->" typeOp "->" typeOp 2 ref 2 ref nil cons cons opType 4 def'
texts.new_equality = '"->" typeOp 4 ref "bool" typeOp nil opType nil cons cons opType nil cons cons opType constTerm 3 def pop'
texts.first_law = 'nil 3 ref "x" 2 ref var "mk" const "->" typeOp 1 ref 2 ref nil cons cons opType constTerm "dest" const "->" typeOp 2 ref 1 ref nil cons cons opType constTerm "x" 2 ref var varTerm appTerm appTerm absTerm appTerm "x" 2 ref var "x" 2 ref var varTerm absTerm appTerm thm'

[[test]]
name = "shows_a_newer_constant"

[[test.case]]
article.a = [
    "$version", "$unary_type", "$equality", '"c"', "$identity", "defineConst pop pop", '"d" "c" const 1 ref constTerm defineConst',
    'nil 0 ref "d" const 1 ref constTerm appTerm "c" const 1 ref constTerm appTerm thm',
]
out = "export 0: [] [] {} |- (((=:((bool -> bool) -> ((bool -> bool) -> bool))) (d:(bool -> bool))) (c:(bool -> bool)))\n"

[[test]]
name = "tells_each_kind_of_a_constant"

[[test.case]]
article.a = ["$version", '"n" const "bool" typeOp nil opType constTerm pop "n"', "$identity", "defineConst"]
number = 1
note = "article 1 line 26: NameTaken (14)\n"

[[test.case]]
article.a = ["$version", '"n"', "$p", "defineConst"]
number = 1
note = "article 1 line 11: NotClosed (15)\n"

[[test.case]]
article.a = [
    "$version", '"->" typeOp "a" varType "a" varType nil cons cons opType', "$equality",
    '"n" 0 ref "z" "a" varType var "z" "a" varType var varTerm absTerm 2 def', "appTerm 2 ref appTerm defineConst",
]
number = 1
note = "article 1 line 61: ExtraTypeVars (16)\n"

[[test]]
name = "shows_a_list_of_constants"

[[test.case]]
article.a = [
    "$version", "$unary_type", "$equality", "$identity", "$equations",
    '"c" "v" 1 ref var nil cons cons "d" "w" 1 ref var nil cons cons nil cons cons', "$premise",
    'nil 0 ref "c" const 1 ref constTerm appTerm 4 ref appTerm thm',
]
out = '''
assumption 0: [] [x0:(bool -> bool) x1:(bool -> bool)] {(((=:((bool -> bool) -> ((bool -> bool) -> bool))) x0) (\b0:bool. b0)), (((=:((bool -> bool) -> ((bool -> bool) -> bool))) x1) (\b0:bool. b0))} |- (((=:((bool -> bool) -> ((bool -> bool) -> bool))) x0) (\b0:bool. b0))
export 0: [] [] {} |- (((=:((bool -> bool) -> ((bool -> bool) -> bool))) (c:(bool -> bool))) (\b0:bool. b0))
'''

[[test]]
name = "tells_of_a_list_without_a_constant"

[[test.case]]
article.a = [
    "$version", "$unary_type", "$equality", "$identity", "$equations", '"c" "v" 1 ref var nil cons cons nil cons', "$premise",
]
number = 1
note = "article 1 line 111: BadDefinitionList (17)\n"

[[test]]
name = "shows_a_law_of_a_new_type"

[[test.case]]
article.a = [
    "$version", "$function_type", "$equality", "$names", '"b" "a" nil cons cons', "$witness", "$new_type", "$new_function",
    "$new_equality", "$first_law",
]
out = '''
assumption 0: [a0 a1] [x0:(a0 -> a1)] {} |- ((\b0:(a0 -> a1). (((=:((a0 -> a1) -> ((a0 -> a1) -> bool))) b0) b0)) x0)
export 0: [a0 a1] [] {} |- (((=:(((two a0 a1) -> (two a0 a1)) -> (((two a0 a1) -> (two a0 a1)) -> bool))) (\b0:(two a0 a1). ((mk:((a1 -> a0) -> (two a0 a1))) ((dest:((two a0 a1) -> (a1 -> a0))) b0)))) (\b0:(two a0 a1). b0))
'''

[[test]]
name = "tells_of_a_type_without_a_variable"

[[test.case]]
article.a = ["$version", "$function_type", "$equality", "$names", '"a" nil cons', "$witness"]
number = 1
note = "article 1 line 75: BadTypeVars (18)\n"
"#;

#[test]
fn definitions(rt: HostRuntime) {
    assert!(rt; all_hold(&rt, TESTS));
}
