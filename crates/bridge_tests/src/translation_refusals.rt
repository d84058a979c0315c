//! Where a run is refused by `translate` and by `verify`, and for which kind.
use bridge_cases::all_hold;

const TESTS: &str = r#"
# Each article is refused as it is translated and as it is verified, and nothing is written.
[usual]
words = [["bridge", "translate", "a"], ["bridge", "verify", "a"]]
number = 1
begun = ["a"]
texts.witness = '"r" 0 ref var varTerm appTerm "r" 0 ref var varTerm appTerm absTerm "g" 0 ref var varTerm appTerm axiom defineTypeOp'

[[test]]
name = "version_stands_elsewhere"

[[test.case]]
article.a = ["version"]
note = "article 1 line 1: VersionPlace (5)\n"

[[test.case]]
article.a = ["5 version"]
note = "article 1 line 2: VersionPlace (5)\n"

[[test.case]]
article.a = ["6 nil version"]
note = "article 1 line 3: VersionPlace (5)\n"

[[test]]
name = "line_is_told"

[[test.case]]
article.a = ["$version", "9223372036854775808"]
note = "article 1 line 3: NumberRange (21)\n"

[[test.case]]
article.a = ["$version", "-"]
note = "article 1 line 3: BadLine (1)\n"

[[test.case]]
article.a = ["$version", "7 ref"]
note = "article 1 line 4: NoSuchKey (4)\n"

[[test.case]]
article.a = ["$version", "ref"]
note = "article 1 line 3: StackShort (2)\n"

[[test.case]]
article.a = ["$version", "nil ref"]
note = "article 1 line 4: WrongKind (3)\n"

[[test.case]]
article.a = ["$version", "nil hdTl"]
note = "article 1 line 4: EmptyList (27)\n"

[[test]]
name = "theorem_is_told"

[[test.case]]
article.a = ["$version", "$var_q", "$equals", "$q", "appTerm", "$q", "appTerm assume absThm"]
note = "article 1 line 53: VarInHyps (10)\n"

[[test.case]]
article.a = ["$version", "$q", "$r", "nil cons cons", "$p", "axiom", "$q", "nil cons", "$p", "thm"]
note = "article 1 line 44: NotTheSequent (20)\n"

[[test]]
name = "constant_is_told"

[[test.case]]
article.a = ["$version", '"n" const', "$bool", 'constTerm pop "n"', "$var_x", "$x", "absTerm defineConst"]
note = "article 1 line 26: NameTaken (14)\n"

[[test.case]]
article.a = ["$version", '"n"', "$p", "defineConst"]
note = "article 1 line 11: NotClosed (15)\n"

[[test.case]]
article.a = [
    "$version", '"->" typeOp "a" varType "a" varType nil cons cons opType 0 def pop "n"', "$equality",
    '"z" "a" varType var "z" "a" varType var varTerm absTerm appTerm',
    '"z" "a" varType var "z" "a" varType var varTerm absTerm appTerm defineConst',
]
note = "article 1 line 62: ExtraTypeVars (16)\n"

[[test]]
name = "definition_is_told"

[[test.case]]
article.a = [
    "$version", "$unary_type", "0 def pop", "$equality", '"v" 0 ref var varTerm appTerm', "$identity", "appTerm 1 def pop",
    "$equality", '"w" 0 ref var varTerm appTerm', "$identity", "appTerm 2 def pop", '"c" "v" 0 ref var nil cons cons nil cons',
    "1 ref 2 ref nil cons cons 1 ref axiom defineConstList",
]
note = "article 1 line 134: BadDefinitionList (17)\n"

[[test.case]]
article.a = [
    "$version", '"->" typeOp "a" varType "b" varType nil cons cons opType 0 def pop',
    '"two" "mk" "dest" "a" nil cons nil "r" 0 ref var', "$equality", "$witness",
]
note = "article 1 line 70: BadTypeVars (18)\n"

# Each article has a dictionary and a stack of its own, and symbols are shared.
[[test]]
name = "second_article_is_told"
words = [["bridge", "translate", "a", "b"], ["bridge", "verify", "a", "b"]]
begun = ["a", "b"]

[[test.case]]
article.a = ["$reflexivity"]
article.b = ["$version", "0 ref"]
note = "article 2 line 4: NoSuchKey (4)\n"

[[test.case]]
article.a = ["$version", "nil"]
article.b = ["$version", "pop"]
note = "article 2 line 3: StackShort (2)\n"

[[test.case]]
article.a = ["$version", '"n" const', "$bool", "constTerm"]
article.b = ["$version", '"n"', "$identity", "defineConst"]
note = "article 2 line 18: NameTaken (14)\n"
"#;

#[test]
fn refusals(rt: HostRuntime) {
    assert!(rt; all_hold(&rt, TESTS));
}
