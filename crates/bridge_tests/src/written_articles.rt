//! The form `article`: one article of what a run exports, where one can say it.
use bridge_cases::all_hold;

const TESTS: &str = r#"
[usual]
words = ["bridge", "article", "a"]
article.a = ["$reflexivity"]
texts.said = '"p" "bool" typeOp nil opType 0 def var varTerm 1 def refl 2 def pop 2 ref nil "=" const "->" typeOp 0 ref "->" typeOp 0 ref 0 ref nil cons cons opType 3 def nil cons cons opType 4 def constTerm 5 def 1 ref appTerm 6 def 1 ref appTerm 7 def thm'

# What is written is its own article.
[[test]]
name = "smallest_article_is_said_again"
begun = ["a"]
out = [{ commands = "$version" }, { commands = "$said" }]
case = [
    { },
    { article.a = ['#before', "$reflexivity", '#behind'] },
    { article.a = ["$version", "$said"] },
    { words = ["bridge", "article", "a", "a"], begun = ["a", "a"] },
    { by = "article", words = ["a"] },
    { words = ["bridge", "article", "b", "a"], article.a = ["$reflexivity"], article.b = ["$reflexivity_5"], begun = ["b", "a"] },
]

[[test]]
name = "article_of_version_5_has_no_version"
begun = ["a"]
out = { commands = "$said" }
case = [
    { article.a = ["$reflexivity_5"] },
    { article.a = ["$said"] },
    { words = ["bridge", "article", "b", "a"], article.a = ["$said"], article.b = ["$reflexivity"], begun = ["b", "a"] },
]

# Without exports nothing is reached.
[[test]]
name = "article_of_no_export"
begun = ["a"]
case = [
    { article.a = ["$version"], out = "6\nversion\n" },
    { article.a = ["$version", "$p", "refl"], out = "6\nversion\n" },
    { article.a = ["$version", "nil", "$p", "axiom"], out = "6\nversion\n" },
    { article.a = [], out = "" },
    { article.a = ["$p", "refl"], out = "" },
]

# What isn't reached is left out; in names only a quote, a backslash, and a dot in a component are escaped.
[[test]]
name = "steps_that_are_not_reached_and_names"
begun = ["a"]

[[test.case]]
article.a = ["$version", '"c" "x" "bool" typeOp nil opType var', "$x", "absTerm defineConst pop pop nil", "$q", "axiom pop", "$said"]
out = [{ commands = "$version" }, { commands = "$said" }]

[[test.case]]
article.a = [
    '6 version "a\"b\.c.d\\\e\\" "bool" typeOp nil opType 0 def var varTerm 1 def refl nil "=" const "->" typeOp 0 ref "->" typeOp',
    '0 ref 0 ref nil cons cons opType nil cons cons opType constTerm 1 ref appTerm 1 ref appTerm thm',
]
out = [
    { commands = '6 version "a\"b\.c.d\\e\\" "bool" typeOp nil opType 0 def var varTerm 1 def refl 2 def pop 2 ref nil "=" const' },
    { commands = '"->" typeOp 0 ref "->" typeOp 0 ref 0 ref nil cons cons opType 3 def nil cons cons opType 4 def constTerm 5 def' },
    { commands = '1 ref appTerm 6 def 1 ref appTerm 7 def thm' },
]

# The first article exports I = I under p and q, for the identity I of truth values. The second assumes it under q and p, and exports it
# under q, p and r: behind the first it restates an export, which one article can't; before it there is only an assumption.
[[test]]
name = "restated_export"
article.a = [
    "$version", "$unary_type", "0 def pop", "$var_y", "$y", "absTerm refl", "$p", "$q", "nil cons cons", "$equality", "$var_y",
    "$y", "absTerm appTerm", "$var_y", "$y", "absTerm appTerm thm",
]
article.b = [
    "$version", "$unary_type", "0 def pop", "$q", "$p", "nil cons cons", "$equality", "$var_z", "$z", "absTerm appTerm", "$var_z",
    "$z", "absTerm appTerm 1 def axiom", "$q", "$p", "$r", "nil cons cons cons 1 ref thm",
]

[[test.case]]
words = ["bridge", "article", "a", "b"]
begun = ["a", "b"]
number = 10
note = "article not writable\n"

[[test.case]]
words = ["bridge", "article", "a", "b"]
number = 4
note = "article not writable\n"
cut = "note"
note_fails = [1]

[[test.case]]
words = ["bridge", "article", "b", "a"]
begun = ["b", "a"]
out = [
    { commands = '6 version "q" "bool" typeOp nil opType 0 def var varTerm 1 def "p" 0 ref var varTerm 2 def nil cons cons "=" const' },
    { commands = '"->" typeOp "->" typeOp 0 ref 0 ref nil cons cons opType 3 def "->" typeOp 3 ref 0 ref nil cons cons opType 4 def' },
    { commands = 'nil cons cons opType 5 def constTerm 6 def "_0_0" 0 ref var "_0_0" 0 ref var varTerm absTerm 7 def appTerm 8 def' },
    { commands = '7 ref appTerm 9 def axiom 10 def pop 10 ref 1 ref 2 ref "r" 0 ref var varTerm 11 def nil cons cons cons 9 ref thm' },
    { commands = '7 ref refl 12 def pop 12 ref 2 ref 1 ref nil cons cons 9 ref thm' },
]

# A type definition of version 5, of which the second law is exported: an article of version 6 can't say it.
[[test]]
name = "type_definition_of_the_other_version"
article.a = ["$reflexivity"]
article.b = [
    '"a" varType 0 def pop "one" "mk" "dest" "a" nil cons nil "r" 0 ref var', "$equality",
    '"r" 0 ref var varTerm appTerm "r" 0 ref var varTerm appTerm absTerm "r" 0 ref var varTerm appTerm axiom defineTypeOp',
    '"one" typeOp "a" varType nil cons opType 1 def pop nil', "$equals", '"r" 0 ref var', "$equality",
    '"r" 0 ref var varTerm appTerm "r" 0 ref var varTerm appTerm absTerm "r" 0 ref var varTerm appTerm appTerm', "$equality",
    '"dest" const "->" typeOp 1 ref 0 ref nil cons cons opType constTerm',
    '"mk" const "->" typeOp 0 ref 1 ref nil cons cons opType constTerm "r" 0 ref var varTerm appTerm appTerm appTerm',
    '"r" 0 ref var varTerm appTerm appTerm thm',
]

[[test.case]]
words = ["bridge", "article", "b", "a"]
begun = ["b", "a"]
number = 10
note = "article not writable\n"

[[test.case]]
words = ["bridge", "article", "b"]
out = [
    { commands = 'nil "_0_0" "a" varType 0 def var "=" const "->" typeOp 0 ref "->" typeOp 0 ref "bool" typeOp nil opType 1 def nil' },
    { commands = 'cons cons opType 2 def nil cons cons opType 3 def constTerm 4 def "_0_0" 0 ref var varTerm appTerm "_0_0" 0 ref var' },
    { commands = 'varTerm appTerm absTerm 5 def "r" 0 ref var varTerm 6 def appTerm 7 def axiom 8 def pop "one" "mk" "dest" "a" nil' },
    { commands = 'cons 8 ref defineTypeOp 9 def pop 10 def pop pop pop pop 9 ref nil "=" const "->" typeOp 1 ref "->" typeOp 1 ref' },
    { commands = '1 ref nil cons cons opType 11 def nil cons cons opType 12 def constTerm 13 def 7 ref appTerm 14 def 4 ref "dest"' },
    { commands = 'const "->" typeOp "one" typeOp 0 ref nil cons opType 15 def 0 ref nil cons cons opType 16 def constTerm 17 def "mk"' },
    { commands = 'const "->" typeOp 0 ref 15 ref nil cons cons opType 18 def constTerm 19 def 6 ref appTerm 20 def appTerm 21 def' },
    { commands = 'appTerm 22 def 6 ref appTerm 23 def appTerm 24 def thm' },
]

[[test.case]]
words = ["bridge", "article", "a", "b"]
begun = ["a", "b"]
out = [
    { commands = "$said" },
    { commands = 'nil "_0_0" "a" varType 8 def var "=" const "->" typeOp 8 ref "->" typeOp 8 ref 0 ref nil cons cons opType 9 def nil' },
    { commands = 'cons cons opType 10 def constTerm 11 def "_0_0" 8 ref var varTerm appTerm "_0_0" 8 ref var varTerm appTerm absTerm' },
    { commands = '12 def "r" 8 ref var varTerm 13 def appTerm 14 def axiom 15 def pop "one" "mk" "dest" "a" nil cons 15 ref' },
    { commands = 'defineTypeOp 16 def pop 17 def pop pop pop pop 16 ref nil 5 ref 14 ref appTerm 18 def 11 ref "dest" const "->"' },
    { commands = 'typeOp "one" typeOp 8 ref nil cons opType 19 def 8 ref nil cons cons opType 20 def constTerm 21 def "mk" const "->"' },
    { commands = 'typeOp 8 ref 19 ref nil cons cons opType 22 def constTerm 23 def 13 ref appTerm 24 def appTerm 25 def appTerm 26 def' },
    { commands = '13 ref appTerm 27 def appTerm 28 def thm' },
]

# The article of a trial with two blocks, and that which is written of it.
[[test]]
name = "generated_article_is_said_again"
begun = ["a"]
texts.generated = '6 version "bool" typeOp nil opType 0 def pop "->" typeOp 0 ref 0 ref nil cons cons opType 1 def pop "p" 0 ref var varTerm 2 def refl 3 def pop "x" 0 ref var 4 def pop "f" const 1 ref constTerm 5 def pop "c1" 4 ref 5 ref 4 ref varTerm appTerm absTerm 6 def defineConst 3 ref appThm 6 ref 2 ref appTerm betaConv trans 7 def pop 1 ref constTerm 5 def pop "c2" 4 ref 5 ref 4 ref varTerm appTerm absTerm 6 def defineConst 3 ref appThm 6 ref 2 ref appTerm betaConv trans 7 ref trans 7 def pop 1 ref constTerm 5 def pop 7 ref nil "=" const "->" typeOp 0 ref 1 ref nil cons cons opType constTerm 5 ref 2 ref appTerm appTerm "f" const 1 ref constTerm 2 ref appTerm appTerm thm'
texts.retold = '6 version "p" "bool" typeOp nil opType 0 def var varTerm 1 def refl 2 def pop "c1" "_0_0" 0 ref var "f" const "->" typeOp 0 ref 0 ref nil cons cons opType 3 def constTerm 4 def "_0_0" 0 ref var varTerm appTerm absTerm 5 def defineConst 6 def pop pop 6 ref 2 ref appThm 7 def pop 5 ref 1 ref appTerm 8 def betaConv 9 def pop 7 ref 9 ref trans 10 def pop "c2" "_0_0" 0 ref var "c1" const 3 ref constTerm 11 def "_0_0" 0 ref var varTerm appTerm absTerm 12 def defineConst 13 def pop pop 13 ref 2 ref appThm 14 def pop 12 ref 1 ref appTerm 15 def betaConv 16 def pop 14 ref 16 ref trans 17 def pop 17 ref 10 ref trans 18 def pop 18 ref nil "=" const "->" typeOp 0 ref 3 ref nil cons cons opType 19 def constTerm 20 def "c2" const 3 ref constTerm 21 def 1 ref appTerm 22 def appTerm 23 def 4 ref 1 ref appTerm 24 def appTerm 25 def thm'
case = [
    { article.a = ["$generated"], out = { commands = "$retold" } },
    { article.a = ["$retold"], out = { commands = "$retold" } },
    { words = ["bridge", "verify", "a"], article.a = ["$retold"], unsaid = "out", note = "$counts" },
]
texts.counts = '''
articles 1
assumptions 0
exports 1
declarations 16
bounds 21639702528
verified
'''

[[test]]
name = "article_that_is_refused"
number = 1

[[test.case]]
article.a = ["$version", "$p", "refl Z"]
begun = ["a"]
note = "article 1 line 11: BadLine (1)\n"

[[test.case]]
words = ["bridge", "article", "a", "b", "c"]
article.a = ["$reflexivity"]
article.b = ["5 version"]
begun = ["a", "b"]
note = "article 2 line 2: VersionPlace (5)\n"

[[test]]
name = "article_and_faults_of_the_outside"
out = [{ commands = "$version" }, { commands = "$said" }]
cut = "out"
case = [
    { words = ["bridge", "article", "c"], number = 3, note = "read fault\n", begun = ["c"] },
    { words = ["bridge", "article", "a", "c"], number = 3, note = "read fault\n", begun = ["a", "c"] },
    { shelf_fails = [2], number = 3, note = "read fault\n", begun = ["a"] },
    { out_fails = [1], number = 4, note = "write fault\n" },
    { out_fails = [1], note_fails = [1], number = 4 },
]
"#;

#[test]
fn articles(rt: HostRuntime) {
    assert!(rt; all_hold(&rt, TESTS));
}
