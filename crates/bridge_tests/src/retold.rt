//! Articles of the form `article` as an independent implementation writes them: what isn't reached is left out, the rest is said in its order,
//! each type and each term without loose numbers is built once, and several articles are joined to one.
use bridge_cases::all_hold;

const TESTS: &str = r#"
[usual]
words = ["bridge", "article", "a"]

[[test]]
name = "types_and_terms_are_built_once"
begun = ["a"]

[[test.case]]
words = ["bridge", "article", "a"]
article.a = [
    '6 version "y" "->" typeOp "b" varType "bool" varType nil cons cons opType 0 def var varTerm refl 1 def pop 1 ref nil "=" const',
    '"->" typeOp "->" typeOp "b" varType "bool" varType nil cons cons opType "->" typeOp "->" typeOp "b" varType "bool" varType nil',
    'cons cons opType "bool" typeOp nil opType nil cons cons opType 2 def nil cons cons opType constTerm "y" 0 ref var 3 def varTerm',
    '4 def appTerm 3 ref varTerm appTerm thm',
]
out = [
    { commands = '6 version "y" "->" typeOp "b" varType 0 def "bool" varType 1 def nil cons cons opType 2 def var varTerm 3 def refl 4 def pop 4' },
    { commands = 'ref nil "=" const "->" typeOp 2 ref "->" typeOp 2 ref "bool" typeOp nil opType 5 def nil cons cons opType 6 def nil cons cons' },
    { commands = 'opType 7 def constTerm 8 def 3 ref appTerm 9 def 3 ref appTerm 10 def thm' },
]

[[test]]
name = "binders_have_names_that_no_variable_has"
begun = ["a"]

[[test.case]]
words = ["bridge", "article", "a"]
article.a = [
    '6 version "a" "->" typeOp "X0" typeOp "a" varType "bool" typeOp nil opType "bool" typeOp nil opType nil cons cons cons opType 0',
    'def "select" typeOp "X0" typeOp "bool" typeOp nil opType "bool" typeOp nil opType nil cons cons opType nil cons opType nil cons',
    'cons opType var varTerm 1 def "q" "X0" typeOp nil opType var "_0_0" "->" typeOp "bool" typeOp nil opType 2 def "X0" typeOp "a"',
    'varType 2 ref "bool" typeOp nil opType nil cons cons cons opType nil cons cons opType 3 def var varTerm 4 def "x" 2 ref var',
    'varTerm 5 def appTerm absTerm 6 def "bool" const "X0" typeOp nil opType constTerm appTerm appTerm refl 7 def pop 7 ref 7 ref',
    'proveHyp 8 def pop "ns.v" 2 ref var "x" "->" typeOp "a" varType "list" typeOp 2 ref nil cons opType nil cons cons opType var',
    'varTerm "f" "a" varType var varTerm appTerm absTerm 9 def refl 10 def pop 7 ref 7 ref proveHyp 11 def pop 11 ref sym 12 def pop',
    'nil "a" "->" typeOp 0 ref "select" typeOp "X0" typeOp 2 ref 2 ref nil cons cons opType nil cons opType 13 def nil cons cons',
    'opType var "a" "->" typeOp 0 ref "select" typeOp "X0" typeOp "bool" typeOp nil opType 2 ref nil cons cons opType nil cons opType',
    'nil cons cons opType var 14 def varTerm nil cons cons nil cons nil cons cons 7 ref subst 15 def 15 ref nil "=" const "->" typeOp',
    '13 ref "->" typeOp 13 ref 2 ref nil cons cons opType nil cons cons opType 16 def constTerm 1 ref 6 ref "bool" const "X0" typeOp',
    'nil opType 17 def constTerm appTerm 18 def appTerm appTerm 19 def 1 ref 18 ref appTerm appTerm 20 def thm',
]
out = [
    { commands = '6 version "a" "->" typeOp "X0" typeOp "a" varType 0 def "bool" typeOp nil opType 1 def 1 ref nil cons cons cons opType 2 def' },
    { commands = '"select" typeOp "X0" typeOp 1 ref 1 ref nil cons cons opType 3 def nil cons opType 4 def nil cons cons opType 5 def var varTerm' },
    { commands = '6 def "_1_0" "X0" typeOp nil opType 7 def var "_0_0" "->" typeOp 1 ref 2 ref nil cons cons opType 8 def var varTerm 9 def "x" 1' },
    { commands = 'ref var varTerm 10 def appTerm 11 def absTerm 12 def "bool" const 7 ref constTerm 13 def appTerm 14 def appTerm 15 def refl 16' },
    { commands = 'def pop nil "a" 5 ref var 6 ref nil cons cons nil cons nil cons cons 16 ref subst 17 def pop 17 ref nil "=" const "->" typeOp 4' },
    { commands = 'ref "->" typeOp 4 ref 1 ref nil cons cons opType 18 def nil cons cons opType 19 def constTerm 20 def 15 ref appTerm 21 def 15' },
    { commands = 'ref appTerm 22 def thm' },
]

[[test]]
name = "laws_of_a_type_definition"
begun = ["a"]

[[test.case]]
words = ["bridge", "article", "a"]
article.a = [
    '"=" const "->" typeOp "bool" varType "->" typeOp "bool" varType "bool" typeOp nil opType 0 def nil cons cons opType 1 def nil',
    'cons cons opType 2 def constTerm "x" "->" typeOp 0 ref "bool" varType 3 def nil cons cons opType 4 def var "=" "bool" varType',
    'var varTerm absTerm 5 def "y" "bool" typeOp nil opType var "=" 3 ref var varTerm absTerm appTerm 6 def appTerm 7 def "w3" "->"',
    'typeOp "b" varType "bool" varType nil cons cons opType 8 def var "_0_0" 3 ref var varTerm 9 def absTerm "z" "b" varType var "x"',
    '3 ref var varTerm absTerm appTerm appTerm 10 def refl 11 def pop nil "r" "->" typeOp "bool" typeOp nil opType "->" typeOp "->"',
    'typeOp 0 ref 0 ref nil cons cons opType 0 ref nil cons cons opType nil cons cons opType var "bool" const 0 ref constTerm 12 def',
    'absTerm 13 def "ns.v" 0 ref var "w7" "->" typeOp "bool" typeOp nil opType 0 ref nil cons cons opType var "ns.v" 0 ref var 14 def',
    'varTerm absTerm 15 def absTerm 16 def appTerm axiom 17 def pop "d8" "d9" "d10" nil 17 ref defineTypeOp 18 def pop 19 def pop pop',
    'pop pop nil "=" const "->" typeOp 0 ref "->" typeOp 0 ref 0 ref nil cons cons opType nil cons cons opType constTerm 20 def 10',
    'ref appTerm 21 def "=" const "->" typeOp "->" typeOp "b" varType "ind" typeOp nil opType nil cons cons opType "->" typeOp "->"',
    'typeOp "b" varType 22 def "ind" typeOp nil opType nil cons cons opType 23 def "bool" typeOp nil opType nil cons cons opType 24',
    'def nil cons cons opType constTerm "f" 22 ref var "=" "ind" typeOp nil opType var 25 def varTerm absTerm appTerm 26 def "f" 22',
    'ref var "" const "ind" typeOp nil opType constTerm absTerm appTerm appTerm 27 def axiom 28 def pop 11 ref 28 ref trans 29 def',
    'pop nil 13 ref 16 ref appTerm 30 def axiom 31 def pop nil "q" 4 ref var "r" "bool" typeOp nil opType var "z" "bool" varType var',
    '32 def varTerm absTerm nil cons cons "a" "d8" typeOp nil opType var 33 def 33 ref varTerm nil cons cons nil cons cons nil cons',
    'cons 19 ref subst 34 def pop 31 ref nil 30 ref thm 34 ref "r" "d8" typeOp nil opType var 35 def "a" 0 ref var varTerm 36 def',
    'absTerm "Data.k" const "d8" typeOp nil opType constTerm appTerm nil cons "=" const "->" typeOp "d8" typeOp nil opType "->"',
    'typeOp "d8" typeOp nil opType 0 ref nil cons cons opType nil cons cons opType constTerm 37 def "d9" const "->" typeOp "->"',
    'typeOp 0 ref "->" typeOp "->" typeOp 0 ref 0 ref nil cons cons opType 38 def 0 ref nil cons cons opType 39 def nil cons cons',
    'opType 40 def "d8" typeOp nil opType nil cons cons opType 41 def constTerm "d10" const "->" typeOp "d8" typeOp nil opType 40 ref',
    'nil cons cons opType constTerm 33 ref varTerm appTerm 42 def appTerm appTerm 43 def 33 ref varTerm appTerm thm',
]
out = [
    { commands = 'nil "_0_0" "->" typeOp "bool" typeOp nil opType 0 def "->" typeOp "->" typeOp 0 ref 0 ref nil cons cons opType 1 def 0 ref nil' },
    { commands = 'cons cons opType 2 def nil cons cons opType 3 def var "bool" const 0 ref constTerm 4 def absTerm 5 def "_0_0" 0 ref var "_0_1" 1' },
    { commands = 'ref var "_0_0" 0 ref var varTerm absTerm absTerm 6 def appTerm 7 def axiom 8 def pop "d8" "d9" "d10" nil 8 ref defineTypeOp 9' },
    { commands = 'def pop 10 def pop pop pop pop nil 7 ref axiom 11 def pop nil "q" "->" typeOp 0 ref "bool" varType 12 def nil cons cons opType' },
    { commands = '13 def var "_0_0" 0 ref var "z" 12 ref var varTerm 14 def absTerm 15 def nil cons cons "a" "d8" typeOp nil opType 16 def var "a"' },
    { commands = '16 ref var varTerm 17 def nil cons cons nil cons cons nil cons cons 10 ref subst 18 def pop 11 ref nil 7 ref thm 18 ref "_0_0"' },
    { commands = '16 ref var "a" 0 ref var varTerm 19 def absTerm 20 def "Data.k" const 16 ref constTerm 21 def appTerm 22 def nil cons "=" const' },
    { commands = '"->" typeOp 16 ref "->" typeOp 16 ref 0 ref nil cons cons opType 23 def nil cons cons opType 24 def constTerm 25 def "d9" const' },
    { commands = '"->" typeOp 3 ref 16 ref nil cons cons opType 26 def constTerm 27 def "d10" const "->" typeOp 16 ref 3 ref nil cons cons opType' },
    { commands = '28 def constTerm 29 def 17 ref appTerm 30 def appTerm 31 def appTerm 32 def 17 ref appTerm 33 def thm' },
]

[[test]]
name = "assumption_stated_again"
begun = ["a"]

[[test.case]]
words = ["bridge", "article", "a"]
article.a = [
    '"f" "select" typeOp "ns.t" varType "b" varType nil cons cons opType 0 def var "a..b" const "->" typeOp "->" typeOp "bool"',
    'varType 1 def "bool" typeOp nil opType 2 def nil cons cons opType "->" typeOp 2 ref "A" varType 3 def nil cons cons opType 4 def',
    'nil cons cons opType constTerm absTerm 5 def "ns.v" "->" typeOp "=" typeOp "ns.t" varType "bool" typeOp nil opType nil cons cons',
    'opType 0 ref nil cons cons opType var varTerm "p" "=" typeOp "ns.t" varType 2 ref nil cons cons opType 6 def var 7 def varTerm 8',
    'def appTerm appTerm 9 def refl 10 def pop "ns.v" 1 ref var "x" 2 ref var varTerm 11 def absTerm refl 12 def pop 10 ref 12 ref',
    'appThm 13 def pop nil "A0" const "->" typeOp "A" varType 2 ref nil cons cons opType constTerm 14 def "x" "->" typeOp 2 ref "ind"',
    'typeOp nil opType nil cons cons opType 15 def var 16 def "ns.v" 3 ref var varTerm absTerm "Data.k" const 15 ref constTerm',
    'appTerm appTerm axiom 17 def pop "=" "d4" "d5" "A" nil cons 17 ref pop pop pop pop pop "A" 4 ref nil cons cons nil cons "ns.v" 4',
    'ref var "ns.v" 4 ref var varTerm 18 def nil cons cons nil cons nil cons cons 17 ref subst 19 def pop "ns.v" "N.num" typeOp 2 ref',
    '"b" varType nil cons cons opType var 11 ref absTerm 20 def "q" "->" typeOp "->" typeOp 2 ref 3 ref nil cons cons opType "N.num"',
    'typeOp 2 ref "b" varType nil cons cons opType 21 def nil cons cons opType 22 def var varTerm "z" "c" varType 23 def var "a" 4',
    'ref var varTerm absTerm "k_1" const 23 ref constTerm appTerm appTerm 24 def appTerm assume 25 def pop nil 14 ref "q" 15 ref var',
    '"ns.v" "A" varType var varTerm absTerm "Data.k" const 15 ref constTerm appTerm appTerm 26 def axiom 27 def pop 25 ref 25 ref',
    'proveHyp 28 def nil 26 ref axiom 29 def pop 28 ref "_0_0" 21 ref var 11 ref absTerm 24 ref appTerm nil cons 20 ref 24 ref',
    'appTerm 30 def thm 29 ref "r" "N.num" typeOp nil opType var "f" 2 ref var varTerm absTerm "=>" const "N.num" typeOp nil opType',
    'constTerm appTerm nil cons 26 ref thm',
]
out = [
    { commands = 'nil "A0" const "->" typeOp "A" varType 0 def "bool" typeOp nil opType 1 def nil cons cons opType 2 def constTerm 3 def "_0_0"' },
    { commands = '"->" typeOp 1 ref "ind" typeOp nil opType 4 def nil cons cons opType 5 def var "ns.v" 0 ref var varTerm 6 def absTerm 7 def' },
    { commands = '"Data.k" const 5 ref constTerm 8 def appTerm 9 def appTerm 10 def axiom 11 def pop "_0_0" "N.num" typeOp 1 ref "b" varType 12' },
    { commands = 'def nil cons cons opType 13 def var "x" 1 ref var varTerm 14 def absTerm 15 def "q" "->" typeOp "->" typeOp 1 ref 0 ref nil cons' },
    { commands = 'cons opType 16 def 13 ref nil cons cons opType 17 def var varTerm 18 def "_0_0" "c" varType 19 def var "a" 16 ref var varTerm 20' },
    { commands = 'def absTerm 21 def "k_1" const 19 ref constTerm 22 def appTerm 23 def appTerm 24 def appTerm 25 def assume 26 def pop 26 ref 26' },
    { commands = 'ref proveHyp 27 def pop nil 10 ref axiom 28 def pop 27 ref 25 ref nil cons 25 ref thm 28 ref "_0_0" "N.num" typeOp nil opType 29' },
    { commands = 'def var "f" 1 ref var varTerm 30 def absTerm 31 def "=>" const 29 ref constTerm 32 def appTerm 33 def nil cons 10 ref thm' },
]

[[test]]
name = "rules_with_premises"
begun = ["a"]

[[test.case]]
words = ["bridge", "article", "a"]
article.a = [
    '"=" "->" typeOp "bool" typeOp nil opType "bool" typeOp nil opType 0 def nil cons cons opType 1 def var 2 def "p" "->" typeOp',
    '"pair" typeOp nil opType "ns.t" varType nil cons cons opType 3 def var varTerm "r" "pair" typeOp nil opType var varTerm appTerm',
    'absTerm "a" 0 ref var "=" const "->" typeOp 0 ref 1 ref nil cons cons opType 4 def constTerm 5 def "a" 0 ref var varTerm 6 def',
    'appTerm "k_1" const 0 ref constTerm appTerm absTerm appTerm 7 def refl 8 def pop "r" "->" typeOp "->" typeOp 0 ref "c" varType',
    'nil cons cons opType 9 def 0 ref nil cons cons opType 10 def var 11 def varTerm "f" 9 ref var varTerm appTerm nil cons "=" const',
    '"->" typeOp "ns.t" varType 6 def "->" typeOp 6 ref 0 ref nil cons cons opType nil cons cons opType 12 def constTerm 7 ref',
    'appTerm "q" "ns.t" varType var varTerm appTerm axiom 13 def 8 ref 13 ref trans 14 def pop nil 5 ref "y" 1 ref var "a..b" const',
    '"->" typeOp "->" typeOp 0 ref "a" varType nil cons cons opType 15 def 0 ref nil cons cons opType 16 def constTerm absTerm "f" 1',
    'ref var varTerm 17 def appTerm "p" "->" typeOp "bool" typeOp nil opType "a" varType nil cons cons opType var varTerm 18 def',
    'appTerm 19 def appTerm 20 def "a" "->" typeOp "list" typeOp 0 ref 0 ref 0 ref nil cons cons cons opType 0 ref nil cons cons',
    'opType 21 def var varTerm "r" "->" typeOp 0 ref "list" typeOp 0 ref 0 ref 0 ref nil cons cons cons opType 22 def nil cons cons',
    'opType var varTerm 23 def "bool" const 0 ref constTerm 24 def appTerm appTerm 25 def appTerm axiom 26 def pop 19 ref assume 27',
    'def pop 26 ref 27 ref eqMp 28 def pop 13 ref sym 29 def pop 27 ref 29 ref deductAntisym 30 def pop 27 ref "x" 0 ref var varTerm',
    '"f" "bool" varType var "Data.k" const "bool" typeOp nil opType constTerm 31 def absTerm "q" "bool" varType var varTerm appTerm',
    '19 ref nil cons cons cons 2 ref "a..b" const 16 ref constTerm absTerm 17 ref appTerm 32 def 18 ref appTerm thm 28 ref 19 ref "="',
    'const "->" typeOp 1 ref "->" typeOp "->" typeOp 0 ref 0 ref nil cons cons opType "bool" typeOp nil opType nil cons cons opType',
    'nil cons cons opType 33 def constTerm 21 def 2 ref varTerm appTerm "p" 1 ref var varTerm appTerm 34 def "select" const "->"',
    'typeOp 1 ref 0 ref nil cons cons opType constTerm "A0" const 1 ref constTerm 35 def appTerm 36 def nil cons cons cons "a" "->"',
    'typeOp 22 ref "bool" typeOp nil opType nil cons cons opType 37 def var varTerm 23 ref 24 ref appTerm appTerm thm 29 ref "r" 10',
    'ref var varTerm 24 def "f" "->" typeOp 0 ref "c" varType nil cons cons opType var varTerm 38 def appTerm "a" 1 ref var "inp"',
    'const 0 ref constTerm absTerm "ns.v" 1 ref var varTerm appTerm 39 def nil cons cons "=" const 12 ref constTerm 40 def "q" 6 ref',
    'var varTerm appTerm 7 ref appTerm thm 30 ref 19 ref 24 ref "f" "->" typeOp 0 ref "c" varType 41 def nil cons cons opType var',
    'varTerm appTerm nil cons cons 20 ref 40 ref "q" 6 ref var varTerm appTerm 42 def 7 ref appTerm 43 def appTerm thm',
]
out = [
    { commands = '"r" "->" typeOp "->" typeOp "bool" typeOp nil opType 0 def "c" varType 1 def nil cons cons opType 2 def 0 ref nil cons cons' },
    { commands = 'opType 3 def var varTerm 4 def "f" 2 ref var varTerm 5 def appTerm 6 def nil cons "=" const "->" typeOp "ns.t" varType 7 def' },
    { commands = '"->" typeOp 7 ref 0 ref nil cons cons opType 8 def nil cons cons opType 9 def constTerm 10 def "_0_0" "->" typeOp 0 ref 0 ref' },
    { commands = 'nil cons cons opType 11 def var "p" "->" typeOp "pair" typeOp nil opType 12 def 7 ref nil cons cons opType 13 def var varTerm 14' },
    { commands = 'def "r" 12 ref var varTerm 15 def appTerm 16 def absTerm 17 def "_0_0" 0 ref var "=" const "->" typeOp 0 ref 11 ref nil cons' },
    { commands = 'cons opType 18 def constTerm 19 def "_0_0" 0 ref var varTerm appTerm "k_1" const 0 ref constTerm 20 def appTerm absTerm 21 def' },
    { commands = 'appTerm 22 def appTerm 23 def "q" 7 ref var varTerm 24 def appTerm 25 def axiom 26 def pop nil 19 ref "_0_0" 11 ref var "a..b"' },
    { commands = 'const "->" typeOp "->" typeOp 0 ref "a" varType 27 def nil cons cons opType 28 def 0 ref nil cons cons opType 29 def constTerm' },
    { commands = '30 def absTerm 31 def "f" 11 ref var varTerm 32 def appTerm 33 def "p" 28 ref var varTerm 34 def appTerm 35 def appTerm 36 def' },
    { commands = '"a" "->" typeOp "list" typeOp 0 ref 0 ref 0 ref nil cons cons cons opType 37 def 0 ref nil cons cons opType 38 def var varTerm' },
    { commands = '39 def "r" "->" typeOp 0 ref 37 ref nil cons cons opType 40 def var varTerm 41 def "bool" const 0 ref constTerm 42 def appTerm' },
    { commands = '43 def appTerm 44 def appTerm 45 def axiom 46 def pop 35 ref assume 47 def pop 46 ref 47 ref eqMp 48 def pop 26 ref sym 49 def' },
    { commands = 'pop 47 ref 49 ref deductAntisym 50 def pop 47 ref "x" 0 ref var varTerm 51 def "_0_0" "bool" varType 52 def var "Data.k" const 0' },
    { commands = 'ref constTerm 53 def absTerm 54 def "q" 52 ref var varTerm 55 def appTerm 56 def 35 ref nil cons cons cons 35 ref thm 48 ref 35' },
    { commands = 'ref "=" const "->" typeOp 11 ref "->" typeOp 11 ref 0 ref nil cons cons opType 57 def nil cons cons opType 58 def constTerm 59' },
    { commands = 'def "=" 11 ref var varTerm 60 def appTerm 61 def "p" 11 ref var varTerm 62 def appTerm 63 def "select" const 57 ref constTerm 64' },
    { commands = 'def "A0" const 11 ref constTerm 65 def appTerm 66 def nil cons cons cons 44 ref thm 49 ref 6 ref "_0_0" 11 ref var "inp" const 0' },
    { commands = 'ref constTerm 67 def absTerm 68 def "ns.v" 11 ref var varTerm 69 def appTerm 70 def nil cons cons 10 ref 24 ref appTerm 71 def' },
    { commands = '22 ref appTerm 72 def thm 50 ref 35 ref 6 ref nil cons cons 36 ref 72 ref appTerm 73 def thm' },
]

[[test]]
name = "definitions_and_their_laws"
begun = ["a"]

[[test.case]]
words = ["bridge", "article", "a"]
article.a = [
    '6 version 9223372036854775807 pop "q" "->" typeOp "->" typeOp "b" varType "ns.t" varType 0 def nil cons cons opType 1 def "A"',
    'varType nil cons cons opType var 2 def varTerm "x" "b" varType var "f" "->" typeOp "->" typeOp "bool" varType 3 def "bool"',
    'typeOp nil opType nil cons cons opType 4 def "ns.t" varType nil cons cons opType var varTerm "p" 4 ref var varTerm appTerm',
    'absTerm appTerm refl 5 def pop "p" "->" typeOp "bool" varType "bool" typeOp nil opType nil cons cons opType var 5 ref absThm 6',
    'def pop 6 ref 6 ref deductAntisym 7 def pop nil "=" "bool" typeOp nil opType var "=" "bool" typeOp nil opType var varTerm 8 def',
    'absTerm "_0_0" "bool" typeOp nil opType var varTerm 9 def appTerm axiom 10 def pop "d3" "Data.k" "d4" nil 10 ref defineTypeOp 11',
    'def pop 12 def pop pop pop pop 8 ref assume 13 def pop "=" const "->" typeOp "d3" typeOp nil opType 14 def "->" typeOp 14 ref',
    '"bool" typeOp nil opType nil cons cons opType 15 def nil cons cons opType 16 def constTerm 17 def "a..b" const "->" typeOp "->"',
    'typeOp "c" varType "a" varType nil cons cons opType "->" typeOp 3 ref 14 ref nil cons cons opType 18 def nil cons cons opType 19',
    'def constTerm "z" "->" typeOp "c" varType "a" varType nil cons cons opType var varTerm appTerm "q" "->" typeOp "list" typeOp nil',
    'opType 3 ref nil cons cons opType 20 def var 21 def varTerm "z" "list" typeOp nil opType 22 def var varTerm appTerm appTerm',
    'appTerm 23 def "ns.v" "bool" typeOp nil opType var "=" 14 ref var 24 def varTerm absTerm "z" "->" typeOp "->" typeOp "b" varType',
    '"b" varType nil cons cons opType "bool" typeOp nil opType nil cons cons opType var varTerm "p" "->" typeOp "b" varType "b"',
    'varType nil cons cons opType 25 def var varTerm appTerm appTerm appTerm 26 def assume 27 def pop "ns.v" 14 ref var 28 def',
    'varTerm refl 29 def pop nil "a" "bool" typeOp nil opType var "a" "bool" typeOp nil opType var varTerm absTerm 9 ref appTerm 30',
    'def axiom 31 def pop 27 ref 27 ref proveHyp 32 def pop "d7" "a" "pair" typeOp nil opType 33 def var "é" const 14 ref constTerm',
    'absTerm "é" const "->" typeOp "->" typeOp "bool" typeOp nil opType "bool" typeOp nil opType nil cons cons opType 33 ref nil cons',
    'cons opType constTerm 34 def "a\.b" const "->" typeOp "bool" typeOp nil opType "bool" typeOp nil opType nil cons cons opType 35',
    'def constTerm 36 def appTerm appTerm 37 def defineConst 38 def pop pop 13 ref 13 ref proveHyp 39 def pop nil nil nil cons cons',
    '38 ref subst 40 def pop 13 ref 8 ref nil cons 8 ref thm "ns.v" "->" typeOp "bool" typeOp nil opType 41 def 41 ref nil cons cons',
    'opType var "z" "->" typeOp 41 ref 41 ref nil cons cons opType var varTerm absTerm 42 def "inp" const "->" typeOp "bool" typeOp',
    'nil opType 41 ref nil cons cons opType constTerm 43 def appTerm 44 def "m0" 41 ref var 45 def varTerm appTerm "_0_0" 35 ref var',
    '"z" 35 ref var varTerm absTerm 43 ref appTerm "a" 41 ref var varTerm appTerm nil cons cons 42 ref 43 ref appTerm 45 ref varTerm',
    'appTerm axiom 46 def pop nil "a" 41 ref var "y" 41 ref var varTerm nil cons cons 45 ref "y" 41 ref var varTerm 47 def nil cons',
    'cons nil cons cons nil cons cons 46 ref subst 48 def pop 6 ref 6 ref trans 49 def pop 40 ref nil 17 ref "d7" const 14 ref',
    'constTerm appTerm 50 def 37 ref appTerm thm 46 ref "p" 14 ref var "k_1" const 41 ref constTerm absTerm "p" 14 ref var varTerm',
    'appTerm 44 ref "a" 41 ref var varTerm 51 def appTerm "ns.v" 15 ref var varTerm 52 def "d7" const "d3" typeOp nil opType',
    'constTerm appTerm 44 ref 45 ref varTerm appTerm nil cons cons cons cons 42 ref 43 ref appTerm 45 ref varTerm appTerm thm 48 ref',
    '42 ref 43 ref appTerm "y" 41 ref var varTerm appTerm nil cons "a" 35 ref var "z" 35 ref var 53 def varTerm absTerm 43 ref',
    'appTerm 47 ref appTerm thm 49 ref "=" "->" typeOp 1 ref "bool" typeOp nil opType nil cons cons opType 54 def var varTerm "=" 1',
    'ref var varTerm appTerm 55 def "r" 41 ref var varTerm nil cons cons "=" const "->" typeOp "->" typeOp "->" typeOp 3 ref 41 ref',
    'nil cons cons opType "A" varType nil cons cons opType 56 def "->" typeOp 56 ref 41 ref nil cons cons opType nil cons cons opType',
    'constTerm 57 def "w13" 4 ref var 2 ref varTerm 58 def "=" "b" varType var 59 def "f" "->" typeOp 4 ref 0 ref nil cons cons',
    'opType var varTerm "w13" 4 ref var 60 def varTerm appTerm absTerm appTerm 61 def absTerm 62 def appTerm 62 ref appTerm thm',
]
out = [
    { commands = '6 version "q" "->" typeOp "->" typeOp "b" varType 0 def "ns.t" varType 1 def nil cons cons opType 2 def "A" varType 3 def nil' },
    { commands = 'cons cons opType 4 def var varTerm 5 def "_1_0" 0 ref var "f" "->" typeOp "->" typeOp "bool" varType 6 def "bool" typeOp nil' },
    { commands = 'opType 7 def nil cons cons opType 8 def 1 ref nil cons cons opType 9 def var varTerm 10 def "p" 8 ref var varTerm 11 def appTerm' },
    { commands = '12 def absTerm 13 def appTerm 14 def refl 15 def pop "p" 8 ref var 15 ref absThm 16 def pop nil "_1_0" 7 ref var "_1_0" 7 ref' },
    { commands = 'var varTerm absTerm 17 def "_0_0" 7 ref var varTerm 18 def appTerm 19 def axiom 20 def pop "d3" "Data.k" "d4" nil 20 ref' },
    { commands = 'defineTypeOp 21 def pop 22 def pop pop pop pop "=" 7 ref var varTerm 23 def assume 24 def pop "d7" "_1_0" "pair" typeOp nil' },
    { commands = 'opType 25 def var "é" const "d3" typeOp nil opType 26 def constTerm 27 def absTerm 28 def "é" const "->" typeOp "->" typeOp 7' },
    { commands = 'ref 7 ref nil cons cons opType 29 def 25 ref nil cons cons opType 30 def constTerm 31 def "a\.b" const 29 ref constTerm 32 def' },
    { commands = 'appTerm 33 def appTerm 34 def defineConst 35 def pop pop nil nil nil cons cons 35 ref subst 36 def pop 24 ref 23 ref nil cons 23' },
    { commands = 'ref thm "_1_0" 29 ref var "z" 29 ref var varTerm 37 def absTerm 38 def "inp" const 29 ref constTerm 39 def appTerm 40 def "m0" 7' },
    { commands = 'ref var varTerm 41 def appTerm 42 def 40 ref "a" 7 ref var varTerm 43 def appTerm 44 def nil cons cons 42 ref axiom 45 def pop' },
    { commands = 'nil "a" 7 ref var "y" 7 ref var varTerm 46 def nil cons cons "m0" 7 ref var 46 ref nil cons cons nil cons cons nil cons cons 45' },
    { commands = 'ref subst 47 def pop 16 ref 16 ref trans 48 def pop 36 ref nil "=" const "->" typeOp 26 ref "->" typeOp 26 ref 7 ref nil cons' },
    { commands = 'cons opType 49 def nil cons cons opType 50 def constTerm 51 def "d7" const 26 ref constTerm 52 def appTerm 53 def 34 ref appTerm' },
    { commands = '54 def thm 45 ref "_1_0" 26 ref var "k_1" const 7 ref constTerm 55 def absTerm 56 def "p" 26 ref var varTerm 57 def appTerm 58' },
    { commands = 'def 44 ref "ns.v" 49 ref var varTerm 59 def 52 ref appTerm 60 def 42 ref nil cons cons cons cons 42 ref thm 47 ref 40 ref 46 ref' },
    { commands = 'appTerm 61 def nil cons 61 ref thm 48 ref "=" "->" typeOp 2 ref 7 ref nil cons cons opType 62 def var varTerm 63 def "=" 2 ref' },
    { commands = 'var varTerm 64 def appTerm 65 def "r" 7 ref var varTerm 66 def nil cons cons "=" const "->" typeOp "->" typeOp 8 ref 3 ref nil' },
    { commands = 'cons cons opType 67 def "->" typeOp 67 ref 7 ref nil cons cons opType 68 def nil cons cons opType 69 def constTerm 70 def "_1_0"' },
    { commands = '8 ref var 5 ref "_1_1" 0 ref var 10 ref "_1_0" 8 ref var varTerm appTerm absTerm appTerm absTerm 71 def appTerm 72 def 71 ref' },
    { commands = 'appTerm 73 def thm' },
]

[[test]]
name = "two_articles_are_joined"
begun = ["a", "b"]

[[test.case]]
words = ["bridge", "article", "a", "b"]
article.a = [
    '6 version nil "=" const "->" typeOp "bool" typeOp nil opType "->" typeOp "bool" typeOp nil opType "bool" typeOp nil opType nil',
    'cons cons opType nil cons cons opType constTerm 0 def "r" "bool" typeOp nil opType 1 def var varTerm appTerm 2 def "=" const',
    '"->" typeOp "pair" typeOp "ns.t" varType nil cons opType 3 def "->" typeOp 3 ref 1 ref nil cons cons opType 4 def nil cons cons',
    'opType 5 def constTerm "_0_0" "->" typeOp "->" typeOp 1 ref "bool" typeOp nil opType nil cons cons opType 6 def 3 ref nil cons',
    'cons opType 7 def var varTerm "f" 6 ref var varTerm appTerm appTerm "=" "->" typeOp "->" typeOp "ns.t" varType "bool" varType',
    'nil cons cons opType 3 ref nil cons cons opType 8 def var 9 def varTerm 10 def "f" "->" typeOp "ns.t" varType 11 def "bool"',
    'varType nil cons cons opType var varTerm 12 def appTerm 13 def appTerm appTerm axiom 14 def pop "r" "bool" typeOp nil opType var',
    'varTerm assume 15 def pop 14 ref 15 ref eqMp 16 def pop "=" const "->" typeOp 6 ref "->" typeOp 6 ref 1 ref nil cons cons opType',
    '17 def nil cons cons opType 18 def constTerm "r" 6 ref var 19 def varTerm appTerm "_0_0" 6 ref var "r" 1 ref var "r" 1 ref var',
    'varTerm absTerm 20 def absTerm 21 def 20 ref appTerm appTerm "=" const 18 ref constTerm "p" 6 ref var 22 def varTerm appTerm 23',
    'def "q" 1 ref var "" const "->" typeOp 1 ref 6 ref nil cons cons opType 24 def constTerm 25 def "A0" const 1 ref constTerm',
    'appTerm absTerm "k_1" const 1 ref constTerm appTerm appTerm 26 def nil cons cons "=" const 18 ref constTerm "p" 6 ref var "y"',
    '"select" typeOp nil opType 27 def var "a\.b" const 6 ref constTerm absTerm "bool" const 27 ref constTerm appTerm absTerm 28 def',
    '19 ref varTerm appTerm appTerm "x" "=" typeOp "ind" typeOp nil opType 29 def "bool" typeOp nil opType 1 ref nil cons cons cons',
    'opType 30 def var 20 ref absTerm "a..b" const 30 ref constTerm 31 def appTerm appTerm axiom 32 def pop "d7" 22 ref nil cons cons',
    '"d8" 19 ref nil cons cons nil cons cons 32 ref defineConstList 33 def pop pop 33 ref nil "=" const "->" typeOp 6 ref 17 ref nil',
    'cons cons opType constTerm 34 def 28 ref "d8" const 6 ref constTerm appTerm 35 def appTerm "x" 30 ref var 20 ref absTerm 36 def',
    '31 ref appTerm appTerm thm',
]
article.b = [
    '"=" const "->" typeOp "bool" typeOp nil opType "->" typeOp "bool" typeOp nil opType "bool" typeOp nil opType nil cons cons',
    'opType nil cons cons opType 0 def constTerm "a" "->" typeOp "->" typeOp "bool" typeOp nil opType "bool" varType nil cons cons',
    'opType "bool" typeOp nil opType 1 def nil cons cons opType var varTerm "z" "->" typeOp 1 ref "bool" varType nil cons cons opType',
    '2 def var varTerm 3 def appTerm 4 def appTerm 5 def "x" "->" typeOp "a" varType 1 ref nil cons cons opType 6 def var varTerm "="',
    '"a" varType 7 def var varTerm appTerm 8 def appTerm "=" const 0 ref constTerm 9 def "m2" "->" typeOp 2 ref 1 ref nil cons cons',
    'opType var varTerm 3 ref appTerm appTerm 8 ref appTerm nil cons cons "_0_0" "pair" typeOp "b" varType nil cons opType 10 def var',
    '"x" "bool" typeOp nil opType var varTerm 11 def absTerm "z" "->" typeOp 1 ref 10 ref nil cons cons opType 12 def var varTerm 13',
    'def "é" const "bool" typeOp nil opType constTerm appTerm appTerm 14 def axiom 15 def nil "m2" "->" typeOp "->" typeOp 1 ref',
    '"bool" varType nil cons cons opType 1 ref nil cons cons opType 16 def var "a" 16 ref var varTerm nil cons cons nil cons nil cons',
    'cons 15 ref subst 17 def pop 17 ref 5 ref 8 ref appTerm 18 def nil cons 14 ref thm',
]
out = [
    { commands = '"=" const "->" typeOp "->" typeOp "bool" typeOp nil opType 0 def 0 ref nil cons cons opType 1 def "->" typeOp 1 ref 0 ref nil' },
    { commands = 'cons cons opType 2 def nil cons cons opType 3 def constTerm 4 def "r" 1 ref var varTerm 5 def appTerm 6 def "_0_0" 1 ref var' },
    { commands = '"_0_1" 0 ref var "_0_1" 0 ref var varTerm absTerm 7 def absTerm 8 def 7 ref appTerm 9 def appTerm 10 def 4 ref "p" 1 ref var' },
    { commands = 'varTerm 11 def appTerm 12 def "_0_0" 0 ref var "" const "->" typeOp 0 ref 1 ref nil cons cons opType 13 def constTerm 14 def' },
    { commands = '"A0" const 0 ref constTerm 15 def appTerm 16 def absTerm 17 def "k_1" const 0 ref constTerm 18 def appTerm 19 def appTerm 20 def' },
    { commands = 'nil cons cons 4 ref "_0_0" 1 ref var "_0_1" "select" typeOp nil opType 21 def var "a\.b" const 1 ref constTerm 22 def absTerm 23' },
    { commands = 'def "bool" const 21 ref constTerm 24 def appTerm 25 def absTerm 26 def 5 ref appTerm 27 def appTerm 28 def "_0_0" "=" typeOp' },
    { commands = '"ind" typeOp nil opType 29 def 0 ref 0 ref nil cons cons cons opType 30 def var 7 ref absTerm 31 def "a..b" const 30 ref' },
    { commands = 'constTerm 32 def appTerm 33 def appTerm 34 def axiom 35 def pop "d7" "p" 1 ref var nil cons cons "d8" "r" 1 ref var nil cons' },
    { commands = 'cons nil cons cons 35 ref defineConstList 36 def pop pop 36 ref nil 4 ref 26 ref "d8" const 1 ref constTerm 37 def appTerm 38' },
    { commands = 'def appTerm 39 def 33 ref appTerm 40 def thm "=" const 13 ref constTerm 41 def "a" "->" typeOp "->" typeOp 0 ref "bool" varType' },
    { commands = '42 def nil cons cons opType 43 def 0 ref nil cons cons opType 44 def var varTerm 45 def "z" 43 ref var varTerm 46 def appTerm 47' },
    { commands = 'def appTerm 48 def "x" "->" typeOp "a" varType 49 def 0 ref nil cons cons opType 50 def var varTerm 51 def "=" 49 ref var' },
    { commands = 'varTerm 52 def appTerm 53 def appTerm 54 def 41 ref "m2" 44 ref var varTerm 55 def 46 ref appTerm 56 def appTerm 57 def 53 ref' },
    { commands = 'appTerm 58 def nil cons cons "_0_0" "pair" typeOp "b" varType 59 def nil cons opType 60 def var "x" 0 ref var varTerm 61 def' },
    { commands = 'absTerm 62 def "z" "->" typeOp 0 ref 60 ref nil cons cons opType 63 def var varTerm 64 def "é" const 0 ref constTerm 65 def' },
    { commands = 'appTerm 66 def appTerm 67 def axiom 68 def pop nil "m2" 44 ref var 45 ref nil cons cons nil cons nil cons cons 68 ref subst 69' },
    { commands = 'def pop 69 ref 54 ref nil cons 67 ref thm' },
]
"#;

#[test]
fn retold(rt: HostRuntime) {
    assert!(rt; all_hold(&rt, TESTS));
}
