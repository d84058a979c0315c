//! Where an article is refused, and for which kind; and faults of the outside.
use bridge_cases::all_hold;

const TESTS: &str = r#"
# Nothing is written.
[usual]
words = ["bridge", "show", "a"]

[[test]]
name = "tells_where_version_may_not_stand"

[[test.case]]
text.a = "version\n"
number = 1
note = "article 1 line 1: VersionPlace (5)\n"

[[test.case]]
text.a = "5\nversion\n"
number = 1
note = "article 1 line 2: VersionPlace (5)\n"

[[test.case]]
text.a = "6\nnil\nversion\n"
number = 1
note = "article 1 line 3: VersionPlace (5)\n"

[[test.case]]
text.a = "6\nversion\n6\nversion\n"
number = 1
note = "article 1 line 4: VersionPlace (5)\n"

[[test]]
name = "tells_each_kind_of_a_line"

[[test.case]]
article.a = ["$version", "-"]
number = 1
note = "article 1 line 3: BadLine (1)\n"

[[test.case]]
article.a = ["$version", "9223372036854775808"]
number = 1
note = "article 1 line 3: NumberRange (21)\n"

[[test.case]]
article.a = ["$version", "ref"]
number = 1
note = "article 1 line 3: StackShort (2)\n"

[[test.case]]
article.a = ["$version", "nil ref"]
number = 1
note = "article 1 line 4: WrongKind (3)\n"

[[test.case]]
article.a = ["$version", "7 ref"]
number = 1
note = "article 1 line 4: NoSuchKey (4)\n"

[[test.case]]
article.a = ["$version", "nil hdTl"]
number = 1
note = "article 1 line 4: EmptyList (27)\n"

[[test]]
name = "tells_each_kind_of_a_term"

[[test.case]]
article.a = ["$version", '"x" "ind" typeOp nil opType var varTerm assume']
number = 1
note = "article 1 line 10: NotBool (6)\n"

[[test.case]]
article.a = ["$version", "$p", "$p", "appTerm"]
number = 1
note = "article 1 line 17: TypeMismatch (7)\n"

[[test.case]]
article.a = ["$version", "$p", "betaConv"]
number = 1
note = "article 1 line 10: NotRedex (11)\n"

[[test.case]]
article.a = ["$version", '"->" typeOp nil opType']
number = 1
note = "article 1 line 6: BadArity (12)\n"

[[test.case]]
article.a = ["$version", '"=" const "bool" typeOp nil opType constTerm']
number = 1
note = "article 1 line 9: BadConstType (13)\n"

[[test]]
name = "tells_each_kind_of_a_theorem"

[[test.case]]
article.a = ["$version", "$p", "assume sym"]
number = 1
note = "article 1 line 11: NotEquation (8)\n"

[[test.case]]
article.a = ["$version", "$p", "refl", "$q", "assume eqMp"]
number = 1
note = "article 1 line 19: NotAlike (9)\n"

[[test.case]]
article.a = ["$version", "$var_q", '"=" const', "$binary_type", "constTerm", "$q", "appTerm", "$q", "appTerm assume absThm"]
number = 1
note = "article 1 line 53: VarInHyps (10)\n"

[[test.case]]
article.a = [
    "$version", "nil", "$var_p", '"y" "ind" typeOp nil opType var varTerm nil cons cons nil cons nil cons cons', "$p",
    "assume subst",
]
number = 1
note = "article 1 line 33: BadSubst (19)\n"

[[test.case]]
article.a = ["$version", "$q", "$r", "nil cons cons", "$p", "axiom", "$q", "nil cons", "$p", "thm"]
number = 1
note = "article 1 line 44: NotTheSequent (20)\n"

[[test]]
name = "tells_a_fault_of_the_shelf"
pieces = [4096]
article.a = ["$reflexivity"]
number = 3
note = "read fault\n"
case = [
    { words = ["bridge", "show", "a", "b"], shelf_fails = [2], begun = ["a"] },
    { words = ["bridge", "show", "b"], begun = ["b"] },
    { words = ["bridge", "show", "a", "b"], begun = ["a", "b"] },
]

[[test]]
name = "tells_a_fault_of_a_sink"
pieces = [4096]
article.a = ["$reflexivity"]
number = 4
case = [
    { words = ["bridge", "show", "a"], out_fails = [1], note = "write fault\n" },
    { words = ["bridge", "show", "b"], note_fails = [1] },
]
"#;

#[test]
fn refusals(rt: HostRuntime) {
    assert!(rt; all_hold(&rt, TESTS));
}
