//! Short names: where they are read their trees are meant, of whatever size.
use dk_cases::all_hold;

const TESTS: &str = r#"
[usual]
by = "decode"

[[test]]
name = "a_short_name_is_read_as_its_tree"

[[test.case]]
texts.after = "def X0 : type := arr bool bool. E0 : v0 : term X0 -> proof (eq X0 v0 v0)."
comes = "[] [x0:(bool -> bool)] {} |- (((=:((bool -> bool) -> ((bool -> bool) -> bool))) x0) x0)"

[[test.case]]
texts.after = "def X01 : type := arr bool bool. E0 : v0 : term X01 -> proof (eq X01 v0 v0)."
comes = "none"

[[test.case]]
texts.after = "thm X0 : type := arr bool bool. E0 : v0 : term X0 -> proof (eq X0 v0 v0)."
comes = "none"

[[test.case]]
by = "weigh"
texts.after = "def X0 : type := arr bool bool. def X1 : type := arr X0 X0."
comes = "12 110592 9216, 28 1404928 50176"

[[test.case]]
by = "read"
texts.after = "a : X0. def X0 : type := arr bool bool."
comes = "UnknownName X0 at 4"

[[test]]
name = "a_depth_counts_what_is_read_for_a_short_name"
by = "read"

[[test.case]]
text = ["$prelude", "def X0 : type :=", { times = 262144, part = " bool" }, ". q : X0."]
comes = "def X0, symbol q"

[[test.case]]
text = ["$prelude", "def X0 : type :=", { times = 262144, part = " bool" }, ". q : X0 bool."]
comes = "DkTooDeep at 1310749"

# Each line doubles the tree of the line before.
[[test]]
name = "trees_that_lines_double_are_checked_and_refused_in_few_steps"
texts.after = """
def X0 : type := arr bool bool.
def X1 : type := arr X0 X0.
def X2 : type := arr X1 X1.
def X3 : type := arr X2 X2.
def X4 : type := arr X3 X3.
def X5 : type := arr X4 X4.
def X6 : type := arr X5 X5.
def X7 : type := arr X6 X6.
def X8 : type := arr X7 X7.
def X9 : type := arr X8 X8.
def X10 : type := arr X9 X9.
def X11 : type := arr X10 X10.
def X12 : type := arr X11 X11.
def X13 : type := arr X12 X12.
def X14 : type := arr X13 X13.
def X15 : type := arr X14 X14.
def X16 : type := arr X15 X15.
def X17 : type := arr X16 X16.
def X18 : type := arr X17 X17.
def X19 : type := arr X18 X18.
def X20 : type := arr X19 X19.
def X21 : type := arr X20 X20.
def X22 : type := arr X21 X21.
def X23 : type := arr X22 X22.
def X24 : type := arr X23 X23.
def X25 : type := arr X24 X24.
def X26 : type := arr X25 X25.
def X27 : type := arr X26 X26.
def X28 : type := arr X27 X27.
def X29 : type := arr X28 X28.
def X30 : type := arr X29 X29.
def X31 : type := arr X30 X30.
def X32 : type := arr X31 X31.
def X33 : type := arr X32 X32.
def X34 : type := arr X33 X33.
def X35 : type := arr X34 X34.
def X36 : type := arr X35 X35.
def X37 : type := arr X36 X36.
def X38 : type := arr X37 X37.
def X39 : type := arr X38 X38.
def X40 : type := arr X39 X39.
def X41 : type := arr X40 X40.
def X42 : type := arr X41 X41.
def X43 : type := arr X42 X42.
def X44 : type := arr X43 X43.
def X45 : type := arr X44 X44.
def X46 : type := arr X45 X45.
def X47 : type := arr X46 X46.
def X48 : type := arr X47 X47.
def X49 : type := arr X48 X48.
def X50 : type := arr X49 X49.
def X51 : type := arr X50 X50.
def X52 : type := arr X51 X51.
def X53 : type := arr X52 X52.
def X54 : type := arr X53 X53.
def X55 : type := arr X54 X54.
def X56 : type := arr X55 X55.
def X57 : type := arr X56 X56.
def X58 : type := arr X57 X57.
def X59 : type := arr X58 X58.
def X60 : type := arr X59 X59.
"""

[[test.case]]
by = "check"
budgets = [368, 369]
comes = "Over 0, Yes 0"

[[test.case]]
by = "convert"
text = ["$prelude", "$after", "def l : type := arr X59 X59. def r : type := X60."]
budgets = [1]
comes = "Yes 0"

[[test.case]]
text = ["$prelude", "$after", "E0 : v0 : term X60 -> proof (eq X60 v0 v0)."]
comes = "none"
"#;

#[test]
fn short_names(rt: HostRuntime) {
    assert!(rt; all_hold(&rt, TESTS));
}
