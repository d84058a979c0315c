//! Types of great depth, constants of many type variables, and large hypotheses: what is past a limit stands for no sequent.
use dk_cases::all_hold;

const TESTS: &str = r##"
[usual]
by = "decode"

[[test]]
name = "deep_types_are_refused_at_their_depth"

[[test.case]]
text = [
    "$prelude", "E0 : v0 : term ", "(", { times = 100, part = "arr bool (" }, "bool", { times = 100, part = ")" }, ")",
    " -> proof (eq ", "(", { times = 100, part = "arr bool (" }, "bool", { times = 100, part = ")" }, ")", " v0 v0).",
]
comes = [
    "[] [x0:", { times = 100, part = "(bool -> " }, "bool", { times = 100, part = ")" }, "] {} |- ", "(((=:(",
    { times = 100, part = "(bool -> " }, "bool", { times = 100, part = ")" }, " -> (", { times = 100, part = "(bool -> " },
    "bool", { times = 100, part = ")" }, " -> bool))) ", "x0) x0)",
]

[[test.case]]
text = [
    "$prelude", "E0 : v0 : term ", "(", { times = 8188, part = "arr bool (" }, "bool", { times = 8188, part = ")" }, ")",
    " -> proof (eq ", "(", { times = 8188, part = "arr bool (" }, "bool", { times = 8188, part = ")" }, ")", " v0 v0).",
]
comes = [
    "[] [x0:", { times = 8188, part = "(bool -> " }, "bool", { times = 8188, part = ")" }, "] {} |- ", "(((=:(",
    { times = 8188, part = "(bool -> " }, "bool", { times = 8188, part = ")" }, " -> (", { times = 8188, part = "(bool -> " },
    "bool", { times = 8188, part = ")" }, " -> bool))) ", "x0) x0)",
]

[[test.case]]
text = [
    "$prelude", "E0 : v0 : term ", "(", { times = 8189, part = "arr bool (" }, "bool", { times = 8189, part = ")" }, ")",
    " -> proof (eq ", "(", { times = 8189, part = "arr bool (" }, "bool", { times = 8189, part = ")" }, ")", " v0 v0).",
]
comes = "none"

[[test]]
name = "constants_of_many_types_are_decoded_up_to_the_depth"

[[test.case]]
text = [
    "$prelude", "c_k :", { count = 500, part = " v# : type ->" }, " term (", { count = 500, part = "arr v# (" }, "bool",
    { times = 500, part = ")" }, "). E0 : proof (eq ", "(", { times = 500, part = "arr bool (" }, "bool",
    { times = 500, part = ")" }, ")", " (c_k", { times = 500, part = " bool" }, ") (c_k", { times = 500, part = " bool" }, ")).",
]
comes = [
    "[] [] {} |- ", "(((=:(", { times = 500, part = "(bool -> " }, "bool", { times = 500, part = ")" }, " -> (",
    { times = 500, part = "(bool -> " }, "bool", { times = 500, part = ")" }, " -> bool))) ", "(k:",
    { times = 500, part = "(bool -> " }, "bool", { times = 500, part = ")" }, ")", ") ", "(k:",
    { times = 500, part = "(bool -> " }, "bool", { times = 500, part = ")" }, ")", ")",
]

[[test.case]]
text = [
    "$prelude", "c_k :", { count = 8189, part = " v# : type ->" }, " term (", { count = 8189, part = "arr v# (" }, "bool",
    { times = 8189, part = ")" }, "). E0 : proof (eq ", "(", { times = 8189, part = "arr bool (" }, "bool",
    { times = 8189, part = ")" }, ")", " (c_k", { times = 8189, part = " bool" }, ") (c_k", { times = 8189, part = " bool" },
    ")).",
]
comes = "none"
# As many types as a text can have.
[[test]]
name = "a_constant_of_types_that_its_own_lacks_is_none"

[[test.case]]
text = [
    "$prelude", "c_k :", { count = 262142, part = " v# : type ->" }, " term bool. E0 : proof (c_k",
    { times = 262142, part = " bool" }, ").",
]
comes = "none"

# A doubled formula has at least two nodes for one, of which the table has but a few more.
[[test]]
name = "large_hypotheses_are_decoded_up_to_the_size"
by = "decodes"
texts.formulas = """
c_p : term bool.
def X0 : term bool := eq bool c_p c_p.
def X1 : term bool := eq bool X0 X0.
def X2 : term bool := eq bool X1 X1.
def X3 : term bool := eq bool X2 X2.
def X4 : term bool := eq bool X3 X3.
def X5 : term bool := eq bool X4 X4.
def X6 : term bool := eq bool X5 X5.
def X7 : term bool := eq bool X6 X6.
def X8 : term bool := eq bool X7 X7.
def X9 : term bool := eq bool X8 X8.
def X10 : term bool := eq bool X9 X9.
def X11 : term bool := eq bool X10 X10.
def X12 : term bool := eq bool X11 X11.
def X13 : term bool := eq bool X12 X12.
def X14 : term bool := eq bool X13 X13.
def X15 : term bool := eq bool X14 X14.
"""

[[test.case]]
text = [
    "$prelude", "$formulas", "E0 : proof (eq bool (eq bool (eq bool (eq bool c_p c_p) c_p) c_p) X12) -> ",
    "proof (eq bool (eq bool (eq bool c_p c_p) c_p) X12) -> proof (eq bool (eq bool c_p c_p) X12) -> proof c_p.",
]
comes = "some"

[[test.case]]
text = [
    "$prelude", "$formulas", "E0 : proof (eq bool (eq bool (eq bool (eq bool c_p c_p) c_p) c_p) X15) -> ",
    "proof (eq bool (eq bool (eq bool c_p c_p) c_p) X15) -> proof (eq bool (eq bool c_p c_p) X15) -> proof c_p.",
]
comes = "none"

[[test.case]]
text = [
    "$prelude", "$formulas", { count = 3, part = "c_h# : term bool. " }, "E0 : ",
    { count = 3, part = "proof (eq bool c_h# X12) -> " }, "proof c_p.",
]
comes = "some"

[[test.case]]
text = [
    "$prelude", "$formulas", { count = 16000, part = "c_h# : term bool. " }, "E0 : ",
    { count = 16000, part = "proof (eq bool c_h# X15) -> " }, "proof c_p.",
]
comes = "none"
"##;

#[test]
fn hostile(rt: HostRuntime) {
    assert!(rt; all_hold(&rt, TESTS));
}
