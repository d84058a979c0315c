//! The greatest depth of a type and of a body.
use dk_cases::all_hold;

const TESTS: &str = r#"
[usual]
by = "read"

[[test]]
name = "the_greatest_depth_of_a_type_or_a_body_is_read_and_no_greater_one"

[[test.case]]
text = ["$prelude", "q :", " bool", { times = 262143, part = " bool" }, "."]
comes = "symbol q"

[[test.case]]
text = ["$prelude", "q :", " bool", { times = 262144, part = " bool" }, "."]
comes = "DkTooDeep at 1310728"

[[test.case]]
text = ["$prelude", "def q :", " bool", { times = 262143, part = " bool" }, ":= bool."]
comes = "def q"

[[test.case]]
text = ["$prelude", "def q :", " bool", { times = 262144, part = " bool" }, ":= bool."]
comes = "DkTooDeep at 1310732"

[[test.case]]
text = ["$prelude", "thm q :", " bool", { times = 262143, part = " bool" }, ":= bool."]
comes = "thm q"

[[test.case]]
text = ["$prelude", "thm q :", " bool", { times = 262144, part = " bool" }, ":= bool."]
comes = "DkTooDeep at 1310732"

[[test.case]]
text = ["$prelude", "def q : type :=", " bool", { times = 262143, part = " bool" }, "."]
comes = "def q"

[[test.case]]
text = ["$prelude", "def q : type :=", " bool", { times = 262144, part = " bool" }, "."]
comes = "DkTooDeep at 1310740"

[[test.case]]
text = ["$prelude", "thm q : type :=", " bool", { times = 262143, part = " bool" }, "."]
comes = "thm q"

[[test.case]]
text = ["$prelude", "thm q : type :=", " bool", { times = 262144, part = " bool" }, "."]
comes = "DkTooDeep at 1310740"

[[test]]
name = "the_greatest_depth_in_parentheses_is_read_and_no_greater_one"

[[test.case]]
text = ["$prelude", "def q : type :=", { times = 262143, part = " bool (" }, " bool", { times = 262143, part = ")" }, "."]
comes = "def q"

[[test.case]]
text = ["$prelude", "def q : type :=", { times = 262144, part = " bool (" }, " bool", { times = 262144, part = ")" }, "."]
comes = "DkTooDeep at 2097172"

[[test.case]]
text = ["$prelude", "def q : type :=", { times = 262142, part = " arr bool (" }, " bool", { times = 262142, part = ")" }, "."]
comes = "def q"

[[test.case]]
text = ["$prelude", "def q : type :=", { times = 262143, part = " arr bool (" }, " bool", { times = 262143, part = ")" }, "."]
comes = "DkTooDeep at 3145736"

[[test]]
name = "feed_answers_that_a_type_or_a_body_is_too_deep"
by = "feed"

[[test.case]]
text = ["$prelude", "q :", " bool", { times = 262144, part = " bool" }, ". more"]
limits = [{ behind = 1310729 }]
comes = "DkTooDeep at 1310728, DkTooDeep at 1310728, DkTooDeep at 1310728"

[[test.case]]
text = ["$prelude", "def q :", " bool", { times = 262144, part = " bool" }, ":= bool."]
limits = [{ behind = 1310734 }]
comes = "DkTooDeep at 1310732, DkTooDeep at 1310732, DkTooDeep at 1310732"

[[test.case]]
text = ["$prelude", "def q :", " bool", { times = 262144, part = " bool" }, ":= bool."]
limits = [{ behind = 1310733 }]
comes = "DkTooLong at 1310733, DkTooLong at 1310733, DkTooLong at 1310733"

[[test.case]]
text = ["$prelude", "thm q : type :=", " bool", { times = 262144, part = " bool" }, ". more"]
limits = [{ behind = 1310741 }]
comes = "DkTooDeep at 1310740, DkTooDeep at 1310740, DkTooDeep at 1310740"
"#;

#[test]
fn depths(rt: HostRuntime) {
    assert!(rt; all_hold(&rt, TESTS));
}
