//! Trials with generated articles: their six lines, and words that ask for none.
use bridge_cases::all_hold;

const TESTS: &str = r#"
[usual]
article.a = []
article.b = []
begun = []

[[test]]
name = "trial_of_two_blocks"

[[test.case]]
words = ["bridge", "trial", "2"]
out = '''
articles 1
assumptions 0
exports 1
declarations 16
bounds 21639702528
verified
'''

[[test]]
name = "no_number_of_blocks"
number = 2
note = "usage: bridge verify [--share] [--fast] FILE.. | translate [--share] FILE.. | check FILE [--budget N] [--fast] | decode FILE | show FILE.. | trial N | article FILE..\n"
case = [
    { words = ["bridge", "trial", "0"] },
    { words = ["bridge", "trial", "007"] },
    { words = ["bridge", "trial", "100001"] },
    { words = ["bridge", "trial", "+2"] },
    { words = ["bridge", "trial", "-2"] },
    { words = ["bridge", "trial", "2 "] },
    { words = ["bridge", "trial", ""] },
    { words = ["bridge", "trial", "184467440737095516162"] },
    { words = ["bridge", "trial"] },
    { words = ["bridge", "trial", "1", "2"] },
]

[[test]]
name = "output_that_fails_at_a_trial"
pieces = [4096]

[[test.case]]
words = ["bridge", "trial", "1"]
out_fails = [1]
number = 4
note = "write fault\n"
"#;

#[test]
fn trials(rt: HostRuntime) {
    assert!(rt; all_hold(&rt, TESTS));
}
