//! Words that are no form of the program.
use bridge_cases::all_hold;

const TESTS: &str = r#"
[usual]
article.a = ["$reflexivity"]
number = 2
begun = []
note = "usage: bridge verify [--share] [--fast] FILE.. | translate [--share] FILE.. | check FILE [--budget N] [--fast] | decode FILE | show FILE.. | trial N | article FILE..\n"

[[test]]
name = "answers_words_of_no_command"
case = [
    { words = [] },
    { words = ["bridge"] },
    { words = ["bridge", "help"] },
    { words = ["bridge", "verify"] },
    { words = ["bridge", "trial", "0"] },
    { words = ["bridge", "article"] },
    { words = ["bridge", "--help"] },
    { words = ["bridge", "-h"] },
    { words = ["bridge", "--version"] },
    { words = ["bridge", "-V"] },
    { words = ["bridge", "help", "check"] },
    { words = ["bridge", "--budget=5", "check", "a"] },
    { words = ["bridge", "--", "decode", "a"] },
    { words = ["bridge", "veri", "a"] },
    { words = ["bridge", "articles", "a"] },
    { words = ["bridge", "artic", "a"] },
    { words = ["bridge", "Article", "a"] },
]

[[test]]
name = "answers_too_few_or_too_many_files"
case = [
    { words = ["bridge", "translate", "-a"] },
    { words = ["bridge", "show"] },
    { words = ["bridge", "show", "a", "-b"] },
    { words = ["bridge", "verify", "a", ""] },
    { words = ["bridge", "decode"] },
    { words = ["bridge", "decode", "a", "b"] },
    { words = ["bridge", "decode", "-a"] },
    { words = ["bridge", "check"] },
    { words = ["bridge", "check", ""] },
    { words = ["bridge", "check", "a", "b"] },
    { words = ["bridge", "verify", "a", "--help"] },
    { words = ["bridge", "verify", "--budget=5", "a"] },
    { words = ["bridge", "verify", "a", "--"] },
    { words = ["bridge", "verify", "--", "a"] },
    { words = ["bridge", "decode", "-"] },
    { words = ["bridge", "trial", "1", "2"] },
    { words = ["bridge", "article", ""] },
    { words = ["bridge", "article", "-a"] },
    { words = ["bridge", "article", "-"] },
    { words = ["bridge", "article", "a", "-b"] },
    { words = ["bridge", "article", "a", "--"] },
    { words = ["bridge", "article", "--", "a"] },
    { words = ["bridge", "article", "a", "--help"] },
]

[[test]]
name = "answers_budgets_that_are_none"
case = [
    { words = ["bridge", "check", "a", "--budget", "0"] },
    { words = ["bridge", "check", "--", "a"] },
    { words = ["bridge", "check", "a", "--budget"] },
    { words = ["bridge", "check", "a", "--budget="] },
    { words = ["bridge", "check", "a", "--budget=01"] },
    { words = ["bridge", "check", "a", "--budget", "+5"] },
    { words = ["bridge", "check", "--budget", "18446744073709551616", "a"] },
    { words = ["bridge", "check", "--budget=5", "a", "--budget=5"] },
    { words = ["bridge", "check", "--budget", "5", "a", "--budget", "5"] },
    { words = ["bridge", "check", "--budget", "--budget=5", "a"] },
    { words = ["bridge", "check", "a", "--budgets", "5"] },
    { words = ["bridge", "check", "a", "--bud=5"] },
    { words = ["bridge", "check", "a", "-b5"] },
    { words = ["bridge", "article", "a", "--budget=5"] },
    { words = ["bridge", "article", "--budget", "5", "a"] },
]

[[test]]
name = "answers_a_fast_check_where_there_is_none"
case = [
    { words = ["bridge", "--fast", "verify", "a"] },
    { words = ["bridge", "--fast", "check", "a"] },
    { words = ["bridge", "verify", "--fast"] },
    { words = ["bridge", "verify", "--fast", "a", "--fast"] },
    { words = ["bridge", "check", "--fast"] },
    { words = ["bridge", "check", "--fast", "a", "--fast"] },
    { words = ["bridge", "check", "a", "--budget", "--fast", "5"] },
    { words = ["bridge", "check", "a", "--fast=true"] },
    { words = ["bridge", "verify", "a", "--fast="] },
    { words = ["bridge", "verify", "a", "--fas"] },
    { words = ["bridge", "translate", "--fast", "a"] },
    { words = ["bridge", "show", "a", "--fast"] },
    { words = ["bridge", "decode", "a", "--fast"] },
    { words = ["bridge", "trial", "1", "--fast"] },
    { words = ["bridge", "article", "--fast", "a"] },
    { words = ["bridge", "article", "a", "--fast"] },
]

[[test]]
name = "answers_shared_abbreviations_where_there_are_none"
case = [
    { words = ["bridge", "--share", "verify", "a"] },
    { words = ["bridge", "--share", "translate", "a"] },
    { words = ["bridge", "verify", "--share"] },
    { words = ["bridge", "translate", "--share"] },
    { words = ["bridge", "verify", "--share", "--fast"] },
    { words = ["bridge", "verify", "--share", "a", "--share"] },
    { words = ["bridge", "translate", "a", "--share", "--share"] },
    { words = ["bridge", "translate", "a", "--share=true"] },
    { words = ["bridge", "verify", "a", "--shar"] },
    { words = ["bridge", "check", "--share", "a"] },
    { words = ["bridge", "show", "a", "--share"] },
    { words = ["bridge", "decode", "a", "--share"] },
    { words = ["bridge", "trial", "1", "--share"] },
    { words = ["bridge", "article", "--share", "a"] },
    { words = ["bridge", "article", "a", "--share"] },
]
"#;

#[test]
fn forms(rt: HostRuntime) {
    assert!(rt; all_hold(&rt, TESTS));
}
