// What is made ready of the patterns of questions.
use name_pattern::PatternText;
use std::alloc::Global;
use std::process::Abort;
use std::test::Fail;

// Whether a pattern of a question is made ready.
fn is_ready(alloc: Global, text: &str) -> Result<bool, Fail> {
    match PatternText::new(alloc, text)? {
        Some(text) => Ok(text.pattern(alloc).is_ok()),
        None => Ok(false),
    }
}

#[test]
fn a_pattern_of_a_question_has_at_most_a_mebibyte_of_states(rt: HostRuntime) -> Result<(), Fail> {
    for (text, wanted) in [(r"^web\w{20}$", true), (r"\w{200}", false), ("(", false)] {
        assert!(rt; is_ready(rt.alloc(), text)? == wanted);
    }
    Ok(())
}
