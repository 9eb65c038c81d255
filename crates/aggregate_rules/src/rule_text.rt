//! The text of a rule.
ghost use Rattle.std.specs.Prelude.{◌≡◌, IfOk};
ghost use Rattle.aggregate_rules.specs.RuleTexts.{rule_of, rule_of_words};
ghost use Rattle.aggregate_rules.specs.SeenWords.{seen_words};

use crate::output_text::output_of;
use crate::pattern::pattern_of;
use crate::rule::Rule;
use crate::words::{LineWords, is_equals, method_of, seconds_of, words_of};
use std::alloc::{AllocError, Global};

/// The rule that a line says: `None` exactly where it says none.
#[tactic(auto, unfolding(crate::specs::RuleTexts::rule_of))]
pub(crate) fn rule_of(alloc: Global, line: &[u8]) -> Result<Option<Rule>, AllocError>
    ensures { IfOk result (λ rule. rule ≡ rule_of line.now) }
{
    match words_of(line) {
        Some(words) => return rule_of_words(alloc, words),
        None => return Ok(None),
    }
}

#[tactic(auto, unfolding(crate::specs::RuleTexts::rule_of_words))]
fn rule_of_words(alloc: Global, words: LineWords<'_>) -> Result<Option<Rule>, AllocError>
    ensures { IfOk result (λ rule. rule ≡ rule_of_words (seen_words words.entry)) }
{
    if !is_equals(words.equals) {
        return Ok(None);
    }
    let Some(seconds) = seconds_of(words.seconds) else {
        return Ok(None);
    };
    let Some(method) = method_of(words.method) else {
        return Ok(None);
    };
    let Some(pattern) = pattern_of(alloc, words.pattern)? else {
        return Ok(None);
    };
    let Some(output) = output_of(alloc, pattern.names(), words.output)? else {
        return Ok(None);
    };
    Ok(Some(Rule::new(output, seconds, method, pattern.into_nodes())))
}
