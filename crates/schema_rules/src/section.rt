//! Sections, and what a line adds to them.
ghost use Rattle.std.specs.Prelude.{◌≡◌, ◌≤◌, ◌<◌, ◌+◌, ◌-◌, Some, None, List, ℕ, IfOk, drop, length, option_copied, option_map, position, if◌then◌else◌, slice_get, slice_index};
ghost use Rattle.std.specs.Str.{str_eq_ignore_ascii_case};
ghost use Rattle.rule_lines.specs.TextLines.{is_blank, without_first_blanks};
ghost use Rattle.schema_rules.specs.RuleLines.{is_bracket, is_header, is_separator, setting_of};

use rule_lines::{is_blank, is_passed_over, text_in, without_first_blanks, without_last_blanks};
use std::alloc::{AllocError, Global};
use std::marker::Model;

/// The values of a section's keys that count. A pattern and retentions without bytes stand for none.
#[derive(Drop)]
pub(crate) struct Section<'a> {
    pattern: &'a str,
    retentions: &'a [u8],
    factor: Option<&'a [u8]>,
    method: Option<&'a [u8]>,
}

impl<'a> Model for Section<'a> {
    ghost use Rattle.std.specs.Prelude.{option_copied};
    ghost use Rattle.schema_rules.specs.RuleLines.{SectionValue};

    ghost Value = { SectionValue };

    ghost view = { λ s. record {
      pattern = s.pattern.now;
      retentions = s.retentions.now;
      factor = option_copied s.factor;
      method = option_copied s.method;
    } };
}

impl<'a> Section<'a> {
    ghost use Rattle.schema_rules.specs.RuleLines.{new_section, with_value};

    /// The pattern.
    pub(crate) fn pattern(&self) -> &'a str
        ensures { result.now ≡ self.now.pattern }
    {
        self.pattern
    }

    /// The retentions.
    pub(crate) fn retentions(&self) -> &'a [u8]
        ensures { result.now ≡ self.now.retentions }
    {
        self.retentions
    }

    /// The value of `xFilesFactor`, if the section has the key.
    pub(crate) fn factor(&self) -> Option<&'a [u8]>
        ensures { option_copied result ≡ self.now.factor }
    {
        self.factor
    }

    /// The value of `aggregationMethod`, if the section has the key.
    pub(crate) fn method(&self) -> Option<&'a [u8]>
        ensures { option_copied result ≡ self.now.method }
    {
        self.method
    }

    // A section without keys.
    fn new() -> Section<'a>
        ensures { result ≡ new_section }
    {
        Section {
            pattern: "",
            retentions: b"",
            factor: None,
            method: None,
        }
    }

    // Sets a key's value, if the key counts.
    #[tactic(auto, unfolding(crate::specs::RuleLines::with_value))]
    fn set(&mut self, key: &[u8], value: &'a str)
        ensures { self.new ≡ with_value self.old key.now value.now }
    {
        if is_key(key, b"pattern") {
            self.pattern = value;
        } else if is_key(key, b"retentions") {
            self.retentions = value.as_bytes();
        } else if is_key(key, b"xfilesfactor") {
            self.factor = Some(value.as_bytes());
        } else if is_key(key, b"aggregationmethod") {
            self.method = Some(value.as_bytes());
        }
    }
}

/// Sections in the order of their file. Contracts see the list of them.
#[derive(Drop)]
pub(crate) struct Sections<'a> {
    items: Vec<Section<'a>>,
}

impl<'a> Model for Sections<'a> {
    ghost use Rattle.std.specs.Prelude.{List};
    ghost use Rattle.schema_rules.specs.RuleLines.{SectionValue};

    ghost Value = { List SectionValue };

    ghost view = { λ s. s.items.items };
}

impl<'a> Sections<'a> {
    ghost use Rattle.std.specs.Prelude.{[]};
    ghost use Rattle.schema_rules.specs.RuleLines.{after_line, new_section, with_setting};

    /// No sections.
    pub(crate) fn new(alloc: Global) -> Sections<'a>
        ensures { result ≡ [] }
    {
        Sections {
            items: Vec::new(alloc),
        }
    }

    /// The sections as a slice.
    pub(crate) fn as_slice(&self) -> &[Section<'a>]
        ensures { result.now ≡ self.now }
    {
        self.items.as_slice()
    }

    /// Adds what a line says, from which the blanks at its end were dropped: `false` exactly where the line
    /// cannot stand there.
    #[tactic(auto, unfolding(crate::specs::RuleLines::after_line))]
    pub(crate) fn take_line(&mut self, line: &'a [u8]) -> Result<bool, AllocError>
        ensures sections { IfOk result
            (λ fits. (if fits then Some self.new else None) ≡ after_line self.old line.now) }
        ensures few { IfOk result (λ _. length self.new ≤ length self.old + 1) }
    {
        let Some(text) = text_in(line) else {
            return Ok(false);
        };
        if is_passed_over(line) {
            return Ok(true);
        }
        if begins_with_blank(line) {
            return Ok(false);
        }
        if is_header(line) {
            self.items.push(Section::new())?;
            return Ok(true);
        }
        match setting_of(text) {
            Some((key, value)) => return Ok(self.set_in_last(key, value)),
            None => return Ok(false),
        }
    }

    // Sets a key's value in the last section: `false` exactly where there is none.
    #[tactic(auto, unfolding(crate::specs::RuleLines::with_setting))]
    fn set_in_last(&mut self, key: &[u8], value: &'a str) -> bool
        ensures sections { (if result then Some self.new else None)
            ≡ with_setting self.old (key.now, value.now) }
        ensures count { length self.new ≡ length self.old }
    {
        if self.items.is_empty() {
            return false;
        }
        let last = self.items.len() - 1;
        self.items[last].set(key, value);
        true
    }
}

// Whether a key is this word, in capitals or not.
fn is_key(key: &[u8], word: &[u8]) -> bool
    ensures { result ≡ str_eq_ignore_ascii_case key.now word.now }
{
    key.eq_ignore_ascii_case(word)
}

fn begins_with_blank(line: &[u8]) -> bool
    ensures { result ≡ is_blank (slice_index line.now 0) }
{
    !line.is_empty() && is_blank(line[0])
}

// Whether a line is `[name]`.
#[tactic(auto, unfolding(crate::specs::RuleLines::is_header))]
fn is_header(line: &[u8]) -> bool
    ensures { result ≡ is_header line.now }
{
    if line.is_empty() || line[0] != b'[' {
        return false;
    }
    match bracket_in(line) {
        Some(at) => at != 1 && at + 1 == line.len(),
        None => false,
    }
}

fn bracket_in(line: &[u8]) -> Option<usize>
    ensures { result ≡ position is_bracket line.now }
{
    line.iter().position(|b| *b == b']')
}

// The key and the value of a line.
#[tactic(auto, unfolding(crate::specs::RuleLines::setting_of))]
fn setting_of(line: &str) -> Option<(&[u8], &str)>
    ensures { option_map (λ setting. (setting.0.now, setting.1.now)) result ≡ setting_of line.now }
{
    let at = separator_in(line.as_bytes())?;
    let key = without_last_blanks(&line.as_bytes()[..at]);
    if key.is_empty() {
        return None;
    }
    Some((key, value_behind(line, at)))
}

fn separator_in(line: &[u8]) -> Option<usize>
    ensures { result ≡ position is_separator line.now }
{
    line.iter().position(|b| *b == b'=' || *b == b':')
}

// The value that stands behind a separator of a line, without the blanks at its front.
fn value_behind(line: &str, at: usize) -> &str
    requires place { at < length line.now }
    requires ascii { slice_index line.now at < 128 }
    ensures { result.now ≡ without_first_blanks (drop (at + 1) line.now) }
{
    let value = without_first_blanks(&line.as_bytes()[at + 1..]);
    match str::from_utf8(value) {
        Ok(value) => value,
        Err(_) => unreachable!(),
    }
}
