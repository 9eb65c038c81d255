//! Patterns, which are searched in names.
ghost use Rattle.std.specs.Prelude.{◌≡◌, ◌+◌, ◌≤◌, Some, None, IfOk, IfErr, string_bytes, if◌then◌else◌};
ghost use Rattle.regex.specs.Failures.{IsRightKind};
ghost use Rattle.regex.specs.Sources.{IsRefusal};
ghost use Rattle.regex.specs.Strings.{regex_source, regex_config, regex_size, IsReadFromSource};
ghost use Rattle.regex_syntax.specs.Verdict.{default_config};
ghost use Rattle.name_pattern.specs.Patterns.{is_found, is_readable};
ghost use Rattle.name_pattern.specs.Substitution.{substituted};

use crate::match_count::MatchCount;
use crate::substitution::counted;
use regex::{Error, Matcher, Regex, RegexBuilder};
use std::alloc::{AllocError, Global};
use std::marker::Model;

/// The most bytes of the states of a pattern.
pub(crate) const MOST_STATE_BYTES: usize = 10 << 20;

/// A compiled regular expression. Contracts see its text.
#[derive(Drop)]
pub struct Pattern {
    regex: Regex,
}

impl Model for Pattern {
    ghost use Rattle.std.specs.Prelude.{◌≡◌, List, ℕ};
    ghost use Rattle.regex_syntax.specs.Verdict.{default_config};
    ghost use Rattle.regex.specs.Strings.{regex_source, regex_config, IsReadFromSource};

    ghost Value = { List ℕ };

    ghost view = { λ p. regex_source p.regex };

    ghost invariant = { λ p. IsReadFromSource p.regex × (regex_config p.regex ≡ default_config) };
}

impl Pattern {
    /// The pattern with this text: `None` exactly where the text is no regular expression, or nests too
    /// deeply.
    pub fn new(alloc: Global, text: &str) -> Result<Option<Pattern>, AllocError>
        ensures { IfOk result
            (λ pattern. pattern ≡ (if is_readable text.now then Some text.now else None)) }
    {
        Pattern::of_size(alloc, text, MOST_STATE_BYTES)
    }

    /// The same, where its states may have so many bytes.
    pub(crate) fn of_size(
        alloc: Global,
        text: &str,
        most: usize,
    ) -> Result<Option<Pattern>, AllocError>
        ensures { IfOk result
            (λ pattern. pattern ≡ (if is_readable text.now then Some text.now else None)) }
    {
        match compiled(alloc, text, most) {
            Ok(regex) => return Ok(Some(Pattern { regex })),
            Err(Error::Syntax(_)) => return Ok(None),
            Err(_) => return Err(AllocError),
        }
    }

    /// The pattern made ready to be searched in names.
    pub fn search(&self, alloc: Global) -> Result<Search<'_>, AllocError>
        ensures { IfOk result (λ search. search ≡ self.now) }
    {
        let matcher = self.regex.matcher(alloc)?;
        Ok(Search {
            pattern: self,
            matcher,
        })
    }
}

// The pattern with this text, whose states have at most so many bytes.
fn compiled(alloc: Global, text: &str, most: usize) -> Result<Regex, Error>
    ensures source { IfOk result (λ regex. regex_source regex ≡ text.now) }
    ensures config { IfOk result (λ regex. regex_config regex ≡ default_config) }
    ensures read { IfOk result IsReadFromSource }
    ensures by_grammar { IfErr result (IsRefusal default_config text.now) }
    ensures kind { IfErr result (IsRightKind default_config text.now) }
    ensures small { IfOk result (λ regex. regex_size regex ≤ most + 24) }
{
    RegexBuilder::new(text).size_limit(most).build(alloc)
}

/// A pattern that is ready to be searched in names. Whether it is found takes no memory that it could want.
/// Contracts see the pattern's text.
#[derive(Drop)]
pub struct Search<'r> {
    pattern: &'r Pattern,
    matcher: Matcher<'r>,
}

impl<'r> Model for Search<'r> {
    ghost use Rattle.std.specs.Prelude.{List, ℕ};
    ghost use Rattle.regex.specs.Strings.{matcher_pattern};
    ghost use Rattle.name_pattern.specs.Patterns.{SearchesFor};

    ghost Value = { List ℕ };

    ghost view = { λ s. s.pattern.now };

    ghost invariant = { λ s. SearchesFor s.pattern.now (matcher_pattern s.matcher) };
}

impl<'r> Search<'r> {
    /// Whether the pattern is found in a name.
    pub fn is_found(&mut self, name: &str) -> bool
        ensures found { result ≡ is_found self.old name.now }
        ensures same { self.new ≡ self.old }
    {
        self.matcher.is_match(name)
    }

    /// A name in which each match is replaced, of which each is taken from a count. In the replacement `\1` to `\9` are what the groups
    /// matched.
    pub fn substituted(
        &mut self,
        alloc: Global,
        name: &str,
        replacement: &str,
        matches: &MatchCount,
    ) -> Result<String, AllocError>
        ensures value { IfOk result (λ new.
            string_bytes new ≡ substituted self.old replacement.now name.now) }
        ensures same { self.new ≡ self.old }
    {
        let new = self.matcher.replace_all_with(
            alloc,
            name,
            |captures| counted(alloc, captures, replacement, matches),
        )?;
        Ok(new)
    }
}
