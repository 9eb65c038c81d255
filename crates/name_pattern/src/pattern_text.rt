//! Patterns that are made ready only while they are searched.
ghost use Rattle.std.specs.Prelude.{◌≡◌, ◌≢◌, false, Some, None, IfOk, if◌then◌else◌};
ghost use Rattle.regex_syntax.specs.declared.error.ErrorKind.TheVariants.{OutOfMemory};
ghost use Rattle.name_pattern.specs.Patterns.{is_readable};

use crate::classes::classes_in;
use crate::pattern::Pattern;
use crate::weight::Weight;
use regex_syntax::{Config, Error, ErrorKind, parse};
use std::alloc::{AllocError, Global};
use std::marker::Model;

// The most bytes of the states of such a pattern.
const MOST_STATE_BYTES: usize = 1 << 20;

/// The text of a pattern. What is made ready of it is kept no longer than it is searched, so that many patterns
/// take the memory of one. Contracts see the text.
#[derive(Drop)]
pub struct PatternText {
    text: String,
}

impl Model for PatternText {
    ghost use Rattle.std.specs.Prelude.{List, ℕ, string_bytes};

    ghost Value = { List ℕ };

    ghost view = { λ p. string_bytes p.text };
}

impl PatternText {
    /// The pattern with this text: `None` exactly where the text is no regular expression, or nests too
    /// deeply.
    pub fn new(alloc: Global, text: &str) -> Result<Option<PatternText>, AllocError>
        ensures { IfOk result
            (λ pattern. pattern ≡ (if is_readable text.now then Some text.now else None)) }
    {
        if !is_read(alloc, text)? {
            return Ok(None);
        }
        let text = String::from_str(alloc, text)?;
        Ok(Some(PatternText { text }))
    }

    /// How many bytes the text has.
    pub fn len(&self) -> usize {
        self.text.len()
    }

    /// How many classes it has, at most.
    pub fn classes(&self) -> usize {
        classes_in(self.text.as_bytes())
    }

    /// What the pattern is made of, for which the text is read.
    pub fn weight(&self, alloc: Global) -> Result<Weight, AllocError> {
        match parse(alloc, self.text.as_str(), &Config::default()) {
            Ok(parsed) => return Ok(Weight::of(&parsed.hir)),
            Err(_) => return Err(AllocError),
        }
    }

    /// The pattern, which may be searched. Its states have at most 1 MiB: else that is want of memory.
    pub fn pattern(&self, alloc: Global) -> Result<Pattern, AllocError>
        ensures { IfOk result (λ pattern. pattern ≡ self.now) }
    {
        match Pattern::of_size(alloc, self.text.as_str(), MOST_STATE_BYTES)? {
            Some(pattern) => return Ok(pattern),
            None => return Err(AllocError),
        }
    }
}

// Whether a text is read as a pattern.
fn is_read(alloc: Global, text: &str) -> Result<bool, AllocError>
    ensures { IfOk result (λ is_read. is_read ≡ is_readable text.now) }
{
    match parse(alloc, text, &Config::default()) {
        Ok(_) => return Ok(true),
        Err(error) => return told(error),
    }
}

// That a text is not read, where that is no want of memory.
fn told(error: Error) -> Result<bool, AllocError>
    ensures { IfOk result (λ is_read. (is_read ≡ false) × (error.kind ≢ OutOfMemory)) }
{
    match error.kind {
        ErrorKind::OutOfMemory => return Err(AllocError),
        _ => return Ok(false),
    }
}
