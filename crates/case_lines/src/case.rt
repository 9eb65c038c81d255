//! One case, and its words.

use crate::escapes::unescaped;
use crate::fault::CaseFault;
use crate::readings::{read_number, read_small, read_text};
use crate::told::Told;
use std::alloc::Global;

/// One case.
#[derive(Drop)]
pub struct Case {
    verb: String,
    words: Vec<Vec<u8>>,
    wanted: Vec<u8>,
}

/// The case that a line says.
pub fn read_case(alloc: Global, line: &str) -> Result<Case, CaseFault> {
    let (call, wanted) = match line.split_once(" => ") {
        Some(parts) => parts,
        None => match line.strip_suffix(" =>") {
            Some(call) => (call, ""),
            None => return Err(CaseFault::Malformed),
        },
    };
    let (verb, words) = call.split_once(' ').unwrap_or((call, ""));
    Ok(Case {
        verb: String::from_str(alloc, verb)?,
        words: words_of(alloc, words)?,
        wanted: unescaped(alloc, wanted)?,
    })
}

// What the words of a text say.
fn words_of(alloc: Global, text: &str) -> Result<Vec<Vec<u8>>, CaseFault> {
    let mut words = Vec::new(alloc);
    if text.is_empty() {
        return Ok(words);
    }
    for word in text.split(' ') {
        words.push(unescaped(alloc, word)?)?;
    }
    Ok(words)
}

impl Case {
    /// The name of the call.
    pub fn verb(&self) -> &str {
        self.verb.as_str()
    }

    /// The text that it has to tell.
    pub fn wanted(&self) -> &[u8] {
        self.wanted.as_slice()
    }

    /// The number of its words.
    pub fn len(&self) -> usize {
        self.words.len()
    }

    /// The words from a place on.
    pub fn rest(&self, at: usize) -> &[Vec<u8>] {
        self.words.get(at..).unwrap_or(&[])
    }

    /// The bytes of the word at a place, from 0 on; none where there is no such word.
    pub fn bytes_at(&self, at: usize, told: &mut Told) -> &[u8] {
        let Some(word) = self.words.get(at) else {
            told.malformed();
            return b"";
        };
        word.as_slice()
    }

    /// That word as UTF-8.
    pub fn text_at(&self, at: usize, told: &mut Told) -> &str {
        read_text(self.bytes_at(at, told), told)
    }

    /// That word as a number.
    pub fn number_at(&self, at: usize, told: &mut Told) -> u64 {
        read_number(self.text_at(at, told), told)
    }

    /// That word as a number of 32 bits.
    pub fn small_at(&self, at: usize, told: &mut Told) -> u32 {
        read_small(self.text_at(at, told), told)
    }
}
