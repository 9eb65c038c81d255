//! The text that a case tells.

use crate::fault::CaseFault;
use std::alloc::{AllocError, Global};
use std::fmt::Display;

/// The text that a case tells, and the first fault that was met on the way: of its words, or of the memory.
///
/// What reads a word or writes a piece remembers a fault here and goes on, with a value that stands for the one that is not
/// there. So a call is told without an exit for each of its words, and what was told behind a fault is given to nobody.
#[derive(Drop)]
pub struct Told {
    text: String,
    fault: Option<CaseFault>,
}

impl Told {
    /// No text, and no fault.
    pub fn new(alloc: Global) -> Told {
        Told {
            text: String::new(alloc),
            fault: None,
        }
    }

    /// Whether nothing was told yet.
    pub fn is_empty(&self) -> bool {
        self.text.is_empty()
    }

    /// Remembers a fault where it is the first.
    pub fn fail(&mut self, fault: CaseFault) {
        if self.fault.is_none() {
            self.fault = Some(fault);
        }
    }

    /// The case has none of the forms of its verb.
    pub fn malformed(&mut self) {
        self.fail(CaseFault::Malformed);
    }

    /// Remembers that there was no memory, where a call says so.
    pub fn keep(&mut self, done: Result<(), AllocError>) {
        if done.is_err() {
            self.fail(CaseFault::NoMemory);
        }
    }

    /// Puts a character behind what was told.
    pub fn push(&mut self, letter: char) {
        let done = self.text.push(letter);
        self.keep(done);
    }

    /// Puts a text behind what was told.
    pub fn push_str(&mut self, text: &str) {
        let done = self.text.push_str(text);
        self.keep(done);
    }

    /// Puts a blank behind what was told, but not in front of all.
    pub fn push_blank(&mut self) {
        if !self.text.is_empty() {
            self.push(' ');
        }
    }

    /// What `write!` calls.
    pub fn write_fmt<D: Display + Drop>(&mut self, value: D) {
        let done = self.text.write_fmt(value);
        self.keep(done);
    }

    /// The text, or the first fault.
    pub fn finish(self) -> Result<String, CaseFault> {
        let Told { text, fault } = self;
        match fault {
            None => Ok(text),
            Some(fault) => Err(fault),
        }
    }
}

/// Puts an item behind those of a list.
pub fn push_item<T: Drop>(list: &mut Vec<T>, item: T, told: &mut Told) {
    match list.push(item) {
        Ok(()) => {}
        Err(_) => told.fail(CaseFault::NoMemory),
    }
}

/// What was made, or nothing where a fault stood in the way.
pub fn made<T: Drop>(outcome: Result<T, CaseFault>, told: &mut Told) -> Option<T> {
    match outcome {
        Ok(value) => Some(value),
        Err(fault) => {
            told.fail(fault);
            None
        }
    }
}
