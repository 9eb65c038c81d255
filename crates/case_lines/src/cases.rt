//! The cases in the order of their lines.

use crate::case::{Case, read_case};
use crate::escapes::escaped;
use crate::fault::CaseFault;
use std::alloc::{AllocError, Global};

/// The name of the cases that are read, and how many of each verb there were.
#[derive(Drop)]
pub struct Cases {
    name: String,
    counts: Vec<Count>,
}

// How many cases of a verb there were, and how many of them differed.
#[derive(Drop)]
struct Count {
    verb: String,
    cases: u64,
    differ: u64,
}

impl Cases {
    /// None yet.
    pub fn new(alloc: Global) -> Cases {
        Cases {
            name: String::new(alloc),
            counts: Vec::new(alloc),
        }
    }

    /// The case that a line says. A name is kept for the cases below it; an empty line is none.
    pub fn read(&mut self, alloc: Global, line: &str) -> Result<Option<Case>, CaseFault> {
        if line.is_empty() {
            return Ok(None);
        }
        match line.strip_prefix("# ") {
            Some(name) => {
                self.name = String::from_str(alloc, name)?;
                Ok(None)
            }
            None => Ok(Some(read_case(alloc, line)?)),
        }
    }

    /// Counts a case, and writes what it told where that is not what it had to tell.
    pub fn judge(
        &mut self,
        alloc: Global,
        line: &str,
        case: &Case,
        told: &[u8],
        page: &mut String,
    ) -> Result<(), AllocError> {
        let differs = told != case.wanted();
        self.count(alloc, case.verb(), differs)?;
        if differs {
            self.write_difference(line, told, page)?;
        }
        Ok(())
    }

    fn write_difference(
        &self,
        line: &str,
        told: &[u8],
        page: &mut String,
    ) -> Result<(), AllocError> {
        writeln!(page, "{}: {line}", self.name)?;
        page.push_str("  told ")?;
        escaped(page, told)?;
        page.push('\n')
    }

    fn count(&mut self, alloc: Global, verb: &str, differs: bool) -> Result<(), AllocError> {
        for count in self.counts.iter_mut() {
            if count.verb.as_str() == verb {
                count.cases = count.cases.saturating_add(1);
                count.differ = count.differ.saturating_add(u64::from(differs));
                return Ok(());
            }
        }
        let verb = String::from_str(alloc, verb)?;
        self.counts.push(Count {
            verb,
            cases: 1,
            differ: u64::from(differs),
        })?;
        Ok(())
    }

    /// Writes how many cases of each verb there were, in the order in which the verbs came.
    pub fn write_counts(&self, page: &mut String) -> Result<(), AllocError> {
        for count in self.counts.iter() {
            writeln!(page, "{} {}", count.verb, count.cases)?;
            if count.differ > 0 {
                writeln!(page, "  {} differ", count.differ)?;
            }
        }
        Ok(())
    }
}
