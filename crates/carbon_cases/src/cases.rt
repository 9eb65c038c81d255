//! The cases in the order of their lines.

use crate::answers::answer;
use crate::case::Case;
use crate::command::{Command, Question, command_of};
use crate::fault::CaseFault;
use crate::runs::{Ran, run_case};
use crate::text::first_word;
use std::alloc::{AllocError, Global};
use std::mem;
use std::sync::Wait;
use std::thread::Threads;

/// The case that is being said, the one before it, and the last run.
#[derive(Drop)]
pub struct Cases {
    case: Case,
    former: Case,
    ran: Option<Ran>,
}

impl Cases {
    /// No run yet.
    pub fn new(alloc: Global) -> Result<Cases, AllocError> {
        Ok(Cases {
            case: Case::new(alloc)?,
            former: Case::new(alloc)?,
            ran: None,
        })
    }

    /// Does a line, and writes what it tells.
    pub fn take(
        &mut self,
        rt: &(impl Threads + Wait + Copy + Send + Sync + Drop),
        alloc: Global,
        line: &str,
        page: &mut String,
    ) -> Result<(), CaseFault> {
        let (word, text) = first_word(line);
        let Some(command) = command_of(word) else {
            return Err(CaseFault::Malformed);
        };
        match command {
            Command::Title => Ok(self.begin(alloc, text, page)?),
            Command::Same => self.take_former(),
            Command::Keep => self.keep(alloc),
            Command::Set(setting) => self.case.set(alloc, setting, text),
            Command::SetDisk(setting) => self.case.set_disk(alloc, setting, text),
            Command::Run => Ok(self.run(rt, alloc, page)?),
            Command::Tell(question) => self.tell(alloc, question, text, page),
        }
    }

    // Begins a case, which has nothing of the one before.
    fn begin(&mut self, alloc: Global, text: &str, page: &mut String) -> Result<(), AllocError> {
        let former = mem::replace(&mut self.case, Case::new(alloc)?);
        self.former = former;
        writeln!(page, "\n# {text}")
    }

    // Gives the case what the one before was given. It stands directly behind the heading.
    fn take_former(&mut self) -> Result<(), CaseFault> {
        mem::swap(&mut self.case, &mut self.former);
        Ok(())
    }

    fn keep(&mut self, alloc: Global) -> Result<(), CaseFault> {
        match &mut self.ran {
            Some(ran) => self.case.keep(alloc, &mut ran.report.disks),
            None => Err(CaseFault::Malformed),
        }
    }

    fn run(
        &mut self,
        rt: &(impl Threads + Wait + Copy + Send + Sync + Drop),
        alloc: Global,
        page: &mut String,
    ) -> Result<(), AllocError> {
        self.ran = Some(run_case(rt, alloc, &self.case, page)?);
        Ok(())
    }

    fn tell(
        &mut self,
        alloc: Global,
        question: Question,
        text: &str,
        page: &mut String,
    ) -> Result<(), CaseFault> {
        match &mut self.ran {
            Some(ran) => answer(alloc, ran, question, text, page),
            None => Err(CaseFault::Malformed),
        }
    }
}
