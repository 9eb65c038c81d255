//! Every crash of drains that go through the redo log.
//!
//! Each line of standard input is one of these, or empty:
//!
//! | Line | What it says |
//! |---|---|
//! | `# TITLE` | nothing |
//! | `drain CLASS PATH new ARCHIVES CELLS` | the next of a class; `old` where its file is there |
//! | `shows NOW FROM UNTIL VALUES` | what a question shows of its metric behind the drain above |
//! | `walk` | walks all crashes of these drains, and tells |
//!
//! `ARCHIVES` are `60x5,300x4`: steps and points. `CELLS` are `ARCHIVE/SLOT:BUCKET:VALUE` with
//! commas between, or `-` for none; a `*N` behind one says N of them, each in the next slot, a step
//! later, its value one thousandth more. `VALUES` are in thousandths, `-` for a missing one, and
//! `*N` behind one says N of them, each one thousandth more. Any other line is answered by `case
//! error`.
//!
//! The drains of each class are taken in order, over a disk of the class. Behind each call that
//! changes or syncs it, each crash is tried: each change since the last sync is there, or lost, or
//! torn in its middle with bytes of 255 behind, and all of these are tried with all others where
//! there are at most three changes; of more each is there or lost. From each such image the class
//! is started again, by `recover` and then `arm`; and so it is from each that a crash within that
//! start may leave, behind each of its calls. The rings have to be those behind so many drains of
//! the class: all that had ended, and perhaps the one that was on its way, which has to be there
//! from the sync of its open gate on. They are read as a question reads them, and compared with the
//! lines `shows`.
//!
//! Behind the sync of an open gate each log that is a byte shorter than that, a byte longer, or
//! longer by a cell is no body: a start has to refuse it, and to write nothing.
//!
//! The walk tells how many images there were behind each kind of call, in a drain and in a start,
//! and has a line for each that starts to anything else.
#![tactic(auto)]

mod crash_disk;
mod fates;
mod files;
mod judging;
mod moment;
mod reading;
mod script;
mod tally;
mod walk;
mod words;

use case_lines::CaseFault;
use script::Script;
use std::alloc::Global;
use std::io::{self, BufRead, BufReader};
use std::process::ExitCode;
use walk::walk;

fn main(rt: HostRuntime) -> io::Result<ExitCode> {
    let alloc = rt.alloc();
    let mut script = Script::new(alloc);
    for line in BufReader::new(alloc, rt.reader())?.lines(alloc) {
        let line = line?;
        take_line(&rt, alloc, &mut script, line.as_str())?;
    }
    Ok(ExitCode::from(0))
}

// Does a line, and prints what it tells.
fn take_line<R: Print>(rt: &R, alloc: Global, script: &mut Script, line: &str) -> io::Result<()> {
    let mut page = String::new(alloc);
    match obey(alloc, script, line, &mut page) {
        Ok(()) => rt.print(page.as_str()),
        Err(CaseFault::Malformed) => println!(rt; "case error: {line}"),
        Err(CaseFault::NoMemory) => Err(io::Error::from(io::ErrorKind::OutOfMemory)),
    }
}

fn obey(
    alloc: Global,
    script: &mut Script,
    line: &str,
    page: &mut String,
) -> Result<(), CaseFault> {
    if line == "walk" {
        return walk(alloc, script, page);
    }
    script.take(alloc, line)
}
