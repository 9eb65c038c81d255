//! The cases of a program's standard input.

use crate::case::Case;
use crate::cases::Cases;
use crate::fault::CaseFault;
use std::alloc::Global;
use std::io::{self, BufRead, BufReader};
use std::process::ExitCode;

/// The calls that a program has cases of.
pub trait Calls {
    /// What the call of a case tells. A case whose verb or words it does not know is malformed.
    fn tell(&self, alloc: Global, case: &Case) -> Result<String, CaseFault>;
}

/// Reads all cases, prints what differs from what is wanted, and last how many cases of each verb there were.
pub fn run_cases<R: Print + Input, C: Calls>(
    rt: &R,
    alloc: Global,
    calls: &C,
) -> io::Result<ExitCode> {
    let mut cases = Cases::new(alloc);
    for line in BufReader::new(alloc, rt.reader())?.lines(alloc) {
        let line = line?;
        take_line(rt, alloc, calls, &mut cases, line.as_str())?;
    }
    let mut page = String::new(alloc);
    cases.write_counts(&mut page)?;
    rt.print(page.as_str())?;
    Ok(ExitCode::from(0))
}

// Does the case of a line, and prints what differs.
fn take_line<R: Print, C: Calls>(
    rt: &R,
    alloc: Global,
    calls: &C,
    cases: &mut Cases,
    line: &str,
) -> io::Result<()> {
    let mut page = String::new(alloc);
    match judge_line(alloc, calls, cases, line, &mut page) {
        Ok(()) => rt.print(page.as_str()),
        Err(CaseFault::Malformed) => println!(rt; "case error: {line}"),
        Err(CaseFault::NoMemory) => Err(io::Error::from(io::ErrorKind::OutOfMemory)),
    }
}

fn judge_line<C: Calls>(
    alloc: Global,
    calls: &C,
    cases: &mut Cases,
    line: &str,
    page: &mut String,
) -> Result<(), CaseFault> {
    let Some(case) = cases.read(alloc, line)? else {
        return Ok(());
    };
    let told = calls.tell(alloc, &case)?;
    cases.judge(alloc, line, &case, told.as_bytes(), page)?;
    Ok(())
}
