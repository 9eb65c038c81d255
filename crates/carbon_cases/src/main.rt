//! Whole runs of carbon over disks and streams in memory, as cases on standard input.
//!
//! Each line is one of these, or empty:
//!
//! | Line | What it does |
//! |---|---|
//! | `# TITLE` | begins a case: the word `script`, no input, no connections, no files, nothing fails |
//! | `same` | directly behind it: the case has what the one before was given |
//! | `keep` | the disks have the files that the last run left |
//! | `words WORD..` | the words behind the program's name; `""` is one of no bytes, `_` stands for a blank |
//! | `> TEXT` | one more line of the input |
//! | `input TEXT`, `no-input` | more bytes of the input; none any more |
//! | `cut N..`, `cut each` | no read goes across these places; one more run for each place |
//! | `most-read N`, `most-written N` | the most bytes that a read gives and a write takes |
//! | `fail-read N..`, `fail-write N..` | the reads and the writes that fail, from 1 on |
//! | `link TEXT` | one more connection of metric lines, which brings these bytes and is closed |
//! | `schemas TEXT`, `aggregations TEXT` | the rule files; the aggregation rules are `file conf aggregation-rules.conf TEXT` |
//! | `file DISK NAME TEXT` | a file beforehand; `DISK` is a class, or `conf` |
//! | `zeros DISK NAME LEN N..` | a file of zeros, but for numbers of four bytes at its front |
//! | `ring DISK NAME METHOD FACTOR STEPxPOINTS..` | an empty ring file |
//! | `room DISK N`, `fail-disk DISK N..` | the room of a disk; its creates and writes that fail, from 1 on |
//! | `fail-disk-read DISK N..`, `tear-disk DISK` | its other calls that fail, from 1 on; those of its writes that fail leave each byte of their range 255 |
//! | `run` | runs the case, and tells its status and what it wrote |
//! | `history`, `left` | how many entries the history has; how many bytes of the input were not taken |
//! | `show DISK NAME` | the layout of a ring file; archive, slot, bucket and value of each cell that is not empty |
//! | `bytes DISK NAME N`, `names DISK`, `faults DISK` | the first bytes of a file; the files; how many calls failed |
//! | `calls DISK` | how many calls told of files, how many made or changed some, and the longest piece that was read |
//!
//! A `TEXT` has the escapes `\n`, `\r`, `\t`, `\s` for a blank, `\\`, `\xff`, and `\(9x)` for nine times the byte `x`.
//! Any other line is answered by `case error`, and the next one goes on.
#![tactic(auto)]

mod answers;
mod case;
mod cases;
mod command;
mod disk_case;
mod fault;
mod ring;
mod runs;
mod text;

use cases::Cases;
use fault::CaseFault;
use std::alloc::Global;
use std::io::{self, BufRead, BufReader};
use std::process::ExitCode;
use std::sync::Wait;
use std::thread::Threads;

fn main(rt: HostRuntime) -> io::Result<ExitCode> {
    let alloc = rt.alloc();
    let mut cases = Cases::new(alloc)?;
    take_lines(&rt, alloc, &mut cases)
}

// Does all lines. It has the cases lent: each way out of what owns them is dear to prove.
fn take_lines<R: Print + Input + Threads + Wait + Copy + Send + Sync + Drop>(
    rt: &R,
    alloc: Global,
    cases: &mut Cases,
) -> io::Result<ExitCode> {
    for line in BufReader::new(alloc, rt.reader())?.lines(alloc) {
        let line = line?;
        if let Err(fault) = take_line(rt, alloc, cases, line.as_str()) {
            println!(rt; "{fault}")?;
            return Ok(ExitCode::from(1));
        }
    }
    Ok(ExitCode::from(0))
}

// Does a line and prints what it tells.
fn take_line<R: Print + Threads + Wait + Copy + Send + Sync + Drop>(
    rt: &R,
    alloc: Global,
    cases: &mut Cases,
    line: &str,
) -> io::Result<()> {
    let mut page = String::new(alloc);
    if line.is_empty() {
        return Ok(());
    }
    match cases.take(rt, alloc, line, &mut page) {
        Ok(()) => rt.print(page.as_str()),
        Err(CaseFault::Malformed) => println!(rt; "case error: {line}"),
        Err(CaseFault::NoMemory) => Err(io::Error::from(io::ErrorKind::OutOfMemory)),
    }
}
