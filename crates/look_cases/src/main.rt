//! What is told of ring files, as cases on standard input ([`case_lines`] has the form of a line).
//!
//! | Case | What it tells |
//! |---|---|
//! | `info PATH BYTES FAILING` | the head of a file with these bytes, and what its archives have stored |
//! | `fetch PATH BYTES FAILING NOW FROM UNTIL` | the values that it shows |
//! | `finding CLASS NAME BYTES FAILING` | what is wrong with the file of a name in the folder of a class, or `well` |
//!
//! `BYTES` are `none` where no file is there. The read of the disk with the number `FAILING` fails, none with 0; then a case tells `fault`, and one
//! of a file that is no ring file tells `none`.
#![tactic(auto)]

mod calls;
mod findings;
mod rings;

use calls::LookCalls;
use case_lines::run_cases;
use std::io;
use std::process::ExitCode;

fn main(rt: HostRuntime) -> io::Result<ExitCode> {
    run_cases(&rt, rt.alloc(), &LookCalls)
}
