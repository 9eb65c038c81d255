//! What the calls that read and write texts tell, as cases on standard input ([`case_lines`] has the form of a line).
#![tactic(auto)]

mod calls;
mod find;
mod frames;
mod given;
mod globs;
mod http;
mod journals;
mod lines;
mod names;
mod numbers;
mod paths;
mod patterns;
mod samples;
mod targets;
mod telling;
mod times;
mod words;

use calls::TextCalls;
use case_lines::run_cases;
use std::io;
use std::process::ExitCode;

fn main(rt: HostRuntime) -> io::Result<ExitCode> {
    run_cases(&rt, rt.alloc(), &TextCalls)
}
