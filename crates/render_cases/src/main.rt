//! What the calls that combine, shape, pick, plan and write series tell, as cases on standard input ([`case_lines`] has the form of a line).
//!
//! [`notation`] has the form in which series stand in a case. Each verb's function says its words and what it tells.
#![tactic(auto)]

mod answers;
mod calls;
mod choices;
mod combining;
mod early;
mod grids;
mod groups;
mod notation;
mod pickles;
mod plans;
mod read_json;
mod refusals;
mod room;
mod rows;
mod shapes;
mod slow_json;
mod texts;
mod values;

use calls::RenderCalls;
use case_lines::run_cases;
use std::io;
use std::process::ExitCode;

fn main(rt: HostRuntime) -> io::Result<ExitCode> {
    run_cases(&rt, rt.alloc(), &RenderCalls)
}
