//! What the calls around ring files tell, as cases on standard input ([`case_lines`] has the form of a line).
//!
//! The words that stand for more than one thing:
//!
//! | Word | What it says |
//! |---|---|
//! | `ARCHIVES METHOD FACTOR` | a layout, as `60x10,300x12 average 500000`: steps and points, and the factor in millionths |
//! | `CELLS` | cells as `ARCHIVE/SLOT:BUCKET:VALUE`, with commas between |
//! | `STORED` | the cells that a file holds, `1!` before those of a file of version 1, or `new` for a file that the patch makes |
//! | `LAID` | the cells that the patch lays |
//! | `POINTS` | points as `TIME:VALUE`, with commas between; `TIME:VALUE*N` are N of them, a minute apart |
//!
//! Values are in thousandths, and `-` is a value that is missing. Bytes are told as hexadecimal digits, four bytes a word.
#![tactic(auto)]

mod aggregates;
mod batches;
mod caches;
mod calls;
mod carries;
mod fetches;
mod layouts;
mod lookups;
mod order_many;
mod orders;
mod patches;
mod rings;
mod rollups;
mod rules;
mod shelves;
mod told;
mod words;
mod writes;

use calls::RingCalls;
use case_lines::run_cases;
use std::io;
use std::process::ExitCode;

fn main(rt: HostRuntime) -> io::Result<ExitCode> {
    run_cases(&rt, rt.alloc(), &RingCalls)
}
