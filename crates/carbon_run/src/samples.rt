//! The command `sample`, once the rule files are read.
ghost use Rattle.std.specs.Prelude.{◌≡◌, ℕ, List, Option, vec_len};
ghost use Rattle.outside_io.specs.Frames.{CountsWrites};
ghost use Rattle.shard_set.specs.Opening.{settings_of};
ghost use Rattle.carbon_run.specs.Runs.{answer_of};
ghost use Rattle.carbon_run.specs.Samples.{SampleRuns, untouched};

use crate::Report;
use crate::scripts::run_script;
use carbon_words::SampleOptions;
use outside_io::{Disk, Sink};
use sample_text::{SampleSource, question};
use shard_set::Setup;
use std::alloc::Global;
use std::sync::Wait;

/// Runs the script of a sample over the disks, so set up. What it says before the question is not written.
pub(crate) fn run_sample<R: Wait, D: Disk + Drop, K: Sink>(
    rt: &R,
    alloc: Global,
    disks: Vec<D>,
    setup: &Setup,
    said: SampleOptions,
    out: &mut K,
) -> Report<D>
    requires { vec_len disks ≡ 16 }
    ensures runs { (left : Option (List ℕ)) → SampleRuns D.Disk (settings_of setup.now)
        setup.now.redo said (untouched left (K.written out.old) (K.written out.new)) disks.items
        (answer_of result.status result.history result.disks.items) }
    ensures unread { result.status ≡ 6 → ⊥ }
    ensures writes { CountsWrites K.Sink out.old out.new (result.status ≡ 7) }
    ensures all { vec_len result.disks ≡ 16 }
{
    let front = SampleSource::new(said.start, said.count);
    let mut asked = question();
    run_script(rt, alloc, disks, setup, Some(front), &mut asked, out)
}
