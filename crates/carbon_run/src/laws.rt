//! The laws of a run.
ghost use Rattle.std.specs.Prelude.{◌≡◌, ℕ, false, List, Option, None, Some, slice_get};
ghost use Rattle.outside_io.specs.Image.{Image};
ghost use Rattle.redo_log.specs.Recovery.{is_open};
ghost use Rattle.redo_log.specs.Steps.{gate_name};
ghost use Rattle.carbon_model.specs.RingFiles.{StandsUnder};
ghost use Rattle.carbon_model.specs.State.{State};
ghost use Rattle.carbon_serve.specs.Deeds.{telling};
ghost use Rattle.carbon_words.specs.declared.command.Command.TheVariants.{Serve};
ghost use Rattle.carbon_words.specs.declared.command.Options.{Options};
ghost use Rattle.carbon_words.specs.declared.command.ServeOptions.{ServeOptions};
ghost use Rattle.carbon_run.specs.Commands.{Outcome, beside};
ghost use Rattle.carbon_run.specs.Headline.{TellsOneHistory};
ghost use Rattle.carbon_run.specs.Runs.{Answer, IsDrained, Streams};

use outside_io::{Clock, Disk, Net};

/// The headline, from what [`run`](crate::run) says of `serve`: all puts, drains and questions stand in
/// one order, the history, and every reply is the one that carbon gives where one thread does them
/// one after the other. It goes on from what the disks that were given hold. Each accepted line stands
/// in it once, and whoever asks sees all that it had seen before. So it is of every run that serves;
/// the others had no memory for their words, no rules, a shard that did not start, no memory behind
/// that, or no port. The function does nothing: what it ensures is the law.
pub fn a_run_of_a_server_has_one_history<C: Clock, D: Disk, E: Net>()
    ensures { (clock : C) (net served : E) (said : Options) (more : ServeOptions)
        (folder left : D) (streams : Streams) (given : List D) (answer : Answer D)
        → Outcome D.Disk (beside E.faults (C.moments clock)
        (telling E.L.Source E.L.Sink) net served) (Serve said more) folder left
        streams given answer
        → TellsOneHistory D.Disk (beside E.faults (C.moments clock)
        (telling E.L.Source E.L.Sink) net served) said more folder left streams given answer }
{}

/// What a run left that drained all, be it a script, a sample or a server, has no drain on its way:
/// behind status 0 the disk of each class stands for what the history keeps, and its gate is not open.
/// By `what_a_run_left_starts_as_it_kept` of `crash_law` it then starts as what the run kept. The
/// function does nothing: what it ensures is the law.
pub fn what_a_drained_run_left_has_no_drain_on_its_way<D: Disk>()
    ensures { (told : ℕ → Option Image) (disks : List D) (s : State) (class : ℕ) (disk : D)
        (opening left : Image)
        → IsDrained D.image told disks s → slice_get disks class ≡ Some disk
        → told class ≡ Some opening → D.image disk ≡ Some left
        → StandsUnder opening left None s.kept class × (is_open (left gate_name) ≡ false) }
{}
