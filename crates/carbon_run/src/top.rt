ghost use Rattle.std.specs.Prelude.{◌≡◌, ◌≤◌, ◌⊎◌, None, IfSome, map, string_bytes, vec_len};
ghost use Rattle.outside_io.specs.Frames.{CountsReads, CountsWrites};
ghost use Rattle.shard_set.specs.Opening.{settings_of};
ghost use Rattle.carbon_serve.specs.Deeds.{telling};
ghost use Rattle.carbon_words.specs.CommandLine.{HasLimit, IsSound, command_of};
ghost use Rattle.carbon_run.specs.Commands.{Does, Outcome, beside, settings_by};
ghost use Rattle.carbon_run.specs.Runs.{NoCommand, NoWords, TellsConf, TellsWords, answer_of, streams_of};

use crate::Report;
use crate::conf::{ConfFault, RunRules, read_conf};
use crate::fault_lines::{
    tell_agg_fault, tell_conf_fault, tell_no_memory, tell_rule_fault, tell_usage,
};
use crate::samples::run_sample;
use crate::scripts::run_script;
use crate::serving::run_server;
use carbon_words::{Command, Options, WordsFault, read_words};
use outside_io::{Clock, Disk, Net, Sink, Source};
use schema_rules::Rules;
use shard_set::Setup;
use std::alloc::Global;
use std::sync::Wait;
use std::thread::Threads;

/// Runs carbon: does what the words of the command line say, and answers the program's exit status.
///
/// `words` are those after the program's name, and there is one disk for each of the sixteen classes. Each command first reads the rule files
/// `storage-schemas.conf` and `storage-aggregation.conf` of the folder `conf`, and `serve` behind them `aggregation-rules.conf`. One that is absent
/// counts as empty.
///
/// | Command | Does |
/// |---|---|
/// | `script` | runs the script that stands on the input over the ring files of the disks, and drains all at its end |
/// | `serve` | binds the ports of the net, puts the metric lines and answers the requests that its links bring, puts what `aggregation-rules.conf` makes of each link's points, and drains what is pending all the while; once the net is closed it drains all |
/// | `sample START COUNT` | runs, as `script` does, the script of so many metric lines that a generator makes from a start of 0 to 9,999,999,999, and writes what it says from its question on. COUNT is 1 to 1,000,000 |
///
/// Behind the command options may stand, in any order, each once (`--line-host` and `--http-host` up to 16 times), as two words or as `--x=v`:
///
/// | Option | Says | Else |
/// |---|---|---|
/// | `--limit N` | how many points of a class may be pending: 1 to 10,000,000 | 262,144 |
/// | `--order O` | which metric of a class is drained next: `max`, `sorted`, `timesorted` or `naive` | `sorted` |
/// | `--redo` | drains go through a log, so that a crash leaves whole drains; it has no value | they go straight to their files |
/// | `--line-port P`, `--http-port P` | `serve`: the ports, 0 to 65,535 | 2003, 8080 |
/// | `--line-host A`, `--http-host A` | `serve`: at which addresses of IPv4 each port is open, up to 16. The net that is handed in keeps to it | 0.0.0.0: all |
/// | `--receivers N`, `--renderers N` | `serve`: how many threads serve the links of each port: 1 to 256 | 16 |
/// | `--line-patience S` | `serve`: after how many seconds without a byte a link of metric lines is at its end, 0 to 86,400; 0: never. The net that is handed in keeps to it | 900 |
/// | `--links N` | `serve`: how many links each port gives before it closes, to 1,000,000,000; 0: it never does | 0 |
/// | `--answer-bytes N` | `serve`: how many bytes the series, names and text of a question may take, 1,048,576 to 1,099,511,627,776, a sixteenth of them the names | 268,435,456 |
/// | `--drainers N` | `serve`: how many threads drain what is pending, 1 to 16 | 1 |
/// | `--pace N`, `--creates N` | `serve`: how many drains each of them begins, and how many ring files it makes, in a second at most, to 1,000,000; 0: as many as it can | 0 |
///
/// | Status | Comes |
/// |---|---|
/// | 0 | `script` and `sample`: the input was read to its end, and all that the script says was written. `serve`: the net was closed, and `stored S replaced R full F drains D` was written. All points are in the ring files |
/// | 2 | the words are no command |
/// | 3 | a rule file is refused: its first fault, and those of the schema file before those of the aggregation file, those of `aggregation-rules.conf` last |
/// | 4 | the log of a class is damaged behind its open gate, or else a ring file is: that of the least class, and of its files the first in byte order of its name |
/// | 5 | a call of a disk failed, in a start or in the drain at the end, or one on the folder `conf` |
/// | 6 | a read of the input failed |
/// | 7 | a write failed |
/// | 8 | memory ran out |
/// | 9 | a port could not be had |
/// | 10 | 2^40 bytes of input were taken, or so many entries were made that a command or a worker has no room for its own |
///
/// At each status but 0 and 7 the last line that is written says the fault. All sixteen shards have started before the first byte of
/// the input is taken or a port is bound. A disk that fails at a command of the script is told in the reply, and the script goes on; one that fails
/// at a request is told in the reply, and a drainer of `serve` tries again. A run that 6, 7, 8 or 10 ends before its last drain makes none.
/// A script looks at neither clock nor net, and neither `serve` nor `sample` at the input.
pub fn run<
    R: Threads + Wait + Sync,
    S: Source,
    K: Sink,
    D: Disk + Send + Drop,
    C: Clock + Sync,
    N: Net + Sync,
>(
    rt: &R,
    alloc: Global,
    words: &[String],
    input: &mut S,
    out: &mut K,
    conf: &mut D,
    disks: Vec<D>,
    clock: &C,
    net: &mut N,
) -> Report<D>
where
    N::L: Drop + Send,
    requires { vec_len disks ≡ 16 }
    ensures usage { command_of (map string_bytes words.now) ≡ None
        → (conf.new ≡ conf.old) × (net.new ≡ net.old)
        × (NoCommand (streams_of S.Source K.Sink input.old input.new out.old out.new) disks.items
        (answer_of result.status result.history result.disks.items)
        ⊎ NoWords (streams_of S.Source K.Sink input.old input.new out.old out.new) disks.items
        (answer_of result.status result.history result.disks.items)) }
    ensures outcome { IfSome (command_of (map string_bytes words.now))
        (λ command. Outcome D.Disk (beside N.faults (C.moments clock.now)
        (telling N.L.Source N.L.Sink) net.old net.new)
        command conf.old conf.new
        (streams_of S.Source K.Sink input.old input.new out.old out.new) disks.items
        (answer_of result.status result.history result.disks.items)) }
    ensures reads { CountsReads S.Source input.old input.new (result.status ≡ 6) }
    ensures writes { CountsWrites K.Sink out.old out.new (result.status ≡ 7) }
    ensures disks { vec_len result.disks ≡ 16 }
    ensures conf { D.image conf.new ≡ D.image conf.old }
    ensures net { N.faults net.old ≤ N.faults net.new }
{
    let command = match read_words(alloc, words) {
        Ok(command) => command,
        Err(fault) => {
            let status = tell_words(fault, out);
            return Report::without_command(status, disks);
        }
    };
    match read_conf(alloc, conf, &command) {
        Ok(rules) => run_command(rt, alloc, command, rules, disks, input, out, clock, net),
        Err(fault) => {
            let status = tell_conf(&fault, out);
            Report::without_command(status, disks)
        }
    }
}

// Does what a command says, by these rules.
fn run_command<
    R: Threads + Wait + Sync,
    S: Source,
    K: Sink,
    D: Disk + Send + Drop,
    C: Clock + Sync,
    N: Net + Sync,
>(
    rt: &R,
    alloc: Global,
    command: Command,
    rules: RunRules,
    disks: Vec<D>,
    input: &mut S,
    out: &mut K,
    clock: &C,
    net: &mut N,
) -> Report<D>
where
    N::L: Drop + Send,
    requires all { vec_len disks ≡ 16 }
    requires sound { IsSound command }
    ensures does { Does D.Disk (beside N.faults (C.moments clock.now)
        (telling N.L.Source N.L.Sink) net.old net.new) rules.rules rules.agg_rules command
        (streams_of S.Source K.Sink input.old input.new out.old out.new) disks.items
        (answer_of result.status result.history result.disks.items) }
    ensures reads { CountsReads S.Source input.old input.new (result.status ≡ 6) }
    ensures writes { CountsWrites K.Sink out.old out.new (result.status ≡ 7) }
    ensures disks { vec_len result.disks ≡ 16 }
    ensures net { N.faults net.old ≤ N.faults net.new }
{
    let RunRules { rules, agg_rules } = rules;
    match command {
        Command::Script(options) => {
            run_script(rt, alloc, disks, &setup(rules, options), None, input, out)
        }
        Command::Sample(options, more) => {
            run_sample(rt, alloc, disks, &setup(rules, options), more, out)
        }
        Command::Serve(options, more) => {
            run_server(
                rt,
                alloc,
                disks,
                &setup(rules, options),
                more,
                &agg_rules,
                out,
                clock,
                net,
            )
        }
    }
}

// What is fixed for a run.
fn setup(rules: Rules, options: Options) -> Setup
    requires { HasLimit options }
    ensures settings { settings_of result ≡ settings_by rules options }
    ensures redo { result.redo ≡ options.redo }
{
    Setup {
        rules,
        limit: options.limit,
        strategy: options.order,
        redo: options.redo,
    }
}

// Tells why the words say nothing.
fn tell_words<K: Sink>(fault: WordsFault, out: &mut K) -> u8
    ensures told { TellsWords fault result (K.written out.old) (K.written out.new) }
    ensures writes { CountsWrites K.Sink out.old out.new (result ≡ 7) }
{
    match fault {
        WordsFault::Usage => tell_usage(out),
        WordsFault::NoMemory => tell_no_memory(out),
    }
}

/// Tells why there are no rules.
fn tell_conf<K: Sink>(fault: &ConfFault, out: &mut K) -> u8
    ensures told { TellsConf fault.now result (K.written out.old) (K.written out.new) }
    ensures writes { CountsWrites K.Sink out.old out.new (result ≡ 7) }
{
    match fault {
        ConfFault::Refused(file, cause) => tell_rule_fault(out, *file, *cause),
        ConfFault::RefusedAgg(cause) => tell_agg_fault(out, *cause),
        ConfFault::DiskFault => tell_conf_fault(out),
        ConfFault::NoMemory => tell_no_memory(out),
    }
}
