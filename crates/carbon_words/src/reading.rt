//! Reading the words.
ghost use Rattle.std.specs.Prelude.{◌≡◌, ◌≢◌, ◌≤◌, [], IfOk, IfErr, IfSome, map, string_bytes};
ghost use Rattle.clap.specs.Faults.{fault_of};
ghost use Rattle.clap.specs.Words.{found_of, kind_of, rows_of, subcommand_rows_of};
ghost use Rattle.carbon_words.specs.CommandLine.{FindsWords, HasCount, HasDrainers, HasLimit, HasWorkers, IsSound, between, carbon, command_in, command_met, command_of, drain_options_in, hosts_in, is_on, number_given, number_in, options_in, order_in, order_of, port_hosts_in, redo_in, sample_options_in, serve_options_in};

use crate::app::carbon;
use crate::command::{Command, DrainOptions, Options, PortHosts, SampleOptions, ServeOptions};
use crate::host_reading::hosts_by;
use crate::hosts::Hosts;
use clap::error::ErrorKind;
use clap::{ArgMatches, Error};
use drain_order::Strategy;
use fixed_num::read_whole;
use std::alloc::{AllocError, Global};
use thiserror::Error;

/// Why words say nothing.
#[derive(Clone, Copy, Debug, PartialEq, Eq, Error)]
pub enum WordsFault {
    /// They are no command.
    #[error("the words are no command")]
    Usage,
    /// There was no memory.
    #[error("there was no memory")]
    NoMemory,
}

// The numbers that an option may say, and the one that it says where it is left out.
#[derive(Clone, Copy)]
pub(crate) struct Choice {
    least: u64,
    most: u64,
    other: u64,
}

const LIMIT: Choice = Choice {
    least: 1,
    most: 10_000_000,
    other: 262_144,
};

const LINE_PORT: Choice = Choice {
    least: 0,
    most: 65_535,
    other: 2003,
};

const HTTP_PORT: Choice = Choice {
    least: 0,
    most: 65_535,
    other: 8080,
};

const WORKERS: Choice = Choice {
    least: 1,
    most: 256,
    other: 16,
};

const LINE_PATIENCE: Choice = Choice {
    least: 0,
    most: 86_400,
    other: 900,
};

const LINKS: Choice = Choice {
    least: 0,
    most: 1_000_000_000,
    other: 0,
};

// From a MiB to a TiB.
const ANSWER_BYTES: Choice = Choice {
    least: 1_048_576,
    most: 1_099_511_627_776,
    other: 268_435_456,
};

const DRAINERS: Choice = Choice {
    least: 1,
    most: 16,
    other: 1,
};

// How often a second.
const RATE: Choice = Choice {
    least: 0,
    most: 1_000_000,
    other: 0,
};

/// What the words behind the program's name say. They are refused exactly where they are no command.
pub fn read_words(alloc: Global, words: &[String]) -> Result<Command, WordsFault>
    ensures command { IfOk result (λ command. command_of (map string_bytes words.now) ≡ Some command) }
    ensures usage { result ≡ Err WordsFault.Usage → command_of (map string_bytes words.now) ≡ None }
    ensures sound { IfOk result IsSound }
{
    let matches = match parse(alloc, words) {
        Ok(matches) => matches,
        Err(error) => return Err(fault_of(&error)),
    };
    match command_met(&matches) {
        Some(command) => Ok(command),
        None => Err(WordsFault::Usage),
    }
}

// What clap finds in the words.
fn parse<'a>(alloc: Global, words: &'a [String]) -> Result<ArgMatches<'a>, Error>
    ensures ok { IfOk result (FindsWords (map string_bytes words.now)) }
    ensures err { IfErr result (λ e. kind_of e ≢ ErrorKind.OutOfMemory
        → fault_of carbon (map string_bytes words.now) ≢ []) }
{
    let carbon = carbon(alloc)?;
    carbon.try_get_matches_from(words)
}

fn fault_of(error: &Error) -> WordsFault
    ensures { result ≡ WordsFault.Usage → kind_of error.now ≢ ErrorKind.OutOfMemory }
{
    match error.kind() {
        ErrorKind::OutOfMemory => WordsFault::NoMemory,
        _ => WordsFault::Usage,
    }
}

// The command that was met, with what was found for it.
fn command_met(matches: &ArgMatches<'_>) -> Option<Command>
    ensures said { result ≡ command_met (subcommand_rows_of matches.now) }
    ensures sound { IfSome result IsSound }
{
    let (name, values) = matches.subcommand()?;
    command_in(name, values)
}

// The command of this name, with what was found for it.
#[tactic(auto, unfolding(crate::specs::CommandLine::command_in))]
fn command_in(name: &str, values: &ArgMatches<'_>) -> Option<Command>
    ensures said { result ≡ command_in name.now (rows_of (found_of values.now)) }
    ensures sound { IfSome result IsSound }
{
    let options = options_in(values)?;
    if name == "script" {
        return Some(Command::Script(options));
    }
    if name == "serve" {
        let more = serve_options_in(values)?;
        return Some(Command::Serve(options, more));
    }
    let more = sample_options_in(values)?;
    Some(Command::Sample(options, more))
}

#[tactic(auto, unfolding(crate::specs::CommandLine::options_in))]
fn options_in(values: &ArgMatches<'_>) -> Option<Options>
    ensures said { result ≡ options_in (rows_of (found_of values.now)) }
    ensures limit { IfSome result HasLimit }
{
    let limit = number_in(values, "limit", LIMIT)?;
    let order = order_in(values)?;
    let redo = redo_in(values);
    Some(Options { limit, order, redo })
}

#[tactic(auto, unfolding(crate::specs::CommandLine::serve_options_in))]
fn serve_options_in(values: &ArgMatches<'_>) -> Option<ServeOptions>
    ensures said { result ≡ serve_options_in (rows_of (found_of values.now)) }
    ensures workers { IfSome result HasWorkers }
{
    let line_port = number_in(values, "line-port", LINE_PORT)?;
    let http_port = number_in(values, "http-port", HTTP_PORT)?;
    let receivers = number_in(values, "receivers", WORKERS)?;
    let renderers = number_in(values, "renderers", WORKERS)?;
    let line_patience = number_in(values, "line-patience", LINE_PATIENCE)?;
    let links = number_in(values, "links", LINKS)?;
    let answer_bytes = number_in(values, "answer-bytes", ANSWER_BYTES)?;
    let drains = drain_options_in(values)?;
    let hosts = port_hosts_in(values)?;
    Some(ServeOptions {
        line_port: line_port as u16,
        http_port: http_port as u16,
        receivers: receivers as u32,
        renderers: renderers as u32,
        line_patience: line_patience as u32,
        links,
        answer_bytes,
        drains,
        hosts,
    })
}

#[tactic(auto, unfolding(crate::specs::CommandLine::port_hosts_in))]
fn port_hosts_in(values: &ArgMatches<'_>) -> Option<PortHosts>
    ensures { result ≡ port_hosts_in (rows_of (found_of values.now)) }
{
    let lines = hosts_in(values, "line-host")?;
    let http = hosts_in(values, "http-host")?;
    Some(PortHosts { lines, http })
}

#[tactic(auto, unfolding(crate::specs::CommandLine::drain_options_in))]
fn drain_options_in(values: &ArgMatches<'_>) -> Option<DrainOptions>
    ensures said { result ≡ drain_options_in (rows_of (found_of values.now)) }
    ensures drainers { IfSome result HasDrainers }
{
    let drainers = number_in(values, "drainers", DRAINERS)?;
    let pace = number_in(values, "pace", RATE)?;
    let creates = number_in(values, "creates", RATE)?;
    Some(DrainOptions {
        drainers: drainers as u32,
        pace: pace as u32,
        creates: creates as u32,
    })
}

#[tactic(auto, unfolding(crate::specs::CommandLine::sample_options_in))]
fn sample_options_in(values: &ArgMatches<'_>) -> Option<SampleOptions>
    ensures said { result ≡ sample_options_in (rows_of (found_of values.now)) }
    ensures count { IfSome result HasCount }
{
    let start = number_given(values, "start", 0, 9_999_999_999)?;
    let count = number_given(values, "count", 1, 1_000_000)?;
    Some(SampleOptions {
        start,
        count: count as u32,
    })
}

// The addresses of an option.
#[tactic(auto, unfolding(crate::specs::CommandLine::hosts_in))]
fn hosts_in(values: &ArgMatches<'_>, name: &str) -> Option<Hosts>
    ensures { result ≡ hosts_in name.now (rows_of (found_of values.now)) }
{
    match values.get_strs(name) {
        Some(texts) => hosts_by(texts),
        None => Some(Hosts::all()),
    }
}

// The number of an option.
#[tactic(auto, unfolding(crate::specs::CommandLine::number_in))]
fn number_in(values: &ArgMatches<'_>, name: &str, choice: Choice) -> Option<u64>
    requires { (choice.least ≤ choice.other) × (choice.other ≤ choice.most) }
    ensures number { result ≡ number_in choice name.now (rows_of (found_of values.now)) }
    ensures within { IfSome result (λ n. (choice.least ≤ n) × (n ≤ choice.most)) }
{
    match values.get_str(name) {
        Some(text) => between(choice.least, choice.most, text),
        None => Some(choice.other),
    }
}

// The number that stands under a name.
#[tactic(auto, unfolding(crate::specs::CommandLine::number_given))]
fn number_given(values: &ArgMatches<'_>, name: &str, least: u64, most: u64) -> Option<u64>
    ensures number { result ≡ number_given least most name.now (rows_of (found_of values.now)) }
    ensures within { IfSome result (λ n. (least ≤ n) × (n ≤ most)) }
{
    match values.get_str(name) {
        Some(text) => between(least, most, text),
        None => None,
    }
}

#[tactic(auto, unfolding(crate::specs::CommandLine::between))]
fn between(least: u64, most: u64, text: &str) -> Option<u64>
    ensures number { result ≡ between least most text.now }
    ensures within { IfSome result (λ n. (least ≤ n) × (n ≤ most)) }
{
    let number = read_whole(text.as_bytes())?;
    if least <= number && number <= most {
        Some(number)
    } else {
        None
    }
}

// The drain order that an option says.
#[tactic(auto, unfolding(crate::specs::CommandLine::order_in))]
fn order_in(values: &ArgMatches<'_>) -> Option<Strategy>
    ensures { result ≡ order_in (rows_of (found_of values.now)) }
{
    match values.get_str("order") {
        Some(text) => order_of(text),
        None => Some(Strategy::Sorted),
    }
}

// Whether drains go through the redo log.
#[tactic(auto, unfolding(crate::specs::CommandLine::redo_in))]
fn redo_in(values: &ArgMatches<'_>) -> bool
    ensures { result ≡ redo_in (rows_of (found_of values.now)) }
{
    match values.get_str("redo") {
        Some(text) => is_on(text),
        None => false,
    }
}

// Whether an option stands to which clap gives this value.
#[tactic(auto, unfolding(crate::specs::CommandLine::is_on))]
fn is_on(text: &str) -> bool
    ensures { result ≡ is_on text.now }
{
    text == "true"
}

#[tactic(auto, unfolding(crate::specs::CommandLine::order_of))]
fn order_of(text: &str) -> Option<Strategy>
    ensures { result ≡ order_of text.now }
{
    if text == "max" {
        return Some(Strategy::Max);
    }
    if text == "sorted" {
        return Some(Strategy::Sorted);
    }
    if text == "timesorted" {
        return Some(Strategy::TimeSorted);
    }
    if text == "naive" {
        return Some(Strategy::Naive);
    }
    None
}
