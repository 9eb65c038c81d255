ghost use Rattle.std.specs.Prelude.{◌≡◌, ◌≤◌, IfOk, IfSome, OnErr, true, length, nat_le, option_map, None, if◌then◌else◌};
ghost use Rattle.std.specs.Str.{bytes_eq};
ghost use Rattle.fixed_num.specs.Moment.{is_moment};
ghost use Rattle.fixed_num.specs.Whole.{whole_number};
ghost use Rattle.line_frame.specs.Lines.{Whole};
ghost use Rattle.carbon_script.specs.Command.{asked, ask_word, behind, clock_moment, clock_word, command_in, command_of, drain_word, is_command, plan_word, set_clock, word_command, write_word, TakesMemory};
ghost use Rattle.carbon_script.specs.SeenCommand.{seen_command, IsSound};

use crate::command::Command;
use fixed_num::{legal_moment, read_whole};
use metric_line::{LineFault, read_line_over};
use metric_path::MetricPath;
use std::alloc::{AllocError, Global};

/// Reads a line of a script, while its clock stands at `now`. Memory is taken for the path of a metric line that is accepted, and for
/// nothing else: that of the spare path, where there is one.
pub fn read_command<'a>(
    alloc: Global,
    spare: &mut Option<MetricPath>,
    line: &'a [u8],
    now: u32,
) -> Result<Command<'a>, AllocError>
    requires { is_moment now ≡ true }
    ensures command { IfOk result
        (λ command. seen_command command ≡ command_of (Whole line.now) now) }
    ensures sound { IfOk result IsSound }
    ensures memory { OnErr result (TakesMemory (command_of (Whole line.now) now)) }
{
    if is_command(line) {
        return Ok(read_command_in(line));
    }
    match read_line_over(alloc, spare, line, now) {
        Ok(datum) => Ok(Command::Metric(datum)),
        Err(LineFault::NoMemory) => Err(AllocError),
        Err(fault) => Ok(Command::Refused(fault)),
    }
}

fn is_command(line: &[u8]) -> bool
    ensures { result ≡ is_command line.now }
{
    line.starts_with(b"!")
}

#[tactic(auto, unfolding(crate::specs::Command::command_in))]
fn read_command_in(line: &[u8]) -> Command<'_>
    ensures command { seen_command result ≡ command_in line.now }
    ensures sound { IsSound result }
{
    if let Some(moment) = read_set_clock(line) {
        return Command::Clock(moment);
    }
    if let Some(query) = read_asked(line) {
        return Command::Ask(query);
    }
    read_word(line)
}

#[tactic(auto, unfolding(crate::specs::Command::word_command))]
fn read_word(line: &[u8]) -> Command<'_>
    ensures command { seen_command result ≡ word_command line.now }
    ensures sound { IsSound result }
{
    if is_plan(line) {
        return Command::Plan;
    }
    if is_write(line) {
        return Command::Write;
    }
    if is_drain(line) {
        return Command::DrainAll;
    }
    Command::Bad
}

#[tactic(auto, unfolding(crate::specs::Command::plan_word))]
fn is_plan(line: &[u8]) -> bool
    ensures { result ≡ bytes_eq line.now plan_word }
{
    line == b"!plan".as_slice()
}

#[tactic(auto, unfolding(crate::specs::Command::write_word))]
fn is_write(line: &[u8]) -> bool
    ensures { result ≡ bytes_eq line.now write_word }
{
    line == b"!write".as_slice()
}

#[tactic(auto, unfolding(crate::specs::Command::drain_word))]
fn is_drain(line: &[u8]) -> bool
    ensures { result ≡ bytes_eq line.now drain_word }
{
    line == b"!drain".as_slice()
}

#[tactic(auto, unfolding(crate::specs::Command::set_clock))]
fn read_set_clock(line: &[u8]) -> Option<u32>
    ensures moment { result ≡ set_clock line.now }
    ensures legal { IfSome result (λ t. is_moment t ≡ true) }
{
    read_clock_moment(behind_clock_word(line)?)
}

#[tactic(auto, unfolding(crate::specs::Command::clock_moment))]
fn read_clock_moment(text: &[u8]) -> Option<u32>
    ensures moment { result ≡ clock_moment text.now }
    ensures legal { IfSome result (λ t. is_moment t ≡ true) }
{
    legal_moment(read_short_number(text)?)
}

fn read_short_number(text: &[u8]) -> Option<u64>
    ensures { result ≡ (if nat_le (length text.now) 10 then whole_number text.now else None) }
{
    if text.len() <= 10 {
        read_whole(text)
    } else {
        None
    }
}

#[tactic(auto, unfolding(crate::specs::Command::asked))]
fn read_asked(line: &[u8]) -> Option<&[u8]>
    ensures { option_map (λ query. query.now) result ≡ asked line.now }
{
    behind_ask_word(line)
}

#[tactic(auto, unfolding(crate::specs::Command::clock_word))]
fn behind_clock_word(text: &[u8]) -> Option<&[u8]>
    ensures { option_map (λ rest. rest.now) result ≡ behind clock_word text.now }
{
    behind(b"!clock ", text)
}

#[tactic(auto, unfolding(crate::specs::Command::ask_word))]
fn behind_ask_word(text: &[u8]) -> Option<&[u8]>
    ensures { option_map (λ rest. rest.now) result ≡ behind ask_word text.now }
{
    behind(b"!ask ", text)
}

/// What stands behind a word that begins a text.
fn behind<'a>(word: &[u8], text: &'a [u8]) -> Option<&'a [u8]>
    ensures { option_map (λ rest. rest.now) result ≡ behind word.now text.now }
{
    if text.starts_with(word) {
        Some(&text[word.len()..])
    } else {
        None
    }
}
