//! What `clap` is told of the command line.
ghost use Rattle.std.specs.Prelude.{◌≡◌, false, IfOk};
ghost use Rattle.clap.specs.Words.{app_of, rule_of};
ghost use Rattle.carbon_words.specs.CommandLine.{carbon, command_app, flag_rule, number_rule, option_rule, repeatable_rule, sample_app, serve_app};

use clap::{Arg, ArgAction, Command};
use std::alloc::{AllocError, Global};

// An option that has a value, of this name.
fn option<'a>(alloc: Global, name: &'a str) -> Arg<'a>
    ensures rule { rule_of result ≡ option_rule name.entry.now }
    ensures local { result.global ≡ false }
{
    Arg::new(alloc, name).long(name)
}

// An option that stands alone, of this name.
fn flag<'a>(alloc: Global, name: &'a str) -> Arg<'a>
    ensures rule { rule_of result ≡ flag_rule name.entry.now }
    ensures local { result.global ≡ false }
{
    Arg::new(alloc, name).action(ArgAction::SetTrue).long(name)
}

// An option that has a value, of this name. It may be given several times.
fn repeatable<'a>(alloc: Global, name: &'a str) -> Arg<'a>
    ensures rule { rule_of result ≡ repeatable_rule name.entry.now }
    ensures local { result.global ≡ false }
{
    Arg::new(alloc, name).action(ArgAction::Append).long(name)
}

// A number that has to stand behind a command, under this name.
fn number<'a>(alloc: Global, name: &'a str) -> Arg<'a>
    ensures rule { rule_of result ≡ number_rule name.entry.now }
    ensures local { result.global ≡ false }
{
    Arg::new(alloc, name).required(true)
}

// A command of this name. Each says the limit, the order, and whether there is a redo log.
fn command<'a>(alloc: Global, name: &'a str) -> Result<Command<'a>, AllocError>
    ensures { IfOk result (λ c. app_of c ≡ command_app name.entry.now) }
{
    Command::new(alloc, name)
        .disable_help_flag(true)
        .arg(option(alloc, "limit"))?
        .arg(option(alloc, "order"))?
        .arg(flag(alloc, "redo"))
}

// The words behind `serve`.
fn serve<'a>(alloc: Global) -> Result<Command<'a>, AllocError>
    ensures { IfOk result (λ c. app_of c ≡ serve_app) }
{
    command(alloc, "serve")?
        .arg(option(alloc, "line-port"))?
        .arg(option(alloc, "http-port"))?
        .arg(option(alloc, "receivers"))?
        .arg(option(alloc, "renderers"))?
        .arg(option(alloc, "line-patience"))?
        .arg(option(alloc, "links"))?
        .arg(option(alloc, "answer-bytes"))?
        .arg(option(alloc, "drainers"))?
        .arg(option(alloc, "pace"))?
        .arg(option(alloc, "creates"))?
        .arg(repeatable(alloc, "line-host"))?
        .arg(repeatable(alloc, "http-host"))
}

// The words behind `sample`.
fn sample<'a>(alloc: Global) -> Result<Command<'a>, AllocError>
    ensures { IfOk result (λ c. app_of c ≡ sample_app) }
{
    command(alloc, "sample")?
        .arg(number(alloc, "start"))?
        .arg(number(alloc, "count"))
}

/// All words behind the program's name. Nothing but the commands is understood: no help is asked for, and no version.
pub(crate) fn carbon<'a>(alloc: Global) -> Result<Command<'a>, AllocError>
    ensures { IfOk result (λ c. app_of c ≡ carbon) }
{
    Command::new(alloc, "carbon")
        .no_binary_name(true)
        .disable_help_flag(true)
        .disable_help_subcommand(true)
        .disable_version_flag(true)
        .subcommand_required(true)
        .subcommand(command(alloc, "script")?)?
        .subcommand(serve(alloc)?)?
        .subcommand(sample(alloc)?)
}
