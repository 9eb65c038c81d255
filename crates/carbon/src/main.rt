//! The storage daemon: its words, its standard streams, its disks, the system's clock and ports, and its exit status. All else is `carbon_run::run`.
//!
//! The ring files stand below the working folder, those of class 0 in `data/00`, and so on to `data/15`.
#![tactic(auto)]

mod host_folder;
mod host_net;
mod host_threads;
mod unready;

use carbon_run::run;
use carbon_words::{Command, ServeOptions, WordsFault, read_words, words};
use host_folder::{conf_folder, folders, hold_folders, want_descriptors};
use host_net::{HostNet, close_at_stop, net_settings};
use host_threads::want_threads;
use outside_io::{StdSink, StdSource};
use std::alloc::Global;
use std::io::ErrorKind;
use std::process::ExitCode;
use std::sync::Wait;
use std::thread::Threads;
use std::{env, thread};
use tcp_net::{NetCloser, SystemClock, TcpNet};
use unready::Unready;

/// Where the program is begun by its launcher, this variable is set: then the end of the standard input is a stop.
const STOPS_AT_END: &str = "CARBON_STOPS_AT_END";

/// The exit status where a line could not be written.
const WRITE_FAULT: u8 = 7;

fn main(rt: HostRuntime) -> ExitCode {
    let status = match start(&rt, rt) {
        Ok(status) => status,
        Err(unready) => match println!(rt; "carbon: {unready}") {
            Ok(()) => unready.status(),
            Err(_) => WRITE_FAULT,
        },
    };
    ExitCode::from(status)
}

// Runs what the words say, and answers its exit status. Words that are no command touch nothing.
fn start<H: Threads + Wait + Sync>(threads: &H, rt: HostRuntime) -> Result<u8, Unready> {
    let alloc = rt.alloc();
    let words = words(&rt, alloc).map_err(|_| Unready::NoMemory)?;
    let command = command_of(alloc, &words)?;
    let _held = match &command {
        Some(command) => Some(hold_folders(&rt, matches!(command, Command::Serve(..)))?),
        None => None,
    };
    match command {
        Some(Command::Serve(_, options)) => serve(threads, rt, &words, &options),
        _ => run_with(threads, rt, &words, None),
    }
}

// What the words say, where they are a command.
fn command_of(alloc: Global, words: &[String]) -> Result<Option<Command>, Unready> {
    match read_words(alloc, words) {
        Ok(command) => Ok(Some(command)),
        Err(WordsFault::Usage) => Ok(None),
        Err(WordsFault::NoMemory) => Err(Unready::NoMemory),
    }
}

// Binds the ports and listens for the stop.
fn serve<H: Threads + Wait + Sync>(
    threads: &H,
    rt: HostRuntime,
    words: &[String],
    options: &ServeOptions,
) -> Result<u8, Unready> {
    want_descriptors(options)?;
    want_threads(threads, rt, options)?;
    let settings = net_settings(rt.alloc(), options)?;
    match TcpNet::new(rt.alloc(), rt, settings) {
        Ok(net) => {
            listen_for_stop(threads, rt, net.closer()?)?;
            run_with(threads, rt, words, Some(net))
        }
        Err(error) if error.kind() == ErrorKind::OutOfMemory => Err(Unready::NoMemory),
        Err(_) => run_with(threads, rt, words, None),
    }
}

// The thread is never joined: it may wait for a line when all else has ended.
fn listen_for_stop<H: Threads>(
    threads: &H,
    rt: HostRuntime,
    closer: NetCloser,
) -> Result<(), Unready> {
    let stops_at_end = env::var(&rt, STOPS_AT_END).is_ok();
    match thread::spawn(threads, move || close_at_stop(rt, closer, stops_at_end)) {
        Ok(_) => Ok(()),
        Err(_) => Err(Unready::NoThread),
    }
}

// The folders of a command that has ports are to be written.
fn run_with<H: Threads + Wait + Sync>(
    threads: &H,
    rt: HostRuntime,
    words: &[String],
    net: Option<TcpNet<HostRuntime>>,
) -> Result<u8, Unready> {
    let alloc = rt.alloc();
    let disks = folders(&rt, net.is_some())?;
    let mut input = StdSource::new(&rt);
    let mut out = StdSink::new(rt.clone()?);
    let mut conf = conf_folder(&rt)?;
    let clock = SystemClock::new(rt);
    let mut net = HostNet::new(rt, net);
    let report = run(
        threads, alloc, words, &mut input, &mut out, &mut conf, disks, &clock, &mut net,
    );
    Ok(report.status)
}
