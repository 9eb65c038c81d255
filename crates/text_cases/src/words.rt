//! Words of the command line.

use carbon_words::{
    Command, DrainOptions, Hosts, Options, SampleOptions, ServeOptions, WordsFault, read_words,
    words,
};
use case_lines::{Case, CaseFault, Told, push_item, string_of};
use drain_order::Strategy;
use std::alloc::Global;
use std::env::{Env, FillError};

/// A command line, and no variables.
#[derive(Drop)]
struct Arguments<'a> {
    words: &'a [Vec<u8>],
}

impl<'a> Env for Arguments<'a> {
    fn arg(&self, i: usize, buf: &mut [u8]) -> Result<usize, FillError> {
        let Some(word) = self.words.get(i) else {
            return Err(FillError::NotPresent);
        };
        let Some(room) = buf.get_mut(..word.len()) else {
            return Err(FillError::TooLong);
        };
        room.copy_from_slice(word);
        Ok(word.len())
    }

    fn var(&self, _name: &str, _buf: &mut [u8]) -> Result<usize, FillError> {
        Err(FillError::NotPresent)
    }

    fn var_at(&self, _i: usize, _buf: &mut [u8]) -> Result<usize, FillError> {
        Err(FillError::NotPresent)
    }
}

/// `arguments NAME WORD..`: the command of a command line, behind the program's name, or `usage`. Its words need be no texts.
pub fn tell_arguments(alloc: Global, told: &mut Told, case: &Case) {
    let line = Arguments {
        words: case.rest(0),
    };
    match words(&line, alloc) {
        Ok(words) => tell_command(alloc, told, &words),
        Err(_) => told.fail(CaseFault::NoMemory),
    }
}

/// `words WORD..`: the command that the words are, or `usage`.
pub fn tell_words(alloc: Global, told: &mut Told, case: &Case) {
    let words = strings_of(alloc, case, told);
    tell_command(alloc, told, &words);
}

fn tell_command(alloc: Global, told: &mut Told, words: &[String]) {
    match read_words(alloc, words) {
        Ok(command) => push_command(told, command),
        Err(WordsFault::Usage) => told.push_str("usage"),
        Err(WordsFault::NoMemory) => told.fail(CaseFault::NoMemory),
    }
}

fn push_command(told: &mut Told, command: Command) {
    match command {
        Command::Script(options) => {
            told.push_str("script");
            push_options(told, options);
        }
        Command::Serve(options, more) => {
            told.push_str("serve");
            push_options(told, options);
            push_serve(told, more);
        }
        Command::Sample(options, more) => {
            told.push_str("sample");
            push_options(told, options);
            push_sample(told, more);
        }
    }
}

fn strings_of(alloc: Global, case: &Case, told: &mut Told) -> Vec<String> {
    let mut words = Vec::new(alloc);
    for at in 0..case.len() {
        let word = string_of(alloc, case.text_at(at, told), told);
        push_item(&mut words, word, told);
    }
    words
}

fn push_options(told: &mut Told, options: Options) {
    let order = match options.order {
        Strategy::Max => "max",
        Strategy::Sorted => "sorted",
        Strategy::TimeSorted => "timesorted",
        Strategy::Naive => "naive",
    };
    let redo = if options.redo { " redo" } else { "" };
    write!(told, " limit {} order {order}{redo}", options.limit);
}

fn push_serve(told: &mut Told, more: ServeOptions) {
    write!(told, " ports {} {}", more.line_port, more.http_port);
    write!(told, " receivers {}", more.receivers);
    write!(told, " renderers {}", more.renderers);
    write!(told, " patience {}", more.line_patience);
    write!(told, " links {} answer {}", more.links, more.answer_bytes);
    push_drains(told, more.drains);
    push_hosts(told, " lines-at", more.hosts.lines);
    push_hosts(told, " http-at", more.hosts.http);
}

fn push_drains(told: &mut Told, drains: DrainOptions) {
    write!(told, " drainers {}", drains.drainers);
    write!(told, " pace {} creates {}", drains.pace, drains.creates);
}

// The name of a port, and behind it its addresses with commas between them.
fn push_hosts(told: &mut Told, name: &str, hosts: Hosts) {
    told.push_str(name);
    for (place, address) in hosts.addresses().iter().enumerate() {
        let separator = if place == 0 { " " } else { "," };
        write!(told, "{separator}{address}");
    }
}

fn push_sample(told: &mut Told, more: SampleOptions) {
    write!(told, " start {} count {}", more.start, more.count);
}
