//! What a run is given.
ghost use Rattle.std.specs.Prelude.{◌≡◌, IfOk, vec_len};

use crate::command::{DiskSetting, Setting};
use crate::disk_case::{DiskCase, kept};
use crate::fault::CaseFault;
use crate::text::{first_word, number, numbers, unescaped};
use outside_io::{MemDisk, MemLink, MemSink, MemSource};
use std::alloc::{AllocError, Global};

/// How many classes there are, each with a disk of its own.
pub const CLASSES: usize = metric_path::CLASSES as usize;

/// All that a run is given.
#[derive(Drop)]
pub struct Case {
    /// The words behind the program's name.
    pub words: Vec<String>,
    /// The bytes of the input.
    pub input: Vec<u8>,
    /// Whether the case is run once for each place of the input, with a cut there.
    pub is_cut_each: bool,
    cuts: Vec<usize>,
    most_read: u64,
    failing_reads: Vec<u64>,
    most_written: u64,
    failing_writes: Vec<u64>,
    // what connections of metric lines bring
    links: Vec<Vec<u8>>,
    /// The folder of the rule files.
    pub conf: DiskCase,
    disks: Vec<DiskCase>,
}

impl Case {
    ghost use Rattle.std.specs.Prelude.{◌≡◌, IfOk, vec_len};

    /// The word `script`, no input, no connections and no files; and nothing fails.
    pub fn new(alloc: Global) -> Result<Case, AllocError> {
        Ok(Case {
            words: words_of(alloc, "script")?,
            input: Vec::new(alloc),
            is_cut_each: false,
            cuts: Vec::new(alloc),
            most_read: u64::MAX,
            failing_reads: Vec::new(alloc),
            most_written: u64::MAX,
            failing_writes: Vec::new(alloc),
            links: Vec::new(alloc),
            conf: DiskCase::new(alloc),
            disks: empty_disks(alloc)?,
        })
    }

    /// Does a line about the run, without its first word.
    pub fn set(&mut self, alloc: Global, setting: Setting, text: &str) -> Result<(), CaseFault> {
        match setting {
            Setting::Words => self.words = words_of(alloc, text)?,
            Setting::Line => self.add_line(alloc, text)?,
            Setting::Input => self.add_input(alloc, text)?,
            Setting::NoInput => self.input.clear(),
            Setting::Schemas => self.put_rules(alloc, "storage-schemas.conf", text)?,
            Setting::Aggregations => self.put_rules(alloc, "storage-aggregation.conf", text)?,
            Setting::Cut => self.set_cuts(alloc, text)?,
            Setting::MostRead => self.most_read = number(text)?,
            Setting::FailRead => self.failing_reads = numbers(alloc, text)?,
            Setting::MostWritten => self.most_written = number(text)?,
            Setting::FailWrite => self.failing_writes = numbers(alloc, text)?,
            Setting::Link => self.add_link(alloc, text)?,
        }
        Ok(())
    }

    /// Does a line about a disk, without its first word.
    pub fn set_disk(
        &mut self,
        alloc: Global,
        setting: DiskSetting,
        text: &str,
    ) -> Result<(), CaseFault> {
        let (word, text) = first_word(text);
        if word == "conf" {
            return self.conf.set(alloc, setting, text);
        }
        let class = number(word)?;
        match self.disks.get_mut(class as usize) {
            Some(disk) => disk.set(alloc, setting, text),
            None => Err(CaseFault::Malformed),
        }
    }

    /// Takes the files that these disks have in place of its own.
    pub fn keep(&mut self, alloc: Global, disks: &mut Vec<MemDisk>) -> Result<(), CaseFault> {
        let mut cases = Vec::new(alloc);
        for disk in disks.iter_mut() {
            cases.push(kept(alloc, disk)?)?;
        }
        self.disks = cases;
        Ok(())
    }

    fn add_line(&mut self, alloc: Global, text: &str) -> Result<(), CaseFault> {
        self.add_input(alloc, text)?;
        self.input.push(b'\n')?;
        Ok(())
    }

    fn add_input(&mut self, alloc: Global, text: &str) -> Result<(), CaseFault> {
        let bytes = unescaped(alloc, text)?;
        self.input.extend_from_slice(&bytes)?;
        Ok(())
    }

    fn add_link(&mut self, alloc: Global, text: &str) -> Result<(), CaseFault> {
        let bytes = unescaped(alloc, text)?;
        self.links.push(bytes)?;
        Ok(())
    }

    fn put_rules(&mut self, alloc: Global, name: &str, text: &str) -> Result<(), CaseFault> {
        let bytes = unescaped(alloc, text)?;
        self.conf.put(alloc, name, bytes)?;
        Ok(())
    }

    fn set_cuts(&mut self, alloc: Global, text: &str) -> Result<(), CaseFault> {
        self.is_cut_each = text == "each";
        self.cuts = Vec::new(alloc);
        if !self.is_cut_each {
            for place in numbers(alloc, text)? {
                self.cuts.push(place as usize)?;
            }
        }
        Ok(())
    }

    /// The input for a run, with one more cut.
    pub fn source(&self, alloc: Global, cut: Option<usize>) -> Result<MemSource, AllocError> {
        let mut cuts = self.cuts.clone()?;
        if let Some(cut) = cut {
            cuts.push(cut)?;
        }
        let source = MemSource::new(alloc, self.input.clone()?)
            .cut_at(cuts)
            .failing(self.failing_reads.clone()?);
        if self.most_read == 0 {
            return Ok(source);
        }
        Ok(source.at_most(self.most_read as usize))
    }

    /// The output for a run.
    pub fn sink(&self, alloc: Global) -> Result<MemSink, AllocError> {
        let sink = MemSink::new(alloc).failing(self.failing_writes.clone()?);
        if self.most_written == 0 {
            return Ok(sink);
        }
        Ok(sink.at_most(self.most_written as usize))
    }

    /// The connections of metric lines for a run.
    pub fn links(&self, alloc: Global) -> Result<Vec<MemLink>, AllocError> {
        let mut links = Vec::new(alloc);
        for bytes in &self.links {
            links.push(link_of(alloc, bytes.clone()?))?;
        }
        Ok(links)
    }

    /// The disks for a run.
    pub fn disks(&self, alloc: Global) -> Result<Vec<MemDisk>, AllocError>
        ensures { IfOk result (λ disks. vec_len disks ≡ 16) }
    {
        let mut disks = Vec::with_capacity(alloc, CLASSES)?;
        for class in 0..CLASSES {
            disks.push(self.disk(alloc, class)?)?;
        }
        Ok(disks)
    }

    fn disk(&self, alloc: Global, class: usize) -> Result<MemDisk, AllocError> {
        match self.disks.get(class) {
            Some(disk) => disk.disk(alloc),
            None => Ok(MemDisk::new(alloc, 0)),
        }
    }
}

// A connection that brings these bytes and is closed then.
fn link_of(alloc: Global, bytes: Vec<u8>) -> MemLink {
    MemLink {
        source: MemSource::new(alloc, bytes),
        sink: MemSink::new(alloc),
    }
}

fn empty_disks(alloc: Global) -> Result<Vec<DiskCase>, AllocError> {
    let mut disks = Vec::new(alloc);
    for _ in 0..CLASSES {
        disks.push(DiskCase::new(alloc))?;
    }
    Ok(disks)
}

// The words of a line, separated by blanks: `""` is a word of no bytes, and `_` stands for a blank.
fn words_of(alloc: Global, text: &str) -> Result<Vec<String>, AllocError> {
    let mut words = Vec::new(alloc);
    for word in text.split(' ') {
        match word {
            _ if word.is_empty() => {}
            _ if word == "\"\"" => words.push(String::new(alloc))?,
            _ => words.push(word_of(alloc, word)?)?,
        }
    }
    Ok(words)
}

fn word_of(alloc: Global, text: &str) -> Result<String, AllocError> {
    let mut word = String::new(alloc);
    for letter in text.chars() {
        word.push(if letter == '_' { ' ' } else { letter })?;
    }
    Ok(word)
}
