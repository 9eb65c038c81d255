//! The drains that are walked.

use crate::words::{cells_in, layout_in, values_in};
use case_lines::{CaseFault, number_in, small_in};
use fixed_num::Milli;
use metric_path::MetricPath;
use ring_format::{CellWrite, Layout};
use std::alloc::Global;

/// What a question shows.
#[derive(Drop)]
pub struct Shows {
    pub now: u64,
    pub from: u64,
    pub until: u64,
    pub values: Vec<Option<Milli>>,
}

/// A drain, and what its metric shows behind it.
#[derive(Drop)]
pub struct Drained {
    pub path: Vec<u8>,
    /// Of its file.
    pub name: String,
    pub is_new: bool,
    pub layout: Layout,
    pub cells: Vec<CellWrite>,
    pub shows: Vec<Shows>,
}

/// A class, and its drains in order.
#[derive(Drop)]
pub struct Class {
    pub number: u32,
    pub drains: Vec<Drained>,
}

/// Classes.
#[derive(Drop)]
pub struct Script {
    alloc: Global,
    classes: Vec<Class>,
    // that of the last drain
    latest: u32,
}

impl Script {
    /// No drains.
    pub fn new(alloc: Global) -> Script {
        Script {
            alloc,
            classes: Vec::new(alloc),
            latest: 0,
        }
    }

    /// The classes in the order in which they came.
    pub fn classes(&self) -> &[Class] {
        self.classes.as_slice()
    }

    /// Takes a line.
    pub fn take(&mut self, alloc: Global, line: &str) -> Result<(), CaseFault> {
        if line.is_empty() || line.starts_with('#') {
            return Ok(());
        }
        let words = words_of(alloc, line)?;
        match words.as_slice() {
            [verb, class, path, state, archives, cells] if *verb == "drain" => {
                let drained = drained_of(alloc, path, state, archives, cells)?;
                self.put(small_in(class)?, drained)
            }
            [verb, now, from, until, values] if *verb == "shows" => {
                let shows = shows_of(alloc, now, from, until, values)?;
                self.put_shows(shows)
            }
            _ => Err(CaseFault::Malformed),
        }
    }

    fn put(&mut self, number: u32, drained: Drained) -> Result<(), CaseFault> {
        self.latest = number;
        for class in &mut self.classes {
            if class.number == number {
                class.drains.push(drained)?;
                return Ok(());
            }
        }
        let mut drains = Vec::new(self.alloc);
        drains.push(drained)?;
        self.classes.push(Class { number, drains })?;
        Ok(())
    }

    // Puts it to the last drain.
    fn put_shows(&mut self, shows: Shows) -> Result<(), CaseFault> {
        for class in &mut self.classes {
            if class.number == self.latest {
                return put_last(&mut class.drains, shows);
            }
        }
        Err(CaseFault::Malformed)
    }
}

fn put_last(drains: &mut [Drained], shows: Shows) -> Result<(), CaseFault> {
    match drains.last_mut() {
        Some(drained) => {
            drained.shows.push(shows)?;
            Ok(())
        }
        None => Err(CaseFault::Malformed),
    }
}

fn words_of(alloc: Global, line: &str) -> Result<Vec<&str>, CaseFault> {
    let mut words = Vec::new(alloc);
    for word in line.split(' ') {
        words.push(word)?;
    }
    Ok(words)
}

fn drained_of(
    alloc: Global,
    path: &str,
    state: &str,
    archives: &str,
    cells: &str,
) -> Result<Drained, CaseFault> {
    let Ok(metric) = MetricPath::new(alloc, path.as_bytes()) else {
        return Err(CaseFault::Malformed);
    };
    let layout = layout_in(alloc, archives)?;
    Ok(Drained {
        path: path.as_bytes().to_vec(alloc)?,
        name: metric.file_name()?,
        is_new: is_new(state)?,
        layout,
        cells: cells_in(alloc, &layout, cells)?,
        shows: Vec::new(alloc),
    })
}

fn is_new(state: &str) -> Result<bool, CaseFault> {
    match state {
        "new" => Ok(true),
        "old" => Ok(false),
        _ => Err(CaseFault::Malformed),
    }
}

fn shows_of(
    alloc: Global,
    now: &str,
    from: &str,
    until: &str,
    values: &str,
) -> Result<Shows, CaseFault> {
    Ok(Shows {
        now: number_in(now)?,
        from: number_in(from)?,
        until: number_in(until)?,
        values: values_in(alloc, values)?,
    })
}
