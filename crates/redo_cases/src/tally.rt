//! What was walked.

use crate::moment::{MOMENTS, Moment};
use std::alloc::{AllocError, Global};

// How many images there were behind a call.
#[derive(Clone, Copy)]
struct Row {
    moment: Moment,
    drains: u64,
    starts: u64,
}

/// How many images were walked, by the call that the crash came behind.
#[derive(Drop)]
pub struct Tally {
    rows: Vec<Row>,
    other_logs: u64,
    wrong: u64,
}

impl Tally {
    /// None yet.
    pub fn new(alloc: Global) -> Result<Tally, AllocError> {
        let mut rows = Vec::new(alloc);
        for moment in MOMENTS {
            rows.push(Row {
                moment,
                drains: 0,
                starts: 0,
            })?;
        }
        Ok(Tally {
            rows,
            other_logs: 0,
            wrong: 0,
        })
    }

    /// One image more, of a crash in a drain.
    pub fn add_in_drain(&mut self, moment: Moment) {
        for row in &mut self.rows {
            if row.moment == moment {
                row.drains = row.drains.saturating_add(1);
            }
        }
    }

    /// One image more, of a crash in a start.
    pub fn add_in_start(&mut self, moment: Moment) {
        for row in &mut self.rows {
            if row.moment == moment {
                row.starts = row.starts.saturating_add(1);
            }
        }
    }

    /// One log more that is no body.
    pub fn add_other_log(&mut self) {
        self.other_logs = self.other_logs.saturating_add(1);
    }

    /// One image more that came to something else.
    pub fn add_wrong(&mut self) {
        self.wrong = self.wrong.saturating_add(1);
    }

    /// Writes all counts.
    pub fn write(&self, page: &mut String) -> Result<(), AllocError> {
        let mut drains: u64 = 0;
        let mut starts: u64 = 0;
        for row in &self.rows {
            write_row(page, row)?;
            drains = drains.saturating_add(row.drains);
            starts = starts.saturating_add(row.starts);
        }
        writeln!(page, "in all: {drains} in drains, {starts} in starts")?;
        writeln!(page, "logs of another length: {}", self.other_logs)?;
        writeln!(page, "wrong: {}", self.wrong)
    }
}

fn write_row(page: &mut String, row: &Row) -> Result<(), AllocError> {
    if row.drains == 0 && row.starts == 0 {
        return Ok(());
    }
    let text = row.moment.text();
    writeln!(
        page,
        "{text}: {} in drains, {} in starts",
        row.drains, row.starts
    )
}
