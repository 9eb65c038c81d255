//! Drains into a file, and what its archives hold then.
ghost use Rattle.point_cache.specs.Points.{IsRising};

use crate::fetches::are_legal;
use crate::rings::{case_fault_of, disk_of, put_cell, put_piece, read_of};
use crate::told::{tell_value, tell_whether};
use crate::words::{path_in, place_in, points_in};
use archive_update::plan;
use case_lines::{Case, CaseFault, Told, read_small, read_text};
use fixed_num::{Milli, wide};
use outside_io::DiskCalls;
use ring_archive::RingView;
use ring_format::{CellWrite, HEAD_BYTES, Layout, Patch, VERSION, write_head};
use std::alloc::{AllocError, Global};

/// The file of a metric, and how often the disk was called for its last drain.
#[derive(Drop)]
pub struct Kept {
    layout: Layout,
    file: Vec<u8>,
    calls: Option<DiskCalls>,
}

impl Kept {
    /// A file of this layout with zero in each cell.
    pub fn new(alloc: Global, layout: Layout) -> Result<Kept, AllocError> {
        let mut file = vec![in alloc; 0; layout.file_size() as usize]?;
        let mut head = [0; HEAD_BYTES];
        let length = write_head(&layout, &mut head);
        put_piece(0, head.get(..length).unwrap_or(&[]), &mut file);
        Ok(Kept {
            layout,
            file,
            calls: None,
        })
    }

    /// Drains points, whose times rise, into the file at a moment.
    pub fn drain(
        &mut self,
        alloc: Global,
        points: &[(u32, Milli)],
        now: u32,
    ) -> Result<(), CaseFault>
        requires { IsRising points.now }
    {
        let planned = plan_points(alloc, self.layout, &self.file, points, now)?;
        self.calls = Some(planned.calls);
        for (place, held) in planned.patch.cells() {
            let cell = CellWrite {
                archive: place.0,
                slot: place.1,
                bucket: held.0,
                value: held.1,
            };
            put_cell(&self.layout, &cell, &mut self.file);
        }
        Ok(())
    }

    // The step of an archive.
    fn step(&self, archive: u32, told: &mut Told) -> u32 {
        if archive >= self.layout.archive_count() {
            told.malformed();
            return 0;
        }
        self.layout.archive(archive).step
    }

    /// The value of a bucket of an archive.
    pub fn value(
        &self,
        alloc: Global,
        archive: u32,
        bucket: u32,
    ) -> Result<Option<Milli>, CaseFault> {
        value_in(alloc, self.layout, &self.file, archive, bucket)
    }
}

// What a drain is to write, and how often the disk was called for it.
#[derive(Drop)]
struct Planned {
    patch: Patch,
    calls: DiskCalls,
}

fn plan_points(
    alloc: Global,
    layout: Layout,
    file: &[u8],
    points: &[(u32, Milli)],
    now: u32,
) -> Result<Planned, CaseFault>
    requires { IsRising points.now }
{
    if !are_legal(points) || (file.len() as u64) < layout.file_size() {
        return Err(CaseFault::Malformed);
    }
    let path = path_in(alloc, b"a")?;
    let mut disk = disk_of(alloc, "a", &layout, VERSION, file)?;
    let view = RingView::new("a", layout, VERSION);
    let patch = Patch::new(alloc, path, layout, false);
    match plan(alloc, &view, &mut disk, patch, points, now) {
        Ok(patch) => Ok(Planned {
            patch,
            calls: disk.calls(),
        }),
        Err(left) => Err(case_fault_of(left.1)),
    }
}

// The value of a bucket in a file with these bytes.
fn value_in(
    alloc: Global,
    layout: Layout,
    file: &[u8],
    archive: u32,
    bucket: u32,
) -> Result<Option<Milli>, CaseFault> {
    if archive >= layout.archive_count() {
        return Err(CaseFault::Malformed);
    }
    let patch = Patch::new(alloc, path_in(alloc, b"a")?, layout, false);
    let mut disk = disk_of(alloc, "a", &layout, VERSION, file)?;
    let view = RingView::new("a", layout, VERSION);
    let found = view.cell_at(&mut disk, &patch, archive, bucket);
    read_of(found)
}

/// `batch ARCHIVES METHOD FACTOR WORD..`: `POINTS@NOW` drains points into a file, and `ARCHIVE/BUCKET` tells the value of a bucket.
/// `ARCHIVE/LAST-COUNT` tells those values that are known of so many buckets up to a last one, each as `PLACE:VALUE,`, counted back from it,
/// and a stop.
/// Of the last drain `reads` tells how often the disk was read, `longest` the most bytes of a read, and `reads<=N` whether it is at most N.
pub fn tell_batch(alloc: Global, told: &mut Told, case: &Case, layout: Layout) {
    match Kept::new(alloc, layout) {
        Ok(kept) => take_words(alloc, told, kept, case.rest(3)),
        Err(_) => told.fail(CaseFault::NoMemory),
    }
}

fn take_words(alloc: Global, told: &mut Told, kept: Kept, words: &[Vec<u8>]) {
    let mut kept = kept;
    for word in words {
        let word = read_text(word, told);
        take_word(alloc, told, &mut kept, word);
    }
}

fn take_word(alloc: Global, told: &mut Told, kept: &mut Kept, word: &str) {
    if let Some((points, now)) = word.split_once('@') {
        return drain_word(alloc, told, kept, points, now);
    }
    told.push_blank();
    if let Some((last, count)) = word.split_once('-') {
        return tell_row(alloc, told, kept, last, count);
    }
    if word.contains('/') {
        return tell_bucket(alloc, told, kept, word);
    }
    tell_calls(told, kept.calls, word);
}

fn tell_bucket(alloc: Global, told: &mut Told, kept: &Kept, word: &str) {
    let place = place_in(word, told);
    match kept.value(alloc, place.archive, place.at) {
        Ok(value) => tell_value(told, value),
        Err(fault) => told.fail(fault),
    }
}

fn tell_row(alloc: Global, told: &mut Told, kept: &Kept, last: &str, count: &str) {
    let last = place_in(last, told);
    let step = kept.step(last.archive, told);
    for place in 0..read_small(count, told) {
        let bucket = last.at.saturating_sub(step.saturating_mul(place));
        tell_known(told, place, kept.value(alloc, last.archive, bucket));
    }
    told.push('.');
}

fn tell_known(told: &mut Told, place: u32, value: Result<Option<Milli>, CaseFault>) {
    match value {
        Ok(Some(value)) => write!(told, "{place}:{},", wide(value)),
        Ok(None) => {}
        Err(fault) => told.fail(fault),
    }
}

fn drain_word(alloc: Global, told: &mut Told, kept: &mut Kept, points: &str, now: &str) {
    let points = points_in(alloc, points, told);
    let now = read_small(now, told);
    if let Err(fault) = kept.drain(alloc, points.list(), now) {
        told.fail(fault);
    }
}

fn tell_calls(told: &mut Told, calls: Option<DiskCalls>, word: &str) {
    match calls {
        Some(calls) => tell_calls_of(told, calls, word),
        None => told.malformed(),
    }
}

fn tell_calls_of(told: &mut Told, calls: DiskCalls, word: &str) {
    let Some((count, most)) = word.split_once("<=") else {
        let count = count_of(calls, word, told);
        return write!(told, "{count}");
    };
    let count = count_of(calls, count, told);
    let most = read_small(most, told);
    tell_whether(told, count <= u64::from(most));
}

fn count_of(calls: DiskCalls, word: &str, told: &mut Told) -> u64 {
    match word {
        "reads" => calls.reads,
        "longest" => calls.longest_read,
        _ => {
            told.malformed();
            0
        }
    }
}
