// A disk in memory.
ghost use Rattle.std.specs.Prelude.{◌≡◌, ◌↔◌, ℕ, ◌+◌, ◌-◌, ◌^◌, ◌<◌, ◌≤◌, false, true, [], length, map, min, replicate, Some, None, OnOk, OnErr, IfOk, IsErr, IsErrOf, IsTrue, IsSomeAnd, is_err, option_map, if◌then◌else◌, nat_le, string_bytes, string_cmp};
ghost use Rattle.std.specs.BTreeMap.{IsOrdered, keys};
ghost use Rattle.outside_io.specs.Calls.{fails_next, listed_calls};
ghost use Rattle.outside_io.specs.Crash.{MayAll, Only, OnlyKnown};
ghost use Rattle.outside_io.specs.DiskLog.{LogsFile, LogsRange, counted_now, left_as_read, now_alone, same_log};
ghost use Rattle.outside_io.specs.Frames.{ReadsOnly, CountsFaults};
ghost use Rattle.outside_io.specs.Image.{ListsNames, LengthIs, IsWithinFile, ReadsFile, SameImage, PutsFile, ChangesOnly, Creates, Writes, Tears, IsEmptyImage, put_over};
ghost use Rattle.outside_io.specs.MemDisk.{image_of, disk_image, held_bytes, state_of, new_state, after_names, after_length, after_create, after_read, after_write, after_sync, room_left, IsBeyondRoom, LeavesTorn, disk_may_leave, disk_moment, disk_left_since, DiskCrashes};

use crate::calls::FailingCalls;
use crate::disk::{Disk, DiskFailed, NamesFault};
use crate::disk_calls::DiskCalls;
use crate::disk_log::{DiskChange, DiskLog, OldFile, OldRange};
use crate::disk_state::DiskState;
use crate::faults::raised;
use std::alloc::{AllocError, Global};
use std::collections::BTreeMap;

/// A disk whose files lie in memory. It has room for so many bytes, may be told which of its calls fail, and
/// counts its calls. A create beyond the room fails as on a full disk, and so does one that finds no memory. A
/// call that fails changes no file, but for a write to a disk that tears.
///
/// It keeps a log of what each call changed, with what undoes it, so that contracts and tests know what a crash
/// at each moment may leave. A call that finds no memory for the log fails, and changes nothing.
#[derive(Debug, Drop)]
pub struct MemDisk {
    alloc: Global,
    files: BTreeMap<String, Vec<u8>>,
    log: DiskLog,
    state: DiskState,
}

impl MemDisk {
    /// A disk with no file and room for so many bytes. No call fails but for want of room or memory.
    pub fn new(alloc: Global, room: u64) -> Self
        ensures image { IsSomeAnd (⟦<MemDisk as Disk>⟧.image result) IsEmptyImage }
        ensures settled { OnlyKnown (⟦<MemDisk as Disk>⟧.image result)
            (⟦<MemDisk as Disk>⟧.may_leave result) }
        ensures state { state_of result ≡ new_state room }
    {
        MemDisk {
            alloc,
            files: BTreeMap::new(alloc),
            log: DiskLog::new(alloc),
            state: DiskState::new(alloc, room),
        }
    }

    /// The same disk, of which the calls with these numbers fail. `create`, `write_at` and `sync` are counted
    /// together; the next of them is number 1.
    pub fn failing(mut self, calls: Vec<u64>) -> Self
        ensures image { disk_image result ≡ disk_image self }
        ensures log { result.log ≡ self.log }
        ensures state { state_of result
            ≡ record (state_of self) { writes = listed_calls calls.items } }
    {
        self.state.writes = FailingCalls::new(calls);
        self
    }

    /// The same disk, of which the calls with these numbers fail. `names`, `length` and `read_at` are counted
    /// together; the next of them is number 1.
    pub fn failing_reads(mut self, calls: Vec<u64>) -> Self
        ensures image { disk_image result ≡ disk_image self }
        ensures log { result.log ≡ self.log }
        ensures state { state_of result
            ≡ record (state_of self) { reads = listed_calls calls.items } }
    {
        self.state.reads = FailingCalls::new(calls);
        self
    }

    /// The same disk, of which a write that fails leaves each byte of its range 255.
    pub fn tearing(mut self) -> Self
        ensures image { disk_image result ≡ disk_image self }
        ensures log { result.log ≡ self.log }
        ensures state { state_of result ≡ record (state_of self) { tears = true } }
    {
        self.state.tears = true;
        self
    }

    /// From now on no call fails but for want of room or memory.
    pub fn mend(&mut self)
        ensures image { disk_image self.new ≡ disk_image self.old }
        ensures log { self.new.log ≡ self.old.log }
        ensures state { state_of self.new
            ≡ record (state_of self.old) { writes = listed_calls []; reads = listed_calls [] } }
    {
        self.state.writes = FailingCalls::none(self.alloc);
        self.state.reads = FailingCalls::none(self.alloc);
    }

    /// How many calls there were.
    pub fn calls(&self) -> DiskCalls
        ensures { result ≡ (state_of self.now).calls }
    {
        self.state.calls
    }

    /// How many changes and syncs there were since the last `put_file`.
    pub fn moments(&self) -> u64
        ensures { result ≡ disk_moment self.now }
    {
        self.log.len() as u64
    }

    /// Puts a file on the disk, beside its room and its counted calls. All files then count as being there
    /// since before any call. At an error no file changes.
    pub fn put_file(&mut self, name: &str, bytes: Vec<u8>) -> Result<(), AllocError>
        ensures ok { OnOk result
            (PutsFile (disk_image self.old) (disk_image self.new) name.now bytes.items) }
        ensures err { OnErr result (SameImage (disk_image self.old) (disk_image self.new)) }
        ensures log { OnErr result (self.new.log ≡ self.old.log) }
        ensures settled { OnOk result (Only (disk_image self.new) (disk_may_leave self.new)) }
        ensures state { state_of self.new ≡ state_of self.old }
    {
        put_bytes(self.alloc, &mut self.files, name, bytes)?;
        self.log.clear();
        Ok(())
    }

    // Makes a file where there is room for it.
    fn make_file(&mut self, name: &str, len: u64) -> Result<(), DiskFailed>
        ensures ok { OnOk result
            (Creates (disk_image self.old) (disk_image self.new) name.now len) }
        ensures err { OnErr result (SameImage (disk_image self.old) (disk_image self.new)) }
        ensures full { IsBeyondRoom self.old name.now len → IsErr result }
        ensures state { state_of self.new
            ≡ record (state_of self.old) {
              room = room_left self.old name.now len
                  (is_err result);
            } }
        ensures crash { DiskCrashes (λ before after. ChangesOnly before after name.now)
            self.old self.new }
        ensures may { OnOk result (MayAll (λ before after. ChangesOnly before after name.now)
            (disk_may_leave self.old) (disk_may_leave self.new)) }
        ensures log { OnErr result (self.new.log ≡ self.old.log) }
    {
        let held = held_len(&self.files, name);
        let Some(room) = room_after(self.state.room, held, len) else {
            return Err(DiskFailed);
        };
        match self.put_logged(name, len) {
            Ok(()) => {
                self.state.room = room;
                Ok(())
            }
            Err(AllocError) => Err(DiskFailed),
        }
    }

    fn put_logged(&mut self, name: &str, len: u64) -> Result<(), AllocError>
        ensures ok { OnOk result
            (Creates (disk_image self.old) (disk_image self.new) name.now len) }
        ensures err { OnErr result (SameImage (disk_image self.old) (disk_image self.new)) }
        ensures state { state_of self.new ≡ state_of self.old }
        ensures crash { DiskCrashes (λ before after. ChangesOnly before after name.now)
            self.old self.new }
        ensures may { OnOk result (MayAll (λ before after. ChangesOnly before after name.now)
            (disk_may_leave self.old) (disk_may_leave self.new)) }
        ensures log { OnErr result (self.new.log ≡ self.old.log) }
    {
        log_file(self.alloc, &self.files, &mut self.log, name)?;
        let made = put_zeros(self.alloc, &mut self.files, name, len);
        if made.is_err() {
            self.log.pop();
        }
        made
    }

    // Puts a piece over bytes of a file.
    fn write_logged(&mut self, name: &str, at: u64, piece: &[u8]) -> Result<(), AllocError>
        requires { IsWithinFile (Some (disk_image self.old)) name.now at (length piece.now) }
        ensures ok { OnOk result
            (Writes (disk_image self.old) (disk_image self.new) name.now at piece.now) }
        ensures err { OnErr result (SameImage (disk_image self.old) (disk_image self.new)) }
        ensures state { state_of self.new ≡ state_of self.old }
        ensures crash { DiskCrashes
            (λ before after. Tears before after name.now at (length piece.now))
            self.old self.new }
        ensures may { OnOk result
            (MayAll (λ before after. Tears before after name.now at (length piece.now))
            (disk_may_leave self.old) (disk_may_leave self.new)) }
        ensures log { OnErr result (self.new.log ≡ self.old.log) }
    {
        log_range(
            self.alloc,
            &self.files,
            &mut self.log,
            name,
            at,
            piece.len(),
        )?;
        write_file(&mut self.files, name, at, piece);
        Ok(())
    }

    // Leaves each byte of a range 255, where the disk tears and there is memory for the log.
    fn tear(&mut self, name: &str, at: u64, count: usize)
        requires { IsWithinFile (Some (disk_image self.old)) name.now at count }
        ensures torn { LeavesTorn self.old self.new name.now at count }
        ensures state { state_of self.new ≡ state_of self.old }
        ensures crash { DiskCrashes (λ before after. Tears before after name.now at count)
            self.old self.new }
        ensures log { (state_of self.old).tears ≡ false → self.new.log ≡ self.old.log }
    {
        if self.state.tears {
            match log_range(self.alloc, &self.files, &mut self.log, name, at, count) {
                Ok(()) => tear_file(&mut self.files, name, at, count),
                Err(AllocError) => {}
            }
        }
    }
}

// Logs what stands under a name.
fn log_file(
    alloc: Global,
    files: &BTreeMap<String, Vec<u8>>,
    log: &mut DiskLog,
    name: &str,
) -> Result<(), AllocError>
    ensures ok { OnOk result (LogsFile (image_of files.now) name.now log.old log.new) }
    ensures err { OnErr result (log.new ≡ log.old) }
{
    let file = file_of(alloc, files, name)?;
    let name = String::from_str(alloc, name)?;
    log.push(DiskChange::Created(OldFile { name, file }))?;
    Ok(())
}

fn file_of(
    alloc: Global,
    files: &BTreeMap<String, Vec<u8>>,
    name: &str,
) -> Result<Option<Vec<u8>>, AllocError>
    ensures { IfOk result
        (λ file. option_map (λ bytes. bytes.items) file ≡ image_of files.now name.now) }
{
    match files.get(name) {
        Some(file) => Ok(Some(copy_of(alloc, file)?)),
        None => Ok(None),
    }
}

fn copy_of(alloc: Global, bytes: &[u8]) -> Result<Vec<u8>, AllocError>
    ensures { IfOk result (λ copy. copy.items ≡ bytes.now) }
{
    bytes.to_vec(alloc)
}

// Logs the bytes of a range of a file.
fn log_range(
    alloc: Global,
    files: &BTreeMap<String, Vec<u8>>,
    log: &mut DiskLog,
    name: &str,
    at: u64,
    count: usize,
) -> Result<(), AllocError>
    requires { IsWithinFile (Some (image_of files.now)) name.now at count }
    ensures ok { OnOk result (LogsRange (image_of files.now) name.now at count log.old log.new) }
    ensures err { OnErr result (log.new ≡ log.old) }
{
    let bytes = range_of(alloc, files, name, at, count)?;
    let name = String::from_str(alloc, name)?;
    log.push(DiskChange::Wrote(OldRange { name, at, bytes }))?;
    Ok(())
}

fn range_of(
    alloc: Global,
    files: &BTreeMap<String, Vec<u8>>,
    name: &str,
    at: u64,
    count: usize,
) -> Result<Vec<u8>, AllocError>
    requires { IsWithinFile (Some (image_of files.now)) name.now at count }
    ensures bytes { IfOk result
        (λ bytes. ReadsFile (Some (image_of files.now)) name.now at bytes.items) }
    ensures long { IfOk result (λ bytes. length bytes.items ≡ count) }
{
    let at = at as usize;
    match files.get(name) {
        Some(file) => copy_of(alloc, &file[at..at + count]),
        None => unreachable!(),
    }
}

// The room that is left after a file of one length has another.
fn room_after(room: u64, held: u64, len: u64) -> Option<u64>
    ensures { result ≡ (if nat_le len (room + held) then Some
        (min (room + held - len) (2 ^ 64 - 1)) else None) }
{
    let left = room.checked_sub(len.saturating_sub(held))?;
    Some(left.saturating_add(held.saturating_sub(len)))
}

// How many bytes a file holds, 0 where it is not there.
fn held_len(files: &BTreeMap<String, Vec<u8>>, name: &str) -> u64
    ensures { result ≡ held_bytes (image_of files.now) name.now }
{
    match files.get(name) {
        Some(file) => file.len() as u64,
        None => 0,
    }
}

#[tactic(auto, using(std::proofs::lemmas::Map::Text::text_keys))]
fn put_bytes(
    alloc: Global,
    files: &mut BTreeMap<String, Vec<u8>>,
    name: &str,
    bytes: Vec<u8>,
) -> Result<(), AllocError>
    ensures ok { OnOk result
        (PutsFile (image_of files.old) (image_of files.new) name.now bytes.items) }
    ensures err { OnErr result (SameImage (image_of files.old) (image_of files.new)) }
{
    match files.get_mut(name) {
        Some(file) => *file = bytes,
        None => {
            files.insert(String::from_str(alloc, name)?, bytes)?;
        }
    }
    Ok(())
}

fn put_zeros(
    alloc: Global,
    files: &mut BTreeMap<String, Vec<u8>>,
    name: &str,
    len: u64,
) -> Result<(), AllocError>
    ensures ok { OnOk result (Creates (image_of files.old) (image_of files.new) name.now len) }
    ensures err { OnErr result (SameImage (image_of files.old) (image_of files.new)) }
{
    let zeros = vec![in alloc; 0; len as usize]?;
    put_bytes(alloc, files, name, zeros)
}

#[tactic(auto, using(std::proofs::lemmas::Map::Text::text_keys))]
fn write_file(files: &mut BTreeMap<String, Vec<u8>>, name: &str, at: u64, piece: &[u8])
    requires { IsWithinFile (Some (image_of files.old)) name.now at (length piece.now) }
    ensures { Writes (image_of files.old) (image_of files.new) name.now at piece.now }
{
    match files.get_mut(name) {
        Some(file) => put_piece(file, at as usize, piece),
        None => unreachable!(),
    }
}

fn put_piece(file: &mut Vec<u8>, at: usize, piece: &[u8])
    requires { at + length piece.now ≤ length file.old.items }
    ensures { file.new.items ≡ put_over file.old.items at piece.now }
{
    file[at..at + piece.len()].copy_from_slice(piece);
}

// Fills a range of a file with the byte 255.
#[tactic(auto, using(std::proofs::lemmas::Map::Text::text_keys))]
fn tear_file(files: &mut BTreeMap<String, Vec<u8>>, name: &str, at: u64, count: usize)
    requires { IsWithinFile (Some (image_of files.old)) name.now at count }
    ensures { Writes (image_of files.old) (image_of files.new) name.now at (replicate count 255) }
{
    match files.get_mut(name) {
        Some(file) => fill_range(file, at as usize, count),
        None => unreachable!(),
    }
}

fn fill_range(file: &mut Vec<u8>, at: usize, count: usize)
    requires { at + count ≤ length file.old.items }
    ensures { file.new.items ≡ put_over file.old.items at (replicate count 255) }
{
    file[at..at + count].fill(255);
}

fn read_file(files: &BTreeMap<String, Vec<u8>>, name: &str, at: u64, buf: &mut [u8])
    requires { IsWithinFile (Some (image_of files.now)) name.now at (length buf.old) }
    ensures { ReadsFile (Some (image_of files.now)) name.now at buf.new }
{
    let at = at as usize;
    match files.get(name) {
        Some(file) => buf.copy_from_slice(&file[at..at + buf.len()]),
        None => unreachable!(),
    }
}

fn names_of(alloc: Global, files: &BTreeMap<String, Vec<u8>>) -> Result<Vec<String>, AllocError>
    ensures all { IfOk result
        (λ names. map string_bytes names.items ≡ map string_bytes (keys files.now)) }
    ensures ordered { IsOrdered string_cmp files.now }
{
    let mut names = Vec::with_capacity(alloc, files.len())?;
    for name in files.keys() {
        names.push(name.clone()?)?;
    }
    Ok(names)
}

impl Disk for MemDisk {
    ghost use Rattle.std.specs.Prelude.{List};
    ghost use Rattle.outside_io.specs.declared.disk_log.DiskChange.{DiskChange};

    ghost image = { λ disk. Some (disk_image disk) };

    ghost faults = { λ disk. disk.state.faults };

    ghost may_leave = { disk_may_leave };

    ghost moment = { disk_moment };

    ghost left_since = { disk_left_since };

    ghost counts_now = { λ disk t left le now. counted_now (disk_image disk) disk.log t left now };

    ghost only_now = { λ disk left since. now_alone (disk_image disk) disk.log left since };

    ghost as_it_reads = { λ disk now left known same. left_as_read (disk_image disk) now disk.log
        left known same };

    ghost Past = { List DiskChange };

    ghost changes = { λ disk. disk.log };

    ghost same_changes = { λ old new files logged. same_log (disk_image old) (disk_image new)
        old.log new.log files logged };

    fn faults(&self) -> u64 {
        self.state.faults
    }

    // Fails where the call is listed; the list of names may want memory.
    #[tactic(auto, using(crate::proofs::FileNames::lists_keys))]
    fn names(&mut self) -> Result<Vec<String>, NamesFault>
        ensures listed { IfOk result
            (λ names. ListsNames (disk_image self.old) (map string_bytes names.items)) }
        ensures fails { IsErrOf result NamesFault.Failed
            ↔ IsTrue (fails_next (state_of self.old).reads) }
        ensures frame { ReadsOnly ⟦<MemDisk as Disk>⟧ self.old self.new
            (IsErrOf result NamesFault.Failed) }
        ensures state { state_of self.new ≡ after_names (state_of self.old) }
    {
        self.state.calls.names = raised(self.state.calls.names);
        match self.state.start_read() {
            Ok(()) => {}
            Err(DiskFailed) => return Err(NamesFault::Failed),
        }
        Ok(names_of(self.alloc, &self.files)?)
    }

    fn length(&mut self, name: &str) -> Result<Option<u64>, DiskFailed>
        ensures value { IfOk result (LengthIs (Some (disk_image self.old)) name.now) }
        ensures fails { is_err result ≡ fails_next (state_of self.old).reads }
        ensures frame { ReadsOnly ⟦<MemDisk as Disk>⟧ self.old self.new (IsErr result) }
        ensures state { state_of self.new ≡ after_length (state_of self.old) }
    {
        self.state.calls.lengths = raised(self.state.calls.lengths);
        self.state.start_read()?;
        match self.files.get(name) {
            Some(file) => Ok(Some(file.len() as u64)),
            None => Ok(None),
        }
    }

    // Fails where the call is listed, or goes beyond the room, or finds no memory.
    fn create(&mut self, name: &str, len: u64) -> Result<(), DiskFailed>
        ensures ok { OnOk result
            (Creates (disk_image self.old) (disk_image self.new) name.now len) }
        ensures err { OnErr result (SameImage (disk_image self.old) (disk_image self.new)) }
        ensures listed { IsTrue (fails_next (state_of self.old).writes) → IsErr result }
        ensures frame { CountsFaults ⟦<MemDisk as Disk>⟧ self.old self.new (IsErr result) }
        ensures full { IsBeyondRoom self.old name.now len → IsErr result }
        ensures state { state_of self.new
            ≡ after_create (state_of self.old) (room_left self.old name.now len (is_err result))
            (is_err result) }
        ensures crash { DiskCrashes (λ before after. ChangesOnly before after name.now)
            self.old self.new }
        ensures may { OnOk result (MayAll (λ before after. ChangesOnly before after name.now)
            (disk_may_leave self.old) (disk_may_leave self.new)) }
        ensures log { OnErr result (self.new.log ≡ self.old.log) }
    {
        self.state.calls.creates = raised(self.state.calls.creates);
        if self.state.writes.fails_now() {
            return self.state.failed();
        }
        match self.make_file(name, len) {
            Ok(()) => Ok(()),
            Err(DiskFailed) => self.state.failed(),
        }
    }

    fn read_at(&mut self, name: &str, at: u64, buf: &mut [u8]) -> Result<(), DiskFailed>
        requires { IsWithinFile (Some (disk_image self.old)) name.now at (length buf.old) }
        ensures bytes { OnOk result (ReadsFile (Some (disk_image self.old)) name.now at buf.new) }
        ensures fails { is_err result ≡ fails_next (state_of self.old).reads }
        ensures frame { ReadsOnly ⟦<MemDisk as Disk>⟧ self.old self.new (IsErr result) }
        ensures state { state_of self.new ≡ after_read (state_of self.old) (length buf.old) }
    {
        let longest = self.state.calls.longest_read.max(buf.len() as u64);
        self.state.calls.longest_read = longest;
        self.state.calls.reads = raised(self.state.calls.reads);
        self.state.start_read()?;
        read_file(&self.files, name, at, buf);
        Ok(())
    }

    // Fails where the call is listed, or finds no memory for the log.
    #[tactic(auto, using(crate::proofs::TornFiles::same_tears, crate::proofs::TornFiles::left_tears))]
    fn write_at(&mut self, name: &str, at: u64, piece: &[u8]) -> Result<(), DiskFailed>
        requires { IsWithinFile (Some (disk_image self.old)) name.now at (length piece.now) }
        ensures ok { OnOk result
            (Writes (disk_image self.old) (disk_image self.new) name.now at piece.now) }
        ensures err { OnErr result
            (Tears (disk_image self.old) (disk_image self.new) name.now at (length piece.now)) }
        ensures frame { CountsFaults ⟦<MemDisk as Disk>⟧ self.old self.new (IsErr result) }
        ensures torn { OnErr result (LeavesTorn self.old self.new name.now at (length piece.now)) }
        ensures listed { IsTrue (fails_next (state_of self.old).writes) → IsErr result }
        ensures state { state_of self.new ≡ after_write (state_of self.old) (is_err result) }
        ensures crash { DiskCrashes
            (λ before after. Tears before after name.now at (length piece.now))
            self.old self.new }
        ensures may { OnOk result
            (MayAll (λ before after. Tears before after name.now at (length piece.now))
            (disk_may_leave self.old) (disk_may_leave self.new)) }
        ensures log { OnErr result ((state_of self.old).tears ≡ false
            → self.new.log ≡ self.old.log) }
    {
        if self.state.start_write() {
            self.tear(name, at, piece.len());
            return self.state.failed();
        }
        match self.write_logged(name, at, piece) {
            Ok(()) => Ok(()),
            Err(AllocError) => self.state.failed(),
        }
    }

    // Fails where the call is listed, or finds no memory for the log.
    fn sync(&mut self) -> Result<(), DiskFailed>
        ensures durable { OnOk result (Only (disk_image self.new) (disk_may_leave self.new)) }
        ensures kept { disk_image self.new ≡ disk_image self.old }
        ensures frame { CountsFaults ⟦<MemDisk as Disk>⟧ self.old self.new (IsErr result) }
        ensures listed { IsTrue (fails_next (state_of self.old).writes) → IsErr result }
        ensures state { state_of self.new ≡ after_sync (state_of self.old) (is_err result) }
        ensures crash { DiskCrashes SameImage self.old self.new }
        ensures log { OnErr result (self.new.log ≡ self.old.log) }
    {
        if self.state.start_sync() {
            return self.state.failed();
        }
        match self.log.push(DiskChange::Synced) {
            Ok(()) => Ok(()),
            Err(AllocError) => self.state.failed(),
        }
    }
}
