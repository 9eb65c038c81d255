//! What a start reads of the log and its gate.
ghost use Rattle.std.specs.Prelude.{◌≡◌, ◌↔◌, ◌≤◌, IfOk, IfSome, IsErr, IsErrOf, IsSomeAnd, IsTrue, None, OnOk, Some, length};
ghost use Rattle.outside_io.specs.Crash.{OnlyKnown};
ghost use Rattle.outside_io.specs.Image.{IsWithinFile, LengthIs, ReadsFile};
ghost use Rattle.ring_format.specs.Head.{head_bytes};
ghost use Rattle.ring_archive.specs.Ring.{IsRingFile};
ghost use Rattle.redo_log.specs.Arm.{has_byte};
ghost use Rattle.redo_log.specs.Frame.{LooksOnly};
ghost use Rattle.redo_log.specs.Recovery.{HasHead, IsSettled, is_open};
ghost use Rattle.redo_log.specs.Steps.{gate_name, log_name};
ghost use Rattle.redo_log.specs.declared.redo_fault.RedoFault.TheVariants.{Damaged, DiskFault};

use crate::log_calls::{GATE_NAME, LOG_NAME, sync_disk};
use crate::redo_fault::RedoFault;
use outside_io::{Disk, DiskFailed};
use ring_format::{HEAD_BYTES, Layout, write_head};
use std::alloc::{AllocError, Global};

// The length of a file.
fn look_length<D: Disk>(disk: &mut D, name: &str) -> Result<Option<u64>, DiskFailed>
    ensures value { IfOk result (LengthIs (D.image disk.old) name.now) }
    ensures frame { LooksOnly D.Disk disk.old disk.new (IsErr result) }
{
    disk.length(name)
}

// Bytes of a file.
fn look_at<D: Disk>(disk: &mut D, name: &str, buf: &mut [u8]) -> Result<(), DiskFailed>
    requires { IsWithinFile (D.image disk.old) name.now 0 (length buf.old) }
    ensures bytes { OnOk result (ReadsFile (D.image disk.old) name.now 0 buf.new) }
    ensures frame { LooksOnly D.Disk disk.old disk.new (IsErr result) }
{
    disk.read_at(name, 0, buf)
}

// Whether two texts are the same.
fn are_same(one: &[u8], other: &[u8]) -> bool
    ensures { IsTrue result ↔ one.now ≡ other.now }
{
    one == other
}

// Whether there is a gate, with at least one byte.
#[tactic(auto, unfolding(crate::specs::Steps::gate_name))]
pub(crate) fn has_gate<D: Disk>(disk: &mut D) -> Result<bool, DiskFailed>
    ensures value { IfOk result
        (λ has. IfSome (D.image disk.old) (λ image. has ≡ has_byte (image gate_name))) }
    ensures frame { LooksOnly D.Disk disk.old disk.new (IsErr result) }
{
    match look_length(disk, GATE_NAME) {
        Ok(Some(len)) => Ok(len > 0),
        Ok(None) => Ok(false),
        Err(fault) => Err(fault),
    }
}

// Whether the first byte of the gate is 1.
#[tactic(auto, unfolding(crate::specs::Steps::gate_name))]
fn is_one<D: Disk>(disk: &mut D) -> Result<bool, DiskFailed>
    requires { IsWithinFile (D.image disk.old) gate_name 0 1 }
    ensures value { IfOk result
        (λ one. IfSome (D.image disk.old) (λ image. one ≡ is_open (image gate_name))) }
    ensures frame { LooksOnly D.Disk disk.old disk.new (IsErr result) }
{
    let mut byte = [0];
    match look_at(disk, GATE_NAME, &mut byte) {
        Ok(()) => Ok(byte[0] == 1),
        Err(fault) => Err(fault),
    }
}

// Brings to the device what an earlier process may have left unsynced.
fn settle<D: Disk>(disk: &mut D) -> Result<(), DiskFailed>
    ensures settled { OnOk result (OnlyKnown (D.image disk.old) (D.may_leave disk.new)) }
    ensures frame { LooksOnly D.Disk disk.old disk.new (IsErr result) }
{
    sync_disk(disk)
}

// Whether the gate is open. What it reads of a gate is on the device then.
pub(crate) fn is_gate_open<D: Disk>(disk: &mut D) -> Result<bool, DiskFailed>
    ensures value { IfOk result
        (λ is. IfSome (D.image disk.old) (λ image. is ≡ is_open (image gate_name))) }
    ensures settled { OnOk result (IsSettled (D.image disk.old) (D.may_leave disk.new)) }
    ensures frame { LooksOnly D.Disk disk.old disk.new (IsErr result) }
{
    match has_gate(disk) {
        Ok(true) => {}
        Ok(false) => return Ok(false),
        Err(fault) => return Err(fault),
    }
    match settle(disk) {
        Ok(()) => {}
        Err(fault) => return Err(fault),
    }
    match is_one(disk) {
        Ok(one) => return Ok(one),
        Err(fault) => return Err(fault),
    }
}

// So many zero bytes.
fn zeros(alloc: Global, count: usize) -> Result<Vec<u8>, AllocError>
    ensures { IfOk result (λ bytes. length bytes.items ≡ count) }
{
    vec![in alloc; 0; count]
}

// The bytes of the log. One that is not there is damaged.
pub(crate) fn read_log<D: Disk>(alloc: Global, disk: &mut D) -> Result<Vec<u8>, RedoFault>
    ensures bytes { IfOk result
        (λ bytes. IfSome (D.image disk.old) (λ image. image log_name ≡ Some bytes.items)) }
    ensures absent { IsErrOf result Damaged
        → IfSome (D.image disk.old) (λ image. image log_name ≡ None) }
    ensures frame { LooksOnly D.Disk disk.old disk.new (IsErrOf result DiskFault) }
{
    match log_len(disk) {
        Ok(Some(len)) => return read_bytes(alloc, disk, len),
        Ok(None) => return Err(RedoFault::Damaged),
        Err(DiskFailed) => return Err(RedoFault::DiskFault),
    }
}

#[tactic(auto, unfolding(crate::specs::Steps::log_name))]
fn log_len<D: Disk>(disk: &mut D) -> Result<Option<u64>, DiskFailed>
    ensures value { IfOk result (LengthIs (D.image disk.old) log_name) }
    ensures frame { LooksOnly D.Disk disk.old disk.new (IsErr result) }
{
    look_length(disk, LOG_NAME)
}

// So many bytes, which are all of the log.
#[tactic(auto, unfolding(crate::specs::Steps::log_name))]
fn read_bytes<D: Disk>(alloc: Global, disk: &mut D, len: u64) -> Result<Vec<u8>, RedoFault>
    requires { LengthIs (D.image disk.old) log_name (Some len) }
    ensures bytes { IfOk result
        (λ bytes. IfSome (D.image disk.old) (λ image. image log_name ≡ Some bytes.items)) }
    ensures sound { IsErrOf result Damaged → ⊥ }
    ensures frame { LooksOnly D.Disk disk.old disk.new (IsErrOf result DiskFault) }
{
    let mut bytes = match zeros(alloc, len as usize) {
        Ok(bytes) => bytes,
        Err(_) => return Err(RedoFault::NoMemory),
    };
    match look_at(disk, LOG_NAME, &mut bytes) {
        Ok(()) => return Ok(bytes),
        Err(DiskFailed) => return Err(RedoFault::DiskFault),
    }
}

// Whether a file has the head of a layout, and the length that goes with it.
pub(crate) fn has_ring<D: Disk>(
    disk: &mut D,
    name: &str,
    layout: &Layout,
) -> Result<bool, DiskFailed>
    ensures value { IfOk result (λ has. IfSome (D.image disk.old)
        (λ image. IsTrue has ↔ IsSomeAnd (image name.now) (IsRingFile layout.now))) }
    ensures frame { LooksOnly D.Disk disk.old disk.new (IsErr result) }
{
    match has_length(disk, name, layout.file_size()) {
        Ok(true) => {}
        Ok(false) => return Ok(false),
        Err(fault) => return Err(fault),
    }
    match has_head(disk, name, layout) {
        Ok(has) => return Ok(has),
        Err(fault) => return Err(fault),
    }
}

// Whether a file is there, and so long.
fn has_length<D: Disk>(disk: &mut D, name: &str, len: u64) -> Result<bool, DiskFailed>
    ensures value { IfOk result (λ has. IfSome (D.image disk.old)
        (λ image. IsTrue has ↔ IsSomeAnd (image name.now) (λ file. length file ≡ len))) }
    ensures frame { LooksOnly D.Disk disk.old disk.new (IsErr result) }
{
    match look_length(disk, name) {
        Ok(Some(held)) => Ok(held == len),
        Ok(None) => Ok(false),
        Err(fault) => Err(fault),
    }
}

// Whether a file that has room for the head of a layout has that head.
fn has_head<D: Disk>(disk: &mut D, name: &str, layout: &Layout) -> Result<bool, DiskFailed>
    requires { IfSome (D.image disk.old) (λ image. IsSomeAnd (image name.now)
        (λ file. length (head_bytes layout.now) ≤ length file)) }
    ensures value { IfOk result (λ has. IfSome (D.image disk.old)
        (λ image. IsTrue has ↔ IsSomeAnd (image name.now) (HasHead layout.now))) }
    ensures frame { LooksOnly D.Disk disk.old disk.new (IsErr result) }
{
    let mut head = [0; HEAD_BYTES];
    let count = write_head(layout, &mut head);
    let mut held = [0; HEAD_BYTES];
    match look_at(disk, name, &mut held[..count]) {
        Ok(()) => Ok(are_same(&held[..count], &head[..count])),
        Err(fault) => Err(fault),
    }
}
