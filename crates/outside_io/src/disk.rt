// Named files.
ghost use Rattle.std.specs.Prelude.{◌≡◌, ℕ, ◌≤◌, length, map, Option, Some, IfOk, OnOk, OnErr, IfSome, string_bytes, IsErrOf};
ghost use Rattle.outside_io.specs.Crash.{Crashes, MayAllKnown, OnlyKnown, SameCrashes};
ghost use Rattle.outside_io.specs.Faults.{Rose};
ghost use Rattle.outside_io.specs.Image.{Image, SameImage, WhereKnown, ListsNames, LengthIs, IsWithinFile, ReadsFile, ChangesOnly, Creates, Writes, Tears};

use std::alloc::{AllocError, AllocFailed};
use thiserror::Error;

/// A call of a disk failed.
#[derive(Clone, Copy, Debug, PartialEq, Eq, Error)]
#[error("the disk failed")]
pub struct DiskFailed;

/// Why the names of a disk could not be listed.
#[derive(Clone, Copy, Debug, PartialEq, Eq, Error)]
pub enum NamesFault {
    /// The disk failed.
    #[error("the disk failed")]
    Failed,
    /// There was no memory for the list.
    #[error("there was no memory for the names")]
    NoMemory,
}

impl From<AllocError> for NamesFault {
    ghost use Rattle.outside_io.specs.declared.disk.NamesFault.TheVariants.{NoMemory};

    ghost from_gives = { λ _ fault. fault ≡ NoMemory };

    fn from(_refused: AllocError) -> NamesFault {
        NamesFault::NoMemory
    }
}

impl<T: Drop> From<AllocFailed<T>> for NamesFault {
    ghost use Rattle.outside_io.specs.declared.disk.NamesFault.TheVariants.{NoMemory};

    ghost from_gives = { λ _ fault. fault ≡ NoMemory };

    fn from(_refused: AllocFailed<T>) -> NamesFault {
        NamesFault::NoMemory
    }
}

/// A set of named files of fixed length.
///
/// A name is text; a `/` in it stands between the parts of a path. A disk may tell contracts its image: the
/// bytes under each name. No call changes a byte or a name but those that it says.
///
/// What a call changed is on the device once a `sync` behind it succeeded. Until then a crash leaves any bytes
/// in each range that was written, and under each name that was created nothing or any bytes; all else is as it
/// reads. Each of these images it may leave, and that which is read.
pub trait Disk {
    // The bytes under each name, where the disk tells them.
    ghost image: { Self → Option Image };

    ghost faults: { Self → ℕ };

    // What a crash at this moment may leave.
    ghost may_leave: { Self → Image → Type 0 };

    // The moment, as a number that does not fall.
    ghost moment: { Self → ℕ };

    // What a crash at some moment from that one on might have left, during a call or between two.
    ghost left_since: { Self → ℕ → Image → Type 0 };

    // This moment is one of those since an earlier one.
    ghost counts_now: { (disk : Self) (t : ℕ) (left : Image) → t ≤ moment disk → may_leave disk left
        → left_since disk t left };

    // Since this moment there is no other.
    ghost only_now: { (disk : Self) (left : Image) → left_since disk (moment disk) left
        → may_leave disk left };

    // What is read is one of the images that a crash may leave, as where a process is killed.
    ghost as_it_reads: { (disk : Self) (now left : Image) → image disk ≡ Some now
        → SameImage now left → may_leave disk left };

    // What was changed so far, as far as a crash may undo it.
    ghost Past: { Type 0 };

    ghost changes: { Self → Past };

    // Where nothing was changed since, no moment passed, and a crash leaves what it might have left.
    ghost same_changes: { (old new : Self) → image new ≡ image old → changes new ≡ changes old
        → SameCrashes (moment old) (moment new) (may_leave old) (may_leave new)
        (left_since old) (left_since new) };

    /// How many calls have failed. The count never falls, and stays at 2^64 - 1.
    fn faults(&self) -> u64
        ensures { result ≡ Self.faults self.now };

    /// Each name once, in no order that is told.
    fn names(&mut self) -> Result<Vec<String>, NamesFault>
        ensures listed { IfOk result
            (λ names. IfSome (image self.old)
            (λ held. ListsNames held (map string_bytes names.items))) }
        ensures kept { image self.new ≡ image self.old }
        ensures changes { Self.changes self.new ≡ Self.changes self.old }
        ensures later { Self.faults self.old ≤ Self.faults self.new }
        ensures cause { IsErrOf result NamesFault.Failed
            → Rose (Self.faults self.old) (Self.faults self.new) };

    /// The length in bytes of a file, or `None` where the name is not there.
    fn length(&mut self, name: &str) -> Result<Option<u64>, DiskFailed>
        ensures value { IfOk result (LengthIs (image self.old) name.now) }
        ensures kept { image self.new ≡ image self.old }
        ensures changes { Self.changes self.new ≡ Self.changes self.old }
        ensures later { Self.faults self.old ≤ Self.faults self.new }
        ensures cause { OnErr result (Rose (Self.faults self.old) (Self.faults self.new)) };

    /// Leaves under the name exactly `len` zero bytes, whether it was there or not. A call that fails leaves
    /// anything or nothing under that name.
    fn create(&mut self, name: &str, len: u64) -> Result<(), DiskFailed>
        ensures ok { OnOk result
            (WhereKnown (image self.old) (image self.new)
            (λ before after. Creates before after name.now len)) }
        ensures err { OnErr result
            (WhereKnown (image self.old) (image self.new)
            (λ before after. ChangesOnly before after name.now)) }
        ensures later { Self.faults self.old ≤ Self.faults self.new }
        ensures cause { OnErr result (Rose (Self.faults self.old) (Self.faults self.new)) }
        ensures crash { Crashes may_leave moment left_since
            (λ before after. ChangesOnly before after name.now) self.old self.new }
        ensures may { OnOk result (MayAllKnown (image self.old)
            (λ before after. ChangesOnly before after name.now)
            (may_leave self.old) (may_leave self.new)) };

    /// Fills the buffer with the bytes of the file from a place on. Where the disk tells its image, the range
    /// has to lie in the file. After an error what the buffer holds is open.
    fn read_at(&mut self, name: &str, at: u64, buf: &mut [u8]) -> Result<(), DiskFailed>
        requires { IsWithinFile (image self.old) name.now at (length buf.old) }
        ensures bytes { OnOk result (ReadsFile (image self.old) name.now at buf.new) }
        ensures kept { image self.new ≡ image self.old }
        ensures changes { Self.changes self.new ≡ Self.changes self.old }
        ensures later { Self.faults self.old ≤ Self.faults self.new }
        ensures cause { OnErr result (Rose (Self.faults self.old) (Self.faults self.new)) };

    /// Puts a piece over the bytes of the file from a place on. Where the disk tells its image, the range has
    /// to lie in the file. A call that fails leaves any bytes in that range.
    fn write_at(&mut self, name: &str, at: u64, piece: &[u8]) -> Result<(), DiskFailed>
        requires { IsWithinFile (image self.old) name.now at (length piece.now) }
        ensures ok { OnOk result
            (WhereKnown (image self.old) (image self.new)
            (λ before after. Writes before after name.now at piece.now)) }
        ensures err { OnErr result
            (WhereKnown (image self.old) (image self.new)
            (λ before after. Tears before after name.now at (length piece.now))) }
        ensures later { Self.faults self.old ≤ Self.faults self.new }
        ensures cause { OnErr result (Rose (Self.faults self.old) (Self.faults self.new)) }
        ensures crash { Crashes may_leave moment left_since
            (λ before after. Tears before after name.now at (length piece.now))
            self.old self.new }
        ensures may { OnOk result (MayAllKnown (image self.old)
            (λ before after. Tears before after name.now at (length piece.now))
            (may_leave self.old) (may_leave self.new)) };

    /// Brings to the device all that was created and written. After it a crash leaves what a read gives. A call
    /// that fails may have brought a part of it.
    fn sync(&mut self) -> Result<(), DiskFailed>
        ensures durable { OnOk result (OnlyKnown (image self.new) (may_leave self.new)) }
        ensures kept { image self.new ≡ image self.old }
        ensures later { Self.faults self.old ≤ Self.faults self.new }
        ensures cause { OnErr result (Rose (Self.faults self.old) (Self.faults self.new)) }
        ensures crash { Crashes may_leave moment left_since SameImage self.old self.new };
}
