//! What stands under a name.
ghost use Rattle.std.specs.Prelude.{◌≡◌, IfOk, IfSome, IsErr, length, min};
ghost use Rattle.outside_io.specs.Frames.{ReadsOnly};
ghost use Rattle.ring_format.specs.Head.{head_result};
ghost use Rattle.ring_look.specs.Found.{BeginsAs, IsReadable, found_by, found_in};

use outside_io::{Disk, DiskFailed};
use ring_format::{HEAD_BYTES, HeadFault, Layout, read_head};

/// What stands under a name.
#[derive(Clone, Copy)]
pub enum FileFound {
    /// No file.
    Absent,
    /// A ring file of this layout and version.
    Ring(Layout, u32),
    /// A file whose head has this fault. One with a head of zero counts as none.
    Faulty(HeadFault),
}

/// Looks at the length and the head of the file of this name.
pub fn look_at<D: Disk>(disk: &mut D, name: &str) -> Result<FileFound, DiskFailed>
    ensures found { IfOk result
        (λ found. IfSome (D.image disk.old) (λ image. found ≡ found_in (image name.now))) }

    // What the other calls ask of the file of a view.
    ensures readable { IfOk result (λ found. IsReadable found (D.image disk.old) name.now) }
    ensures frame { ReadsOnly D.Disk disk.old disk.new (IsErr result) }
{
    let size = match disk.length(name) {
        Ok(Some(size)) => size,
        Ok(None) => return Ok(FileFound::Absent),
        Err(DiskFailed) => return Err(DiskFailed),
    };
    let mut front = [0; HEAD_BYTES];
    let count = size.min(HEAD_BYTES as u64) as usize;
    let bytes = &mut front[..count];
    match disk.read_at(name, 0, bytes) {
        Ok(()) => Ok(found_by(bytes, size)),
        Err(DiskFailed) => Err(DiskFailed),
    }
}

// What a file of `size` bytes is that begins with these: the first 316, or all where there are fewer.
fn found_by(bytes: &[u8], size: u64) -> FileFound
    requires { length bytes.now ≡ min 316 size }
    ensures value { result ≡ found_by (head_result bytes.now size) }
    ensures begins { BeginsAs result bytes.now size }
{
    match read_head(bytes, size) {
        Ok(told) => FileFound::Ring(told.0, told.1),
        Err(fault) => FileFound::Faulty(fault),
    }
}
