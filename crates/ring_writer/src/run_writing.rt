//! Writing the runs of a shelf.
ghost use Rattle.std.specs.Prelude.{◌≡◌, ◌≢◌, None, IfSome, IsErr, OnErr, OnOk};
ghost use Rattle.outside_io.specs.Crash.{Crashes};
ghost use Rattle.outside_io.specs.Frames.{CountsFaults};
ghost use Rattle.outside_io.specs.Image.{WhereKnown};
ghost use Rattle.ring_format.specs.Layout.{layout_fault};
ghost use Rattle.ring_writer.specs.PartWritten.{AwaitsNext, CrashesNext, FailsNext, WritesNext};

use outside_io::{Disk, DiskFailed};
use ring_format::RUN_BYTES;
use write_shelf::{Run, Shelf};

/// Writes the next run of a shelf to the file of its patch, in one call of the disk: exactly its
/// bytes are written, or the file is created. No memory is taken. At `Err` any bytes stand where
/// the run's were to be written; it may be written again, and meanwhile the file reads under the
/// patch as it did before.
pub fn write_run<D: Disk>(disk: &mut D, name: &str, shelf: &Shelf) -> Result<(), DiskFailed>
    requires some { shelf.now ≢ None }
    requires file { IfSome (D.image disk.old) (λ image. AwaitsNext shelf.now (image name.now)) }
    ensures ok { OnOk result (WhereKnown (D.image disk.old) (D.image disk.new)
        (WritesNext shelf.now name.now)) }
    ensures err { OnErr result (WhereKnown (D.image disk.old) (D.image disk.new)
        (FailsNext shelf.now name.now)) }
    ensures crash { Crashes D.may_leave D.moment D.left_since (CrashesNext shelf.now name.now)
        disk.old disk.new }
    ensures frame { CountsFaults D.Disk disk.old disk.new (IsErr result) }
{
    patch_is_lawful(shelf);
    let Some(run) = shelf.next_run() else {
        unreachable!()
    };
    match run {
        Run::Create { length } => disk.create(name, length),
        Run::Cells { .. } | Run::Head => {
            let mut bytes = [0; RUN_BYTES];
            let count = shelf.run_bytes(&mut bytes);
            disk.write_at(name, shelf.run_at(), &bytes[..count])
        }
    }
}

// The layout of a patch breaks no rule. The function does nothing: what it ensures is the law.
fn patch_is_lawful(shelf: &Shelf)
    ensures { IfSome shelf.now
        (λ drain. layout_fault drain.patch.layout.archives drain.patch.layout.factor ≡ None) }
{
    if let Some(patch) = shelf.patch() {
        let _ = patch.layout().archive_count();
    }
}
