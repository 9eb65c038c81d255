//! The place of a bucket in an archive's ring.
ghost use Rattle.std.specs.Prelude.{◌≡◌, ◌<◌};
ghost use Rattle.ring_format.specs.Slot.{slot_of};

use crate::archive::Archive;

/// The slot of a bucket in an archive whose first slot holds the bucket `base`: the steps from the
/// base to the bucket, rounded down, modulo the points. With base 0 the archive is empty, and the slot 0.
pub fn slot_of(base: u32, bucket: u32, archive: Archive) -> u32
    requires step { 0 < archive.step }
    requires points { 0 < archive.points }
    ensures value { result ≡ slot_of base bucket archive }
    ensures within { result < archive.points }
{
    if base == 0 {
        return 0;
    }
    let distance = i64::from(bucket) - i64::from(base);
    let steps = distance.div_euclid(i64::from(archive.step));
    steps.rem_euclid(i64::from(archive.points)) as u32
}
