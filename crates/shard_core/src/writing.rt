//! Writing the drain that was begun.
use crate::files::Files;
use crate::planned::Wrote;
use outside_io::Disk;

impl<D: Disk> Files<D> {
    ghost use Rattle.std.specs.Prelude.{◌≡◌};
    ghost use Rattle.outside_io.specs.Frames.{CountsFaults};
    ghost use Rattle.shard_core.specs.Halves.{AreHalves, DeskInside, HaveDesk, both, files_of};
    ghost use Rattle.shard_core.specs.Shard.{Stays};
    ghost use Rattle.shard_core.specs.Work.{StaysInRow};
    ghost use Rattle.shard_core.specs.Writes.{WritesTo};

    /// Takes the next step of the drain that is being written, this and no other, in one call of
    /// the disk: the next run, or a step of the log. Whatever desk they are a half with, they are so
    /// still, and what both say of the metrics stays. After a disk fault any bytes stand where the
    /// step's were to be written, and the step comes again. No memory is taken.
    pub fn write_next(&mut self) -> Wrote
        requires { HaveDesk (files_of self.old) }
        ensures writes { (desk : DeskInside)
            → WritesTo result (both desk (files_of self.old)) (both desk (files_of self.new)) }
        ensures stays { (desk : DeskInside) → AreHalves desk (files_of self.old)
            → Stays (both desk (files_of self.old)) (both desk (files_of self.new)) }
        ensures halves { (desk : DeskInside) → AreHalves desk (files_of self.old)
            → AreHalves desk (files_of self.new) }
        ensures class { self.new.class ≡ self.old.class }

        // What a crash leaves behind it, and at each moment of it.
        ensures rows { StaysInRow D.Disk self.old.work.log self.new.work.log
            self.old.disk self.new.disk }
        ensures frame { CountsFaults D.Disk self.old.disk self.new.disk
            (result ≡ Wrote.DiskFault) }
    {
        self.work.step(&mut self.disk)
    }
}
