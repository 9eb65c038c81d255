//! What is found of a name among the files of a class.
ghost use Rattle.std.specs.Prelude.{IfOk, IsErrOf};
ghost use Rattle.outside_io.specs.Frames.{ReadsOnly};
ghost use Rattle.ring_look.specs.Findings.{Finds};

use crate::found::{FileFound, look_at};
use metric_path::MetricPath;
use outside_io::{Disk, DiskFailed};
use ring_archive::RingFault;
use std::alloc::Global;

/// What is found of a name among the files of a class.
#[derive(Clone, Copy)]
pub enum Finding {
    /// No metric's file has this name.
    Foreign,
    /// It is the name of the file of a metric of this other class.
    Elsewhere(u32),
    /// It is the name of the file of a metric of the class, under which this stands.
    Here(FileFound),
}

/// Looks at the file of this name on the disk of a class.
pub fn find_file<D: Disk>(
    alloc: Global,
    disk: &mut D,
    class: u32,
    name: &str,
) -> Result<Finding, RingFault>
    ensures finds { IfOk result (Finds class (D.image disk.old) name.now) }
    ensures frame { ReadsOnly D.Disk disk.old disk.new (IsErrOf result RingFault.DiskFault) }
{
    let path = match MetricPath::of_file_name(alloc, name) {
        Ok(Some(path)) => path,
        Ok(None) => return Ok(Finding::Foreign),
        Err(_) => return Err(RingFault::NoMemory),
    };
    let own = path.class();
    if own != class {
        return Ok(Finding::Elsewhere(own));
    }
    match look_at(disk, name) {
        Ok(found) => Ok(Finding::Here(found)),
        Err(DiskFailed) => Err(RingFault::DiskFault),
    }
}
