ghost use Rattle.std.specs.Prelude.{◌≡◌, []};

use outside_io::Disk;
use shared_history::History;

/// What a run came to.
#[derive(Drop)]
pub struct Report<D: Disk> {
    /// The exit status of the program.
    pub status: u8,
    /// What was put, drained and asked, in order; at run time it is a count.
    pub history: History,
    /// The disks that the run was given, one for each class.
    pub disks: Vec<D>,
}

impl<D: Disk> Report<D> {
    ghost use Rattle.std.specs.Prelude.{◌≡◌, []};

    // The report of a run that ended before its command.
    pub(crate) fn without_command(status: u8, disks: Vec<D>) -> Report<D>
        ensures status { result.status ≡ status }
        ensures history { result.history ≡ [] }
        ensures disks { result.disks ≡ disks }
    {
        Report {
            status,
            history: History::empty(),
            disks,
        }
    }
}
