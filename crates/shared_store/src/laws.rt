//! Laws of stores.
ghost use Rattle.std.specs.Prelude.{◌≡◌, ℕ, Bool, Option};
ghost use Rattle.outside_io.specs.Image.{Image};
ghost use Rattle.carbon_model.specs.RingFiles.{Opens, Settings};
ghost use Rattle.carbon_model.specs.State.{State};
ghost use Rattle.shard_core.specs.Started.{KeepsLaidOut, StartedFrom};
ghost use Rattle.shard_core.specs.declared.shard.Shard.{Shard};
ghost use Rattle.shard_core.specs.Started.{IsReadyShard};

use outside_io::Disk;

/// A shard that started may be one of those that a store starts from, in each state in which a run
/// may begin over the disk that it opened, with the settings that it was given. The function does nothing: what it
/// ensures is the law.
pub fn a_started_shard_is_fresh<D: Disk>()
    ensures { (class : ℕ) (settings : Settings) (redo : Bool) (told : ℕ → Option Image)
        (s : State) (earlier : ℕ → ℕ) (disk : D) (shard : Shard D D.Disk)
        → StartedFrom class settings redo disk shard → Opens settings told s
        → D.image shard.files.disk ≡ told class → KeepsLaidOut class (told class) shard.desk.table s.kept
        → earlier class ≡ D.faults shard.files.disk
        → IsReadyShard told s earlier class shard }
{}
