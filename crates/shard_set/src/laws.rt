//! Laws of shards that started. The functions do nothing: what they ensure are the laws.
ghost use Rattle.std.specs.Prelude.{◌≡◌, ℕ, Bool, List, Option, length};
ghost use Rattle.outside_io.specs.Image.{Image};
ghost use Rattle.carbon_model.specs.RingFiles.{Opens, Settings};
ghost use Rattle.shard_core.specs.declared.shard.Shard.{Shard};
ghost use Rattle.shard_set.specs.Disks.{faults_at, told_at};
ghost use Rattle.shard_set.specs.Opening.{AreStarted};
ghost use Rattle.shard_core.specs.Started.{AreReadyShards};
ghost use Rattle.shard_set.specs.OpeningState.{opening_of};

use outside_io::Disk;

/// A run may begin over the disks that the shards of all classes opened, in the state that is read off
/// the shards.
pub fn started_shards_open_a_run<D: Disk>()
    ensures { (settings : Settings) (redo : Bool) (told : ℕ → Option Image) (disks : List D)
        (shards : List (Shard D D.Disk))
        → length shards ≡ 16 → AreStarted settings redo disks shards
        → ((k : ℕ) → told k ≡ told_at shards k)
        → Opens settings told (opening_of shards) }
{}

/// Each of these shards stands for the part that its class has of this state, and writes no drain.
pub fn started_shards_stand_for_the_opening<D: Disk>()
    ensures { (settings : Settings) (redo : Bool) (told : ℕ → Option Image) (disks : List D)
        (shards : List (Shard D D.Disk))
        → length shards ≡ 16 → AreStarted settings redo disks shards
        → ((k : ℕ) → told k ≡ told_at shards k)
        → AreReadyShards told (opening_of shards) (faults_at shards) shards }
{}
