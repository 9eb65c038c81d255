//! Laws of shards.
ghost use Rattle.std.specs.Prelude.{◌≡◌, ℕ, Bool, List, Option};
ghost use Rattle.outside_io.specs.Image.{Image};
ghost use Rattle.carbon_model.specs.Replay.{IsLegalHistory, replay};
ghost use Rattle.carbon_model.specs.RingFiles.{Opens, Settings};
ghost use Rattle.carbon_model.specs.State.{State};
ghost use Rattle.shard_core.specs.Looks.{MayRead};
ghost use Rattle.shard_core.specs.Shard.{Holds, Inside, KeepsLayouts};
ghost use Rattle.shard_core.specs.Started.{KeepsLaidOut, StartedFrom};
ghost use Rattle.shard_core.specs.Steps.{MakesAll, Step, entries_of_all};
ghost use Rattle.shard_core.specs.View.{StandsFor};
ghost use Rattle.shard_core.specs.Writes.{OnlyWrites};
ghost use Rattle.shard_core.specs.declared.looked.Looked.{Looked};
ghost use Rattle.shard_core.specs.declared.shard.Shard.{Shard};

use outside_io::Disk;

/// A shard that started stands for its class's part of each state in which a run may begin over the
/// disk that it opened, with the settings that it was given. The functions of this file do nothing: what they
/// ensure are the laws.
pub fn a_started_shard_stands_for_an_opening<D: Disk>()
    ensures { (class : ℕ) (settings : Settings) (redo : Bool) (told : ℕ → Option Image)
        (s : State) (disk : D) (shard : Shard D D.Disk)
        → StartedFrom class settings redo disk shard → Opens settings told s
        → D.image shard.files.disk ≡ told class → KeepsLaidOut class (told class) shard.desk.table s.kept
        → StandsFor (told class) shard s }
{}

/// A shard that stood for a state stands, after any calls that put, plan and write, for the replay
/// of the entries that their answers give, and these are legal.
pub fn a_shard_replays_its_answers()
    ensures { (pass class : ℕ) (told : Option Image) (s : State) (old new : Inside)
        (steps : List Step)
        → MakesAll steps old new → Holds told old s
        → IsLegalHistory s (entries_of_all pass class steps)
        × Holds told new (replay s (entries_of_all pass class steps)) }
{}

/// What was looked at may be read after any later call of the shard: a call that puts or plans
/// keeps the layouts, and a write changes nothing that a read needs.
pub fn what_was_looked_at_may_be_read_later()
    ensures layouts { (old new : Inside) (looked : Looked) → new.class ≡ old.class
        → KeepsLayouts old new → MayRead old looked → MayRead new looked }
    ensures writes { (old new : Inside) (looked : Looked) → OnlyWrites old new
        → MayRead old looked → MayRead new looked }
{}
