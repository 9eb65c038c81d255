//! What holds after a crash. The functions do nothing: what they ensure is the law.
ghost use Rattle.std.specs.Prelude.{◌≡◌, ◌++◌, ℕ, Bool, false, List, None, Option, Some};
ghost use Rattle.outside_io.specs.Image.{Image};
ghost use Rattle.redo_log.specs.Recovery.{is_open};
ghost use Rattle.redo_log.specs.Steps.{gate_name};
ghost use Rattle.carbon_model.specs.RingFiles.{IsOfClass, SameKept, Settings, StandsUnder, kept_on};
ghost use Rattle.carbon_model.specs.State.{Kept, State};
ghost use Rattle.shard_core.specs.Opened.{IsSoundDisk, StillOpens};
ghost use Rattle.shard_core.specs.StartFaults.{NotStarted};
ghost use Rattle.shard_core.specs.Started.{StartedFrom};
ghost use Rattle.shard_core.specs.Starting.{OnDamaged};
ghost use Rattle.shard_core.specs.declared.fault.StartFault.{StartFault};
ghost use Rattle.shard_core.specs.declared.shard.Shard.{Shard};
ghost use Rattle.crash_law.specs.Calls.{Call, MadeAll, entries_of_calls};
ghost use Rattle.crash_law.specs.Fronts.{StartsAsFront, StartsLogged};
ghost use Rattle.crash_law.specs.StartsAs.{StartsAs};

use outside_io::Disk;

/// A shard of a class started, with its drains through the log, and calls of it were made. Not all
/// that had been written before need have been on the device, as after a kill. Whatever a crash leaves
/// at a moment from one of these calls on, within a call or between two, starts as the replay of a
/// front of the entries that the answers give. The front holds each drain that was settled before that
/// call.
pub fn a_crash_leaves_a_front_of_the_drains<D: Disk>()
    ensures { (class pass : ℕ) (settings : Settings) (told : ℕ → Option Image) (opening : Image)
        (s : State) (disk : D) (start mid now : Shard D D.Disk) (before after : List Call)
        (left : Image)
        → StartsLogged class settings told opening s disk start
        → MadeAll before start mid → MadeAll after mid now
        → D.left_since now.files.disk (D.moment mid.files.disk) left
        → StartsAsFront class opening s (entries_of_calls pass class before)
        (entries_of_calls pass class (before ++ after)) mid.files.work.shelf left }
{}

/// A killed process leaves what is read. Behind the last of these calls that starts as the replay of a
/// front of the entries that the answers give, which holds each drain that was settled.
pub fn a_kill_leaves_a_front_of_the_drains<D: Disk>()
    ensures { (class pass : ℕ) (settings : Settings) (told : ℕ → Option Image) (opening : Image)
        (s : State) (disk : D) (start now : Shard D D.Disk) (calls : List Call) (left : Image)
        → StartsLogged class settings told opening s disk start → MadeAll calls start now
        → D.image now.files.disk ≡ Some left
        → StartsAsFront class opening s (entries_of_calls pass class calls)
        (entries_of_calls pass class calls) now.files.work.shelf left }
{}

/// What a crash leaves at a moment of a start itself starts as the image before it.
pub fn a_crash_of_a_start_starts_as_before()
    ensures { (class : ℕ) (told : Image) (kept : List ℕ → Option Kept) (before left : Image)
        → StartsAs class told kept before → StillOpens before left
        → StartsAs class told kept left }
{}

/// An image on which no file of the class is damaged, and no gate is open, starts as what it keeps.
pub fn an_image_without_damage_starts_as_it_reads()
    ensures { (class : ℕ) (image : Image) → is_open (image gate_name) ≡ false
        → IsSoundDisk class image → StartsAs class image (kept_on image) image }
{}

/// What a run left that ended with no drain on its way starts as what the run kept.
pub fn what_a_run_left_starts_as_it_kept()
    ensures { (class : ℕ) (told left : Image) (kept : List ℕ → Option Kept)
        → StandsUnder told left None kept class → is_open (left gate_name) ≡ false
        → StartsAs class told kept left }
{}

/// A shard that starts over an image has on its disk what that starts as, and no start over it tells
/// of a damaged file.
pub fn a_start_over_what_a_crash_left<D: Disk>()
    ensures kept { (class : ℕ) (settings : Settings) (redo : Bool) (told left opened : Image)
        (kept : List ℕ → Option Kept) (disk : D) (shard : Shard D D.Disk)
        → D.image disk ≡ Some left → StartsAs class told kept left
        → StartedFrom class settings redo disk shard → D.image shard.files.disk ≡ Some opened
        → (path : List ℕ) → IsOfClass class path → SameKept (kept_on opened path) (kept path) }
    ensures sound { (class : ℕ) (told left : Image) (kept : List ℕ → Option Kept) (disk back : D)
        (fault : StartFault) → D.image disk ≡ Some left → StartsAs class told kept left
        → NotStarted D.Disk class disk back fault → OnDamaged fault (λ name. ⊥) }
{}
