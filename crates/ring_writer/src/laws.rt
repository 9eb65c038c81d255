//! Laws of files that are written run by run.
ghost use Rattle.std.specs.Prelude.{◌≡◌, ℕ, List, [], None, Option, true, false, IsSomeAnd};
ghost use Rattle.ring_format.specs.Layout.{layout_fault};
ghost use Rattle.ring_format.specs.Patch.{PatchValue};
ghost use Rattle.ring_archive.specs.Ring.{IsRingFile};
ghost use Rattle.ring_writer.specs.Laid.{IsLaid};
ghost use Rattle.ring_writer.specs.PartWritten.{Awaits, AwaitsNext, IsPartWritten};
ghost use Rattle.write_shelf.specs.Runs.{runs_of};
ghost use Rattle.write_shelf.specs.Shelf.{drain_with};
ghost use Rattle.write_shelf.specs.declared.run.Run.{Run};

/// A drain may begin over each ring file of its patch's layout, and one that creates its file over anything.
/// The functions of this file do nothing: what they ensure are the laws.
pub fn every_drain_may_begin()
    ensures over { (patch : PatchValue) (held : Option (List ℕ)) → patch.fresh ≡ false
        → IsSomeAnd held (IsRingFile patch.layout) → Awaits patch (runs_of patch) held }
    ensures new { (patch : PatchValue) (held : Option (List ℕ)) → patch.fresh ≡ true
        → Awaits patch (runs_of patch) held }
    ensures shelf { (patch : PatchValue) (left : List Run) (held : Option (List ℕ))
        → Awaits patch left held → AwaitsNext (drain_with patch left) held }
{}

/// With no run left the file is a ring file of its layout, and reads alone as it did under the patch.
pub fn a_file_with_no_run_left_stands_alone()
    ensures { (patch : PatchValue) (file : List ℕ)
        → layout_fault patch.layout.archives patch.layout.factor ≡ None
        → IsPartWritten patch [] file → IsLaid patch file file }
{}
