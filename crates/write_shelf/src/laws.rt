//! Laws of the runs of a patch.
ghost use Rattle.std.specs.Prelude.{◌≡◌, ◌+◌, ◌*◌, ◌<◌, ℕ, List, length, take, drop};
ghost use Rattle.ring_format.specs.Patch.{PatchValue};
ghost use Rattle.ring_format.specs.Cell.{cell_size};
ghost use Rattle.write_shelf.specs.AreRuns.{AreRuns};
ghost use Rattle.write_shelf.specs.Runs.{runs_of};
ghost use Rattle.write_shelf.specs.Shelf.{AreLaid, bytes_at, run_bytes};
ghost use Rattle.write_shelf.specs.declared.run.Run.{Run};
ghost use Rattle.write_shelf.specs.declared.run.Run.TheVariants.{Cells};

/// The runs of a patch are its runs, and no other list is: the creation of the file and its head where the
/// patch is fresh, and between them each cell once, in order, in runs that are cut only where they have to be.
/// The function does nothing: what it ensures is the law.
pub fn runs_are_those_of_their_patch()
    ensures are { (patch : PatchValue) → AreRuns patch (runs_of patch) }
    ensures alone { (patch : PatchValue) (runs : List Run) → AreRuns patch runs
        → runs ≡ runs_of patch }
{}

/// Each cell of a run stands in bytes of its own, in rising slot. The function does nothing:
/// what it ensures is the law.
pub fn each_cell_has_its_bytes()
    ensures long { (patch : PatchValue) (archive slot count : ℕ) → AreLaid patch archive slot count
        → length (run_bytes patch (Cells archive slot count)) ≡ cell_size * count }
    ensures cell { (patch : PatchValue) (archive slot count k : ℕ)
        → AreLaid patch archive slot count → k < count
        → take cell_size (drop (cell_size * k) (run_bytes patch (Cells archive slot count)))
        ≡ bytes_at patch.cells (archive, slot + k) }
{}
