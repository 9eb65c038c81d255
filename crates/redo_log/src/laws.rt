//! Laws of bodies.
ghost use Rattle.std.specs.Prelude.{◌≡◌, ℕ, IfSome, List, Option};
ghost use Rattle.outside_io.specs.Image.{Image};
ghost use Rattle.ring_format.specs.Patch.{PatchValue};
ghost use Rattle.ring_writer.specs.PartWritten.{Awaits};
ghost use Rattle.write_shelf.specs.Runs.{runs_of};
ghost use Rattle.redo_log.specs.Body.{IsBody};
ghost use Rattle.redo_log.specs.Ends.{redo_with};
ghost use Rattle.redo_log.specs.Steps.{IsClosed, IsReady, gate_name};

/// Bytes are the body of one patch at most, so what is written is read back. The function does
/// nothing: what it ensures is the law.
pub fn a_body_has_one_patch()
    ensures { (bytes : List ℕ) (one other : Option PatchValue)
        → IsBody bytes one → IsBody bytes other → one ≡ other }
{}

/// A patch that was put is ready for its first step where the gate is closed, and its file awaits
/// its runs, as each file of its layout does, and any that is to be created. The function does
/// nothing: what it ensures is the law.
pub fn a_patch_that_was_put_is_ready()
    ensures { (patch : PatchValue) (name : List ℕ) (image : Image) → IsClosed (image gate_name)
        → Awaits patch (runs_of patch) (image name)
        → IfSome (redo_with patch name (runs_of patch)) (λ redo. IsReady redo image) }
{}
