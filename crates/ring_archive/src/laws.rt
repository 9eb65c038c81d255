//! Laws of files that are read through a patch.
ghost use Rattle.std.specs.Prelude.{◌≡◌, ℕ, List, None, true};
ghost use Rattle.ring_format.specs.Layout.{layout_fault};
ghost use Rattle.ring_format.specs.Patch.{PatchValue};
ghost use Rattle.ring_archive.specs.Ring.{AgreeAside, ReadsAs, Rings};

/// Two files read the same under a patch where they agree in every slot that it lays no cell in; and under a
/// patch whose file is yet to be created all files read the same. The function does nothing: what it ensures
/// is the law.
pub fn laid_cells_hide_those_of_the_file()
    ensures aside { (patch : PatchValue) (file other : List ℕ) (rings : Rings)
        → layout_fault patch.layout.archives patch.layout.factor ≡ None
        → AgreeAside patch file other → ReadsAs patch file rings → ReadsAs patch other rings }
    ensures fresh { (patch : PatchValue) (file other : List ℕ) (rings : Rings)
        → patch.fresh ≡ true → ReadsAs patch file rings → ReadsAs patch other rings }
{}
