//! What a pass has seen, brought to another pass.
use crate::named::Named;
use crate::store::Store;
use crate::store_pass::{StorePass, learn, note};
use outside_io::Disk;
use shared_history::Note;

impl<D: Disk, N: Named> Store<D, N> {
    ghost use Rattle.std.specs.Prelude.{◌≡◌, ◌⊎◌};
    ghost use mathlib.Core.List.{IsPrefix};
    ghost use Rattle.shared_history.specs.Parts.{own_entries, pass_seeing};

    /// A copy of what the pass has seen, for another pass.
    pub fn note(&self, pass: &mut StorePass<N>) -> Note
        ensures table { result.table ≡ N.table }
        ensures list { result.list ≡ pass.old.seen }
        ensures pass { pass.new ≡ pass.old }
    {
        note(pass)
    }

    /// Of what the pass has seen and what is noted the pass has seen the longer, which the shorter
    /// begins. No entry is made, and no lock is taken.
    pub fn learn(&self, pass: &mut StorePass<N>, note: Note)
        requires same { note.table ≡ N.table }
        ensures one { (pass.new ≡ pass.old) ⊎ (pass.new ≡ pass_seeing pass.old note.list) }
        ensures begins { IsPrefix pass.old.seen pass.new.seen }
        ensures told { IsPrefix note.list pass.new.seen }
        ensures own { own_entries pass.new ≡ own_entries pass.old }
    {
        learn(pass, note);
    }
}
