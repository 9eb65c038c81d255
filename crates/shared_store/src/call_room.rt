//! Whether a pass has room for a call.
ghost use Rattle.std.specs.Prelude.{◌≡◌, false, true};
ghost use Rattle.shared_store.specs.Passes.{HasRoom, IsSpent};

use crate::named::Named;
use crate::store_pass::StorePass;

/// How many entries a call makes at most: those of a question's three tries, and that of a disk
/// that fails.
pub const MOST_CALL_ENTRIES: u64 = 4;

/// Whether the pass has room for the entries of a call. Where it has none it is spent.
#[tactic(auto, using(crate::proofs::RoomLemmas::enough, crate::proofs::RoomLemmas::too_few))]
pub fn has_room<N: Named>(pass: &StorePass<N>) -> bool
    ensures room { result ≡ true → HasRoom pass.now }
    ensures spent { result ≡ false → IsSpent pass.now }
{
    pass.left() >= MOST_CALL_ENTRIES
}
