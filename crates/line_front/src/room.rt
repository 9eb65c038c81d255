//! How many points a call of the store may put.
ghost use Rattle.std.specs.Prelude.{◌<◌, ◌≤◌};
ghost use Rattle.line_front.specs.Emits.{HasCallRoom};

use crate::batch::MOST_BATCH_POINTS;
use shared_store::{MOST_CALL_ENTRIES, Named, StorePass};

/// How many points a call may put: at most as many as a batch has, and none where the pass has no
/// room for a point and the entries of a call.
#[tactic(auto, using(crate::proofs::PutLemmas::call_room))]
pub(crate) fn call_room<N: Named>(pass: &StorePass<N>) -> usize
    ensures few { result ≤ 256 }
    ensures room { 0 < result → HasCallRoom result pass.now }
{
    pass.left()
        .saturating_sub(MOST_CALL_ENTRIES)
        .min(MOST_BATCH_POINTS as u64) as usize
}
