//! The rights travel: from one seat to another, and back.
ghost use Rattle.std.specs.Prelude.{◌≡◌, ◌<◌, [], None};
ghost use Rattle.shared_history.specs.Rule.{IsBranchAlone, IsLeadAlone};
ghost use Rattle.shared_history.specs.Views.{lent, lead_of, led, pruned, branch_of, grafted};

use crate::rule::{Board, Branching, Leading};
use crate::view::View;
use atomic_table::Seat;
use carbon_history::Entry;

/// Takes the right to append out of a seat.
pub fn lend(board: &Board, seat: &mut Seat<Entry, View>) -> Seat<Entry, View>
    requires one { seat.old.table_id ≡ board.now.shared.table_id }
    requires words { 0 < board.now.shared.table_id.words }
    ensures left { (seat.new.table_id ≡ seat.old.table_id)
        × (seat.new.me ≡ (lent seat.old.me.0, seat.old.me.1)) }
    ensures right { (result.table_id ≡ seat.old.table_id)
        × (result.me ≡ (lead_of seat.old.me.0, [])) }
{
    board.shared.split_seat::<Leading>(seat)
}

/// Gives the right to append to a seat.
pub fn take(board: &Board, seat: &mut Seat<Entry, View>, right: Seat<Entry, View>)
    requires one { seat.old.table_id ≡ board.now.shared.table_id }
    requires right { (right.table_id ≡ board.now.shared.table_id) × (right.me.1 ≡ []) }
    requires alone { IsLeadAlone right.me.0 }
    requires words { 0 < board.now.shared.table_id.words }
    ensures { (seat.new.table_id ≡ seat.old.table_id)
        × (seat.new.me ≡ (led seat.old.me.0 right.me.0, seat.old.me.1)) }
{
    board.shared.join_seat::<Leading>(seat, right);
}

/// Takes the right of a class out of a seat.
pub fn prune(board: &Board, seat: &mut Seat<Entry, View>) -> Seat<Entry, View>
    requires one { seat.old.table_id ≡ board.now.shared.table_id }
    requires words { 0 < board.now.shared.table_id.words }
    ensures left { (seat.new.table_id ≡ seat.old.table_id)
        × (seat.new.me ≡ (pruned seat.old.me.0, seat.old.me.1)) }
    ensures right { (result.table_id ≡ seat.old.table_id)
        × (result.me ≡ (branch_of seat.old.me.0, [])) }
{
    board.shared.split_seat::<Branching>(seat)
}

/// Gives the right of a class to a seat.
pub fn graft(board: &Board, seat: &mut Seat<Entry, View>, right: Seat<Entry, View>)
    requires one { seat.old.table_id ≡ board.now.shared.table_id }
    requires right { (right.table_id ≡ board.now.shared.table_id) × (right.me.1 ≡ []) }
    requires alone { IsBranchAlone right.me.0 }
    requires free { seat.old.me.0.branch ≡ None }
    requires words { 0 < board.now.shared.table_id.words }
    ensures { (seat.new.table_id ≡ seat.old.table_id)
        × (seat.new.me ≡ (grafted seat.old.me.0 right.me.0, seat.old.me.1)) }
{
    board.shared.join_seat::<Branching>(seat, right);
}
