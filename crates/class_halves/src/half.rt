//! The two halves.
ghost use Rattle.std.specs.Prelude.{◌≡◌, ◌<◌, [], None, Some};
ghost use Rattle.class_halves.specs.Views.{desk_of, files_of, met, pair, stand_in};
ghost use Rattle.class_halves.specs.Parts.{half_with, stand_of};

use crate::rule::{Board, Halving, Meet, NamedStand, Renew};
use crate::view::View;
use atomic_table::Seat;
use shared_history::Tail;
use std::alloc::Global;
use std::marker::{Brand, Model};
use std::sync::Arc;

/// The half that stands behind the lock of a class's desk.
#[derive(Drop)]
pub struct DeskHalf {
    pub(crate) board: Arc<Board, Global>,
    pub(crate) seat: Seat<u8, View>,
}

impl Model for DeskHalf {
    ghost use Rattle.std.specs.Prelude.{◌≡◌, ◌<◌, [], None, Some};
    ghost use Rattle.std.specs.Arc.{arc_value};
    ghost use Rattle.class_halves.specs.Views.{pair, stand_in};
    ghost use Rattle.class_halves.specs.Parts.{HalfValue};

    ghost Value = { HalfValue };

    ghost view = { λ h. record { table = h.seat.table_id; stand = stand_in h.seat.me.0.desk } };

    ghost invariant = { λ h. (h.seat.table_id ≡ (arc_value h.board).shared.table_id)
        × (0 < (arc_value h.board).shared.table_id.words)
        × (h.seat.me ≡ (pair (Some (stand_in h.seat.me.0.desk)) None, [])) };
}

/// The half that stands behind the lock of a class's files.
#[derive(Drop)]
pub struct FilesHalf {
    pub(crate) board: Arc<Board, Global>,
    pub(crate) seat: Seat<u8, View>,
}

impl Model for FilesHalf {
    ghost use Rattle.std.specs.Prelude.{◌≡◌, ◌<◌, [], None, Some};
    ghost use Rattle.std.specs.Arc.{arc_value};
    ghost use Rattle.class_halves.specs.Views.{pair, stand_in};
    ghost use Rattle.class_halves.specs.Parts.{HalfValue};

    ghost Value = { HalfValue };

    ghost view = { λ h. record { table = h.seat.table_id; stand = stand_in h.seat.me.0.files } };

    ghost invariant = { λ h. (h.seat.table_id ≡ (arc_value h.board).shared.table_id)
        × (0 < (arc_value h.board).shared.table_id.words)
        × (h.seat.me ≡ (pair None (Some (stand_in h.seat.me.0.files)), [])) };
}

// The half of the files leaves a seat.
pub(crate) fn pull(board: &Board, seat: &mut Seat<u8, View>) -> Seat<u8, View>
    requires one { seat.old.table_id ≡ board.now.shared.table_id }
    requires words { 0 < board.now.shared.table_id.words }
    ensures left { (seat.new.table_id ≡ seat.old.table_id)
        × (seat.new.me ≡ (desk_of seat.old.me.0, seat.old.me.1)) }
    ensures right { (result.table_id ≡ seat.old.table_id)
        × (result.me ≡ (files_of seat.old.me.0, [])) }
{
    board.shared.split_seat::<Halving>(seat)
}

// The half of the files comes to a seat.
fn push(board: &Board, seat: &mut Seat<u8, View>, right: Seat<u8, View>)
    requires one { seat.old.table_id ≡ board.now.shared.table_id }
    requires right { (right.table_id ≡ board.now.shared.table_id) × (right.me.1 ≡ []) }
    requires alone { right.me.0.desk ≡ None }
    requires free { seat.old.me.0.files ≡ None }
    requires words { 0 < board.now.shared.table_id.words }
    ensures { (seat.new.table_id ≡ seat.old.table_id)
        × (seat.new.me ≡ (met seat.old.me.0 right.me.0, seat.old.me.1)) }
{
    board.shared.join_seat::<Halving>(seat, right);
}

/// Both halves have the same stand: who holds both locks learns it so. Nothing changes.
pub fn meet(desk: &mut DeskHalf, files: &mut FilesHalf)
    requires one { files.old.table ≡ desk.old.table }
    ensures same { files.old.stand ≡ desk.old.stand }
    ensures desk { desk.new ≡ desk.old }
    ensures files { files.new ≡ files.old }
{
    let board: &Board = &desk.board;
    let right = pull(board, &mut files.seat);
    push(board, &mut desk.seat, right);
    board.shared.load::<Meet>(&mut desk.seat, 0);
    let right = pull(board, &mut desk.seat);
    push(board, &mut files.seat, right);
}

// Both halves have a stand that the call names.
fn renew_named<E: NamedStand>(desk: &mut DeskHalf, files: &mut FilesHalf, tail: &Tail)
    requires named { E.stand ≡ stand_of tail.now }
    requires one { files.old.table ≡ desk.old.table }
    ensures desk { desk.new ≡ half_with desk.old E.stand }
    ensures files { files.new ≡ half_with files.old E.stand }
{
    let _ = tail;
    let board: &Board = &desk.board;
    let right = pull(board, &mut files.seat);
    push(board, &mut desk.seat, right);
    board.shared.load::<Renew<E>>(&mut desk.seat, 0);
    let right = pull(board, &mut desk.seat);
    push(board, &mut files.seat, right);
}

/// Both halves have the class as it is now, with all entries of its tail.
pub fn renew(desk: &mut DeskHalf, files: &mut FilesHalf, tail: &Tail)
    requires one { files.old.table ≡ desk.old.table }
    ensures desk { desk.new ≡ half_with desk.old (stand_of tail.now) }
    ensures files { files.new ≡ half_with files.old (stand_of tail.now) }
{
    renew_named::<Brand>(desk, files, tail);
}
