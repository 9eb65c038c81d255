//! The order, the tails, the passes and their notes.
ghost use Rattle.std.specs.Prelude.{◌≡◌, ◌+◌, ◌≤◌, ◌^◌, length};
ghost use Rattle.shared_history.specs.Parts.{greatest_ask, own_entries};

use crate::rule::Board;
use crate::view::View;
use atomic_table::Seat;
use carbon_history::Entry;
use std::alloc::Global;
use std::marker::Model;
use std::sync::Arc;

/// How many entries a pass may have.
pub const MOST_ENTRIES: u64 = 1 << 48;

/// The whole history, and the right to append to it.
#[derive(Drop)]
pub struct Order {
    pub(crate) board: Arc<Board, Global>,
    pub(crate) seat: Seat<Entry, View>,
    pub(crate) passes: u32,
    pub(crate) classes: u32,
}

impl Model for Order {
    ghost use Rattle.std.specs.Prelude.{◌≡◌, ◌<◌, []};
    ghost use Rattle.std.specs.Arc.{arc_value};
    ghost use Rattle.shared_history.specs.Views.{all_of};
    ghost use Rattle.shared_history.specs.Parts.{OrderValue, order_view};

    ghost Value = { OrderValue };

    ghost view = { λ o. record {
      table = o.seat.table_id;
      list = all_of o.seat.me.0.lead;
      passes = o.passes;
      classes = o.classes;
    } };

    ghost invariant = { λ o. (o.seat.table_id ≡ (arc_value o.board).shared.table_id)
        × (0 < (arc_value o.board).shared.table_id.words)
        × (o.seat.me ≡ (order_view (all_of o.seat.me.0.lead) o.passes o.classes, [])) };
}

/// The entries about one class, and the right of the class.
#[derive(Drop)]
pub struct Tail {
    pub(crate) board: Arc<Board, Global>,
    pub(crate) seat: Seat<Entry, View>,
    pub(crate) class: u32,
}

impl Model for Tail {
    ghost use Rattle.std.specs.Prelude.{◌≡◌, ◌+◌, ◌<◌, []};
    ghost use Rattle.std.specs.Arc.{arc_value};
    ghost use Rattle.shared_history.specs.Rule.{OneOwed};
    ghost use Rattle.shared_history.specs.Parts.{TailValue, tail_view, list_of, settled_of, runs_of};

    ghost Value = { TailValue };

    ghost view = { λ t. record {
      table = t.seat.table_id;
      class = t.class;
      list = list_of t.seat.me.0.branch;
      settled = settled_of t.seat.me.0.branch;
      runs = runs_of t.seat.me.0.branch;
    } };

    ghost invariant = { λ t. (t.seat.table_id ≡ (arc_value t.board).shared.table_id)
        × (t.class + 1 < (arc_value t.board).shared.table_id.words)
        × (t.seat.me ≡ (
          tail_view t.class (list_of t.seat.me.0.branch)
              (settled_of t.seat.me.0.branch) (runs_of t.seat.me.0.branch),
          [],
        ))
        × OneOwed (settled_of t.seat.me.0.branch) (list_of t.seat.me.0.branch) };
}

/// A caller: its number, what it has seen of the history, its own entries and its looks at classes.
/// At run time it counts its entries and its questions.
#[derive(Drop)]
pub struct Pass {
    pub(crate) board: Arc<Board, Global>,
    pub(crate) seat: Seat<Entry, View>,
    pub(crate) number: u32,
    pub(crate) left: u64,
    pub(crate) asks: u64,
}

impl Model for Pass {
    ghost use Rattle.std.specs.Prelude.{◌≡◌, ◌+◌, ◌<◌, ◌≤◌, ◌^◌, [], length};
    ghost use Rattle.std.specs.Arc.{arc_value};
    ghost use Rattle.carbon_history.specs.Entries.{of_pass};
    ghost use Rattle.shared_history.specs.Parts.{PassValue, greatest_ask, pass_view, mine_of, looks_of, sights_of};

    ghost Value = { PassValue };

    ghost view = { λ p. record {
      table = p.seat.table_id;
      number = p.number;
      seen = p.seat.me.0.seen;
      looks = looks_of p.seat.me.0.own;
      sights = sights_of p.seat.me.0.own;
    } };

    ghost invariant = { λ p. (p.seat.table_id ≡ (arc_value p.board).shared.table_id)
        × (0 < (arc_value p.board).shared.table_id.words)
        × (p.seat.me ≡ (
          pass_view p.seat.me.0.seen p.number (mine_of p.seat.me.0.own)
              (looks_of p.seat.me.0.own) (sights_of p.seat.me.0.own),
          [],
        ))
        × (of_pass p.number p.seat.me.0.seen ≡ mine_of p.seat.me.0.own)
        × (p.left + length (mine_of p.seat.me.0.own) ≡ 2 ^ 48)
        × (p.asks ≡ greatest_ask (mine_of p.seat.me.0.own))
        × (p.asks ≤ length (mine_of p.seat.me.0.own)) };
}

/// A copy of what a pass has seen.
#[derive(Drop)]
pub struct Note {
    pub(crate) seat: Seat<Entry, View>,
}

impl Model for Note {
    ghost use Rattle.std.specs.Prelude.{◌≡◌, []};
    ghost use Rattle.shared_history.specs.Parts.{NoteValue};
    ghost use Rattle.shared_history.specs.Views.{noted};

    ghost Value = { NoteValue };

    ghost view = { λ n. record { table = n.seat.table_id; list = n.seat.me.0.seen } };

    ghost invariant = { λ n. n.seat.me ≡ (noted n.seat.me.0, []) };
}

impl Tail {
    /// The class.
    pub fn class(&self) -> u32
        ensures { result ≡ self.now.class }
    {
        self.class
    }
}

impl Pass {
    /// The number of the pass, which its entries carry.
    pub fn number(&self) -> u32
        ensures { result ≡ self.now.number }
    {
        self.number
    }

    /// How many more entries the pass may have.
    pub fn left(&self) -> u64
        ensures { result + length (own_entries self.now) ≡ 2 ^ 48 }
    {
        self.left
    }

    /// The greatest number of the pass's questions, 0 where there are none.
    pub fn asks(&self) -> u64
        ensures greatest { result ≡ greatest_ask (own_entries self.now) }
        ensures few { result ≤ length (own_entries self.now) }
    {
        self.asks
    }
}
