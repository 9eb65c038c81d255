//! Which store it is.
use std::marker::Brand;

/// Which store it is, in contracts alone: what its kinds of locks keep is tied by this.
pub trait Named {
    ghost use Rattle.std.specs.Prelude.{ℕ, Option};
    ghost use Rattle.atomic_table.specs.Seated.{TableId};
    ghost use Rattle.outside_io.specs.Image.{Image};
    ghost use Rattle.carbon_model.specs.State.{State};

    // The table of its history, and how many passes were made.
    ghost table: { TableId };

    ghost passes: { ℕ };

    // The table of what the two locks of each class agree on.
    ghost halves: { ℕ → TableId };

    // What the disk of each class told at the opening, the state then, and how often each disk had
    // failed.
    ghost told: { ℕ → Option Image };

    ghost start: { State };

    ghost faults: { ℕ → ℕ };
}

impl Named for Brand {
    ghost use Rattle.std.specs.Prelude.{[], None};
    ghost use Rattle.ring_format.specs.declared.archive.Method.TheVariants.{Average};
    ghost use Rattle.drain_order.specs.declared.strategy.Strategy.TheVariants.{Naive};

    ghost table = { record {
      words = 0;
      slots = 0;
      views_name = 0;
      atom = 0;
      block = 0;
      offset = 0;
      slot_names = [];
    } };

    ghost passes = { 0 };

    ghost halves = { λ class. record {
      words = 0;
      slots = 0;
      views_name = 0;
      atom = 0;
      block = 0;
      offset = 0;
      slot_names = [];
    } };

    ghost told = { λ class. None };

    ghost start = { record {
      pending = λ class. [];
      queue = λ class. [];
      kept = λ path. None;
      drains = λ path. 0;
      rules = λ path. record { archives = []; method = Average; factor = 0 };
      limit = 0;
      strategy = Naive;
    } };

    ghost faults = { λ class. 0 };
}
