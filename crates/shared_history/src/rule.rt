//! The table's rule, and the kinds of its steps.
use crate::view::View;
use atomic_table::{Join, Play, Split, Table, TableRule};
use carbon_history::Entry;
use std::alloc::Global;
use std::marker::{Brand, PhantomData};

/// The rule of the history.
pub struct Law;

impl TableRule<Entry, View, ()> for Law {
    ghost use Rattle.shared_history.specs.Rule.{Kept};
    ghost use Rattle.shared_history.specs.Views.{founder};

    ghost holds = { λ _. Kept };

    ghost first = { λ _. founder };
}

/// One word for the history and one for each class, and the seats of all parts.
pub type Board = Table<Entry, View, (), Law, Global>;

/// The right to append leaves a seat, or comes to it.
pub struct Leading;

impl Split<View> for Leading {
    ghost use Rattle.shared_history.specs.Views.{lent, lead_of};

    ghost left = { lent };

    ghost right = { lead_of };
}

impl Join<View> for Leading {
    ghost use Rattle.shared_history.specs.Views.{led, nobody};

    ghost both = { led };

    ghost spent = { nobody };
}

/// The right of a class leaves a seat, or comes to it.
pub struct Branching;

impl Split<View> for Branching {
    ghost use Rattle.shared_history.specs.Views.{pruned, branch_of};

    ghost left = { pruned };

    ghost right = { branch_of };
}

impl Join<View> for Branching {
    ghost use Rattle.shared_history.specs.Views.{grafted, nobody};

    ghost both = { grafted };

    ghost spent = { nobody };
}

/// A copy of what was seen leaves a seat, or comes to it.
pub struct Noting;

impl Split<View> for Noting {
    ghost use Rattle.shared_history.specs.Views.{noted};

    ghost left = { λ v. v };

    ghost right = { noted };
}

impl Join<View> for Noting {
    ghost use Rattle.shared_history.specs.Views.{hearing, nobody};

    ghost both = { hearing };

    ghost spent = { nobody };
}

/// A class more.
pub struct NewTail;

impl Split<View> for NewTail {
    ghost use Rattle.shared_history.specs.Views.{with_class, new_tail};

    ghost left = { with_class };

    ghost right = { new_tail };
}

/// A pass more.
pub struct NewPass;

impl Split<View> for NewPass {
    ghost use Rattle.shared_history.specs.Views.{with_pass, new_pass};

    ghost left = { with_pass };

    ghost right = { new_pass };
}

/// An entry that a call names for the proof alone.
pub trait Named {
    ghost use Rattle.carbon_history.specs.declared.entry.Entry.{Entry};

    ghost entry: { Entry };
}

impl Named for Brand {
    ghost use Rattle.carbon_history.specs.declared.entry.Entry.TheVariants.{Ask};

    ghost entry = { Ask 0 0 0 0 };
}

/// An entry is appended, and waits for its class.
pub struct Append<E: Named> {
    of: PhantomData<E>,
}

impl<E: Named> Play<Entry, View> for Append<E> {
    ghost use Rattle.shared_history.specs.Plays.{Awaits};

    ghost then = { Awaits E.entry };
}

/// The class counts the entry that waits.
pub struct Count<E: Named> {
    of: PhantomData<E>,
}

impl<E: Named> Play<Entry, View> for Count<E> {
    ghost use Rattle.shared_history.specs.Plays.{Enters};

    ghost then = { Enters E.entry };
}

/// An entry of no class is appended.
pub struct AppendAsk<E: Named> {
    of: PhantomData<E>,
}

impl<E: Named> Play<Entry, View> for AppendAsk<E> {
    ghost use Rattle.shared_history.specs.Plays.{Enters};

    ghost then = { Enters E.entry };
}

/// The whole history is seen.
pub struct See;

impl Play<Entry, View> for See {
    ghost use Rattle.shared_history.specs.Plays.{Sees};

    ghost then = { Sees };
}

/// The longer of what was seen and what was told is seen.
pub struct Learn;

impl Play<Entry, View> for Learn {
    ghost use Rattle.shared_history.specs.Plays.{Learns};

    ghost then = { Learns };
}

/// A class's list is compared with the history.
pub struct Agree;

impl Play<Entry, View> for Agree {
    ghost use Rattle.shared_history.specs.Plays.{Agrees};

    ghost then = { Agrees };
}

/// A drain is settled.
pub struct Settle;

impl Play<Entry, View> for Settle {
    ghost use Rattle.shared_history.specs.Plays.{Settles};

    ghost then = { Settles };
}

/// A run is written.
pub struct Ran;

impl Play<Entry, View> for Ran {
    ghost use Rattle.shared_history.specs.Plays.{Runs};

    ghost then = { Runs };
}

/// A pass looks at a class.
pub struct Mark;

impl Play<Entry, View> for Mark {
    ghost use Rattle.shared_history.specs.Plays.{Marks};

    ghost then = { Marks };
}

/// The history ends.
pub struct Close;

impl Play<Entry, View> for Close {
    ghost use Rattle.shared_history.specs.Plays.{Closes};

    ghost then = { Closes };
}
