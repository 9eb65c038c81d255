//! The table's rule, and the kinds of its steps.
use crate::view::View;
use atomic_table::{Join, Play, Split, Table, TableRule};
use std::alloc::Global;
use std::marker::{Brand, PhantomData};

/// The rule of two halves.
pub struct Law;

impl TableRule<u8, View, ()> for Law {
    ghost use Rattle.class_halves.specs.Rule.{Kept};
    ghost use Rattle.class_halves.specs.Views.{founder};

    ghost holds = { λ _. Kept };

    ghost first = { λ _. founder };
}

/// One word, and the seats of both halves.
pub type Board = Table<u8, View, (), Law, Global>;

/// The half of the files leaves a seat, or comes to it.
pub struct Halving;

impl Split<View> for Halving {
    ghost use Rattle.class_halves.specs.Views.{desk_of, files_of};

    ghost left = { desk_of };

    ghost right = { files_of };
}

impl Join<View> for Halving {
    ghost use Rattle.class_halves.specs.Views.{met, nobody};

    ghost both = { met };

    ghost spent = { nobody };
}

/// A stand that a call names for the proof alone.
pub trait NamedStand {
    ghost use Rattle.class_halves.specs.declared.view.Stand.{Stand};

    ghost stand: { Stand };
}

impl NamedStand for Brand {
    ghost use Rattle.class_halves.specs.Views.{no_stand};

    ghost stand = { no_stand };
}

/// Both halves are compared.
pub struct Meet;

impl Play<u8, View> for Meet {
    ghost use Rattle.class_halves.specs.Views.{Meets};

    ghost then = { Meets };
}

/// Both halves are renewed.
pub struct Renew<E: NamedStand> {
    of: PhantomData<E>,
}

impl<E: NamedStand> Play<u8, View> for Renew<E> {
    ghost use Rattle.class_halves.specs.Views.{Renews};

    ghost then = { Renews E.stand };
}
