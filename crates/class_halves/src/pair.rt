//! Both halves at the start.
use crate::half::{DeskHalf, FilesHalf, pull};
use crate::rule::Board;
use std::alloc::{AllocError, Global};
use std::marker::Model;
use std::sync::Arc;

/// Both halves of a class that has no entries, before they go behind their locks.
#[derive(Drop)]
pub struct Pair {
    desk: DeskHalf,
    files: FilesHalf,
}

/// The two halves of a pair.
#[derive(Drop)]
pub struct Halves {
    /// That of the desk.
    pub desk: DeskHalf,
    /// That of the files.
    pub files: FilesHalf,
}

impl Model for Pair {
    ghost use Rattle.std.specs.Prelude.{◌≡◌};
    ghost use Rattle.atomic_table.specs.Seated.{TableId};
    ghost use Rattle.class_halves.specs.Views.{no_stand};

    ghost Value = { TableId };

    ghost view = { λ p. p.desk.table };

    ghost invariant = { λ p. (p.files.table ≡ p.desk.table) × (p.desk.stand ≡ no_stand)
        × (p.files.stand ≡ no_stand) };
}

impl Pair {
    ghost use Rattle.std.specs.Prelude.{◌≡◌};
    ghost use Rattle.class_halves.specs.Views.{no_stand};

    /// Both halves of a class, over a table of their own.
    pub fn new(alloc: Global) -> Result<Pair, AllocError> {
        let words = [0u64];
        let (board, mut seat) = Board::of_words(alloc, words.as_slice(), &())?;
        let right = pull(&board, &mut seat);
        let board = Arc::new(alloc, board)?;
        let other = Arc::try_clone(&board)?;
        Ok(Pair {
            desk: DeskHalf { board, seat },
            files: FilesHalf {
                board: other,
                seat: right,
            },
        })
    }

    /// The halves, which are of one table and know of no entry.
    pub fn apart(self) -> Halves
        ensures desk { (result.desk.table ≡ self) × (result.desk.stand ≡ no_stand) }
        ensures files { (result.files.table ≡ self) × (result.files.stand ≡ no_stand) }
    {
        Halves {
            desk: self.desk,
            files: self.files,
        }
    }
}
