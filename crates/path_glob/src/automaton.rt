//! One part of a node's pattern, a long row of pieces or long braces, held against many nodes.
use crate::bits::Bits;
use crate::known_sets::KnownSets;
use crate::positions::Positions;
use crate::states::{Rows, states_of};
use crate::tables::{Tables, tables_of};
use std::alloc::{AllocError, Global};
use std::marker::Model;

/// Rows of pieces, made ready to be held against many nodes. Contracts see the rows.
#[derive(Drop)]
pub(crate) struct Automaton<'a> {
    rows: Rows<'a>,
    tables: Tables,
    // the sets of its states that were active, with where the bytes lead from them
    known: KnownSets,
    // the states that are active while a node is gone over, where these are no known set
    active: Bits,
}

impl<'a> Model for Automaton<'a> {
    ghost use Rattle.std.specs.Prelude.{List, length};
    ghost use Rattle.path_glob.specs.Glob.{Simple};
    ghost use Rattle.path_glob.specs.Known.{AreKnown};
    ghost use Rattle.path_glob.specs.States.{rows_of};
    ghost use Rattle.path_glob.specs.Tables.{AreTablesOf};

    ghost Value = { List (List Simple) };

    ghost view = { λ a. rows_of a.rows };

    ghost invariant = { λ a. AreTablesOf (rows_of a.rows) a.tables (length a.active)
        × AreKnown a.tables a.known };
}

impl<'a> Automaton<'a> {
    ghost use Rattle.std.specs.Prelude.{◌≡◌, ◌≤◌, IfOk, length};
    ghost use Rattle.path_glob.specs.Glob.{SomeCovers};
    ghost use Rattle.path_glob.specs.Positions.{Leads, held};
    ghost use Rattle.path_glob.specs.States.{rows_of};

    /// The automaton of these rows.
    pub(crate) fn new(alloc: Global, rows: Rows<'a>) -> Result<Automaton<'a>, AllocError>
        ensures { IfOk result (λ automaton. automaton ≡ rows_of rows.entry) }
    {
        let states = states_of(alloc, rows)?;
        let list = states.as_slice();
        let tables = tables_of(alloc, list)?;
        let known = KnownSets::new(alloc, &tables)?;
        let active = Bits::none(alloc, list.len() / 64 + 1)?;
        Ok(Automaton {
            rows,
            tables,
            known,
            active,
        })
    }

    /// How many words its states take.
    pub(crate) fn words(&self) -> usize {
        self.active.words()
    }

    /// The positions in a node to which these lead over what one of the rows covers.
    pub(crate) fn after(&mut self, node: &[u8], start: Positions) -> Positions
        requires { length node.now ≤ 240 }
        ensures leads { Leads (SomeCovers self.old) node.now (held start) (held result) }
        ensures same { self.new ≡ self.old }
    {
        self.known
            .after(&self.tables, &mut self.active, node, start)
    }
}
