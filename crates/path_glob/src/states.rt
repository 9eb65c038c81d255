//! Rows of pieces as states, from each of which a byte leads on to the next.
ghost use Rattle.std.specs.Prelude.{◌≡◌, OnOk, IfOk};
ghost use Rattle.path_glob.specs.Reading.{row_of, values_of};
ghost use Rattle.path_glob.specs.States.{AddsRow, AreRows, has_mark, mark_of, rows_of};

use crate::cut::{ByteSet, SimplePiece, cut_at, next_piece};
use std::alloc::{AllocError, Global};

/// A state of a row of pieces: before one of its pieces of one byte, or at its end.
#[derive(Clone, Copy)]
pub(crate) struct State<'a> {
    is_first: bool,
    // whether a `*` stands there, so that any byte leads back to it
    has_star: bool,
    // the bytes that lead on to the next one, with `None` at the end of the row
    pub(crate) next: Option<ByteSet<'a>>,
}

/// What a state may be.
#[derive(Clone, Copy)]
pub(crate) enum Kind {
    /// The first of its row.
    First,
    /// One at a `*`.
    Star,
    /// The end of its row.
    End,
}

impl State<'_> {
    /// Whether it is such a state.
    pub(crate) fn is(self, kind: Kind) -> bool
        ensures { result ≡ has_mark (mark_of kind) self.entry }
    {
        match kind {
            Kind::First => return self.is_first,
            Kind::Star => return self.has_star,
            Kind::End => return self.next.is_none(),
        }
    }
}

/// The text of rows of pieces, one of which is to cover bytes.
#[derive(Clone, Copy)]
pub(crate) enum Rows<'a> {
    /// One row.
    One(&'a [u8]),
    /// The values between braces.
    Values(&'a [u8]),
}

impl<'a> Rows<'a> {
    /// The text of the rows.
    pub(crate) fn text(self) -> &'a [u8] {
        match self {
            Rows::One(row) => return row,
            Rows::Values(values) => return values,
        }
    }
}

/// The states of rows, one row behind the other.
pub(crate) fn states_of<'a>(alloc: Global, rows: Rows<'a>) -> Result<Vec<State<'a>>, AllocError>
    ensures { IfOk result (λ states. AreRows (rows_of rows.entry) states.items) }
{
    match rows {
        Rows::Values(values) => return states_of_values(alloc, values),
        Rows::One(row) => {
            let mut states = Vec::new(alloc);
            push_row(&mut states, row)?;
            return Ok(states);
        }
    }
}

// The states of the values between braces, one value behind the other.
fn states_of_values(alloc: Global, values: &[u8]) -> Result<Vec<State<'_>>, AllocError>
    ensures { IfOk result (λ states. AreRows (values_of values.now) states.items) }
{
    let mut states = Vec::new(alloc);
    let mut rest = values;
    while let Some(cut) = cut_at(rest, b',') {
        push_row(&mut states, cut.before)?;
        rest = cut.after;
    }
    push_row(&mut states, rest)?;
    Ok(states)
}

// Adds the states of a row.
fn push_row<'a>(states: &mut Vec<State<'a>>, row: &'a [u8]) -> Result<(), AllocError>
    ensures { OnOk result (AddsRow (row_of row.now) states.old.items states.new.items) }
{
    let mut rest = row;
    let mut is_first = true;
    let mut has_star = false;
    while let Some(piece) = next_piece(rest) {
        match piece.piece {
            SimplePiece::AnyRow => has_star = true,
            SimplePiece::Byte(bytes) => {
                states.push(State {
                    is_first,
                    has_star,
                    next: Some(bytes),
                })?;
                is_first = false;
                has_star = false;
            }
        }
        rest = piece.after;
    }
    states.push(State {
        is_first,
        has_star,
        next: None,
    })?;
    Ok(())
}
