//! The pattern of a node as groups of rows: long ones as automata.
ghost use Rattle.std.specs.Prelude.{◌≡◌, ◌↔◌, ◌≤◌, IfOk, IsTrue, length};
ghost use Rattle.path_glob.specs.Glob.{SomeCovers};
ghost use Rattle.path_glob.specs.Groups.{AreGroups, GroupsCover, all_rows, group_rows};
ghost use Rattle.path_glob.specs.Positions.{Leads, held};
ghost use Rattle.path_glob.specs.Reading.{pieces_of};
ghost use Rattle.path_glob.specs.States.{rows_of};

use crate::automaton::Automaton;
use crate::cover::{MANY_PIECES, after_row, after_values};
use crate::cut::next_braces;
use crate::hold_work::HoldWork;
use crate::places::{Node, Places};
use crate::positions::Positions;
use crate::states::Rows;
use std::alloc::{AllocError, Global};
use std::marker::Model;

/// A row of pieces or the values of braces. The text of a short one is read each time.
#[derive(Drop)]
pub(crate) enum Group<'a> {
    Text(Rows<'a>),
    States(Automaton<'a>),
}

impl<'a> Group<'a> {
    /// The group of these rows.
    fn new(alloc: Global, rows: Rows<'a>) -> Result<Group<'a>, AllocError>
        ensures { IfOk result (λ group. group_rows group ≡ rows_of rows.entry) }
    {
        if rows.text().len() < MANY_PIECES {
            return Ok(Group::Text(rows));
        }
        let automaton = Automaton::new(alloc, rows)?;
        Ok(Group::States(automaton))
    }

    // The positions in a node to which these lead over what one of the rows covers.
    fn after(&mut self, node: &Node<'_>, start: Positions) -> Positions
        requires { length node.now ≤ 240 }
        ensures leads { Leads (SomeCovers (group_rows self.old)) node.now (held start) (held result) }
        ensures same { self.new ≡ self.old }
    {
        match self {
            Group::Text(rows) => return after_rows(*rows, node, start),
            Group::States(automaton) => return automaton.after(node.bytes(), start),
        }
    }

    // What it takes to hold it against a node.
    fn work(&self, is_short: bool) -> HoldWork {
        match self {
            Group::Text(rows) => return HoldWork::of_text(rows.text(), is_short),
            Group::States(automaton) => return HoldWork::of_words(automaton.words()),
        }
    }

    // The bytes that are read each time.
    fn text_len(&self) -> usize {
        match self {
            Group::Text(rows) => return rows.text().len(),
            Group::States(_) => return 0,
        }
    }
}

// The same over what one of the rows with this text covers.
fn after_rows(rows: Rows<'_>, node: &Node<'_>, start: Positions) -> Positions
    requires { length node.now ≤ 240 }
    ensures { Leads (SomeCovers (rows_of rows.entry)) node.now (held start) (held result) }
{
    match rows {
        Rows::One(row) => return after_row(row, node, start),
        Rows::Values(values) => return after_values(values, node, start),
    }
}

/// The groups of a node's pattern. Contracts see their rows.
#[derive(Drop)]
pub(crate) struct Groups<'a> {
    groups: Vec<Group<'a>>,
    // whether few bytes are read each time
    is_short: bool,
}

impl<'a> Model for Groups<'a> {
    ghost use Rattle.std.specs.Prelude.{List};
    ghost use Rattle.path_glob.specs.Glob.{Simple};
    ghost use Rattle.path_glob.specs.Groups.{all_rows};

    ghost Value = { List (List (List Simple)) };

    ghost view = { λ g. all_rows g.groups.items };
}

impl<'a> Groups<'a> {
    /// The groups of a node with these pieces.
    pub(crate) fn new(alloc: Global, pieces: &'a [u8]) -> Result<Groups<'a>, AllocError>
        ensures { IfOk result (λ groups. AreGroups groups (pieces_of pieces.now)) }
    {
        let groups = groups_of(alloc, pieces)?;
        let is_short = text_len(groups.as_slice()) < MANY_PIECES;
        Ok(Groups { groups, is_short })
    }

    /// What it takes to hold them against a node.
    pub(crate) fn work(&self) -> HoldWork {
        let mut work = HoldWork::none();
        for group in &self.groups {
            work = work.and(group.work(self.is_short));
        }
        work
    }

    /// Whether they cover a node.
    pub(crate) fn cover(&mut self, node: &[u8]) -> bool
        requires { length node.now ≤ 240 }
        ensures covers { IsTrue result ↔ GroupsCover self.old node.now }
        ensures same { self.new ≡ self.old }
    {
        if self.is_short {
            return groups_cover(self.groups.as_mut_slice(), &Node::new(node));
        }
        let places = Places::of(node);
        groups_cover(
            self.groups.as_mut_slice(),
            &Node::with_places(node, &places),
        )
    }
}

// The bytes of groups that are read each time.
fn text_len(groups: &[Group<'_>]) -> usize {
    let mut len = 0_usize;
    for group in groups {
        len = len.saturating_add(group.text_len());
    }
    len
}

// The groups of a node's pattern: each braces, and each row before or behind them.
fn groups_of<'a>(alloc: Global, pieces: &'a [u8]) -> Result<Vec<Group<'a>>, AllocError>
    ensures { IfOk result (λ groups. AreGroups (all_rows groups.items) (pieces_of pieces.now)) }
{
    let mut groups = Vec::new(alloc);
    let mut rest = pieces;
    while let Some(parts) = next_braces(rest) {
        groups.push(Group::new(alloc, Rows::One(parts.before))?)?;
        groups.push(Group::new(alloc, Rows::Values(parts.inner))?)?;
        rest = parts.after;
    }
    groups.push(Group::new(alloc, Rows::One(rest))?)?;
    Ok(groups)
}

// Whether groups cover a node, one after the other.
fn groups_cover(groups: &mut [Group<'_>], node: &Node<'_>) -> bool
    requires { length node.now ≤ 240 }
    ensures covers { IsTrue result ↔ GroupsCover (all_rows groups.old) node.now }
    ensures same { groups.new ≡ groups.old }
{
    let mut reached = Positions::start();
    for i in 0..groups.len() {
        reached = groups[i].after(node, reached);
        if reached.is_none() {
            return false;
        }
    }
    reached.has(node.len())
}
