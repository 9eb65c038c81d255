//! One node of a glob over many nodes of paths.
ghost use Rattle.std.specs.Prelude.{◌≡◌, ◌+◌, ◌≤◌, ◌↔◌, IfOk, IfSome, OnOk, IsTrue, length};
ghost use Rattle.path_glob.specs.Glob.{NodeCovers};
ghost use Rattle.path_glob.specs.Reading.{pieces_of};

use crate::cover::{literal_front, node_fits};
use crate::groups::Groups;
use crate::hold_work::{HoldWork, long_groups, ready_work};
use crate::work::Work;
use std::alloc::{AllocError, Global};
use std::collections::HashMap;
use std::marker::Model;

// What came of a node is remembered where the glob's node has more bytes than these.
const MOST_UNKEPT_BYTES: usize = 32;

// What it takes to find the end of a node, beside a part of its bytes.
const NODE_WORK: u64 = 4;

// What it takes to look for a node among those that were tried, or to enter it there.
const TRIED_WORK: u64 = 32;

/// A node of a glob. Where trying takes long, the long groups of its pattern are made ready for many nodes of
/// paths; where it has none, what came of those that were tried is kept. What came of the last one is kept in both cases,
/// since paths in byte order have a node many times in a row.
#[derive(Drop)]
pub(crate) struct NodeSearch<'a> {
    alloc: Global,
    pieces: &'a [u8],
    is_long: bool,
    is_kept: bool,
    work: HoldWork,
    groups: Option<Groups<'a>>,
    tried: HashMap<Vec<u8>, bool>,
    last: Vec<u8>,
    // what came of the last node, with `None` where there was none
    last_covers: Option<bool>,
}

impl<'a> Model for NodeSearch<'a> {
    ghost use Rattle.std.specs.Prelude.{IfSome, List, ℕ};
    ghost use Rattle.path_glob.specs.Groups.{AreGroups};
    ghost use Rattle.path_glob.specs.Reading.{pieces_of};
    ghost use Rattle.path_glob.specs.Search.{AreVerdicts, IsVerdict};

    ghost Value = { List ℕ };

    ghost view = { λ s. s.pieces.now };

    ghost invariant = { λ s. AreVerdicts s.pieces.now s.tried.entries
        × (IfSome s.groups (λ groups. AreGroups groups (pieces_of s.pieces.now))
        × IfSome s.last_covers (λ covers. IsVerdict s.pieces.now s.last.items covers)) };
}

impl<'a> NodeSearch<'a> {
    /// The node of a glob with this text.
    pub(crate) fn new(alloc: Global, pieces: &'a [u8]) -> NodeSearch<'a>
        ensures { result ≡ pieces.now }
    {
        let front = literal_front(pieces).len();
        let is_long = long_groups(&pieces[front..]) > 0;
        NodeSearch {
            alloc,
            pieces,
            is_long,
            is_kept: !is_long && front < pieces.len() && pieces.len() > MOST_UNKEPT_BYTES,
            work: HoldWork::of_node(pieces),
            groups: None,
            tried: HashMap::new(alloc),
            last: Vec::new(alloc),
            last_covers: None,
        }
    }

    /// Whether the pieces cover a node. The work is at least 4, and grows with what is done: the node is cut out and
    /// looked for among those that were tried; or the bytes of the pieces, with one more for each value of braces, are held against it, some
    /// of them against each of its bytes; or, where these are many, the words that hold their states are. The first time the pieces are made
    /// ready for that.
    pub(crate) fn covers(&mut self, work: &mut Work, node: &[u8]) -> Result<bool, AllocError>
        requires { length node.now ≤ 240 }
        ensures covers { IfOk result (λ covers. IsTrue covers
            ↔ NodeCovers (pieces_of self.old) node.now) }
        ensures same { self.new ≡ self.old }
        ensures falls { work.new.left ≤ work.old.left }
        ensures spends { OnOk result (work.new.left + 4 ≤ work.old.left) }
    {
        work.spend(work_of(node))?;
        if !self.is_long && !self.is_kept {
            return self.hold(work, node);
        }
        work.spend(TRIED_WORK)?;
        if let Some(covers) = self.covers_again(node) {
            return Ok(covers);
        }
        let covers = self.covers_next(work, node)?;
        self.keep_last(node, covers)?;
        Ok(covers)
    }

    // What came of the last node, if it is this one.
    fn covers_again(&self, node: &[u8]) -> Option<bool>
        ensures { IfSome result (λ covers. IsTrue covers
            ↔ NodeCovers (pieces_of self.now) node.now) }
    {
        if self.last.as_slice() == node {
            return self.last_covers;
        }
        None
    }

    // This came of a node, which is the last one now.
    fn keep_last(&mut self, node: &[u8], covers: bool) -> Result<(), AllocError>
        requires { IsTrue covers ↔ NodeCovers (pieces_of self.old) node.now }
        ensures { self.new ≡ self.old }
    {
        self.last_covers = None;
        self.last.clear();
        self.last.extend_from_slice(node)?;
        self.last_covers = Some(covers);
        Ok(())
    }

    // Whether the pieces cover another node than the last one.
    fn covers_next(&mut self, work: &mut Work, node: &[u8]) -> Result<bool, AllocError>
        requires { length node.now ≤ 240 }
        ensures covers { IfOk result (λ covers. IsTrue covers
            ↔ NodeCovers (pieces_of self.old) node.now) }
        ensures same { self.new ≡ self.old }
        ensures falls { work.new.left ≤ work.old.left }
    {
        if self.is_long {
            self.make_ready(work)?;
            return self.hold_groups(work, node);
        }
        if let Some(covers) = self.tried.get(node) {
            return Ok(*covers);
        }
        self.try_node(work, node)
    }

    // Makes the groups ready, where they are not.
    fn make_ready(&mut self, work: &mut Work) -> Result<(), AllocError>
        ensures same { self.new ≡ self.old }
        ensures falls { work.new.left ≤ work.old.left }
    {
        if self.groups.is_some() {
            return Ok(());
        }
        work.spend(ready_work(self.pieces))?;
        let groups = Groups::new(self.alloc, self.pieces)?;
        self.work = groups.work();
        self.groups = Some(groups);
        Ok(())
    }

    // Whether the pieces cover a node, against which they are held as groups.
    fn hold_groups(&mut self, work: &mut Work, node: &[u8]) -> Result<bool, AllocError>
        requires { length node.now ≤ 240 }
        ensures covers { IfOk result (λ covers. IsTrue covers
            ↔ NodeCovers (pieces_of self.old) node.now) }
        ensures same { self.new ≡ self.old }
        ensures falls { work.new.left ≤ work.old.left }
    {
        work.spend(self.work.for_bytes(node.len()))?;
        match &mut self.groups {
            Some(groups) => return Ok(groups.cover(node)),
            None => return Ok(node_fits(self.pieces, node)),
        }
    }

    // Whether the pieces cover a node, against which they are held as text.
    fn hold(&self, work: &mut Work, node: &[u8]) -> Result<bool, AllocError>
        requires { length node.now ≤ 240 }
        ensures covers { IfOk result (λ covers. IsTrue covers
            ↔ NodeCovers (pieces_of self.now) node.now) }
        ensures falls { work.new.left ≤ work.old.left }
    {
        work.spend(self.work.for_bytes(node.len()))?;
        Ok(node_fits(self.pieces, node))
    }

    // The same of a node that was not tried before, which is remembered.
    fn try_node(&mut self, work: &mut Work, node: &[u8]) -> Result<bool, AllocError>
        requires { length node.now ≤ 240 }
        ensures covers { IfOk result (λ covers. IsTrue covers
            ↔ NodeCovers (pieces_of self.old) node.now) }
        ensures same { self.new ≡ self.old }
        ensures falls { work.new.left ≤ work.old.left }
    {
        let covers = self.hold(work, node)?;
        let tried = Vec::from_slice(self.alloc, node)?;
        self.tried.insert(tried, covers)?;
        Ok(covers)
    }
}

// What each node takes: its end is found, and it may be compared.
fn work_of(node: &[u8]) -> u64
    ensures { 4 ≤ result }
{
    NODE_WORK.saturating_add(node.len() as u64 / 4)
}
