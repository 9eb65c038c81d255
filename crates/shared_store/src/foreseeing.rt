//! What is found out before the locks of all classes are taken.
use crate::named::Named;
use crate::store::Store;
use crate::store_pass::StorePass;
use metric_path::{CLASSES, MetricPath};
use outside_io::Disk;
use render_need::Need;
use std::alloc::{AllocError, Global};
use std::sync::Wait;

/// How much work may be done under the locks of all desks, in bytes of patterns that are held against names.
const MOST_WORK_LOCKED: u64 = 400_000;

/// As how many bytes a pattern counts that has fewer: to go from name to name takes as long, and to look for the first.
const LEAST_PATTERN: u64 = 32;

/// How many names of a class are copied at a time under the lock of its desk.
const PIECE: usize = 1_024;

/// How many such pieces are copied of a class at most. Behind them its names are not known beforehand, and are looked at
/// under the locks of all desks.
const MOST_PIECES: u32 = 1_000_000;

/// The least text that is a path.
const LEAST_PATH: &[u8] = b"!";

impl<D: Disk, N: Named> Store<D, N> {
    ghost use Rattle.std.specs.Prelude.{◌≡◌, ◌<◌, IfOk, length};
    ghost use Rattle.shared_history.specs.Views.{look_at};
    ghost use Rattle.shared_store.specs.Asking.{OnlyLooks};
    ghost use Rattle.shared_store.specs.Known.{AreInOrder, IsPieceOf, KnowsBy, KnowsOf, LooksAlone, lists_of};

    // Takes the work of looking at a class for these needs from what is left. None where it is more. The lock of the class is given back
    // behind each need.
    fn work_left(
        &self,
        rt: &impl Wait,
        class: u32,
        needs: &[Need],
        left: u64,
    ) -> Result<Option<u64>, AllocError>
        requires { class < 16 }
    {
        let mut left = left;
        for need in needs {
            let pattern = LEAST_PATTERN.max(need.glob.text().len() as u64);
            let fitting = left.checked_div(pattern).unwrap_or(0);
            let most = fitting.saturating_add(1) as usize;
            let names = self.lock_class(rt, class).desk.width(&need.glob, most)?;
            let work = pattern
                .saturating_mul(names as u64)
                .saturating_add(LEAST_PATTERN);
            let Some(rest) = left.checked_sub(work) else {
                return Ok(None);
            };
            left = rest;
        }
        Ok(Some(left))
    }

    // Whether a look at all classes for these needs is too much work for the time under their locks.
    fn is_wide(&self, rt: &impl Wait, needs: &[Need]) -> Result<bool, AllocError> {
        let mut left = MOST_WORK_LOCKED;
        for class in 0..CLASSES {
            let Some(rest) = self.work_left(rt, class, needs, left)? else {
                return Ok(true);
            };
            left = rest;
        }
        Ok(false)
    }

    // Names of a class from one on, at which the pass looks.
    fn piece_of(
        &self,
        rt: &impl Wait,
        class: u32,
        pass: &mut StorePass<N>,
        least: &MetricPath,
    ) -> Result<Vec<MetricPath>, AllocError>
        requires here { class < 16 }
        ensures piece { IfOk result (λ names. IsPieceOf N.start class
            (look_at class pass.new.looks).list least.now names.items) }
        ensures alone { LooksAlone class pass.old pass.new }
    {
        let mut guard = self.lock_class(rt, class);
        let desk = &mut *guard;
        desk.mark(pass);
        desk.names_from(least, PIECE)
    }

    // These names of a class, and those behind them that are copied at a time: so many more, or fewer at their end.
    fn with_piece(
        &self,
        rt: &impl Wait,
        alloc: Global,
        class: u32,
        pass: &mut StorePass<N>,
        names: Vec<MetricPath>,
    ) -> Result<Vec<MetricPath>, AllocError>
        requires here { class < 16 }
        requires names { KnowsOf N.start pass.old.looks class names.items }
        ensures names { IfOk result (λ more. KnowsOf N.start pass.new.looks class more.items) }
        ensures alone { LooksAlone class pass.old pass.new }
    {
        let mut names = names;
        let Some(last) = names.pop() else {
            let least = MetricPath::from_legal(alloc, LEAST_PATH)?;
            return self.piece_of(rt, class, pass, &least);
        };
        let mut more = self.piece_of(rt, class, pass, &last)?;
        names.append(&mut more)?;
        Ok(names)
    }

    // The names of a class, at which the pass looks. Its lock is given back behind each piece of them.
    fn names_in(
        &self,
        rt: &impl Wait,
        alloc: Global,
        class: u32,
        pass: &mut StorePass<N>,
    ) -> Result<Vec<MetricPath>, AllocError>
        requires here { class < 16 }
        ensures names { IfOk result (λ names. KnowsOf N.start pass.new.looks class names.items) }
        ensures alone { LooksAlone class pass.old pass.new }
    {
        let mut names = Vec::new(alloc);
        for _piece in 0..MOST_PIECES {
            let before = names.len();
            names = self.with_piece(rt, alloc, class, pass, names)?;
            if names.len() < before.saturating_add(PIECE - 1) {
                return Ok(names);
            }
        }
        Ok(names)
    }

    // The names of each class. One lock is held at a time, and the pass looks at the class.
    pub(crate) fn learn_names(
        &self,
        rt: &impl Wait,
        alloc: Global,
        pass: &mut StorePass<N>,
    ) -> Result<Vec<Vec<MetricPath>>, AllocError>
        ensures known { IfOk result
            (λ names. KnowsBy N.start pass.new.looks (lists_of names.items)) }
        ensures order { IfOk result (λ names. AreInOrder names.items) }
        ensures lists { IfOk result (λ names. length names.items ≡ 16) }
        ensures only { OnlyLooks pass.old pass.new }
    {
        let mut names = Vec::with_capacity(alloc, CLASSES as usize)?;
        for class in 0..CLASSES {
            names.push(self.names_in(rt, alloc, class, pass)?)?;
        }
        Ok(names)
    }

    /// The names of each class, where a look at all classes for these needs would be too much work for the time
    /// under their locks; else none. One lock is held at a time, and the pass looks at the class.
    pub(crate) fn names_for(
        &self,
        rt: &impl Wait,
        alloc: Global,
        pass: &mut StorePass<N>,
        needs: &[Need],
    ) -> Result<Vec<Vec<MetricPath>>, AllocError>
        ensures known { IfOk result
            (λ names. KnowsBy N.start pass.new.looks (lists_of names.items)) }
        ensures order { IfOk result (λ names. AreInOrder names.items) }
        ensures only { OnlyLooks pass.old pass.new }
    {
        if !self.is_wide(rt, needs)? {
            return Ok(Vec::new(alloc));
        }
        self.learn_names(rt, alloc, pass)
    }
}
