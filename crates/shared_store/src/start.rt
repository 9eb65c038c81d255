//! The start of a store.
ghost use Rattle.std.specs.Prelude.{◌≡◌, ◌≤◌, ◌<◌, IfOk, vec_capacity, vec_len};
ghost use Rattle.shared_history.specs.Parts.{IsNewOrder};
ghost use Rattle.shared_store.specs.Starts.{AreFreshClasses, IsFresh, IsFreshClass};

use crate::class_desk::ClassDesk;
use crate::class_files::ClassFiles;
use crate::named::Named;
use crate::order_desk::OrderDesk;
use crate::room::Room;
use crate::store::Store;
use crate::tally::Tally;
use class_halves::{Halves, Pair};
use metric_path::CLASSES;
use outside_io::Disk;
use shard_core::{Apart, Shard};
use shared_history::{Order, Tail};
use std::alloc::{AllocError, Global};
use std::marker::PhantomData;
use std::sync::Mutex;

/// What a store starts from: a new history, and the tail, the halves and the shard of each class.
#[derive(Drop)]
pub struct Parts<D: Disk> {
    /// The history.
    pub order: Order,
    /// The tails of the classes, in order.
    pub tails: Vec<Tail>,
    /// What the two locks of each class agree on, in order.
    pub pairs: Vec<Pair>,
    /// The shards of the classes, in order.
    pub shards: Vec<Shard<D>>,
}

/// What the two locks of each class agree on, for the classes in order.
pub fn make_pairs(alloc: Global) -> Result<Vec<Pair>, AllocError>
    ensures { IfOk result (λ pairs. vec_len pairs ≡ 16) }
{
    let mut pairs = Vec::with_capacity(alloc, CLASSES as usize)?;
    for _class in 0..CLASSES {
        pairs.push(Pair::new(alloc)?)?;
    }
    Ok(pairs)
}

// Room for the locks, and for what a close hands out.
#[derive(Drop)]
struct Places<D: Disk, N: Named> {
    locks: Locks<D, N>,
    room: Room<D>,
}

// The locks of the desks and of the files of the classes.
#[derive(Drop)]
struct Locks<D: Disk, N: Named> {
    desks: Vec<Mutex<ClassDesk<N>>>,
    files: Vec<Mutex<ClassFiles<D, N>>>,
    ghost one: { vec_len files ≡ vec_len desks },
    ghost desk_room: { 16 ≤ vec_capacity desks },
    ghost files_room: { 16 ≤ vec_capacity files },
}

fn take_places<D: Disk + Drop, N: Named>(alloc: Global) -> Result<Places<D, N>, AllocError>
    ensures { IfOk result (λ places. vec_len places.locks.desks ≡ 0) }
{
    Ok(Places {
        locks: Locks {
            desks: Vec::with_capacity(alloc, CLASSES as usize)?,
            files: Vec::with_capacity(alloc, CLASSES as usize)?,
        },
        room: Room::take(alloc)?,
    })
}

// What stands behind the locks of a class that has nothing yet.
#[derive(Drop)]
struct NewClass<D: Disk, N: Named> {
    desk: ClassDesk<N>,
    files: ClassFiles<D, N>,
}

#[tactic(auto, using(crate::proofs::StartLemmas::files_of_class))]
fn open_class<D: Disk, N: Named>(tail: Tail, pair: Pair, shard: Shard<D>) -> NewClass<D, N>
    requires { IsFreshClass N.table N.halves N.told N.start N.faults tail pair shard }
    ensures desk { result.desk.class ≡ tail.class }
    ensures files { result.files.class ≡ tail.class }
{
    let Halves {
        desk: desk_half,
        files: files_half,
    } = pair.apart();
    let Apart { desk, files } = shard.apart();
    NewClass {
        desk: ClassDesk {
            desk,
            tail,
            half: desk_half,
            of: PhantomData,
        },
        files: ClassFiles {
            files,
            half: files_half,
            of: PhantomData,
        },
    }
}

impl<D: Disk, N: Named> Locks<D, N> {
    ghost use Rattle.std.specs.Prelude.{◌≡◌, ◌+◌, ◌<◌, vec_len};

    // The locks of one class more, which have room, at the place of the class.
    fn put(&mut self, class: NewClass<D, N>)
        requires room { vec_len self.old.desks < 16 }
        requires place { (class.desk.class ≡ vec_len self.old.desks)
            × (class.files.class ≡ vec_len self.old.desks) }
        ensures { vec_len self.new.desks ≡ vec_len self.old.desks + 1 }
    {
        let NewClass { desk, files } = class;
        match self.desks.push(Mutex::new(desk)) {
            Ok(()) => {}
            Err(_) => unreachable!(),
        }
        match self.files.push(Mutex::new(files)) {
            Ok(()) => {}
            Err(_) => unreachable!(),
        }
    }
}

// The locks of all classes, each at the place of its class: there a lock is looked for.
fn open_classes<D: Disk + Drop, N: Named>(
    locks: Locks<D, N>,
    tails: Vec<Tail>,
    pairs: Vec<Pair>,
    shards: Vec<Shard<D>>,
) -> Locks<D, N>
    requires none { vec_len locks.desks ≡ 0 }
    requires fresh { AreFreshClasses N.table N.halves N.told N.start N.faults 16
        tails.items pairs.items shards.items }
    ensures { vec_len result.desks ≡ 16 }
{
    let mut locks = locks;
    let mut tails = tails;
    let mut pairs = pairs;
    let mut shards = shards;
    tails.reverse();
    pairs.reverse();
    shards.reverse();
    for _class in 0..CLASSES {
        let Some(tail) = tails.pop() else {
            unreachable!()
        };
        let Some(pair) = pairs.pop() else {
            unreachable!()
        };
        let Some(shard) = shards.pop() else {
            unreachable!()
        };
        locks.put(open_class(tail, pair, shard));
    }
    locks
}

fn open_order<N: Named>(order: Order) -> Mutex<OrderDesk<N>>
    requires same { order.table ≡ N.table }
    requires new { IsNewOrder N.passes 16 order }
{
    Mutex::new(OrderDesk {
        order,
        tally: Tally::new(),
        of: PhantomData,
    })
}

#[tactic(auto, using(crate::proofs::StartLemmas::classes_of))]
fn open<D: Disk + Drop, N: Named>(places: Places<D, N>, parts: Parts<D>) -> Store<D, N>
    requires places { vec_len places.locks.desks ≡ 0 }
    requires parts { IsFresh N.table N.passes N.halves N.told N.start N.faults parts }
{
    let Places { locks, room } = places;
    let Parts {
        order,
        tails,
        pairs,
        shards,
    } = parts;
    let Locks { desks, files } = open_classes(locks, tails, pairs, shards);
    Store {
        order: open_order(order),
        desks,
        files,
        room: Mutex::new(room),
    }
}

impl<D: Disk + Drop, N: Named> Store<D, N> {
    ghost use Rattle.std.specs.Prelude.{◌≡◌, IfErr};
    ghost use Rattle.shared_store.specs.Starts.{IsFresh};

    /// The store over a new history and fresh shards. The refusal is want of memory, and hands the
    /// parts back. The room for what `close` hands out is taken here too.
    pub fn start(alloc: Global, parts: Parts<D>) -> Result<Store<D, N>, Parts<D>>
        requires { IsFresh N.table N.passes N.halves N.told N.start N.faults parts }
        ensures refused { IfErr result (λ back. back ≡ parts) }
    {
        match take_places(alloc) {
            Ok(places) => Ok(open(places, parts)),
            Err(_) => Err(parts),
        }
    }
}
