//! Starting the shards of all classes, and handing their disks back.
ghost use Rattle.std.specs.Prelude.{◌≡◌, ◌≤◌, ◌<◌, ◌+◌, ◌++◌, IfErr, IfOk, OnOk, map, vec_len, vec_capacity};
ghost use Rattle.shard_core.specs.StartFaults.{NotStarted};
ghost use Rattle.shard_core.specs.Started.{StartedFrom};
ghost use Rattle.shard_set.specs.Opening.{AreStarted, HandsBack, RefusesAll, RefusesNext, StartsAll, StartsNext, settings_of};

use crate::refused::{Refusal, Refused};
use crate::setup::Setup;
use crate::started::Started;
use metric_path::CLASSES;
use outside_io::Disk;
use shard_core::{Shard, StartFault};
use std::alloc::Global;

/// The shards of all classes, each over the disk of its place, so set up and with nothing pending.
/// The first class that is refused ends the start, and the refusal hands all disks back.
pub fn start_all<D: Disk>(
    alloc: Global,
    disks: Vec<D>,
    setup: &Setup,
) -> Result<Started<D>, Refused<D>>
    requires { vec_len disks ≡ 16 }
    ensures starts { IfOk result
        (λ started. StartsAll (settings_of setup.now) setup.now.redo disks.items
        started.shards.items) }
    ensures refused { IfErr result
        (λ refused. RefusesAll D.Disk disks.items refused.disks.items refused.refusal) }
{
    match Vec::with_capacity(alloc, CLASSES as usize) {
        Ok(shards) => start_each(alloc, shards, disks, setup),
        Err(_) => Err(Refused {
            disks,
            refusal: Refusal {
                class: 0,
                fault: StartFault::NoMemory,
            },
        }),
    }
}

/// The disks of the shards, in order, in an empty list that has room for them. It needs no memory.
pub fn hand_back<D: Disk>(shards: Vec<Shard<D>>, room: Vec<D>) -> Vec<D>
    requires empty { vec_len room ≡ 0 }
    requires room { vec_len shards ≤ vec_capacity room }
    ensures { result.items ≡ map (λ shard. shard.files.disk) shards.items }
{
    put_before(shards, room)
}

// Starts a shard from each disk, in a list that has room for them all.
fn start_each<D: Disk>(
    alloc: Global,
    shards: Vec<Shard<D>>,
    disks: Vec<D>,
    setup: &Setup,
) -> Result<Started<D>, Refused<D>>
    requires none { vec_len shards ≡ 0 }
    requires room { 16 ≤ vec_capacity shards }
    requires all { vec_len disks ≡ 16 }
    ensures starts { IfOk result
        (λ started. AreStarted (settings_of setup.now) setup.now.redo disks.items
        started.shards.items) }
    ensures refused { IfErr result
        (λ refused. HandsBack D.Disk disks.items refused.disks.items refused.refusal) }
    ensures class { IfErr result (λ refused. refused.refusal.class < 16) }
{
    let mut shards = shards;
    let mut disks = disks;
    for class in 0..CLASSES {
        match start_next(alloc, &mut shards, &mut disks, setup) {
            Ok(()) => {}
            Err(fault) => {
                return Err(Refused {
                    disks: put_before(shards, disks),
                    refusal: Refusal { class, fault },
                });
            }
        }
    }
    Ok(Started {
        shards,
        room: disks,
    })
}

// Starts the next shard from the first of the disks. A refusal puts the disk back.
fn start_next<D: Disk>(
    alloc: Global,
    shards: &mut Vec<Shard<D>>,
    disks: &mut Vec<D>,
    setup: &Setup,
) -> Result<(), StartFault>
    requires class { vec_len shards.old < 16 }
    requires room { 16 ≤ vec_capacity shards.old }
    requires next { 0 < vec_len disks.old }
    ensures starts { OnOk result
        (StartsNext (settings_of setup.now) setup.now.redo disks.old.items shards.old.items
        shards.new.items disks.new.items) }
    ensures refused { IfErr result
        (λ fault. RefusesNext fault disks.old.items shards.old.items shards.new.items
        disks.new.items) }
    ensures room { vec_capacity shards.old ≤ vec_capacity shards.new }
    ensures disk_room { vec_capacity disks.old ≤ vec_capacity disks.new }
{
    let disk = disks.remove(0);
    match start_one(alloc, shards.len() as u32, disk, setup) {
        Ok(shard) => match shards.push(shard) {
            Ok(()) => Ok(()),
            Err(_) => unreachable!(),
        },
        Err((disk, fault)) => match disks.insert(0, disk) {
            Ok(()) => Err(fault),
            Err(_) => unreachable!(),
        },
    }
}

// Starts the shard of a class, which shares the rules with the others.
fn start_one<D: Disk>(
    alloc: Global,
    class: u32,
    disk: D,
    setup: &Setup,
) -> Result<Shard<D>, (D, StartFault)>
    requires { class < 16 }
    ensures started { IfOk result
        (StartedFrom class (settings_of setup.now) setup.now.redo disk) }
    ensures refused { IfErr result (λ refusal. NotStarted D.Disk class disk refusal.0 refusal.1) }
{
    match setup.rules.share() {
        Ok(rules) => Shard::start(
            alloc,
            class,
            disk,
            rules,
            setup.limit,
            setup.strategy,
            setup.redo,
        ),
        Err(_) => Err((disk, StartFault::NoMemory)),
    }
}

// Puts the disks of the shards before the others, in a list that has room for all.
fn put_before<D: Disk>(shards: Vec<Shard<D>>, disks: Vec<D>) -> Vec<D>
    requires { vec_len shards + vec_len disks ≤ vec_capacity disks }
    ensures { result.items ≡ map (λ shard. shard.files.disk) shards.items ++ disks.items }
{
    let mut shards = shards;
    let mut disks = disks;
    while let Some(shard) = shards.pop() {
        match disks.insert(0, shard.finish()) {
            Ok(()) => {}
            Err(_) => unreachable!(),
        }
    }
    shards.destroy_empty();
    disks
}
