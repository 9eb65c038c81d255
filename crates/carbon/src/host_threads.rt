//! What the system lets the process run at once.

use crate::unready::Unready;
use carbon_words::ServeOptions;
use std::sync::Arc;
use std::sync::atomic::{AtomicBool, Ordering};
use std::thread;
use std::thread::{JoinHandle, Threads};
use std::time::Duration;

/// The threads of a server beside one for each link and each drainer: one listens for the stop.
const THREADS: u64 = 1;

/// How often a thread that is tried looks whether it may end, and how long it pauses then.
const MOST_LOOKS: u64 = 60_000;

const LOOK_MILLIS: u64 = 1;

/// Refuses where the system gives the process fewer threads than a server with these links and drainers has. They are all made, wait for each other, and end.
pub(crate) fn want_threads<H: Threads>(
    threads: &H,
    rt: HostRuntime,
    options: &ServeOptions,
) -> Result<(), Unready> {
    let links = u64::from(options.receivers) + u64::from(options.renderers);
    let needed = THREADS + links + u64::from(options.drains.drainers);
    let may_end = Arc::new(rt.alloc(), AtomicBool::new(false))?;
    let made = made(threads, rt, needed, &may_end)?;
    // the thread that runs this is one of them
    let given = (made.len() as u64).saturating_add(1);
    may_end.store(true, Ordering::SeqCst);
    join_all(threads, made);
    if given < needed {
        return Err(Unready::FewThreads { needed, given });
    }
    Ok(())
}

fn made<H: Threads>(
    threads: &H,
    rt: HostRuntime,
    needed: u64,
    may_end: &Arc<AtomicBool>,
) -> Result<Vec<JoinHandle<()>>, Unready> {
    let mut made = Vec::new(rt.alloc());
    for _ in 1..needed {
        let may_end = Arc::try_clone(may_end)?;
        match thread::spawn(threads, move || wait_for_end(rt, &may_end)) {
            Ok(handle) => made.push(handle)?,
            Err(_) => break,
        }
    }
    Ok(made)
}

fn wait_for_end(rt: HostRuntime, may_end: &AtomicBool) {
    for _ in 0..MOST_LOOKS {
        if may_end.load(Ordering::SeqCst) {
            break;
        }
        thread::sleep(&rt, Duration::from_millis(LOOK_MILLIS));
    }
}

fn join_all<H: Threads>(threads: &H, made: Vec<JoinHandle<()>>) {
    for handle in made {
        handle.join(threads);
    }
}
