//! What is entered after a call of a shard.
ghost use Rattle.std.specs.Prelude.{◌≡◌, ℕ, None, option_map};
ghost use Rattle.metric_path.specs.Path.{path_fault};
ghost use Rattle.carbon_history.specs.declared.entry.Entry.TheVariants as entry;
ghost use Rattle.shared_history.specs.Events.{entry_of};
ghost use Rattle.shared_store.specs.Steps.{plan_entry, put_entry, write_entry};
ghost use Rattle.shared_store.specs.Tails.{IsLegalTook};

use carbon_history::PutEnd;
use metric_line::Datum;
use metric_path::MetricPath;
use point_cache::Put;
use shard_core::{Planned, Wrote};
use shared_history::Event;

/// What is entered after a put.
pub(crate) fn put_event(put: Put, datum: &Datum) -> Option<Event<'_>>
    ensures { (pass class : ℕ) → option_map (entry_of pass class) result
        ≡ put_entry pass datum.now.path datum.now.time datum.now.value put }
{
    match put {
        Put::Stored => Some(point_event(datum, PutEnd::Stored)),
        Put::Replaced => Some(point_event(datum, PutEnd::Replaced)),
        Put::Full => Some(point_event(datum, PutEnd::Full)),
        Put::NoMemory => None,
    }
}

fn point_event(datum: &Datum, end: PutEnd) -> Event<'_>
    ensures { (pass class : ℕ) → entry_of pass class result
        ≡ entry.Put pass datum.now.path datum.now.time datum.now.value end }
{
    Event::Put(&datum.path, datum.time, datum.value, end)
}

/// What is entered after a plan.
pub(crate) fn plan_event(planned: &Planned, now: u32) -> Option<Event<'_>>
    ensures event { (pass class : ℕ) → option_map (entry_of pass class) result
        ≡ plan_entry pass class now planned.now }
    ensures legal { IsLegalTook planned.now }
{
    match planned {
        Planned::Took(path) => Some(drain_event(path, now)),
        Planned::DiskFault => Some(Event::Fault),
        Planned::Busy | Planned::Idle | Planned::NoMemory => None,
    }
}

fn drain_event(path: &MetricPath, now: u32) -> Event<'_>
    ensures event { (pass class : ℕ) → entry_of pass class result ≡ entry.Drain pass path.now now }
    ensures legal { path_fault path.now ≡ None }
{
    // Every path is legal.
    let _ = path.text();
    Event::Drain(path, u64::from(now))
}

/// What is entered after the write of a run.
pub(crate) fn write_event(wrote: Wrote) -> Option<Event<'static>>
    ensures { (pass class : ℕ) → option_map (entry_of pass class) result
        ≡ write_entry pass class wrote }
{
    match wrote {
        Wrote::DiskFault => Some(Event::Fault),
        Wrote::Run | Wrote::Finished | Wrote::Nothing => None,
    }
}
