//! Windows.
ghost use Rattle.std.specs.Prelude.{◌≡◌, ◌+◌, ◌<◌, ◌≤◌, ◌||◌, nat_lt, length};
ghost use Rattle.ring_format.specs.Head.{last_retention};
ghost use Rattle.ring_format.specs.Layout.{retention_of};
ghost use Rattle.series_fetch.specs.Window.{IsWindow, archive_reaching, bucket_after, end_after, range_of, window};

use ring_format::{Archive, Layout};

/// The buckets that a question is about.
#[derive(Clone, Copy, Debug, PartialEq, Eq)]
pub enum Window {
    /// None: the question is about the future, or about what is older than the longest retention.
    Empty,
    /// Buckets of an archive, by its place from 0 on: the first, and the end, which is not among them; in seconds
    /// since the Unix epoch, a step of the archive apart.
    Range(u32, u64, u64),
}

/// The buckets of a question from a moment until another, asked at `now`: those that begin after `from` and at or
/// before `until`, and at least one. All three are in seconds since the Unix epoch.
///
/// As in Graphite's Whisper nothing is shown of the future or of what is older than the longest retention, both
/// ends are brought into that retention, and the buckets are those of the finest archive that reaches back to the
/// start.
pub fn window_of(layout: &Layout, now: u64, from: u64, until: u64) -> Window
    requires order { from ≤ until }
    requires now { now ≤ 4_000_000_000 }
    ensures window { result ≡ window layout.now now from until }
    ensures sound { IsWindow layout.now result }
{
    let kept = last_retention(layout);
    if is_outside(kept, now, from, until) {
        return Window::Empty;
    }
    let start = from.max(now.saturating_sub(kept));
    let end = until.min(now);
    let Some(i) = archive_reaching(layout.archives(), now, start) else {
        return Window::Empty;
    };
    range_of(layout, i as u32, start, end)
}

/// For how many seconds the coarsest archive keeps values.
fn last_retention(layout: &Layout) -> u64
    ensures value { result ≡ last_retention layout.now.archives }
    ensures most { result ≤ 4_000_000_000 }
{
    u64::from(layout.retention(layout.archive_count() - 1))
}

/// Whether a question is about the future, or ended before the longest retention.
fn is_outside(kept: u64, now: u64, from: u64, until: u64) -> bool
    requires { now ≤ 4_000_000_000 }
    ensures { result ≡ (nat_lt now from || nat_lt (until + kept) now) }
{
    now < from || until.saturating_add(kept) < now
}

/// The first archive that reaches back to a moment.
fn archive_reaching(archives: &[Archive], now: u64, from: u64) -> Option<usize>
    ensures { result ≡ archive_reaching archives.now now from }
{
    archives.iter().position(|archive| now <= from.saturating_add(retention_of(archive)))
}

/// How many seconds an archive reaches back.
fn retention_of(archive: &Archive) -> u64
    ensures { result ≡ retention_of archive.now }
{
    u64::from(archive.step) * u64::from(archive.points)
}

/// The buckets of an archive from after a moment to another.
fn range_of(layout: &Layout, i: u32, from: u64, until: u64) -> Window
    requires archive { i < length layout.now.archives }
    requires order { from ≤ until }
    requires until { until ≤ 4_000_000_000 }
    ensures window { result ≡ range_of layout.now.archives from until i }
    ensures sound { IsWindow layout.now result }
{
    let step = u64::from(layout.archive(i).step);
    Window::Range(i, bucket_after(step, from), end_after(step, from, until))
}

/// The end of the buckets that begin after a moment and at or before another: there is at least one.
fn end_after(step: u64, from: u64, until: u64) -> u64
    requires some { 0 < step }
    requires short { step ≤ 31_536_000 }
    requires order { from ≤ until }
    requires until { until ≤ 4_000_000_000 }
    ensures { result ≡ end_after step from until }
{
    let first = bucket_after(step, from);
    let end = bucket_after(step, until);
    if first == end { first + step } else { end }
}

/// The first bucket that begins after a moment.
fn bucket_after(step: u64, time: u64) -> u64
    requires some { 0 < step }
    requires short { step ≤ 31_536_000 }
    requires time { time ≤ 4_000_000_000 }
    ensures value { result ≡ bucket_after step time }
    ensures near { result ≤ time + step }
{
    time - time % step + step
}
