//! The parameters of a query besides its targets.
ghost use Rattle.std.specs.Prelude.{◌≡◌, ◌≤◌, ◌<◌, IfOk, IfSome};
ghost use Rattle.render_plan.specs.Settled.{format_of, format_or_json, points_of, points_or_all, settled, time_or};

use crate::fault::QueryFault;
use crate::form::{Parameters, is_word};
use fixed_num::read_whole;
use target_parse::Word;
use time_range::read_time;

/// The seconds before now at which an answer begins where `from` is not given: those of a day.
const DEFAULT_SPAN: u64 = 86_400;

/// The form of an answer.
#[derive(Clone, Copy, Debug, PartialEq, Eq)]
pub enum Format {
    /// `json`, the default.
    Json,
    /// `raw`: one line a series, with its values alone.
    Raw,
    /// `csv`: one line a value.
    Csv,
}

/// What the parameters of a query besides its targets say.
#[derive(Clone, Copy)]
pub(crate) struct Settings {
    /// The first moment asked for, in seconds since the Unix epoch.
    pub(crate) from: u64,
    /// The last.
    pub(crate) until: u64,
    pub(crate) format: Format,
    /// The most values of a series, where there is such a number.
    pub(crate) points: Option<u64>,
}

/// What the parameters say at the moment `now`, or the first that is refused.
#[tactic(auto, unfolding(crate::specs::Settled::settled))]
pub(crate) fn settled(given: &Parameters, now: u64) -> Result<Settings, QueryFault>
    ensures value { result ≡ settled given.now now }
    ensures order { IfOk result (λ settings. settings.from ≤ settings.until) }
    ensures some { IfOk result (λ settings. IfSome settings.points (λ points. 1 ≤ points)) }
{
    let from = time_or(&given.from, now, now.saturating_sub(DEFAULT_SPAN))?;
    let until = time_or(&given.until, now, now)?;
    if from > until {
        return Err(QueryFault::BadRange);
    }
    let format = format_or_json(&given.format)?;
    let points = points_or_all(&given.points)?;
    Ok(Settings {
        from,
        until,
        format,
        points,
    })
}

// The moment that a text names, or the default where there is none.
#[tactic(auto, unfolding(crate::specs::Settled::time_or))]
fn time_or(text: &Option<Word>, now: u64, default: u64) -> Result<u64, QueryFault>
    ensures { result ≡ time_or text.now now default }
{
    let Some(text) = text else {
        return Ok(default);
    };
    match read_time(text.as_str(), now) {
        Ok(moment) => return Ok(moment),
        Err(_) => return Err(QueryFault::BadTime),
    }
}

#[tactic(auto, unfolding(crate::specs::Settled::format_or_json))]
fn format_or_json(text: &Option<Word>) -> Result<Format, QueryFault>
    ensures { result ≡ format_or_json text.now }
{
    let Some(text) = text else {
        return Ok(Format::Json);
    };
    match format_of(text.as_str().as_bytes()) {
        Some(format) => return Ok(format),
        None => return Err(QueryFault::BadFormat),
    }
}

#[tactic(auto, unfolding(crate::specs::Settled::format_of))]
fn format_of(text: &[u8]) -> Option<Format>
    ensures { result ≡ format_of text.now }
{
    if is_word(text, b"json") {
        return Some(Format::Json);
    }
    if is_word(text, b"raw") {
        return Some(Format::Raw);
    }
    if is_word(text, b"csv") {
        return Some(Format::Csv);
    }
    None
}

#[tactic(auto, unfolding(crate::specs::Settled::points_or_all))]
fn points_or_all(text: &Option<Word>) -> Result<Option<u64>, QueryFault>
    ensures value { result ≡ points_or_all text.now }
    ensures some { IfOk result (λ points. IfSome points (λ points. 1 ≤ points)) }
{
    let Some(text) = text else {
        return Ok(None);
    };
    match points_of(text.as_str().as_bytes()) {
        Some(points) => return Ok(Some(points)),
        None => return Err(QueryFault::BadPoints),
    }
}

// The number of one to nine digits that is at least 1.
#[tactic(auto, unfolding(crate::specs::Settled::points_of))]
fn points_of(text: &[u8]) -> Option<u64>
    ensures value { result ≡ points_of text.now }
    ensures some { IfSome result (λ points. 1 ≤ points) }
{
    if text.len() > 9 {
        return None;
    }
    let points = read_whole(text)?;
    if points == 0 {
        return None;
    }
    Some(points)
}
