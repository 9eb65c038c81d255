//! The units of time.

ghost use Rattle.std.specs.Prelude.{◌≡◌, ◌≤◌, IfSome};
ghost use Rattle.std.specs.Str.{bytes_eq};
ghost use Rattle.time_range.specs.TimeUnits.{is_day, is_hour, is_minute, is_month, is_second, is_week, is_year, unit_seconds};

/// The seconds of a unit. A month has 30 days, and a year 365; `m` is no unit.
#[tactic(auto, unfolding(crate::specs::TimeUnits::unit_seconds))]
pub(crate) fn unit_seconds(unit: &[u8]) -> Option<u64>
    ensures value { result ≡ unit_seconds unit.now }
    ensures most { IfSome result (λ seconds. seconds ≤ 31536000) }
{
    if is_second(unit) {
        return Some(1);
    }
    if is_minute(unit) {
        return Some(60);
    }
    if is_hour(unit) {
        return Some(3_600);
    }
    if is_day(unit) {
        return Some(86_400);
    }
    if is_week(unit) {
        return Some(604_800);
    }
    if is_month(unit) {
        return Some(2_592_000);
    }
    if is_year(unit) {
        return Some(31_536_000);
    }
    None
}

#[tactic(auto, unfolding(crate::specs::TimeUnits::is_second))]
fn is_second(unit: &[u8]) -> bool
    ensures { result ≡ is_second unit.now }
{
    is(unit, b"s") || is(unit, b"sec") || is(unit, b"second") || is(unit, b"seconds")
}

#[tactic(auto, unfolding(crate::specs::TimeUnits::is_minute))]
fn is_minute(unit: &[u8]) -> bool
    ensures { result ≡ is_minute unit.now }
{
    is(unit, b"min") || is(unit, b"minute") || is(unit, b"minutes")
}

#[tactic(auto, unfolding(crate::specs::TimeUnits::is_hour))]
fn is_hour(unit: &[u8]) -> bool
    ensures { result ≡ is_hour unit.now }
{
    is(unit, b"h") || is(unit, b"hour") || is(unit, b"hours")
}

#[tactic(auto, unfolding(crate::specs::TimeUnits::is_day))]
fn is_day(unit: &[u8]) -> bool
    ensures { result ≡ is_day unit.now }
{
    is(unit, b"d") || is(unit, b"day") || is(unit, b"days")
}

#[tactic(auto, unfolding(crate::specs::TimeUnits::is_week))]
fn is_week(unit: &[u8]) -> bool
    ensures { result ≡ is_week unit.now }
{
    is(unit, b"w") || is(unit, b"week") || is(unit, b"weeks")
}

#[tactic(auto, unfolding(crate::specs::TimeUnits::is_month))]
fn is_month(unit: &[u8]) -> bool
    ensures { result ≡ is_month unit.now }
{
    is(unit, b"mon") || is(unit, b"month") || is(unit, b"months")
}

#[tactic(auto, unfolding(crate::specs::TimeUnits::is_year))]
fn is_year(unit: &[u8]) -> bool
    ensures { result ≡ is_year unit.now }
{
    is(unit, b"y") || is(unit, b"year") || is(unit, b"years")
}

fn is(unit: &[u8], name: &[u8]) -> bool
    ensures { result ≡ bytes_eq unit.now name.now }
{
    unit == name
}
