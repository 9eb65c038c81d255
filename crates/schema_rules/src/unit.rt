//! Numbers with units of time.
ghost use Rattle.std.specs.Prelude.{◌≡◌, ◌≤◌, ◌<◌, min, nat_eq, true, IfSome, length, option_map, position};
ghost use Rattle.std.specs.List.{list_all, position_or_len, starts_with};
ghost use Rattle.std.specs.Char.{is_ascii_digit};
ghost use Rattle.std.specs.Str.Parse.{digits_value};
ghost use Rattle.schema_rules.specs.Retentions.{digits_of, is_no_digit, number_of, points_of, seconds_of, step_of, unit_of, unit_seconds, within_most};

// The greatest number, and the most seconds.
const MOST_SECONDS: u64 = 4_000_000_000;

/// The seconds of a step, at least one.
#[tactic(auto, unfolding(crate::specs::Retentions::step_of))]
pub(crate) fn step_of(text: &[u8]) -> Option<u32>
    ensures value { result ≡ step_of text.now }
    ensures some { IfSome result (λ step. 0 < step) }
{
    let step = seconds_of(text)?;
    if step == 0 {
        return None;
    }
    Some(step)
}

/// How many points a history has.
#[tactic(auto, unfolding(crate::specs::Retentions::points_of))]
pub(crate) fn points_of(step: u32, text: &[u8]) -> Option<u32>
    requires { 0 < step }
    ensures { result ≡ points_of step text.now }
{
    let (digits, unit) = text.split_at(digit_count(text));
    if unit.is_empty() {
        return number_of(digits);
    }
    let seconds = seconds_of(text)?;
    Some(seconds / step)
}

// The seconds of a number with a unit.
#[tactic(auto, unfolding(crate::specs::Retentions::seconds_of))]
fn seconds_of(text: &[u8]) -> Option<u32>
    ensures { result ≡ seconds_of text.now }
{
    let (digits, unit) = text.split_at(digit_count(text));
    let number = number_of(digits)?;
    let unit = unit_seconds(unit)?;
    within_most(u64::from(number) * u64::from(unit))
}

fn within_most(seconds: u64) -> Option<u32>
    ensures { result ≡ within_most seconds }
{
    if seconds <= MOST_SECONDS {
        return Some(seconds as u32);
    }
    None
}

// How many digits stand at the front of a text.
fn digit_count(text: &[u8]) -> usize
    ensures count { result ≡ position_or_len is_no_digit text.now }
    ensures within { result ≤ length text.now }
    ensures digits { list_all is_ascii_digit (digits_of text.now) ≡ true }
{
    no_digit_in(text).unwrap_or(text.len())
}

fn no_digit_in(text: &[u8]) -> Option<usize>
    ensures { result ≡ position is_no_digit text.now }
{
    text.iter().position(|b| !b.is_ascii_digit())
}

// The number that digits write.
#[tactic(auto, unfolding(crate::specs::Retentions::number_of))]
fn number_of(digits: &[u8]) -> Option<u32>
    requires { list_all is_ascii_digit digits.now ≡ true }
    ensures { result ≡ number_of digits.now }
{
    if digits.is_empty() {
        return None;
    }
    within_most(capped_number(digits))
}

// The number that digits write, or one above the greatest where it is more.
fn capped_number(digits: &[u8]) -> u64
    requires { list_all is_ascii_digit digits.now ≡ true }
    ensures { result ≡ min (digits_value 10 digits.now) 4000000001 }
{
    let mut number = 0;
    for digit in digits {
        number = (number * 10 + u64::from(digit - b'0')).min(MOST_SECONDS + 1);
    }
    number
}

// The seconds of a unit.
#[tactic(auto, unfolding(crate::specs::Retentions::unit_seconds))]
fn unit_seconds(unit: &[u8]) -> Option<u32>
    ensures value { result ≡ unit_seconds unit.now }
{
    if is_front_of(b"seconds", unit) {
        return Some(1);
    }
    if is_front_of(b"minutes", unit) {
        return Some(60);
    }
    if is_front_of(b"hours", unit) {
        return Some(3_600);
    }
    if is_front_of(b"days", unit) {
        return Some(86_400);
    }
    if is_front_of(b"weeks", unit) {
        return Some(604_800);
    }
    if is_front_of(b"years", unit) {
        return Some(31_536_000);
    }
    None
}

// Whether a unit is a front of a word.
fn is_front_of(word: &[u8], unit: &[u8]) -> bool
    ensures { result ≡ starts_with nat_eq word.now unit.now }
{
    word.starts_with(unit)
}
