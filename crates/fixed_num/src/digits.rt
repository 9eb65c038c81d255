//! Texts of decimal digits, and the numbers that they write.

ghost use Rattle.std.specs.Prelude.{◌≡◌, ◌<◌, ◌≤◌, ◌-◌, ◌*◌, ◌^◌, ◌==◌, min, true, length, IfSome};
ghost use Rattle.std.specs.List.{list_all};
ghost use Rattle.std.specs.Char.{is_ascii_digit};
ghost use Rattle.std.specs.Str.Parse.{digits_value, digits_value_after};
ghost use Rattle.fixed_num.specs.Decimal.{is_numeral_up_to};
ghost use Rattle.fixed_num.specs.Whole.{number_of_digits, whole_number};

/// Whether each byte is a digit.
pub fn all_digits(text: &[u8]) -> bool
    ensures { result ≡ list_all is_ascii_digit text.now }
{
    text.iter().all(|b| b.is_ascii_digit())
}

/// Whether each byte is the digit zero.
pub(crate) fn all_zeros(text: &[u8]) -> bool
    ensures { result ≡ list_all (λ b. b == 48) text.now }
{
    text.iter().all(|b| *b == b'0')
}

/// Whether a text is at least one digit and at most `most`, and nothing else.
pub(crate) fn is_numeral(text: &[u8], most: usize) -> bool
    ensures { result ≡ is_numeral_up_to most text.now }
{
    !text.is_empty() && text.len() <= most && all_digits(text)
}

/// Reads a number of 1 to 19 digits: `None` exactly where the text is anything else.
pub fn read_whole(text: &[u8]) -> Option<u64>
    ensures { result ≡ whole_number text.now }
{
    if text.is_empty() || text.len() > 19 {
        return None;
    }
    // Most moments have ten digits, and a loop of a known length is the faster one.
    if text.len() == 10 {
        return few_digits(&text[..10]);
    }
    few_digits(text)
}

/// The number that at most 19 digits write, 0 where there are none: `None` exactly where a byte is
/// no digit.
pub(crate) fn few_digits(text: &[u8]) -> Option<u64>
    requires { length text.now ≤ 19 }
    ensures value { result ≡ number_of_digits text.now }
    ensures range { IfSome result (λ number. number < 10 ^ length text.now) }
{
    let mut number = 0;
    for b in text {
        if !b.is_ascii_digit() {
            return None;
        }
        number = number * 10 + u64::from(b - b'0');
    }
    Some(number)
}

/// The number that a few digits write.
pub(crate) fn number(digits: &[u8]) -> u64
    requires digits { list_all is_ascii_digit digits.now ≡ true }
    requires few { length digits.now ≤ 19 }
    ensures value { result ≡ digits_value 10 digits.now }
    ensures range { result < 10 ^ length digits.now }
{
    let mut number = 0;
    for digit in digits {
        number = number * 10 + u64::from(digit - b'0');
    }
    number
}

static POWERS_OF_TEN: [u64; 19] = [
    1,
    10,
    100,
    1_000,
    10_000,
    100_000,
    1_000_000,
    10_000_000,
    100_000_000,
    1_000_000_000,
    10_000_000_000,
    100_000_000_000,
    1_000_000_000_000,
    10_000_000_000_000,
    100_000_000_000_000,
    1_000_000_000_000_000,
    10_000_000_000_000_000,
    100_000_000_000_000_000,
    1_000_000_000_000_000_000,
];

/// A small power of ten.
pub(crate) fn power_of_ten(exponent: usize) -> u64
    requires { exponent ≤ 18 }
    ensures { result ≡ 10 ^ exponent }
{
    POWERS_OF_TEN[exponent]
}

/// The number that digits write, however many, or the greatest number where it is above.
pub fn capped_number(digits: &[u8]) -> u64
    requires digits { list_all is_ascii_digit digits.now ≡ true }
    ensures { result ≡ min (digits_value 10 digits.now) (2 ^ 64 - 1) }
{
    capped_number_after(0, digits).min(u128::from(u64::MAX)) as u64
}

/// The number that digits write behind those of `start`, or the greatest number where it is above.
pub(crate) fn capped_number_after(start: u128, digits: &[u8]) -> u128
    requires digits { list_all is_ascii_digit digits.now ≡ true }
    ensures { result ≡ min (digits_value_after 10 start digits.now) (2 ^ 128 - 1) }
{
    let mut number = start;
    for digit in digits {
        number = number
            .saturating_mul(10)
            .saturating_add(u128::from(digit - b'0'));
    }
    number
}

/// A number with zeros behind its digits, or the greatest number where that is above.
pub(crate) fn capped_tens(number: u128, zeros: usize) -> u128
    requires { zeros < 2 ^ 32 }
    ensures { result ≡ min (number * 10 ^ zeros) (2 ^ 128 - 1) }
{
    number.saturating_mul(10u128.saturating_pow(zeros as u32))
}
