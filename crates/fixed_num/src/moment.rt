ghost use Rattle.std.specs.Prelude.{◌≡◌, true, IfSome};
ghost use Rattle.fixed_num.specs.Moment.{is_moment, legal_moment};

/// The first legal moment, in seconds since the Unix epoch: the beginning of 1971, so that no bucket of one is 0.
pub const LEAST_MOMENT: u32 = 31_536_000;

/// The last legal moment, in 2096.
pub const GREATEST_MOMENT: u32 = 4_000_000_000;

/// The number as a moment in seconds since the Unix epoch: `None` exactly where it is before the first legal moment or after
/// the last one.
pub fn legal_moment(number: u64) -> Option<u32>
    ensures moment { result ≡ legal_moment number }
    ensures legal { IfSome result (λ t. is_moment t ≡ true) }
{
    if number >= u64::from(LEAST_MOMENT) && number <= u64::from(GREATEST_MOMENT) {
        Some(number as u32)
    } else {
        None
    }
}
