// How long a link waits for its other end.
use crate::pace::{Allowance, Credit, ExchangeTimes};
use std::time::Duration;

const SILENCE_SECONDS: u64 = 75;

// How fast bodies come at least, and replies are taken.
const BYTES_A_SECOND: u64 = 1_024;

// How often a link that brings no request looks whether its thread is wanted for another connection.
#[derive(Clone, Copy)]
pub(crate) struct IdleLooks {
    // before its first request, and behind a reply
    pub(crate) first: Duration,
    pub(crate) next: Duration,
}

#[derive(Clone, Copy)]
pub(crate) struct Patience {
    // for the next bytes; none is for ever
    pub(crate) for_bytes: Option<Duration>,
    // for room for more bytes
    pub(crate) for_room: Duration,
    // for whole requests and replies, where the link brings such
    pub(crate) for_exchange: Option<ExchangeTimes>,
    // where it ends for the sake of another one
    pub(crate) idle: Option<IdleLooks>,
}

impl Patience {
    // For a link of lines that may be silent for so many seconds; 0 is for ever.
    pub(crate) fn for_lines(seconds: u32) -> Self {
        let for_bytes = match seconds {
            0 => None,
            _ => Some(Duration::from_secs(u64::from(seconds))),
        };
        Patience {
            for_bytes,
            for_room: Duration::from_secs(SILENCE_SECONDS),
            for_exchange: None,
            idle: None,
        }
    }

    pub(crate) fn for_http() -> Self {
        Patience {
            for_bytes: Some(Duration::from_secs(SILENCE_SECONDS)),
            for_room: Duration::from_secs(SILENCE_SECONDS),
            for_exchange: Some(ExchangeTimes {
                head: Duration::from_secs(20),
                body: Allowance {
                    at_once: Duration::from_secs(60),
                    bytes_a_second: BYTES_A_SECOND,
                },
                reply: Credit {
                    at_first: Duration::from_secs(20),
                    most: Duration::from_secs(SILENCE_SECONDS),
                    bytes_a_second: BYTES_A_SECOND,
                },
            }),
            idle: Some(IdleLooks {
                first: Duration::from_millis(250),
                next: Duration::from_secs(1),
            }),
        }
    }
}
