// A request that comes over a link, and its reply.
use crate::pace::{ExchangeTimes, Pace};
use crate::question::Question;
use std::time::Duration;

// What the status line of a reply begins with where there was no memory for a question.
const UNAVAILABLE: &[u8] = b"HTTP/1.1 503 ";

#[derive(Clone, Copy)]
pub(crate) struct Exchange {
    pub(crate) pace: Pace,
    question: Question,
}

impl Exchange {
    pub(crate) fn new(times: ExchangeTimes) -> Self {
        Exchange {
            pace: Pace::new(times),
            question: Question::new(),
        }
    }

    // These bytes came at this moment.
    pub(crate) fn note_read(&mut self, piece: &[u8], now: Duration) {
        if !self.pace.is_reading() {
            self.question = Question::new();
        }
        self.pace.note_read(piece, now);
        self.question
            .note_read(piece, self.pace.bytes_behind_head());
    }

    // What is to be told where this piece, which is about to be written, is the reply that there was no memory. Such a
    // reply has no body, so no part of another one is taken for it.
    pub(crate) fn unanswered(&self, piece: &[u8]) -> Option<Unanswered<'_>> {
        if piece.starts_with(UNAVAILABLE) && piece.ends_with(b"\r\n\r\n") {
            return Some(Unanswered {
                question: &self.question,
                is_later: self.pace.is_replying(),
            });
        }
        None
    }
}

// A question for which there was no memory.
#[derive(Clone, Copy)]
pub(crate) struct Unanswered<'a> {
    // the request that came with it
    pub(crate) question: &'a Question,
    // whether it is a later one, since that one has its reply already
    pub(crate) is_later: bool,
}
