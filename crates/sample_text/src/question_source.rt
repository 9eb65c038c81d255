//! The question at the end of a sample.
ghost use Rattle.std.specs.Prelude.{◌≡◌, ◌≤◌, ◌<◌, length, Some};
ghost use Rattle.outside_io.specs.Faults.{Rose};
ghost use Rattle.outside_io.specs.Source.{ReadsSome, ReadTakes};
ghost use Rattle.sample_text.specs.Sample.{question_text};

use crate::copy::copy_front;
use outside_io::{ReadEnd, Source};
use std::marker::Model;

/// A source of a text that stands in the program. No read fails.
#[derive(Debug, Drop)]
pub struct QuestionSource {
    rest: &'static [u8],
}

impl Model for QuestionSource {
    ghost use Rattle.std.specs.Prelude.{ℕ, List};

    ghost Value = { List ℕ };

    ghost view = { λ source. source.rest.now };
}

/// The line of the question.
#[tactic(auto, unfolding(crate::specs::Sample::question_text))]
pub fn question() -> QuestionSource
    ensures { ⟦<QuestionSource as Source>⟧.left result ≡ Some question_text }
{
    QuestionSource {
        rest: b"!ask target=averageSeries(sample.*)&from=-10min&format=raw\n",
    }
}

impl Source for QuestionSource {
    ghost left = { λ source. Some source };

    ghost read_faults = { λ source. 0 };

    fn read_faults(&self) -> u64 {
        0
    }

    fn read(&mut self, buf: &mut [u8]) -> ReadEnd {
        let count = copy_front(self.rest, buf);
        if count == 0 {
            return ReadEnd::End;
        }
        self.rest = &self.rest[count..];
        ReadEnd::Got(count)
    }
}
