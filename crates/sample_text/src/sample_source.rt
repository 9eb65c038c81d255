//! The lines of a sample before its question.
ghost use Rattle.std.specs.Prelude.{◌≡◌, ◌≤◌, ◌<◌, ◌++◌, [], length, take, Some};
ghost use Rattle.outside_io.specs.Faults.{Rose};
ghost use Rattle.outside_io.specs.Source.{ReadsSome, ReadTakes};
ghost use Rattle.sample_text.specs.Sample.{next_seed, sample_front};
ghost use Rattle.sample_text.specs.Sources.{left_of};

use crate::copy::copy_front;
use crate::lines::Lines;
use outside_io::{ReadEnd, Source};
use std::marker::Model;

/// A source of all lines of a sample that stand before its question, each of which is made once it is read. No read fails.
#[derive(Drop)]
pub struct SampleSource {
    lines: Lines,
    at: usize,
    seed: u64,
    number: u32,
    todo: u32,
}

impl Model for SampleSource {
    ghost use Rattle.std.specs.Prelude.{◌+◌, ◌^◌, ◌<◌, ◌≤◌, length, drop};
    ghost use Rattle.sample_text.specs.Sources.{SampleState};

    ghost Value = { SampleState };

    ghost view = { λ source. record {
      rest = drop source.at source.lines;
      seed = source.seed;
      number = source.number;
      todo = source.todo;
    } };

    ghost invariant = { λ source. (source.at ≤ length source.lines)
        × (source.number + source.todo < 2 ^ 32) };
}

impl SampleSource {
    /// The lines from this start of the generator, with so many metric lines.
    pub fn new(start: u64, count: u32) -> SampleSource
        ensures { ⟦<SampleSource as Source>⟧.left result ≡ Some (sample_front start count) }
    {
        SampleSource {
            lines: Lines::none(),
            at: 0,
            seed: start,
            number: 0,
            todo: count,
        }
    }

    // Makes the lines that come next.
    #[tactic(auto, using(crate::proofs::SampleLemmas::one_more))]
    fn make_lines(&mut self)
        requires none { self.old.rest ≡ [] }
        requires more { 0 < self.old.todo }
        ensures same { left_of self.new ≡ left_of self.old }
        ensures some { 0 < length self.new.rest }
    {
        self.seed = next_seed(self.seed);
        self.lines = Lines::of(self.seed, self.number);
        self.at = 0;
        self.number += 1;
        self.todo -= 1;
    }

    // Gives the front of the lines that were made last.
    fn give(&mut self, buf: &mut [u8]) -> usize
        requires some { 0 < length self.old.rest }
        requires room { 0 < length buf.old }
        ensures count { (0 < result) × (result ≤ length buf.new) }
        ensures given { left_of self.old ≡ take result buf.new ++ left_of self.new }
    {
        let count = copy_front(&self.lines.text()[self.at..], buf);
        self.at += count;
        count
    }
}

impl Source for SampleSource {
    ghost left = { λ source. Some (left_of source) };

    ghost read_faults = { λ source. 0 };

    fn read_faults(&self) -> u64 {
        0
    }

    fn read(&mut self, buf: &mut [u8]) -> ReadEnd {
        if self.at == self.lines.text().len() {
            if self.todo == 0 {
                return ReadEnd::End;
            }
            self.make_lines();
        }
        ReadEnd::Got(self.give(buf))
    }
}

// Where the generator stands after one more step.
fn next_seed(seed: u64) -> u64
    ensures { result ≡ next_seed seed }
{
    let wide = u128::from(seed) * 6_364_136_223_846_793_005 + 1_442_695_040_888_963_407;
    (wide % (1 << 64)) as u64
}
