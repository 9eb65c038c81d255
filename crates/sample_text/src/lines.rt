// The text of a metric line with what stands about it.
ghost use Rattle.std.specs.Prelude.{◌≡◌, ◌+◌, ◌≤◌, ◌<◌, ◌++◌, length, decimal};
ghost use Rattle.fixed_num.specs.Print.{milli_text};
ghost use Rattle.sample_text.specs.Sample.{clock_text, clock_word, drain_line, drain_text, drawn, lines_text, metric_at, metric_text, metric_word, time_at, value_at};

use fixed_num::{MILLI_TEXT, Milli, milli_of, print_milli};
use itoa::Buffer;
use std::marker::Model;

// How many bytes the text may have.
const MOST_BYTES: usize = 128;

// The text, which takes no memory.
#[derive(Drop)]
pub(crate) struct Lines {
    bytes: [u8; MOST_BYTES],
    len: usize,
}

impl Model for Lines {
    ghost use Rattle.std.specs.Prelude.{◌≤◌, ℕ, List, take};

    ghost Value = { List ℕ };

    ghost view = { λ lines. take lines.len lines.bytes };

    ghost invariant = { λ lines. lines.len ≤ 128 };
}

impl Lines {
    ghost use Rattle.std.specs.Prelude.{[]};

    // No text.
    pub(crate) fn none() -> Lines
        ensures { result ≡ [] }
    {
        Lines {
            bytes: [0; MOST_BYTES],
            len: 0,
        }
    }

    // The lines of this number, of what the generator shows.
    #[tactic(auto, unfolding(crate::specs::Sample::lines_text))]
    pub(crate) fn of(seed: u64, number: u32) -> Lines
        ensures text { result ≡ lines_text seed number }
        ensures some { 0 < length result }
    {
        let mut lines = Lines::none();
        lines.push_clock(number);
        lines.push_metric(seed, number);
        lines.push_drain(number);
        lines
    }

    pub(crate) fn text(&self) -> &[u8]
        ensures { result.now ≡ self.now }
    {
        &self.bytes[..self.len]
    }

    fn push(&mut self, piece: &[u8])
        requires { length self.old + length piece.now ≤ 128 }
        ensures text { self.new ≡ self.old ++ piece.now }
        ensures size { length self.new ≡ length self.old + length piece.now }
    {
        let end = self.len + piece.len();
        self.bytes[self.len..end].copy_from_slice(piece);
        self.len = end;
    }

    fn push_number(&mut self, number: u64)
        requires { length self.old + 20 ≤ 128 }
        ensures text { self.new ≡ self.old ++ decimal number }
        ensures size { length self.new ≤ length self.old + 20 }
    {
        let mut buffer = Buffer::new();
        self.push(buffer.format(number).as_bytes());
    }

    fn push_value(&mut self, value: Milli)
        requires { length self.old + 40 ≤ 128 }
        ensures text { self.new ≡ self.old ++ milli_text value }
        ensures size { length self.new ≤ length self.old + 40 }
    {
        let mut text = [0; MILLI_TEXT];
        let length = print_milli(value, &mut text);
        self.push(&text[..length]);
    }

    #[tactic(auto, unfolding(crate::specs::Sample::clock_word))]
    fn push_clock_word(&mut self)
        requires { length self.old ≤ 100 }
        ensures text { self.new ≡ self.old ++ clock_word }
        ensures size { length self.new ≡ length self.old + 7 }
    {
        self.push(b"!clock ");
    }

    #[tactic(auto, unfolding(crate::specs::Sample::metric_word))]
    fn push_metric_word(&mut self)
        requires { length self.old ≤ 100 }
        ensures text { self.new ≡ self.old ++ metric_word }
        ensures size { length self.new ≡ length self.old + 8 }
    {
        self.push(b"sample.m");
    }

    #[tactic(auto, unfolding(crate::specs::Sample::drain_line))]
    fn push_drain_line(&mut self)
        requires { length self.old ≤ 120 }
        ensures text { self.new ≡ self.old ++ drain_line }
    {
        self.push(b"!drain\n");
    }

    // Sets the clock before each hundredth line.
    #[tactic(auto, unfolding(crate::specs::Sample::clock_text))]
    fn push_clock(&mut self, number: u32)
        requires { length self.old ≤ 100 }
        ensures text { self.new ≡ self.old ++ clock_text number }
        ensures size { length self.new ≤ length self.old + 28 }
    {
        if number % 100 == 0 {
            self.push_clock_word();
            self.push_number(time_at(number));
            self.push(b"\n");
        }
    }

    #[tactic(auto, unfolding(crate::specs::Sample::metric_text))]
    fn push_metric(&mut self, seed: u64, number: u32)
        requires { length self.old ≤ 28 }
        ensures text { self.new ≡ self.old ++ metric_text seed number }
        ensures size { length self.new ≤ length self.old + 91 }
        ensures some { 0 < length self.new }
    {
        self.push_metric_word();
        self.push_number(metric_at(seed));
        self.push(b" ");
        self.push_value(value_at(seed));
        self.push(b" ");
        self.push_number(time_at(number));
        self.push(b"\n");
    }

    // Drains all behind each thousandth line.
    #[tactic(auto, unfolding(crate::specs::Sample::drain_text))]
    fn push_drain(&mut self, number: u32)
        requires { length self.old ≤ 120 }
        ensures text { self.new ≡ self.old ++ drain_text number }
        ensures longer { length self.old ≤ length self.new }
    {
        if number % 1000 == 999 {
            self.push_drain_line();
        }
    }
}

// The number that the generator shows.
fn drawn(seed: u64) -> u64
    ensures { result ≡ drawn seed }
{
    seed / (1 << 33)
}

fn metric_at(seed: u64) -> u64
    ensures { result ≡ metric_at seed }
{
    drawn(seed) % 100
}

fn value_at(seed: u64) -> Milli
    ensures { result ≡ value_at seed }
{
    milli_of((drawn(seed) / 100 % 2_000_001) as i64 - 1_000_000)
}

fn time_at(number: u32) -> u64
    ensures { result ≡ time_at number }
{
    1_700_000_000 + 10 * (u64::from(number) / 100)
}
