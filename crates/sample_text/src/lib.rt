//! The text of a sample: a script of as many metric lines as one likes, made from one number, with one question at its end.
//! It is made as it is read, and never held whole.
//!
//! A generator of numbers begins at the start `x`. For each metric line, counted from 0:
//!
//! - before each hundredth line stands `!clock T`, with its time `T = 1700000000 + 10 * (i / 100)`, where `i` is its number;
//! - `x` becomes `x * 6364136223846793005 + 1442695040888963407` modulo 2^64, and `r = x / 2^33` is drawn;
//! - the line is `sample.mM V T`, with `M = r mod 100` and `V` the text of `(r / 100) mod 2000001 - 1000000` thousandths;
//! - behind each thousandth line stands `!drain`.
//!
//! At the end stands `!ask target=averageSeries(sample.*)&from=-10min&format=raw`.
#![tactic(auto)]

mod copy;
mod lines;
mod question_source;
mod sample_source;

pub use question_source::{QuestionSource, question};
pub use sample_source::SampleSource;
