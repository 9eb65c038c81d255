//! The sections of a file.
ghost use Rattle.std.specs.Prelude.{◌≡◌, ◌≤◌, ◌<◌, ◌+◌, IfOk, IfErr, length, Ok, Err};
ghost use Rattle.schema_rules.specs.RuleLines.{sections_of};
ghost use Rattle.schema_rules.specs.RulesOf.{Stops, file_sections, most_file_bytes, or_bad_line};

use crate::fault::{RuleCause, Stop};
use crate::section::Sections;
use rule_lines::{next_line, without_last_blanks};
use std::alloc::Global;

// The most bytes of a file.
const MOST_FILE_BYTES: usize = 1_048_576;

/// The sections of a file, which is not to be too long.
#[tactic(auto, unfolding(crate::specs::RulesOf::file_sections))]
pub(crate) fn file_sections<'a>(alloc: Global, file: &'a [u8]) -> Result<Sections<'a>, Stop>
    ensures sections { IfOk result (λ sections. file_sections file.now ≡ Ok sections) }
    ensures stop { IfErr result (Stops (file_sections file.now)) }
    ensures few { IfOk result (λ sections. length sections ≤ 1048577) }
    ensures long { most_file_bytes < length file.now
        → result ≡ Err (Stop.Cause RuleCause.TooLong) }
{
    if file.len() > MOST_FILE_BYTES {
        return Err(Stop::Cause(RuleCause::TooLong));
    }
    sections_of(alloc, file)
}

// The sections of a file's lines, or the number of the first line that cannot stand there.
#[tactic(auto, unfolding(crate::specs::RuleLines::sections_from))]
fn sections_of<'a>(alloc: Global, file: &'a [u8]) -> Result<Sections<'a>, Stop>
    requires { length file.now ≤ 1048576 }
    ensures sections { IfOk result (λ sections. or_bad_line (sections_of file.now) ≡ Ok sections) }
    ensures stop { IfErr result (Stops (or_bad_line (sections_of file.now))) }
    ensures few { IfOk result (λ sections. length sections ≤ 1048577) }
{
    let mut sections = Sections::new(alloc);
    let mut number = 1;
    let mut rest = file;
    while let Some(first) = next_line(rest) {
        if !sections.take_line(without_last_blanks(first.line))? {
            return Err(Stop::Cause(RuleCause::Line(number)));
        }
        number += 1;
        rest = first.rest;
    }
    if !sections.take_line(without_last_blanks(rest))? {
        return Err(Stop::Cause(RuleCause::Line(number)));
    }
    Ok(sections)
}
