//! The summary of a script.
ghost use Rattle.std.specs.Prelude.{◌≡◌, ◌++◌, OnOk};
ghost use Rattle.carbon_script.specs.Texts.{count_line, count_text, drains_word, fields_word, full_word, long_word, path_word, puts_text, refusals_text, replaced_word, stored_word, summary_of, time_word, value_word};
ghost use Rattle.carbon_script.specs.Replies.{Tells};

use crate::counts::Counts;
use crate::reply::{Reply, Shortage};
use crate::text::push_count;
use std::alloc::{AllocError, Global};

/// The summary of these counts and so many drains.
pub fn summary(alloc: Global, counts: &Counts, drains: u64) -> Result<Reply, Shortage>
    ensures { Tells result (summary_of counts.now drains) }
{
    let mut text = Vec::new(alloc);
    push_puts(&mut text, counts)?;
    push_refusals(&mut text, counts)?;
    push_drains(&mut text, drains)?;
    text.extend_from_slice(b"\n")?;
    Ok(Reply::new(text))
}

// Appends the counts of the puts, by how they ended.
#[tactic(auto, unfolding(crate::specs::Texts::puts_text))]
fn push_puts(out: &mut Vec<u8>, counts: &Counts) -> Result<(), AllocError>
    ensures { OnOk result (out.new.items ≡ out.old.items ++ puts_text counts.now) }
{
    push_stored(out, counts.stored)?;
    push_replaced(out, counts.replaced)?;
    push_full(out, counts.full)
}

// Appends the counts of the refused lines, by their reasons.
#[tactic(auto, unfolding(crate::specs::Texts::refusals_text))]
fn push_refusals(out: &mut Vec<u8>, counts: &Counts) -> Result<(), AllocError>
    ensures { OnOk result (out.new.items ≡ out.old.items ++ refusals_text counts.now) }
{
    push_fields(out, counts.fields)?;
    push_path(out, counts.path)?;
    push_value(out, counts.value)?;
    push_time(out, counts.time)?;
    push_long(out, counts.long)
}

#[tactic(auto, unfolding(crate::specs::Texts::stored_word))]
fn push_stored(out: &mut Vec<u8>, count: u64) -> Result<(), AllocError>
    ensures { OnOk result (out.new.items ≡ out.old.items ++ count_text stored_word count) }
{
    push_count(out, b"stored ", count)
}

#[tactic(auto, unfolding(crate::specs::Texts::replaced_word))]
fn push_replaced(out: &mut Vec<u8>, count: u64) -> Result<(), AllocError>
    ensures { OnOk result (out.new.items ≡ out.old.items ++ count_text replaced_word count) }
{
    push_count(out, b" replaced ", count)
}

#[tactic(auto, unfolding(crate::specs::Texts::full_word))]
fn push_full(out: &mut Vec<u8>, count: u64) -> Result<(), AllocError>
    ensures { OnOk result (out.new.items ≡ out.old.items ++ count_text full_word count) }
{
    push_count(out, b" full ", count)
}

#[tactic(auto, unfolding(crate::specs::Texts::fields_word))]
fn push_fields(out: &mut Vec<u8>, count: u64) -> Result<(), AllocError>
    ensures { OnOk result (out.new.items ≡ out.old.items ++ count_text fields_word count) }
{
    push_count(out, b" fields ", count)
}

#[tactic(auto, unfolding(crate::specs::Texts::path_word))]
fn push_path(out: &mut Vec<u8>, count: u64) -> Result<(), AllocError>
    ensures { OnOk result (out.new.items ≡ out.old.items ++ count_text path_word count) }
{
    push_count(out, b" path ", count)
}

#[tactic(auto, unfolding(crate::specs::Texts::value_word))]
fn push_value(out: &mut Vec<u8>, count: u64) -> Result<(), AllocError>
    ensures { OnOk result (out.new.items ≡ out.old.items ++ count_text value_word count) }
{
    push_count(out, b" value ", count)
}

#[tactic(auto, unfolding(crate::specs::Texts::time_word))]
fn push_time(out: &mut Vec<u8>, count: u64) -> Result<(), AllocError>
    ensures { OnOk result (out.new.items ≡ out.old.items ++ count_text time_word count) }
{
    push_count(out, b" time ", count)
}

#[tactic(auto, unfolding(crate::specs::Texts::long_word))]
fn push_long(out: &mut Vec<u8>, count: u64) -> Result<(), AllocError>
    ensures { OnOk result (out.new.items ≡ out.old.items ++ count_text long_word count) }
{
    push_count(out, b" long ", count)
}

// Appends the number of drains.
#[tactic(auto, unfolding(crate::specs::Texts::drains_word))]
fn push_drains(out: &mut Vec<u8>, count: u64) -> Result<(), AllocError>
    ensures { OnOk result (out.new.items ≡ out.old.items ++ count_text drains_word count) }
{
    push_count(out, b" drains ", count)
}
