//! The text of what a ring file shows.
ghost use Rattle.std.specs.Prelude.{◌≡◌, ◌+◌, ◌*◌, ◌^◌, ◌<◌, ◌++◌, OnOk, length};
ghost use Rattle.fixed_num.specs.Print.{milli_text};
ghost use Rattle.series_fetch.specs.Window.{HasBuckets, IsWindow};
ghost use Rattle.ring_look.specs.ValuesText.{none_word, row_text, rows_text, value_text, window_text};

use crate::pushing::push_number;
use fixed_num::{MILLI_TEXT, Milli, print_milli};
use ring_format::Layout;
use series_fetch::Window;
use std::alloc::AllocError;

/// Puts a line for each bucket of a window behind a text: its moment, a tab, and its value or `None`, as `whisper-fetch` does.
pub fn push_values(
    out: &mut Vec<u8>,
    layout: &Layout,
    window: Window,
    values: &[Option<Milli>],
) -> Result<(), AllocError>
    requires window { IsWindow layout.now window }
    requires count { HasBuckets layout.now window (length values.now) }
    ensures { OnOk result
        (out.new.items ≡ out.old.items ++ window_text layout.now window values.now) }
{
    match window {
        Window::Empty => Ok(()),
        Window::Range(archive, first, _) => {
            push_rows(out, first, layout.archive(archive).step, values)
        }
    }
}

// Puts the lines of values that are a step apart, from a first moment on.
fn push_rows(
    out: &mut Vec<u8>,
    first: u64,
    step: u32,
    values: &[Option<Milli>],
) -> Result<(), AllocError>
    requires { first + length values.now * step < 2 ^ 32 }
    ensures { OnOk result
        (out.new.items ≡ out.old.items ++ rows_text first step values.now) }
{
    let mut moment = first;
    for value in values {
        push_row(out, moment, *value)?;
        moment += u64::from(step);
    }
    Ok(())
}

fn push_row(out: &mut Vec<u8>, moment: u64, value: Option<Milli>) -> Result<(), AllocError>
    ensures { OnOk result (out.new.items ≡ out.old.items ++ row_text moment value) }
{
    push_number(out, moment)?;
    out.push(b'\t')?;
    push_value(out, value)?;
    Ok(out.push(b'\n')?)
}

fn push_value(out: &mut Vec<u8>, value: Option<Milli>) -> Result<(), AllocError>
    ensures { OnOk result (out.new.items ≡ out.old.items ++ value_text value) }
{
    match value {
        Some(value) => return push_milli(out, value),
        None => return push_none(out),
    }
}

fn push_milli(out: &mut Vec<u8>, value: Milli) -> Result<(), AllocError>
    ensures { OnOk result (out.new.items ≡ out.old.items ++ milli_text value) }
{
    let mut text = [0; MILLI_TEXT];
    let count = print_milli(value, &mut text);
    out.extend_from_slice(&text[..count])
}

#[tactic(auto, unfolding(crate::specs::ValuesText::none_word))]
fn push_none(out: &mut Vec<u8>) -> Result<(), AllocError>
    ensures { OnOk result (out.new.items ≡ out.old.items ++ none_word) }
{
    out.extend_from_slice(b"None")
}
