//! The text of a ring file's head, and of what its archives have stored.
ghost use Rattle.std.specs.Prelude.{◌≡◌, ◌≤◌, ◌<◌, ◌++◌, OnOk, drop, length};
ghost use Rattle.ring_format.specs.Cell.{IsVersion};
ghost use Rattle.ring_look.specs.InfoText.{archive_text, archives_text, factor_text, field_text, front_text, info_text, key_of, method_name, method_text, place_text, places_text, reach_text, title_text, title_word};

use crate::archives::ArchiveInfo;
use crate::pushing::push_number;
use itoa::Buffer;
use ring_format::{Layout, Method, cell_bytes_in};
use std::alloc::AllocError;

/// What a line is of.
#[derive(Clone, Copy)]
pub(crate) enum Key {
    Method,
    Retention,
    Factor,
    FileSize,
    Offset,
    Step,
    Points,
    ArchiveRetention,
    Size,
    Stored,
}

/// Puts what `whisper-info` tells of a file behind a text, and of each archive how many points it has stored.
pub fn push_info(
    out: &mut Vec<u8>,
    layout: &Layout,
    version: u32,
    archives: &[ArchiveInfo],
) -> Result<(), AllocError>
    requires version { IsVersion version }
    requires few { length archives.now ≤ 25 }
    ensures { OnOk result
        (out.new.items ≡ out.old.items ++ info_text layout.now version archives.now) }
{
    push_front(out, layout)?;
    push_field(out, Key::FileSize, layout.size_in(version))?;
    out.push(b'\n')?;
    push_archives(out, version, archives)
}

fn push_front(out: &mut Vec<u8>, layout: &Layout) -> Result<(), AllocError>
    ensures { OnOk result (out.new.items ≡ out.old.items ++ front_text layout.now) }
{
    push_method(out, layout.method())?;
    let retention = layout.retention(layout.archive_count() - 1);
    push_field(out, Key::Retention, u64::from(retention))?;
    push_factor(out, layout.factor())
}

fn push_method(out: &mut Vec<u8>, method: Method) -> Result<(), AllocError>
    ensures { OnOk result (out.new.items ≡ out.old.items ++ method_text method) }
{
    out.extend_from_slice(key_of(Key::Method).as_bytes())?;
    out.extend_from_slice(name_of(method).as_bytes())?;
    Ok(out.push(b'\n')?)
}

// The factor has six places behind the point.
fn push_factor(out: &mut Vec<u8>, factor: u32) -> Result<(), AllocError>
    ensures { OnOk result (out.new.items ≡ out.old.items ++ factor_text factor) }
{
    out.extend_from_slice(key_of(Key::Factor).as_bytes())?;
    push_number(out, u64::from(factor / 1_000_000))?;
    out.push(b'.')?;
    push_places(out, factor % 1_000_000)?;
    Ok(out.push(b'\n')?)
}

fn push_places(out: &mut Vec<u8>, millionths: u32) -> Result<(), AllocError>
    requires { millionths < 1000000 }
    ensures { OnOk result (out.new.items ≡ out.old.items ++ places_text millionths) }
{
    let mut buffer = Buffer::new();
    let digits = buffer.format(1_000_000 + millionths).as_bytes();
    out.extend_from_slice(without_first(digits))
}

fn without_first(digits: &[u8]) -> &[u8]
    requires { 1 ≤ length digits.now }
    ensures { result.now ≡ drop 1 digits.now }
{
    &digits[1..]
}

// Puts the lines of archives, each behind its number.
fn push_archives(
    out: &mut Vec<u8>,
    version: u32,
    archives: &[ArchiveInfo],
) -> Result<(), AllocError>
    requires version { IsVersion version }
    requires few { length archives.now ≤ 25 }
    ensures { OnOk result
        (out.new.items ≡ out.old.items ++ archives_text version 0 archives.now) }
{
    let mut number = 0;
    for archive in archives {
        push_archive(out, version, number, archive)?;
        number += 1;
    }
    Ok(())
}

#[tactic(auto, unfolding(crate::specs::InfoText::archive_text))]
fn push_archive(
    out: &mut Vec<u8>,
    version: u32,
    number: u64,
    archive: &ArchiveInfo,
) -> Result<(), AllocError>
    requires { IsVersion version }
    ensures { OnOk result
        (out.new.items ≡ out.old.items ++ archive_text version number archive.now) }
{
    push_title(out, number)?;
    push_place(out, archive)?;
    push_reach(out, version, archive)?;
    Ok(out.push(b'\n')?)
}

fn push_title(out: &mut Vec<u8>, number: u64) -> Result<(), AllocError>
    ensures { OnOk result (out.new.items ≡ out.old.items ++ title_text number) }
{
    push_title_word(out)?;
    push_number(out, number)?;
    Ok(out.push(b'\n')?)
}

#[tactic(auto, unfolding(crate::specs::InfoText::title_word))]
fn push_title_word(out: &mut Vec<u8>) -> Result<(), AllocError>
    ensures { OnOk result (out.new.items ≡ out.old.items ++ title_word) }
{
    out.extend_from_slice(b"Archive ")
}

fn push_place(out: &mut Vec<u8>, archive: &ArchiveInfo) -> Result<(), AllocError>
    ensures { OnOk result (out.new.items ≡ out.old.items ++ place_text archive.now) }
{
    push_field(out, Key::Offset, u64::from(archive.offset))?;
    push_field(out, Key::Step, u64::from(archive.archive.step))?;
    push_field(out, Key::Points, u64::from(archive.archive.points))
}

fn push_reach(out: &mut Vec<u8>, version: u32, archive: &ArchiveInfo) -> Result<(), AllocError>
    requires { IsVersion version }
    ensures { OnOk result (out.new.items ≡ out.old.items ++ reach_text version archive.now) }
{
    let size = cell_bytes_in(version) as u64 * u64::from(archive.archive.points);
    push_field(out, Key::ArchiveRetention, archive.archive.retention())?;
    push_field(out, Key::Size, size)?;
    push_field(out, Key::Stored, archive.stored)
}

// Puts a line of a number.
fn push_field(out: &mut Vec<u8>, key: Key, number: u64) -> Result<(), AllocError>
    ensures { OnOk result (out.new.items ≡ out.old.items ++ field_text key number) }
{
    out.extend_from_slice(key_of(key).as_bytes())?;
    push_number(out, number)?;
    Ok(out.push(b'\n')?)
}

// What stands before the value of a line.
#[tactic(auto, unfolding(crate::specs::InfoText::key_of))]
fn key_of(key: Key) -> &'static str
    ensures { result.now ≡ key_of key }
{
    match key {
        Key::Method => "aggregationMethod: ",
        Key::Retention => "maxRetention: ",
        Key::Factor => "xFilesFactor: ",
        Key::FileSize => "fileSize: ",
        Key::Offset => "offset: ",
        Key::Step => "secondsPerPoint: ",
        Key::Points => "points: ",
        Key::ArchiveRetention => "retention: ",
        Key::Size => "size: ",
        Key::Stored => "stored: ",
    }
}

// The name of a method.
#[tactic(auto, unfolding(crate::specs::InfoText::method_name))]
fn name_of(method: Method) -> &'static str
    ensures { result.now ≡ method_name method }
{
    match method {
        Method::Average => "average",
        Method::Sum => "sum",
        Method::Last => "last",
        Method::Max => "max",
        Method::Min => "min",
        Method::AvgZero => "avg_zero",
        Method::AbsMax => "absmax",
        Method::AbsMin => "absmin",
    }
}
