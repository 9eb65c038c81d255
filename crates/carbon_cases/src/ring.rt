//! Ring files, as they are said before a run and told after it.
ghost use Rattle.ring_format.specs.Cell.{IsVersion};

use crate::fault::CaseFault;
use crate::text::{first_word, number, small_number};
use fixed_num::{MILLI_TEXT, Milli, print_milli, wide};
use ring_format::{
    Archive, HEAD_BYTES, Layout, Method, OLD_VERSION, cell_bytes_in, read_cell, read_head,
    write_head,
};
use std::alloc::{AllocError, Global};

struct MethodName {
    method: Method,
    name: &'static str,
}

static METHODS: [MethodName; 8] = [
    MethodName {
        method: Method::Average,
        name: "average",
    },
    MethodName {
        method: Method::Sum,
        name: "sum",
    },
    MethodName {
        method: Method::Last,
        name: "last",
    },
    MethodName {
        method: Method::Max,
        name: "max",
    },
    MethodName {
        method: Method::Min,
        name: "min",
    },
    MethodName {
        method: Method::AvgZero,
        name: "avg_zero",
    },
    MethodName {
        method: Method::AbsMax,
        name: "absmax",
    },
    MethodName {
        method: Method::AbsMin,
        name: "absmin",
    },
];

fn method_of(name: &str) -> Result<Method, CaseFault> {
    for row in &METHODS {
        if row.name == name {
            return Ok(row.method);
        }
    }
    Err(CaseFault::Malformed)
}

fn name_of(method: Method) -> &'static str {
    for row in &METHODS {
        if row.method == method {
            return row.name;
        }
    }
    "?"
}

/// Zeros, but for numbers of four bytes at their front: `60 9 1` are 60 bytes with 9 and 1 at their front.
pub fn zeros_behind(alloc: Global, text: &str) -> Result<Vec<u8>, CaseFault> {
    let mut bytes = Vec::new(alloc);
    let (len, text) = first_word(text);
    for word in text.split(' ') {
        if !word.is_empty() {
            bytes.extend_from_slice(&small_number(word)?.to_be_bytes())?;
        }
    }
    bytes.resize(small_number(len)? as usize, 0)?;
    Ok(bytes)
}

/// An empty ring file: `average 500000 60x10 300x12`.
pub fn ring_bytes(alloc: Global, text: &str) -> Result<Vec<u8>, CaseFault> {
    let layout = layout_of(alloc, text)?;
    let mut head = [0; HEAD_BYTES];
    let _ = write_head(&layout, &mut head);
    let mut bytes = Vec::from_slice(alloc, &head)?;
    bytes.resize(layout.file_size() as usize, 0)?;
    Ok(bytes)
}

fn layout_of(alloc: Global, text: &str) -> Result<Layout, CaseFault> {
    let (method, text) = first_word(text);
    let (factor, text) = first_word(text);
    let archives = archives_of(alloc, text)?;
    match Layout::new(&archives, method_of(method)?, small_number(factor)?) {
        Ok(layout) => Ok(layout),
        Err(_) => Err(CaseFault::Malformed),
    }
}

fn archives_of(alloc: Global, text: &str) -> Result<Vec<Archive>, CaseFault> {
    let mut archives = Vec::new(alloc);
    for word in text.split(' ') {
        archives.push(archive_of(word)?)?;
    }
    Ok(archives)
}

fn archive_of(word: &str) -> Result<Archive, CaseFault> {
    match word.split_once('x') {
        Some((step, points)) => Ok(Archive {
            step: small_number(step)?,
            points: small_number(points)?,
        }),
        None => Err(CaseFault::Malformed),
    }
}

/// Tells the layout of a ring file, with its version where that is 1, and each cell that is not
/// empty by its archive, slot, bucket and value.
pub fn write_ring(page: &mut String, bytes: &[u8]) -> Result<(), AllocError> {
    let front = bytes.get(..HEAD_BYTES).unwrap_or(bytes);
    match read_head(front, bytes.len() as u64) {
        Ok((layout, version)) => {
            if version == OLD_VERSION {
                page.push_str("version 1 ")?;
            }
            write_layout(page, &layout)?;
            write_archives(page, &layout, version, bytes)
        }
        Err(_) => page.push_str("no ring\n"),
    }
}

fn write_layout(page: &mut String, layout: &Layout) -> Result<(), AllocError> {
    write!(page, "{} {}", name_of(layout.method()), layout.factor())?;
    for archive in layout.archives() {
        write!(page, " {}x{}", archive.step, archive.points)?;
    }
    page.push_str("\n")
}

fn write_archives(
    page: &mut String,
    layout: &Layout,
    version: u32,
    bytes: &[u8],
) -> Result<(), AllocError>
    requires { IsVersion version }
{
    for number in 0..layout.archive_count() {
        let cells = bytes
            .get(layout.offset_in(number, version) as usize..)
            .unwrap_or(&[]);
        write_cells(page, number, version, cells, layout.archive(number).points)?;
    }
    Ok(())
}

fn write_cells(
    page: &mut String,
    archive: u32,
    version: u32,
    bytes: &[u8],
    points: u32,
) -> Result<(), AllocError>
    requires { IsVersion version }
{
    for (slot, cell) in bytes
        .chunks(cell_bytes_in(version))
        .take(points as usize)
        .enumerate()
    {
        if let Some((bucket, value)) = cell_in(version, cell) {
            write!(page, "  {archive} {slot} {bucket} ")?;
            write_value(page, value)?;
            page.push_str("\n")?;
        }
    }
    Ok(())
}

// The bucket and the value of a cell that is not empty.
fn cell_in(version: u32, bytes: &[u8]) -> Option<(u32, Milli)>
    requires { IsVersion version }
{
    if bytes.len() != cell_bytes_in(version) {
        return None;
    }
    let (bucket, value) = read_cell(version, bytes);
    let value = value?;
    if bucket == 0 && wide(value) == 0 {
        return None;
    }
    Some((bucket, value))
}

// Writes a value.
fn write_value(page: &mut String, value: Milli) -> Result<(), AllocError> {
    let mut text = [0; MILLI_TEXT];
    let len = print_milli(value, &mut text);
    for byte in text.iter().take(len) {
        page.push(char::from(*byte))?;
    }
    Ok(())
}
