//! What is wrong with a file.

use crate::calls::{disk_of, tell_text};
use case_lines::{Case, Told};
use outside_io::Disk;
use ring_archive::RingFault;
use ring_look::{Finding, find_file, is_wrong, push_finding};
use std::alloc::Global;

/// Tells what is wrong with a file, or that nothing is.
pub fn tell_finding(alloc: Global, told: &mut Told, case: &Case) {
    let class = case.small_at(0, told);
    let name = case.text_at(1, told);
    if let Some(mut disk) = disk_of(alloc, case, 2, name, told) {
        tell_text(told, finding_text(alloc, &mut disk, class, name));
    }
}

fn finding_text<D: Disk>(
    alloc: Global,
    disk: &mut D,
    class: u32,
    name: &str,
) -> Result<Vec<u8>, RingFault> {
    let finding = find_file(alloc, disk, class, name)?;
    line_of(alloc, class, name, finding)
}

fn line_of(alloc: Global, class: u32, name: &str, finding: Finding) -> Result<Vec<u8>, RingFault> {
    let mut text = Vec::new(alloc);
    if !is_wrong(&finding) {
        text.extend_from_slice(b"well")?;
    }
    push_finding(&mut text, class, name, finding)?;
    Ok(text)
}
