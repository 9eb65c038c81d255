// What the files of a store hold.
use crate::shared_store_kit::START;
use outside_io::Disk;
use std::alloc::{AllocError, Global};

// How many bytes a cell has: four for its bucket, and sixteen for its value.
const CELL_BYTES: usize = 20;

fn number_in(bytes: &[u8]) -> u64 {
    let mut number = 0u64;
    for byte in bytes {
        number = number.wrapping_mul(256).wrapping_add(u64::from(*byte));
    }
    number
}

// The value in thousandths of the cell of a bucket, where the first eight bytes of the value are zeros.
pub(crate) fn value_at(cells: &[u8], bucket: u64) -> Option<u64> {
    for cell in cells.chunks(CELL_BYTES) {
        if number_in(cell.get(..4)?) == bucket && number_in(cell.get(4..12)?) == 0 {
            return Some(number_in(cell.get(12..)?));
        }
    }
    None
}

pub(crate) fn count_cells(cells: &[u8]) -> usize {
    cells
        .chunks(CELL_BYTES)
        .filter(|cell| number_in(cell) > 0)
        .count()
}

// How many of these numbers are known: 0 stands for none.
pub(crate) fn count_known(numbers: &[u32]) -> usize {
    numbers.iter().filter(|number| **number > 0).count()
}

// Whether these cells are those of the minutes, of which the first is that of `START`, and no others.
pub(crate) fn are_minutes(cells: &[u8], numbers: &[u32]) -> bool {
    let mut bucket = u64::from(START);
    for number in numbers {
        let value = if *number > 0 {
            Some(u64::from(*number) * 1_000)
        } else {
            None
        };
        if value_at(cells, bucket) != value {
            return false;
        }
        bucket = bucket.wrapping_add(60);
    }
    count_cells(cells) == count_known(numbers)
}

// What a file holds: nothing where it is not there.
pub(crate) fn bytes_in<D: Disk>(
    alloc: Global,
    disk: &mut D,
    name: &str,
) -> Result<Vec<u8>, AllocError> {
    let size = match disk.length(name) {
        Ok(Some(size)) => size,
        _ => return Ok(Vec::new(alloc)),
    };
    let mut bytes = vec![in alloc; 0; size as usize]?;
    let _ = disk.read_at(name, 0, &mut bytes);
    Ok(bytes)
}
