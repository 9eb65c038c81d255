//! How bytes are told.

use case_lines::{CaseFault, Told};
use std::alloc::AllocError;

/// Puts bytes behind a text: as they are where they are UTF-8, and else with `<ff>` for each that is not ASCII.
pub fn push_bytes(told: &mut Told, bytes: &[u8]) {
    match str::from_utf8(bytes) {
        Ok(text) => told.push_str(text),
        Err(_) => push_each(told, bytes),
    }
}

fn push_each(told: &mut Told, bytes: &[u8]) {
    for byte in bytes {
        push_byte(told, *byte);
    }
}

fn push_byte(told: &mut Told, byte: u8) {
    if byte.is_ascii() {
        return told.push(char::from(byte));
    }
    write!(told, "<{byte:02x}>");
}

/// Puts a text that was made behind what was told.
pub fn push_made(told: &mut Told, text: Result<Vec<u8>, AllocError>) {
    match text {
        Ok(text) => push_bytes(told, &text),
        Err(_) => told.fail(CaseFault::NoMemory),
    }
}

/// Puts a string that was made behind what was told.
pub fn push_string(told: &mut Told, text: Result<String, AllocError>) {
    match text {
        Ok(text) => told.push_str(text.as_str()),
        Err(_) => told.fail(CaseFault::NoMemory),
    }
}

/// Puts a text behind those that were told before, with a blank between.
pub fn push_next(told: &mut Told, text: &str) {
    told.push_blank();
    told.push_str(text);
}
