//! Texts as numbers, and bytes as texts.
//!
//! Those that are given what the case tells remember there that the text is none, and go on with an empty one or 0.

use crate::fault::CaseFault;
use crate::told::Told;
use std::alloc::Global;

/// A number.
pub fn number_in(text: &str) -> Result<u64, CaseFault> {
    match text.parse::<u64>() {
        Ok(number) => Ok(number),
        Err(_) => Err(CaseFault::Malformed),
    }
}

/// A number of 32 bits.
pub fn small_in(text: &str) -> Result<u32, CaseFault> {
    match text.parse::<u32>() {
        Ok(number) => Ok(number),
        Err(_) => Err(CaseFault::Malformed),
    }
}

/// Bytes that have to be UTF-8.
pub fn read_text<'a>(bytes: &'a [u8], told: &mut Told) -> &'a str {
    let Ok(text) = str::from_utf8(bytes) else {
        told.malformed();
        return "";
    };
    text
}

/// A number.
pub fn read_number(text: &str, told: &mut Told) -> u64 {
    let Ok(number) = text.parse::<u64>() else {
        told.malformed();
        return 0;
    };
    number
}

/// A number of 32 bits.
pub fn read_small(text: &str, told: &mut Told) -> u32 {
    let Ok(number) = text.parse::<u32>() else {
        told.malformed();
        return 0;
    };
    number
}

/// A number of 32 bits with a sign or none.
pub fn read_small_signed(text: &str, told: &mut Told) -> i32 {
    let Ok(number) = text.parse::<i32>() else {
        told.malformed();
        return 0;
    };
    number
}

/// A number with a sign or none.
pub fn read_signed(text: &str, told: &mut Told) -> i64 {
    let Ok(number) = text.parse::<i64>() else {
        told.malformed();
        return 0;
    };
    number
}

/// What stands before a mark in a text, and behind it.
pub fn halves<'a>(text: &'a str, mark: char, told: &mut Told) -> (&'a str, &'a str) {
    let Some(halves) = text.split_once(mark) else {
        told.malformed();
        return ("", "");
    };
    halves
}

/// A string of its own.
pub fn string_of(alloc: Global, text: &str, told: &mut Told) -> String {
    match String::from_str(alloc, text) {
        Ok(string) => string,
        Err(_) => {
            told.fail(CaseFault::NoMemory);
            String::new(alloc)
        }
    }
}
