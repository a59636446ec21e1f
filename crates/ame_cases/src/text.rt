//! The words, numbers and bytes that the lines of an item spell.

use crate::fault::Fault;
use crate::item::Item;
use std::alloc::{AllocError, Global};

/// The most bytes of a text that pieces make.
const MOST: usize = 67_108_864;

/// Words, with spaces between them.
pub fn split_words(alloc: Global, words: &mut Vec<String>, line: &str) -> Result<(), AllocError> {
    for word in line.split(' ') {
        if !word.is_empty() {
            words.push(String::from_str(alloc, word)?)?;
        }
    }
    Ok(())
}

/// Returns the numbers after the key.
pub fn numbers(alloc: Global, item: &Item) -> Result<Vec<u64>, Fault> {
    let mut numbers = Vec::new(alloc);
    for word in item.value().split(' ') {
        match word.parse::<u64>() {
            Ok(number) => numbers.push(number)?,
            Err(_) => return Err(item.fault("numbers stand behind this key")),
        }
    }
    Ok(numbers)
}

/// Integers, with a space between two.
pub fn integers(alloc: Global, item: &Item, line: &str) -> Result<Vec<i64>, Fault> {
    let mut integers = Vec::new(alloc);
    for word in line.split(' ') {
        match word.parse::<i64>() {
            Ok(integer) => integers.push(integer)?,
            Err(_) => return Err(item.fault("integers stand here, with a space between two")),
        }
    }
    Ok(integers)
}

/// Appends the bytes that an item lists as numbers.
pub fn add_bytes(text: &mut Vec<u8>, item: &Item) -> Result<(), Fault> {
    for word in item.value().split(' ') {
        match word.parse::<u8>() {
            Ok(byte) => text.push(byte)?,
            Err(_) => return Err(item.fault("bytes stand behind this key, as numbers")),
        }
    }
    Ok(())
}

/// Appends a piece a number of times.
pub fn add_piece(text: &mut Vec<u8>, item: &Item) -> Result<(), Fault> {
    let Some((times, piece)) = piece_of(item.value()) else {
        return Err(item.fault("a number and a piece in quotes stand behind this key"));
    };
    if piece.len().saturating_mul(times) > MOST {
        return Err(item.fault("the text is longer than 64 MiB"));
    }
    for _ in 0..times {
        text.extend_from_slice(piece.as_bytes())?;
    }
    Ok(())
}

/// Reads a number, a space and a piece in quotes.
fn piece_of(value: &str) -> Option<(usize, &str)> {
    let (times, quoted) = value.split_once(' ')?;
    let piece = quoted.strip_prefix('"')?.strip_suffix('"')?;
    match times.parse::<usize>() {
        Ok(times) => Some((times, piece)),
        Err(_) => None,
    }
}
