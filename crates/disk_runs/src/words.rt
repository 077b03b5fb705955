//! The words of a line, and what they stand for.
use crate::answer::Fault;
use std::alloc::{AllocError, Global};

/// The words of the line.
pub fn words_of<'a>(alloc: Global, line: &'a str) -> Result<Vec<&'a str>, AllocError> {
    line.split_whitespace().collect(alloc)
}

pub fn number(word: &str) -> Result<u32, Fault> {
    word.parse::<u32>().ok().ok_or(Fault::NoCommand)
}

pub fn large(word: &str) -> Result<u64, Fault> {
    word.parse::<u64>().ok().ok_or(Fault::NoCommand)
}

/// The numbers that the words are.
pub fn numbers(alloc: Global, words: &[&str]) -> Result<Vec<u64>, Fault> {
    let mut list = Vec::new(alloc);
    for word in words {
        push_number(&mut list, large(word)?)?;
    }
    Ok(list)
}

fn push_number(list: &mut Vec<u64>, number: u64) -> Result<(), AllocError> {
    list.push(number)?;
    Ok(())
}

fn push_byte(bytes: &mut Vec<u8>, byte: u8) -> Result<(), AllocError> {
    bytes.push(byte)?;
    Ok(())
}

/// Adds so many bytes, each the last byte of its place's number.
fn count_up(bytes: &mut Vec<u8>, count: u32) -> Result<(), AllocError> {
    for place in 0..count {
        push_byte(bytes, (place % 256) as u8)?;
    }
    Ok(())
}

/// Adds the bytes so many times.
fn repeat(bytes: &mut Vec<u8>, piece: &[u8], count: u32) -> Result<(), AllocError> {
    for _ in 0..count {
        bytes.extend_from_slice(piece)?;
    }
    Ok(())
}

fn digits(alloc: Global, word: &str) -> Result<Vec<u8>, Fault> {
    match hex::decode(alloc, word) {
        Ok(bytes) => Ok(bytes),
        Err(_) => Err(Fault::NoCommand),
    }
}

/// Adds the bytes that the word stands for.
fn add_piece(alloc: Global, bytes: &mut Vec<u8>, word: &str) -> Result<(), Fault> {
    if let Some(count) = word.strip_prefix("0..") {
        count_up(bytes, number(count)?)?;
        return Ok(());
    }
    let (piece, count) = match word.split_once('*') {
        Some((piece, count)) => (piece, number(count)?),
        None => (word, 1),
    };
    let piece = digits(alloc, piece)?;
    repeat(bytes, &piece, count)?;
    Ok(())
}

/// The bytes that the words stand for, one behind the other.
pub fn bytes(alloc: Global, words: &[&str]) -> Result<Vec<u8>, Fault> {
    let mut bytes = Vec::new(alloc);
    for word in words {
        add_piece(alloc, &mut bytes, word)?;
    }
    Ok(bytes)
}

/// A buffer of this length, each byte of it 9.
pub fn buffer(alloc: Global, word: &str) -> Result<Vec<u8>, Fault> {
    let count = number(word)?;
    let mut bytes = Vec::new(alloc);
    repeat(&mut bytes, &[9], count)?;
    Ok(bytes)
}
