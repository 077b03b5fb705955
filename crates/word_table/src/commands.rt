//! Lines of the command language: the command with its fields, or the refusal with the column of the word that it is about.
ghost use Rattle.std.specs.Prelude.{◌≤◌, length};

use admin_words::{Command, read_line};
use command_words::is_comment;
use kinds::Refusal;
use std::alloc::{AllocError, Global};

/// How many bytes stand in the debug form between the name of a text's struct and its bytes.
const FIELD: usize = b" { bytes: ".len();

/// How many bytes stand in the debug form behind the bytes of a text.
const END: u8 = 2;

/// Where the name begins that ends this text.
fn name_start(text: &[u8]) -> usize {
    let mut start = 0;
    for (at, byte) in text.iter().enumerate() {
        if !byte.is_ascii_alphanumeric() {
            start = at + 1;
        }
    }
    start
}

/// Takes away the name of a text's struct and of its field.
fn without_name(out: &mut Vec<u8>) {
    out.truncate(out.len().saturating_sub(FIELD));
    out.truncate(name_start(out.as_slice()));
}

/// The number that this digit continues.
fn with_digit(number: Option<u8>, digit: u8) -> Option<u8> {
    let first = number.unwrap_or(0).wrapping_mul(10);
    Some(first.wrapping_add(digit.wrapping_sub(b'0')))
}

/// The debug form of a command with its texts in quotes, where that has their bytes as numbers in a struct.
fn with_texts(alloc: Global, debug: &[u8]) -> Result<Vec<u8>, AllocError> {
    let mut out = Vec::new(alloc);
    let mut number = None;
    let mut in_text = false;
    let mut left_out = 0;
    for byte in debug {
        if left_out > 0 {
            left_out -= 1;
        } else if !in_text {
            if *byte == b'[' {
                without_name(&mut out);
                out.push(b'"')?;
                in_text = true;
            } else {
                out.push(*byte)?;
            }
        } else if byte.is_ascii_digit() {
            number = with_digit(number, *byte);
        } else {
            if let Some(n) = number {
                out.push(n)?;
                number = None;
            }
            if *byte == b']' {
                out.push(b'"')?;
                in_text = false;
                left_out = END;
            }
        }
    }
    Ok(out)
}

/// The debug form of a command.
fn command_text(alloc: Global, command: &Command) -> Result<String, AllocError> {
    format!(in alloc; "{command:?}")
}

/// The debug form of a refusal.
pub fn refusal_text(alloc: Global, refusal: &Refusal) -> Result<String, AllocError> {
    format!(in alloc; "{refusal:?}")
}

/// The debug form of what a line is read as.
fn line_text(alloc: Global, line: &[u8], in_block: bool) -> Result<String, AllocError>
    requires { length line.now ≤ 4096 }
{
    match read_line(alloc, line, in_block) {
        Ok(command) => {
            let text = command_text(alloc, &command);
            drop(command);
            text
        }
        Err(refusal) => refusal_text(alloc, &refusal),
    }
}

/// What a line says.
fn said(alloc: Global, line: &[u8], in_block: bool) -> Result<Vec<u8>, AllocError> {
    if is_comment(line) {
        return Vec::from_slice(alloc, b"a comment");
    }
    if line.len() > 4096 {
        return Vec::from_slice(alloc, b"too long");
    }
    let text = line_text(alloc, line, in_block)?;
    with_texts(alloc, text.as_bytes())
}

/// What a line says, which is one of a block where it begins with `>`.
pub fn line(alloc: Global, line: &[u8]) -> Result<Vec<u8>, AllocError> {
    match line {
        [b'>', rest @ ..] => said(alloc, rest, true),
        whole => said(alloc, whole, false),
    }
}
