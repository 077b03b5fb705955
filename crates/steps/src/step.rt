//! Steps and replies as values.

use crate::asked::Asked;
use crate::image::{ImageKind, ImageReply};
use inventory_answers::inventory_work::Listed;
use inventory_answers::{Answer, Query};
use kinds::{Digest, Refusal};
use space::Aim;

/// A step: what the method of `Stepper` with its name is given. Of a read the last number is the length of the buffer.
#[derive(Drop)]
pub enum Step {
    OpenNew(u32, u64, u32),
    OpenCopy(u64, Aim, u32),
    WritePiece(u64, Listed<u8>),
    CopyPiece(u64),
    Seal(u64),
    Commit(Asked, Listed<u64>),
    DropTicket(u64),
    ReadPiece(u64, Digest, u32, u64, u32),
    Ask(Query),
    Image(ImageKind),
    Reuse(u32),
    Force,
}

/// What a step answered. A read has the bytes that were read.
#[derive(Drop)]
pub enum Reply {
    OpenNew(Result<u64, Refusal>),
    OpenCopy(Result<u64, Refusal>),
    WritePiece(Result<u64, Refusal>),
    CopyPiece(Result<u64, Refusal>),
    Seal(Result<(), Refusal>),
    Commit(Result<u64, Refusal>),
    DropTicket(Result<(), Refusal>),
    ReadPiece(Result<Listed<u8>, Refusal>),
    Ask(Result<Answer, Refusal>),
    Image(Result<ImageReply, Refusal>),
    Reuse(Result<u64, Refusal>),
    Force(Result<u64, Refusal>),
}
