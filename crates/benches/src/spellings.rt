// How the transactions are spelled.
use crate::filling::BATCH;
use fields::{Memory, put_u64};
use std::alloc::{AllocError, Global};

/// Actor 0 defines the node N in the domain STANDARD, which gets the number 1.
pub(crate) const NODE: &[u8] = b"\0\0\0\0\x08\x01\0\x01N\0\x08STANDARD";

/// Actor 0 defines the filespace /home of that node, with the number 1.
pub(crate) const FILESPACE: &[u8] = b"\0\0\0\0\x18\x01\0\0\0\x01\0\x05/home\0\0\0\x01";

/// Actor 0 defines the volume V of 65,536 MiB in the pool 1, with the file number 4.
pub(crate) const VOLUME: &[u8] =
    b"\0\0\0\0\x0b\x01\0\x01V\0\0\0\x01\0\0\0\x04\0\0\0\x10\0\0\0\0\x01";

/// How many versions each path has in the end.
const VERSIONS: u32 = 4;

/// A path of 40 bytes: a slash and 39 hexadecimal digits that this number scatters.
fn path(number: u32) -> [u8; 40] {
    let digits = b"0123456789abcdef";
    let mut rest = (number as u64).wrapping_mul(0x9e37_79b9_7f4a_7c15);
    let mut text = [b'/'; 40];
    for at in 1..40 {
        rest = rest.rotate_left(4);
        text[at] = digits[(rest % 16) as usize];
    }
    text
}

/// The number of the path of a version: four transactions, one after the other, bring a version of each of the same 256 paths.
fn path_of(version: u32) -> u32 {
    (version / (BATCH * VERSIONS)) * BATCH + version % BATCH
}

/// Puts the spelling of the version with this number, 136 bytes: its path; its class STANDARD, its size of 1,000 bytes and its time; its digest; its
/// object, and a segment of one block of the volume.
fn put_version(out: &mut Vec<u8>, number: u32) -> Result<(), Memory> {
    let object = u64::from(number) + 1;
    out.extend_from_slice(b"\0\x28")?;
    out.extend_from_slice(path(path_of(number)).as_slice())?;
    out.extend_from_slice(b"\0\x08STANDARD\0\0\0\0\0\0\x03\xe8\0\0\0\0\0\0\0\x07")?;
    out.extend_from_slice(&[7; 32])?;
    put_u64(out, object)?;
    out.extend_from_slice(b"\0\0\0\x01\0\0\0\x01\0\0\0\x04")?;
    put_u64(out, object * 4096)?;
    put_u64(out, 1000)?;
    Ok(())
}

/// The spelling of the transaction that brings the versions from this number on, 256 of them.
pub(crate) fn batch(alloc: Global, first: u32) -> Result<Vec<u8>, Memory> {
    let mut out = Vec::from_slice(alloc, b"\0\0\0\x01\x0c\0\0\0\x01\0\0\0\0\0\0\x01\0")?;
    for at in 0..BATCH {
        put_version(&mut out, first.wrapping_add(at))?;
    }
    Ok(out)
}
