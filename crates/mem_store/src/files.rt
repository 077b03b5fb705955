// Numbered files of bytes, each with room that was reserved for it.
ghost use Rattle.std.specs.Prelude.{◌≡◌, ◌≢◌, ◌⊎◌, ℕ, ◌+◌, ◌-◌, ◌<◌, ◌≤◌, min, length, take, drop, replicate, ◌++◌, [], OnOk, IfOk, vec_capacity};
ghost use Rattle.store_api.specs.Disk.{overwritten};
ghost use Rattle.mem_store.specs.Files.{content_of, room_of, reach};

use std::alloc::{AllocError, Global};
use std::collections::BTreeMap;

#[derive(Drop)]
pub(crate) struct Files {
    pub alloc: Global,
    pub map: BTreeMap<u32, Vec<u8>>,
}

// Fills up to a length with zeros, where there is room.
fn pad(bytes: &mut Vec<u8>, len: usize)
    requires { len ≤ vec_capacity bytes.old }
    ensures items { bytes.new.items ≡ bytes.old.items ++ replicate (len - length bytes.old.items) 0 }
    ensures room { vec_capacity bytes.old ≤ vec_capacity bytes.new }
{
    if bytes.len() < len {
        let _ = bytes.resize(len, 0);
    }
}

// Writes a piece over the bytes from a place on that is no further than their end, where there is room.
fn lay(bytes: &mut Vec<u8>, at: usize, piece: &[u8])
    requires room { at + length piece.now ≤ vec_capacity bytes.old }
    requires near { at ≤ length bytes.old.items }
    ensures items { bytes.new.items ≡ take at bytes.old.items ++ piece.now ++ drop (at + length piece.now) bytes.old.items }
    ensures room { vec_capacity bytes.old ≤ vec_capacity bytes.new }
{
    let over = (bytes.len() - at).min(piece.len());
    bytes[at..at + over].copy_from_slice(&piece[..over]);
    let _ = bytes.extend_from_slice(&piece[over..]);
}

// Writes copies of a byte over the bytes from a place on that is no further than their end, where there is room.
fn lay_copies(bytes: &mut Vec<u8>, at: usize, count: usize, byte: u8)
    requires room { at + count ≤ vec_capacity bytes.old }
    requires near { at ≤ length bytes.old.items }
    ensures items { bytes.new.items ≡ take at bytes.old.items ++ replicate count byte ++ drop (at + count) bytes.old.items }
    ensures room { vec_capacity bytes.old ≤ vec_capacity bytes.new }
{
    if at + count < bytes.len() {
        bytes[at..at + count].fill(byte);
    } else {
        bytes.truncate(at);
        let _ = bytes.resize(at + count, byte);
    }
}

// Writes a piece over the bytes, where there is room.
fn overwrite(bytes: &mut Vec<u8>, at: usize, piece: &[u8])
    requires { reach at piece.now ≤ vec_capacity bytes.old }
    ensures items { bytes.new.items ≡ overwritten bytes.old.items at piece.now }
    ensures room { vec_capacity bytes.old ≤ vec_capacity bytes.new }
{
    if piece.is_empty() {
        return;
    }
    pad(bytes, at);
    lay(bytes, at, piece);
}

// Writes copies of a byte over the bytes, where there is room.
fn overwrite_copies(bytes: &mut Vec<u8>, at: usize, count: usize, byte: u8)
    requires { reach at (replicate count byte) ≤ vec_capacity bytes.old }
    ensures items { bytes.new.items ≡ overwritten bytes.old.items at (replicate count byte) }
    ensures room { vec_capacity bytes.old ≤ vec_capacity bytes.new }
{
    if count == 0 {
        return;
    }
    pad(bytes, at);
    lay_copies(bytes, at, count, byte);
}

impl Files {
    pub fn new(alloc: Global) -> Files
        ensures empty { (file : ℕ) → content_of result file ≡ [] }
    {
        Files {
            alloc,
            map: BTreeMap::new(alloc),
        }
    }

    pub fn bytes(&self, file: u32) -> &[u8]
        ensures { result.now ≡ content_of self.now file }
    {
        match self.map.get(&file) {
            Some(bytes) => bytes.as_slice(),
            None => &[],
        }
    }

    // Makes room for a length, or finds no memory for it. No file's bytes change.
    pub fn reserve(&mut self, file: u32, len: usize) -> Result<(), AllocError>
        ensures same { (other : ℕ) → content_of self.new other ≡ content_of self.old other }
        ensures room { (other : ℕ) → room_of self.old other ≤ room_of self.new other }
        ensures ok { OnOk result (len ≤ room_of self.new file) }
    {
        if !self.map.contains_key(&file) {
            self.map.insert(file, Vec::new(self.alloc))?;
        }
        match self.map.get_mut(&file) {
            Some(bytes) => reserve_to(bytes, len),
            None => Err(AllocError),
        }
    }

    // Writes a piece over a file's bytes, where there is room.
    pub fn write(&mut self, file: u32, at: usize, piece: &[u8])
        requires { reach at piece.now ≤ room_of self.old file }
        ensures file { content_of self.new file ≡ overwritten (content_of self.old file) at piece.now }
        ensures others { (other : ℕ) → other ≢ file → content_of self.new other ≡ content_of self.old other }
        ensures room { (other : ℕ) → room_of self.old other ≤ room_of self.new other }
    {
        if let Some(bytes) = self.map.get_mut(&file) {
            overwrite(bytes, at, piece);
        }
    }

    // Writes copies of a byte over a file's bytes, where there is room.
    pub fn write_copies(&mut self, file: u32, at: usize, count: usize, byte: u8)
        requires { reach at (replicate count byte) ≤ room_of self.old file }
        ensures file { content_of self.new file ≡ overwritten (content_of self.old file) at (replicate count byte) }
        ensures others { (other : ℕ) → other ≢ file → content_of self.new other ≡ content_of self.old other }
        ensures room { (other : ℕ) → room_of self.old other ≤ room_of self.new other }
    {
        if let Some(bytes) = self.map.get_mut(&file) {
            overwrite_copies(bytes, at, count, byte);
        }
    }

    // Cuts a file to a length.
    pub fn cut(&mut self, file: u32, len: usize)
        ensures file { content_of self.new file ≡ take len (content_of self.old file) }
        ensures others { (other : ℕ) → other ≢ file → content_of self.new other ≡ content_of self.old other }
        ensures room { (other : ℕ) → room_of self.old other ≤ room_of self.new other }
    {
        if let Some(bytes) = self.map.get_mut(&file) {
            bytes.truncate(len);
        }
    }
}

// Makes room for a length, or finds no memory for it.
fn reserve_to(bytes: &mut Vec<u8>, len: usize) -> Result<(), AllocError>
    ensures same { bytes.new.items ≡ bytes.old.items }
    ensures room { vec_capacity bytes.old ≤ vec_capacity bytes.new }
    ensures ok { OnOk result (len ≤ vec_capacity bytes.new) }
{
    if bytes.len() < len {
        bytes.reserve(len - bytes.len())?;
    }
    Ok(())
}
