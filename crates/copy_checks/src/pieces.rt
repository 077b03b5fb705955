// Segments are read from their frames, piece by piece.
ghost use Rattle.std.specs.Prelude.{◌≡◌, ◌+◌, ◌<◌, ◌≤◌, ◌^◌, true, nat_le, length, IfOk, IfErr};
ghost use Rattle.store_api.specs.Told.{Told};
ghost use Rattle.log_file.specs.Windows.{Onward};
ghost use Rattle.volume_frames.specs.Frames.{piece, data_end, data_place};
ghost use Rattle.copy_checks.specs.Copies.{is_header};
ghost use Rattle.copy_checks.specs.Looks.{Looks, MayStop, TakesData, TakesNext, TakesPiece, TakesSegment};

use kinds::{OpenRefused, Segment};
use log_file::{file_len, read_piece};
use sha2::{Digest as _, Sha256};
use store_api::Store;
use volume_frames::{HEADER_LEN, data_place, read_header};

/// Whether a file of this length may hold the frame of a segment.
fn has_room(segment: &Segment, len: u64) -> bool
    ensures { result ≡ nat_le (data_end segment.now) len }
{
    segment.offset as u128 + HEADER_LEN as u128 + segment.len as u128 <= len as u128
}

/// Whether the file of a segment ends no earlier than its data does.
fn is_within<S: Store>(store: &mut S, segment: &Segment) -> Result<bool, OpenRefused>
    ensures told { Told (S.told store.old) (S.told store.new) (Looks (λ image found. found ≡ nat_le (data_end segment.now) (length (image segment.now.file))) result) }
    ensures small { IfOk result (λ found. found ≡ true → data_end segment.now < 2 ^ 64) }
    ensures refused { IfErr result (MayStop (S.faults_of store.old) (S.faults_of store.new) (S.moment_of store.new)) }
    ensures onward { Onward (S.moment_of store.old) (S.moment_of store.new) (S.faults_of store.old) (S.faults_of store.new) }
{
    match file_len(store, segment.file) {
        Ok(len) => Ok(has_room(segment, len)),
        Err(refused) => Err(refused),
    }
}

/// Whether bytes are a header, of either form, that names all this.
fn is_header(bytes: &[u8; 32], object: u64, number: u32, len: u64) -> bool
    ensures { result ≡ is_header bytes.now object number len }
{
    match read_header(bytes) {
        Some(named) => named == (object, number, len),
        None => false,
    }
}

/// Whether a header that names all this stands at the segment's place.
fn has_header<S: Store>(
    store: &mut S,
    object: u64,
    number: u32,
    segment: &Segment,
) -> Result<bool, OpenRefused>
    ensures told { Told (S.told store.old) (S.told store.new) (Looks (λ image found. found ≡ is_header (piece (image segment.now.file) segment.now.offset 32) object number segment.now.len) result) }
    ensures refused { IfErr result (MayStop (S.faults_of store.old) (S.faults_of store.new) (S.moment_of store.new)) }
    ensures onward { Onward (S.moment_of store.old) (S.moment_of store.new) (S.faults_of store.old) (S.faults_of store.new) }
{
    let mut header = [0u8; 32];
    match read_piece(store, segment.file, segment.offset, &mut header) {
        Ok(32) => Ok(is_header(&header, object, number, segment.len)),
        Ok(_) => Ok(false),
        Err(refused) => Err(refused),
    }
}

/// Feeds a hasher with what a file has from a place on, as much as the buffer holds, and answers how many bytes that are.
fn take_piece<S: Store>(
    store: &mut S,
    file: u32,
    at: u64,
    hasher: &mut Sha256,
    buffer: &mut [u8],
) -> Result<usize, OpenRefused>
    ensures told { Told (S.told store.old) (S.told store.new) (Looks (λ image count. TakesPiece (image file) at (length buffer.old) count hasher.old hasher.new) result) }
    ensures bound { IfOk result (λ count. count ≤ length buffer.old) }
    ensures long { length buffer.new ≡ length buffer.old }
    ensures refused { IfErr result (MayStop (S.faults_of store.old) (S.faults_of store.new) (S.moment_of store.new)) }
    ensures onward { Onward (S.moment_of store.old) (S.moment_of store.new) (S.faults_of store.old) (S.faults_of store.new) }
{
    match read_piece(store, file, at, buffer) {
        Ok(count) => {
            hasher.update(&buffer[..count]);
            Ok(count)
        }
        Err(refused) => Err(refused),
    }
}

/// Feeds a hasher with the next bytes of a segment's data, from this one on, as many as the buffer holds or there are left, and answers how many these are.
fn take_next<S: Store>(
    store: &mut S,
    segment: &Segment,
    done: u64,
    hasher: &mut Sha256,
    buffer: &mut [u8],
) -> Result<usize, OpenRefused>
    requires some { 1 ≤ length buffer.old }
    requires place { data_end segment.now < 2 ^ 64 }
    requires below { done < segment.now.len }
    ensures told { Told (S.told store.old) (S.told store.new) (Looks (λ image count. TakesNext (image segment.now.file) segment.now done count hasher.old hasher.new) result) }
    ensures bound { IfOk result (λ count. done + count ≤ segment.now.len) }
    ensures long { length buffer.new ≡ length buffer.old }
    ensures refused { IfErr result (MayStop (S.faults_of store.old) (S.faults_of store.new) (S.moment_of store.new)) }
    ensures onward { Onward (S.moment_of store.old) (S.moment_of store.new) (S.faults_of store.old) (S.faults_of store.new) }
{
    let room = buffer.len().min((segment.len - done) as usize);
    take_piece(
        store,
        segment.file,
        data_place(segment) + done,
        hasher,
        &mut buffer[..room],
    )
}

/// Feeds a hasher with the data of a segment, and tells whether all of it was there.
fn take_data<S: Store>(
    store: &mut S,
    segment: &Segment,
    hasher: &mut Sha256,
    buffer: &mut [u8],
) -> Result<bool, OpenRefused>
    requires some { 1 ≤ length buffer.old }
    requires place { data_end segment.now < 2 ^ 64 }
    ensures told { Told (S.told store.old) (S.told store.new) (Looks (λ image found. TakesData (image segment.now.file) segment.now hasher.old hasher.new found) result) }
    ensures long { length buffer.new ≡ length buffer.old }
    ensures refused { IfErr result (MayStop (S.faults_of store.old) (S.faults_of store.new) (S.moment_of store.new)) }
    ensures onward { Onward (S.moment_of store.old) (S.moment_of store.new) (S.faults_of store.old) (S.faults_of store.new) }
{
    let mut done = 0;
    'pieces: while done < segment.len {
        match take_next(store, segment, done, hasher, buffer) {
            Ok(0) => return Ok(false),
            Ok(count) => done += count as u64,
            Err(refused) => return Err(refused),
        }
    }
    Ok(true)
}

/// Feeds a hasher with the data of an object's segment, and tells whether it stands in its frame.
pub(crate) fn take_segment<S: Store>(
    store: &mut S,
    object: u64,
    number: u32,
    segment: &Segment,
    hasher: &mut Sha256,
    buffer: &mut [u8],
) -> Result<bool, OpenRefused>
    requires some { 1 ≤ length buffer.old }
    ensures told { Told (S.told store.old) (S.told store.new) (Looks (λ image found. TakesSegment (image segment.now.file) object number segment.now hasher.old hasher.new found) result) }
    ensures long { length buffer.new ≡ length buffer.old }
    ensures refused { IfErr result (MayStop (S.faults_of store.old) (S.faults_of store.new) (S.moment_of store.new)) }
    ensures onward { Onward (S.moment_of store.old) (S.moment_of store.new) (S.faults_of store.old) (S.faults_of store.new) }
{
    match is_within(store, segment) {
        Ok(true) => {}
        Ok(false) => return Ok(false),
        Err(refused) => return Err(refused),
    }
    match has_header(store, object, number, segment) {
        Ok(true) => {}
        Ok(false) => return Ok(false),
        Err(refused) => return Err(refused),
    }
    take_data(store, segment, hasher, buffer)
}
