//! Device calls on a ticket's frames: bytes come into them, and are made firm.
ghost use Rattle.std.specs.Prelude.{◌≡◌, ◌+◌, ◌*◌, ◌<◌, ◌≤◌, ◌^◌, true, length, IfErr, OnErr};
ghost use Rattle.store_api.specs.Cause.{NoneFell, Rose};
ghost use Rattle.store_api.specs.Told.{Told};
ghost use Rattle.volume_frames.specs.Frames.{bytes_len};
ghost use Rattle.contents.specs.Reading.{filled, lies_in_file};
ghost use Rattle.hall.specs.Frames.{SyncedAll, SyncedOnce, WroteBehind, WroteData, WroteOver, WrotePart, segments_of};

use kinds::Segment;
use space::Placed;
use store_api::{Failed, Store, sync_within, write_within};
use volume_frames::{HEADER_LEN, frame_header};

/// Writes bytes of a segment's data behind so many of them. A place behind the last that a file can have isn't written: the call fails.
fn write_data<S: Store>(
    store: &mut S,
    segment: &Segment,
    from: u64,
    part: &[u8],
) -> Result<(), Failed>
    requires time { S.moment_of store.old < 2 ^ 62 }
    requires room { from + length part.now ≤ segment.now.len }
    requires some { 0 < length part.now }
    ensures told { Told (S.told store.old) (S.told store.new) (WroteData segment.now from part.now result) }
    ensures time { S.moment_of store.new ≤ S.moment_of store.old + 1 }
    ensures later { S.moment_of store.old ≤ S.moment_of store.new }
    ensures counts { NoneFell (S.faults_of store.old) (S.faults_of store.new) }
    ensures cause { OnErr result (Rose (S.faults_of store.old segment.now.file) (S.faults_of store.new segment.now.file)) }
{
    let place = segment
        .offset
        .saturating_add(HEADER_LEN as u64)
        .saturating_add(from);
    store.write_at(segment.file, place, part)
}

/// Brings bytes into a segment's frame behind so many that it has, with its header before the first of them.
fn write_part<S: Store>(
    store: &mut S,
    object: u64,
    number: u32,
    segment: &Segment,
    from: u64,
    part: &[u8],
) -> Result<(), Failed>
    requires time { S.moment_of store.old + 2 ≤ 2 ^ 62 }
    requires room { from + length part.now ≤ segment.now.len }
    requires some { 0 < length part.now }
    ensures told { Told (S.told store.old) (S.told store.new) (WrotePart object number segment.now from part.now result) }
    ensures time { S.moment_of store.new ≤ S.moment_of store.old + 2 }
    ensures later { S.moment_of store.old ≤ S.moment_of store.new }
    ensures counts { NoneFell (S.faults_of store.old) (S.faults_of store.new) }
    ensures cause { OnErr result (Rose (S.faults_of store.old segment.now.file) (S.faults_of store.new segment.now.file)) }
{
    if from > 0 {
        return write_data(store, segment, from, part);
    }
    let header = frame_header(object, number, segment.len);
    match write_within(store, segment.file, segment.offset, &header) {
        Ok(()) => write_data(store, segment, 0, part),
        Err(failed) => Err(failed),
    }
}

/// How many bytes of a piece, which begins at byte `count` of an object, stand in front of this byte of it.
fn passed(count: u64, len: usize, place: u64) -> usize
    ensures { result ≡ filled count len place }
{
    place.saturating_sub(count).min(len as u64) as usize
}

/// Brings what a segment, whose data begins at byte `start` of the object, has of a piece into its frame; the piece begins at byte `count`.
fn write_over<S: Store>(
    store: &mut S,
    object: u64,
    number: u32,
    segment: &Segment,
    start: u64,
    count: u64,
    bytes: &[u8],
) -> Result<(), Failed>
    requires end { start + segment.now.len < 2 ^ 64 }
    requires time { S.moment_of store.old + 2 * filled count (length bytes.now) (start + segment.now.len) ≤ 2 ^ 62 + 2 * filled count (length bytes.now) start }
    ensures told { Told (S.told store.old) (S.told store.new) (WroteOver object number segment.now start count bytes.now result) }
    ensures time { S.moment_of store.new + 2 * filled count (length bytes.now) start ≤ S.moment_of store.old + 2 * filled count (length bytes.now) (start + segment.now.len) }
    ensures later { S.moment_of store.old ≤ S.moment_of store.new }
    ensures counts { NoneFell (S.faults_of store.old) (S.faults_of store.new) }
    ensures cause { OnErr result (Rose (S.faults_of store.old segment.now.file) (S.faults_of store.new segment.now.file)) }
{
    let at = passed(count, bytes.len(), start);
    let until = passed(count, bytes.len(), start + segment.len);
    if until <= at {
        return Ok(());
    }
    let from = count.saturating_sub(start);
    write_part(store, object, number, segment, from, &bytes[at..until])
}

/// Writes bytes behind the `count` that stand in these places, segment by segment: at most two device calls for each that they touch. Whether it fails or not, nothing but these segments'
/// frames is written to. The error is the file on which a call failed.
pub(crate) fn write_frames<S: Store>(
    store: &mut S,
    object: u64,
    places: &[Placed],
    count: u64,
    bytes: &[u8],
) -> Result<(), u32>
    requires few { length places.now ≤ 2 ^ 32 }
    requires long { bytes_len (segments_of places.now) < 2 ^ 64 }
    requires room { count + length bytes.now ≤ bytes_len (segments_of places.now) }
    requires time { S.moment_of store.old + 2 * length bytes.now ≤ 2 ^ 62 }
    ensures told { Told (S.told store.old) (S.told store.new) (WroteBehind object count (segments_of places.now) bytes.now result) }
    ensures file { IfErr result (λ file. lies_in_file (segments_of places.now) file ≡ true) }
    ensures cause { IfErr result (λ file. Rose (S.faults_of store.old file) (S.faults_of store.new file)) }
    ensures time { S.moment_of store.new ≤ S.moment_of store.old + 2 * length bytes.now }
    ensures later { S.moment_of store.old ≤ S.moment_of store.new }
    ensures counts { NoneFell (S.faults_of store.old) (S.faults_of store.new) }
{
    let mut start = 0;
    'places: for (number, placed) in places.iter().enumerate() {
        let segment = &placed.segment;
        match write_over(store, object, number as u32, segment, start, count, bytes) {
            Ok(()) => start += segment.len,
            Err(_) => return Err(segment.file),
        }
    }
    Ok(())
}

/// Syncs a file, unless it is the one that was synced last.
fn sync_once<S: Store>(store: &mut S, last: Option<u32>, file: u32) -> Result<(), Failed>
    requires { S.moment_of store.old + 1 ≤ 2 ^ 62 }
    ensures told { Told (S.told store.old) (S.told store.new) (SyncedOnce last file result) }
    ensures time { S.moment_of store.new ≤ S.moment_of store.old + 1 }
    ensures later { S.moment_of store.old ≤ S.moment_of store.new }
    ensures counts { NoneFell (S.faults_of store.old) (S.faults_of store.new) }
    ensures cause { OnErr result (Rose (S.faults_of store.old file) (S.faults_of store.new file)) }
{
    match last {
        Some(synced) if synced == file => Ok(()),
        _ => sync_within(store, file),
    }
}

/// Makes firm all that stands in the files of these places: one device call for each run of places on one file. The error is the file on which the call failed.
pub(crate) fn sync_files<S: Store>(store: &mut S, places: &[Placed]) -> Result<(), u32>
    requires { S.moment_of store.old + length places.now ≤ 2 ^ 62 }
    ensures told { Told (S.told store.old) (S.told store.new) (SyncedAll (segments_of places.now) result) }
    ensures file { IfErr result (λ file. lies_in_file (segments_of places.now) file ≡ true) }
    ensures cause { IfErr result (λ file. Rose (S.faults_of store.old file) (S.faults_of store.new file)) }
    ensures time { S.moment_of store.new ≤ S.moment_of store.old + length places.now }
    ensures later { S.moment_of store.old ≤ S.moment_of store.new }
    ensures counts { NoneFell (S.faults_of store.old) (S.faults_of store.new) }
{
    let mut last = None;
    'places: for placed in places {
        let file = placed.segment.file;
        match sync_once(store, last, file) {
            Ok(()) => last = Some(file),
            Err(_) => return Err(file),
        }
    }
    Ok(())
}
