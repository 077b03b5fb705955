// The frames of segments: their bytes, and the bytes of a copy read back from them.
ghost use Rattle.std.specs.Prelude.{◌≡◌, ◌+◌, ◌-◌, ◌<◌, ◌≤◌, ◌^◌, ◌∷◌, [], max, length, take, drop, IfOk, IfErr};
ghost use Rattle.std.specs.List.{AllByRecursion};
ghost use Rattle.store_api.specs.Cause.{NoneFell};
ghost use Rattle.store_api.specs.Told.{Told};
ghost use Rattle.volume_frames.specs.Frames.{bytes_len};
ghost use Rattle.contents.specs.Contents.{frame};
ghost use Rattle.contents.specs.Reading.{Lacks, MayLack, ReadData, ReadCopy, ReadOver, ReadPiece, filled, segments_in};

use kinds::Segment;
use std::alloc::{AllocError, Global};
use store_api::{Store, read_within};
use volume_frames::{HEADER_LEN, data_place, frame_header};

const FULL: u64 = (1 << 62) - (1 << 24);

/// Why a copy wasn't read.
#[derive(Clone, Copy, Debug, PartialEq, Eq)]
pub enum Unread {
    /// A call on this file failed: its count of faults rose.
    Fault(u32),
    /// The store's moment is all but the last: 2^62 - 2^24 or more.
    RunFull,
}

/// The frame of an object's segment: its header of 32 bytes, which names the segment's number within the copy, and the data.
#[tactic(auto, unfolding(crate::specs::Contents::frame))]
pub fn framed(alloc: Global, object: u64, number: u32, bytes: &[u8]) -> Result<Vec<u8>, AllocError>
    ensures { IfOk result (λ made. made.items ≡ frame object number bytes.now) }
{
    let header = frame_header(object, number, bytes.len() as u64);
    let mut made = Vec::with_capacity(alloc, HEADER_LEN + bytes.len())?;
    made.extend_from_slice(&header)?;
    made.extend_from_slice(bytes)?;
    Ok(made)
}

/// Reads a part of the data of a segment, which stands behind its frame's header: from this byte on, as much as the buffer holds.
fn read_data<S: Store>(
    store: &mut S,
    segment: &Segment,
    from: u64,
    into: &mut [u8],
) -> Result<(), Unread>
    requires place { segment.now.offset + 32 + from < 2 ^ 64 }
    requires time { S.moment_of store.old < 2 ^ 62 }
    ensures told { Told (S.told store.old) (S.told store.new) (ReadData segment.now from into.new result) }
    ensures len { length into.new ≡ length into.old }
    ensures brief { S.moment_of store.new ≤ S.moment_of store.old + 1 }
    ensures later { S.moment_of store.old ≤ S.moment_of store.new }
    ensures counts { NoneFell (S.faults_of store.old) (S.faults_of store.new) }
    ensures unread { IfErr result (Lacks (segment.now ∷ []) (S.faults_of store.old) (S.faults_of store.new)) }
{
    match read_within(store, segment.file, data_place(segment) + from, into) {
        Ok(_) => Ok(()),
        Err(_) => Err(Unread::Fault(segment.file)),
    }
}

/// Reads the data of a segment into a part of the buffer. What is before that part stays.
#[tactic(auto, using(crate::proofs::Looking::may_lack))]
fn read_part<S: Store>(
    store: &mut S,
    segment: &Segment,
    into: &mut [u8],
    at: usize,
) -> Result<(), Unread>
    requires place { segment.now.offset + 32 < 2 ^ 64 }
    requires room { at + segment.now.len ≤ length into.old }
    ensures told { Told (S.told store.old) (S.told store.new) (ReadData segment.now 0 (take segment.now.len (drop at into.new)) result) }
    ensures before { take at into.new ≡ take at into.old }
    ensures len { length into.new ≡ length into.old }
    ensures time { S.moment_of store.new ≤ max (S.moment_of store.old) (2 ^ 62 - 2 ^ 24) }
    ensures later { S.moment_of store.old ≤ S.moment_of store.new }
    ensures counts { NoneFell (S.faults_of store.old) (S.faults_of store.new) }
    ensures unread { IfErr result (MayLack (segment.now ∷ []) (S.faults_of store.old) (S.faults_of store.new) (S.moment_of store.new)) }
{
    if store.moment() >= FULL {
        return Err(Unread::RunFull);
    }
    let end = at + segment.len as usize;
    read_data(store, segment, 0, &mut into[at..end])
}

/// Reads the bytes of a copy from its segments' frames into a buffer that is as long. Where those frames don't stand, the
/// buffer may hold anything afterwards. It fails with `Fault` only where a call on a segment's file failed, and with `RunFull`
/// only where the moment is, or came to, 2^62 - 2^24.
pub fn read_copy<S: Store>(
    store: &mut S,
    segments: &[Segment],
    into: &mut [u8],
) -> Result<(), Unread>
    requires room { bytes_len segments.now ≡ length into.old }
    requires places { AllByRecursion (λ s. s.offset + 32 < 2 ^ 64) segments.now }
    ensures told { Told (S.told store.old) (S.told store.new) (ReadCopy segments.now into.new result) }
    ensures len { length into.new ≡ length into.old }
    ensures time { S.moment_of store.new ≤ max (S.moment_of store.old) (2 ^ 62 - 2 ^ 24) }
    ensures later { S.moment_of store.old ≤ S.moment_of store.new }
    ensures counts { NoneFell (S.faults_of store.old) (S.faults_of store.new) }
    ensures unread { IfErr result (MayLack segments.now (S.faults_of store.old) (S.faults_of store.new) (S.moment_of store.new)) }
{
    let mut at = 0;
    'segments: for segment in segments {
        match read_part(store, segment, into, at) {
            Ok(()) => at += segment.len as usize,
            Err(unread) => return Err(unread),
        }
    }
    Ok(())
}

/// How many bytes of a piece, `count` bytes from `offset` on, stand in front of this byte of the object.
fn filled(offset: u64, count: usize, place: u64) -> usize
    ensures { result ≡ filled offset count place }
{
    place.saturating_sub(offset).min(count as u64) as usize
}

/// Reads a part of the data of a segment into a part of the buffer, of this length. What is before that part stays.
fn read_range<S: Store>(
    store: &mut S,
    segment: &Segment,
    from: u64,
    into: &mut [u8],
    at: usize,
    count: usize,
) -> Result<(), Unread>
    requires place { segment.now.offset + 32 + from < 2 ^ 64 }
    requires room { at + count ≤ length into.old }
    requires time { S.moment_of store.old < 2 ^ 62 }
    ensures told { Told (S.told store.old) (S.told store.new) (ReadData segment.now from (take count (drop at into.new)) result) }
    ensures before { take at into.new ≡ take at into.old }
    ensures len { length into.new ≡ length into.old }
    ensures brief { S.moment_of store.new ≤ S.moment_of store.old + 1 }
    ensures later { S.moment_of store.old ≤ S.moment_of store.new }
    ensures counts { NoneFell (S.faults_of store.old) (S.faults_of store.new) }
    ensures unread { IfErr result (Lacks (segment.now ∷ []) (S.faults_of store.old) (S.faults_of store.new)) }
{
    let end = at + count;
    read_data(store, segment, from, &mut into[at..end])
}

/// Reads what a segment, whose data begins at byte `start` of the object, has of a piece into its place in the buffer, which is that of
/// the piece. What is before that place stays.
fn read_over<S: Store>(
    store: &mut S,
    segment: &Segment,
    start: u64,
    offset: u64,
    into: &mut [u8],
) -> Result<(), Unread>
    requires place { segment.now.offset + 32 + segment.now.len < 2 ^ 64 }
    requires end { start + segment.now.len < 2 ^ 64 }
    requires piece { offset + length into.old < 2 ^ 64 }
    requires time { S.moment_of store.old < 2 ^ 62 }
    ensures told { Told (S.told store.old) (S.told store.new) (ReadOver segment.now start offset into.new result) }
    ensures before { take (filled offset (length into.old) start) into.new ≡ take (filled offset (length into.old) start) into.old }
    ensures len { length into.new ≡ length into.old }
    ensures brief { S.moment_of store.new ≤ S.moment_of store.old + length (segments_in start offset (length into.old) (segment.now ∷ [])) }
    ensures later { S.moment_of store.old ≤ S.moment_of store.new }
    ensures counts { NoneFell (S.faults_of store.old) (S.faults_of store.new) }
    ensures unread { IfErr result (Lacks (segments_in start offset (length into.old) (segment.now ∷ [])) (S.faults_of store.old) (S.faults_of store.new)) }
{
    let at = filled(offset, into.len(), start);
    let until = filled(offset, into.len(), start + segment.len);
    if until <= at {
        return Ok(());
    }
    read_range(
        store,
        segment,
        offset + at as u64 - start,
        into,
        at,
        until - at,
    )
}

/// Reads a piece of a copy from the frames of those of its segments that have any of it: as many bytes as the buffer holds, from this
/// byte of the object on. Where those frames don't stand, the buffer may hold anything afterwards. It fails with `Fault` alone, and only
/// where a call on a file of one of those segments failed. It makes one device call for each of them, for which there has to be time.
pub fn read_piece<S: Store>(
    store: &mut S,
    segments: &[Segment],
    offset: u64,
    into: &mut [u8],
) -> Result<(), Unread>
    requires room { offset + length into.old ≤ bytes_len segments.now }
    requires long { bytes_len segments.now < 2 ^ 64 }
    requires places { AllByRecursion (λ s. s.offset + 32 + s.len < 2 ^ 64) segments.now }
    requires time { S.moment_of store.old + length (segments_in 0 offset (length into.old) segments.now) < 2 ^ 62 }
    ensures told { Told (S.told store.old) (S.told store.new) (ReadPiece segments.now offset into.new result) }
    ensures len { length into.new ≡ length into.old }
    ensures brief { S.moment_of store.new ≤ S.moment_of store.old + length (segments_in 0 offset (length into.old) segments.now) }
    ensures later { S.moment_of store.old ≤ S.moment_of store.new }
    ensures counts { NoneFell (S.faults_of store.old) (S.faults_of store.new) }
    ensures unread { IfErr result (Lacks (segments_in 0 offset (length into.old) segments.now) (S.faults_of store.old) (S.faults_of store.new)) }
{
    let mut start = 0;
    'segments: for segment in segments {
        match read_over(store, segment, start, offset, into) {
            Ok(()) => start += segment.len,
            Err(unread) => return Err(unread),
        }
    }
    Ok(())
}
