// Copies are read from their frames and compared with their digests.
ghost use Rattle.std.specs.Prelude.{◌≡◌, ◌==◌, ◌<◌, ◌≤◌, ◌^◌, ℕ, List, length, IfErr};
ghost use Rattle.store_api.specs.Told.{Told};
ghost use Rattle.log_file.specs.Windows.{Onward};
ghost use Rattle.sha2.specs.Hashers.{Holds256};
ghost use Rattle.sha2.specs.Sha256.{sha256};
ghost use Rattle.volume_frames.specs.Frames.{bytes_len};
ghost use Rattle.copy_checks.specs.Copies.{is_same, is_there};
ghost use Rattle.copy_checks.specs.Looks.{Looks, MayStop, TakesCopy};

use crate::pieces::take_segment;
use kinds::{Digest, OpenRefused, Segment, Segments};
use sha2::{Digest as _, Sha256};
use store_api::Store;

/// Whether segments have so many bytes together.
fn has_size(segments: &[Segment], size: u64) -> bool
    ensures { result ≡ (bytes_len segments.now == size) }
{
    let mut left = size;
    'segments: for segment in segments {
        match left.checked_sub(segment.len) {
            Some(rest) => left = rest,
            None => return false,
        }
    }
    left == 0
}

/// Feeds a hasher with the data of an object's copy, and tells whether all its segments stand in their frames.
fn take_copy<S: Store>(
    store: &mut S,
    object: u64,
    segments: &[Segment],
    hasher: &mut Sha256,
    buffer: &mut [u8],
) -> Result<bool, OpenRefused>
    requires some { 1 ≤ length buffer.old }
    requires few { length segments.now < 2 ^ 32 }
    ensures told { Told (S.told store.old) (S.told store.new) (Looks (λ image found. TakesCopy image object 0 segments.now hasher.old hasher.new found) result) }
    ensures long { length buffer.new ≡ length buffer.old }
    ensures refused { IfErr result (MayStop (S.faults_of store.old) (S.faults_of store.new) (S.moment_of store.new)) }
    ensures onward { Onward (S.moment_of store.old) (S.moment_of store.new) (S.faults_of store.old) (S.faults_of store.new) }
{
    let mut number = 0;
    'segments: for segment in segments {
        match take_segment(store, object, number, segment, hasher, buffer) {
            Ok(true) => number += 1,
            Ok(false) => return Ok(false),
            Err(refused) => return Err(refused),
        }
    }
    Ok(true)
}

/// Whether the digest is that of the message which the hasher took.
fn is_digest(digest: &Digest, hasher: Sha256) -> bool
    ensures { (message : List ℕ) → Holds256 hasher message → result ≡ is_same digest.now.0 (sha256 message) }
{
    *digest == Digest(hasher.finalize())
}

/// Whether a copy of an object of this size and digest stands in its segments' frames. The buffer has 1 byte or more. Nothing changes. Refused with `ReadFault` only where a call on that file failed, and with
/// `RunFull` only where the moment is, or came to, 2^62 - 2^24.
pub fn is_there<S: Store>(
    store: &mut S,
    object: u64,
    size: u64,
    digest: &Digest,
    segments: &Segments,
    buffer: &mut [u8],
) -> Result<bool, OpenRefused>
    requires some { 1 ≤ length buffer.old }
    ensures told { Told (S.told store.old) (S.told store.new) (Looks (λ image found. found ≡ is_there image object size digest.now.0 segments.now) result) }
    ensures long { length buffer.new ≡ length buffer.old }
    ensures refused { IfErr result (MayStop (S.faults_of store.old) (S.faults_of store.new) (S.moment_of store.new)) }
    ensures onward { Onward (S.moment_of store.old) (S.moment_of store.new) (S.faults_of store.old) (S.faults_of store.new) }
{
    let segments = segments.as_slice();
    if !has_size(segments, size) {
        return Ok(false);
    }
    let mut hasher = Sha256::new();
    match take_copy(store, object, segments, &mut hasher, buffer) {
        Ok(true) => Ok(is_digest(digest, hasher)),
        Ok(false) => Ok(false),
        Err(refused) => Err(refused),
    }
}
