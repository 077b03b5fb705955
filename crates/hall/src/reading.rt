//! Pieces of objects that are read, each from the first of its object's copies that has it.
ghost use Rattle.std.specs.Prelude.{◌≡◌, ◌+◌, ◌<◌, ◌≤◌, ◌^◌, ◌==◌, ◌||◌, ℕ, nat_le, true, None, Some, ◌∷◌, ◌++◌, [], length, IfErr, IfOk, IfSome};
ghost use Rattle.std.specs.List.{AllByRecursion};
ghost use Rattle.std.specs.Option.{option_copied};
ghost use Rattle.store_api.specs.Cause.{NoneFell};
ghost use Rattle.store_api.specs.Told.{Told};
ghost use Rattle.kinds.specs.Names.{is_same_name};
ghost use Rattle.kinds.specs.Refusals.{foremost, sooner_of, unless, bad_value};
ghost use Rattle.kinds.specs.declared.refusal.Refusal.TheVariants as refusal;
ghost use Rattle.volume_frames.specs.Frames.{bytes_len};
ghost use Rattle.inventory_rows.specs.State.{inv_of};
ghost use Rattle.inventory_rows.specs.Search.{copy_in, version, version as version_there};
ghost use Rattle.inventory_rows.specs.pool_tables.Rows.{row_at};
ghost use Rattle.inventory_rules.specs.Valid.{is_valid};
ghost use Rattle.inventory_rules.specs.Versions.{gone_or_unknown};
ghost use Rattle.inventory_rules.specs.Run.{journal_of};
ghost use Rattle.contents.specs.Reading.{segments_in};
ghost use Rattle.machine.specs.Causes.{has_copy_in, read_refused};
ghost use Rattle.machine.specs.Pieces.{IsCopyLost, RoseAt, asked_copies, piece_length};
ghost use Rattle.steps.specs.Calls.{piece_of};
ghost use Rattle.steps.specs.Events.{is_listed};
ghost use Rattle.steps.specs.Events.Deed.{ReadPiece};
ghost use Rattle.hall.specs.Reading.{EndsBy, EndsRead, HasPiece, ReadsAny, ReadsObject, calls_for, count_of, lies_within, seen_by_all, tally};
ghost use Rattle.hall.specs.Steps.{Goes, Looks, Steps};

use crate::hall::Hall;
use crate::parts::Parts;
use crate::taking::MOST_BYTES;
use contents::read_piece;
use inventory::Inventory;
use inventory_rows::Tables;
use inventory_rows::version_groups::{CopyRow, Version};
use item_refusals::Past;
use kinds::{Digest, Refusal, Segment, bad_value, sooner_of, unless};
use placing::is_readable;
use store_api::Store;
use vault::laws::pending;

// ---- counts of faults

/// How often calls on the file have failed, where its volume may be read and the count can still rise.
fn count_of<S: Store>(store: &S, tables: &Tables, file: u32) -> Option<u64>
    ensures { result ≡ count_of (S.faults_of store.now) (inv_of tables.now) file }
{
    let count = store.faults(file);
    if is_readable(tables, file) && count < u64::MAX {
        Some(count)
    } else {
        None
    }
}

/// The same of a segment that has bytes of the piece, `count` bytes from `offset` on, and 0 of another one. Its data begin at byte `start` of the object.
fn tally_one<S: Store>(
    store: &S,
    tables: &Tables,
    segment: &Segment,
    start: u64,
    offset: u64,
    count: usize,
) -> Option<u64>
    requires end { start + segment.now.len < 2 ^ 64 }
    requires piece { offset + count < 2 ^ 64 }
    ensures { result ≡ tally (S.faults_of store.now) (inv_of tables.now) (segments_in start offset count (segment.now ∷ [])) }
{
    if start < offset + count as u64 && offset < start + segment.len {
        count_of(store, tables, segment.file)
    } else {
        Some(0)
    }
}

/// How often calls on the files of those of these segments that have bytes of the piece have failed, together; none where one lies on a volume that may not be read, or its file's count
/// can't rise any more.
pub(crate) fn tally<S: Store>(
    store: &S,
    tables: &Tables,
    segments: &[Segment],
    offset: u64,
    count: usize,
) -> Option<u128>
    requires long { bytes_len segments.now < 2 ^ 64 }
    requires piece { offset + count < 2 ^ 64 }
    ensures { result ≡ tally (S.faults_of store.now) (inv_of tables.now) (segments_in 0 offset count segments.now) }
{
    let mut start = 0;
    let mut sum: u128 = 0;
    'segments: for segment in segments {
        match tally_one(store, tables, segment, start, offset, count) {
            Some(failed) => sum += u128::from(failed),
            None => return None,
        }
        start += segment.len;
    }
    Some(sum)
}

// ---- copies

/// Nothing is done; the caller learns that the volume, where it is there, has at most 2^40 bytes.
fn volume_is_bounded(tables: &Tables, file: u32)
    ensures { IfSome (row_at file (inv_of tables.now).stores.volumes) (λ volume. volume.capacity ≤ 2 ^ 40) }
{
    if let Some(volume) = tables.pools.volumes().get(&file) {
        let _bytes = volume.capacity.bytes();
    }
}

/// Nothing is done; the caller learns that the frames of segments within their volumes end below 2^64 bytes.
fn frames_are_bounded(tables: &Tables, segments: &[Segment])
    requires { AllByRecursion (λ s. lies_within (inv_of tables.now) s ≡ true) segments.now }
    ensures { AllByRecursion (λ s. s.offset + 32 + s.len < 2 ^ 64) segments.now }
{
    'segments: for segment in segments {
        volume_is_bounded(tables, segment.file);
    }
}

/// Reads the piece from this copy. `true` where none of its segments that have any of it is lost since this tally of them was made: where their volumes may be read, and none of their files'
/// counts rose.
pub(crate) fn read_one<S: Store>(
    store: &mut S,
    tables: &Tables,
    copy: &CopyRow,
    tallied: Option<u128>,
    offset: u64,
    into: &mut [u8],
) -> bool
    requires piece { HasPiece (inv_of tables.now) offset (length into.old) copy.now }
    requires time { S.moment_of store.old + calls_for offset (length into.old) (copy.now ∷ []) < 2 ^ 62 }
    ensures told { Told (S.told store.old) (S.told store.new) (ReadsAny (copy.now ∷ []) offset into.new result) }
    ensures ends { (before : ℕ → ℕ) → NoneFell before (S.faults_of store.old) → tallied ≡ tally before (inv_of tables.now) (segments_in 0 offset (length into.old) copy.now.segments)
        → EndsBy (IsCopyLost (RoseAt before (S.faults_of store.new)) (inv_of tables.now) offset (length into.old) copy.now) result }
    ensures len { length into.new ≡ length into.old }
    ensures brief { S.moment_of store.new ≤ S.moment_of store.old + calls_for offset (length into.old) (copy.now ∷ []) }
    ensures later { S.moment_of store.old ≤ S.moment_of store.new }
    ensures counts { NoneFell (S.faults_of store.old) (S.faults_of store.new) }
{
    if tallied.is_none() {
        return false;
    }
    let segments = copy.segments.as_slice();
    frames_are_bounded(tables, segments);
    match read_piece(store, segments, offset, into) {
        Ok(()) => tally(store, tables, segments, offset, into.len()) == tallied,
        Err(_) => false,
    }
}

/// The copy is one of those that are asked: of this pool, or any where that is 0.
fn is_asked(from: u32, copy: &CopyRow) -> bool
    ensures { result ≡ (from == 0 || copy.now.pool == from) }
{
    from == 0 || copy.pool == from
}

/// Reads the piece from the first of those of these copies that are asked of which no segment is lost; `false` where there is none. How often calls on each copy's files have failed is looked
/// at before any is read.
fn read_any<S: Store>(
    store: &mut S,
    tables: &Tables,
    copies: &[CopyRow],
    from: u32,
    offset: u64,
    into: &mut [u8],
) -> bool
    requires pieces { AllByRecursion (HasPiece (inv_of tables.now) offset (length into.old)) copies.now }
    requires time { S.moment_of store.old + calls_for offset (length into.old) copies.now < 2 ^ 62 }
    ensures told { Told (S.told store.old) (S.told store.new) (ReadsAny copies.now offset into.new result) }
    ensures ends { EndsBy (AllByRecursion (IsCopyLost (RoseAt (S.faults_of store.old) (S.faults_of store.new)) (inv_of tables.now) offset (length into.old)) (asked_copies from copies.now)) result }
    ensures len { length into.new ≡ length into.old }
    ensures brief { S.moment_of store.new ≤ S.moment_of store.old + calls_for offset (length into.old) copies.now }
    ensures later { S.moment_of store.old ≤ S.moment_of store.new }
    ensures counts { NoneFell (S.faults_of store.old) (S.faults_of store.new) }
{
    let [earlier @ .., copy] = copies else {
        return false;
    };
    if !is_asked(from, copy) {
        return read_any(store, tables, earlier, from, offset, into);
    }
    let tallied = tally(store, tables, copy.segments.as_slice(), offset, into.len());
    if read_any(store, tables, earlier, from, offset, into) {
        return true;
    }
    read_one(store, tables, copy, tallied, offset, into)
}

// ---- an object

/// How many bytes a piece has, of what an object of so many bytes has from this byte on.
pub(crate) fn piece_length(wanted: usize, size: u64, offset: u64) -> usize
    ensures { result ≡ piece_length wanted size offset }
{
    size.saturating_sub(offset).min(wanted as u64) as usize
}

/// Reads what this version has of a piece from a copy that has all of it, and answers how many bytes that are; `Unavailable` where each copy that is asked has lost some of it.
fn read_version<S: Store>(
    store: &mut S,
    tables: &Tables,
    version: &Version,
    from: u32,
    offset: u64,
    into: &mut [u8],
) -> Result<usize, Refusal>
    requires there { version_there version.now.object (inv_of tables.now) ≡ Some version.now }
    requires valid { is_valid (inv_of tables.now) ≡ true }
    requires within { offset ≤ version.now.size }
    requires time { S.moment_of store.old + 2 ^ 24 ≤ 2 ^ 62 }
    ensures told { Told (S.told store.old) (S.told store.new) (ReadsObject (Some version.now) offset into.new result) }
    ensures ends { EndsRead (RoseAt (S.faults_of store.old) (S.faults_of store.new)) [] (inv_of tables.now) version.now.object from offset (length into.old) result }
    ensures len { length into.new ≡ length into.old }
    ensures brief { S.moment_of store.new ≤ S.moment_of store.old + 2 ^ 24 }
    ensures later { S.moment_of store.old ≤ S.moment_of store.new }
    ensures counts { NoneFell (S.faults_of store.old) (S.faults_of store.new) }
{
    let count = piece_length(into.len(), version.size.bytes(), offset);
    let copies = version.copies.as_slice();
    if read_any(store, tables, copies, from, offset, &mut into[..count]) {
        Ok(count)
    } else {
        Err(Refusal::Unavailable)
    }
}

/// The copy of a version in a pool.
pub(crate) fn copy_in(pool: u32, version: &Version) -> Option<&CopyRow>
    ensures { option_copied result ≡ copy_in pool version.now }
{
    version
        .copies
        .as_slice()
        .iter()
        .find(|copy| copy.pool == pool)
}

/// The version has a copy in this pool, or any where that is 0.
fn has_copy_in(version: &Version, from: u32) -> bool
    ensures { result ≡ has_copy_in from version.now }
{
    from == 0 || copy_in(from, version).is_some()
}

/// Why a piece of a version isn't read, by what can be seen of the version.
#[tactic(auto, using(item_refusals::proofs::Foremost::foremost_append))]
fn version_refused(version: &Version, kept: &Digest, from: u32, offset: u64) -> Option<Refusal>
    ensures { result ≡ foremost (unless (has_copy_in from version.now) refusal.NotFound
        ++ (unless (nat_le offset version.now.size) bad_value ++ unless (is_same_name version.now.digest.0 kept.now.0) (refusal.DigestDiffers version.now.digest kept.now))) }
{
    let there = unless(has_copy_in(version, from), Refusal::NotFound);
    let within = unless(offset <= version.size.bytes(), bad_value());
    let differs = Refusal::DigestDiffers {
        kept: version.digest,
        given: *kept,
    };
    let same = unless(version.digest == *kept, differs);
    sooner_of(there, sooner_of(within, same))
}

/// The refusal, or the other one where that comes before it.
pub(crate) fn or_sooner(other: Option<Refusal>, refusal: Refusal) -> Refusal
    ensures { Some result ≡ sooner_of other (Some refusal) }
{
    match other {
        Some(other) => other.sooner(refusal),
        None => refusal,
    }
}

impl Parts {
    /// Why an object isn't there: a transaction of the run removed it, or there was none.
    pub(crate) fn gone(&self, object: u64) -> Refusal
        requires { self.now.vault.fault ≡ None }
        ensures { result ≡ gone_or_unknown ((journal_of self.now.base self.now.vault.journal).removed object) }
    {
        match self.past().removed(object) {
            Some(number) => Refusal::Gone(number),
            None => Refusal::NotFound,
        }
    }

    /// What is kept of an object of which a piece is to be read, or why none is.
    fn readable(
        &self,
        object: u64,
        kept: &Digest,
        from: u32,
        offset: u64,
        wanted: usize,
    ) -> Result<&Version, Refusal>
        requires { self.now.vault.fault ≡ None }
        ensures refused { IfErr result (λ e. foremost (read_refused object kept.now from offset wanted (seen_by_all self.now)) ≡ Some e) }
        ensures free { IfOk result (λ w. foremost (read_refused object kept.now from offset wanted (seen_by_all self.now)) ≡ None) }
        ensures found { IfOk result (λ w. version object self.now.vault.database ≡ Some w.now) }
    {
        let few = unless(wanted <= MOST_BYTES, bad_value());
        match self.vault.database().tables().objects.find(object) {
            Some(version) => match sooner_of(few, version_refused(version, kept, from, offset)) {
                Some(refusal) => Err(refusal),
                None => Ok(version),
            },
            None => Err(or_sooner(few, self.gone(object))),
        }
    }

    /// Reads a piece of an object into the front of the buffer, and answers how many bytes that are.
    pub(crate) fn read<S: Store>(
        &self,
        store: &mut S,
        object: u64,
        kept: &Digest,
        from: u32,
        offset: u64,
        into: &mut [u8],
    ) -> Result<usize, Refusal>
        requires running { self.now.vault.fault ≡ None }
        requires time { S.moment_of store.old + 2 ^ 24 ≤ 2 ^ 62 }
        ensures told { Told (S.told store.old) (S.told store.new) (ReadsObject (version object self.now.vault.database) offset into.new result) }
        ensures ends { EndsRead (RoseAt (S.faults_of store.old) (S.faults_of store.new)) (read_refused object kept.now from offset (length into.old) (seen_by_all self.now)) self.now.vault.database object from offset
            (length into.old) result }
        ensures len { length into.new ≡ length into.old }
        ensures brief { S.moment_of store.new ≤ S.moment_of store.old + 2 ^ 24 }
        ensures later { S.moment_of store.old ≤ S.moment_of store.new }
        ensures counts { NoneFell (S.faults_of store.old) (S.faults_of store.new) }
    {
        match self.readable(object, kept, from, offset, into.len()) {
            Ok(version) => {
                let tables = self.vault.database().tables();
                read_version(store, tables, version, from, offset, into)
            }
            Err(refusal) => Err(refusal),
        }
    }
}

impl<S: Store> Hall<S> {
    /// Reads a piece of an object into the front of the buffer: as many bytes as the buffer has, at most 65,536, or as the object has from `offset` on; and answers how many these are. The
    /// object's copies are tried in their order, or with `from` that pool's copy alone; one is passed over where a segment that has bytes of the piece lies on a volume whose access forbids
    /// reading, or where a call on such a segment's file failed; of a piece of no bytes, the segment that has bytes on both sides of `offset`. Refused with `RunFull` where the store's moment is
    /// 2^62 - 2^24 or a later one, with `LogFault` where a fault of the log has halted the hall, with `BadValue` where the buffer is longer or `offset` lies behind the object's end, with
    /// `NotFound` where the object was never there or has no copy in that pool, with `Gone` where a transaction of this run removed it, with `DigestDiffers` where it has another digest than
    /// `kept`, and with `Unavailable` exactly where each copy that is asked has such a segment. It takes no memory, changes nothing, and makes one device call at most for each segment of the
    /// copies that it tries.
    pub fn read_piece(
        &mut self,
        actor: u32,
        object: u64,
        kept: &Digest,
        from: u32,
        offset: u64,
        into: &mut [u8],
    ) -> Result<usize, Refusal>
        ensures step { Steps S.told S.moment_of S.faults_of actor (ReadPiece object kept.now from offset (length into.old) (piece_of result into.new)) self.old self.new }
        ensures listed { is_listed (ReadPiece object kept.now from offset (length into.old) (piece_of result into.new)) ≡ true }
        ensures goes { Goes S.told self.old self.new }
        ensures looks { Looks S.told self.old self.new }
        ensures within { IfOk result (λ count. count ≤ length into.new) }
        ensures len { length into.new ≡ length into.old }
        ensures time { S.moment_of self.new.store ≤ S.moment_of self.old.store + 2 ^ 24 }
        ensures later { S.moment_of self.old.store ≤ S.moment_of self.new.store }
        ensures counts { NoneFell (S.faults_of self.old.store) (S.faults_of self.new.store) }
    {
        if let Some(refusal) = self.parts.ended(self.store.moment()) {
            return Err(refusal);
        }
        pending::<Inventory>();
        self.parts
            .read(&mut self.store, object, kept, from, offset, into)
    }
}
