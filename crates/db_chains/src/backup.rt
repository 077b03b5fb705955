// The backup in a file is read.
ghost use Rattle.std.specs.Prelude.{◌≡◌, IfOk, IfErr, IfSome, IfNone};
ghost use Rattle.store_api.specs.Told.{Told};
ghost use Rattle.log_file.specs.Windows.{Onward};
ghost use Rattle.kinds.specs.declared.refusal.Refusal.TheVariants.{Memory as NoMemory};
ghost use Rattle.db_chains.specs.Chains.{IsBackupFile};
ghost use Rattle.db_chains.specs.Looks.{is_backup_file, lasting, IsLasting, Reads, Looks, HoldsKind, HoldsNone, FoundOf};
ghost use Rattle.db_chains.specs.declared.refused.ChainRefused.TheVariants.{Memory as NoRoom};
ghost use Rattle.db_chains.specs.Reads.{MayRefuseChain};

use crate::refused::ChainRefused;
use backup_payloads::{Payload, decode};
use db_image::{Image, Mark};
use entries::Database;
use kinds::{OpenRefused, Refusal};
use log_file::settle;
use std::alloc::Global;
use store_api::Store;

/// The first file that may be a backup's.
const FIRST: u32 = 4;

/// The last one.
const LAST: u32 = u32::MAX - 2;

/// What a backup holds.
#[derive(Drop)]
pub(crate) enum Kind<D> {
    /// The whole database.
    Whole(D),
    /// The transactions behind another backup: the file of that one, and its number.
    Since { after: u32, number: u64 },
}

/// A backup that was read: its number, what it holds, and the payload that says so.
#[derive(Drop)]
pub(crate) struct Found<D> {
    pub(crate) number: u64,
    pub(crate) kind: Kind<D>,
    pub(crate) payload: Vec<u8>,
}

/// Whether the file may be a backup's.
fn is_possible(file: u32) -> bool
    ensures { result ≡ is_backup_file file }
{
    FIRST <= file && file <= LAST
}

/// What a refusal to read a file is of a chain; none where it speaks of the file's bytes.
fn lasting(refused: OpenRefused) -> Option<ChainRefused>
    ensures { result ≡ lasting refused }
{
    match refused {
        OpenRefused::ReadFault(file) => Some(ChainRefused::ReadFault(file)),
        OpenRefused::NotFormatted => None,
        OpenRefused::Damaged(_, _) => None,
        OpenRefused::RunFull => Some(ChainRefused::RunFull),
        OpenRefused::Memory => Some(ChainRefused::Memory),
    }
}

/// The number and the payload of the image of a backup, after the file was made durable; none where it has none.
fn read<S: Store>(
    alloc: Global,
    store: &mut S,
    file: u32,
) -> Result<Option<(u64, Vec<u8>)>, ChainRefused>
    requires possible { IsBackupFile file }
    ensures told { Told (S.told store.old) (S.told store.new) (Reads file result) }
    ensures lasting { IfErr result IsLasting }
    ensures refused { IfErr result (MayRefuseChain (S.faults_of store.old) (S.faults_of store.new) (S.moment_of store.new)) }
    ensures onward { Onward (S.moment_of store.old) (S.moment_of store.new) (S.faults_of store.old) (S.faults_of store.new) }
{
    match settle(store, file) {
        Ok(()) => {}
        Err(unread) => match lasting(unread) {
            Some(refused) => return Err(refused),
            None => return Ok(None),
        },
    }
    match Image::read(alloc, store, file, Mark::Backup) {
        Ok(found) => Ok(found),
        Err(unread) => match lasting(unread) {
            Some(refused) => Err(refused),
            None => Ok(None),
        },
    }
}

/// What the payload of a backup of this number holds; none where it is no payload, or the last transaction that it holds has another number.
fn kind_of<D: Database>(
    alloc: Global,
    number: u64,
    payload: &[u8],
) -> Result<Option<Kind<D>>, Refusal>
    ensures found { IfOk result (λ o. IfSome o (HoldsKind D.meaning payload.now number)) }
    ensures none { IfOk result (λ o. IfNone o (HoldsNone D.meaning payload.now number)) }
    ensures memory { IfErr result (λ e. e ≡ NoMemory) }
{
    match decode::<D>(alloc, payload) {
        Ok(Some(Payload::Whole(database))) => {
            if database.number() == number {
                Ok(Some(Kind::Whole(database)))
            } else {
                Ok(None)
            }
        }
        Ok(Some(Payload::Since(increment))) => {
            if increment.last_number() == number {
                Ok(Some(Kind::Since {
                    after: increment.after(),
                    number: increment.number(),
                }))
            } else {
                Ok(None)
            }
        }
        Ok(None) => Ok(None),
        Err(refusal) => Err(refusal),
    }
}

/// The backup whose image was read; none where its payload holds nothing whose last transaction has its number.
fn found_of<D: Database>(
    alloc: Global,
    image: (u64, Vec<u8>),
) -> Result<Option<Found<D>>, ChainRefused>
    ensures found { FoundOf D.meaning image result }
    ensures memory { IfErr result (λ e. e ≡ NoRoom) }
{
    let (number, payload) = image;
    match kind_of::<D>(alloc, number, &payload) {
        Ok(Some(kind)) => Ok(Some(Found {
            number,
            kind,
            payload,
        })),
        Ok(None) => Ok(None),
        Err(_) => Err(ChainRefused::Memory),
    }
}

/// The backup in a file, after the file was made durable; none where it has none.
pub(crate) fn look<D: Database, S: Store>(
    alloc: Global,
    store: &mut S,
    file: u32,
) -> Result<Option<Found<D>>, ChainRefused>
    ensures told { Told (S.told store.old) (S.told store.new) (Looks D.meaning file result) }
    ensures lasting { IfErr result IsLasting }
    ensures refused { IfErr result (MayRefuseChain (S.faults_of store.old) (S.faults_of store.new) (S.moment_of store.new)) }
    ensures onward { Onward (S.moment_of store.old) (S.moment_of store.new) (S.faults_of store.old) (S.faults_of store.new) }
{
    if !is_possible(file) {
        return Ok(None);
    }
    match read(alloc, store, file) {
        Ok(Some(image)) => found_of(alloc, image),
        Ok(None) => Ok(None),
        Err(refused) => Err(refused),
    }
}
