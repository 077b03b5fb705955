// What a database backup holds.
ghost use Rattle.std.specs.Prelude.{◌≡◌, IfOk, IfErr, IfSome, IfNone};
ghost use Rattle.fields.specs.Editions.{Edition};
ghost use Rattle.kinds.specs.declared.refusal.Refusal.TheVariants.{Memory};
ghost use Rattle.entries.specs.Meaning.{Spells};
ghost use Rattle.backup_payloads.specs.Payloads.{IsPayload, IsOnly};

use crate::increment::Increment;
use entries::Database;
use kinds::Refusal;
use std::alloc::Global;

/// What a database backup holds.
#[derive(Drop)]
pub enum Payload<'a, D> {
    /// The whole database.
    Whole(D),
    /// The transactions since another backup.
    Since(Increment<'a>),
}

/// The database whose spelling in one of the two forms the bytes are; none where they are no database's.
fn decode_whole<D: Database>(alloc: Global, bytes: &[u8]) -> Result<Option<D>, Refusal>
    ensures found { IfOk result (λ o. IfSome o (λ d. (form : Edition) × Spells D.meaning form bytes.now d)) }
    ensures none { IfOk result (λ o. IfNone o ((form : Edition) (d : D) → Spells D.meaning form bytes.now d → ⊥)) }
    ensures memory { IfErr result (λ e. e ≡ Memory) }
{
    match D::decode_two(alloc, bytes) {
        Ok(Some(database)) => return Ok(Some(database)),
        Ok(None) => {}
        Err(refusal) => return Err(refusal),
    }
    D::decode_one(alloc, bytes)
}

/// What the backup holds whose payload the bytes are; none where they are no backup's payload. Refused only for want of memory, of
/// which an increment takes none.
pub fn decode<'a, D: Database>(
    alloc: Global,
    bytes: &'a [u8],
) -> Result<Option<Payload<'a, D>>, Refusal>
    ensures found { IfOk result (λ o. IfSome o (λ p. IsPayload D.meaning bytes.now p)) }
    ensures none { IfOk result (λ o. IfNone o ((p : Payload D) → IsPayload D.meaning bytes.now p → ⊥)) }
    ensures only { IfOk result (λ o. IfSome o (λ p. IsOnly D.meaning bytes.now p)) }
    ensures memory { IfErr result (λ e. e ≡ Memory) }
{
    match Increment::read(bytes) {
        Some(increment) => return Ok(Some(Payload::Since(increment))),
        None => {}
    }
    match decode_whole(alloc, bytes) {
        Ok(Some(database)) => Ok(Some(Payload::Whole(database))),
        Ok(None) => Ok(None),
        Err(refusal) => Err(refusal),
    }
}
