ghost use Rattle.std.specs.Prelude.{map};
ghost use Rattle.kinds.specs.Answers.{AnswersBy};
ghost use Rattle.command_words.specs.Rows.{given_view};
ghost use Rattle.admin_words.specs.Volumes.{named_volume, volume_definition, volume_update, volume_deletion, data_move, volume_audit, volume_query};

use crate::words::{is_yes, read_access};
use command_words::{Given, field, text_at};
use kinds::{Access, Name, Refusal};
use std::alloc::Global;

/// A volume by its name.
#[derive(Debug, Drop)]
pub struct NamedVolume {
    pub volume: Name,
}

/// What the values that were given for the row say.
pub fn read_named_volume(
    alloc: Global,
    places: &[Given],
    keys: &[Given],
) -> Result<NamedVolume, Refusal>
    ensures { AnswersBy (λ x. x) result (named_volume (map given_view places.now) (map given_view keys.now)) }
{
    let volume = field::name(alloc, text_at(places, 0))?;
    Ok(NamedVolume { volume })
}

/// DEFINE VOLUME. FORMATSIZE is in mebibytes.
#[derive(Debug, Drop)]
pub struct VolumeDefinition {
    pub pool: Name,
    pub volume: Name,
    pub format_size: Option<u32>,
}

/// What the values that were given for the row say.
pub fn read_volume_definition(
    alloc: Global,
    places: &[Given],
    keys: &[Given],
) -> Result<VolumeDefinition, Refusal>
    ensures { AnswersBy (λ x. x) result (volume_definition (map given_view places.now) (map given_view keys.now)) }
{
    let pool = field::name(alloc, text_at(places, 0))?;
    let volume = field::name(alloc, text_at(places, 1))?;
    Ok(VolumeDefinition {
        pool,
        volume,
        format_size: field::mebibytes(text_at(keys, 0)),
    })
}

/// UPDATE VOLUME.
#[derive(Debug, Drop)]
pub struct VolumeUpdate {
    pub volume: Name,
    pub access: Access,
}

/// What the values that were given for the row say.
pub fn read_volume_update(
    alloc: Global,
    places: &[Given],
    keys: &[Given],
) -> Result<VolumeUpdate, Refusal>
    ensures { AnswersBy (λ x. x) result (volume_update (map given_view places.now) (map given_view keys.now)) }
{
    let volume = field::name(alloc, text_at(places, 0))?;
    Ok(VolumeUpdate {
        volume,
        access: read_access(text_at(keys, 0)).unwrap_or(Access::ReadWrite),
    })
}

/// DELETE VOLUME, with what it holds or only where it is empty.
#[derive(Debug, Drop)]
pub struct VolumeDeletion {
    pub volume: Name,
    pub discard_data: bool,
}

/// What the values that were given for the row say.
pub fn read_volume_deletion(
    alloc: Global,
    places: &[Given],
    keys: &[Given],
) -> Result<VolumeDeletion, Refusal>
    ensures { AnswersBy (λ x. x) result (volume_deletion (map given_view places.now) (map given_view keys.now)) }
{
    let volume = field::name(alloc, text_at(places, 0))?;
    Ok(VolumeDeletion {
        volume,
        discard_data: is_yes(text_at(keys, 0)),
    })
}

/// MOVE DATA: to this pool, or within the volume's own.
#[derive(Debug, Drop)]
pub struct DataMove {
    pub volume: Name,
    pub pool: Option<Name>,
}

/// What the values that were given for the row say.
pub fn read_data_move(alloc: Global, places: &[Given], keys: &[Given]) -> Result<DataMove, Refusal>
    ensures { AnswersBy (λ x. x) result (data_move (map given_view places.now) (map given_view keys.now)) }
{
    let volume = field::name(alloc, text_at(places, 0))?;
    let pool = field::name_if(alloc, text_at(keys, 0))?;
    Ok(DataMove { volume, pool })
}

/// AUDIT VOLUME, which also repairs where that is asked.
#[derive(Debug, Drop)]
pub struct VolumeAudit {
    pub volume: Name,
    pub fix: bool,
}

/// What the values that were given for the row say.
pub fn read_volume_audit(
    alloc: Global,
    places: &[Given],
    keys: &[Given],
) -> Result<VolumeAudit, Refusal>
    ensures { AnswersBy (λ x. x) result (volume_audit (map given_view places.now) (map given_view keys.now)) }
{
    let volume = field::name(alloc, text_at(places, 0))?;
    Ok(VolumeAudit {
        volume,
        fix: is_yes(text_at(keys, 0)),
    })
}

/// QUERY VOLUME: what meets all that is given.
#[derive(Debug, Drop)]
pub struct VolumeQuery {
    pub volume: Option<Name>,
    pub pool: Option<Name>,
}

/// What the values that were given for the row say.
pub fn read_volume_query(
    alloc: Global,
    places: &[Given],
    keys: &[Given],
) -> Result<VolumeQuery, Refusal>
    ensures { AnswersBy (λ x. x) result (volume_query (map given_view places.now) (map given_view keys.now)) }
{
    let volume = field::name_if(alloc, text_at(places, 0))?;
    let pool = field::name_if(alloc, text_at(keys, 0))?;
    Ok(VolumeQuery { volume, pool })
}
