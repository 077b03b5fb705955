// Commands of volumes.
ghost use Rattle.std.specs.Prelude.{◌≡◌, None};
ghost use Rattle.kinds.specs.Answers.{Answers, AnswersBy};
ghost use Rattle.inventory_answers.specs.declared.query.Query.TheVariants as query;
ghost use Rattle.admin_commands.specs.Orders.{deletion_needs, deletion_work, volume_needs, volume_work, show};
ghost use Rattle.admin_commands.specs.Stores.{mebibytes, capacity_for, new_volume, define_volume, access_changed, update_volume, delete_volume, volume_deleted, may_move, moved, moved_from, move_data};

use crate::found::{
    behind, device_named, number_found, pool_called, pool_named, the_pool, the_volume,
};
use crate::looks::{for_move, one, pool_row, two, volume, volume_row};
use crate::pools::run_found;
use crate::work::{Work, run, run_two};
use admin_words::command::VolumeCommand;
use admin_words::volumes::{
    NamedVolume, VolumeDefinition, VolumeDeletion, VolumeQuery, VolumeUpdate,
};
use entries::Change;
use inventory_answers::{Answer, PoolLine, Query, VolumeLine};
use inventory_rows::is_primary_kind;
use kinds::{Access, Capacity, Name, PoolChange, Refusal, Verb, bad_value};
use std::alloc::Global;

/// A volume that is deleted: its number where its data is discarded, and else its row, with the pools.
fn deletion_needs(alloc: Global, it: &VolumeDeletion) -> Result<Vec<Query>, Refusal>
    ensures { AnswersBy (λ v. v.items) result (deletion_needs it.now) }
{
    if it.discard_data {
        one(alloc, volume(&it.volume)?)
    } else {
        two(alloc, volume_row(&it.volume)?, Query::Pools { pool: None })
    }
}

pub(crate) fn volume_needs(alloc: Global, command: &VolumeCommand) -> Result<Vec<Query>, Refusal>
    ensures { AnswersBy (λ v. v.items) result (volume_needs command.now) }
{
    match command {
        VolumeCommand::AuditVolume(it) => one(alloc, volume(&it.volume)?),
        VolumeCommand::DefineVolume(it) => two(alloc, pool_row(&it.pool)?, Query::Devices),
        VolumeCommand::DeleteVolume(it) => deletion_needs(alloc, it),
        VolumeCommand::MoveData(it) => for_move(alloc, &it.volume, &it.pool),
        VolumeCommand::QueryContent(_) => Ok(Vec::new(alloc)),
        VolumeCommand::QueryVolume(_) => Ok(Vec::new(alloc)),
        VolumeCommand::RestoreVolume(it) => one(alloc, volume(&it.volume)?),
        VolumeCommand::ReuseVolumes => Ok(Vec::new(alloc)),
        VolumeCommand::UpdateVolume(it) => {
            two(alloc, volume_row(&it.volume)?, Query::Pools { pool: None })
        }
    }
}

fn mebibytes(count: u32) -> Option<Capacity>
    ensures { result ≡ mebibytes count }
{
    Capacity::new(count as u64 * 1048576)
}

fn capacity_for(class: Option<Capacity>, format_size: Option<u32>) -> Option<Capacity>
    ensures { result ≡ capacity_for class format_size }
{
    match (class, format_size) {
        (Some(bytes), None) => Some(bytes),
        (Some(_), Some(_)) => None,
        (None, format_size) => mebibytes(format_size.unwrap_or(16)),
    }
}

fn new_volume(volume: &Name, pool: u32, capacity: Option<Capacity>) -> Result<Work, Refusal>
    ensures { Answers result (new_volume volume.now pool capacity) }
{
    match capacity {
        None => Err(bad_value()),
        Some(capacity) => Ok(Work::Commit(Change::Pool(PoolChange::Volume {
            verb: Verb::Define,
            volume: volume.clone()?,
            pool,
            file: 0,
            capacity,
            access: Access::ReadWrite,
        }))),
    }
}

fn define_volume(it: &VolumeDefinition, answers: &[Answer]) -> Result<Work, Refusal>
    ensures { Answers result (define_volume it.now answers.now) }
{
    match the_pool(answers) {
        None => Err(Refusal::NotFound),
        Some(line) => match device_named(behind(answers), &line.class) {
            None => Err(Refusal::NotFound),
            Some(device) => new_volume(
                &it.volume,
                line.number,
                capacity_for(device.capacity, it.format_size),
            ),
        },
    }
}

fn access_changed(it: &VolumeUpdate, pool: u32, old: &VolumeLine) -> Result<Work, Refusal>
    ensures { Answers result (access_changed it.now pool old.now) }
{
    Ok(Work::Commit(Change::Pool(PoolChange::Volume {
        verb: Verb::Update,
        volume: it.volume.clone()?,
        pool,
        file: old.file,
        capacity: old.capacity,
        access: it.access,
    })))
}

fn update_volume(it: &VolumeUpdate, answers: &[Answer]) -> Result<Work, Refusal>
    ensures { Answers result (update_volume it.now answers.now) }
{
    match the_volume(answers) {
        None => Err(Refusal::NotFound),
        Some(old) => match pool_called(behind(answers), &old.pool) {
            None => Err(Refusal::NotFound),
            Some(line) => access_changed(it, line.number, old),
        },
    }
}

fn volume_deleted(volume: &Name, pool: u32, old: &VolumeLine) -> Result<Work, Refusal>
    ensures { Answers result (volume_deleted volume.now pool old.now) }
{
    Ok(Work::Commit(Change::Pool(PoolChange::Volume {
        verb: Verb::Delete,
        volume: volume.clone()?,
        pool,
        file: old.file,
        capacity: old.capacity,
        access: old.access,
    })))
}

fn delete_volume(volume: &Name, answers: &[Answer]) -> Result<Work, Refusal>
    ensures { Answers result (delete_volume volume.now answers.now) }
{
    match the_volume(answers) {
        None => Err(Refusal::NotFound),
        Some(old) => match pool_called(behind(answers), &old.pool) {
            None => Err(Refusal::NotFound),
            Some(line) => volume_deleted(volume, line.number, old),
        },
    }
}

fn deletion_work(alloc: Global, it: &VolumeDeletion, answers: &[Answer]) -> Result<Work, Refusal>
    ensures { Answers result (deletion_work it.now answers.now) }
{
    if it.discard_data {
        run_found(alloc, answers)
    } else {
        delete_volume(&it.volume, answers)
    }
}

fn may_move(own: &PoolLine, to: &PoolLine) -> bool
    ensures { result ≡ may_move own.now to.now }
{
    own.number == to.number || is_primary_kind(own.kind) && is_primary_kind(to.kind)
}

fn moved(alloc: Global, file: u32, own: &PoolLine, to: &PoolLine) -> Result<Work, Refusal>
    ensures { Answers result (moved file own.now to.now) }
{
    if may_move(own, to) {
        run_two(alloc, file, to.number)
    } else {
        Err(Refusal::BadHierarchy)
    }
}

/// The data of this volume moves to the pool that is named; the answers are those with the pools.
fn moved_from(
    alloc: Global,
    volume: &VolumeLine,
    to: &Name,
    answers: &[Answer],
) -> Result<Work, Refusal>
    ensures { Answers result (moved_from volume.now to.now answers.now) }
{
    match pool_called(answers, &volume.pool) {
        None => Err(Refusal::NotFound),
        Some(own) => match pool_named(answers, to) {
            None => Err(Refusal::NotFound),
            Some(to) => moved(alloc, volume.file, own, to),
        },
    }
}

fn move_within(alloc: Global, answers: &[Answer]) -> Result<Work, Refusal>
    ensures { Answers result (move_data None answers.now) }
{
    match number_found(answers) {
        None => Err(Refusal::NotFound),
        Some(file) => run_two(alloc, file, 0),
    }
}

fn move_data(alloc: Global, to: &Option<Name>, answers: &[Answer]) -> Result<Work, Refusal>
    ensures { Answers result (move_data to.now answers.now) }
{
    match to {
        None => move_within(alloc, answers),
        Some(to) => match the_volume(answers) {
            None => Err(Refusal::NotFound),
            Some(volume) => moved_from(alloc, volume, to, behind(answers)),
        },
    }
}

fn show_content(it: &NamedVolume) -> Result<Work, Refusal>
    ensures { Answers result (show (query.Content it.now.volume)) }
{
    Ok(Work::Show(Query::Content {
        volume: it.volume.clone()?,
    }))
}

fn copy_if(name: &Option<Name>) -> Result<Option<Name>, Refusal>
    ensures { AnswersBy (λ n. n) result name.now }
{
    match name {
        None => Ok(None),
        Some(name) => Ok(Some(name.clone()?)),
    }
}

fn show_volumes(it: &VolumeQuery) -> Result<Work, Refusal>
    ensures { Answers result (show (query.Volumes it.now.volume it.now.pool)) }
{
    Ok(Work::Show(Query::Volumes {
        volume: copy_if(&it.volume)?,
        pool: copy_if(&it.pool)?,
    }))
}

pub(crate) fn volume_work(
    alloc: Global,
    command: &VolumeCommand,
    answers: &[Answer],
) -> Result<Work, Refusal>
    ensures { Answers result (volume_work command.now answers.now) }
{
    match command {
        VolumeCommand::AuditVolume(_) => run_found(alloc, answers),
        VolumeCommand::DefineVolume(it) => define_volume(it, answers),
        VolumeCommand::DeleteVolume(it) => deletion_work(alloc, it, answers),
        VolumeCommand::MoveData(it) => move_data(alloc, &it.pool, answers),
        VolumeCommand::QueryContent(it) => show_content(it),
        VolumeCommand::QueryVolume(it) => show_volumes(it),
        VolumeCommand::RestoreVolume(_) => run_found(alloc, answers),
        VolumeCommand::ReuseVolumes => Ok(run(alloc)),
        VolumeCommand::UpdateVolume(it) => update_volume(it, answers),
    }
}
