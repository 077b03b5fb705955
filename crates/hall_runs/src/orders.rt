//! Which processes and commands are turns, by numbers from a seed and by what stands on the machine of plain lists.
use crate::seeds::Seeds;
use inventory_rows::Tables;
use inventory_rows::version_groups::Version;
use inventory_rows::volume_rows::Volume;
use kinds::{Path, Refusal};
use plain_hall::Hall;
use std::alloc::{AllocError, Global};

/// How many paths there are: `/0` and those behind it.
const PATHS: u64 = 8;

/// The pools are 1, of random access, 2 behind it, and 3, a copy pool.
const POOLS: u64 = 3;

/// The number of the access of a volume whose data is lost.
const DESTROYED: u64 = 5;

/// A file is stored.
fn put(alloc: Global, seeds: &mut Seeds) -> Result<String, AllocError> {
    let path = seeds.below(PATHS);
    let mtime = seeds.below(1 << 20);
    let size = match seeds.below(8) {
        0 => 0,
        1 => seeds.below(90_000),
        _ => seeds.below(9000),
    };
    format!(in alloc; "1 PUT /{path} {size} {mtime}")
}

/// The number of the first filespace.
fn filespace(tables: &Tables) -> u32 {
    match tables.objects.filespaces().iter().next() {
        Some((number, _)) => *number,
        None => 0,
    }
}

/// The active version of a path.
fn active<'a>(tables: &'a Tables, path: &Path) -> Option<&'a Version> {
    let group = tables.objects.group(filespace(tables), path)?;
    let versions = group.versions.as_slice();
    versions.iter().find(|version| version.since.is_none())
}

/// The file at a path is gone.
fn gone(alloc: Global, seeds: &mut Seeds, tables: &Tables) -> Result<String, Refusal> {
    let digit = seeds.below(PATHS);
    let text = format!(in alloc; "/{digit}")?;
    let path = Path::read(alloc, text.as_bytes())?;
    let object = match active(tables, &path) {
        Some(version) => version.object,
        None => 0,
    };
    let filespace = filespace(tables);
    let out = format!(in alloc;
        "1 CHANGE 000000000e{filespace:08x}0000000100022f3{digit}{object:016x}"
    )?;
    Ok(out)
}

/// A later day comes, or the same one.
fn day(alloc: Global, seeds: &mut Seeds, tables: &Tables) -> Result<String, AllocError> {
    let day = u64::from(tables.today.number()).saturating_add(seeds.below(9));
    format!(in alloc; "1 CHANGE 0000000001{day:08x}")
}

/// The number of a volume; 0 where there is none.
fn file(seeds: &mut Seeds, tables: &Tables) -> u32 {
    let volumes = tables.pools.volumes();
    let place = seeds.below(volumes.len() as u64) as usize;
    match volumes.iter().nth(place) {
        Some((file, _)) => *file,
        None => 0,
    }
}

/// What may be done with a volume from now on.
fn with_access(
    alloc: Global,
    file: u32,
    volume: &Volume,
    access: u64,
) -> Result<String, AllocError> {
    let name = volume.name.as_bytes();
    let len = name.len();
    let mut out = format!(in alloc; "1 CHANGE 000000000b02{len:04x}")?;
    for byte in name {
        let byte = *byte;
        write!(out, "{byte:02x}")?;
    }
    let pool = volume.pool;
    let capacity = volume.capacity.bytes();
    write!(out, "{pool:08x}{file:08x}{capacity:016x}{access:02x}")?;
    Ok(out)
}

/// A volume is read and written again, or only read, or neither, or it was taken away.
fn access(alloc: Global, seeds: &mut Seeds, tables: &Tables) -> Result<String, AllocError> {
    let access = match seeds.below(8) {
        5 => 2,
        6 => 3,
        7 => 4,
        _ => 1,
    };
    let file = file(seeds, tables);
    match tables.pools.volumes().get(&file) {
        Some(volume) => with_access(alloc, file, volume, access),
        None => format!(in alloc; "1 ask today"),
    }
}

/// A pool is copied into the copy pool.
fn backup(alloc: Global, seeds: &mut Seeds) -> Result<String, AllocError> {
    let pool = seeds.below(2).saturating_add(1);
    format!(in alloc; "1 BACKUP {pool} 3")
}

fn migrate(alloc: Global, seeds: &mut Seeds) -> Result<String, AllocError> {
    let low = seeds.below(20);
    format!(in alloc; "1 MIGRATE 1 {low}")
}

fn reclaim(alloc: Global, seeds: &mut Seeds) -> Result<String, AllocError> {
    let pool = seeds.below(2).saturating_add(2);
    let threshold = seeds.below(60);
    format!(in alloc; "1 RECLAIM {pool} {threshold}")
}

/// What lies on a volume moves, in its pool or to another one.
fn move_data(alloc: Global, seeds: &mut Seeds, tables: &Tables) -> Result<String, AllocError> {
    let file = file(seeds, tables);
    let to = match seeds.below(4) {
        0 => seeds.below(POOLS).saturating_add(1),
        _ => 0,
    };
    format!(in alloc; "1 MOVE {file} {to}")
}

/// What a volume of a primary pool held is lost.
fn destroy(alloc: Global, seeds: &mut Seeds, tables: &Tables) -> Result<String, AllocError> {
    let file = file(seeds, tables);
    match tables.pools.volumes().get(&file) {
        Some(volume) if u64::from(volume.pool) < POOLS => with_access(
            alloc, file, volume, DESTROYED,
        ),
        _ => format!(in alloc; "1 ask today"),
    }
}

/// What is lost of a pool is restored.
fn restore(alloc: Global, seeds: &mut Seeds) -> Result<String, AllocError> {
    let pool = seeds.below(2).saturating_add(1);
    format!(in alloc; "1 RESTORE {pool}")
}

fn restore_volume(alloc: Global, seeds: &mut Seeds, tables: &Tables) -> Result<String, AllocError> {
    let file = file(seeds, tables);
    format!(in alloc; "1 RESTORE_VOLUME {file}")
}

/// A volume goes that isn't the one of random access, with what lies on it or without.
fn delete_volume(alloc: Global, seeds: &mut Seeds, tables: &Tables) -> Result<String, AllocError> {
    let file = file(seeds, tables);
    let discard = seeds.below(2);
    match tables.pools.volumes().get(&file) {
        Some(volume) if volume.pool > 1 => format!(in alloc; "1 DELETE_VOLUME {file} {discard}"),
        _ => format!(in alloc; "1 ask today"),
    }
}

/// Steps of another actor, whose tickets hold room.
fn other(alloc: Global, seeds: &mut Seeds, hall: &Hall) -> Result<String, AllocError> {
    if seeds.below(2) == 0 {
        if let Some((ticket, _)) = hall.tickets.iter().next() {
            let ticket = *ticket;
            return format!(in alloc; "2 drop {ticket}");
        }
    }
    let pool = seeds.below(2).saturating_add(1);
    let size = seeds.below(60_000);
    format!(in alloc; "2 open_new {pool} {size} 0")
}

fn ask(alloc: Global, seeds: &mut Seeds) -> Result<String, AllocError> {
    match seeds.below(4) {
        0 => format!(in alloc; "1 ask unretained"),
        1 => format!(in alloc; "1 ask emptied"),
        _ => {
            let pool = seeds.below(POOLS).saturating_add(1);
            format!(in alloc; "1 ask onpool {pool}")
        }
    }
}

/// What comes seldom.
fn seldom(alloc: Global, seeds: &mut Seeds, tables: &Tables) -> Result<String, AllocError> {
    match seeds.below(16) {
        0 => {
            let filespace = filespace(tables);
            format!(in alloc; "1 DELETE_FILESPACE {filespace}")
        }
        1..=3 => delete_volume(alloc, seeds, tables),
        4..=6 => destroy(alloc, seeds, tables),
        7 | 8 => restore_volume(alloc, seeds, tables),
        9..=12 => restore(alloc, seeds),
        _ => format!(in alloc; "1 CHECKPOINT"),
    }
}

/// Processes that make room, or move what is stored.
fn process(alloc: Global, seeds: &mut Seeds, tables: &Tables) -> Result<String, AllocError> {
    match seeds.below(16) {
        0..=2 => format!(in alloc; "1 EXPIRE"),
        3 | 4 => backup(alloc, seeds),
        5 => migrate(alloc, seeds),
        6 => format!(in alloc; "1 MIGRATE_ALL"),
        7..=9 => reclaim(alloc, seeds),
        10 | 11 => move_data(alloc, seeds, tables),
        12 | 13 => format!(in alloc; "1 REUSE"),
        _ => seldom(alloc, seeds, tables),
    }
}

/// Commands that store, read, and change.
fn command(alloc: Global, seeds: &mut Seeds, hall: &Hall) -> Result<String, Refusal> {
    let tables = hall.inventory.tables();
    match seeds.below(16) {
        0..=6 => Ok(put(alloc, seeds)?),
        7 | 8 => {
            let path = seeds.below(PATHS);
            Ok(format!(in alloc; "1 GET /{path}")?)
        }
        9 | 10 => Ok(day(alloc, seeds, tables)?),
        11 => gone(alloc, seeds, tables),
        12 => Ok(access(alloc, seeds, tables)?),
        13 => Ok(ask(alloc, seeds)?),
        _ => Ok(other(alloc, seeds, hall)?),
    }
}

/// The next turn.
pub fn line(alloc: Global, seeds: &mut Seeds, hall: &Hall) -> Result<String, Refusal> {
    if seeds.below(2) == 0 {
        return command(alloc, seeds, hall);
    }
    Ok(process(alloc, seeds, hall.inventory.tables())?)
}
