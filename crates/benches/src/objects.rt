//! Inserts versions of many paths of one filespace, finds them, and removes half of them, so that many can be timed against few.
//! It prints how many versions were inserted, found and removed.

use kinds::{
    Day, DefineOrDelete, Digest, FilespaceName, Name, NodeName, ObjectChange, ObjectSize, Path,
    Refusal, Segment, Segments,
};
use object_rows::Objects;
use std::alloc::Global;
use std::io;
use version_groups::{Copies, CopyRow, Version};

/// How many versions there are, where no number is given, and how many steps are made: 1 makes the paths, 2 inserts too, 3 finds
/// too, 4 removes too.
pub(crate) const USUAL_COUNT: u32 = 1024;

pub(crate) const ALL_STEPS: u32 = 4;

/// How many versions a path has.
const VERSIONS: u32 = 4;

/// What was done.
struct Totals {
    inserted: u32,
    found: u32,
    removed: u32,
}

/// The path with this number.
fn path(alloc: Global, number: u32) -> Result<Path, Refusal> {
    let text = format!(in alloc; "/{number:07}")?;
    Path::read(alloc, text.as_bytes())
}

/// The copies of an object: one of one segment.
fn copies(alloc: Global, object: u32) -> Result<Copies, Refusal> {
    let segment = Segment {
        file: 4,
        offset: object as u64,
        len: 5,
    };
    let rows = vec![in alloc;
        CopyRow {
            pool: 1,
            placed: 1,
            segments: Segments::new(vec![in alloc; segment]?)
        },
    ]?;
    match Copies::from_vec(rows) {
        Some(copies) => Ok(copies),
        None => Ok(Copies::new(alloc)),
    }
}

/// Defines the node 1.
fn define_node(alloc: Global, objects: &mut Objects) -> Result<(), Refusal> {
    let node = NodeName::read(alloc, b"N", 64)?;
    let domain = Name::read(alloc, b"STANDARD", 30)?;
    let change = ObjectChange::Node {
        verb: DefineOrDelete::Define,
        node,
        domain,
    };
    let defined = define(objects, &change);
    drop(change);
    defined
}

/// Defines the filespace 1 of the node 1.
fn define_filespace(alloc: Global, objects: &mut Objects) -> Result<(), Refusal> {
    let change = ObjectChange::Filespace {
        verb: DefineOrDelete::Define,
        node: 1,
        name: FilespaceName::read(alloc, b"/home")?,
        filespace: 1,
    };
    let defined = define(objects, &change);
    drop(change);
    defined
}

/// Makes a change of which the number 1 is not in use.
fn define(objects: &mut Objects, change: &ObjectChange) -> Result<(), Refusal> {
    let taken = match change {
        ObjectChange::Node { .. } => objects.nodes().contains_key(&1),
        ObjectChange::Filespace { filespace, .. } => objects.filespaces().contains_key(filespace),
    };
    if taken {
        return Err(Refusal::Exists);
    }
    objects.change(change, 1)
}

fn five_bytes() -> ObjectSize {
    let Some(size) = ObjectSize::new(5) else {
        unreachable!()
    };
    size
}

/// Inserts the version with this number, if it is new.
fn insert(
    alloc: Global,
    objects: &mut Objects,
    path: &Path,
    class: &Name,
    number: u32,
) -> Result<u32, Refusal> {
    let object = number as u64;
    if objects.has_object(object) {
        return Ok(0);
    }
    let version = Version {
        object,
        size: five_bytes(),
        mtime: 7,
        digest: Digest([0; 32]),
        stored: Day::default(),
        since: None,
        copies: copies(alloc, number)?,
    };
    objects.insert(1, path, class, version)?;
    Ok(1)
}

/// The paths that so many versions have.
fn paths(alloc: Global, count: u32) -> Result<Vec<Path>, Refusal> {
    let mut paths = Vec::new(alloc);
    for number in 0..count / VERSIONS {
        paths.push(path(alloc, number)?)?;
    }
    Ok(paths)
}

/// Inserts so many versions: one of each path, and then again.
fn insert_all(
    alloc: Global,
    objects: &mut Objects,
    paths: &[Path],
    count: u32,
) -> Result<u32, Refusal> {
    let class = Name::read(alloc, b"STANDARD", 30)?;
    let mut inserted: u32 = 0;
    if paths.is_empty() {
        return Ok(0);
    }
    for number in 0..count {
        if let Some(path) = paths.get(number as usize % paths.len()) {
            inserted = inserted.wrapping_add(insert(alloc, objects, path, &class, number)?);
        }
    }
    Ok(inserted)
}

/// How many of the numbers below this one are found.
fn find_all(objects: &Objects, count: u32) -> u32 {
    let mut found: u32 = 0;
    for number in 0..count {
        if objects.find(number as u64).is_some() {
            found = found.wrapping_add(1);
        }
    }
    found
}

/// Removes each version with an even number, and says how many.
fn remove_half(objects: &mut Objects, paths: &[Path], count: u32) -> u32 {
    let mut removed: u32 = 0;
    if paths.is_empty() {
        return 0;
    }
    for number in 0..count {
        if number % 2 == 0
            && let Some(path) = paths.get(number as usize % paths.len())
        {
            if objects.remove(1, path, number as u64).is_ok() {
                removed = removed.wrapping_add(1);
            }
        }
    }
    removed
}

/// The steps behind the first, where there are no objects yet.
fn run_over(
    alloc: Global,
    objects: &mut Objects,
    paths: &[Path],
    count: u32,
    steps: u32,
) -> Result<Totals, Refusal> {
    define_node(alloc, objects)?;
    define_filespace(alloc, objects)?;
    let inserted = if steps < 2 {
        0
    } else {
        insert_all(alloc, objects, paths, count)?
    };
    let found = if steps < 3 {
        0
    } else {
        find_all(objects, count)
    };
    let removed = if steps < 4 {
        0
    } else {
        remove_half(objects, paths, count)
    };
    Ok(Totals {
        inserted,
        found,
        removed,
    })
}

fn run(alloc: Global, count: u32, steps: u32) -> Result<Totals, Refusal> {
    let paths = paths(alloc, count)?;
    let mut objects = Objects::new(alloc);
    let totals = run_over(alloc, &mut objects, paths.as_slice(), count, steps);
    drop(objects);
    totals
}

/// Makes the steps up to this one with so many versions.
pub(crate) fn report(rt: &impl Print, alloc: Global, count: u32, steps: u32) -> io::Result<()> {
    match run(alloc, count, steps) {
        Ok(
            Totals {
                inserted,
                found,
                removed,
            },
        ) => println!(rt; "{inserted} inserted, {found} found, {removed} removed"),
        Err(Refusal::InventoryFull) => println!(rt; "no room for more versions"),
        Err(_) => println!(rt; "want of memory"),
    }
}
