//! The last transaction that is told to have emptied a path, by filespace and path.
ghost use Rattle.std.specs.Prelude.{◌≡◌, ◌&&◌, ℕ, List, [], true, IfErr, OnOk};
ghost use Rattle.kinds.specs.declared.refusal.Refusal.TheVariants.{Memory};
ghost use Rattle.run_past.specs.Telling.{is_path};
ghost use Rattle.run_past.specs.Told.{has_path, now_or, told_of_path};

use crate::ledger;
use crate::prepared::PathAt;
use kinds::{Path, Refusal};
use std::alloc::Global;
use std::collections::BTreeMap;
use std::marker::Model;

/// What is told of the paths of one filespace.
#[derive(Drop)]
pub(crate) struct Emptied {
    paths: BTreeMap<Path, Option<u64>>,
}

impl Model for Emptied {
    ghost use Rattle.std.specs.Prelude.{ℕ, List, Option};

    ghost Value = { List (List ℕ × Option ℕ) };

    ghost view = { λ e. e.paths.entries };
}

impl Emptied {
    fn new(alloc: Global) -> Self
        ensures { result ≡ [] }
    {
        Emptied {
            paths: BTreeMap::new(alloc),
        }
    }
}

/// The transaction that is told to have emptied the path, where one is.
pub(crate) fn told(map: &BTreeMap<u32, Emptied>, filespace: u32, path: &Path) -> Option<u64>
    ensures { result ≡ told_of_path filespace path.now map.now.entries }
{
    match map.get(&filespace) {
        Some(emptied) => ledger::told(&emptied.paths, path),
        None => None,
    }
}

/// Takes the memory for a filespace.
fn make_room_in(
    alloc: Global,
    map: &mut BTreeMap<u32, Emptied>,
    filespace: u32,
) -> Result<(), Refusal>
    ensures same { (f : ℕ) (p : List ℕ) → told_of_path f p map.new.entries ≡ told_of_path f p map.old.entries }
    ensures keeps { (f : ℕ) (p : List ℕ) → has_path f p map.old.entries ≡ true → has_path f p map.new.entries ≡ true }
    ensures memory { IfErr result (λ e. e ≡ Memory) }
{
    if map.contains_key(&filespace) {
        return Ok(());
    }
    map.insert(filespace, Emptied::new(alloc))?;
    Ok(())
}

/// Takes the memory for what may be told of the path. Refused only for want of it. The same is told as before.
pub(crate) fn make_room(
    alloc: Global,
    map: &mut BTreeMap<u32, Emptied>,
    at: &PathAt,
) -> Result<(), Refusal>
    ensures same { (f : ℕ) (p : List ℕ) → told_of_path f p map.new.entries ≡ told_of_path f p map.old.entries }
    ensures keeps { (f : ℕ) (p : List ℕ) → has_path f p map.old.entries ≡ true → has_path f p map.new.entries ≡ true }
    ensures room { OnOk result (has_path at.now.filespace at.now.path map.new.entries ≡ true) }
    ensures memory { IfErr result (λ e. e ≡ Memory) }
{
    make_room_in(alloc, map, at.filespace)?;
    match map.get_mut(&at.filespace) {
        Some(emptied) => ledger::make_room(&mut emptied.paths, at.path.clone()?),
        None => Err(Refusal::Memory),
    }
}

/// Tells that this transaction emptied the path, where it did. There has to be room for it.
pub(crate) fn tell(map: &mut BTreeMap<u32, Emptied>, at: &PathAt, did: bool, number: u64)
    requires { has_path at.now.filespace at.now.path map.old.entries ≡ true }
    ensures tells { (f : ℕ) (p : List ℕ) → told_of_path f p map.new.entries ≡ now_or (is_path f p at.now && did) number (told_of_path f p map.old.entries) }
    ensures keeps { (f : ℕ) (p : List ℕ) → has_path f p map.new.entries ≡ has_path f p map.old.entries }
{
    if let Some(emptied) = map.get_mut(&at.filespace) {
        ledger::tell(&mut emptied.paths, &at.path, did, number);
    }
}
