// The lists of the volumes of sequential pools.
ghost use Rattle.std.specs.Prelude.{◌≡◌, ◌≢◌, ℕ, Some, None, Option, OnOk};
ghost use Rattle.std.specs.Option.{option_map};
ghost use Rattle.pool_tables.specs.Rows.{row_at};
ghost use Rattle.space.specs.declared.site.Site.{Site};
ghost use Rattle.space_index.specs.declared.by_pool.Home.{Home};
ghost use Rattle.space_index.specs.declared.held.Held.{Held};
ghost use Rattle.space_index.specs.Claimed.{with_held};
ghost use Rattle.space_index.specs.Listed.{IsSetAt};
ghost use Rattle.space_index.specs.Tails.{AreElse, tail_room, filling_room, empty_room, scratch_room, home_by, own_home, AreLists, IsListing, IsOwnListing};

use crate::by_pool::{Home, Listing};
use crate::held::Held;
use space::Site;
use std::alloc::{AllocError, Global};
use std::collections::BTreeMap;

/// The volumes of each sequential pool that can be written.
#[derive(Drop)]
pub struct Lists {
    alloc: Global,
    /// Those that are FILLING and on which no ticket has space, with their room in bytes.
    pub(crate) filling: Listing,
    /// Those that are EMPTY and on which no ticket has space.
    pub(crate) empty: Listing,
    /// The scratch volumes, those among them that tickets have drawn, each with 1.
    pub(crate) scratch: Listing,
    /// By an actor's number, those on which its tickets alone have space: they are FILLING then.
    pub(crate) own: BTreeMap<u128, Listing>,
}

fn tail_room(passes: bool, site: &Site) -> u64
    ensures { result ≡ tail_room passes site.now }
{
    if !site.is_writable {
        return 0;
    }
    if !passes {
        return 0;
    }
    if !site.has_tail() {
        return 0;
    }
    site.capacity - site.end as u64 - 32
}

fn filling_home(site: Option<Site>) -> Option<Home>
    ensures { result ≡ home_by filling_room site }
{
    match site {
        Some(site) => Some(Home {
            pool: site.pool,
            room: tail_room(site.is_filling(), &site),
        }),
        None => None,
    }
}

fn empty_home(site: Option<Site>) -> Option<Home>
    ensures { result ≡ home_by empty_room site }
{
    match site {
        Some(site) => Some(Home {
            pool: site.pool,
            room: tail_room(site.is_empty(), &site),
        }),
        None => None,
    }
}

fn scratch_home(site: Option<Site>) -> Option<Home>
    ensures { result ≡ home_by scratch_room site }
{
    match site {
        Some(site) => Some(Home {
            pool: site.pool,
            room: if site.scratch { 1 } else { 0 },
        }),
        None => None,
    }
}

/// A volume on which this actor's tickets alone have space.
fn own_home(held: &Held, site: Option<Site>) -> Option<Home>
    ensures { result ≡ home_by filling_room (option_map (with_held held.now) site) }
{
    match site {
        Some(site) => filling_home(Some(held.on(site))),
        None => None,
    }
}

/// An actor's list is taken out, or an empty one is made.
fn list_of(alloc: Global, own: &mut BTreeMap<u128, Listing>, actor: u128) -> Listing
    ensures gone { IsSetAt actor None own.old.entries own.new.entries }
    ensures was { (homes : ℕ → Option Home) → IsOwnListing (row_at actor own.old.entries) homes → IsListing result homes }
{
    match own.remove(&actor) {
        Some(listing) => listing,
        None => Listing::new(alloc),
    }
}

/// This is an actor's list now.
fn keep(own: &mut BTreeMap<u128, Listing>, actor: u128, listing: Listing) -> Result<(), AllocError>
    ensures { OnOk result (IsSetAt actor (Some listing) own.old.entries own.new.entries) }
{
    own.insert(actor, listing)?;
    Ok(())
}

/// A volume stands so in an actor's list now, which is kept while there is something in it.
fn set_for(
    alloc: Global,
    own: &mut BTreeMap<u128, Listing>,
    actor: u128,
    file: u32,
    home: Option<Home>,
) -> Result<(), AllocError>
    ensures here { (homes others : ℕ → Option Home) → IsOwnListing (row_at actor own.old.entries) homes → AreElse file homes others → others file ≡ home → OnOk result (IsOwnListing (row_at actor own.new.entries) others) }
    ensures others { OnOk result ((q : ℕ) → q ≢ actor → row_at q own.new.entries ≡ row_at q own.old.entries) }
{
    let mut listing = list_of(alloc, own, actor);
    listing.set(file, home)?;
    if listing.is_empty() {
        return Ok(());
    }
    keep(own, actor, listing)?;
    Ok(())
}

/// A volume stands so in the list of the one actor whose tickets have space there.
fn set_own(
    alloc: Global,
    own: &mut BTreeMap<u128, Listing>,
    file: u32,
    site: Option<Site>,
    held: &Held,
) -> Result<(), AllocError>
    ensures { (actor : ℕ) (sites others : ℕ → Option Site) (helds : ℕ → Option Held) → IsOwnListing (row_at actor own.old.entries) (λ q. own_home actor (sites q) (helds q)) → AreElse file sites others → others file ≡ site → helds file ≡ Some held.now
        → OnOk result (IsOwnListing (row_at actor own.new.entries) (λ q. own_home actor (others q) (helds q))) }
{
    let Some(actor) = held.lone() else {
        return Ok(());
    };
    set_for(alloc, own, actor, file, own_home(held, site))?;
    Ok(())
}

impl Lists {
    /// No volumes. It takes no memory.
    pub fn new(alloc: Global) -> Self
        ensures { (helds : ℕ → Option Held) → AreLists result (λ file. None) helds }
    {
        Lists {
            alloc,
            filling: Listing::new(alloc),
            empty: Listing::new(alloc),
            scratch: Listing::new(alloc),
            own: BTreeMap::new(alloc),
        }
    }

    /// A volume on which no ticket has space stands so now, or is no sequential one any more.
    pub fn set_open(&mut self, file: u32, site: Option<Site>) -> Result<(), AllocError>
        ensures { (sites others : ℕ → Option Site) (helds : ℕ → Option Held) → AreLists self.old sites helds → AreElse file sites others → others file ≡ site → helds file ≡ None → OnOk result (AreLists self.new others helds) }
    {
        self.filling.set(file, filling_home(site))?;
        self.empty.set(file, empty_home(site))?;
        self.scratch.set(file, scratch_home(site))?;
        Ok(())
    }

    /// A volume on which tickets have space stands so now, or is no sequential one any more.
    pub fn set_held(&mut self, file: u32, site: Option<Site>, held: &Held) -> Result<(), AllocError>
        ensures { (sites others : ℕ → Option Site) (helds : ℕ → Option Held) → AreLists self.old sites helds → AreElse file sites others → others file ≡ site → helds file ≡ Some held.now → OnOk result (AreLists self.new others helds) }
    {
        self.filling.set(file, None)?;
        self.empty.set(file, None)?;
        self.scratch.set(file, scratch_home(site))?;
        set_own(self.alloc, &mut self.own, file, site, held)?;
        Ok(())
    }
}
