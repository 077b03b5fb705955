// Each law stands on a function that does nothing.
ghost use Rattle.std.specs.Prelude.{◌≡◌, ◌-◌, ◌<◌, ◌≤◌, ℕ, true, false, is_some, Some, Ok, List};
ghost use Rattle.std.specs.List.{AllByRecursion};
ghost use Rattle.std.specs.List.Sorted.{IsStrictlySortedBy};
ghost use Rattle.std.specs.Map.{keys_of};
ghost use Rattle.std.specs.Ordering.{nat_cmp};
ghost use Rattle.inventory_rows.specs.volume_rows.declared.volume.Volume.{Volume};
ghost use Rattle.inventory_rows.specs.pool_tables.Rows.{row_at};
ghost use Rattle.inventory_rows.specs.pool_rows.PoolRows.{PoolRows, is_sequential};
ghost use Rattle.inventory_rows.specs.State.{Inv};
ghost use Rattle.inventory_rules.specs.Held.{IsTied};
ghost use Rattle.inventory_rules.specs.Valid.{volumes_are};
ghost use Rattle.space.specs.declared.counted.Counted.{Counted};
ghost use Rattle.space.specs.declared.places.Placed.{Placed};
ghost use Rattle.space.specs.declared.request.Request.{Request};
ghost use Rattle.space.specs.declared.site.Site.{Site};
ghost use Rattle.space.specs.Claims.{Claims, counted, without_others, own_alone};
ghost use Rattle.space.specs.Pieces.{free_pieces, tail_piece};
ghost use Rattle.space.specs.Placing.{choose, walked, pool_for, ticket_in, unforced_in, random_among};
ghost use Rattle.space.specs.Volumes.{sites, has_tail};
ghost use Rattle.space_laws.specs.Apart.{AllApart};
ghost use Rattle.space_laws.specs.Chosen.{IsWhole};
ghost use Rattle.space_laws.specs.Ending.{EndsBefore};
ghost use Rattle.space_laws.specs.Fitting.{FitsThere};
ghost use Rattle.space_laws.specs.Holding.{AreInPools, AreFreedInPools};

/// A segment in the free space of a volume of random access fits where a transaction that brings it is judged: it lies on a volume of the pool,
/// within its capacity, begins with a block, and overlaps no segment of a copy. The database's volumes hold the segments of its copies, as
/// those of every valid one do.
pub fn free_space_fits()
    ensures { (v : Inv) (c : Counted) (file : ℕ) (volume : Volume) → IsTied v → row_at file v.stores.volumes ≡ Some volume → is_sequential volume.pool v.stores ≡ false
        → AllByRecursion (FitsThere v volume.pool) (free_pieces c (file, volume)) }
{}

/// The same behind the end of a sequential volume, as it is seen with what tickets hold on it: the segments of its copies end at or below its
/// end, as on every volume of a valid database.
pub fn tails_fit()
    ensures { (v : Inv) (c : Counted) (file : ℕ) (volume : Volume) (site : Site) → volumes_are v ≡ true → row_at file v.stores.volumes ≡ Some volume → is_sequential volume.pool v.stores ≡ true
        → row_at file (sites v.stores c) ≡ Some site → has_tail site ≡ true → FitsThere v volume.pool (tail_piece (file, site)) }
{}

/// And at the beginning of a sequential volume on which nothing was written, as a scratch volume is which the transaction has made: `v` is the
/// database with it. A further block fits on the volume.
pub fn scratch_fits()
    ensures { (v : Inv) (file : ℕ) (volume : Volume) → volumes_are v ≡ true → row_at file v.stores.volumes ≡ Some volume → is_sequential volume.pool v.stores ≡ true → volume.end ≡ 0 → 4096 ≤ volume.capacity
        → FitsThere v volume.pool (record { file = file; offset = 0; room = volume.capacity - 32 }) }
{}

/// What an object gets has its bytes, in the first pool of its hierarchy that may take it and has room for it.
pub fn chosen_whole()
    ensures { (r : Request) (s : PoolRows) (claims : Claims) (places : List Placed) → choose r s claims ≡ Ok places → IsWhole r s claims places }
{}

/// A volume as it is seen ends behind each segment that the actor's own tickets hold on it, so that what is written next meets none of them. A
/// volume on which another actor's ticket has space isn't written at all.
pub fn own_segments_end()
    ensures { (s : PoolRows) (c : Counted) → AllByRecursion (EndsBefore (sites s c)) c.own }
{}

/// No two of the places that an object gets have a byte in common: they lie on different volumes, or the frame of the earlier ends where the
/// later begins, or before. The volumes ascend by file number, those too that tickets have drawn, as they do in every value of the rows and in
/// what `sites` answers, and the next file number is above all of them: so a new scratch volume is none that is there.
pub fn chosen_places_apart()
    ensures { (r : Request) (s : PoolRows) (claims : Claims) (places : List Placed) → IsWhole r s claims places → IsStrictlySortedBy nat_cmp (keys_of s.volumes) → IsStrictlySortedBy nat_cmp (keys_of (sites s (counted r.actor claims)))
        → AllByRecursion (λ k. k < claims.next_file) (keys_of (sites s (counted r.actor claims))) → AllApart places }
{}

/// Where no pool has a place, but one would have if other actors' tickets were gone, one of these tickets holds space in the pools that are
/// walked, so that the answer is Busy and not NoSpace. Each volume is of one pool, whichever row or ticket names it.
pub fn holder_is_found()
    ensures { (pool_of : ℕ → ℕ) (r : Request) (s : PoolRows) (claims : Claims) → AreInPools pool_of s (counted r.actor claims) → is_some (pool_for r claims.next_file (counted r.actor claims) s) ≡ false
        → is_some (pool_for r claims.next_file (without_others (counted r.actor claims)) s) ≡ true → is_some (ticket_in (walked r.aim s) r.actor claims) ≡ true }
{}

/// And where one would have if what transactions free were forced, one of these transactions took segments away in the pools of random access
/// that are walked.
pub fn unforced_is_found()
    ensures { (pool_of : ℕ → ℕ) (r : Request) (s : PoolRows) (claims : Claims) → AreFreedInPools pool_of s claims → is_some (pool_for r claims.next_file (without_others (counted r.actor claims)) s) ≡ false
        → is_some (pool_for r claims.next_file (own_alone (counted r.actor claims)) s) ≡ true → is_some (unforced_in (random_among (walked r.aim s) s) claims) ≡ true }
{}
