// Each law stands on a function that does nothing.
ghost use Rattle.std.specs.Prelude.{◌≡◌, ℕ, Some, None, Option, Ok};
ghost use Rattle.std.specs.List.Sorted.{IsStrictlySortedBy};
ghost use Rattle.std.specs.Map.{keys_of};
ghost use Rattle.std.specs.Ordering.{nat_cmp};
ghost use Rattle.kinds.specs.declared.segment.Segment.{Segment};
ghost use Rattle.volume_rows.specs.declared.volume.Volume.{Volume};
ghost use Rattle.pool_tables.specs.Rows.{row_at, with_row, without_row, edit_row};
ghost use Rattle.pool_rows.specs.PoolRows.{PoolRows, pool_capacity};
ghost use Rattle.pool_rows.specs.Segments.{put_segment, take_segment};
ghost use Rattle.space.specs.declared.site.Site.{Site};
ghost use Rattle.space.specs.Claims.{Claims};
ghost use Rattle.space_index.specs.declared.index.Index.{Index};
ghost use Rattle.space_index.specs.Tails.{base_at, IsIndexWith, IsIndexOf};
ghost use Rattle.space_index.specs.Updates.{ChangesAt, rows_with};

/// What the index doesn't see: whatever becomes of pools and classes, as long as each pool stays sequential or doesn't become it and its volumes
/// as large as they are, and which number the next file gets. And it is the index of rows as soon as each of their sequential volumes is listed as it stands.
pub fn index_stays()
    ensures pools { (i : Index) (s t : PoolRows) (c d : Claims) → t.volumes ≡ s.volumes → ((pool : ℕ) → pool_capacity pool t ≡ pool_capacity pool s) → d.tickets ≡ c.tickets → d.freed ≡ c.freed → IsIndexOf i s c → IsIndexOf i t d }
    ensures settled { (i : Index) (s : PoolRows) (c : Claims) (sites : ℕ → Option Site) → IsIndexWith i s c sites → ((file : ℕ) → sites file ≡ base_at s c.tickets file) → IsIndexOf i s c }
{}

/// What comes, is changed or goes of the rows of volumes is a change at one volume, as the calls of an index ask for it. Of rows that ascend, as
/// those of every value do, none is left of one that went. A segment that comes or goes is a change at its volume.
pub fn rows_change_at()
    ensures comes { (s : PoolRows) (file : ℕ) (v : Volume) → row_at file s.volumes ≡ None → ChangesAt file s (rows_with s (with_row file v s.volumes)) × (row_at file (with_row file v s.volumes) ≡ Some v) }
    ensures changes { (s : PoolRows) (file : ℕ) (edit : Volume → Volume) (v : Volume) → row_at file s.volumes ≡ Some v → ChangesAt file s (rows_with s (edit_row file edit s.volumes)) × (row_at file (edit_row file edit s.volumes) ≡ Some (edit v)) }
    ensures goes { (s : PoolRows) (file : ℕ) → IsStrictlySortedBy nat_cmp (keys_of s.volumes) → ChangesAt file s (rows_with s (without_row file s.volumes)) × (row_at file (without_row file s.volumes) ≡ None) }
    ensures put { (s t : PoolRows) (object : ℕ) (x : Segment) → put_segment object x s ≡ Ok t → ChangesAt x.file s t }
    ensures taken { (s t : PoolRows) (object today : ℕ) (x : Segment) → take_segment object x today s ≡ Ok t → ChangesAt x.file s t }
{}
