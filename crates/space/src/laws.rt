// What the definitions of free space come to, as laws. Each stands on a function that does nothing.
ghost use Rattle.std.specs.Prelude.{◌≡◌, ◌≤◌, ℕ, List};
ghost use Rattle.std.specs.List.{AllByRecursion};
ghost use Rattle.pool_rows.specs.volume_rows.declared.volume.Volume.{Volume};
ghost use Rattle.space.specs.declared.counted.Counted.{Counted};
ghost use Rattle.space.specs.declared.piece.Piece.{Piece};
ghost use Rattle.space.specs.Pieces.{free_pieces, filled, room};
ghost use Rattle.space.specs.Lawful.{IsFree, IsFrontOf};

/// The free space of a volume of random access begins with blocks, lies within the volume, and has no block in common with what counts as used.
pub fn free_space_is_free()
    ensures { (c : Counted) (f : ℕ × Volume) → AllByRecursion (IsFree c f) (free_pieces c f) }
{}

/// An object that has room gets as many bytes as it has, each of its pieces the front of a free one.
#[tactic(auto, using(crate::proofs::Free::filled_whole, crate::proofs::Free::filled_fronts))]
pub fn filled_space_is_enough()
    ensures whole { (size : ℕ) (free : List Piece) → size ≤ room free → room (filled size free) ≡ size }
    ensures fronts { (size : ℕ) (free : List Piece) → AllByRecursion (IsFrontOf free) (filled size free) }
{}
