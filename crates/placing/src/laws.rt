// What the places of files come to. Each law stands on a function that does nothing.
ghost use Rattle.std.specs.Prelude.{◌≡◌, ℕ, List};
ghost use Rattle.inventory_rows.specs.volume_rows.declared.held.HeldSegment.{HeldSegment};
ghost use Rattle.placing.specs.Laws.{HasRoomForFrame, IsWhole};
ghost use Rattle.placing.specs.Placing.{block_bytes, blocks_end};

/// A file's blocks have room for its header of 32 bytes and its data, and are whole.
#[tactic(auto, using(crate::proofs::Whole::frame_fits, crate::proofs::Whole::file_whole))]
pub fn blocks_hold_frames()
    ensures room { (len : ℕ) → HasRoomForFrame len }
    ensures whole { (len : ℕ) → IsWhole (block_bytes len) }
{}

/// The blocks in use of a volume are whole, so that a file behind them begins with a block.
#[tactic(auto, using(crate::proofs::Whole::blocks_whole))]
pub fn files_begin_with_a_block()
    ensures { (held : List (HeldSegment × ℕ)) → IsWhole (blocks_end held) }
{}
