// What the definitions mean for the layers above, as laws. Each stands on a function that does nothing.
ghost use Rattle.std.specs.Prelude.{◌≡◌, ◌≢◌, ◌⊎◌, ℕ, ◌+◌, ◌<◌, ◌≤◌, ◌^◌, ◌++◌, Bool, IsTrue, List, length};
ghost use Rattle.std.specs.List.{AllByRecursion};
ghost use Rattle.fields.specs.Forms.{IsBytes};
ghost use Rattle.store_api.specs.Disk.{History, Leaves, standing, reads, settled, now, ImageAt};
ghost use Rattle.store_api.specs.Runs.{GoesOn, EachImage};
ghost use Rattle.log_file.specs.Blocks.{Fits, block, blocks, LogIs, LogEnds, DamagedAt};
ghost use Rattle.log_file.specs.Sure.{IsSure};

/// Bytes are a log of one list of records at most, and they are no log where they are damaged. One that ends within the
/// bytes is a log of those records.
pub fn one_log()
    ensures one { (bytes : List ℕ) (payloads others : List (List ℕ)) → LogIs bytes payloads → LogIs bytes others → payloads ≡ others }
    ensures damaged { (bytes : List ℕ) (payloads others : List (List ℕ)) (at : ℕ) → LogIs bytes payloads → DamagedAt bytes others at → ⊥ }
    ensures place { (bytes : List ℕ) (payloads others : List (List ℕ)) (at place : ℕ) → DamagedAt bytes payloads at → DamagedAt bytes others place → (payloads ≡ others) × (at ≡ place) }
    ensures ends { (bytes : List ℕ) (payloads : List (List ℕ)) → LogEnds bytes payloads → LogIs bytes payloads }
{}

/// Records that stand at the start of a log are its first ones.
pub fn log_front()
    ensures { (bytes rest : List ℕ) (payloads others : List (List ℕ)) → LogIs bytes payloads → AllByRecursion Fits others → bytes ≡ blocks others ++ rest → (more : List (List ℕ)) × (payloads ≡ others ++ more) }
{}

/// Any bytes are a log or damaged.
pub fn log_or_damaged()
    ensures { (bytes : List ℕ) → IsBytes bytes → (payloads : List (List ℕ)) × (LogIs bytes payloads ⊎ ((at : ℕ) × DamagedAt bytes payloads at)) }
{}

/// A log is sure exactly where its file is left with it by each stop right now, with one gate at its end; so it reads, and
/// so has each image of now.
pub fn sure_is_left()
    ensures reads { (h : History) (file : ℕ) (payloads : List (List ℕ)) (end : ℕ) → IsSure h file payloads end → LogEnds (reads h file) payloads × (end ≡ length (blocks payloads)) }
    ensures left { (h : History) (file : ℕ) (payloads : List (List ℕ)) (end : ℕ) (left : List ℕ) → IsSure h file payloads end → Leaves (standing h file) left → LogEnds left payloads }
    ensures images { (h : History) (file : ℕ) (payloads : List (List ℕ)) (end : ℕ) (image : ℕ → List ℕ) → IsSure h file payloads end → ImageAt h (now h) image → LogEnds (image file) payloads }
    ensures settled { (h : History) (file : ℕ) (bytes : List ℕ) (payloads : List (List ℕ)) → standing h file ≡ settled bytes → length bytes < 2 ^ 64 → LogEnds bytes payloads → IsSure h file payloads (length (blocks payloads)) }
{}

/// A run on other files keeps a log sure, and each image since has it.
pub fn other_files()
    ensures sure { (theirs : ℕ → Bool) (old new : History) (file : ℕ) (payloads : List (List ℕ)) (end : ℕ) →
        GoesOn (λ f. IsTrue (theirs f)) old new → ¬ IsTrue (theirs file) → IsSure old file payloads end → IsSure new file payloads end }
    ensures images { (theirs : ℕ → Bool) (old new : History) (file : ℕ) (payloads : List (List ℕ)) (end : ℕ) →
        GoesOn (λ f. IsTrue (theirs f)) old new → ¬ IsTrue (theirs file) → IsSure old file payloads end →
        EachImage (now old) new (λ image. LogEnds (image file) payloads) }
{}

/// The same of a run on one other file.
pub fn another_file()
    ensures sure { (other file : ℕ) (old new : History) (payloads : List (List ℕ)) (end : ℕ) →
        GoesOn (λ f. f ≡ other) old new → file ≢ other → IsSure old file payloads end → IsSure new file payloads end }
    ensures images { (other file : ℕ) (old new : History) (payloads : List (List ℕ)) (end : ℕ) →
        GoesOn (λ f. f ≡ other) old new → file ≢ other → IsSure old file payloads end →
        EachImage (now old) new (λ image. LogEnds (image file) payloads) }
{}

/// How many bytes a record takes: its gate, its length in four bytes, and its own.
pub fn block_len()
    ensures { (payload : List ℕ) → length (block payload) ≡ 5 + length payload }
{}
