// What the definitions mean for the layers above, as laws. Each stands on a function that does nothing.
ghost use Rattle.std.specs.Prelude.{◌≡◌, ◌↔◌, ℕ, ◌+◌, ◌≤◌, min, Bool, IsTrue, List, length, take, Result};
ghost use Rattle.store_api.specs.declared.store.Failed.{Failed};
ghost use Rattle.store_api.specs.Disk.{History, Call, Change, on, write, settle, Leaves, settled, standing, reads, now, with_call, back, ImageAt};
ghost use Rattle.store_api.specs.Runs.{Stands, Firm, GoesOn, EachImage, LeftNow, WroteWithin, AgreesOutside};
ghost use Rattle.store_api.specs.Told.{MayWrite, MayCut, MaySync, StopsAs};

/// What a stop may leave after a write, one that failed included, is what it might have left before it, with the range
/// that was to be written changed at will, and anything past the stable length. After a write that succeeded all of
/// that may be left.
pub fn after_write()
    ensures only { (h : History) (file at : ℕ) (bytes : List ℕ) (result : Result (Unit {0}) Failed) (call : Call) (left : List ℕ) →
        MayWrite file at bytes result call → Leaves (standing (with_call call h) file) left →
        (before : List ℕ) × Leaves (standing h file) before × AgreesOutside at (length bytes) (standing h file).stable before left }
    ensures all { (h : History) (file at : ℕ) (bytes before left : List ℕ) →
        Leaves (standing h file) before → AgreesOutside at (length bytes) (standing h file).stable before left →
        Leaves (standing (with_call (on file (write at (length bytes) bytes)) h) file) left }
{}

/// What a stop may leave after a cut, one that failed included, is what it might have left before it, changed at will
/// from the length on that was asked for.
pub fn after_cut()
    ensures { (h : History) (file len : ℕ) (result : Result (Unit {0}) Failed) (call : Call) (left : List ℕ) →
        MayCut file len result call → Leaves (standing (with_call call h) file) left →
        (before : List ℕ) × Leaves (standing h file) before × AgreesOutside 0 0 (min len (standing h file).stable) before left }
{}

/// After a sync that succeeded a stop leaves what the file reads as, and perhaps more behind it. One that failed changes
/// nothing of what a stop may leave.
pub fn after_sync()
    ensures ok { (h : History) (file : ℕ) (left : List ℕ) →
        Leaves (standing (with_call (on file settle) h) file) left → take (length (reads h file)) left ≡ reads h file }
    ensures err { (h : History) (file : ℕ) (failed : Failed) (call : Call) → (let result : Result (Unit {0}) Failed = Result.Err failed in MaySync file result call) →
        (other : ℕ) → standing (with_call call h) other ≡ standing h other }
{}

/// The files that a run of calls doesn't name keep what they are, and at each of its moments a stop leaves what it might
/// have left of them before.
pub fn other_files()
    ensures same { (theirs : ℕ → Bool) (old new : History) (file : ℕ) → GoesOn (λ f. IsTrue (theirs f)) old new → ¬ IsTrue (theirs file) →
        standing new file ≡ standing old file }
    ensures images { (theirs : ℕ → Bool) (old new : History) (file : ℕ) → GoesOn (λ f. IsTrue (theirs f)) old new → ¬ IsTrue (theirs file) →
        EachImage (now old) new (λ image. Leaves (standing old file) (image file)) }
{}

/// What a moment might have left never changes.
pub fn moments_stay()
    ensures back { (call : Call) (h : History) (moment : ℕ) → moment ≤ now h → back (with_call call h) moment ≡ back h moment }
    ensures images { (mine : ℕ → Bool) (old new : History) (moment : ℕ) (image : ℕ → List ℕ) → GoesOn (λ f. IsTrue (mine f)) old new → moment ≤ now old →
        (ImageAt new moment image ↔ ImageAt old moment image) }
{}

/// A piece is firm exactly where each thing that a stop may leave of the file has it, and then each image of now does.
pub fn firm_is_left()
    ensures firm { (h : History) (file at : ℕ) (piece : List ℕ) →
        (Firm (standing h file) at piece ↔ ((left : List ℕ) → Leaves (standing h file) left → Stands left at piece)) }
    ensures images { (h : History) (file at : ℕ) (piece : List ℕ) →
        (Firm (standing h file) at piece ↔ ((image : ℕ → List ℕ) → ImageAt h (now h) image → Stands (image file) at piece)) }
{}

/// Runs of calls join, and so do calls within a range of a file.
pub fn runs_join()
    ensures goes { (mine : ℕ → Bool) (old mid new : History) →
        GoesOn (λ f. IsTrue (mine f)) old mid → GoesOn (λ f. IsTrue (mine f)) mid new → GoesOn (λ f. IsTrue (mine f)) old new }
    ensures each { (mine : ℕ → Bool) (old mid new : History) (has : (ℕ → List ℕ) → Bool) → GoesOn (λ f. IsTrue (mine f)) mid new →
        EachImage (now old) mid (λ image. IsTrue (has image)) → EachImage (now mid) new (λ image. IsTrue (has image)) →
        EachImage (now old) new (λ image. IsTrue (has image)) }
    ensures within { (file at len : ℕ) (old mid new : History) → WroteWithin file at len old mid → WroteWithin file at len mid new → WroteWithin file at len old new }
{}

/// After a stop the files read as one of the images of its moment, all of it on the disk, and the moment is the same.
pub fn after_stop()
    ensures image { (before after : History) → StopsAs before after → ImageAt before (now before) (reads after) }
    ensures settled { (before after : History) (file : ℕ) → StopsAs before after → standing after file ≡ settled (reads after file) }
    ensures moment { (before after : History) → StopsAs before after → now after ≡ now before }
{}
