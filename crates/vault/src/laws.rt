// What the definitions mean for the layers above, as laws. Each stands on a function that does nothing.
ghost use Rattle.std.specs.Prelude.{◌≡◌, ℕ, ◌+◌, ◌≤◌, Bool, IsTrue, List};
ghost use Rattle.store_api.specs.Disk.{History, standing, settled, reads, now, ImageAt};
ghost use Rattle.store_api.specs.Runs.{GoesOn, EachImage};
ghost use Rattle.log_file.specs.Blocks.{IsClosed};
ghost use Rattle.vault.specs.Files.{image_file, IsOurs};
ghost use Rattle.vault.specs.Recovery.{NotFormatted, IsDamaged, Recovers, RecoversWithin};
ghost use Rattle.vault.specs.Openings.{IsSound};
ghost use Rattle.vault.specs.Vaults.{State, IsGood, IsHeld, IsPending, IsLeft, RecoversAs, RecoversToEither};

use entries::Database;

/// Whatever a stop right now leaves of a good vault's files recovers to its database, by an image of its generation and a log that ends where its log does.
pub fn good_is_left<D: Database>()
    ensures database { (vault : State D) (h : History) (files : ℕ → List ℕ) → IsGood D.meaning vault h → ImageAt h (now h) files → RecoversWithin D.meaning files vault.database }
    ensures whole { (vault : State D) (h : History) (files : ℕ → List ℕ) → IsGood D.meaning vault h → ImageAt h (now h) files → RecoversAs D.meaning vault files }
{}

/// In a good vault nothing waits for a force. What a stop right now leaves of a vault in which something may wait recovers to the
/// database that was forced; and over a run on files from 4 on that stays so.
pub fn held<D: Database>()
    ensures good { (vault : State D) (h : History) → IsGood D.meaning vault h → IsHeld D.meaning vault vault.database h }
    ensures left { (vault : State D) (durable : D) (h : History) → IsHeld D.meaning vault durable h → IsLeft (λ files. RecoversWithin D.meaning files durable) h }
    ensures stays { (theirs : ℕ → Bool) (vault : State D) (durable : D) (old new : History) → ((file : ℕ) → IsTrue (theirs file) → 4 ≤ file) → GoesOn (λ f. IsTrue (theirs f)) old new →
        IsHeld D.meaning vault durable old → IsHeld D.meaning vault durable new }
    ensures images { (theirs : ℕ → Bool) (vault : State D) (durable : D) (old new : History) → ((file : ℕ) → IsTrue (theirs file) → 4 ≤ file) → GoesOn (λ f. IsTrue (theirs f)) old new →
        IsHeld D.meaning vault durable old → EachImage (now old) new (λ files. RecoversWithin D.meaning files durable) }
{}

/// A run on files from 4 on keeps a vault good, and each image since recovers to its database.
pub fn other_files<D: Database>()
    ensures good { (theirs : ℕ → Bool) (vault : State D) (old new : History) → ((file : ℕ) → IsTrue (theirs file) → 4 ≤ file) → GoesOn (λ f. IsTrue (theirs f)) old new →
        IsGood D.meaning vault old → IsGood D.meaning vault new }
    ensures images { (theirs : ℕ → Bool) (vault : State D) (old new : History) → ((file : ℕ) → IsTrue (theirs file) → 4 ≤ file) → GoesOn (λ f. IsTrue (theirs f)) old new →
        IsGood D.meaning vault old → EachImage (now old) new (λ files. RecoversWithin D.meaning files vault.database) }
{}

/// While a checkpoint is in progress its image's gate is shut in each image of now; and it goes on over a run on files from 4 on.
pub fn pending<D: Database>()
    ensures shut { (vault : State D) (snapshot : D) (h : History) (files : ℕ → List ℕ) → IsPending D.meaning vault snapshot h → ImageAt h (now h) files → IsClosed (files (image_file (vault.generation + 1))) }
    ensures stays { (theirs : ℕ → Bool) (vault : State D) (snapshot : D) (old new : History) → ((file : ℕ) → IsTrue (theirs file) → 4 ≤ file) → GoesOn (λ f. IsTrue (theirs f)) old new →
        IsPending D.meaning vault snapshot old → IsPending D.meaning vault snapshot new }
{}

/// What a stop right now leaves of the vault's files stays so over a run on files from 4 on: where they recover to a database, and
/// where they recover to one of two, as after a commit in which a call failed. It is so of a good vault.
pub fn left_stays<D: Database>()
    ensures good { (vault : State D) (h : History) → IsGood D.meaning vault h → IsLeft (λ files. RecoversWithin D.meaning files vault.database) h }
    ensures one { (theirs : ℕ → Bool) (d : D) (old new : History) → ((file : ℕ) → IsTrue (theirs file) → 4 ≤ file) → GoesOn (λ f. IsTrue (theirs f)) old new →
        IsLeft (λ files. RecoversWithin D.meaning files d) old → IsLeft (λ files. RecoversWithin D.meaning files d) new }
    ensures either { (theirs : ℕ → Bool) (before after : D) (old new : History) → ((file : ℕ) → IsTrue (theirs file) → 4 ≤ file) → GoesOn (λ f. IsTrue (theirs f)) old new →
        IsLeft (RecoversToEither D.meaning before after) old → IsLeft (RecoversToEither D.meaning before after) new }
{}

/// Where it is so, each image of now has it, and each image since has it, over a run on files from 4 on.
pub fn left_since<D: Database>()
    ensures one_now { (d : D) (h : History) (files : ℕ → List ℕ) → IsLeft (λ files. RecoversWithin D.meaning files d) h → ImageAt h (now h) files → RecoversWithin D.meaning files d }
    ensures either_now { (before after : D) (h : History) (files : ℕ → List ℕ) → IsLeft (RecoversToEither D.meaning before after) h → ImageAt h (now h) files →
        RecoversToEither D.meaning before after files }
    ensures one { (theirs : ℕ → Bool) (d : D) (old new : History) → ((file : ℕ) → IsTrue (theirs file) → 4 ≤ file) → GoesOn (λ f. IsTrue (theirs f)) old new →
        IsLeft (λ files. RecoversWithin D.meaning files d) old → EachImage (now old) new (λ files. RecoversWithin D.meaning files d) }
    ensures either { (theirs : ℕ → Bool) (before after : D) (old new : History) → ((file : ℕ) → IsTrue (theirs file) → 4 ≤ file) → GoesOn (λ f. IsTrue (theirs f)) old new →
        IsLeft (RecoversToEither D.meaning before after) old → EachImage (now old) new (RecoversToEither D.meaning before after) }
{}

/// Where all of the vault's files is on the disk, as after a stop, and they are sound, each image of now recovers to what they recover to.
pub fn one_at_rest<D: Database>()
    ensures { (h : History) (d : D) (files : ℕ → List ℕ) → ((file : ℕ) → IsOurs file → standing h file ≡ settled (reads h file)) → IsSound D.meaning h → Recovers D.meaning (reads h) d → ImageAt h (now h) files → RecoversWithin D.meaning files d }
{}

/// Files recover to one database at most, in one form, and to none where they aren't formatted or are damaged.
pub fn one_recovery<D: Database>()
    ensures one { (files : ℕ → List ℕ) (d other : D) → Recovers D.meaning files d → Recovers D.meaning files other → d ≡ other }
    ensures form { (files : ℕ → List ℕ) (d other : D) (a : Recovers D.meaning files d) (b : Recovers D.meaning files other) → a.form ≡ b.form }
    ensures formatted { (files : ℕ → List ℕ) (d : D) → Recovers D.meaning files d → NotFormatted files → ⊥ }
    ensures damaged { (files : ℕ → List ℕ) (d : D) (file at : ℕ) → Recovers D.meaning files d → IsDamaged D.meaning files file at → ⊥ }
{}
