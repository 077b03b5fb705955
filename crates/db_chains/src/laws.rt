// What the definitions mean, as laws. Each stands on a function that does nothing.
ghost use Rattle.std.specs.Prelude.{◌≡◌, ℕ, List};
ghost use Rattle.db_chains.specs.Chains.{IsGiven, IsBrokenAt};

use entries::Database;

/// Files give one database at most as the backup in a file, and where they give one the chain isn't broken; it is broken at one file at most.
pub fn one_chain<D: Database>()
    ensures one { (files : ℕ → List ℕ) (file : ℕ) (d other : D) → IsGiven D.meaning files file d → IsGiven D.meaning files file other → d ≡ other }
    ensures whole { (files : ℕ → List ℕ) (file at : ℕ) (d : D) → IsGiven D.meaning files file d → IsBrokenAt D.meaning files file at → ⊥ }
    ensures place { (files : ℕ → List ℕ) (file at other : ℕ) → IsBrokenAt D.meaning files file at → IsBrokenAt D.meaning files file other → at ≡ other }
{}
