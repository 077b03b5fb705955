// What the definitions mean, as laws. Each stands on a function that does nothing.
ghost use Rattle.std.specs.Prelude.{◌≡◌, ◌≤◌, ℕ, ◌+◌, ◌-◌, List, ◌++◌, None, Some, Ok};
ghost use Rattle.std.specs.List.{slice_get};
ghost use Rattle.steps.specs.entries.declared.change.Change.{Change};
ghost use Rattle.steps.specs.entries.declared.change.Change.TheVariants as change;
ghost use Rattle.steps.specs.entries.declared.entry.Entry.{Entry};
ghost use Rattle.item_refusals.specs.inventory_rules.Run.{journal_of};
ghost use Rattle.item_refusals.specs.inventory_rules.Transactions.{effect, refused};
ghost use Rattle.steps.specs.declared.asked.Asked.{Asked};
ghost use Rattle.steps.specs.Events.{Deed, Event, event};
ghost use Rattle.steps.specs.Events.Deed.{Commit, Reuse};
ghost use Rattle.machine.specs.Fits.{History, Own, Step, Fits, entries_to, inv, last};
ghost use Rattle.machine.specs.Machine.{Case};
ghost use Rattle.machine.specs.Says.{Says};
ghost use Rattle.machine.specs.State.{Machine, inventory, sight};
ghost use Rattle.machine.specs.Turns.{GoesOn, Runs, Turn, events_of, own_in};

/// Events that fit one after the other fit together, and events that fit are cut anywhere into two parts that fit.
pub fn one_after_the_other()
    ensures joined { (w : History) (actor : ℕ) (a b c : Own) (xs ys : List Event) → Fits w actor a xs b → Fits w actor b ys c → Fits w actor a (xs ++ ys) c }
    ensures cut { (w : History) (actor : ℕ) (a c : Own) (xs ys : List Event) → Fits w actor a (xs ++ ys) c → (b : Own) × Fits w actor a xs b × Fits w actor b ys c }
{}

/// The number that an actor has reached never falls, and never goes beyond the history's last.
pub fn numbers_rise()
    ensures rise { (w : History) (actor : ℕ) (a b : Own) (events : List Event) → Fits w actor a events b → a.reached ≤ b.reached }
    ensures within { (w : History) (actor : ℕ) (a b : Own) (events : List Event) → a.reached ≤ last w → Fits w actor a events b → b.reached ≤ last w }
{}

/// Behind a transaction of the history the database is what it makes of the one before it.
pub fn history_goes_on()
    ensures { (w : History) (n : ℕ) (e : Entry) → w.base.number ≤ n → slice_get w.journal (n - w.base.number) ≡ Some e → inv w (n + 1) ≡ effect e.change (inv w n) }
{}

/// What joins by a commit, or by the reuse of a volume, is legal on the database of its number, as the journal up to there tells it.
pub fn what_joins_is_legal()
    ensures committed { (w : History) (actor : ℕ) (a b : Own) (n : ℕ) (asked : Asked) (numbers : List ℕ) (number : ℕ) (c : Change) → (s : Step w actor a (event n (Commit asked numbers (Ok number))) b) → s.joined ≡ Some c → refused (journal_of w.base (entries_to w n)) c (inv w n) ≡ None }
    ensures reused { (w : History) (actor : ℕ) (a b : Own) (n file number : ℕ) → Step w actor a (event n (Reuse file (Ok number))) b → refused (journal_of w.base (entries_to w n)) (change.Reuse file) (inv w n) ≡ None }
{}

/// Where objects go, whatever decides it.
pub trait Placing {
    ghost use Rattle.machine.specs.Laws.{GoesWhereAimed, RefusesElsewhere};
    ghost use Rattle.machine.specs.Machine.{Places};

    /// Where an object goes, or why it goes nowhere.
    ghost places: { Places };

    /// It is refused for want of room, for room that others hold, and for numbers at their bounds.
    ghost refuses: { RefusesElsewhere places };

    /// It goes into one of the pools that its aim walks.
    ghost goes: { GoesWhereAimed places };
}

/// What the machine answers an actor is what that actor can say of it: a step of the machine is answered as the database, the actor's own tickets and its own image
/// have it, or refused for a cause elsewhere.
pub fn steps_are_told<P: Placing>()
    ensures { (actor : ℕ) (deed : Deed) (old new : Machine) → Case P.places actor deed old new → Says actor old.contents (sight actor old.core) deed }
{}

/// Whatever actors make steps in whatever order, what one of them did fits every history that goes on as the hall does: other actors' transactions between two of its steps
/// are only that numbers rise, and its tickets and its image are its own. So it is for one actor alone, whose events are all.
pub fn turns_fit<P: Placing>()
    ensures { (w : History) (actor reached : ℕ) (old new : Machine) (turns : List Turn) → Runs P.places w old turns new → GoesOn new.core w → reached ≤ (inventory old.core).number → (n : ℕ) × (n ≤ (inventory new.core).number) × Fits w actor (own_in actor reached old.core) (events_of actor turns) (own_in actor n new.core) }
{}
