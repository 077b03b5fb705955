// What the definitions mean, as laws. Each stands on a function that does nothing.
ghost use Rattle.std.specs.Prelude.{◌≡◌, ℕ, List, Option, Ok, Err};
ghost use Rattle.kinds.specs.declared.refusal.Refusal.{Refusal};
ghost use Rattle.script_loop.specs.Reply.{Answer};
ghost use Rattle.script_loop.specs.declared.ends.Halt.{Halt};
ghost use Rattle.machine.specs.Alone.{Alone};
ghost use Rattle.machine.specs.State.{Machine};
ghost use Rattle.steps.specs.Events.{Event};
ghost use Rattle.command_steps.specs.Answering.{AnswersLine};
ghost use Rattle.command_steps.specs.Clients.{Client};
ghost use Rattle.command_steps.specs.Lines.{Line};
ghost use Rattle.line_results.specs.Clauses.{Holds};
ghost use Rattle.line_results.specs.Lines.{Halts, Replies};
ghost use Rattle.line_results.specs.Resting.{HasSizes, IsAtRest, database};
ghost use Rattle.line_results.specs.Sound.{HasSoundRows};

/// Where objects go, whatever decides it.
pub trait Placing {
    ghost use Rattle.line_results.specs.Resting.{EndsNoRun, NobodyHolds};
    ghost use Rattle.machine.specs.Laws.{RefusesElsewhere};
    ghost use Rattle.machine.specs.Machine.{Places};

    /// Where an object goes, or why it goes nowhere.
    ghost places: { Places };

    /// Where all tickets are the actor's own, nothing has to be waited for but a transaction that isn't forced yet, and only where there is one.
    ghost nobody: { NobodyHolds places };

    /// Where an object goes nowhere, that ends no run.
    ghost goes_on: { EndsNoRun places };

    /// Where an object goes nowhere, that is for want of room, for room that others hold, or for numbers at their bounds.
    ghost elsewhere: { RefusesElsewhere places };
}

/// A line whose steps one actor made on a machine that it has alone, and which was at rest, comes to what its command says of the database; or it ends the run, by its cause. So it is where the
/// store is trusted to have the bytes of the objects, and so it is where nothing is known of it. `k` has the clients' include-exclude list and trees, before the line and behind it. The rows
/// of the database before it are sound, as those of each database of a server are.
pub fn lines_come_to<P: Placing>()
    ensures answered { (k : Client) (n : ℕ) (line : Line) (events : List Event) (answer : Answer) (why : Option Refusal) (old new : Machine) → IsAtRest old.core → HasSizes old → HasSoundRows (database old)
        → AnswersLine k n line events (Ok (answer, why)) → Alone (Unit {0}) P.places 0 events old new → Replies (Unit {0}) P.places k n line old answer why new }
    ensures ended { (k : Client) (n : ℕ) (line : Line) (events : List Event) (how : Halt) (old new : Machine) → IsAtRest old.core → HasSizes old → HasSoundRows (database old)
        → AnswersLine k n line events (Err how) → Alone (Unit {0}) P.places 0 events old new → Halts (Unit {0}) P.places k n line old how new }
    ensures answered_unknown { (k : Client) (n : ℕ) (line : Line) (events : List Event) (answer : Answer) (why : Option Refusal) (old new : Machine) → IsAtRest old.core → HasSizes old → HasSoundRows (database old)
        → AnswersLine k n line events (Ok (answer, why)) → Alone ⊥ P.places 0 events old new → Replies ⊥ P.places k n line old answer why new }
    ensures ended_unknown { (k : Client) (n : ℕ) (line : Line) (events : List Event) (how : Halt) (old new : Machine) → IsAtRest old.core → HasSizes old → HasSoundRows (database old)
        → AnswersLine k n line events (Err how) → Alone ⊥ P.places 0 events old new → Halts ⊥ P.places k n line old how new }
{}

/// Of each line that was answered so holds what is said of its transactions, its rows and bytes, its refusal and what it did, when it isn't refused, and which tree it may change.
pub fn answered_lines_hold<P: Placing>()
    ensures trusted { (k : Client) (n : ℕ) (line : Line) (answer : Answer) (why : Option Refusal) (old new : Machine) → (r : Replies (Unit {0}) P.places k n line old answer why new)
        → Holds (Unit {0}) P.places k n line old r.mid answer r.added }
    ensures unknown { (k : Client) (n : ℕ) (line : Line) (answer : Answer) (why : Option Refusal) (old new : Machine) → (r : Replies ⊥ P.places k n line old answer why new)
        → Holds ⊥ P.places k n line old r.mid answer r.added }
{}
