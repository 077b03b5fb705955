// What the definitions mean, as laws. Each stands on a function that does nothing.
ghost use Rattle.std.specs.Prelude.{◌≡◌, ℕ, List, [], Option, Ok};
ghost use Rattle.kinds.specs.declared.refusal.Refusal.{Refusal};
ghost use Rattle.choosers.specs.declared.rule.Rule.{Rule};
ghost use Rattle.script_loop.specs.Reply.{Answer};
ghost use Rattle.script_loop.specs.declared.ends.Halt.{Halt};
ghost use Rattle.blocks.specs.Shapes.{Placed};
ghost use Rattle.entries.specs.declared.entry.Entry.{Entry};
ghost use Rattle.machine.specs.Fits.{Fits, History, Own};
ghost use Rattle.machine.specs.State.{Machine, inventory};
ghost use Rattle.machine.specs.Turns.{Turn, events_of};
ghost use Rattle.hall.specs.Placed.{hall_places};
ghost use Rattle.crew.specs.Ran.{Turned};
ghost use Rattle.steps.specs.Events.{Event};
ghost use Rattle.line_results.specs.command_steps.Clients.{Client, Known};
ghost use Rattle.line_results.specs.command_steps.Jobs.{AnswersInJob};
ghost use Rattle.line_results.specs.command_steps.Lines.{Line};
ghost use Rattle.line_jobs.specs.Jobs.{DoesLines, JobLine};
ghost use Rattle.line_jobs.specs.Shares.{AreDone, Came};
ghost use Rattle.line_jobs.specs.declared.job.Said.{Said};
ghost use Rattle.line_results.specs.copy_attempts.Outcomes.{Met};
ghost use Rattle.line_results.specs.Resting.{Adds, database};
ghost use Rattle.line_results.specs.Sound.{HasSoundRows};
ghost use Rattle.line_results.specs.Trees.{HaveBytes};
ghost use Rattle.block_results.specs.Clauses.{Holds};
ghost use Rattle.block_results.specs.Standing.{IsRefusedAt};
ghost use Rattle.block_results.specs.Jobs.{AreHeld, JobsHold, nothing_at};
ghost use Rattle.block_results.specs.Joining.{AreBySteps};
ghost use Rattle.block_results.specs.Legal.{JobsComplete};
ghost use Rattle.block_results.specs.Refusing.{HaveCauses};
ghost use Rattle.block_results.specs.Room.{JobsUnfailed};
ghost use Rattle.block_results.specs.Sizes.{JobsSized};

/// A line of a job that was answered holds, clause by clause, in every history that its steps fit, where its actor had no ticket before it; and it has none behind it.
pub fn job_lines_hold()
    ensures { (w : History) (actor : ℕ) (k : Client) (in_use : Option ℕ) (n : ℕ) (line : Line) (events : List Event) (answer : Answer) (why : Option Refusal) (old new : Own) → old.tickets ≡ []
        → Fits w actor old events new → AnswersInJob k in_use n line events (Ok (answer, why)) → Holds w actor k in_use n line old events answer new }
{}

/// So each line of a job holds that was answered, however the job ended; and of a line at which the run ended each transaction by a step that was answered is one that it orders.
pub fn jobs_hold()
    ensures { (w : History) (actor : ℕ) (choice : List Rule) (lines : List JobLine) (trees left : List Known) (events : List Event) (said : List Said) (ended : Option Halt) (old new : Own) → old.tickets ≡ []
        → Fits w actor old events new → DoesLines choice lines trees events said ended left → AreHeld w actor choice lines trees left old events said ended }
{}

/// So each answered line of each job of a block holds, and each transaction by a step that was answered of a line at which a job ended the run is one that it orders, in every history that what each of its actors did fits, each from the number at which the block begins on, with no ticket and no image in progress.
pub fn blocks_hold()
    ensures { (w : History) (choice : List Rule) (all : List Placed) (job first reached : ℕ) (turns : List Turn) (trees : List (List Known)) (came : List Came)
        → ((actor : ℕ) → (last : Own) × Fits w actor (nothing_at reached) (events_of actor turns) last) → AreDone choice all job first turns trees came → JobsHold w choice all job first reached turns trees came }
{}

/// A step that was refused holds at its number, in every history that the steps fit: so it is with a refusal that work on a tree, or a process, says that one of its steps met.
pub fn refused_steps_hold()
    ensures { (w : History) (actor : ℕ) (old new : Own) (events : List Event) (why : Refusal) → Fits w actor old events new → Met why events → IsRefusedAt w actor old.reached new.reached events why }
{}

/// Each step of a run of several actors' turns that was refused has its cause at the state that it met, over whatever store.
pub fn turns_have_causes()
    ensures trusted { (turns : List Turn) (old new : Machine) → Turned (Unit {0}) hall_places turns old new → HaveCauses (Unit {0}) hall_places turns old new }
    ensures unknown { (turns : List Turn) (old new : Machine) → Turned ⊥ hall_places turns old new → HaveCauses ⊥ hall_places turns old new }
{}

/// No actor has a transaction among those of such a run but by a step of its own.
pub fn transactions_are_by_steps()
    ensures trusted { (turns : List Turn) (old new : Machine) (added : List Entry) → Turned (Unit {0}) hall_places turns old new → Adds added old new
        → AreBySteps (Unit {0}) hall_places turns old new (inventory old.core).number added }
    ensures unknown { (turns : List Turn) (old new : Machine) (added : List Entry) → Turned ⊥ hall_places turns old new → Adds added old new
        → AreBySteps ⊥ hall_places turns old new (inventory old.core).number added }
{}

/// Where the rows of the database are sound before a block, a line of a job of it that is legal, and in which no count of faults rose, isn't refused, unless the reuse of volumes behind its work is, or a filespace or a volume is in use when it is to go, behind steps that took away what they had found there, and for a filespace since a step brought an object there meanwhile, or the pool that a copy is to move to isn't there.
pub fn blocks_are_complete()
    ensures trusted { (choice : List Rule) (all : List Placed) (job first : ℕ) (turns : List Turn) (old new : Machine) (trees : List (List Known)) (came : List Came) → HasSoundRows (database old) → Turned (Unit {0}) hall_places turns old new
        → AreDone choice all job first turns trees came → JobsComplete (Unit {0}) hall_places choice all job first turns old new trees came }
    ensures unknown { (choice : List Rule) (all : List Placed) (job first : ℕ) (turns : List Turn) (old new : Machine) (trees : List (List Known)) (came : List Came) → HasSoundRows (database old) → Turned ⊥ hall_places turns old new
        → AreDone choice all job first turns trees came → JobsComplete ⊥ hall_places choice all job first turns old new trees came }
{}

/// What the jobs of a block stored has as many bytes as the client gave: a version that a PUT brings as many as the text, and one that a backup of a tree brings as many as were listed of its file, which has as many where the tree
/// tells it, also in a line at which the run ended. So it is in every history that what each of the block's actors did fits, since no ticket of a run has a number that another one had.
pub fn blocks_have_sizes()
    ensures trusted { (w : History) (choice : List Rule) (all : List Placed) (job first reached : ℕ) (turns : List Turn) (old new : Machine) (trees : List (List Known)) (came : List Came) → Turned (Unit {0}) hall_places turns old new
        → ((actor : ℕ) → (last : Own) × Fits w actor (nothing_at reached) (events_of actor turns) last) → AreDone choice all job first turns trees came → JobsSized w choice all job first reached turns trees came }
    ensures unknown { (w : History) (choice : List Rule) (all : List Placed) (job first reached : ℕ) (turns : List Turn) (old new : Machine) (trees : List (List Known)) (came : List Came) → Turned ⊥ hall_places turns old new
        → ((actor : ℕ) → (last : Own) × Fits w actor (nothing_at reached) (events_of actor turns) last) → AreDone choice all job first turns trees came → JobsSized w choice all job first reached turns trees came }
{}

/// Where no count of faults rose no file fails in a DSMC INCREMENTAL of a job of a block that has room for all of its files at each state that its steps meet, nor in a DSMC RESTORE of versions that can be given back at each state
/// that its turns pass; and no object fails in a process that makes further copies or moves copies, where at each state that its steps meet each copy has a place but for room that others hold, and each piece can be read.
pub fn blocks_fail_none()
    ensures trusted { (choice : List Rule) (all : List Placed) (job first : ℕ) (turns : List Turn) (old new : Machine) (trees : List (List Known)) (came : List Came) → Turned (Unit {0}) hall_places turns old new
        → AreDone choice all job first turns trees came → JobsUnfailed (Unit {0}) hall_places choice all job first turns old new trees came }
    ensures unknown { (choice : List Rule) (all : List Placed) (job first : ℕ) (turns : List Turn) (old new : Machine) (trees : List (List Known)) (came : List Came) → Turned ⊥ hall_places turns old new
        → AreDone choice all job first turns trees came → JobsUnfailed ⊥ hall_places choice all job first turns old new trees came }
{}

/// Each version that the transactions of a run bring which began without a ticket says of its object how many bytes that has, and their digest; and these are the object's bytes from then on.
pub fn stored_versions_have_bytes()
    ensures trusted { (turns : List Turn) (old new : Machine) (added : List Entry) → old.core.tickets ≡ [] → Turned (Unit {0}) hall_places turns old new → Adds added old new → HaveBytes new added }
    ensures unknown { (turns : List Turn) (old new : Machine) (added : List Entry) → old.core.tickets ≡ [] → Turned ⊥ hall_places turns old new → Adds added old new → HaveBytes new added }
{}
