// What the definitions mean, as laws. Each stands on a function that does nothing.
ghost use Rattle.std.specs.Prelude.{ℕ, List, None, Ok, Option, Result};
ghost use Rattle.kinds.specs.declared.refusal.Refusal.{Refusal};
ghost use Rattle.steps.specs.Events.{Event};
ghost use Rattle.client_files.specs.Restoring.{HasFile};
ghost use Rattle.admin_words.specs.declared.command.Command.TheVariants.{File};
ghost use Rattle.admin_words.specs.declared.command.FileCommand.TheVariants.{Erase, Write};
ghost use Rattle.admin_words.specs.declared.files.FileErase.{FileErase};
ghost use Rattle.admin_words.specs.declared.files.FileWrite.{FileWrite};
ghost use Rattle.script_loop.specs.Reply.{Answer};
ghost use Rattle.script_loop.specs.declared.ends.Halt.{Halt};
ghost use Rattle.command_steps.specs.Answering.{AnswersLine};
ghost use Rattle.command_steps.specs.Clients.{Client};
ghost use Rattle.command_steps.specs.Leaving.{ChangesOnly, TreeHas, tree_named};
ghost use Rattle.command_steps.specs.Lines.{Line, asks};
ghost use Rattle.command_steps.specs.Writing.{IsWithout, bytes_of};

/// A line changes no tree but the one that it names. A WRITE that was answered left its file with its bytes and its time at its path, an ERASE none, and all other files of the tree as they were.
pub fn lines_change_their_tree()
    ensures only { (k : Client) (n : ℕ) (line : Line) (events : List Event) (result : Result (Answer × Option Refusal) Halt) → AnswersLine k n line events result → ChangesOnly (tree_named line) k }
    ensures written { (k : Client) (n : ℕ) (w : FileWrite) (events : List Event) (answer : Answer) → AnswersLine k n (asks (File (Write w))) events (Ok (answer, None))
        → TreeHas w.tree (HasFile w.path (bytes_of w.contents) w.mtime) k }
    ensures erased { (k : Client) (n : ℕ) (e : FileErase) (events : List Event) (answer : Answer) → AnswersLine k n (asks (File (Erase e))) events (Ok (answer, None)) → TreeHas e.tree (IsWithout e.path) k }
{}
