// What the definitions mean, as laws. Each stands on a function that does nothing.
ghost use Rattle.std.specs.Prelude.{ℕ, List, Option, IfErr, Result};
ghost use Rattle.kinds.specs.declared.refusal.Refusal.{Refusal};
ghost use Rattle.choosers.specs.declared.rule.Rule.{Rule};
ghost use Rattle.client_trees.specs.Files.{Files};
ghost use Rattle.steps.specs.Events.{Event};
ghost use Rattle.incrementals.specs.Causes.{IsCaused};
ghost use Rattle.incrementals.specs.Process.{Incremental};
ghost use Rattle.incrementals.specs.declared.answering.Sent.{Sent};

/// An incremental backup ends with a refusal only for a cause: one of its own steps was refused so, its listing failed, the filespace went meanwhile, or memory was wanted.
pub fn refusals_have_causes()
    ensures { (node filespace : List ℕ) (choice : List Rule) (told : Option Files) (before after : ℕ) (events : List Event) (result : Result Sent Refusal)
        → Incremental node filespace choice told before after events result → IfErr result (λ e. IsCaused node filespace before after events e) }
{}
