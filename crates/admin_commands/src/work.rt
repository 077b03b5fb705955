// What a command is to do.
ghost use Rattle.std.specs.Prelude.{◌≡◌, [], ◌∷◌};
ghost use Rattle.kinds.specs.Answers.{Answers};
ghost use Rattle.admin_commands.specs.declared.work.Work.TheVariants.{Run};
ghost use Rattle.admin_commands.specs.Orders.{run};

use entries::Change;
use inventory_answers::Query;
use inventory_work::Listed;
use kinds::Refusal;
use std::alloc::Global;

/// What a command is to do.
#[derive(Drop)]
pub enum Work {
    /// A transaction with this change. The number of a new file is drawn where it is made; what stands there is 0.
    Commit(Change),
    /// The rows that answer this query are shown.
    Show(Query),
    /// What no one change and no one query is, over these numbers: those of the things that the command names, in the order
    /// of its words, where the work takes them by number. MIGRATE STGPOOL and RECLAIM STGPOOL have the percentage behind
    /// them, and MOVE DATA has 0 in the place of a pool that isn't named.
    Run(Listed<u32>),
}

/// Over no number.
pub(crate) fn run(alloc: Global) -> Work
    ensures { result ≡ Run [] }
{
    Work::Run(Listed::from_vec(Vec::new(alloc)))
}

/// Over one number.
pub(crate) fn run_one(alloc: Global, number: u32) -> Result<Work, Refusal>
    ensures { Answers result (run (number ∷ [])) }
{
    let mut numbers = Vec::new(alloc);
    numbers.push(number)?;
    Ok(Work::Run(Listed::from_vec(numbers)))
}

/// Over two numbers.
pub(crate) fn run_two(alloc: Global, first: u32, second: u32) -> Result<Work, Refusal>
    ensures { Answers result (run (first ∷ second ∷ [])) }
{
    let mut numbers = Vec::new(alloc);
    numbers.push(first)?;
    numbers.push(second)?;
    Ok(Work::Run(Listed::from_vec(numbers)))
}
