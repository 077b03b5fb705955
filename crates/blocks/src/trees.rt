// Which of the clients' trees are in use in a block.
ghost use Rattle.std.specs.Prelude.{◌≡◌};
ghost use Rattle.blocks.specs.Trees.{behind, first_job, in_use, names};

use crate::block::{Fate, Line};

/// Whether a line is done and names this tree.
fn names(tree: u64, line: &Line) -> bool
    ensures { result ≡ names tree line.now }
{
    match line.fate {
        Fate::Done(Some(number)) => number == tree,
        Fate::Done(None) => false,
        Fate::Beyond => false,
    }
}

/// The place of the job that has a tree: that of the first line of a block, which has these lines, that is done and names it. None where no line does.
pub fn first_job(tree: u64, lines: &[Line]) -> Option<u32>
    ensures { result ≡ first_job tree lines.now }
{
    'lines: for line in lines {
        if names(tree, line) {
            return Some(line.job);
        }
    }
    None
}

/// The tree, where the job that has it comes before this one.
fn behind(tree: u64, job: u32, first: Option<u32>) -> Option<u64>
    ensures { result ≡ behind tree job first }
{
    match first {
        Some(first) => { if first < job { Some(tree) } else { None } }
        None => None,
    }
}

/// The number of the tree that a line of a block names and that an earlier job of the block has, if there is one. `lines` are the block's. A tree belongs to the first job in which a line that is done names
/// it, whether or not that line is refused. In the later ones a command that names it is refused with `InUse`, where nothing with a lesser number refuses it.
pub fn in_use(lines: &[Line], line: &Line) -> Option<u64>
    ensures { result ≡ in_use lines.now line.now }
{
    match line.fate {
        Fate::Done(Some(tree)) => behind(tree, line.job, first_job(tree, lines)),
        Fate::Done(None) => None,
        Fate::Beyond => None,
    }
}
