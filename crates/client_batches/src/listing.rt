//! What a transaction of a plan's lines lists.
ghost use Rattle.std.specs.Prelude.{◌≡◌, ◌≤◌, ℕ, List, length};
ghost use Rattle.kinds.specs.Answers.{AnswersBy};
ghost use Rattle.steps.specs.declared.asked.Asked.{Asked};
ghost use Rattle.client_batches.specs.Listings.{stored, storing, rebound, rebinding, named, ending};

use client_plan::{GoneLine, RebindLine};
use entries::Change;
use entries::change_items::{Batch, NamedVersion, NamedVersions, Rebinding, Rebindings};
use inventory_work::Listed;
use kinds::{Digest, Name, Path, Refusal};
use std::alloc::Global;
use steps::{Asked, Item};

/// A line of a list that transactions of one filespace make.
pub trait Listing: Drop {
    /// The transaction that these lines ask for in the filespace with this number.
    ghost asking: { ℕ → List Self → Asked };

    /// The transaction that these lines ask for in this filespace. Its one refusal is want of memory.
    fn asking(alloc: Global, filespace: u32, lines: &[Self]) -> Result<Asked, Refusal>
        requires { length lines.now ≤ 256 }
        ensures { AnswersBy (λ asked. asked) result (asking filespace lines.now) };
}

/// A file whose bytes stand in a sealed ticket.
#[derive(Drop)]
pub struct SealedLine {
    pub path: Path,
    /// The management class under which it is to be kept.
    pub class: Name,
    /// When it was changed last, in the unit of its tree.
    pub mtime: u64,
    /// The SHA-256 of its bytes.
    pub digest: Digest,
}

fn stored(line: &SealedLine) -> Result<Item, Refusal>
    ensures { AnswersBy (λ item. item) result (stored line.now) }
{
    let path = line.path.clone()?;
    let class = line.class.clone()?;
    Ok(Item {
        path,
        class,
        mtime: line.mtime,
        digest: line.digest,
    })
}

fn storing(alloc: Global, filespace: u32, lines: &[SealedLine]) -> Result<Asked, Refusal>
    ensures { AnswersBy (λ asked. asked) result (storing filespace lines.now) }
{
    let mut items = Vec::new(alloc);
    'lines: for line in lines {
        let item = match stored(line) {
            Ok(item) => item,
            Err(refusal) => return Err(refusal),
        };
        match items.push(item) {
            Ok(()) => {}
            Err(_) => return Err(Refusal::Memory),
        }
    }
    Ok(Asked::Backup {
        filespace,
        items: Listed::from_vec(items),
    })
}

fn rebound(line: &RebindLine) -> Result<Rebinding, Refusal>
    ensures { AnswersBy (λ item. item) result (rebound line.now) }
{
    let path = line.path.clone()?;
    let class = line.class.clone()?;
    Ok(Rebinding { path, class })
}

fn rebinding(alloc: Global, filespace: u32, lines: &[RebindLine]) -> Result<Asked, Refusal>
    requires { length lines.now ≤ 256 }
    ensures { AnswersBy (λ asked. asked) result (rebinding filespace lines.now) }
{
    let mut items = Batch::new(alloc);
    'lines: for line in lines {
        let item = match rebound(line) {
            Ok(item) => item,
            Err(refusal) => return Err(refusal),
        };
        match items.push(item) {
            Ok(()) => {}
            Err(_) => return Err(Refusal::Memory),
        }
    }
    Ok(Asked::Plain(Change::Rebind(Rebindings { filespace, items })))
}

fn named(line: &GoneLine) -> Result<NamedVersion, Refusal>
    ensures { AnswersBy (λ item. item) result (named line.now) }
{
    let path = line.path.clone()?;
    Ok(NamedVersion {
        path,
        object: line.object,
    })
}

fn ending(alloc: Global, filespace: u32, lines: &[GoneLine]) -> Result<Asked, Refusal>
    requires { length lines.now ≤ 256 }
    ensures { AnswersBy (λ asked. asked) result (ending filespace lines.now) }
{
    let mut items = Batch::new(alloc);
    'lines: for line in lines {
        let item = match named(line) {
            Ok(item) => item,
            Err(refusal) => return Err(refusal),
        };
        match items.push(item) {
            Ok(()) => {}
            Err(_) => return Err(Refusal::Memory),
        }
    }
    Ok(Asked::Plain(Change::Gone(NamedVersions { filespace, items })))
}

impl Listing for SealedLine {
    ghost asking = { storing };

    fn asking(alloc: Global, filespace: u32, lines: &[Self]) -> Result<Asked, Refusal> {
        storing(alloc, filespace, lines)
    }
}

impl Listing for RebindLine {
    ghost asking = { rebinding };

    fn asking(alloc: Global, filespace: u32, lines: &[Self]) -> Result<Asked, Refusal> {
        rebinding(alloc, filespace, lines)
    }
}

impl Listing for GoneLine {
    ghost asking = { ending };

    fn asking(alloc: Global, filespace: u32, lines: &[Self]) -> Result<Asked, Refusal> {
        ending(alloc, filespace, lines)
    }
}
