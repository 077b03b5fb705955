ghost use Rattle.std.specs.Prelude.{◌≡◌, ℕ, ◌+◌, ◌<◌, ◌^◌, List, []};
ghost use Rattle.client_plan.specs.Plans.{Grows, to_send, to_rebind, to_end, to_fail, to_skip, joined, lists_of};

use crate::lines::{GoneLine, RebindLine, SendLine};
use client_trees::FileRow;
use kinds::{Name, Path, Refusal};
use std::alloc::Global;
use std::marker::Model;

/// What an incremental backup is to do, by path.
#[derive(Drop)]
pub struct Plan {
    send: Vec<SendLine>,
    rebind: Vec<RebindLine>,
    gone: Vec<GoneLine>,
    failed: Vec<Path>,
    skip: u64,
}

impl Model for Plan {
    ghost use Rattle.client_plan.specs.Plans.{Lists};

    ghost Value = { Lists };

    ghost view = { λ p. record { send = p.send.items; rebind = p.rebind.items; gone = p.gone.items; failed = p.failed.items; skip = p.skip } };
}

impl Plan {
    /// Nothing is to be done. It takes no memory.
    pub(crate) fn new(alloc: Global) -> Self
        ensures { result ≡ record { send = []; rebind = []; gone = []; failed = []; skip = 0 } }
    {
        Plan {
            send: Vec::new(alloc),
            rebind: Vec::new(alloc),
            gone: Vec::new(alloc),
            failed: Vec::new(alloc),
            skip: 0,
        }
    }

    /// The files that are sent, by path, each with the class under which it is to be kept.
    pub fn send(&self) -> &[SendLine]
        ensures { result.now ≡ self.now.send }
    {
        &self.send
    }

    /// The paths whose versions are bound to another class, in their order.
    pub fn rebind(&self) -> &[RebindLine]
        ensures { result.now ≡ self.now.rebind }
    {
        &self.rebind
    }

    /// The versions that are no longer active, by path.
    pub fn gone(&self) -> &[GoneLine]
        ensures { result.now ≡ self.now.gone }
    {
        &self.gone
    }

    /// The listed paths that can't be sent, since their class has no copy group, in their order.
    pub fn failed(&self) -> &[Path]
        ensures { result.now ≡ self.now.failed }
    {
        &self.failed
    }

    /// How many listed paths are left as they are.
    pub fn skip(&self) -> u64
        ensures { result ≡ self.now.skip }
    {
        self.skip
    }

    /// The file is to be sent, under this class.
    pub(crate) fn add_send(&mut self, file: &FileRow, class: &Name) -> Result<(), Refusal>
        ensures { Grows result self.old self.new (to_send file.now class.now) }
    {
        let file = FileRow {
            path: file.path.clone()?,
            size: file.size,
            mtime: file.mtime,
        };
        let class = class.clone()?;
        self.send.push(SendLine { file, class })?;
        Ok(())
    }

    /// The versions of the path are to be bound to this class.
    pub(crate) fn add_rebind(&mut self, path: &Path, class: &Name) -> Result<(), Refusal>
        ensures { Grows result self.old self.new (to_rebind path.now class.now) }
    {
        let path = path.clone()?;
        let class = class.clone()?;
        self.rebind.push(RebindLine { path, class })?;
        Ok(())
    }

    /// The path's active version is to be none.
    pub(crate) fn add_gone(&mut self, path: &Path, object: u64) -> Result<(), Refusal>
        ensures { Grows result self.old self.new (to_end path.now object) }
    {
        let path = path.clone()?;
        self.gone.push(GoneLine { path, object })?;
        Ok(())
    }

    /// The path fails.
    pub(crate) fn add_failed(&mut self, path: &Path) -> Result<(), Refusal>
        ensures { Grows result self.old self.new (to_fail path.now) }
    {
        self.failed.push(path.clone()?)?;
        Ok(())
    }

    /// The path is left as it is.
    pub(crate) fn add_skip(&mut self)
        requires { self.old.skip + 1 < 2 ^ 64 }
        ensures { (path : List ℕ) → self.new ≡ joined self.old (lists_of (to_skip path)) }
    {
        self.skip += 1;
    }
}
