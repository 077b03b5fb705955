// The lines of a block.
ghost use Rattle.std.specs.Prelude.{◌≡◌, ◌≤◌, ◌<◌, ◌^◌, ◌+◌, ◌-◌, [], length, OnOk, OnErr};
ghost use Rattle.blocks.specs.Shapes.{Takes, begun, with_part, with_placed};
ghost use Rattle.blocks.specs.declared.part.Part.TheVariants.{And, Other};

use crate::part::{Part, part_of_line};
use std::alloc::{AllocError, Global};
use std::marker::Model;

/// So many jobs a block has at most.
pub const MOST_JOBS: u32 = 32;

/// So many lines a block has at most between PARALLEL and END.
pub const MOST_LINES: u32 = 1024;

/// What becomes of a line of a job.
#[derive(Clone, Copy, Debug, PartialEq, Eq)]
pub enum Fate {
    /// It is done. Its command names the client's tree with this number, if any.
    Done(Option<u64>),
    /// It is one too many, a further AND or a further line: it is refused with `Syntax` at its first column, and has no effect.
    Beyond,
}

/// A line of a job.
#[derive(Drop)]
pub struct Line {
    /// The place of its job in the block, from 0.
    pub job: u32,
    /// Its number in the script.
    pub number: u32,
    /// Its text, without its LF and the CR before it, of fewer than 2^32 - 1 bytes. A line that is one too many is kept without it.
    pub text: Vec<u8>,
    /// What becomes of it.
    pub fate: Fate,
}

impl Model for Line {
    ghost use Rattle.std.specs.Prelude.{◌<◌, ◌-◌, ◌^◌, length};
    ghost use Rattle.blocks.specs.Shapes.{Placed};

    ghost Value = { Placed };

    ghost view = { λ l. record { job = l.job; number = l.number; text = l.text.items; fate = l.fate } };

    ghost invariant = { λ l. length l.text.items < 2 ^ 32 - 1 };
}

/// The lines of a block so far. Contracts see them, how many more it may have, and the place of the job in which the next one stands.
#[derive(Drop)]
pub struct Block {
    lines: Vec<Line>,
    room: u32,
    job: u32,
}

impl Model for Block {
    ghost use Rattle.std.specs.Prelude.{◌<◌};
    ghost use Rattle.blocks.specs.Shapes.{Gathered};

    ghost Value = { Gathered };

    ghost view = { λ b. record { lines = b.lines.items; room = b.room; job = b.job } };

    ghost invariant = { λ b. b.job < 32 };
}

impl Block {
    /// A block of one job without lines. It takes no memory.
    pub fn new(alloc: Global) -> Block
        ensures { result ≡ begun }
    {
        Block {
            lines: Vec::new(alloc),
            room: MOST_LINES,
            job: 0,
        }
    }

    /// Takes the next line, of fewer than 2^32 - 1 bytes, with its number in the script, and answers whether it ends the block. Where it does, and where memory is wanted, the block stays as it is.
    pub fn take(&mut self, alloc: Global, number: u32, line: &[u8]) -> Result<bool, AllocError>
        requires { length line.now < 2 ^ 32 - 1 }
        ensures { Takes number line.now result self.old self.new }
    {
        match part_of_line(alloc, line)? {
            Part::End => Ok(true),
            Part::And => {
                self.take_and(alloc, number)?;
                Ok(false)
            }
            Part::Other(tree) => {
                self.take_other(alloc, number, line, tree)?;
                Ok(false)
            }
        }
    }

    /// How many jobs it has, 1 to 32.
    pub fn jobs(&self) -> u32
        ensures jobs { result ≡ self.now.job + 1 }
        ensures most { result ≤ 32 }
    {
        self.job + 1
    }

    /// Its lines, those of the first job first.
    pub fn lines(&self) -> &[Line]
        ensures { result.now ≡ self.now.lines }
    {
        &self.lines
    }

    /// Its lines, those of the first job first.
    pub fn into_lines(self) -> Vec<Line>
        ensures { result.items ≡ self.lines }
    {
        self.lines
    }

    // An AND: a further job begins, or it is one too many.
    fn take_and(&mut self, alloc: Global, number: u32) -> Result<(), AllocError>
        ensures taken { OnOk result (self.new ≡ with_part self.old number [] And) }
        ensures kept { OnErr result (self.new ≡ self.old) }
    {
        if self.room > 0 && self.job + 1 < MOST_JOBS {
            self.room -= 1;
            self.job += 1;
            return Ok(());
        }
        self.add(number, Vec::new(alloc), Fate::Beyond)
    }

    // A line that is neither AND nor END.
    fn take_other(
        &mut self,
        alloc: Global,
        number: u32,
        line: &[u8],
        tree: Option<u64>,
    ) -> Result<(), AllocError>
        requires { length line.now < 2 ^ 32 - 1 }
        ensures taken { OnOk result (self.new ≡ with_part self.old number line.now (Other tree)) }
        ensures kept { OnErr result (self.new ≡ self.old) }
    {
        if self.room > 0 {
            let text = line.to_vec(alloc)?;
            return self.add(number, text, Fate::Done(tree));
        }
        self.add(number, Vec::new(alloc), Fate::Beyond)
    }

    // One line more in the present job.
    fn add(&mut self, number: u32, text: Vec<u8>, fate: Fate) -> Result<(), AllocError>
        requires { length text.items < 2 ^ 32 - 1 }
        ensures added { OnOk result (self.new ≡ with_placed self.old (record { job = self.old.job; number = number; text = text.items; fate = fate })) }
        ensures kept { OnErr result (self.new ≡ self.old) }
    {
        let job = self.job;
        self.lines.push(Line {
            job,
            number,
            text,
            fate,
        })?;
        self.room = self.room.saturating_sub(1);
        Ok(())
    }
}
