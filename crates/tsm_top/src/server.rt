// The server of a script: its session, and the block that is open.
ghost use Rattle.std.specs.Prelude.{◌<◌, ◌+◌, ◌-◌, ◌^◌, ℕ, length, IfErr, IfOk, IsSome};
ghost use Rattle.tsm_top.specs.InBlock.{Took};
ghost use Rattle.tsm_top.specs.Servers.{EndsBlock, ServesBlock, can_take};
ghost use Rattle.tsm_top.specs.Sessions.{can_serve};

use crate::block::run_block;
use crate::session::Session;
use blocks::{Block, begins_block};
use client_trees::Tree;
use crew::Gate;
use script_loop::{Answered, Answerer, Halt, Reply};
use std::alloc::{AllocError, Global};
use std::sync::Wait;
use std::thread::Threads;
use store_api::Store;

/// A session, and the block in which the next line of the script stands, if it stands in one.
#[derive(Drop)]
pub(crate) struct Server<S: Store, T: Tree> {
    /// The session.
    pub(crate) session: Session<S, T>,
    /// The block that is open.
    pub(crate) block: Option<Block>,
    /// How many jobs were run so far. Their actors have the numbers from 1 on.
    pub(crate) jobs: u32,
}

/// What a line is to the block that is open, if one is.
#[derive(Clone, Copy)]
pub(crate) enum Taken {
    /// It stands in no block, and begins none.
    Outside,
    /// It begins a block, or is a line of the one that is open.
    Inside,
    /// It ends the block.
    Last,
}

/// Takes a line: one that begins a block opens it, one in a block joins it.
fn take_line(
    alloc: Global,
    block: &mut Option<Block>,
    number: u32,
    line: &[u8],
) -> Result<Taken, AllocError>
    requires { length line.now < 2 ^ 32 - 1 }
    ensures { Took number line.now result block.old block.new }
{
    match block {
        Some(open) => {
            if open.take(alloc, number, line)? {
                Ok(Taken::Last)
            } else {
                Ok(Taken::Inside)
            }
        }
        None => {
            if begins_block(alloc, line)? {
                *block = Some(Block::new(alloc));
                Ok(Taken::Inside)
            } else {
                Ok(Taken::Outside)
            }
        }
    }
}

impl<S: Store, T: Tree> Server<S, T> {
    ghost use Rattle.tsm_top.specs.Servers.{EndsOutside, ServesOutside, can_take};

    /// Answers a line that stands in no block and begins none.
    fn answer_outside(&mut self, alloc: Global, number: u32, line: &[u8]) -> Result<Reply, Halt>
        requires ready { can_serve self.old.session }
        requires short { length line.now < 2 ^ 32 - 1 }
        ensures served { IfOk result (λ reply. ServesOutside S.told S.moment_of S.faults_of T.files T.fault_count self.old number line.now reply self.new) }
        ensures halted { IfErr result (λ halt. EndsOutside S.told S.moment_of S.faults_of T.files T.fault_count self.old number line.now halt self.new) }
        ensures rest { (left : ℕ) → can_take left self.old → can_take left self.new }
    {
        self.session.one_line(alloc, number, line)
    }
}

/// A line outside blocks is done and answered by the session. One in a block is kept until the block's end, which is asked for: the line that ends it does so, or the script's end.
impl<S: Store, T: Tree> Answerer for Server<S, T> {
    ghost use Rattle.tsm_top.specs.Servers.{Asks, HaltsBy, Serves, can_take};

    ghost serves = { λ old n given answer new. Serves S.told S.moment_of S.faults_of T.files T.fault_count old n given answer new };

    ghost halts = { λ old n given halt new. HaltsBy S.told S.moment_of S.faults_of T.files T.fault_count old n given halt new };

    ghost asks = { λ old n given new. Asks old given new };

    ghost can_take = { λ server lines. can_take lines server };

    fn answer(&mut self, alloc: Global, number: u32, line: &[u8], left: u32) -> Answered {
        let _left = left;
        match take_line(alloc, &mut self.block, number, line) {
            Ok(Taken::Outside) => match self.answer_outside(alloc, number, line) {
                Ok(reply) => Answered::Replied(reply),
                Err(how) => Answered::Ended(how),
            },
            Ok(Taken::Inside) => Answered::Replied(Reply::nothing(alloc)),
            Ok(Taken::Last) => Answered::Asked,
            Err(_) => Answered::Ended(Halt::Memory),
        }
    }

    fn finish(&mut self, alloc: Global, number: u32, left: u32) -> Answered {
        let (_number, _left) = (number, left);
        match &self.block {
            None => Answered::Replied(Reply::nothing(alloc)),
            Some(_) => Answered::Asked,
        }
    }
}

/// Runs the block that is open, which the line with this number or the script's end ends.
pub(crate) fn end_block<
    S: Store + Send,
    T: Tree + Drop + Send,
    R: Threads + Wait + Sync,
    G: Gate + Sync,
>(
    rt: &R,
    gate: &G,
    alloc: Global,
    server: Server<S, T>,
    number: u32,
) -> (Server<S, T>, Result<Reply, Halt>)
    requires room { can_take 1 server }
    requires block { IsSome server.block }
    ensures served { IfOk result.1 (λ reply. ServesBlock S.told S.moment_of S.faults_of T.files T.fault_count server number reply result.0) }
    ensures halted { IfErr result.1 (λ halt. EndsBlock S.told S.moment_of S.faults_of T.files T.fault_count server number halt result.0) }
    ensures rest { (left : ℕ) → can_take (left + 1) server → can_take left result.0 }
{
    let Server {
        session,
        block,
        jobs,
    } = server;
    let block = match block {
        Some(block) => block,
        None => unreachable!(),
    };
    let count = block.jobs();
    let (session, ended) = run_block(rt, gate, alloc, session, &block, jobs + 1, number);
    let server = Server {
        session,
        block: None,
        jobs: jobs + count,
    };
    (server, ended)
}
