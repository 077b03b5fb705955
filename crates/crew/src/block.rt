//! A block of jobs that run on threads over one hall.
ghost use Rattle.std.specs.Prelude.{◌≡◌, ◌+◌, ◌≤◌, ◌<◌, ◌^◌, ℕ, List, [], Some, length, map, vec_len, vec_capacity, OnOk, OnErr, IfSome, slice_index_or};
ghost use Rattle.std.specs.List.{AllByRecursion};
ghost use Rattle.crossbeam_utils.specs.Seq.{cell_view};
ghost use Rattle.crew.specs.Blocks.{CameTo};
ghost use Rattle.crew.specs.Knowing.{IsWithin, keeping};
ghost use Rattle.crew.specs.Passes.{EachDid, IsTold, Worked, seats_of};
ghost use Rattle.crew.specs.Ran.{RanFrom, began};
ghost use Rattle.machine.specs.Turns.{Turn as Told, events_of};

use crate::board::Board;
use crate::job::{Job, Seat, run_job};
use crate::known::{Cell, Keeper, Known, Named, Origin, Own, open_cell};
use crate::pass::{Gate, Shared};
use hall::Hall;
use std::alloc::{AllocError, Global};
use std::marker::Brand;
use std::sync::{Condvar, Mutex, Wait};
use std::thread;
use std::thread::Threads;
use store_api::Store;

/// What came of a block: the hall behind it, the jobs as they are then, whether they were run, which they are where there was memory for it, and whether a step wanted memory.
#[derive(Drop)]
pub struct Block<S: Store, J: Job + Drop> {
    pub hall: Hall<S>,
    pub jobs: Vec<J>,
    pub ended: Result<(), AllocError>,
    pub is_stopped: bool,
}

/// Each job gets the pass of an actor; these are numbered from `first` on.
fn begin_all<J: Job + Drop, B: Origin>(
    named: &Named<B>,
    keeper: &mut Keeper<B>,
    jobs: Vec<J>,
    first: u32,
    seats: Vec<Seat<J, B>>,
) -> Vec<Seat<J, B>>
    requires none { seats.items ≡ [] }
    requires room { vec_len jobs ≤ vec_capacity seats }
    requires keeper { keeper.old.1 ≤ first }
    requires few { first + vec_len jobs < 2 ^ 32 }
    requires within { (B.least ≤ first) × (first + vec_len jobs ≤ B.most) }
    ensures keeper { keeper.new.0 ≡ keeper.old.0 }
    ensures seats { result.items ≡ seats_of first jobs.items }
    ensures len { vec_len result ≡ vec_len jobs }
{
    let mut seats = seats;
    let mut actor = first;
    'jobs: for job in jobs {
        let own = keeper.begin(named, actor);
        seats.push_reserved((job, Some(own)));
        actor += 1;
    }
    seats
}

/// An actor ends, if there is one.
fn end_one<B: Origin, R: Wait>(
    rt: &R,
    named: &Named<B>,
    keeper: &mut Keeper<B>,
    own: Option<Own<B>>,
)
    ensures keeper { keeper.new ≡ keeper.old }
    ensures told { IfSome own (λ o. o.1 ≡ events_of o.0 keeper.old.0) }
{
    match own {
        Some(own) => keeper.end(rt, named, own),
        None => {}
    }
}

/// All actors end.
fn end_all<J: Job + Drop, B: Origin, R: Wait>(
    rt: &R,
    named: &Named<B>,
    keeper: &mut Keeper<B>,
    seats: Vec<Seat<J, B>>,
    jobs: Vec<J>,
) -> Vec<J>
    requires none { jobs.items ≡ [] }
    requires room { vec_len seats ≤ vec_capacity jobs }
    ensures keeper { keeper.new ≡ keeper.old }
    ensures jobs { result.items ≡ map (λ s. s.0) seats.items }
    ensures told { AllByRecursion (IsTold keeper.old.0) seats.items }
{
    let mut jobs = jobs;
    'seats: for seat in seats {
        let (job, own) = seat;
        end_one(rt, named, keeper, own);
        jobs.push_reserved(job);
    }
    jobs
}

/// Runs each job, on a thread of its own where one can be started, else on one that tried.
fn run_all<
    S: Store + Send,
    J: Job + Drop + Send,
    B: Origin + Send + Sync,
    R: Threads + Wait + Sync,
    G: Gate + Sync,
>(rt: &R, shared: &Shared<S, B>, gate: &G, seats: Vec<Seat<J, B>>) -> Vec<Seat<J, B>>
    ensures len { length result.items ≡ length seats.items }
    ensures room { vec_len result ≡ vec_len seats }
    ensures worked { (i : ℕ) (d : _) → i < length seats.items → Worked J.did (slice_index_or seats.items i d).0 (slice_index_or seats.items i d).1 (slice_index_or result.items i d).0 (slice_index_or result.items i d).1 }
{
    let mut seats = seats;
    let threads = seats.len().max(1);
    thread::for_each_mut(
        rt,
        seats.as_mut_slice(),
        threads,
        &|_, seat| run_job(seat, shared, rt, gate),
    );
    seats
}

/// Runs the jobs over a hall with its cell.
fn in_block<
    S: Store + Send,
    J: Job + Drop + Send,
    B: Origin + Send + Sync,
    R: Threads + Wait + Sync,
    G: Gate + Sync,
>(
    rt: &R,
    alloc: Global,
    cell: Cell,
    keeper: Known,
    hall: Hall<S>,
    jobs: Vec<J>,
    first: u32,
    gate: &G,
) -> Block<S, J>
    requires table { (cell.table.shared.table_id ≡ B.table) × (keeper.table_id ≡ B.table) }
    requires keeper { cell_view keeper ≡ keeping [] 0 }
    requires first { B.first ≡ Some (began S.told S.moment_of S.faults_of hall) }
    requires actors { (B.least ≡ first) × (B.most ≡ first + vec_len jobs) }
    requires few { first + vec_len jobs < 2 ^ 32 }
    ensures ran { OnOk result.ended ((turns : List Told) × RanFrom S.told S.moment_of S.faults_of B.first turns result.hall × AllByRecursion (IsWithin first (first + length jobs.items)) turns × EachDid J.did first turns jobs.items result.jobs.items) }
    ensures none { OnErr result.ended ((result.hall ≡ hall) × (result.jobs.items ≡ jobs.items)) }
    ensures many { length result.jobs.items ≡ length jobs.items }
{
    let Ok(room) = Vec::with_capacity(alloc, jobs.len()) else {
        return unrun(hall, jobs);
    };
    let Ok(seats) = Vec::with_capacity(alloc, jobs.len()) else {
        return unrun(hall, jobs);
    };
    let named = Named::<B>::new(cell);
    let mut keeper = Keeper::new(keeper);
    let seats = begin_all(&named, &mut keeper, jobs, first, seats);
    let shared = Shared {
        named,
        board: Mutex::new(Board::new(hall, keeper)),
        changed: Condvar::new(),
    };
    let seats = run_all(rt, &shared, gate, seats);
    let Shared {
        named,
        board,
        changed: _,
    } = shared;
    let board = board.into_inner();
    let is_stopped = board.is_stopped();
    let (hall, mut keeper) = board.into_parts();
    let jobs = end_all(rt, &named, &mut keeper, seats, room);
    Block {
        hall,
        jobs,
        ended: Ok(()),
        is_stopped,
    }
}

/// Memory was wanted before the first job.
fn unrun<S: Store, J: Job + Drop>(hall: Hall<S>, jobs: Vec<J>) -> Block<S, J>
    ensures ended { OnOk result.ended ⊥ }
    ensures hall { result.hall ≡ hall }
    ensures jobs { result.jobs ≡ jobs }
{
    Block {
        hall,
        jobs,
        ended: Err(AllocError),
        is_stopped: true,
    }
}

/// Runs the jobs over a hall, each as an actor of its own, numbered from `first` on, on threads over one lock. They are joined before it returns. Where memory is wanted before the first job no
/// job is run. The steps of all jobs, in the order in which they had the lock, led from the hall to the one that is given back, and nobody else made one; and what each job did are exactly the steps of its actor
/// among these.
pub fn run_block<S: Store + Send, J: Job + Drop + Send, R: Threads + Wait + Sync, G: Gate + Sync>(
    rt: &R,
    alloc: Global,
    hall: Hall<S>,
    jobs: Vec<J>,
    first: u32,
    gate: &G,
) -> Block<S, J>
    requires { first + vec_len jobs < 2 ^ 32 }
    ensures ran { OnOk result.ended (CameTo S.told S.moment_of S.faults_of J.did first hall jobs.items result.hall result.jobs.items) }
    ensures none { OnErr result.ended ((result.hall ≡ hall) × (result.jobs.items ≡ jobs.items)) }
    ensures many { length result.jobs.items ≡ length jobs.items }
{
    match open_cell(alloc) {
        Ok((cell, keeper)) => {
            in_block::<S, J, Brand, R, G>(rt, alloc, cell, keeper, hall, jobs, first, gate)
        }
        Err(_) => unrun(hall, jobs),
    }
}
