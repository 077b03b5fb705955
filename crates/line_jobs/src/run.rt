// The lines of a block are run.
ghost use Rattle.std.specs.Prelude.{◌≡◌, ◌⊎◌, ◌+◌, ◌≤◌, ◌<◌, ◌^◌, [], replicate, vec_capacity, vec_len, IfErr, IfOk, None, Err, true};
ghost use Rattle.script_loop.specs.declared.ends.Halt.TheVariants.{Memory};
ghost use Rattle.command_steps.specs.Clients.{all_seen};
ghost use Rattle.line_jobs.specs.Ran.{EndsLines, IsEnding, RanLines};
ghost use Rattle.line_jobs.specs.declared.lent.Lent.TheVariants.{Away};

use crate::job::{LineJob, Said};
use crate::lent::Lent;
use crate::sharing::{Gathered, Room, all_back, all_here, gather, rooms_for, seat_all};
use blocks::Line;
use choosers::Binder;
use client_trees::Tree;
use crew::{Block, Gate, run_block};
use hall::Hall;
use script_loop::Halt;
use std::alloc::{AllocError, Global};
use std::sync::Wait;
use std::thread::Threads;
use store_api::Store;

/// What came of the lines of a block.
#[derive(Drop)]
pub struct Ran<S: Store, T: Tree> {
    /// The hall behind the jobs.
    pub hall: Hall<S>,
    /// The clients' trees, as the jobs left them.
    pub trees: Vec<T>,
    /// What is said of the lines, the first job's first; or how they ended the run.
    pub ended: Result<Vec<Said>, Halt>,
}

// What has to be there before the first job begins, so that trees can be shared out and come back without memory.
#[derive(Drop)]
struct Rooms<'a, T: Tree> {
    places: Vec<Lent<T>>,
    back: Vec<T>,
    jobs: Vec<LineJob<'a, T>>,
    rooms: Vec<Room<T>>,
}

/// Room for so many jobs and so many trees.
fn make_rooms<'a, T: Tree + Drop>(
    alloc: Global,
    jobs: u32,
    many: usize,
) -> Result<Rooms<'a, T>, AllocError>
    ensures places { IfOk result (λ r. (r.places.items ≡ []) × (many ≤ vec_capacity r.places)) }
    ensures back { IfOk result (λ r. (r.back.items ≡ []) × (many ≤ vec_capacity r.back)) }
    ensures jobs { IfOk result (λ r. (r.jobs.items ≡ []) × (jobs ≤ vec_capacity r.jobs)) }
    ensures rooms { IfOk result (λ r. r.rooms.items ≡ replicate jobs (replicate many (Away 0))) }
{
    let places = Vec::with_capacity(alloc, many)?;
    let back = Vec::with_capacity(alloc, many)?;
    let seats = Vec::with_capacity(alloc, jobs as usize)?;
    let rooms = rooms_for(alloc, jobs, many)?;
    Ok(Rooms {
        places,
        back,
        jobs: seats,
        rooms,
    })
}

/// Memory was wanted before the first job.
fn unrun<S: Store, T: Tree + Drop>(hall: Hall<S>, trees: Vec<T>) -> Ran<S, T>
    ensures hall { result.hall ≡ hall }
    ensures ended { result.ended ≡ Err Memory }
{
    Ran {
        hall,
        trees,
        ended: Err(Halt::Memory),
    }
}

/// What the lines came to: what is said of them, where nothing ended the run, nothing is missing and all trees are back.
fn come_to(
    said: Vec<Said>,
    ended: Option<Halt>,
    is_whole: bool,
    are_back: bool,
) -> Result<Vec<Said>, Halt>
    ensures ok { IfOk result (λ s. (ended ≡ None) × (is_whole ≡ true) × (are_back ≡ true) × (s ≡ said)) }
    ensures err { IfErr result (λ how. ((are_back ≡ true) × IsEnding ended how) ⊎ (how ≡ Memory)) }
{
    if !are_back {
        return Err(Halt::Memory);
    }
    match ended {
        Some(how) => Err(how),
        None => {
            if is_whole {
                Ok(said)
            } else {
                Err(Halt::Memory)
            }
        }
    }
}

/// Runs the lines of a block of so many jobs, each job as an actor of its own, numbered from `first` on, on threads of their own where they can be started. `lines` are the block's, and the clients' trees have
/// numbers from 0 on: a job has those that it is the first of the block to name. What is said of the lines isn't printed yet. Where memory is wanted before the first job none is run; where it is wanted later the
/// run ends. The hall is left as the jobs left it: whether it rests is for the caller to see.
pub fn run_lines<S: Store + Send, T: Tree + Drop + Send, R: Threads + Wait + Sync, G: Gate + Sync>(
    rt: &R,
    alloc: Global,
    hall: Hall<S>,
    trees: Vec<T>,
    binder: &Binder,
    lines: &[Line],
    jobs: u32,
    first: u32,
    gate: &G,
) -> Ran<S, T>
    requires { first + jobs < 2 ^ 32 }
    ensures ran { IfOk result.ended (λ said. RanLines S.told S.moment_of S.faults_of binder.now lines.now jobs first hall result.hall (all_seen T.files T.fault_count trees.items) said.items (all_seen T.files T.fault_count result.trees.items)) }
    ensures ended { IfErr result.ended (λ how. EndsLines S.told S.moment_of S.faults_of binder.now lines.now jobs first hall result.hall (all_seen T.files T.fault_count trees.items) how (all_seen T.files T.fault_count result.trees.items)) }
{
    let Ok(made) = make_rooms(alloc, jobs, trees.len()) else {
        return unrun(hall, trees);
    };
    let Rooms {
        places,
        back,
        jobs: seats,
        rooms,
    } = made;
    let mut places = all_here(trees, places);
    let seats = seat_all(alloc, lines, binder, rooms, seats, places.as_mut_slice());
    let Block {
        hall,
        jobs: seats,
        ended,
        is_stopped,
    } = run_block(rt, alloc, hall, seats, first, gate);
    let Gathered {
        said,
        ended: how,
        is_whole,
    } = gather(lines, seats, places.as_mut_slice(), Vec::new(alloc));
    let (trees, are_back) = all_back(places, back);
    match ended {
        Ok(()) => {}
        Err(_) => return unrun(hall, trees),
    }
    Ran {
        hall,
        trees,
        ended: come_to(said, how, is_whole & !is_stopped, are_back),
    }
}
