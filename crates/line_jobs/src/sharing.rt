// The clients' trees are shared out among the jobs of a block, and given back.
ghost use Rattle.std.specs.Prelude.{◌≡◌, ◌≤◌, ◌<◌, ◌++◌, ◌^◌, [], None, map, replicate, if◌then◌else◌, vec_len, vec_capacity, IfOk, IsTrue};
ghost use Rattle.line_jobs.specs.Rooms.{taken_in};
ghost use Rattle.line_jobs.specs.Shares.{all_said, begun_jobs, ends_by, exchanged, given_back, has, or_weightier, weightier};
ghost use Rattle.line_jobs.specs.declared.lent.Lent.TheVariants.{Away, Here};

use crate::job::{LineJob, Said};
use crate::lent::Lent;
use blocks::{Line, first_job};
use choosers::Binder;
use client_trees::Tree;
use script_loop::Halt;
use std::alloc::{AllocError, Global};
use std::marker::Model;
use std::mem;

/// The bytes of a job's buffer for pieces of files.
const PIECE: usize = 65536;

/// Room for a job: places for the clients' trees, which are all lent out, and a buffer for pieces of files.
#[derive(Drop)]
pub(crate) struct Room<T: Tree> {
    trees: Vec<Lent<T>>,
    buffer: Vec<u8>,
}

impl<T: Tree> Model for Room<T> {
    ghost use Rattle.std.specs.Prelude.{◌≤◌, ◌^◌, List, length};
    ghost use Rattle.line_jobs.specs.declared.lent.Lent.{Lent as IsLent};

    ghost Value = { List (IsLent T) };

    ghost view = { λ r. r.trees.items };

    ghost invariant = { λ r. (1 ≤ length r.buffer.items) × (length r.buffer.items ≤ 2 ^ 16) };
}

/// What was gathered of the jobs of a block: what is said of their lines, how they ended the run, if they did, and whether what is said is all that was said.
#[derive(Drop)]
pub(crate) struct Gathered {
    pub(crate) said: Vec<Said>,
    pub(crate) ended: Option<Halt>,
    pub(crate) is_whole: bool,
}

// ---- one job

/// Whether the job at this place has the tree with this number: it is the first of the block to name it.
fn has(lines: &[Line], job: u32, number: usize) -> bool
    ensures { result ≡ has lines.now job number }
{
    match first_job(number as u64, lines) {
        Some(first) => first == job,
        None => false,
    }
}

/// What stands in two places for the tree with this number changes its place, where the job has the tree.
fn exchange_one<T: Tree + Drop>(
    lines: &[Line],
    job: u32,
    number: usize,
    own: &mut Lent<T>,
    other: &mut Lent<T>,
)
    ensures own { own.new ≡ (if has lines.now job number then other.old else own.old) }
    ensures other { other.new ≡ (if has lines.now job number then own.old else other.old) }
{
    if has(lines, job, number) {
        mem::swap(own, other);
    }
}

/// Of two lists of places for the clients' trees those of the trees that the job has change what they have.
fn exchange<T: Tree + Drop>(lines: &[Line], job: u32, own: &mut [Lent<T>], other: &mut [Lent<T>])
    ensures own { own.new ≡ exchanged lines.now job 0 own.old other.old }
    ensures other { other.new ≡ exchanged lines.now job 0 other.old own.old }
{
    let count = own.len().min(other.len());
    'trees: for number in 0..count {
        exchange_one(lines, job, number, &mut own[number], &mut other[number]);
    }
}

/// So many places for trees, all of which are lent out.
fn absent<T: Tree + Drop>(alloc: Global, many: usize) -> Result<Vec<Lent<T>>, AllocError>
    ensures { IfOk result (λ trees. trees.items ≡ replicate many (Away 0)) }
{
    let mut trees = Vec::with_capacity(alloc, many)?;
    'trees: for at in 0..many {
        let _ = at;
        trees.push_reserved(Lent::Away(0));
    }
    Ok(trees)
}

/// Room for one job, where there are so many trees.
fn make_room<T: Tree + Drop>(alloc: Global, many: usize) -> Result<Room<T>, AllocError>
    ensures { IfOk result (λ room. room ≡ replicate many (Away 0)) }
{
    let trees = absent(alloc, many)?;
    let buffer = vec![in alloc; 0; PIECE]?;
    Ok(Room { trees, buffer })
}

/// The job at this place begins: it takes the trees that it has.
fn seat<'a, T: Tree + Drop>(
    alloc: Global,
    lines: &'a [Line],
    binder: &'a Binder,
    room: Room<T>,
    job: u32,
    trees: &mut [Lent<T>],
) -> LineJob<'a, T>
    ensures job { result ≡ record { choice = binder.now; lines = lines.now; job = job; trees = exchanged lines.now job 0 room trees.old; said = []; ended = None } }
    ensures trees { trees.new ≡ exchanged lines.now job 0 trees.old room }
{
    let Room {
        trees: mut own,
        buffer,
    } = room;
    exchange(lines, job, own.as_mut_slice(), trees);
    LineJob {
        alloc,
        lines,
        job,
        trees: own,
        binder,
        buffer,
        said: Vec::new(alloc),
        ended: None,
    }
}

/// The job at this place has ended, and gives back the trees that it has.
fn unseat<T: Tree + Drop>(
    lines: &[Line],
    at: u32,
    job: LineJob<'_, T>,
    trees: &mut [Lent<T>],
) -> (Vec<Said>, Option<Halt>)
    ensures said { result.0.items ≡ job.entry.said }
    ensures ended { result.1 ≡ job.entry.ended }
    ensures trees { trees.new ≡ exchanged lines.now at 0 trees.old job.entry.trees }
{
    let LineJob {
        trees: mut own,
        said,
        ended,
        ..
    } = job;
    exchange(lines, at, trees, own.as_mut_slice());
    (said, ended)
}

// ---- all jobs

/// Room for so many jobs.
pub(crate) fn rooms_for<T: Tree + Drop>(
    alloc: Global,
    jobs: u32,
    many: usize,
) -> Result<Vec<Room<T>>, AllocError>
    ensures { IfOk result (λ rooms. rooms.items ≡ replicate jobs (replicate many (Away 0))) }
{
    let mut rooms = Vec::with_capacity(alloc, jobs as usize)?;
    'jobs: for at in 0..jobs {
        let _ = at;
        let room = make_room(alloc, many)?;
        rooms.push_reserved(room);
    }
    Ok(rooms)
}

/// The jobs begin, one after the other.
pub(crate) fn seat_all<'a, T: Tree + Drop>(
    alloc: Global,
    lines: &'a [Line],
    binder: &'a Binder,
    rooms: Vec<Room<T>>,
    jobs: Vec<LineJob<'a, T>>,
    trees: &mut [Lent<T>],
) -> Vec<LineJob<'a, T>>
    requires none { jobs.items ≡ [] }
    requires few { vec_len rooms < 2 ^ 32 }
    requires room { vec_len rooms ≤ vec_capacity jobs }
    ensures jobs { result.items ≡ begun_jobs binder.now lines.now 0 (taken_in lines.now 0 rooms.items trees.old) }
    ensures trees { trees.new ≡ given_back lines.now 0 rooms.items trees.old }
{
    let mut jobs = jobs;
    let mut job = 0;
    'rooms: for room in rooms {
        jobs.push_reserved(seat(alloc, lines, binder, room, job, trees));
        job += 1;
    }
    jobs
}

/// The weightier of two ways in which jobs ended the run: a fault before a full run, and both before want of memory; of two faults the first job's.
fn weightier(how: Halt, other: Halt) -> Halt
    ensures { result ≡ weightier how other }
{
    match how {
        Halt::LogFault(file) => Halt::LogFault(file),
        Halt::RunFull => match other {
            Halt::LogFault(file) => Halt::LogFault(file),
            Halt::RunFull => Halt::RunFull,
            Halt::Memory => Halt::RunFull,
        },
        Halt::Memory => other,
    }
}

fn or_weightier(how: Option<Halt>, other: Option<Halt>) -> Option<Halt>
    ensures { result ≡ or_weightier how other }
{
    match how {
        None => other,
        Some(how) => match other {
            None => Some(how),
            Some(other) => Some(weightier(how, other)),
        },
    }
}

/// What was said of a job's lines joins what was said of those before, unless memory was wanted.
fn add_said(all: &mut Vec<Said>, own: Vec<Said>) -> bool
    ensures { IsTrue result → all.new.items ≡ all.old.items ++ own.items }
{
    let mut own = own;
    all.append(&mut own).is_ok()
}

/// The jobs have ended, and give back their trees, one after the other; and what is said of their lines is gathered.
pub(crate) fn gather<T: Tree + Drop>(
    lines: &[Line],
    jobs: Vec<LineJob<'_, T>>,
    trees: &mut [Lent<T>],
    said: Vec<Said>,
) -> Gathered
    requires none { said.items ≡ [] }
    requires few { vec_len jobs < 2 ^ 32 }
    ensures said { IsTrue result.is_whole → result.said.items ≡ all_said (map (λ j. j.said) jobs.entry.items) }
    ensures ended { result.ended ≡ ends_by None (map (λ j. j.ended) jobs.entry.items) }
    ensures trees { trees.new ≡ given_back lines.now 0 (map (λ j. j.trees) jobs.entry.items) trees.old }
{
    let mut all = said;
    let mut ended = None;
    let mut is_whole = true;
    let mut at = 0;
    'jobs: for job in jobs {
        let (own, how) = unseat(lines, at, job, trees);
        is_whole = add_said(&mut all, own) & is_whole;
        ended = or_weightier(ended, how);
        at += 1;
    }
    Gathered {
        said: all,
        ended,
        is_whole,
    }
}

// ---- all trees

/// A place for each tree, with the tree.
pub(crate) fn all_here<T: Tree + Drop>(trees: Vec<T>, places: Vec<Lent<T>>) -> Vec<Lent<T>>
    requires none { places.items ≡ [] }
    requires room { vec_len trees ≤ vec_capacity places }
    ensures { result.items ≡ map Here trees.items }
{
    let mut places = places;
    'trees: for tree in trees {
        places.push_reserved(Lent::Here(tree));
    }
    places
}

/// The trees, and whether none of them is lent out.
pub(crate) fn all_back<T: Tree + Drop>(places: Vec<Lent<T>>, trees: Vec<T>) -> (Vec<T>, bool)
    requires none { trees.items ≡ [] }
    requires room { vec_len places ≤ vec_capacity trees }
    ensures { IsTrue result.1 → places.items ≡ map Here result.0.items }
{
    let mut trees = trees;
    let mut are_back = true;
    'places: for place in places {
        match place {
            Lent::Here(tree) => trees.push_reserved(tree),
            Lent::Away(_) => are_back = false,
        }
    }
    (trees, are_back)
}
