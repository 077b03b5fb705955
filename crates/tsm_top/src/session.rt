// A session of the server, and how it answers a line.
ghost use Rattle.std.specs.Prelude.{◌≡◌, ◌≤◌, ◌<◌, ◌-◌, ◌^◌, length, IfErr, IfOk};
ghost use Rattle.inventory_rows.specs.Ascending.{AreAscending};
ghost use Rattle.machine.specs.State.{Machine};
ghost use Rattle.hall.specs.Steps.{IsTrusted};
ghost use Rattle.hall_turns.specs.Runs.{CameTo};
ghost use Rattle.block_results.specs.command_steps.Answering.{AnswersLine};
ghost use Rattle.block_results.specs.command_steps.Clients.{client};
ghost use Rattle.block_results.specs.command_steps.Lines.{line_of};
ghost use Rattle.tsm_top.specs.OneLine.{ComesTo, RestsAs};
ghost use Rattle.tsm_top.specs.Sessions.{HaltsLine, ServesLine, can_serve};

use crate::note::{Note, note_of};
use block_results::command_steps::answer_line;
use block_results::command_steps::laws::lines_change_their_tree;
use block_results::line_results::laws::{Placing, answered_lines_hold, lines_come_to};
use choosers::Binder;
use client_trees::Tree;
use command_words::is_comment;
use entries::Database;
use hall::Hall;
use hall::laws::trusted_halls_are_safe;
use hall_turns::Direct;
use hall_turns::laws::{halls_at_rest_are_there, halls_leave_sound_stores, runs_are_alone};
use inventory_rows::are_ascending;
use kinds::Refusal;
use script_loop::{Halt, Reply};
use std::alloc::Global;
use store_api::Store;

/// A hall on which the script, actor 0, makes its steps alone, the clients' trees, and what was noted of its lines.
#[derive(Drop)]
pub struct Session<S: Store, T: Tree> {
    /// The hall.
    pub hall: Hall<S>,
    /// The clients' trees by their numbers, from 0.
    pub trees: Vec<T>,
    /// The include-exclude list of the client's files.
    pub binder: Binder,
    /// 65,536 bytes, for pieces of files.
    pub buffer: Vec<u8>,
    /// What was noted of the lines, in their order.
    pub notes: Vec<Note>,
}

/// Where the hall places objects.
pub(crate) struct HallPlaces;

impl Placing for HallPlaces {
    ghost use Rattle.hall.specs.Placed.{hall_places};
    ghost use Rattle.tsm_top.specs.Spots.{hall_goes_on, hall_is_lawful, nobody_holds};

    ghost places = { hall_places };

    ghost nobody = { nobody_holds };

    ghost goes_on = { hall_goes_on };

    ghost elsewhere = { hall_is_lawful };
}

/// The rows of the database that the hall was opened with ascend.
pub(crate) fn rows_ascend<S: Store>(hall: &Hall<S>)
    ensures { AreAscending hall.now.held.base }
{
    are_ascending(hall.base().tables());
}

/// Answers a line by the steps of the script, who has the hall alone, and by calls on the tree that it names.
pub(crate) fn answer_alone<S: Store, T: Tree>(
    alloc: Global,
    hall: &mut Hall<S>,
    trees: &mut [T],
    binder: &Binder,
    buffer: &mut [u8],
    number: u32,
    line: &[u8],
) -> Result<(Reply, Option<Refusal>), Halt>
    requires some { 1 ≤ length buffer.old }
    requires few { length buffer.old ≤ 2 ^ 16 }
    requires short { length line.now < 2 ^ 32 - 1 }
    ensures came { CameTo S.told S.moment_of S.faults_of 0 (λ events. AnswersLine (client T.files T.fault_count binder.now trees.old trees.new) number (line_of line.now) events result) hall.old hall.new }
    ensures long { length buffer.new ≡ length buffer.old }
{
    let mut direct = Direct::new(hall, 0);
    answer_line(alloc, &mut direct, trees, binder, buffer, number, line)
}

impl<S: Store, T: Tree> Session<S, T> {
    /// What a line is is done and answered, and noted; behind it a checkpoint is made where the log is long.
    fn answer_noted(&mut self, alloc: Global, number: u32, line: &[u8]) -> Result<Reply, Halt>
        requires ready { can_serve self.old }
        requires short { length line.now < 2 ^ 32 - 1 }
        ensures served { IfOk result (λ reply. ServesLine S.told S.moment_of S.faults_of T.files T.fault_count self.old number line.now reply self.new) }
        ensures halted { IfErr result (λ how. HaltsLine S.told S.moment_of S.faults_of T.files T.fault_count self.old number line.now how self.new) }
        ensures ready { can_serve self.new }
    {
        // The room for the note is taken before anything is done.
        if self.notes.reserve(1).is_err() {
            return Err(Halt::Memory);
        }
        let first = self.hall.base().number();
        let before = self.hall.number();
        let (reply, why) = match answer_alone(
            alloc,
            &mut self.hall,
            &mut self.trees,
            &self.binder,
            &mut self.buffer,
            number,
            line,
        ) {
            Ok(replied) => replied,
            Err(halt) => return Err(halt),
        };
        if is_comment(line) {
            return Ok(reply);
        }
        let after = self.hall.number();
        match self.notes.push(note_of(number, first, before, after, why)) {
            Ok(()) => Ok(reply),
            Err(_) => unreachable!(),
        }
    }

    /// Does what one line of a script asks, outside blocks, and answers the lines that are printed of it. Its command is done by steps of actor 0, who has the hall alone, and on the client's tree
    /// that it names; behind it a checkpoint is made where the log is long. It waits for nobody.
    ///
    /// `number` is the line's, counted from 1, and `line` has its bytes without LF. Of each line that was answered and is no comment a note joins the notes. It ends the run with the fault of a log or
    /// an image, with a full run or for want of memory, and answers with nothing else (`Halt`). A line that is refused is answered with its REFUSED line; so is a line of a block.
    pub fn one_line(&mut self, alloc: Global, number: u32, line: &[u8]) -> Result<Reply, Halt>
        requires ready { can_serve self.old }
        requires short { length line.now < 2 ^ 32 - 1 }
        // Which steps were made, what they did to the trees, and what was noted.
        ensures served { IfOk result (λ reply. ServesLine S.told S.moment_of S.faults_of T.files T.fault_count self.old number line.now reply self.new) }
        ensures halted { IfErr result (λ how. HaltsLine S.told S.moment_of S.faults_of T.files T.fault_count self.old number line.now how self.new) }
        ensures ready { can_serve self.new }
        // What that is of the machine, in whatever state at rest the hall was: the line's case, what holds of it, and what it leaves; so over any store.
        ensures comes { (m : Machine) → RestsAs S.told S.moment_of S.faults_of self.old m → ComesTo S.told S.moment_of S.faults_of T.files T.fault_count ⊥ self.old number line.now result self.new m }
        // Over one that tells its bytes and was sound when the hall was opened every byte is exact, and each image of each moment since is safe.
        ensures exact { (m : Machine) → RestsAs S.told S.moment_of S.faults_of self.old m → IsTrusted (S.told self.old.hall.store) self.old.hall.held
            → ComesTo S.told S.moment_of S.faults_of T.files T.fault_count (Unit {0}) self.old number line.now result self.new m }
    {
        runs_are_alone::<S>();
        halls_at_rest_are_there::<S>();
        halls_leave_sound_stores::<S>();
        trusted_halls_are_safe::<S>();
        rows_ascend(&self.hall);
        lines_come_to::<HallPlaces>();
        answered_lines_hold::<HallPlaces>();
        lines_change_their_tree();
        self.answer_noted(alloc, number, line)
    }
}
