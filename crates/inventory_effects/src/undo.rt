//! What it takes to undo the steps of a transaction for which memory was wanted.

ghost use Rattle.std.specs.Prelude.{◌≡◌, ◌∷◌, [], MatchOption, Ok};
ghost use Rattle.kinds.specs.Answers.{Becomes};
ghost use Rattle.inventory_rows.specs.State.{inv_of};
ghost use Rattle.inventory_effects.specs.Undoing.{undone, CanUndo, all_undone, CanUndoAll};

use inventory_rows::Tables;
use kinds::{Day, Name, Path, Refusal, Segment};
use std::alloc::Global;
use std::marker::Model;

/// What it takes to undo a step.
#[derive(Drop)]
pub enum Undo {
    /// A scratch volume was made, by its file number; the next file number was this.
    Scratch {
        file: u32,
        next_file: u32,
    },
    /// A segment of an object was put on its volume, which ended there and was emptied on that day.
    Segment {
        object: u64,
        segment: Segment,
        end: u64,
        emptied: Option<Day>,
    },
    /// A version was put at a path, which was bound to this class, and had an active version or none; the next object number was
    /// this.
    Version {
        filespace: u32,
        path: Path,
        class: Name,
        active: bool,
        next_object: u64,
    },
    /// An object is held that wasn't; the next object number was this.
    Held {
        object: u64,
        next_object: u64,
    },
    /// A copy of an object was added in a pool.
    Copy {
        object: u64,
        pool: u32,
    },
}

/// What it takes to undo the steps that were made. Contracts see the list of it, the newest step first.
#[derive(Drop)]
pub struct UndoLog {
    steps: Vec<Undo>,
}

impl Model for UndoLog {
    ghost use Rattle.std.specs.Prelude.{List, reverse};
    ghost use Rattle.inventory_effects.specs.declared.undo.Undo.{Undo};

    ghost Value = { List Undo };

    ghost view = { λ l. reverse l.steps.items };
}

impl UndoLog {
    /// No step. It takes no memory.
    pub fn new(alloc: Global) -> Self
        ensures { result ≡ [] }
    {
        UndoLog {
            steps: Vec::new(alloc),
        }
    }

    /// One step more.
    pub(crate) fn push(&mut self, step: Undo) -> Result<(), Refusal>
        ensures { Becomes result self.old self.new (Ok (step ∷ self.old)) }
    {
        self.steps.push(step)?;
        Ok(())
    }

    /// The newest step goes.
    pub(crate) fn pop(&mut self) -> Option<Undo>
        ensures { MatchOption result ((self.old ≡ []) × (self.new ≡ [])) (λ step. self.old ≡ step ∷ self.new) }
    {
        self.steps.pop()
    }
}

/// Undoes a step.
fn undo_step(tables: &mut Tables, step: Undo)
    requires { CanUndo step (inv_of tables.old) }
    ensures { inv_of tables.new ≡ undone step (inv_of tables.old) }
{
    match step {
        Undo::Scratch { file, next_file } => {
            tables.pools.drop_scratch(file);
            tables.next_file = next_file;
        }
        Undo::Segment {
            object,
            segment,
            end,
            emptied,
        } => tables.pools.undo_segment(object, &segment, end, emptied),
        Undo::Version {
            filespace,
            path,
            class,
            active,
            next_object,
        } => {
            tables.objects.undo_insert(filespace, &path, class, active);
            tables.next_object = next_object;
        }
        Undo::Held {
            object,
            next_object,
        } => {
            match tables.objects.discard(object) {
                Ok(()) => {}
                Err(_) => {}
            }
            tables.next_object = next_object;
        }
        Undo::Copy { object, pool } => match tables.objects.drop_copy(object, pool) {
            Ok(()) => {}
            Err(_) => {}
        },
    }
}

/// Undoes the steps that were made, the newest first. It takes no memory.
pub fn undo_all(tables: &mut Tables, mut log: UndoLog)
    requires { CanUndoAll log (inv_of tables.old) }
    ensures { inv_of tables.new ≡ all_undone log (inv_of tables.old) }
{
    'steps: while let Some(step) = log.pop() {
        undo_step(tables, step);
    }
}
