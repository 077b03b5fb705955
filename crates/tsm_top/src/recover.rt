// A database is restored from a backup.
ghost use Rattle.std.specs.Prelude.{◌≡◌};
ghost use Rattle.tree_api.specs.Cause.{Rose as RoseIn};
ghost use Rattle.tsm_top.specs.Serve.{Closing, HasCause, Later, Shuts, restore};

use crate::top::{Ended, closed};
use client_trees::Tree;
use db_restore::restore_from;
use program_words::Wanted;
use recoveries::{lines_of, status_of};
use std::alloc::Global;
use store_api::Store;
use tree_api::Sink;

// Restores the database that the backup in a file gives, and puts what came of it.
pub(crate) fn recover<S: Store, T: Tree, O: Sink>(
    alloc: Global,
    wanted: &Wanted,
    store: S,
    trees: Vec<T>,
    out: &mut O,
) -> Ended<S, T>
    ensures outcome { (why : Closing) × HasCause (λ command. command ≡ restore wanted.now.file wanted.now.day wanted.now.skipped.items) why (S.told store) (S.told result.store) (S.moment_of result.store) (S.faults_of store) (S.faults_of result.store) × Shuts why (O.contents out.old) (O.contents out.new) (RoseIn (O.fault_count out.old) (O.fault_count out.new)) result.status result.journal.items result.stamps.items result.notes.items result.base result.generation result.opened (S.moment_of result.store) }
    ensures trees { result.trees ≡ trees }
    ensures later { Later S.moment_of S.faults_of store result.store }
{
    let mut store = store;
    let skipped = wanted.skipped.as_slice();
    let came = restore_from(alloc, &mut store, wanted.file, wanted.day, skipped);
    let status = status_of(&came);
    let lines = lines_of(alloc, wanted.file, &came);
    drop(came);
    match lines {
        Ok(lines) => closed(alloc, store, trees, out, status, lines.as_slice()),
        Err(_) => closed(alloc, store, trees, out, 8, b"MEMORY\n"),
    }
}
