// What a command does.
ghost use Rattle.std.specs.Prelude.{◌≡◌, ◌≤◌, ◌^◌, min, true, Ok, None, Some, length, IfErr, IfOk};
ghost use Rattle.kinds.specs.declared.refusal.Refusal.TheVariants.{Memory};
ghost use Rattle.entries.specs.declared.change.Change.TheVariants.{Pool};
ghost use Rattle.client_trees.specs.Files.{file_at};
ghost use Rattle.inventory_answers.specs.declared.query.Query.TheVariants as query;
ghost use Rattle.admin_commands.specs.Orders.{work_of};
ghost use Rattle.reports.specs.declared.shown.Shown.TheVariants as shown;
ghost use Rattle.sessions.specs.Changing.{Changing};
ghost use Rattle.sessions.specs.Checkpoints.{Checkpointing};
ghost use Rattle.sessions.specs.Getting.{Gets};
ghost use Rattle.sessions.specs.InTurn.{OrMemory};
ghost use Rattle.steps.specs.Calls.{Call};
ghost use Rattle.copy_pools.specs.Backups.{Backup};
ghost use Rattle.db_backup.specs.Backups.{DatabaseBackup, IncrementalBackup};
ghost use Rattle.db_backup.specs.Deleting.{HistoryDeletion};
ghost use Rattle.deletions.specs.Filespaces.{FilespaceDeletion};
ghost use Rattle.deletions.specs.Volumes.{VolumeDeletion};
ghost use Rattle.expiration.specs.Expiring.{Expiration};
ghost use Rattle.volume_audits.specs.Auditing.{VolumeAudit};
ghost use Rattle.command_steps.specs.Clients.{client};
ghost use Rattle.command_steps.specs.Doing.{Does, DoesOwn, DoesWork, Doing, Gives, MovesSo, PutsText, Told, Validates, WorksOrWants, backed_up, moved_line, the_number, the_second, validated_by, validity, within_memory};
ghost use Rattle.command_steps.specs.Reading.{mover_view};
ghost use Rattle.command_steps.specs.Owns.{file_put, last_of, own_of, row_put};
ghost use Rattle.command_steps.specs.declared.outcome.Outcome.TheVariants as outcome;

use crate::behind::{behind_of, end_work};
use crate::looking::look_up;
use crate::outcome::Outcome;
use crate::own::{Mover, Own, own_of};
use crate::trees::do_there;
use admin_commands::{Work, work_of};
use admin_words::Command;
use admin_words::files::{FileGet, FilePut};
use admin_words::policy::NamedSet;
use choosers::{Binder, First};
use client_trees::{FileRow, MemTree, Tree};
use copy_pools::backup_pool;
use copy_runs::Moved;
use db_backup::{Taken, backup_db, backup_db_since, delete_history};
use deletions::{delete_filespace, delete_volume};
use entries::Change;
use expiration::expire;
use inventory_answers::{Answer, Query, Rows};
use kinds::{Day, FilespaceName, Name, NodeName, Path, PoolChange, Refusal, Verb};
use migration::{migrate, migrate_all};
use pool_restores::{restore_pool, restore_volume};
use reclamation::{move_data, reclaim};
use reports::Shown;
use sessions::{checkpoint, commit_change, put_file, read_file, show};
use std::alloc::Global;
use steps::Stepper;
use volume_audits::audit_volume;

// ---- changes and queries

fn last_of_pool(change: &PoolChange) -> Shown
    ensures { result ≡ last_of (Pool change.now) }
{
    match change {
        PoolChange::Volume {
            verb: Verb::Delete,
            ..
        } => Shown::DeletedVolume {
            discarded: 0,
            dropped: 0,
        },
        _ => Shown::Done,
    }
}

/// The last line of a change.
fn last_of(change: &Change) -> Shown
    ensures { result ≡ last_of change.now }
{
    match change {
        Change::Day { day: _ } => Shown::Reused { reused: 0 },
        Change::Pool(change) => last_of_pool(change),
        _ => Shown::Done,
    }
}

/// Commits a change.
fn make<P: Stepper>(p: &mut P, change: Change) -> Result<Outcome, Refusal>
    ensures { Call P.did p.old p.new (λ events. Gives (Changing change) (λ number. outcome.Said (last_of change)) events result) }
{
    let shown = last_of(&change);
    match commit_change(p, change) {
        Ok(_) => Ok(Outcome::Said(shown)),
        Err(refusal) => {
            drop(shown);
            Err(refusal)
        }
    }
}

/// Asks what is shown.
fn ask<P: Stepper>(p: &mut P, query: &Query) -> Result<Outcome, Refusal>
    ensures { Call P.did p.old p.new (λ events. Gives (Told query.now) outcome.Rows events result) }
{
    match show(p, query) {
        Ok(answer) => Ok(Outcome::Rows(answer)),
        Err(refusal) => Err(refusal),
    }
}

// ---- work of a command's own

fn validity(rows: Rows) -> Result<Outcome, Refusal>
    ensures { result ≡ validity rows }
{
    match rows {
        Rows::Validated(None) => Ok(Outcome::Said(Shown::Done)),
        Rows::Validated(Some(refusal)) => Err(refusal),
        other => {
            drop(other);
            Err(Refusal::Memory)
        }
    }
}

fn validated_by(answer: Result<Answer, Refusal>) -> Result<Outcome, Refusal>
    ensures { result ≡ validated_by answer }
{
    match answer {
        Ok(answer) => validity(answer.rows),
        Err(refusal) => Err(refusal),
    }
}

fn ask_validated<P: Stepper>(p: &mut P, domain: Name, set: Name) -> Result<Answer, Refusal>
    ensures { Call P.did p.old p.new (λ events. Told (query.Validated domain set) events result) }
{
    let query = Query::Validated { domain, set };
    let answer = show(p, &query);
    drop(query);
    answer
}

/// Asks how a policy set's activation would be refused.
fn ask_validity<P: Stepper>(p: &mut P, set: &NamedSet) -> Result<Answer, Refusal>
    ensures { Call P.did p.old p.new (λ events. OrMemory (Told (query.Validated set.now.domain set.now.set)) events result) }
{
    match set.domain.clone() {
        Ok(domain) => match set.set.clone() {
            Ok(set) => ask_validated(p, domain, set),
            Err(_) => Err(Refusal::Memory),
        },
        Err(_) => Err(Refusal::Memory),
    }
}

/// Asks whether a policy set may be activated.
fn validate<P: Stepper>(p: &mut P, set: &NamedSet) -> Result<Outcome, Refusal>
    ensures { Call P.did p.old p.new (λ events. Validates set.now events result) }
{
    validated_by(ask_validity(p, set))
}

/// A client's tree in memory, with the one file of a PUT. A call on it that failed is want of memory, the one refusal.
fn tree_of(alloc: Global, file: &FilePut) -> Result<MemTree, Refusal>
    ensures there { IfOk result (λ tree. file_at file.now.path tree.files ≡ Some (file_put file.now)) }
    ensures memory { IfErr result (λ e. e ≡ Memory) }
{
    let mut tree = MemTree::new(alloc);
    match tree.create(&file.path) {
        Ok(()) => match tree.append(&file.path, file.text.as_bytes()) {
            Ok(()) => match tree.finish(&file.path, file.mtime) {
                Ok(()) => Ok(tree),
                Err(_) => Err(Refusal::Memory),
            },
            Err(_) => Err(Refusal::Memory),
        },
        Err(_) => Err(Refusal::Memory),
    }
}

/// A PUT's file as a client would list it. Its one refusal is want of memory.
fn row_of(file: &FilePut) -> Result<FileRow, Refusal>
    ensures row { IfOk result (λ row. row ≡ row_put file.now) }
    ensures memory { IfErr result (λ e. e ≡ Memory) }
{
    Ok(FileRow {
        path: file.path.clone()?,
        size: file.text.as_bytes().len() as u64,
        mtime: file.mtime,
    })
}

/// What was answered, where a fault of the tree in memory is want of memory.
fn within_memory(answer: Result<u64, Refusal>) -> Result<u64, Refusal>
    ensures { result ≡ within_memory answer }
{
    match answer {
        Err(Refusal::TreeFault) => Err(Refusal::Memory),
        other => other,
    }
}

/// Stores this row's file, which stands in this tree, and answers its object's number.
fn put_row<P: Stepper>(
    alloc: Global,
    p: &mut P,
    binder: &Binder,
    buffer: &mut [u8],
    file: &FilePut,
    mut tree: MemTree,
    row: &FileRow,
) -> Result<u64, Refusal>
    requires some { 1 ≤ length buffer.old }
    requires few { length buffer.old ≤ 2 ^ 16 }
    requires there { file_at file.now.path tree.files ≡ Some (file_put file.now) }
    requires row { row.now ≡ row_put file.now }
    ensures puts { Call P.did p.old p.new (λ events. PutsText binder.now file.now events result) }
    ensures long { length buffer.new ≡ length buffer.old }
{
    let answer = put_file(
        alloc,
        p,
        &mut tree,
        &file.node,
        &file.filespace,
        row,
        binder,
        buffer,
    );
    drop(tree);
    within_memory(answer)
}

/// Stores the text of a PUT, and answers its object's number.
fn put_text<P: Stepper>(
    alloc: Global,
    p: &mut P,
    binder: &Binder,
    buffer: &mut [u8],
    file: &FilePut,
) -> Result<u64, Refusal>
    requires some { 1 ≤ length buffer.old }
    requires few { length buffer.old ≤ 2 ^ 16 }
    ensures puts { Call P.did p.old p.new (λ events. OrMemory (PutsText binder.now file.now) events result) }
    ensures long { length buffer.new ≡ length buffer.old }
{
    match tree_of(alloc, file) {
        Ok(tree) => match row_of(file) {
            Ok(row) => put_row(alloc, p, binder, buffer, file, tree, &row),
            Err(refusal) => {
                drop(tree);
                Err(refusal)
            }
        },
        Err(refusal) => Err(refusal),
    }
}

/// Stores the text of a PUT.
fn put<P: Stepper>(
    alloc: Global,
    p: &mut P,
    binder: &Binder,
    buffer: &mut [u8],
    file: &FilePut,
) -> Result<Outcome, Refusal>
    requires some { 1 ≤ length buffer.old }
    requires few { length buffer.old ≤ 2 ^ 16 }
    ensures puts { Call P.did p.old p.new (λ events. Gives (OrMemory (PutsText binder.now file.now)) (λ object. outcome.Said (shown.Stored object)) events result) }
    ensures long { length buffer.new ≡ length buffer.old }
{
    match put_text(alloc, p, binder, buffer, file) {
        Ok(object) => Ok(Outcome::Said(Shown::Stored { object })),
        Err(refusal) => Err(refusal),
    }
}

/// Reads the active version of a path.
fn read_path<P: Stepper>(
    alloc: Global,
    p: &mut P,
    node: NodeName,
    filespace: FilespaceName,
    path: Path,
    buffer: &mut [u8],
) -> Result<sessions::FileRead, Refusal>
    requires some { 1 ≤ length buffer.old }
    requires few { length buffer.old ≤ 2 ^ 16 }
    ensures gets { Call P.did p.old p.new (λ events. Gets node filespace path events result) }
    ensures long { length buffer.new ≡ length buffer.old }
{
    read_file(alloc, p, node, filespace, path, buffer)
}

/// Reads the file of a GET.
fn get_file<P: Stepper>(
    alloc: Global,
    p: &mut P,
    buffer: &mut [u8],
    file: &FileGet,
) -> Result<sessions::FileRead, Refusal>
    requires some { 1 ≤ length buffer.old }
    requires few { length buffer.old ≤ 2 ^ 16 }
    ensures gets { Call P.did p.old p.new (λ events. OrMemory (Gets file.now.node file.now.filespace file.now.path) events result) }
    ensures long { length buffer.new ≡ length buffer.old }
{
    match file.node.clone() {
        Ok(node) => match file.filespace.clone() {
            Ok(filespace) => match file.path.clone() {
                Ok(path) => read_path(alloc, p, node, filespace, path, buffer),
                Err(_) => Err(Refusal::Memory),
            },
            Err(_) => Err(Refusal::Memory),
        },
        Err(_) => Err(Refusal::Memory),
    }
}

/// Reads the file of a GET.
fn get<P: Stepper>(
    alloc: Global,
    p: &mut P,
    buffer: &mut [u8],
    file: &FileGet,
) -> Result<Outcome, Refusal>
    requires some { 1 ≤ length buffer.old }
    requires few { length buffer.old ≤ 2 ^ 16 }
    ensures gets { Call P.did p.old p.new (λ events. Gives (OrMemory (Gets file.now.node file.now.filespace file.now.path)) outcome.Read events result) }
    ensures long { length buffer.new ≡ length buffer.old }
{
    match get_file(alloc, p, buffer, file) {
        Ok(file) => Ok(Outcome::Read(file)),
        Err(refusal) => Err(refusal),
    }
}

/// Makes a checkpoint.
fn keep<P: Stepper>(p: &mut P) -> Result<Outcome, Refusal>
    ensures { Call P.did p.old p.new (λ events. Gives Checkpointing (λ seq. outcome.Said shown.Done) events result) }
{
    match checkpoint(p) {
        Ok(_) => Ok(Outcome::Said(Shown::Done)),
        Err(refusal) => Err(refusal),
    }
}

/// Removes what isn't retained.
fn expire_all<P: Stepper>(alloc: Global, p: &mut P) -> Result<Outcome, Refusal>
    ensures { Call P.did p.old p.new (λ events. Gives Expiration (λ expired. outcome.Said (shown.Expired expired 0)) events result) }
{
    match expire(alloc, p) {
        Ok(expired) => Ok(Outcome::Said(Shown::Expired { expired, reused: 0 })),
        Err(refusal) => Err(refusal),
    }
}

/// The number of the one thing that a command names.
fn the_number(numbers: &[u32]) -> u32
    ensures { result ≡ the_number numbers.now }
{
    match numbers {
        [number, ..] => *number,
        _ => 0,
    }
}

/// The number of the second thing that a command names.
fn the_second(numbers: &[u32]) -> u32
    ensures { result ≡ the_second numbers.now }
{
    match numbers {
        [_, others @ ..] => the_number(others),
        _ => 0,
    }
}

/// Copies what a primary pool holds into a copy pool that lacks it.
fn back_up_pool<P: Stepper>(
    alloc: Global,
    p: &mut P,
    primary: u32,
    copy: u32,
) -> Result<Outcome, Refusal>
    ensures { Call P.did p.old p.new (λ events. Gives (Backup primary copy) (λ copies. outcome.Said (shown.Copied copies.moved copies.failed)) events result) }
{
    match backup_pool(alloc, p, primary, copy) {
        Ok(copies) => Ok(Outcome::Said(Shown::Copied {
            copied: copies.moved,
            failed: copies.failed,
        })),
        Err(refusal) => Err(refusal),
    }
}

/// A number as a percentage.
fn percentage(number: u32) -> u8
    ensures { result ≡ min number 100 }
{
    if number < 100 { number as u8 } else { 100 }
}

/// Moves copies, over these two numbers.
fn move_so<P: Stepper>(
    alloc: Global,
    p: &mut P,
    mover: Mover,
    first: u32,
    second: u32,
) -> Result<Moved, Refusal>
    ensures { Call P.did p.old p.new (λ events. MovesSo (mover_view mover) first second events result) }
{
    match mover {
        Mover::MoveData => move_data(alloc, p, first, second),
        Mover::Reclaim => reclaim(alloc, p, first, percentage(second)),
        Mover::RestorePool => restore_pool(alloc, p, first),
        Mover::RestoreVolume => restore_volume(alloc, p, first),
        Mover::Migrate => migrate(alloc, p, &First, first, percentage(second)),
        Mover::MigrateAll => migrate_all(alloc, p, &First),
    }
}

/// The last line of a command that moved so many copies.
fn moved_line(mover: Mover, moved: Moved) -> Shown
    ensures { result ≡ moved_line (mover_view mover) moved }
{
    match mover {
        Mover::MoveData | Mover::Reclaim | Mover::Migrate | Mover::MigrateAll => Shown::Moved {
            moved: moved.moved,
            failed: moved.failed,
            reused: 0,
        },
        Mover::RestorePool | Mover::RestoreVolume => Shown::RestoredCopies {
            restored: moved.moved,
            failed: moved.failed,
            reused: 0,
        },
    }
}

/// Moves copies, and says how many.
fn move_all<P: Stepper>(
    alloc: Global,
    p: &mut P,
    mover: Mover,
    first: u32,
    second: u32,
) -> Result<Outcome, Refusal>
    ensures { Call P.did p.old p.new (λ events. Gives (MovesSo (mover_view mover) first second) (λ m. outcome.Said (moved_line (mover_view mover) m)) events result) }
{
    match move_so(alloc, p, mover, first, second) {
        Ok(moved) => Ok(Outcome::Said(moved_line(mover, moved))),
        Err(refusal) => Err(refusal),
    }
}

/// Deletes a filespace with what is kept in it.
fn empty_filespace<P: Stepper>(alloc: Global, p: &mut P, filespace: u32) -> Result<Outcome, Refusal>
    ensures { Call P.did p.old p.new (λ events. Gives (FilespaceDeletion filespace) (λ discarded. outcome.Said (shown.DiscardedFilespace discarded 0)) events result) }
{
    match delete_filespace(alloc, p, filespace) {
        Ok(discarded) => Ok(Outcome::Said(Shown::DiscardedFilespace {
            discarded,
            reused: 0,
        })),
        Err(refusal) => Err(refusal),
    }
}

/// Deletes a volume with what lies on it.
fn empty_volume<P: Stepper>(alloc: Global, p: &mut P, file: u32) -> Result<Outcome, Refusal>
    ensures { Call P.did p.old p.new (λ events. Gives (VolumeDeletion true file) (λ went. outcome.Said (shown.DeletedVolume went.discarded went.dropped)) events result) }
{
    match delete_volume(alloc, p, file, true) {
        Ok(went) => Ok(Outcome::Said(Shown::DeletedVolume {
            discarded: went.discarded,
            dropped: went.dropped,
        })),
        Err(refusal) => Err(refusal),
    }
}

/// The last line of a database backup.
fn backed_up(taken: Taken) -> Outcome
    ensures { result ≡ backed_up taken }
{
    Outcome::Said(Shown::BackedUp {
        file: taken.file,
        seq: taken.seq,
    })
}

/// Backs up the whole database.
fn back_up_database<P: Stepper>(p: &mut P) -> Result<Outcome, Refusal>
    ensures { Call P.did p.old p.new (λ events. Gives (DatabaseBackup None) backed_up events result) }
{
    match backup_db(p) {
        Ok(taken) => Ok(backed_up(taken)),
        Err(refusal) => Err(refusal),
    }
}

/// Backs up what came behind the newest backup of the database.
fn back_up_since<P: Stepper>(p: &mut P) -> Result<Outcome, Refusal>
    ensures { Call P.did p.old p.new (λ events. Gives IncrementalBackup backed_up events result) }
{
    match backup_db_since(p) {
        Ok(taken) => Ok(backed_up(taken)),
        Err(refusal) => Err(refusal),
    }
}

/// Takes database backups off the list, up to a day.
fn forget_backups<P: Stepper>(alloc: Global, p: &mut P, to: Day) -> Result<Outcome, Refusal>
    ensures { Call P.did p.old p.new (λ events. Gives (HistoryDeletion to) (λ deleted. outcome.Said (shown.DeletedHistory deleted)) events result) }
{
    match delete_history(alloc, p, to) {
        Ok(deleted) => Ok(Outcome::Said(Shown::DeletedHistory { deleted })),
        Err(refusal) => Err(refusal),
    }
}

/// Audits the copies on a volume.
fn audit<P: Stepper>(
    alloc: Global,
    p: &mut P,
    buffer: &mut [u8],
    file: u32,
    fix: bool,
) -> Result<Outcome, Refusal>
    requires some { 1 ≤ length buffer.old }
    requires few { length buffer.old ≤ 2 ^ 16 }
    ensures audits { Call P.did p.old p.new (λ events. Gives (VolumeAudit fix file) outcome.Audited events result) }
    ensures long { length buffer.new ≡ length buffer.old }
{
    match audit_volume(alloc, p, file, fix, buffer) {
        Ok(audit) => Ok(Outcome::Audited(audit)),
        Err(refusal) => Err(refusal),
    }
}

/// Does what is no one change and no one query, over the numbers of the things that the command names.
fn run_own<P: Stepper, T: Tree>(
    alloc: Global,
    p: &mut P,
    trees: &mut [T],
    binder: &Binder,
    buffer: &mut [u8],
    command: &Command,
    numbers: &[u32],
) -> Result<Outcome, Refusal>
    requires some { 1 ≤ length buffer.old }
    requires few { length buffer.old ≤ 2 ^ 16 }
    ensures does { Call P.did p.old p.new (λ events. DoesOwn (client T.files T.fault_count binder.now trees.old trees.new) (own_of command.now) numbers.now events result) }
    ensures long { length buffer.new ≡ length buffer.old }
{
    match own_of(command) {
        Own::Validate(set) => validate(p, set),
        Own::Put(file) => put(alloc, p, binder, buffer, file),
        Own::Get(file) => get(alloc, p, buffer, file),
        Own::OnATree(work) => do_there(alloc, p, trees, binder, buffer, work),
        Own::Checkpoint => keep(p),
        Own::Expire => expire_all(alloc, p),
        Own::EmptyFilespace => empty_filespace(alloc, p, the_number(numbers)),
        Own::EmptyVolume => empty_volume(alloc, p, the_number(numbers)),
        Own::BackUpPool => { back_up_pool(alloc, p, the_number(numbers), the_second(numbers)) }
        Own::Moves(mover) => { move_all(alloc, p, mover, the_number(numbers), the_second(numbers)) }
        Own::BackUpDatabase => back_up_database(p),
        Own::BackUpSince => back_up_since(p),
        Own::DeleteHistory(to) => forget_backups(alloc, p, to),
        Own::AuditVolume(fix) => audit(alloc, p, buffer, the_number(numbers), fix),
        Own::NoneButReuse => Ok(Outcome::Said(Shown::Reused { reused: 0 })),
        Own::NoneYet => Err(Refusal::UnknownWord(1)),
    }
}

// ---- a command

/// Does a command's work.
fn do_work<P: Stepper, T: Tree>(
    alloc: Global,
    p: &mut P,
    trees: &mut [T],
    binder: &Binder,
    buffer: &mut [u8],
    command: &Command,
    work: Work,
) -> Result<Outcome, Refusal>
    requires some { 1 ≤ length buffer.old }
    requires few { length buffer.old ≤ 2 ^ 16 }
    ensures does { Call P.did p.old p.new (λ events. Does (client T.files T.fault_count binder.now trees.old trees.new) command.now work events result) }
    ensures long { length buffer.new ≡ length buffer.old }
{
    match work {
        Work::Commit(change) => make(p, change),
        Work::Show(query) => {
            let outcome = ask(p, &query);
            drop(query);
            outcome
        }
        Work::Run(numbers) => {
            let outcome = run_own(alloc, p, trees, binder, buffer, command, numbers.as_slice());
            drop(numbers);
            outcome
        }
    }
}

/// Does a command's work, and what comes behind it.
fn do_all<P: Stepper, T: Tree>(
    alloc: Global,
    p: &mut P,
    trees: &mut [T],
    binder: &Binder,
    buffer: &mut [u8],
    command: &Command,
    work: Work,
) -> Result<Outcome, Refusal>
    requires some { 1 ≤ length buffer.old }
    requires few { length buffer.old ≤ 2 ^ 16 }
    ensures does { Call P.did p.old p.new (λ events. DoesWork (client T.files T.fault_count binder.now trees.old trees.new) command.now (Ok work) events result) }
    ensures long { length buffer.new ≡ length buffer.old }
{
    let said = do_work(alloc, p, trees, binder, buffer, command, work);
    end_work(p, behind_of(command), said)
}

/// Does the work of a command, by the answers to its look-ups.
fn work_on<P: Stepper, T: Tree>(
    alloc: Global,
    p: &mut P,
    trees: &mut [T],
    binder: &Binder,
    buffer: &mut [u8],
    command: &Command,
    answers: &[Answer],
) -> Result<Outcome, Refusal>
    requires some { 1 ≤ length buffer.old }
    requires few { length buffer.old ≤ 2 ^ 16 }
    ensures does { Call P.did p.old p.new (λ events. WorksOrWants (client T.files T.fault_count binder.now trees.old trees.new) command.now (work_of command.now answers.now) events result) }
    ensures long { length buffer.new ≡ length buffer.old }
{
    match work_of(alloc, command, answers) {
        Ok(work) => do_all(alloc, p, trees, binder, buffer, command, work),
        Err(refusal) => Err(refusal),
    }
}

/// Does a command: its look-ups, and by their answers its work.
pub(crate) fn do_command<P: Stepper, T: Tree>(
    alloc: Global,
    p: &mut P,
    trees: &mut [T],
    binder: &Binder,
    buffer: &mut [u8],
    command: &Command,
) -> Result<Outcome, Refusal>
    requires some { 1 ≤ length buffer.old }
    requires few { length buffer.old ≤ 2 ^ 16 }
    ensures does { Call P.did p.old p.new (λ events. Doing (client T.files T.fault_count binder.now trees.old trees.new) command.now events result) }
    ensures long { length buffer.new ≡ length buffer.old }
{
    match look_up(alloc, p, command) {
        Ok(answers) => {
            let outcome = work_on(alloc, p, trees, binder, buffer, command, answers.as_slice());
            drop(answers);
            outcome
        }
        Err(refusal) => Err(refusal),
    }
}
