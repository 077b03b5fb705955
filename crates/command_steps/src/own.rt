// Work that is no one change and no one query.
ghost use Rattle.std.specs.Prelude.{◌≡◌};
ghost use Rattle.command_steps.specs.Owns.{policy_own, node_own, pool_own, volume_own, file_own, backup_own, database_own, own_of, tree_of};
ghost use Rattle.command_steps.specs.Reading.{own_view, tree_view};

use admin_words::Command;
use admin_words::command::{
    DatabaseCommand, FileCommand, NodeCommand, PolicyCommand, PoolCommand, VolumeCommand,
};
use admin_words::files::{FileErase, FileGet, FilePut, FileWrite, FilesRestore, IncrementalBackup};
use admin_words::policy::NamedSet;
use admin_words::words::BackupType;
use kinds::Day;

/// What moves copies.
#[derive(Clone, Copy)]
pub(crate) enum Mover {
    /// MOVE DATA, over the numbers of the volume's file and of a pool, or 0 for the volume's own.
    MoveData,
    /// RECLAIM STGPOOL, over the pool's number and the hundredths from which a volume is emptied.
    Reclaim,
    /// RESTORE STGPOOL, over the pool's number.
    RestorePool,
    /// RESTORE VOLUME, over the number of the volume's file.
    RestoreVolume,
    /// MIGRATE STGPOOL, over the pool's number and the hundredths down to which it goes.
    Migrate,
    /// MIGRATE ALL.
    MigrateAll,
}

/// Work on a client's tree.
#[derive(Clone, Copy)]
pub(crate) enum OnTree<'a> {
    /// WRITE.
    Write(&'a FileWrite),
    /// ERASE.
    Erase(&'a FileErase),
    /// DSMC INCREMENTAL.
    BackUp(&'a IncrementalBackup),
    /// DSMC RESTORE.
    Restore(&'a FilesRestore),
}

/// The number of the tree.
pub(crate) fn tree_of(work: OnTree<'_>) -> u64
    ensures { result ≡ tree_of (tree_view work.entry) }
{
    match work {
        OnTree::Write(it) => it.tree,
        OnTree::Erase(it) => it.tree,
        OnTree::BackUp(it) => it.tree,
        OnTree::Restore(it) => it.tree,
    }
}

/// Work of a command's own.
#[derive(Clone, Copy)]
pub(crate) enum Own<'a> {
    /// VALIDATE of a policy set.
    Validate(&'a NamedSet),
    /// PUT.
    Put(&'a FilePut),
    /// GET.
    Get(&'a FileGet),
    /// Work on a client's tree.
    OnATree(OnTree<'a>),
    /// CHECKPOINT.
    Checkpoint,
    /// EXPIRE INVENTORY.
    Expire,
    /// DELETE FILESPACE, over the filespace's number.
    EmptyFilespace,
    /// DELETE VOLUME with its data, over the number of the volume's file.
    EmptyVolume,
    /// REUSE VOLUMES, which does nothing but what comes behind it.
    NoneButReuse,
    /// BACKUP STGPOOL, over the numbers of a primary pool and of a copy pool.
    BackUpPool,
    /// What moves copies.
    Moves(Mover),
    /// BACKUP DB of the whole database.
    BackUpDatabase,
    /// BACKUP DB of what came behind the newest backup.
    BackUpSince,
    /// DELETE VOLHISTORY, of backups that were taken on or before this day.
    DeleteHistory(Day),
    /// AUDIT VOLUME, over the number of the volume's file, and whether damaged copies go.
    AuditVolume(bool),
    /// What isn't done so far.
    NoneYet,
}

fn policy_own(command: &PolicyCommand) -> Own<'_>
    ensures { own_view result ≡ policy_own command.now }
{
    match command {
        PolicyCommand::ValidateSet(set) => Own::Validate(set),
        _ => Own::NoneYet,
    }
}

fn file_own(command: &FileCommand) -> Own<'_>
    ensures { own_view result ≡ file_own command.now }
{
    match command {
        FileCommand::Put(file) => Own::Put(file),
        FileCommand::Get(file) => Own::Get(file),
        FileCommand::Erase(it) => Own::OnATree(OnTree::Erase(it)),
        FileCommand::Incremental(it) => Own::OnATree(OnTree::BackUp(it)),
        FileCommand::RestoreFiles(it) => Own::OnATree(OnTree::Restore(it)),
        FileCommand::Write(it) => Own::OnATree(OnTree::Write(it)),
        _ => Own::NoneYet,
    }
}

fn backup_own<'a>(kind: BackupType) -> Own<'a>
    ensures { own_view result ≡ backup_own kind }
{
    match kind {
        BackupType::Full => Own::BackUpDatabase,
        BackupType::Incremental => Own::BackUpSince,
    }
}

fn database_own(command: &DatabaseCommand) -> Own<'_>
    ensures { own_view result ≡ database_own command.now }
{
    match command {
        DatabaseCommand::BackupDatabase(it) => backup_own(it.backup_type),
        DatabaseCommand::Checkpoint => Own::Checkpoint,
        DatabaseCommand::DeleteHistory(it) => Own::DeleteHistory(it.to_date),
        DatabaseCommand::ExpireInventory => Own::Expire,
        _ => Own::NoneYet,
    }
}

fn node_own(command: &NodeCommand) -> Own<'_>
    ensures { own_view result ≡ node_own command.now }
{
    match command {
        NodeCommand::DeleteFilespace(_) => Own::EmptyFilespace,
        _ => Own::NoneYet,
    }
}

fn pool_own(command: &PoolCommand) -> Own<'_>
    ensures { own_view result ≡ pool_own command.now }
{
    match command {
        PoolCommand::BackupPool(_) => Own::BackUpPool,
        PoolCommand::MigrateAll => Own::Moves(Mover::MigrateAll),
        PoolCommand::MigratePool(_) => Own::Moves(Mover::Migrate),
        PoolCommand::ReclaimPool(_) => Own::Moves(Mover::Reclaim),
        PoolCommand::RestorePool(_) => Own::Moves(Mover::RestorePool),
        _ => Own::NoneYet,
    }
}

fn volume_own(command: &VolumeCommand) -> Own<'_>
    ensures { own_view result ≡ volume_own command.now }
{
    match command {
        VolumeCommand::AuditVolume(it) => Own::AuditVolume(it.fix),
        VolumeCommand::DeleteVolume(it) => {
            if it.discard_data {
                Own::EmptyVolume
            } else {
                Own::NoneYet
            }
        }
        VolumeCommand::MoveData(_) => Own::Moves(Mover::MoveData),
        VolumeCommand::RestoreVolume(_) => Own::Moves(Mover::RestoreVolume),
        VolumeCommand::ReuseVolumes => Own::NoneButReuse,
        _ => Own::NoneYet,
    }
}

/// The work of a command's own.
pub(crate) fn own_of(command: &Command) -> Own<'_>
    ensures { own_view result ≡ own_of command.now }
{
    match command {
        Command::Policy(it) => policy_own(it),
        Command::Node(it) => node_own(it),
        Command::Pool(it) => pool_own(it),
        Command::Volume(it) => volume_own(it),
        Command::File(it) => file_own(it),
        Command::Database(it) => database_own(it),
        _ => Own::NoneYet,
    }
}
