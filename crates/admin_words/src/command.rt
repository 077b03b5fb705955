ghost use Rattle.std.specs.Prelude.{map};
ghost use Rattle.kinds.specs.Answers.{AnswersBy};
ghost use Rattle.command_words.specs.Rows.{given_view};
ghost use Rattle.admin_words.specs.Command.{policy_command, class_command, node_command, pool_command, volume_command, file_command, database_command, command_of};

use crate::database::{
    DatabaseBackup, DayChange, HistoryDeletion, read_database_backup, read_day_change,
    read_history_deletion,
};
use crate::files::{
    FileErase, FileGet, FilePut, FileWrite, FilesArchive, FilesRestore, FilesRetrieve,
    IncrementalBackup, read_file_erase, read_file_get, read_file_put, read_file_write,
    read_files_archive, read_files_restore, read_files_retrieve, read_incremental_backup,
};
use crate::nodes::{
    FilespaceQuery, NamedNode, NodeFilespace, NodeRegistration, read_filespace_query,
    read_named_node, read_node_filespace, read_node_registration,
};
use crate::policy::{
    ArchiveDefinition, ArchiveUpdate, DomainDefinition, DomainUpdate, GroupDefinition, GroupUpdate,
    NamedClass, NamedDomain, NamedSet, read_archive_definition, read_archive_update,
    read_domain_definition, read_domain_update, read_group_definition, read_group_update,
    read_named_class, read_named_domain, read_named_set,
};
use crate::pools::{
    DevClassDefinition, Migration, NamedDevClass, NamedPool, PoolBackup, PoolDefinition, PoolQuery,
    PoolUpdate, Reclamation, read_dev_class_definition, read_migration, read_named_dev_class,
    read_named_pool, read_pool_backup, read_pool_definition, read_pool_query, read_pool_update,
    read_reclamation,
};
use crate::table::{
    BlockForm, ClassForm, DatabaseForm, FileForm, Form, NodeForm, PolicyForm, PoolForm, VolumeForm,
};
use crate::volumes::{
    DataMove, NamedVolume, VolumeAudit, VolumeDefinition, VolumeDeletion, VolumeQuery,
    VolumeUpdate, read_data_move, read_named_volume, read_volume_audit, read_volume_definition,
    read_volume_deletion, read_volume_query, read_volume_update,
};
use command_words::Given;
use kinds::Refusal;
use std::alloc::Global;
use std::fmt;

/// A command of policy domains and policy sets, with what its words give.
#[derive(Debug, Drop)]
pub enum PolicyCommand {
    /// ACTIVATE POLICYSET.
    ActivateSet(NamedSet),
    /// DEFINE DOMAIN.
    DefineDomain(DomainDefinition),
    /// DEFINE POLICYSET.
    DefineSet(NamedSet),
    /// DELETE DOMAIN.
    DeleteDomain(NamedDomain),
    /// DELETE POLICYSET.
    DeleteSet(NamedSet),
    /// QUERY DOMAIN.
    QueryDomain,
    /// QUERY POLICYSET.
    QuerySet(NamedDomain),
    /// UPDATE DOMAIN.
    UpdateDomain(DomainUpdate),
    /// VALIDATE POLICYSET.
    ValidateSet(NamedSet),
}

/// A command of management classes and copy groups, with what its words give.
#[derive(Debug, Drop)]
pub enum ClassCommand {
    /// ASSIGN DEFMGMTCLASS.
    AssignClass(NamedClass),
    /// DEFINE COPYGROUP with TYPE=ARCHIVE.
    DefineArchiveGroup(ArchiveDefinition),
    /// DEFINE MGMTCLASS.
    DefineClass(NamedClass),
    /// DEFINE COPYGROUP.
    DefineGroup(GroupDefinition),
    /// DELETE COPYGROUP with TYPE=ARCHIVE.
    DeleteArchiveGroup(NamedClass),
    /// DELETE MGMTCLASS.
    DeleteClass(NamedClass),
    /// DELETE COPYGROUP.
    DeleteGroup(NamedClass),
    /// QUERY MGMTCLASS.
    QueryClass(NamedSet),
    /// QUERY COPYGROUP.
    QueryGroup(NamedSet),
    /// UPDATE COPYGROUP with TYPE=ARCHIVE.
    UpdateArchiveGroup(ArchiveUpdate),
    /// UPDATE COPYGROUP.
    UpdateGroup(GroupUpdate),
}

/// A command of nodes and filespaces, with what its words give.
#[derive(Debug, Drop)]
pub enum NodeCommand {
    /// DELETE FILESPACE.
    DeleteFilespace(NodeFilespace),
    /// QUERY ARCHIVE.
    QueryArchive(NodeFilespace),
    /// QUERY BACKUP.
    QueryBackup(NodeFilespace),
    /// QUERY FILESPACE.
    QueryFilespace(FilespaceQuery),
    /// QUERY NODE.
    QueryNode,
    /// REGISTER NODE.
    RegisterNode(NodeRegistration),
    /// REMOVE NODE.
    RemoveNode(NamedNode),
}

/// A command of device classes and storage pools, with what its words give.
#[derive(Debug, Drop)]
pub enum PoolCommand {
    /// BACKUP STGPOOL.
    BackupPool(PoolBackup),
    /// DEFINE DEVCLASS.
    DefineDevClass(DevClassDefinition),
    /// DEFINE STGPOOL.
    DefinePool(PoolDefinition),
    /// DELETE DEVCLASS.
    DeleteDevClass(NamedDevClass),
    /// DELETE STGPOOL.
    DeletePool(NamedPool),
    /// MIGRATE ALL.
    MigrateAll,
    /// MIGRATE STGPOOL.
    MigratePool(Migration),
    /// QUERY DEVCLASS.
    QueryDevClass,
    /// QUERY STGPOOL.
    QueryPool(PoolQuery),
    /// RECLAIM STGPOOL.
    ReclaimPool(Reclamation),
    /// RESTORE STGPOOL.
    RestorePool(NamedPool),
    /// UPDATE STGPOOL.
    UpdatePool(PoolUpdate),
}

/// A command of volumes, with what its words give.
#[derive(Debug, Drop)]
pub enum VolumeCommand {
    /// AUDIT VOLUME.
    AuditVolume(VolumeAudit),
    /// DEFINE VOLUME.
    DefineVolume(VolumeDefinition),
    /// DELETE VOLUME.
    DeleteVolume(VolumeDeletion),
    /// MOVE DATA.
    MoveData(DataMove),
    /// QUERY CONTENT.
    QueryContent(NamedVolume),
    /// QUERY VOLUME.
    QueryVolume(VolumeQuery),
    /// RESTORE VOLUME.
    RestoreVolume(NamedVolume),
    /// REUSE VOLUMES.
    ReuseVolumes,
    /// UPDATE VOLUME.
    UpdateVolume(VolumeUpdate),
}

/// A command of files, with what its words give.
#[derive(Debug, Drop)]
pub enum FileCommand {
    /// DSMC ARCHIVE.
    ArchiveFiles(FilesArchive),
    /// ERASE.
    Erase(FileErase),
    /// GET.
    Get(FileGet),
    /// DSMC INCREMENTAL.
    Incremental(IncrementalBackup),
    /// PUT.
    Put(FilePut),
    /// DSMC RESTORE.
    RestoreFiles(FilesRestore),
    /// DSMC RETRIEVE.
    RetrieveFiles(FilesRetrieve),
    /// WRITE.
    Write(FileWrite),
}

/// A command of the database, its history and the day, with what its words give.
#[derive(Debug, Drop)]
pub enum DatabaseCommand {
    /// BACKUP DB.
    BackupDatabase(DatabaseBackup),
    /// CHECKPOINT.
    Checkpoint,
    /// DAY.
    Day(DayChange),
    /// DELETE VOLHISTORY.
    DeleteHistory(HistoryDeletion),
    /// EXPIRE INVENTORY.
    ExpireInventory,
    /// QUERY VOLHISTORY.
    QueryHistory,
}

/// A command, with what its words give.
#[derive(Drop)]
pub enum Command {
    /// Of policy domains and policy sets.
    Policy(PolicyCommand),
    /// Of management classes and copy groups.
    Class(ClassCommand),
    /// Of nodes and filespaces.
    Node(NodeCommand),
    /// Of device classes and storage pools.
    Pool(PoolCommand),
    /// Of volumes.
    Volume(VolumeCommand),
    /// Of files.
    File(FileCommand),
    /// Of the database, its history and the day.
    Database(DatabaseCommand),
    /// Of blocks.
    Block(BlockForm),
}

/// A command is written as that of its family.
impl fmt::Debug for Command {
    fn fmt<W: fmt::Write>(&self, f: &mut fmt::Formatter<W>) -> fmt::Result {
        match self {
            Command::Policy(command) => fmt::Debug::fmt(command, f),
            Command::Class(command) => fmt::Debug::fmt(command, f),
            Command::Node(command) => fmt::Debug::fmt(command, f),
            Command::Pool(command) => fmt::Debug::fmt(command, f),
            Command::Volume(command) => fmt::Debug::fmt(command, f),
            Command::File(command) => fmt::Debug::fmt(command, f),
            Command::Database(command) => fmt::Debug::fmt(command, f),
            Command::Block(command) => fmt::Debug::fmt(command, f),
        }
    }
}

/// The command of policy domains and policy sets that has this form.
fn policy_command(
    alloc: Global,
    form: PolicyForm,
    places: &[Given],
    keys: &[Given],
) -> Result<PolicyCommand, Refusal>
    ensures { AnswersBy (λ c. c) result (policy_command form (map given_view places.now) (map given_view keys.now)) }
{
    match form {
        PolicyForm::ActivateSet => Ok(PolicyCommand::ActivateSet(read_named_set(
            alloc, places, keys,
        )?)),
        PolicyForm::DefineDomain => Ok(PolicyCommand::DefineDomain(read_domain_definition(
            alloc, places, keys,
        )?)),
        PolicyForm::DefineSet => Ok(PolicyCommand::DefineSet(read_named_set(alloc, places, keys)?)),
        PolicyForm::DeleteDomain => Ok(PolicyCommand::DeleteDomain(read_named_domain(
            alloc, places, keys,
        )?)),
        PolicyForm::DeleteSet => Ok(PolicyCommand::DeleteSet(read_named_set(alloc, places, keys)?)),
        PolicyForm::QueryDomain => Ok(PolicyCommand::QueryDomain),
        PolicyForm::QuerySet => Ok(PolicyCommand::QuerySet(read_named_domain(
            alloc, places, keys,
        )?)),
        PolicyForm::UpdateDomain => Ok(PolicyCommand::UpdateDomain(read_domain_update(
            alloc, places, keys,
        )?)),
        PolicyForm::ValidateSet => Ok(PolicyCommand::ValidateSet(read_named_set(
            alloc, places, keys,
        )?)),
    }
}

/// The command of management classes and copy groups that has this form.
fn class_command(
    alloc: Global,
    form: ClassForm,
    places: &[Given],
    keys: &[Given],
) -> Result<ClassCommand, Refusal>
    ensures { AnswersBy (λ c. c) result (class_command form (map given_view places.now) (map given_view keys.now)) }
{
    match form {
        ClassForm::AssignClass => Ok(ClassCommand::AssignClass(read_named_class(
            alloc, places, keys,
        )?)),
        ClassForm::DefineArchiveGroup => Ok(ClassCommand::DefineArchiveGroup(
            read_archive_definition(alloc, places, keys)?,
        )),
        ClassForm::DefineClass => Ok(ClassCommand::DefineClass(read_named_class(
            alloc, places, keys,
        )?)),
        ClassForm::DefineGroup => Ok(ClassCommand::DefineGroup(read_group_definition(
            alloc, places, keys,
        )?)),
        ClassForm::DeleteArchiveGroup => Ok(ClassCommand::DeleteArchiveGroup(read_named_class(
            alloc, places, keys,
        )?)),
        ClassForm::DeleteClass => Ok(ClassCommand::DeleteClass(read_named_class(
            alloc, places, keys,
        )?)),
        ClassForm::DeleteGroup => Ok(ClassCommand::DeleteGroup(read_named_class(
            alloc, places, keys,
        )?)),
        ClassForm::QueryClass => Ok(ClassCommand::QueryClass(read_named_set(alloc, places, keys)?)),
        ClassForm::QueryGroup => Ok(ClassCommand::QueryGroup(read_named_set(alloc, places, keys)?)),
        ClassForm::UpdateArchiveGroup => Ok(ClassCommand::UpdateArchiveGroup(read_archive_update(
            alloc, places, keys,
        )?)),
        ClassForm::UpdateGroup => Ok(ClassCommand::UpdateGroup(read_group_update(
            alloc, places, keys,
        )?)),
    }
}

/// The command of nodes and filespaces that has this form.
fn node_command(
    alloc: Global,
    form: NodeForm,
    places: &[Given],
    keys: &[Given],
) -> Result<NodeCommand, Refusal>
    ensures { AnswersBy (λ c. c) result (node_command form (map given_view places.now) (map given_view keys.now)) }
{
    match form {
        NodeForm::DeleteFilespace => Ok(NodeCommand::DeleteFilespace(read_node_filespace(
            alloc, places, keys,
        )?)),
        NodeForm::QueryArchive => Ok(NodeCommand::QueryArchive(read_node_filespace(
            alloc, places, keys,
        )?)),
        NodeForm::QueryBackup => Ok(NodeCommand::QueryBackup(read_node_filespace(
            alloc, places, keys,
        )?)),
        NodeForm::QueryFilespace => Ok(NodeCommand::QueryFilespace(read_filespace_query(
            alloc, places, keys,
        )?)),
        NodeForm::QueryNode => Ok(NodeCommand::QueryNode),
        NodeForm::RegisterNode => Ok(NodeCommand::RegisterNode(read_node_registration(
            alloc, places, keys,
        )?)),
        NodeForm::RemoveNode => Ok(NodeCommand::RemoveNode(read_named_node(alloc, places, keys)?)),
    }
}

/// The command of device classes and storage pools that has this form.
fn pool_command(
    alloc: Global,
    form: PoolForm,
    places: &[Given],
    keys: &[Given],
) -> Result<PoolCommand, Refusal>
    ensures { AnswersBy (λ c. c) result (pool_command form (map given_view places.now) (map given_view keys.now)) }
{
    match form {
        PoolForm::BackupPool => Ok(PoolCommand::BackupPool(read_pool_backup(alloc, places, keys)?)),
        PoolForm::DefineDevClass => Ok(PoolCommand::DefineDevClass(read_dev_class_definition(
            alloc, places, keys,
        )?)),
        PoolForm::DefinePool => Ok(PoolCommand::DefinePool(read_pool_definition(
            alloc, places, keys,
        )?)),
        PoolForm::DeleteDevClass => Ok(PoolCommand::DeleteDevClass(read_named_dev_class(
            alloc, places, keys,
        )?)),
        PoolForm::DeletePool => Ok(PoolCommand::DeletePool(read_named_pool(alloc, places, keys)?)),
        PoolForm::MigrateAll => Ok(PoolCommand::MigrateAll),
        PoolForm::MigratePool => Ok(PoolCommand::MigratePool(read_migration(alloc, places, keys)?)),
        PoolForm::QueryDevClass => Ok(PoolCommand::QueryDevClass),
        PoolForm::QueryPool => Ok(PoolCommand::QueryPool(read_pool_query(alloc, places, keys)?)),
        PoolForm::ReclaimPool => Ok(PoolCommand::ReclaimPool(read_reclamation(
            alloc, places, keys,
        )?)),
        PoolForm::RestorePool => Ok(PoolCommand::RestorePool(read_named_pool(
            alloc, places, keys,
        )?)),
        PoolForm::UpdatePool => Ok(PoolCommand::UpdatePool(read_pool_update(alloc, places, keys)?)),
    }
}

/// The command of volumes that has this form.
fn volume_command(
    alloc: Global,
    form: VolumeForm,
    places: &[Given],
    keys: &[Given],
) -> Result<VolumeCommand, Refusal>
    ensures { AnswersBy (λ c. c) result (volume_command form (map given_view places.now) (map given_view keys.now)) }
{
    match form {
        VolumeForm::AuditVolume => Ok(VolumeCommand::AuditVolume(read_volume_audit(
            alloc, places, keys,
        )?)),
        VolumeForm::DefineVolume => Ok(VolumeCommand::DefineVolume(read_volume_definition(
            alloc, places, keys,
        )?)),
        VolumeForm::DeleteVolume => Ok(VolumeCommand::DeleteVolume(read_volume_deletion(
            alloc, places, keys,
        )?)),
        VolumeForm::MoveData => Ok(VolumeCommand::MoveData(read_data_move(alloc, places, keys)?)),
        VolumeForm::QueryContent => Ok(VolumeCommand::QueryContent(read_named_volume(
            alloc, places, keys,
        )?)),
        VolumeForm::QueryVolume => Ok(VolumeCommand::QueryVolume(read_volume_query(
            alloc, places, keys,
        )?)),
        VolumeForm::RestoreVolume => Ok(VolumeCommand::RestoreVolume(read_named_volume(
            alloc, places, keys,
        )?)),
        VolumeForm::ReuseVolumes => Ok(VolumeCommand::ReuseVolumes),
        VolumeForm::UpdateVolume => Ok(VolumeCommand::UpdateVolume(read_volume_update(
            alloc, places, keys,
        )?)),
    }
}

/// The command of files that has this form.
fn file_command(
    alloc: Global,
    form: FileForm,
    places: &[Given],
    keys: &[Given],
) -> Result<FileCommand, Refusal>
    ensures { AnswersBy (λ c. c) result (file_command form (map given_view places.now) (map given_view keys.now)) }
{
    match form {
        FileForm::ArchiveFiles => Ok(FileCommand::ArchiveFiles(read_files_archive(
            alloc, places, keys,
        )?)),
        FileForm::Erase => Ok(FileCommand::Erase(read_file_erase(alloc, places, keys)?)),
        FileForm::Get => Ok(FileCommand::Get(read_file_get(alloc, places, keys)?)),
        FileForm::Incremental => Ok(FileCommand::Incremental(read_incremental_backup(
            alloc, places, keys,
        )?)),
        FileForm::Put => Ok(FileCommand::Put(read_file_put(alloc, places, keys)?)),
        FileForm::RestoreFiles => Ok(FileCommand::RestoreFiles(read_files_restore(
            alloc, places, keys,
        )?)),
        FileForm::RetrieveFiles => Ok(FileCommand::RetrieveFiles(read_files_retrieve(
            alloc, places, keys,
        )?)),
        FileForm::Write => Ok(FileCommand::Write(read_file_write(alloc, places, keys)?)),
    }
}

/// The command of the database, its history and the day that has this form.
fn database_command(
    alloc: Global,
    form: DatabaseForm,
    places: &[Given],
    keys: &[Given],
) -> Result<DatabaseCommand, Refusal>
    ensures { AnswersBy (λ c. c) result (database_command form (map given_view places.now) (map given_view keys.now)) }
{
    match form {
        DatabaseForm::BackupDatabase => Ok(DatabaseCommand::BackupDatabase(read_database_backup(
            alloc, places, keys,
        )?)),
        DatabaseForm::Checkpoint => Ok(DatabaseCommand::Checkpoint),
        DatabaseForm::Day => Ok(DatabaseCommand::Day(read_day_change(alloc, places, keys)?)),
        DatabaseForm::DeleteHistory => Ok(DatabaseCommand::DeleteHistory(read_history_deletion(
            alloc, places, keys,
        )?)),
        DatabaseForm::ExpireInventory => Ok(DatabaseCommand::ExpireInventory),
        DatabaseForm::QueryHistory => Ok(DatabaseCommand::QueryHistory),
    }
}

/// The command of a row, by the values that were given for its places and its keywords.
pub fn command_of(
    alloc: Global,
    form: Form,
    places: &[Given],
    keys: &[Given],
) -> Result<Command, Refusal>
    ensures { AnswersBy (λ c. c) result (command_of form (map given_view places.now) (map given_view keys.now)) }
{
    match form {
        Form::Policy(form) => Ok(Command::Policy(policy_command(alloc, form, places, keys)?)),
        Form::Class(form) => Ok(Command::Class(class_command(alloc, form, places, keys)?)),
        Form::Node(form) => Ok(Command::Node(node_command(alloc, form, places, keys)?)),
        Form::Pool(form) => Ok(Command::Pool(pool_command(alloc, form, places, keys)?)),
        Form::Volume(form) => Ok(Command::Volume(volume_command(alloc, form, places, keys)?)),
        Form::File(form) => Ok(Command::File(file_command(alloc, form, places, keys)?)),
        Form::Database(form) => Ok(Command::Database(database_command(alloc, form, places, keys)?)),
        Form::Block(form) => Ok(Command::Block(form)),
    }
}
