ghost use Rattle.std.specs.Prelude.{◌≡◌, ◌∷◌, [], map, IfSome, IsTrue, true, false};
ghost use Rattle.std.specs.Option.{option_map};
ghost use Rattle.admin_words.specs.Rows.{archive_row, noun_view, rows_of, verb_view, verbs};
ghost use Rattle.admin_words.specs.Table.{are_options, are_sound_rows, are_legible, without, block_alone, main_alone};

use command_words::{Kind, Need, Place, Slot, Words};

/// The commands of policy domains and policy sets.
#[derive(Clone, Copy)]
pub enum PolicyForm {
    ActivateSet,
    DefineDomain,
    DefineSet,
    DeleteDomain,
    DeleteSet,
    QueryDomain,
    QuerySet,
    UpdateDomain,
    ValidateSet,
}

/// The commands of management classes and copy groups.
#[derive(Clone, Copy)]
pub enum ClassForm {
    AssignClass,
    DefineArchiveGroup,
    DefineClass,
    DefineGroup,
    DeleteArchiveGroup,
    DeleteClass,
    DeleteGroup,
    QueryClass,
    QueryGroup,
    UpdateArchiveGroup,
    UpdateGroup,
}

/// The commands of nodes and filespaces.
#[derive(Clone, Copy)]
pub enum NodeForm {
    DeleteFilespace,
    QueryArchive,
    QueryBackup,
    QueryFilespace,
    QueryNode,
    RegisterNode,
    RemoveNode,
}

/// The commands of device classes and storage pools.
#[derive(Clone, Copy)]
pub enum PoolForm {
    BackupPool,
    DefineDevClass,
    DefinePool,
    DeleteDevClass,
    DeletePool,
    MigrateAll,
    MigratePool,
    QueryDevClass,
    QueryPool,
    ReclaimPool,
    RestorePool,
    UpdatePool,
}

/// The commands of volumes.
#[derive(Clone, Copy)]
pub enum VolumeForm {
    AuditVolume,
    DefineVolume,
    DeleteVolume,
    MoveData,
    QueryContent,
    QueryVolume,
    RestoreVolume,
    ReuseVolumes,
    UpdateVolume,
}

/// The commands of files.
#[derive(Clone, Copy)]
pub enum FileForm {
    ArchiveFiles,
    Erase,
    Get,
    Incremental,
    Put,
    RestoreFiles,
    RetrieveFiles,
    Write,
}

/// The commands of the database, its history and the day.
#[derive(Clone, Copy)]
pub enum DatabaseForm {
    BackupDatabase,
    Checkpoint,
    Day,
    DeleteHistory,
    ExpireInventory,
    QueryHistory,
}

/// The commands of blocks.
#[derive(Clone, Copy, Debug)]
pub enum BlockForm {
    /// AND, which ends a job of a block and begins the next.
    And,
    /// END, which ends a block.
    End,
    /// PARALLEL, which begins a block.
    Parallel,
}

/// Which command a row of the table is, by families.
#[derive(Clone, Copy)]
pub enum Form {
    Policy(PolicyForm),
    Class(ClassForm),
    Node(NodeForm),
    Pool(PoolForm),
    Volume(VolumeForm),
    File(FileForm),
    Database(DatabaseForm),
    Block(BlockForm),
}

/// A row of the table: the second word of the command, in upper case, or an empty text where it has none; which command it
/// is; its places, from the left; and its keywords.
pub type Noun = (&'static str, Form, &'static [Place], &'static [Slot]);

/// The first word of a command.
#[derive(Clone, Copy)]
pub enum FirstWord {
    Activate,
    And,
    Assign,
    Audit,
    Backup,
    Checkpoint,
    Day,
    Define,
    Delete,
    Dsmc,
    End,
    Erase,
    Expire,
    Get,
    Migrate,
    Move,
    Parallel,
    Put,
    Query,
    Reclaim,
    Register,
    Remove,
    Restore,
    Reuse,
    Update,
    Validate,
    Write,
}

/// A first word, as it is written in upper case, and which it is.
pub type Verb = (&'static str, FirstWord);

/// The values of yes-or-no keywords.
pub const NO_YES: Words = &["NO", "YES"];

/// The values of ACCESS.
pub const ACCESSES: Words = &[
    "READWRITE",
    "READONLY",
    "UNAVAILABLE",
    "OFFSITE",
    "DESTROYED",
];

/// The values of POOLTYPE.
pub const POOL_TYPES: Words = &["PRIMARY", "COPY"];

/// The values of COLLOCATE.
pub const COLLOCATIONS: Words = &["NO", "NODE"];

/// The values of MODE.
pub const MODES: Words = &["MODIFIED", "ABSOLUTE"];

/// The values of SERIALIZATION.
pub const SERIALIZATIONS: Words = &["SHRSTATIC", "STATIC"];

/// The values of TYPE of a database backup.
pub const BACKUP_TYPES: Words = &["FULL", "INCREMENTAL"];

const NAME: Place = (Kind::Name, &[], true);

const NAME_IF: Place = (Kind::Name, &[], false);

const NODE: Place = (Kind::NodeName, &[], true);

const NODE_IF: Place = (Kind::NodeName, &[], false);

const FILESPACE: Place = (Kind::FilespaceName, &[], true);

const PATH: Place = (Kind::Path, &[], true);

const STANDARD_IF: Place = (Kind::OneOf, &["STANDARD"], false);

const PASSWORD: Place = (Kind::Text { least: 1, most: 64 }, &[], true);

const NUMBER: Place = (
    Kind::Number {
        least: 0,
        most: 9999999999,
    },
    &[],
    true,
);

const DAY: Place = (
    Kind::Number {
        least: 0,
        most: 2147483647,
    },
    &[],
    true,
);

const DAYS: Kind = Kind::Number {
    least: 0,
    most: 9999,
};

const LIMIT: Kind = Kind::Limit {
    least: 0,
    most: 9999,
};

const DATE: Kind = Kind::Number {
    least: 0,
    most: 2147483647,
};

const DESCRIPTION: Slot = (
    "DESCRIPTION",
    Kind::Text {
        least: 0,
        most: 255,
    },
    &[],
    Need::Optional,
);

const WAIT: Slot = ("WAIT", Kind::OneOf, NO_YES, Need::Optional);

const BACKRETENTION: Slot = ("BACKRETENTION", DAYS, &[], Need::Optional);

const NEW_BACKRETENTION: Slot = ("BACKRETENTION", DAYS, &[], Need::Required);

const DESTINATION: Slot = ("DESTINATION", Kind::Name, &[], Need::Required);

const NEW_DESTINATION: Slot = ("DESTINATION", Kind::Name, &[], Need::Optional);

const TYPE_BACKUP: Slot = ("TYPE", Kind::OneOf, &["BACKUP"], Need::Optional);

const TYPE_ARCHIVE: Slot = ("TYPE", Kind::OneOf, &["ARCHIVE"], Need::Required);

const RETVER: Slot = (
    "RETVER",
    Kind::Limit {
        least: 0,
        most: 30000,
    },
    &[],
    Need::Optional,
);

const FREQUENCY: Slot = ("FREQUENCY", DAYS, &[], Need::Optional);

const VEREXISTS: Slot = (
    "VEREXISTS",
    Kind::Limit {
        least: 1,
        most: 9999,
    },
    &[],
    Need::Optional,
);

const VERDELETED: Slot = ("VERDELETED", LIMIT, &[], Need::Optional);

const RETEXTRA: Slot = ("RETEXTRA", LIMIT, &[], Need::Optional);

const RETONLY: Slot = ("RETONLY", LIMIT, &[], Need::Optional);

const MODE: Slot = ("MODE", Kind::OneOf, MODES, Need::Optional);

const SERIALIZATION: Slot = ("SERIALIZATION", Kind::OneOf, SERIALIZATIONS, Need::Optional);

const DOMAIN: Slot = ("DOMAIN", Kind::Name, &[], Need::Optional);

const DEVTYPE: Slot = ("DEVTYPE", Kind::OneOf, &["FILE"], Need::Required);

const MAXCAPACITY: Slot = (
    "MAXCAPACITY",
    Kind::Size {
        least: 65536,
        most: 1099511627776,
    },
    &[],
    Need::Optional,
);

const POOLTYPE: Slot = ("POOLTYPE", Kind::OneOf, POOL_TYPES, Need::Optional);

const MAXSIZE: Slot = (
    "MAXSIZE",
    Kind::SizeLimit {
        least: 1,
        most: 1099511627776,
    },
    &[],
    Need::Optional,
);

const NEXTSTGPOOL: Slot = ("NEXTSTGPOOL", Kind::NameOrNone, &[], Need::Optional);

const HIGHMIG: Slot = (
    "HIGHMIG",
    Kind::Number {
        least: 0,
        most: 100,
    },
    &[],
    Need::Optional,
);

const LOWMIG: Slot = (
    "LOWMIG",
    Kind::Number { least: 0, most: 99 },
    &[],
    Need::Optional,
);

const RECLAIM: Slot = (
    "RECLAIM",
    Kind::Number {
        least: 1,
        most: 100,
    },
    &[],
    Need::Optional,
);

const REUSEDELAY: Slot = ("REUSEDELAY", DAYS, &[], Need::Optional);

const MAXSCRATCH: Slot = ("MAXSCRATCH", DAYS, &[], Need::Optional);

const COLLOCATE: Slot = ("COLLOCATE", Kind::OneOf, COLLOCATIONS, Need::Optional);

const FORMATSIZE: Slot = (
    "FORMATSIZE",
    Kind::Number {
        least: 1,
        most: 65536,
    },
    &[],
    Need::Optional,
);

const ACCESS: Slot = ("ACCESS", Kind::OneOf, ACCESSES, Need::Required);

const DISCARDDATA: Slot = ("DISCARDDATA", Kind::OneOf, NO_YES, Need::Optional);

const FIX: Slot = ("FIX", Kind::OneOf, NO_YES, Need::Optional);

const THRESHOLD: Slot = (
    "THRESHOLD",
    Kind::Number {
        least: 1,
        most: 100,
    },
    &[],
    Need::Optional,
);

const STGPOOL: Slot = ("STGPOOL", Kind::Name, &[], Need::Optional);

const DEVCLASS: Slot = ("DEVCLASS", Kind::Name, &[], Need::Optional);

const TYPE_OF_BACKUP: Slot = ("TYPE", Kind::OneOf, BACKUP_TYPES, Need::Optional);

const TYPE_DBBACKUP: Slot = ("TYPE", Kind::OneOf, &["DBBACKUP"], Need::Required);

const TODATE: Slot = ("TODATE", DATE, &[], Need::Required);

const TEXT: Slot = (
    "TEXT",
    Kind::Text {
        least: 0,
        most: 4294967295,
    },
    &[],
    Need::Required,
);

const TEXT_ALONE: Slot = (
    "TEXT",
    Kind::Text {
        least: 0,
        most: 4294967295,
    },
    &[],
    Need::OneSide(0),
);

const SIZE: Slot = (
    "SIZE",
    Kind::Size {
        least: 0,
        most: 18446744073709551615,
    },
    &[],
    Need::OneSide(1),
);

const FILL: Slot = (
    "FILL",
    Kind::Number {
        least: 0,
        most: 250,
    },
    &[],
    Need::OneSide(1),
);

const PATTERN: Slot = ("PATTERN", Kind::Pattern, &[], Need::AnySide(0));

const PITDATE: Slot = ("PITDATE", DATE, &[], Need::AnySide(1));

const OBJECT: Slot = (
    "OBJECT",
    Kind::Number {
        least: 0,
        most: 9999999999,
    },
    &[],
    Need::AnySide(2),
);

const PATTERN_IF: Slot = ("PATTERN", Kind::Pattern, &[], Need::Optional);

const ARCHMC: Slot = ("ARCHMC", Kind::Name, &[], Need::Optional);

const ARCHIVE_DESCRIPTION: Slot = ("DESCRIPTION", Kind::Description, &[], Need::Optional);

const DELETEFILES: Slot = ("DELETEFILES", Kind::OneOf, NO_YES, Need::Optional);

/// The row of DEFINE COPYGROUP with TYPE=ARCHIVE.
pub const DEFINE_ARCHIVE: Noun = (
    "COPYGROUP",
    Form::Class(ClassForm::DefineArchiveGroup),
    &[NAME, NAME, NAME, STANDARD_IF],
    &[TYPE_ARCHIVE, DESTINATION, RETVER],
);

/// The row of DELETE COPYGROUP with TYPE=ARCHIVE.
pub const DELETE_ARCHIVE: Noun = (
    "COPYGROUP",
    Form::Class(ClassForm::DeleteArchiveGroup),
    &[NAME, NAME, NAME, STANDARD_IF],
    &[TYPE_ARCHIVE],
);

/// The row of UPDATE COPYGROUP with TYPE=ARCHIVE.
pub const UPDATE_ARCHIVE: Noun = (
    "COPYGROUP",
    Form::Class(ClassForm::UpdateArchiveGroup),
    &[NAME, NAME, NAME, STANDARD_IF],
    &[TYPE_ARCHIVE, NEW_DESTINATION, RETVER],
);

/// The rows that begin with ACTIVATE.
pub const ACTIVATE_NOUNS: &[Noun] = &[(
    "POLICYSET",
    Form::Policy(PolicyForm::ActivateSet),
    &[NAME, NAME],
    &[],
)];

/// The rows that begin with ASSIGN.
pub const ASSIGN_NOUNS: &[Noun] = &[(
    "DEFMGMTCLASS",
    Form::Class(ClassForm::AssignClass),
    &[NAME, NAME, NAME],
    &[],
)];

/// The rows that begin with AUDIT.
pub const AUDIT_NOUNS: &[Noun] = &[(
    "VOLUME",
    Form::Volume(VolumeForm::AuditVolume),
    &[NAME],
    &[FIX, WAIT],
)];

/// The rows that begin with BACKUP.
pub const BACKUP_NOUNS: &[Noun] = &[
    (
        "DB",
        Form::Database(DatabaseForm::BackupDatabase),
        &[],
        &[DEVCLASS, TYPE_OF_BACKUP, WAIT],
    ),
    (
        "STGPOOL",
        Form::Pool(PoolForm::BackupPool),
        &[NAME, NAME],
        &[WAIT],
    ),
];

/// The rows that begin with DEFINE.
pub const DEFINE_NOUNS: &[Noun] = &[
    (
        "COPYGROUP",
        Form::Class(ClassForm::DefineGroup),
        &[NAME, NAME, NAME, STANDARD_IF],
        &[
            TYPE_BACKUP,
            DESTINATION,
            FREQUENCY,
            VEREXISTS,
            VERDELETED,
            RETEXTRA,
            RETONLY,
            MODE,
            SERIALIZATION,
        ],
    ),
    (
        "DEVCLASS",
        Form::Pool(PoolForm::DefineDevClass),
        &[NAME],
        &[DEVTYPE, MAXCAPACITY],
    ),
    (
        "DOMAIN",
        Form::Policy(PolicyForm::DefineDomain),
        &[NAME],
        &[BACKRETENTION, DESCRIPTION],
    ),
    (
        "MGMTCLASS",
        Form::Class(ClassForm::DefineClass),
        &[NAME, NAME, NAME],
        &[DESCRIPTION],
    ),
    (
        "POLICYSET",
        Form::Policy(PolicyForm::DefineSet),
        &[NAME, NAME],
        &[DESCRIPTION],
    ),
    (
        "STGPOOL",
        Form::Pool(PoolForm::DefinePool),
        &[NAME, NAME],
        &[
            POOLTYPE,
            MAXSIZE,
            NEXTSTGPOOL,
            HIGHMIG,
            LOWMIG,
            RECLAIM,
            REUSEDELAY,
            MAXSCRATCH,
            COLLOCATE,
            DESCRIPTION,
        ],
    ),
    (
        "VOLUME",
        Form::Volume(VolumeForm::DefineVolume),
        &[NAME, NAME],
        &[FORMATSIZE],
    ),
];

/// The rows that begin with DELETE.
pub const DELETE_NOUNS: &[Noun] = &[
    (
        "COPYGROUP",
        Form::Class(ClassForm::DeleteGroup),
        &[NAME, NAME, NAME, STANDARD_IF],
        &[TYPE_BACKUP],
    ),
    (
        "DEVCLASS",
        Form::Pool(PoolForm::DeleteDevClass),
        &[NAME],
        &[],
    ),
    (
        "DOMAIN",
        Form::Policy(PolicyForm::DeleteDomain),
        &[NAME],
        &[],
    ),
    (
        "FILESPACE",
        Form::Node(NodeForm::DeleteFilespace),
        &[NODE, FILESPACE],
        &[],
    ),
    (
        "MGMTCLASS",
        Form::Class(ClassForm::DeleteClass),
        &[NAME, NAME, NAME],
        &[],
    ),
    (
        "POLICYSET",
        Form::Policy(PolicyForm::DeleteSet),
        &[NAME, NAME],
        &[],
    ),
    ("STGPOOL", Form::Pool(PoolForm::DeletePool), &[NAME], &[]),
    (
        "VOLHISTORY",
        Form::Database(DatabaseForm::DeleteHistory),
        &[],
        &[TODATE, TYPE_DBBACKUP],
    ),
    (
        "VOLUME",
        Form::Volume(VolumeForm::DeleteVolume),
        &[NAME],
        &[DISCARDDATA],
    ),
];

/// The rows that begin with DSMC.
pub const DSMC_NOUNS: &[Noun] = &[
    (
        "ARCHIVE",
        Form::File(FileForm::ArchiveFiles),
        &[NODE, FILESPACE, NUMBER],
        &[PATTERN_IF, ARCHMC, ARCHIVE_DESCRIPTION, DELETEFILES],
    ),
    (
        "INCREMENTAL",
        Form::File(FileForm::Incremental),
        &[NODE, FILESPACE, NUMBER],
        &[],
    ),
    (
        "RESTORE",
        Form::File(FileForm::RestoreFiles),
        &[NODE, FILESPACE, NUMBER],
        &[PATTERN, PITDATE, OBJECT],
    ),
    (
        "RETRIEVE",
        Form::File(FileForm::RetrieveFiles),
        &[NODE, FILESPACE, NUMBER],
        &[PATTERN_IF, ARCHIVE_DESCRIPTION],
    ),
];

/// The rows that begin with EXPIRE.
pub const EXPIRE_NOUNS: &[Noun] = &[(
    "INVENTORY",
    Form::Database(DatabaseForm::ExpireInventory),
    &[],
    &[WAIT],
)];

/// The rows that begin with MIGRATE.
pub const MIGRATE_NOUNS: &[Noun] = &[
    ("ALL", Form::Pool(PoolForm::MigrateAll), &[], &[WAIT]),
    (
        "STGPOOL",
        Form::Pool(PoolForm::MigratePool),
        &[NAME],
        &[LOWMIG, WAIT],
    ),
];

/// The rows that begin with MOVE.
pub const MOVE_NOUNS: &[Noun] = &[(
    "DATA",
    Form::Volume(VolumeForm::MoveData),
    &[NAME],
    &[STGPOOL, WAIT],
)];

/// The rows that begin with QUERY.
pub const QUERY_NOUNS: &[Noun] = &[
    (
        "ARCHIVE",
        Form::Node(NodeForm::QueryArchive),
        &[NODE, FILESPACE],
        &[],
    ),
    (
        "BACKUP",
        Form::Node(NodeForm::QueryBackup),
        &[NODE, FILESPACE],
        &[],
    ),
    (
        "CONTENT",
        Form::Volume(VolumeForm::QueryContent),
        &[NAME],
        &[],
    ),
    (
        "COPYGROUP",
        Form::Class(ClassForm::QueryGroup),
        &[NAME, NAME],
        &[],
    ),
    ("DEVCLASS", Form::Pool(PoolForm::QueryDevClass), &[], &[]),
    ("DOMAIN", Form::Policy(PolicyForm::QueryDomain), &[], &[]),
    (
        "FILESPACE",
        Form::Node(NodeForm::QueryFilespace),
        &[NODE_IF],
        &[],
    ),
    (
        "MGMTCLASS",
        Form::Class(ClassForm::QueryClass),
        &[NAME, NAME],
        &[],
    ),
    ("NODE", Form::Node(NodeForm::QueryNode), &[], &[]),
    (
        "POLICYSET",
        Form::Policy(PolicyForm::QuerySet),
        &[NAME],
        &[],
    ),
    ("STGPOOL", Form::Pool(PoolForm::QueryPool), &[NAME_IF], &[]),
    (
        "VOLHISTORY",
        Form::Database(DatabaseForm::QueryHistory),
        &[],
        &[],
    ),
    (
        "VOLUME",
        Form::Volume(VolumeForm::QueryVolume),
        &[NAME_IF],
        &[STGPOOL],
    ),
];

/// The rows that begin with RECLAIM.
pub const RECLAIM_NOUNS: &[Noun] = &[(
    "STGPOOL",
    Form::Pool(PoolForm::ReclaimPool),
    &[NAME],
    &[THRESHOLD, WAIT],
)];

/// The rows that begin with REGISTER.
pub const REGISTER_NOUNS: &[Noun] = &[(
    "NODE",
    Form::Node(NodeForm::RegisterNode),
    &[NODE, PASSWORD],
    &[DOMAIN],
)];

/// The rows that begin with REMOVE.
pub const REMOVE_NOUNS: &[Noun] = &[("NODE", Form::Node(NodeForm::RemoveNode), &[NODE], &[])];

/// The rows that begin with RESTORE.
pub const RESTORE_NOUNS: &[Noun] = &[
    (
        "STGPOOL",
        Form::Pool(PoolForm::RestorePool),
        &[NAME],
        &[WAIT],
    ),
    (
        "VOLUME",
        Form::Volume(VolumeForm::RestoreVolume),
        &[NAME],
        &[WAIT],
    ),
];

/// The rows that begin with REUSE.
pub const REUSE_NOUNS: &[Noun] = &[("VOLUMES", Form::Volume(VolumeForm::ReuseVolumes), &[], &[])];

/// The rows that begin with UPDATE.
pub const UPDATE_NOUNS: &[Noun] = &[
    (
        "COPYGROUP",
        Form::Class(ClassForm::UpdateGroup),
        &[NAME, NAME, NAME, STANDARD_IF],
        &[
            TYPE_BACKUP,
            NEW_DESTINATION,
            FREQUENCY,
            VEREXISTS,
            VERDELETED,
            RETEXTRA,
            RETONLY,
            MODE,
            SERIALIZATION,
        ],
    ),
    (
        "DOMAIN",
        Form::Policy(PolicyForm::UpdateDomain),
        &[NAME],
        &[NEW_BACKRETENTION, DESCRIPTION],
    ),
    (
        "STGPOOL",
        Form::Pool(PoolForm::UpdatePool),
        &[NAME],
        &[
            MAXSIZE,
            NEXTSTGPOOL,
            HIGHMIG,
            LOWMIG,
            RECLAIM,
            REUSEDELAY,
            MAXSCRATCH,
            COLLOCATE,
            DESCRIPTION,
        ],
    ),
    (
        "VOLUME",
        Form::Volume(VolumeForm::UpdateVolume),
        &[NAME],
        &[ACCESS],
    ),
];

/// The rows that begin with VALIDATE.
pub const VALIDATE_NOUNS: &[Noun] = &[(
    "POLICYSET",
    Form::Policy(PolicyForm::ValidateSet),
    &[NAME, NAME],
    &[],
)];

/// The rows that begin with AND.
pub const AND_NOUNS: &[Noun] = &[("", Form::Block(BlockForm::And), &[], &[])];

/// The rows that begin with CHECKPOINT.
pub const CHECKPOINT_NOUNS: &[Noun] = &[("", Form::Database(DatabaseForm::Checkpoint), &[], &[])];

/// The rows that begin with DAY.
pub const DAY_NOUNS: &[Noun] = &[("", Form::Database(DatabaseForm::Day), &[DAY], &[])];

/// The rows that begin with END.
pub const END_NOUNS: &[Noun] = &[("", Form::Block(BlockForm::End), &[], &[])];

/// The rows that begin with ERASE.
pub const ERASE_NOUNS: &[Noun] = &[("", Form::File(FileForm::Erase), &[NUMBER, PATH], &[])];

/// The rows that begin with GET.
pub const GET_NOUNS: &[Noun] = &[("", Form::File(FileForm::Get), &[NODE, FILESPACE, PATH], &[])];

/// The rows that begin with PARALLEL.
pub const PARALLEL_NOUNS: &[Noun] = &[("", Form::Block(BlockForm::Parallel), &[], &[])];

/// The rows that begin with PUT.
pub const PUT_NOUNS: &[Noun] = &[(
    "",
    Form::File(FileForm::Put),
    &[NODE, FILESPACE, PATH, NUMBER],
    &[TEXT],
)];

/// The rows that begin with WRITE.
pub const WRITE_NOUNS: &[Noun] = &[(
    "",
    Form::File(FileForm::Write),
    &[NUMBER, PATH, NUMBER],
    &[TEXT_ALONE, SIZE, FILL],
)];

/// The commands that are possible outside blocks.
pub const MAIN: &[Verb] = &[
    ("ACTIVATE", FirstWord::Activate),
    ("ASSIGN", FirstWord::Assign),
    ("AUDIT", FirstWord::Audit),
    ("BACKUP", FirstWord::Backup),
    ("CHECKPOINT", FirstWord::Checkpoint),
    ("DAY", FirstWord::Day),
    ("DEFINE", FirstWord::Define),
    ("DELETE", FirstWord::Delete),
    ("DSMC", FirstWord::Dsmc),
    ("ERASE", FirstWord::Erase),
    ("EXPIRE", FirstWord::Expire),
    ("GET", FirstWord::Get),
    ("MIGRATE", FirstWord::Migrate),
    ("MOVE", FirstWord::Move),
    ("PARALLEL", FirstWord::Parallel),
    ("PUT", FirstWord::Put),
    ("QUERY", FirstWord::Query),
    ("RECLAIM", FirstWord::Reclaim),
    ("REGISTER", FirstWord::Register),
    ("REMOVE", FirstWord::Remove),
    ("RESTORE", FirstWord::Restore),
    ("REUSE", FirstWord::Reuse),
    ("UPDATE", FirstWord::Update),
    ("VALIDATE", FirstWord::Validate),
    ("WRITE", FirstWord::Write),
];

/// The commands that are possible in a block.
pub const BLOCK: &[Verb] = &[
    ("ACTIVATE", FirstWord::Activate),
    ("AND", FirstWord::And),
    ("ASSIGN", FirstWord::Assign),
    ("AUDIT", FirstWord::Audit),
    ("BACKUP", FirstWord::Backup),
    ("CHECKPOINT", FirstWord::Checkpoint),
    ("DEFINE", FirstWord::Define),
    ("DELETE", FirstWord::Delete),
    ("DSMC", FirstWord::Dsmc),
    ("END", FirstWord::End),
    ("ERASE", FirstWord::Erase),
    ("EXPIRE", FirstWord::Expire),
    ("GET", FirstWord::Get),
    ("MIGRATE", FirstWord::Migrate),
    ("MOVE", FirstWord::Move),
    ("PUT", FirstWord::Put),
    ("QUERY", FirstWord::Query),
    ("RECLAIM", FirstWord::Reclaim),
    ("REGISTER", FirstWord::Register),
    ("REMOVE", FirstWord::Remove),
    ("RESTORE", FirstWord::Restore),
    ("REUSE", FirstWord::Reuse),
    ("UPDATE", FirstWord::Update),
    ("VALIDATE", FirstWord::Validate),
    ("WRITE", FirstWord::Write),
];

/// The commands that are possible in a block, or those outside one, by their first words.
#[tactic(auto, using(crate::proofs::Laws::sound_words, crate::proofs::Laws::block_words), unfolding(crate::specs::Rows::verbs))]
pub fn verbs_of(in_block: bool) -> &'static [Verb]
    ensures value { map verb_view result.now ≡ verbs in_block }

    // The words are in upper case and distinct, and each is meant by itself.
    ensures sound { IsTrue (are_options (map (λ v. v.word) (verbs in_block))) }

    // But for AND and END the commands of a block are those outside, but for DAY and PARALLEL.
    ensures block { without block_alone (verbs true) ≡ without main_alone (verbs false) }
{
    if in_block { BLOCK } else { MAIN }
}

/// The rows that begin with a first word, as the table has them.
#[tactic(auto, unfolding(crate::specs::Rows::rows_of))]
fn rows_behind(first: FirstWord) -> &'static [Noun]
    ensures { map noun_view result.now ≡ rows_of first }
{
    match first {
        FirstWord::Activate => ACTIVATE_NOUNS,
        FirstWord::And => AND_NOUNS,
        FirstWord::Assign => ASSIGN_NOUNS,
        FirstWord::Audit => AUDIT_NOUNS,
        FirstWord::Backup => BACKUP_NOUNS,
        FirstWord::Checkpoint => CHECKPOINT_NOUNS,
        FirstWord::Day => DAY_NOUNS,
        FirstWord::Define => DEFINE_NOUNS,
        FirstWord::Delete => DELETE_NOUNS,
        FirstWord::Dsmc => DSMC_NOUNS,
        FirstWord::End => END_NOUNS,
        FirstWord::Erase => ERASE_NOUNS,
        FirstWord::Expire => EXPIRE_NOUNS,
        FirstWord::Get => GET_NOUNS,
        FirstWord::Migrate => MIGRATE_NOUNS,
        FirstWord::Move => MOVE_NOUNS,
        FirstWord::Parallel => PARALLEL_NOUNS,
        FirstWord::Put => PUT_NOUNS,
        FirstWord::Query => QUERY_NOUNS,
        FirstWord::Reclaim => RECLAIM_NOUNS,
        FirstWord::Register => REGISTER_NOUNS,
        FirstWord::Remove => REMOVE_NOUNS,
        FirstWord::Restore => RESTORE_NOUNS,
        FirstWord::Reuse => REUSE_NOUNS,
        FirstWord::Update => UPDATE_NOUNS,
        FirstWord::Validate => VALIDATE_NOUNS,
        FirstWord::Write => WRITE_NOUNS,
    }
}

/// The row that stands in the place of this command's where TYPE is ARCHIVE: that of the archive copy group, for a command of copy groups.
#[tactic(auto, using(crate::proofs::Laws::sound_archive, crate::proofs::Laws::legible_archive), unfolding(crate::specs::Rows::archive_row))]
pub fn archive_row(form: Form) -> Option<Noun>
    // It is that of the grammar.
    ensures value { option_map noun_view result ≡ archive_row form }

    // Its keywords and the words that are values are in upper case and distinct, and each is meant by itself.
    ensures sound { IfSome (archive_row form) (λ r. IsTrue (are_sound_rows (r ∷ []))) }

    // The places that its command's reader takes as names must be there, and hold these.
    ensures legible { IfSome (archive_row form) (λ r. IsTrue (are_legible (r ∷ []))) }
{
    match form {
        Form::Class(ClassForm::DefineGroup) => Some(DEFINE_ARCHIVE),
        Form::Class(ClassForm::DeleteGroup) => Some(DELETE_ARCHIVE),
        Form::Class(ClassForm::UpdateGroup) => Some(UPDATE_ARCHIVE),
        _ => None,
    }
}

/// The rows that begin with a first word.
#[tactic(auto, using(crate::proofs::Laws::sound_rows, crate::proofs::Laws::legible_rows))]
pub fn nouns_of(first: FirstWord) -> &'static [Noun]
    // They are those of the grammar: words, places and keywords, with the kinds and the ranges of their values.
    ensures value { map noun_view result.now ≡ rows_of first }

    // The second words, the keywords and the words that are values are in upper case and distinct, and each is meant by itself.
    ensures sound { IsTrue (are_sound_rows (rows_of first)) }

    // The places that a command's reader takes as names, paths and numbers must be there, and hold these.
    ensures legible { IsTrue (are_legible (rows_of first)) }
{
    rows_behind(first)
}
