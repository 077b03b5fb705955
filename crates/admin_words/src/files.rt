ghost use Rattle.std.specs.Prelude.{◌≡◌, map};
ghost use Rattle.std.specs.Option.{option_copied};
ghost use Rattle.kinds.specs.Answers.{AnswersBy};
ghost use Rattle.command_words.specs.Fields.{description_of, name_if};
ghost use Rattle.command_words.specs.Rows.{given_view};
ghost use Rattle.admin_words.specs.Files.{contents, file_write, file_erase, file_put, file_get, incremental_backup, wanted_on, wanted, files_restore, files_archive, files_retrieve};

use crate::nodes::{NodeFilespace, read_node_filespace};
use crate::words::{first_byte, is_yes};
use command_words::{Given, Text, field, text_at};
use kinds::{Day, FilespaceName, Name, NodeName, Path, Refusal};
use std::alloc::Global;

/// What a file of a tree is written with.
#[derive(Debug, Drop)]
pub enum Contents {
    /// This text.
    Text(Text),
    /// So many bytes, of which byte i, counted from 0, is `(fill + i) mod 251`.
    Counted { size: u64, fill: u8 },
}

/// The contents by TEXT, or else by SIZE and FILL.
fn read_contents(
    alloc: Global,
    text: Option<&[u8]>,
    size: Option<&[u8]>,
    fill: Option<&[u8]>,
) -> Result<Contents, Refusal>
    ensures { AnswersBy (λ x. x) result (contents (option_copied text.entry) (option_copied size.entry) (option_copied fill.entry)) }
{
    match field::text_if(alloc, text)? {
        Some(text) => Ok(Contents::Text(text)),
        None => Ok(Contents::Counted {
            size: field::bytes(size).unwrap_or(0),
            fill: first_byte(fill).unwrap_or(0),
        }),
    }
}

/// WRITE: a file of a tree, which is replaced where it is there. The number of the tree may be greater than any tree's;
/// `mtime` is the file's time as a number.
#[derive(Debug, Drop)]
pub struct FileWrite {
    pub tree: u64,
    pub path: Path,
    pub mtime: u64,
    pub contents: Contents,
}

/// What the values that were given for the row say.
pub fn read_file_write(
    alloc: Global,
    places: &[Given],
    keys: &[Given],
) -> Result<FileWrite, Refusal>
    ensures { AnswersBy (λ x. x) result (file_write (map given_view places.now) (map given_view keys.now)) }
{
    let path = field::path(alloc, text_at(places, 1))?;
    let contents = read_contents(alloc, text_at(keys, 0), text_at(keys, 1), text_at(keys, 2))?;
    Ok(FileWrite {
        tree: field::number(text_at(places, 0), 9999999999).unwrap_or(0),
        path,
        mtime: field::number(text_at(places, 2), 9999999999).unwrap_or(0),
        contents,
    })
}

/// ERASE: a file of a tree.
#[derive(Debug, Drop)]
pub struct FileErase {
    pub tree: u64,
    pub path: Path,
}

/// What the values that were given for the row say.
pub fn read_file_erase(
    alloc: Global,
    places: &[Given],
    keys: &[Given],
) -> Result<FileErase, Refusal>
    ensures { AnswersBy (λ x. x) result (file_erase (map given_view places.now) (map given_view keys.now)) }
{
    let path = field::path(alloc, text_at(places, 1))?;
    Ok(FileErase {
        tree: field::number(text_at(places, 0), 9999999999).unwrap_or(0),
        path,
    })
}

/// PUT: one file, sent without a tree.
#[derive(Debug, Drop)]
pub struct FilePut {
    pub node: NodeName,
    pub filespace: FilespaceName,
    pub path: Path,
    pub mtime: u64,
    pub text: Text,
}

/// What the values that were given for the row say.
pub fn read_file_put(alloc: Global, places: &[Given], keys: &[Given]) -> Result<FilePut, Refusal>
    ensures { AnswersBy (λ x. x) result (file_put (map given_view places.now) (map given_view keys.now)) }
{
    let text = field::text(alloc, text_at(keys, 0))?;
    let FileGet {
        node,
        filespace,
        path,
    } = read_file_get(alloc, places, keys)?;
    Ok(FilePut {
        node,
        filespace,
        path,
        mtime: field::number(text_at(places, 3), 9999999999).unwrap_or(0),
        text,
    })
}

/// GET: the active version of one file.
#[derive(Debug, Drop)]
pub struct FileGet {
    pub node: NodeName,
    pub filespace: FilespaceName,
    pub path: Path,
}

/// What the values that were given for the row say.
pub fn read_file_get(alloc: Global, places: &[Given], keys: &[Given]) -> Result<FileGet, Refusal>
    ensures { AnswersBy (λ x. x) result (file_get (map given_view places.now) (map given_view keys.now)) }
{
    let path = field::path(alloc, text_at(places, 2))?;
    let NodeFilespace { node, filespace } = read_node_filespace(alloc, places, keys)?;
    Ok(FileGet {
        node,
        filespace,
        path,
    })
}

/// DSMC INCREMENTAL: what changed in a tree.
#[derive(Debug, Drop)]
pub struct IncrementalBackup {
    pub node: NodeName,
    pub filespace: FilespaceName,
    pub tree: u64,
}

/// What the values that were given for the row say.
pub fn read_incremental_backup(
    alloc: Global,
    places: &[Given],
    keys: &[Given],
) -> Result<IncrementalBackup, Refusal>
    ensures { AnswersBy (λ x. x) result (incremental_backup (map given_view places.now) (map given_view keys.now)) }
{
    let NodeFilespace { node, filespace } = read_node_filespace(alloc, places, keys)?;
    Ok(IncrementalBackup {
        node,
        filespace,
        tree: field::number(text_at(places, 2), 9999999999).unwrap_or(0),
    })
}

/// Which versions are restored.
#[derive(Debug, Drop)]
pub enum Wanted {
    /// The active versions.
    Active,
    /// The active versions of the files whose paths match this pattern.
    Like(Text),
    /// Of each file the newest version that was stored by this day and was not yet inactive on it.
    On(Day),
    /// The version with this object number, which may be greater than any object's.
    Object(u64),
}

/// What is wanted by PITDATE, or else by OBJECT.
fn wanted_on(day: Option<Day>, object: Option<u64>) -> Wanted
    ensures { result ≡ wanted_on day object }
{
    match (day, object) {
        (Some(day), _) => Wanted::On(day),
        (None, Some(object)) => Wanted::Object(object),
        (None, None) => Wanted::Active,
    }
}

/// What is wanted by PATTERN, or else by PITDATE or OBJECT.
fn read_wanted(
    alloc: Global,
    pattern: Option<&[u8]>,
    day: Option<&[u8]>,
    object: Option<&[u8]>,
) -> Result<Wanted, Refusal>
    ensures { AnswersBy (λ x. x) result (wanted (option_copied pattern.entry) (option_copied day.entry) (option_copied object.entry)) }
{
    match field::text_if(alloc, pattern)? {
        Some(pattern) => Ok(Wanted::Like(pattern)),
        None => Ok(wanted_on(field::day(day), field::number(object, 9999999999))),
    }
}

/// DSMC RESTORE: what is wanted of a filespace, into a tree.
#[derive(Debug, Drop)]
pub struct FilesRestore {
    pub node: NodeName,
    pub filespace: FilespaceName,
    pub tree: u64,
    pub wanted: Wanted,
}

/// What the values that were given for the row say.
pub fn read_files_restore(
    alloc: Global,
    places: &[Given],
    keys: &[Given],
) -> Result<FilesRestore, Refusal>
    ensures { AnswersBy (λ x. x) result (files_restore (map given_view places.now) (map given_view keys.now)) }
{
    let wanted = read_wanted(alloc, text_at(keys, 0), text_at(keys, 1), text_at(keys, 2))?;
    let NodeFilespace { node, filespace } = read_node_filespace(alloc, places, keys)?;
    Ok(FilesRestore {
        node,
        filespace,
        tree: field::number(text_at(places, 2), 9999999999).unwrap_or(0),
        wanted,
    })
}

/// DSMC ARCHIVE: the files of a tree, or those whose paths match a pattern, are archived under the class that is named, or under the default
/// class, with a description, which is empty where none is given; and then taken out of the tree, where that is asked.
#[derive(Debug, Drop)]
pub struct FilesArchive {
    pub node: NodeName,
    pub filespace: FilespaceName,
    pub tree: u64,
    pub pattern: Option<Text>,
    pub class: Option<Name>,
    pub description: kinds::Text,
    pub delete_files: bool,
}

/// The class and the description under which files are archived, by ARCHMC and DESCRIPTION.
fn read_marks(
    alloc: Global,
    class: Option<&[u8]>,
    description: Option<&[u8]>,
) -> Result<(Option<Name>, kinds::Text), Refusal>
    ensures { AnswersBy (λ marks. marks) result (name_if 30 (option_copied class.entry), description_of (option_copied description.entry)) }
{
    let class = field::name_if(alloc, class)?;
    let description = field::description(alloc, description)?;
    Ok((class, description))
}

/// What the values that were given for the row say.
pub fn read_files_archive(
    alloc: Global,
    places: &[Given],
    keys: &[Given],
) -> Result<FilesArchive, Refusal>
    ensures { AnswersBy (λ x. x) result (files_archive (map given_view places.now) (map given_view keys.now)) }
{
    let pattern = field::text_if(alloc, text_at(keys, 0))?;
    let (class, description) = read_marks(alloc, text_at(keys, 1), text_at(keys, 2))?;
    let NodeFilespace { node, filespace } = read_node_filespace(alloc, places, keys)?;
    Ok(FilesArchive {
        node,
        filespace,
        tree: field::number(text_at(places, 2), 9999999999).unwrap_or(0),
        pattern,
        class,
        description,
        delete_files: is_yes(text_at(keys, 3)),
    })
}

/// DSMC RETRIEVE: what was archived of a filespace, into a tree; all of it, or what matches a pattern of paths and has a description.
#[derive(Debug, Drop)]
pub struct FilesRetrieve {
    pub node: NodeName,
    pub filespace: FilespaceName,
    pub tree: u64,
    pub pattern: Option<Text>,
    pub description: Option<kinds::Text>,
}

/// What the values that were given for the row say.
pub fn read_files_retrieve(
    alloc: Global,
    places: &[Given],
    keys: &[Given],
) -> Result<FilesRetrieve, Refusal>
    ensures { AnswersBy (λ x. x) result (files_retrieve (map given_view places.now) (map given_view keys.now)) }
{
    let pattern = field::text_if(alloc, text_at(keys, 0))?;
    let description = field::description_if(alloc, text_at(keys, 1))?;
    let NodeFilespace { node, filespace } = read_node_filespace(alloc, places, keys)?;
    Ok(FilesRetrieve {
        node,
        filespace,
        tree: field::number(text_at(places, 2), 9999999999).unwrap_or(0),
        pattern,
        description,
    })
}
