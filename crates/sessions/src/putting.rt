//! A file that is stored.
ghost use Rattle.std.specs.Prelude.{◌≡◌, ◌≤◌, ◌∷◌, [], ◌^◌, length};
ghost use Rattle.std.specs.Option.{option_copied};
ghost use Rattle.kinds.specs.Answers.{Answers, AnswersBy};
ghost use Rattle.client_files.specs.Reading.{file_of};
ghost use Rattle.steps.specs.Calls.{Call};
ghost use Rattle.sessions.specs.Asking.{AsksNode, AsksPath};
ghost use Rattle.sessions.specs.InTurn.{OrMemory};
ghost use Rattle.sessions.specs.Putting.{CommitsOne, FindsHome, ForcesOne, GivesBack, Names, OrGivesBack, Puts, PutsIn, PutsUnder, Putting, Stores, StoresAndNames, backed_up, behind_drop, found_or, is_lasting, is_stored, object_among, object_stored};

use crate::asking::{ask_node, ask_path, ask_rules};
use crate::filespaces::{find_filespace, unplaced};
use crate::homes::{Home, home_of};
use crate::sending::{Sealed, send};
use choosers::Binder;
use client_files::stopping;
use client_trees::{FileRow, Tree};
use inventory_answers::VersionLine;
use inventory_work::Listed;
use kinds::{Digest, FilespaceName, Name, NodeName, Path, Refusal};
use std::alloc::Global;
use steps::{Asked, Item, Stepper};

// ---- where the file goes

/// Asks for the number of a node.
fn look_up<P: Stepper>(p: &mut P, node: &NodeName) -> Result<u32, Refusal>
    ensures { Call P.did p.old p.new (λ events. OrMemory (AsksNode node.now) events result) }
{
    match node.clone() {
        Ok(node) => ask_node(p, node),
        Err(_) => Err(Refusal::Memory),
    }
}

/// Where a file of the path goes.
fn find_home<P: Stepper>(
    p: &mut P,
    node: &NodeName,
    binder: &Binder,
    path: &Path,
) -> Result<Home, Refusal>
    ensures { Call P.did p.old p.new (λ events. FindsHome node.now binder.now path.now events result) }
{
    match look_up(p, node) {
        Ok(number) => match ask_rules(p, number) {
            Ok(rules) => home_of(number, rules, binder, path),
            Err(refusal) => Err(refusal),
        },
        Err(refusal) => Err(refusal),
    }
}

// ---- the transaction

fn backed_up(
    alloc: Global,
    filespace: u32,
    file: &FileRow,
    class: &Name,
    digest: Digest,
) -> Result<Asked, Refusal>
    ensures { AnswersBy (λ asked. asked) result (backed_up filespace file.now class.now digest) }
{
    let mut items = Vec::new(alloc);
    items.push(Item {
        path: file.path.clone()?,
        class: class.clone()?,
        mtime: file.mtime,
        digest,
    })?;
    Ok(Asked::Backup {
        filespace,
        items: Listed::from_vec(items),
    })
}

/// No ticket can be given back behind a step that was so refused: the hall is halted, or the run is full.
fn is_lasting(refusal: Refusal) -> bool
    ensures { result ≡ is_lasting refusal }
{
    matches!(refusal.number(), 40 | 41)
}

fn behind_drop(refusal: Refusal, dropped: Result<(), Refusal>) -> Refusal
    ensures { result ≡ behind_drop refusal dropped }
{
    match dropped {
        Ok(()) => unplaced(refusal),
        Err(refused) => stopping(refused),
    }
}

/// Gives the ticket back whose file isn't stored for this cause, and answers why it isn't.
fn give_back<P: Stepper>(p: &mut P, ticket: u64, refusal: Refusal) -> Refusal
    ensures { Call P.did p.old p.new (λ events. GivesBack ticket refusal events result) }
{
    if is_lasting(refusal) {
        unplaced(refusal)
    } else {
        behind_drop(refusal, p.drop_ticket(ticket))
    }
}

/// Commits a file with its ticket.
fn commit_one<P: Stepper>(
    alloc: Global,
    p: &mut P,
    filespace: u32,
    file: &FileRow,
    class: &Name,
    sealed: Sealed,
) -> Result<u64, Refusal>
    ensures { Call P.did p.old p.new (λ events. OrMemory (CommitsOne (backed_up filespace file.now class.now sealed.digest) sealed.ticket) events result) }
{
    let asked = match backed_up(alloc, filespace, file, class, sealed.digest) {
        Ok(asked) => asked,
        Err(refusal) => return Err(refusal),
    };
    let answer = p.commit(&asked, &[sealed.ticket]);
    drop(asked);
    answer
}

/// Commits a file with its ticket, or gives the ticket back.
fn commit_or_give_back<P: Stepper>(
    alloc: Global,
    p: &mut P,
    filespace: u32,
    file: &FileRow,
    class: &Name,
    sealed: Sealed,
) -> Result<u64, Refusal>
    ensures { Call P.did p.old p.new (λ events. OrGivesBack sealed.ticket (OrMemory (CommitsOne (backed_up filespace file.now class.now sealed.digest) sealed.ticket)) events result) }
{
    match commit_one(alloc, p, filespace, file, class, sealed) {
        Ok(number) => Ok(number),
        Err(refusal) => Err(give_back(p, sealed.ticket, refusal)),
    }
}

/// Makes all durable behind the transaction with this number, and answers the number.
fn force_behind<P: Stepper>(p: &mut P, number: u64) -> Result<u64, Refusal>
    ensures { Call P.did p.old p.new (λ events. ForcesOne number events result) }
{
    match p.force() {
        Ok(_) => Ok(number),
        Err(refusal) => Err(refusal),
    }
}

/// Commits a file with its ticket and makes that durable, or gives the ticket back.
fn store<P: Stepper>(
    alloc: Global,
    p: &mut P,
    filespace: u32,
    file: &FileRow,
    class: &Name,
    sealed: Sealed,
) -> Result<u64, Refusal>
    ensures { Call P.did p.old p.new (λ events. Stores filespace file.now class.now sealed events result) }
{
    match commit_or_give_back(alloc, p, filespace, file, class, sealed) {
        Ok(number) => force_behind(p, number),
        Err(refusal) => Err(refusal),
    }
}

// ---- the object's number

/// Asks for the versions of a path.
fn ask_all<P: Stepper>(
    p: &mut P,
    node: &NodeName,
    filespace: &FilespaceName,
    path: &Path,
) -> Result<Listed<VersionLine>, Refusal>
    ensures { Call P.did p.old p.new (λ events. OrMemory (AsksPath node.now filespace.now path.now) events result) }
{
    match node.clone() {
        Ok(node) => match filespace.clone() {
            Ok(filespace) => match path.clone() {
                Ok(path) => ask_path(p, node, filespace, path),
                Err(_) => Err(Refusal::Memory),
            },
            Err(_) => Err(Refusal::Memory),
        },
        Err(_) => Err(Refusal::Memory),
    }
}

/// What was found, or that it isn't there.
fn found_or<A: Copy>(found: Option<A>) -> Result<A, Refusal>
    ensures { result ≡ found_or found }
{
    match found {
        Some(it) => Ok(it),
        None => Err(Refusal::NotFound),
    }
}

fn is_stored(file: &FileRow, digest: &Digest, line: &VersionLine) -> bool
    ensures { result ≡ is_stored file.now digest.now line.now }
{
    line.mtime == file.mtime && line.digest == *digest
}

fn object_among(lines: &[VersionLine], file: &FileRow, digest: &Digest) -> Option<u64>
    ensures { result ≡ object_among file.now digest.now lines.now }
{
    match lines.iter().find(|line| is_stored(file, digest, line)) {
        Some(line) => Some(line.object),
        None => None,
    }
}

fn object_stored(lines: &[VersionLine], file: &FileRow, digest: &Digest) -> Result<u64, Refusal>
    ensures { result ≡ object_stored file.now digest.now lines.now }
{
    found_or(object_among(lines, file, digest))
}

/// Asks for the object's number of a file that was stored.
fn name<P: Stepper>(
    p: &mut P,
    node: &NodeName,
    filespace: &FilespaceName,
    file: &FileRow,
    digest: &Digest,
) -> Result<u64, Refusal>
    ensures { Call P.did p.old p.new (λ events. Names node.now filespace.now file.now digest.now events result) }
{
    match ask_all(p, node, filespace, &file.path) {
        Ok(lines) => {
            let object = object_stored(lines.as_slice(), file, digest);
            drop(lines);
            object
        }
        Err(refusal) => Err(refusal),
    }
}

// ---- all of it

fn store_and_name<P: Stepper>(
    alloc: Global,
    p: &mut P,
    node: &NodeName,
    filespace: &FilespaceName,
    number: u32,
    file: &FileRow,
    class: &Name,
    sealed: Sealed,
) -> Result<u64, Refusal>
    ensures { Call P.did p.old p.new (λ events. StoresAndNames node.now filespace.now number file.now class.now sealed events result) }
{
    match store(alloc, p, number, file, class, sealed) {
        Ok(_) => name(p, node, filespace, file, &sealed.digest),
        Err(refusal) => Err(refusal),
    }
}

/// Stores a file in the filespace with this number.
fn put_in<P: Stepper, T: Tree>(
    alloc: Global,
    p: &mut P,
    tree: &mut T,
    node: &NodeName,
    filespace: &FilespaceName,
    number: u32,
    file: &FileRow,
    home: &Home,
    buffer: &mut [u8],
) -> Result<u64, Refusal>
    requires some { 1 ≤ length buffer.old }
    requires few { length buffer.old ≤ 2 ^ 16 }
    ensures puts { Call P.did p.old p.new (λ events. PutsIn node.now filespace.now (file_of (T.files tree.old) file.now.path) file.now home.now number events result) }
    ensures kept { T.files tree.new ≡ T.files tree.old }
    ensures rises { T.fault_count tree.old ≤ T.fault_count tree.new }
    ensures long { length buffer.new ≡ length buffer.old }
{
    match send(p, tree, file, home.pool, buffer) {
        Ok(sealed) => {
            store_and_name(alloc, p, node, filespace, number, file, &home.class, sealed)
        }
        Err(refusal) => Err(refusal),
    }
}

/// Stores a file that goes there.
fn put_under<P: Stepper, T: Tree>(
    alloc: Global,
    p: &mut P,
    tree: &mut T,
    node: &NodeName,
    filespace: &FilespaceName,
    file: &FileRow,
    home: &Home,
    buffer: &mut [u8],
) -> Result<u64, Refusal>
    requires some { 1 ≤ length buffer.old }
    requires few { length buffer.old ≤ 2 ^ 16 }
    ensures puts { Call P.did p.old p.new (λ events. PutsUnder node.now filespace.now (file_of (T.files tree.old) file.now.path) file.now home.now events result) }
    ensures kept { T.files tree.new ≡ T.files tree.old }
    ensures rises { T.fault_count tree.old ≤ T.fault_count tree.new }
    ensures long { length buffer.new ≡ length buffer.old }
{
    match find_filespace(p, node, filespace, home.node) {
        Ok(number) => put_in(alloc, p, tree, node, filespace, number, file, home, buffer),
        Err(refusal) => Err(refusal),
    }
}

/// Finds where a file goes, and stores it there.
fn find_and_put<P: Stepper, T: Tree>(
    alloc: Global,
    p: &mut P,
    tree: &mut T,
    node: &NodeName,
    filespace: &FilespaceName,
    file: &FileRow,
    binder: &Binder,
    buffer: &mut [u8],
) -> Result<u64, Refusal>
    requires some { 1 ≤ length buffer.old }
    requires few { length buffer.old ≤ 2 ^ 16 }
    ensures puts { Call P.did p.old p.new (λ events. Puts node.now filespace.now binder.now (file_of (T.files tree.old) file.now.path) file.now events result) }
    ensures kept { T.files tree.new ≡ T.files tree.old }
    ensures rises { T.fault_count tree.old ≤ T.fault_count tree.new }
    ensures long { length buffer.new ≡ length buffer.old }
{
    match find_home(p, node, binder, &file.path) {
        Ok(home) => put_under(alloc, p, tree, node, filespace, file, &home, buffer),
        Err(refusal) => Err(refusal),
    }
}

/// Stores one file of a client, as it was listed, in a filespace of its node, under the class that the list binds its path to, and answers its object's number. The filespace is
/// defined where it isn't there. The buffer has 1 to 65,536 bytes. Where others hold the room that the file needs it waits and tries again. A ticket that
/// isn't committed is given back, unless that is with `LogFault` or `RunFull`. `NotFound` where the node isn't there, or the pool or filespace went; `BadValue` with 0 where the path is left
/// out; `NoBackupGroup` where its class has no backup copy group, or no policy set is active; `NoSpace`, `WriteFault`, `TreeFault`, `Changed`, `TooLarge` and `InventoryFull` as
/// `send_file` has them of a file; `RecordFull`; `Busy` where a step of its own and then `wait` answer so; and `LogFault`, `RunFull` or `Memory`.
pub fn put_file<P: Stepper, T: Tree>(
    alloc: Global,
    p: &mut P,
    tree: &mut T,
    node: &NodeName,
    filespace: &FilespaceName,
    file: &FileRow,
    binder: &Binder,
    buffer: &mut [u8],
) -> Result<u64, Refusal>
    requires some { 1 ≤ length buffer.old }
    requires few { length buffer.old ≤ 2 ^ 16 }
    ensures puts { Call P.did p.old p.new (λ events. Putting node.now filespace.now binder.now (file_of (T.files tree.old) file.now.path) file.now events result) }
    ensures kept { T.files tree.new ≡ T.files tree.old }
    ensures rises { T.fault_count tree.old ≤ T.fault_count tree.new }
    ensures long { length buffer.new ≡ length buffer.old }
{
    find_and_put(alloc, p, tree, node, filespace, file, binder, buffer)
}
